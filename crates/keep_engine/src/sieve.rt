//! A capture of either format that comes in pieces, of which some packets are kept.

ghost use Rattle.std.specs.Prelude.{◌≡◌, ◌++◌, IsSome, IsTrue, List, OnOk, ℕ, [], length};
ghost use Rattle.keep_engine.specs.declared.choice.Wanted.{Wanted as Wants};
ghost use Rattle.console.specs.Programs.{Programs, programs_of};
ghost use Rattle.keep_engine.specs.Keeping.{Keeps, Part};
ghost use Rattle.keep_engine.specs.Sieving.{Begins, HasSifted, HasStopped, Sifts};

use crate::block_sieve::BlockSieve;
use crate::choice::{KeptBytes, Wanted};
use crate::record_sieve::RecordSieve;
use capture_reader::ReadFault;
use console::{Filter, LinkTypes};
use pcap_reader::CaptureFault as SavefileFault;
use pcapng_reader::is_pcapng;
use std::alloc::{AllocError, Global};

/// How many bytes tell the format.
const MAGIC: usize = 4;

/// A capture that comes in pieces, cut anywhere, whose format its first four bytes tell.
#[derive(Drop)]
pub struct Sieve {
    alloc: Global,
    /// The first bytes, up to the end of the piece that told the format.
    front: Vec<u8>,
    format: Format,
}

/// The format of a capture, and what was taken of it.
#[derive(Drop)]
pub enum Format {
    /// Fewer than four bytes have come.
    Unknown,
    Savefile(RecordSieve),
    Pcapng(BlockSieve),
}

impl Sieve {
    /// A sieve that was given nothing. Takes no memory.
    pub fn new(alloc: Global) -> Sieve
        ensures { (programs : Programs) (wanted : Wants) → HasSifted programs wanted [] result [] }
    {
        Sieve {
            alloc,
            front: Vec::new(alloc),
            format: Format::Unknown,
        }
    }

    /// Takes the next piece, and appends what is kept of it. All pieces together have fewer than 2^64 bytes.
    pub fn piece(
        &mut self,
        filter: &Filter,
        wanted: Wanted,
        piece: &[u8],
        kept: &mut KeptBytes,
    ) -> Result<(), AllocError>
        ensures { OnOk result (Sifts (HasSifted (programs_of filter.now) wanted) piece.now self.old self.new kept.old kept.new) }
    {
        match &mut self.format {
            Format::Unknown => self.begin(filter, wanted, piece, kept),
            Format::Savefile(sieve) => sieve.piece(filter, wanted, piece, kept),
            Format::Pcapng(sieve) => sieve.piece(filter, wanted, piece, kept),
        }
    }

    /// Takes the next piece of a capture whose format wasn't told before.
    fn begin(
        &mut self,
        filter: &Filter,
        wanted: Wanted,
        piece: &[u8],
        kept: &mut KeptBytes,
    ) -> Result<(), AllocError>
        requires { self.old.format ≡ Format.Unknown }
        ensures { OnOk result (Begins (programs_of filter.now) wanted (self.old.front.items ++ piece.now) self.new kept.old kept.new) }
    {
        self.front.extend_from_slice(piece)?;
        if self.front.len() < MAGIC {
            return Ok(());
        }
        if is_pcapng(self.front.as_slice()) {
            let mut sieve = BlockSieve::new(self.alloc);
            sieve.piece(filter, wanted, self.front.as_slice(), kept)?;
            self.format = Format::Pcapng(sieve);
        } else {
            let mut sieve = RecordSieve::new(self.alloc);
            sieve.piece(filter, wanted, self.front.as_slice(), kept)?;
            self.format = Format::Savefile(sieve);
        }
        Ok(())
    }

    /// The link types of the interfaces in what was taken.
    pub fn links(&self) -> LinkTypes {
        match &self.format {
            Format::Unknown => LinkTypes::None,
            Format::Savefile(sieve) => sieve.links(),
            Format::Pcapng(sieve) => sieve.links(),
        }
    }

    /// Whether it has met a fault that stands whatever follows.
    pub fn has_stopped(&self) -> bool
        ensures { IsTrue result → HasStopped self.now }
    {
        match &self.format {
            Format::Unknown => false,
            Format::Savefile(sieve) => sieve.has_stopped(),
            Format::Pcapng(sieve) => sieve.has_stopped(),
        }
    }

    /// The fault of a capture that ends after so many bytes, if it has one.
    pub fn ending(&self, taken: u64) -> Option<ReadFault>
        ensures keeps { (programs : Programs) (wanted : Wants) (input : List ℕ) (kept : List Part) → HasSifted programs wanted input self.now kept → taken ≡ length input
            → Keeps programs wanted input result kept }
        ensures stopped { HasStopped self.now → IsSome result }
    {
        match &self.format {
            Format::Unknown => Some(ReadFault::Savefile(SavefileFault::TruncatedHeader)),
            Format::Savefile(sieve) => Some(ReadFault::Savefile(sieve.ending(taken)?)),
            Format::Pcapng(sieve) => Some(ReadFault::Pcapng(sieve.ending()?)),
        }
    }
}
