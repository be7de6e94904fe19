//! A savefile that comes in pieces, of which some records are kept.

ghost use Rattle.std.specs.Prelude.{◌≡◌, IsSome, IsTrue, List, OnOk, ℕ, [], length};
ghost use Rattle.keep_engine.specs.declared.choice.Wanted.{Wanted as Wants};
ghost use Rattle.console.specs.Programs.{Programs, programs_of};
ghost use Rattle.keep_engine.specs.Keeping.{KeepsSavefile, Part};
ghost use Rattle.keep_engine.specs.Sieving.{HasSiftedRecords, HasStoppedRecords, Opens, Sifts};

use crate::choice::{KeptBytes, Wanted};
use crate::sifting::{take_piece, take_records};
use capture_reader::savefile_link;
use console::{Filter, LinkTypes};
use pcap_reader::{CaptureFault, Header};
use savefile_front::{FILE_HEADER, header_of};
use std::alloc::{AllocError, Global};

/// A savefile that comes in pieces, cut anywhere, whose whole records are taken as soon as they are there.
pub struct RecordSieve {
    alloc: Global,
    /// The file's header, or what is wrong with it so far.
    header: Result<Header, CaptureFault>,
    /// The bytes that were not taken yet: of the file's header, or of a record.
    part: Vec<u8>,
    /// Whether they begin with a record that is too long.
    long: bool,
}

// By hand, so that the proofs of its owners have one call and not a drop of each part.
impl Drop for RecordSieve {
    fn drop(self) {
        let RecordSieve {
            alloc: _,
            header: _,
            part: _,
            long: _,
        } = self;
    }
}

impl RecordSieve {
    /// A sieve that was given nothing. Takes no memory.
    pub fn new(alloc: Global) -> RecordSieve
        ensures { (programs : Programs) (wanted : Wants) → HasSiftedRecords programs wanted [] result [] }
    {
        RecordSieve {
            alloc,
            header: Err(CaptureFault::TruncatedHeader),
            part: Vec::new(alloc),
            long: false,
        }
    }

    /// Takes the next piece, and appends what is kept of it: the file's header, and of the records that are whole then those
    /// that are kept.
    pub fn piece(
        &mut self,
        filter: &Filter,
        wanted: Wanted,
        piece: &[u8],
        kept: &mut KeptBytes,
    ) -> Result<(), AllocError>
        ensures { OnOk result (Sifts (HasSiftedRecords (programs_of filter.now) wanted) piece.now self.old self.new kept.old kept.new) }
    {
        match self.header {
            Ok(header) => {
                self.long = take_piece(filter, wanted, header, &mut self.part, piece, kept)?;
                Ok(())
            }
            Err(_) => {
                self.part.extend_from_slice(piece)?;
                self.open(filter, wanted, kept)
            }
        }
    }

    /// Reads the file's header, once it is whole, keeps it, and takes the records after it.
    fn open(
        &mut self,
        filter: &Filter,
        wanted: Wanted,
        kept: &mut KeptBytes,
    ) -> Result<(), AllocError>
        ensures { OnOk result (Opens (programs_of filter.now) wanted self.old.part.items self.new kept.old kept.new) }
    {
        let front = self.part.len().min(FILE_HEADER);
        match header_of(self.alloc, &self.part[..front])? {
            Err(fault) => self.header = Err(fault),
            Ok(header) => {
                self.header = Ok(header);
                let records = self.part.split_off(front)?;
                kept.append(self.part.as_slice())?;
                self.part = records;
                self.long = take_records(filter, wanted, header, &mut self.part, kept)?;
            }
        }
        Ok(())
    }

    /// The link types of the interface, once the header was read.
    pub fn links(&self) -> LinkTypes {
        match self.header {
            Ok(header) => LinkTypes::One(savefile_link(header)),
            Err(_) => LinkTypes::None,
        }
    }

    /// Whether it has met a fault that stands whatever follows.
    pub fn has_stopped(&self) -> bool
        ensures { IsTrue result → HasStoppedRecords self.now }
    {
        match self.header {
            Ok(_) => self.long,
            Err(CaptureFault::TruncatedHeader) => false,
            Err(_) => true,
        }
    }

    /// The fault of a capture that ends after so many bytes, if it has one.
    pub fn ending(&self, taken: u64) -> Option<CaptureFault>
        ensures keeps { (programs : Programs) (wanted : Wants) (input : List ℕ) (kept : List Part) → HasSiftedRecords programs wanted input self.now kept → taken ≡ length input
            → KeepsSavefile programs wanted input result kept }
        ensures stopped { HasStoppedRecords self.now → IsSome result }
    {
        match self.header {
            Err(fault) => Some(fault),
            Ok(_) => {
                let place = taken.saturating_sub(self.part.len() as u64);
                if self.long {
                    Some(CaptureFault::TooLong(place))
                } else if self.part.is_empty() {
                    None
                } else {
                    Some(CaptureFault::TruncatedRecord(place))
                }
            }
        }
    }
}
