//! What is kept of a record or a block that has a packet.

ghost use Rattle.std.specs.Prelude.{◌≡◌, ◌∷◌, [], Err, None, Ok, OnOk};
ghost use Rattle.filter_vm.specs.declared.machine.Outcome.{Outcome as Ended};
ghost use Rattle.console.specs.Programs.{programs_of};
ghost use Rattle.keep_engine.specs.Keeping.{is_picked};
ghost use Rattle.keep_engine.specs.Sieving.{Appends, KeepsOne};

use console::{CodeFault, Filter, is_link};
use filter_vm::Outcome;
use pcap_reader::Seen;
use std::alloc::{AllocError, Global};

/// Which packets of a capture are kept.
#[derive(Clone, Copy, Debug)]
pub struct Wanted {
    /// Whether those are kept that the filter doesn't accept, in place of those that it accepts.
    pub inverted: bool,
    /// The link type whose packets alone are kept, if one is named.
    pub link: Option<u32>,
}

/// What is kept, up to the first packet that is wanted and for whose link type CODE has no program.
#[derive(Drop)]
pub struct KeptBytes {
    pub bytes: Vec<u8>,
    /// Why CODE has none, once there was such a packet. Nothing is kept after it.
    pub stop: Option<CodeFault>,
}

impl KeptBytes {
    /// Nothing yet. Takes no memory.
    pub fn new(alloc: Global) -> KeptBytes
        ensures bytes { result.bytes.items ≡ [] }
        ensures stop { result.stop ≡ None }
    {
        KeptBytes {
            bytes: Vec::new(alloc),
            stop: None,
        }
    }

    /// Appends the bytes of what is kept.
    #[inline(always)]
    pub fn append(&mut self, bytes: &[u8]) -> Result<(), AllocError>
        ensures { OnOk result (Appends (Ok bytes.now ∷ []) self.old self.new) }
    {
        if self.stop.is_none() {
            self.bytes.extend_from_slice(bytes)?;
        }
        Ok(())
    }

    /// Stops for this reason, if it hasn't stopped.
    fn stop(&mut self, fault: CodeFault)
        ensures { Appends (Err fault ∷ []) self.old self.new }
    {
        if self.stop.is_none() {
            self.stop = Some(fault);
        }
    }
}

/// Runs the filter on a packet, if its link type is one that is wanted, and appends the bytes of its record or block if it is kept.
// Inlined, since a call would cost as much as a short filter.
#[inline(always)]
pub fn keep_one(
    filter: &Filter,
    wanted: Wanted,
    link: u32,
    packet: Seen,
    bytes: &[u8],
    kept: &mut KeptBytes,
) -> Result<(), AllocError>
    ensures { OnOk result (KeepsOne (programs_of filter.now) wanted link packet.entry bytes.now kept.old kept.new) }
{
    if !is_link(wanted.link, link) {
        return Ok(());
    }
    match filter.program(link) {
        Ok(program) => {
            let outcome = program.run(packet.bytes, packet.original);
            if is_picked(wanted.inverted, outcome) {
                kept.append(bytes)?;
            }
        }
        Err(fault) => kept.stop(fault),
    }
    Ok(())
}

/// Whether the filter accepts a packet with this outcome; or, `inverted`, whether it doesn't.
#[inline(always)]
fn is_picked(inverted: bool, outcome: Outcome) -> bool
    ensures { result ≡ is_picked inverted outcome }
{
    if inverted {
        outcome.verdict == 0
    } else {
        outcome.verdict > 0
    }
}
