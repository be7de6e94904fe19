//! The receipt of a packet.

ghost use Rattle.std.specs.Prelude.{◌≤◌, ℕ, IfOk};
ghost use Rattle.world_model.specs.Cases.{ReceivesAt};

use filter_table::KeptList;
use pcap_reader::SharedPacket;
use std::alloc::{AllocError, Global};
use table_replica::Replica;
use world_events::Answer;

/// A core with this replica receives a packet, whose floor is at most the replica's version.
pub fn receive(
    replica: &Replica,
    alloc: Global,
    packet: &SharedPacket,
) -> Result<Answer, AllocError>
    ensures { (floor : ℕ) → floor ≤ replica.now.shown.version → IfOk result (ReceivesAt replica.now.shown replica.now.shown.version packet.now floor) }
{
    let kept = replica.accepting(alloc, packet.bytes(), packet.original())?;
    Ok(Answer::Delivered {
        version: replica.version(),
        kept: KeptList::from_vec(kept),
    })
}
