//! What the owner of a core asks of it between its turns.

ghost use Rattle.std.specs.Prelude.{◌≡◌, ◌≤◌, ◌<◌, ◌++◌, ◌∷◌, [], ℕ, length, take, drop, IfOk, OnErr, IfErr};
ghost use Rattle.filter_table.specs.Tables.{Accepting};
ghost use Rattle.core_loop.specs.Receiving.{AreTooMany, LacksRoom};

use crate::cause::Cause;
use crate::noting::noted_receipt;
use crate::refusal::next_stamp;
use crate::running::Core;
use core_links::Links;
use filter_table::{Kept, Op};
use std::alloc::AllocError;
use table_replica::{Receivers, Replica, Workspace};
use thiserror::Error;

/// Why a packet isn't received. Nothing has changed.
#[derive(Clone, Copy, PartialEq, Eq, Debug, Error)]
pub enum NotReceived {
    /// The core has stopped.
    #[error("the core has stopped")]
    Stopped(Cause),
    /// The stamp of the event would be too great.
    #[error("the stamp of the event would be too great")]
    Spent,
    /// So many endpoints get the packet, and there is room for fewer.
    #[error("{0} endpoints get the packet, and there is room for fewer")]
    NoRoom(usize),
    /// Memory was refused.
    #[error("out of memory")]
    NoMemory,
}

impl<L: Links> Core<L> {
    ghost use Rattle.std.specs.Prelude.{◌≡◌, ◌≤◌, ◌+◌, ◌++◌, ◌∷◌, [], ℕ, length, take, drop, IfOk, IfErr, OnOk, OnErr};
    ghost use Rattle.core_loop.specs.Cores.{AreShort, begun};
    ghost use Rattle.core_loop.specs.Answering.{AreDecided, IsGivenCount, decisions, under_way};
    ghost use Rattle.core_loop.specs.Receiving.{HasReceived, IsRefused};

    /// One request more, which the core begins after those that it has. Of a core other than 0 a program has at most 4,096
    /// instructions. A core that has stopped keeps it, and never begins it.
    pub fn ask(&mut self, op: Op) -> Result<(), AllocError>
        requires short { AreShort self.old.number (op ∷ []) }
        ensures ok { OnOk result (self.new ≡ record self.old { pending = self.old.pending ++ op ∷ [] }) }
        ensures err { OnErr result (self.new ≡ self.old) }
    {
        match self.requests.push_back(op) {
            Ok(()) => {
                self.given = self.given.saturating_add(1);
                Ok(())
            }
            Err(_) => Err(AllocError),
        }
    }

    /// How many requests the core was given in all; no count is above 2^64 - 1.
    pub fn given(&self) -> u64
        ensures { IsGivenCount result self.now.history self.now.pending }
    {
        self.given
    }

    /// How many of its requests the core has begun that have no decision: one or none.
    pub fn under_way(&self) -> u64
        ensures { result ≡ under_way self.now.part }
    {
        u64::from(self.part.has_under_way())
    }

    /// Each request that the core has begun has its decision, but for one that may be under way. So the n-th decision that its
    /// turns hand out is that on the n-th request that it was given. A law: nothing is done.
    pub fn are_decided(&self)
        ensures { AreDecided self.now.part self.now.history }
    {
        let _ = &self.part;
    }

    /// The endpoints that get a packet at the core's version now, at the front of the room, with the bytes that each keeps: their
    /// number. The packet, of which these bytes were captured and which had `original` bytes, stays where it is. The receipt is an
    /// event of the core's history. It takes memory only where a change of the table since made it necessary.
    // In line, so that its result stays in registers.
    #[inline(always)]
    pub fn receive(
        &mut self,
        bytes: &[u8],
        original: u32,
        room: &mut [Kept],
    ) -> Result<usize, NotReceived>
        ensures ok { IfOk result (λ count. (count ≤ length room.new) × HasReceived self.old self.new bytes.now original (take count room.new)) }
        ensures rest { IfOk result (λ count. drop count room.new ≡ drop count room.old) }
        ensures room { length room.new ≡ length room.old }
        ensures why { IfErr result (IsRefused self.old bytes.now original (length room.old)) }
        ensures err { OnErr result (self.new ≡ self.old) }
        ensures same_room { OnErr result (room.new ≡ room.old) }
    {
        if let Some(cause) = self.stopped {
            return Err(NotReceived::Stopped(cause));
        }
        let Some(stamp) = next_stamp(self.clock, 0) else {
            return Err(NotReceived::Spent);
        };
        let replica = self.part.replica();
        let count = accepting_into(replica, &mut self.workspace, bytes, original, room)?;
        let version = replica.version();
        self.history = noted_receipt(
            &self.history,
            self.number,
            stamp,
            version,
            bytes,
            original,
            &room[..count],
        );
        self.clock = stamp;
        Ok(count)
    }
}

// The endpoints that get a packet by the shown table, at the front of the room.
#[inline(always)]
fn accepting_into(
    replica: &Replica,
    workspace: &mut Workspace,
    bytes: &[u8],
    original: u32,
    room: &mut [Kept],
) -> Result<usize, NotReceived>
    ensures ok { IfOk result (λ count. (count ≤ length room.new) × Accepting replica.now.shown (record { bytes = bytes.now; original = original }) (take count room.new)) }
    ensures rest { IfOk result (λ count. drop count room.new ≡ drop count room.old) }
    ensures room { length room.new ≡ length room.old }
    ensures why { IfErr result (LacksRoom replica.now.shown bytes.now original (length room.old)) }
    ensures same_room { OnErr result (room.new ≡ room.old) }
{
    let Ok(found) = replica.receivers(workspace, bytes, original) else {
        return Err(NotReceived::NoMemory);
    };
    match found {
        Receivers::Nobody => Ok(0),
        Receivers::One(kept) => write_one(room, kept),
        Receivers::Listed => write_several(room, &workspace.kept),
    }
}

// Writes what one endpoint keeps to the front of the room, if there is a place. Gives 1.
#[inline(always)]
fn write_one(room: &mut [Kept], kept: Kept) -> Result<usize, NotReceived>
    ensures ok { IfOk result (λ count. (count ≤ length room.new) × (take count room.new ≡ kept ∷ [])) }
    ensures rest { IfOk result (λ count. drop count room.new ≡ drop count room.old) }
    ensures room { length room.new ≡ length room.old }
    ensures why { IfErr result (AreTooMany (kept ∷ []) (length room.old)) }
    ensures same { OnErr result (room.new ≡ room.old) }
{
    if room.is_empty() {
        return Err(NotReceived::NoRoom(1));
    }
    room[0] = kept;
    Ok(1)
}

// Writes what is kept to the front of the room, if there are as many places. Gives how many these are.
#[inline(never)]
fn write_several(room: &mut [Kept], kept: &[Kept]) -> Result<usize, NotReceived>
    ensures ok { IfOk result (λ count. (count ≤ length room.new) × (take count room.new ≡ kept.now)) }
    ensures rest { IfOk result (λ count. drop count room.new ≡ drop count room.old) }
    ensures room { length room.new ≡ length room.old }
    ensures why { IfErr result (AreTooMany kept.now (length room.old)) }
    ensures same { OnErr result (room.new ≡ room.old) }
{
    let count = kept.len();
    if count > room.len() {
        return Err(NotReceived::NoRoom(count));
    }
    room[..count].copy_from_slice(kept);
    Ok(count)
}
