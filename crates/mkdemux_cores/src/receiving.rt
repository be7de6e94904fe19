//! Packets.

ghost use Rattle.std.specs.Prelude.{◌≡◌, ◌≢◌, ◌↔◌, ◌≤◌, ◌⊎◌, None, length, take, drop};
ghost use Rattle.core_loop.specs.Receiving.{HasReceived};
ghost use Rattle.mkdemux_cores.specs.Leading.{Leads};
ghost use Rattle.mkdemux_cores.specs.Receipts.{IsNotReceived};

use crate::answers::{CLOSED, DONE, NO_MEMORY, NO_ROOM, SPENT, STOPPED};
use crate::handle::CoreHandle;
use core_loop::{Core, NotReceived, RingLinks};
use filter_table::Kept;
use std::alloc::Global;

/// The endpoints that get a packet at the core's version, in increasing order, at the front of the room, each with how many bytes it
/// keeps; `count` is their number. The packet had `original` bytes, of which these were captured. `DONE`, else `NO_ROOM`, `STOPPED`,
/// `SPENT`, `NO_MEMORY` or `CLOSED`, and nothing has changed but the count, which says how much room is needed for `NO_ROOM`
/// and is else 0. Takes memory only after a change of the table.
#[unsafe(no_mangle)]
pub extern "C" fn mkdemux_receive(
    alloc: Global,
    core: &mut CoreHandle,
    packet: &[u8],
    original: u32,
    room: &mut [Kept],
    count: &mut usize,
) -> u32
    ensures closed { result ≡ CLOSED ↔ core.old.core ≡ None }
    ensures received { result ≡ DONE → Leads (λ old new. HasReceived old new packet.now original (take count.new room.new)) core.old.core core.new.core }
    ensures fits { result ≡ DONE → count.new ≤ length room.old }
    ensures rest { result ≡ DONE → drop count.new room.new ≡ drop count.new room.old }
    ensures refused { result ≢ DONE → result ≢ CLOSED → Leads (λ old new. IsNotReceived old packet.now original (length room.old) result count.new) core.old.core core.new.core }
    ensures same { result ≢ DONE → (core.new.core ≡ core.old.core) × (room.new ≡ room.old) }
    ensures count { result ≢ DONE → result ≢ NO_ROOM → count.new ≡ 0 }
    ensures room { length room.new ≡ length room.old }
{
    let Some(mut open) = core.take(alloc) else {
        *count = 0;
        return CLOSED;
    };
    let answer = receive_at(&mut open, packet, original, room, count);
    core.put(open);
    answer
}

/// The receipt of a packet by a core.
fn receive_at(
    core: &mut Core<RingLinks>,
    packet: &[u8],
    original: u32,
    room: &mut [Kept],
    count: &mut usize,
) -> u32
    ensures open { result ≢ CLOSED }
    ensures received { result ≡ DONE → HasReceived core.old core.new packet.now original (take count.new room.new) }
    ensures fits { result ≡ DONE → count.new ≤ length room.old }
    ensures rest { result ≡ DONE → drop count.new room.new ≡ drop count.new room.old }
    ensures refused { result ≢ DONE → IsNotReceived core.old packet.now original (length room.old) result count.new }
    ensures same { result ≢ DONE → (core.new ≡ core.old) × (room.new ≡ room.old) }
    ensures count { result ≢ DONE → result ≢ NO_ROOM → count.new ≡ 0 }
    ensures room { length room.new ≡ length room.old }
{
    let (answer, written) = match core.receive(packet, original, room) {
        Ok(written) => (DONE, written),
        Err(NotReceived::NoRoom(needed)) => (NO_ROOM, needed),
        Err(NotReceived::Stopped(_)) => (STOPPED, 0),
        Err(NotReceived::Spent) => (SPENT, 0),
        Err(NotReceived::NoMemory) => (NO_MEMORY, 0),
    };
    *count = written;
    answer
}
