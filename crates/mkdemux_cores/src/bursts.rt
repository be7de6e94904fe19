//! Packets that come together.

ghost use Rattle.std.specs.Prelude.{◌≡◌, ◌≢◌, ◌≤◌, ◌↔◌, None, length};
ghost use Rattle.mkdemux_cores.specs.Bursts.{IsBurst};
ghost use Rattle.mkdemux_cores.specs.Leading.{Leads};
ghost use Rattle.mkdemux_cores.specs.Receipts.{why_number};

use crate::answers::{CLOSED, DONE, NO_MEMORY, NO_ROOM, SPENT, STOPPED};
use crate::handle::CoreHandle;
use core_loop::{Core, NotReceived, RingLinks};
use filter_table::Kept;
use std::alloc::Global;

/// A packet in the caller's memory.
#[repr(C)]
#[derive(Clone, Copy)]
pub struct Packet<'a> {
    /// The bytes that were captured.
    pub bytes: &'a [u8],
    /// How many bytes the packet had.
    pub original: u32,
}

/// Receives packets one after another, each as `mkdemux_receive` does, all at the core's version. The endpoints of each stand in the
/// room after those of the one before, and `counts` has how many each gets. `done` is how many packets were received: all of them for
/// `DONE`. Else it is 0 for `CLOSED`, and for `NO_ROOM`, `STOPPED`, `SPENT` or `NO_MEMORY` the next one wasn't received for this
/// reason, and none after it. The rest of the room and of the counts, of which there may be more than packets, stays as it was.
#[unsafe(no_mangle)]
pub extern "C" fn mkdemux_receive_packets(
    alloc: Global,
    core: &mut CoreHandle,
    packets: &[Packet<'_>],
    room: &mut [Kept],
    counts: &mut [usize],
    done: &mut usize,
) -> u32
    requires { length packets.now ≤ length counts.old }
    ensures closed { result ≡ CLOSED ↔ core.old.core ≡ None }
    ensures received { result ≢ CLOSED → Leads (λ old new. IsBurst old new packets.now result done.new room.old room.new counts.old counts.new) core.old.core core.new.core }
    ensures unchanged { result ≡ CLOSED → (core.new.core ≡ None) × (done.new ≡ 0) × (room.new ≡ room.old) × (counts.new ≡ counts.old) }
{
    let Some(mut open) = core.take(alloc) else {
        *done = 0;
        return CLOSED;
    };
    let answer = receive_each(&mut open, packets, room, counts, done);
    core.put(open);
    answer
}

/// The receipts of packets by a core, until one isn't received.
fn receive_each(
    core: &mut Core<RingLinks>,
    packets: &[Packet<'_>],
    room: &mut [Kept],
    counts: &mut [usize],
    done: &mut usize,
) -> u32
    requires { length packets.now ≤ length counts.old }
    ensures open { result ≢ CLOSED }
    ensures received { IsBurst core.old core.new packets.now result done.new room.old room.new counts.old counts.new }
{
    let mut used = 0;
    *done = 0;
    for packet in packets {
        match core.receive(packet.bytes, packet.original, &mut room[used..]) {
            Ok(written) => {
                counts[*done] = written;
                used += written;
                *done += 1;
            }
            Err(why) => return number_of(why),
        }
    }
    DONE
}

/// The number of why a packet isn't received.
fn number_of(why: NotReceived) -> u32
    ensures { result ≡ why_number why }
{
    match why {
        NotReceived::NoRoom(_) => NO_ROOM,
        NotReceived::Stopped(_) => STOPPED,
        NotReceived::Spent => SPENT,
        NotReceived::NoMemory => NO_MEMORY,
    }
}
