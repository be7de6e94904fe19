//! The table of a core, as rows.

ghost use Rattle.std.specs.Prelude.{◌≡◌, ◌≢◌, ◌↔◌, ◌≤◌, ◌⊎◌, None, Some, length, min};
ghost use Rattle.filter_table.specs.Tables.{filter_at};
ghost use Rattle.mkdemux_cores.specs.Rows.{cap_rows, filter_rows, laid};
ghost use Rattle.core_machine.specs.Machines.{RingCore};
ghost use Rattle.mkdemux_cores.specs.Listing.{IsGiven, table_now};

use crate::answers::{CLOSED, DONE, NO_FILTER, NO_ROOM};
use crate::caps::{CapRow, list_caps};
use crate::code::filter_code;
use crate::filters::{FilterRow, list_filters};
use crate::handle::CoreHandle;
use bpf_insn::Insn;
use std::alloc::Global;

/// Puts the filters of the core's table whose ids are `from` or more at the front of the room, in order of their ids, as many as it
/// has room for; `count` is how many these are. `DONE`, or `CLOSED`, and the count is 0. The rest of the room stays as it was.
#[unsafe(no_mangle)]
pub extern "C" fn mkdemux_filters(
    alloc: Global,
    core: &mut CoreHandle,
    from: u32,
    room: &mut [FilterRow],
    count: &mut usize,
) -> u32
    ensures closed { result ≡ CLOSED ↔ core.old.core ≡ None }
    ensures rows { (c : RingCore) → core.old.core ≡ Some c → room.new ≡ laid (filter_rows from (table_now c).filters) room.old }
    ensures count { (c : RingCore) → core.old.core ≡ Some c → count.new ≡ min (length room.old) (length (filter_rows from (table_now c).filters)) }
    ensures nothing { result ≡ CLOSED → (count.new ≡ 0) × (room.new ≡ room.old) }
    ensures same { core.new.core ≡ core.old.core }
    ensures answers { (result ≡ DONE) ⊎ (result ≡ CLOSED) }
{
    let Some(open) = core.take(alloc) else {
        *count = 0;
        return CLOSED;
    };
    *count = list_filters(open.replica(), from, room);
    core.put(open);
    DONE
}

/// The same of the capabilities that are held.
#[unsafe(no_mangle)]
pub extern "C" fn mkdemux_caps(
    alloc: Global,
    core: &mut CoreHandle,
    from: u32,
    room: &mut [CapRow],
    count: &mut usize,
) -> u32
    ensures closed { result ≡ CLOSED ↔ core.old.core ≡ None }
    ensures rows { (c : RingCore) → core.old.core ≡ Some c → room.new ≡ laid (cap_rows from (table_now c).caps.held) room.old }
    ensures count { (c : RingCore) → core.old.core ≡ Some c → count.new ≡ min (length room.old) (length (cap_rows from (table_now c).caps.held)) }
    ensures nothing { result ≡ CLOSED → (count.new ≡ 0) × (room.new ≡ room.old) }
    ensures same { core.new.core ≡ core.old.core }
    ensures answers { (result ≡ DONE) ⊎ (result ≡ CLOSED) }
{
    let Some(open) = core.take(alloc) else {
        *count = 0;
        return CLOSED;
    };
    *count = list_caps(open.replica().caps(), from, room);
    core.put(open);
    DONE
}

/// Puts the program of a filter at the front of the room, if it has room for it; `count` is how many instructions it has. `DONE`,
/// `NO_ROOM`, or, with a count of 0, `NO_FILTER` or `CLOSED`. After any answer but `DONE` the room is as it was.
#[unsafe(no_mangle)]
pub extern "C" fn mkdemux_filter_code(
    alloc: Global,
    core: &mut CoreHandle,
    filter: u32,
    room: &mut [Insn],
    count: &mut usize,
) -> u32
    ensures closed { result ≡ CLOSED ↔ core.old.core ≡ None }
    ensures code { (c : RingCore) → core.old.core ≡ Some c → IsGiven (filter_at (table_now c).filters filter) room.old result count.new room.new }
    ensures nothing { result ≡ CLOSED → (count.new ≡ 0) × (room.new ≡ room.old) }
    ensures same { core.new.core ≡ core.old.core }
{
    let Some(open) = core.take(alloc) else {
        *count = 0;
        return CLOSED;
    };
    let (answer, needed) = match filter_code(open.replica(), filter) {
        Some(code) => (lay_code(code, room), code.len()),
        None => (NO_FILTER, 0),
    };
    core.put(open);
    *count = needed;
    answer
}

/// Puts a program at the front of a room, if it has room for it.
fn lay_code(code: &[Insn], room: &mut [Insn]) -> u32
    ensures laid { result ≡ DONE → room.new ≡ laid code.now room.old }
    ensures fits { result ≡ DONE ↔ (length code.now ≤ length room.old) }
    ensures kept { result ≢ DONE → room.new ≡ room.old }
    ensures answers { (result ≡ DONE) ⊎ (result ≡ NO_ROOM) }
{
    if code.len() > room.len() {
        return NO_ROOM;
    }
    room[..code.len()].copy_from_slice(code);
    DONE
}
