//! Instructions to decimal text.

ghost use Rattle.std.specs.Prelude.{◌≡◌, ◌≢◌, ◌<◌, ◌≤◌, ◌⊎◌, length, take};
ghost use Rattle.bpf_insn.specs.Ddd.{Ddd};
ghost use Rattle.bpf_insn.specs.DddText.{ddd_text};
ghost use Rattle.mkdemux_c.specs.Rooms.{laid};

use crate::answers::{DONE, NO_MEMORY, NO_ROOM};
use crate::room::lay_all;
use bpf_insn::{Insn, write_ddd};
use std::alloc::Global;

/// How a program was written.
#[repr(C)]
#[derive(Clone, Copy)]
pub struct Writing {
    /// How many bytes the text has, also where there is no room for them, and 0 where memory ran out.
    pub length: usize,
    /// 0, or why nothing was written: 254 no room, 255 no memory.
    pub fault: u32,
}

/// Puts the decimal text of a program at the front of the room, if it has room for it. No byte 0 ends the text.
#[unsafe(no_mangle)]
pub extern "C" fn mkdemux_write_ddd(alloc: Global, code: &[Insn], room: &mut [u8]) -> Writing
    ensures length { result.fault ≢ NO_MEMORY → result.length ≡ length (ddd_text code.now) }
    ensures written { result.fault ≡ DONE → room.new ≡ laid (ddd_text code.now) room.old }
    ensures fits { result.fault ≡ DONE → result.length ≤ length room.old }
    ensures no_room { result.fault ≡ NO_ROOM → length room.old < result.length }
    ensures memory { result.fault ≡ NO_MEMORY → result.length ≡ 0 }
    ensures answer { (result.fault ≡ DONE) ⊎ ((result.fault ≡ NO_ROOM) ⊎ (result.fault ≡ NO_MEMORY)) }
    ensures kept { 0 < result.fault → room.new ≡ room.old }
    ensures spells { result.fault ≡ DONE → length code.now ≤ 4096 → Ddd (take result.length room.new) code.now }
{
    match write_ddd(alloc, code) {
        Ok(text) => {
            let fits = lay_all(text.as_slice(), room);
            Writing {
                length: text.len(),
                fault: if fits { DONE } else { NO_ROOM },
            }
        }
        Err(_) => Writing {
            length: 0,
            fault: NO_MEMORY,
        },
    }
}
