//! Decimal text to instructions.

ghost use Rattle.std.specs.Prelude.{◌≡◌, ◌<◌, ◌≤◌, ◌⊎◌, List, length};
ghost use Rattle.bpf_insn.specs.declared.ddd.TextFault.{TextFault};
ghost use Rattle.bpf_insn.specs.declared.insn.Insn.{Insn};
ghost use Rattle.bpf_insn.specs.Ddd.{Ddd, Faults, IsCountRight};
ghost use Rattle.mkdemux_c.specs.Readings.{reading_of, unread_for};
ghost use Rattle.mkdemux_c.specs.Rooms.{laid};

use crate::answers::{DONE, NO_MEMORY, NO_ROOM};
use crate::room::lay_all;
use bpf_insn::{Insn, TextFault, read_ddd};
use std::alloc::Global;

/// What was read of a decimal text.
#[repr(C)]
#[derive(Clone, Copy)]
pub struct Reading {
    /// How many instructions the program has, also where there is no room for them, and 0 for a fault of the text.
    pub count: usize,
    /// 0, or why nothing was read: 1 a bad number, 2 a count that isn't the number of instructions, 3 a count above 4,096, 254
    /// no room, 255 no memory.
    pub fault: u32,
    /// The piece that has a bad number: 0 the count, N the Nth instruction. It is 0 for all else.
    pub piece: u32,
}

/// A text with a fault.
fn unread(fault: TextFault) -> Reading
    ensures { result ≡ unread_for fault }
{
    let (fault, piece) = match fault {
        TextFault::BadNumber(piece) => (1, piece),
        TextFault::CountMismatch => (2, 0),
        TextFault::TooLong => (3, 0),
        TextFault::NoMemory => (NO_MEMORY, 0),
    };
    Reading {
        count: 0,
        fault,
        piece,
    }
}

/// Puts a program that was read at the front of the room, if it has room for it.
fn read(program: &[Insn], room: &mut [Insn]) -> Reading
    ensures answer { result ≡ reading_of program.now (length room.old) }
    ensures fits { result.fault ≡ DONE → length program.now ≤ length room.old }
    ensures laid { result.fault ≡ DONE → room.new ≡ laid program.now room.old }
    ensures no_room { 0 < result.fault → length room.old < length program.now }
    ensures kept { 0 < result.fault → room.new ≡ room.old }
{
    Reading {
        count: program.len(),
        fault: if lay_all(program, room) {
            DONE
        } else {
            NO_ROOM
        },
        piece: 0,
    }
}

/// Reads a decimal text, as `tcpdump -ddd` writes it, and puts its program at the front of the room, if it has room for it.
/// The program need not be one that the verifier accepts.
#[unsafe(no_mangle)]
pub extern "C" fn mkdemux_read(alloc: Global, text: &[u8], room: &mut [Insn]) -> Reading
    // The program that the text spells lands at the front of the room, or would not fit.
    ensures read { result.fault ≡ DONE → (program : List Insn) × Ddd text.now program
        × (result.count ≡ length program) × (length program ≤ length room.old) × (room.new ≡ laid program room.old) }
    ensures no_room { result.fault ≡ NO_ROOM → (program : List Insn) × Ddd text.now program
        × (result.count ≡ length program) × (length room.old < length program) }

    // Any other answer is the text's first fault, or that memory ran out.
    ensures fault { 0 < result.fault → result.fault < NO_ROOM
        → (fault : TextFault) × Faults text.now fault × (result ≡ unread_for fault) }
    ensures within { result.fault ≤ NO_MEMORY }
    ensures kept { 0 < result.fault → room.new ≡ room.old }
    ensures memory { result.fault ≡ NO_MEMORY → (result.count ≡ 0) × IsCountRight text.now }

    // What the text stands for is answered, unless memory runs out.
    ensures only { (program : List Insn) → Ddd text.now program
        → (result ≡ reading_of program (length room.old)) ⊎ (result.fault ≡ NO_MEMORY) }
    ensures first { (fault : TextFault) → Faults text.now fault
        → (result ≡ unread_for fault) ⊎ (result.fault ≡ NO_MEMORY) }
{
    match read_ddd(alloc, text) {
        Ok(program) => read(program.as_slice(), room),
        Err(fault) => unread(fault),
    }
}
