//! Assembler text to instructions.

ghost use Rattle.std.specs.Prelude.{◌≡◌, ◌<◌, ◌≤◌, ◌^◌, ◌⊎◌, ◌↔◌, List, Err, length};
ghost use Rattle.bpf_insn.specs.declared.insn.Insn.{Insn};
ghost use Rattle.filter_asm.specs.Faults.{fault_of};
ghost use Rattle.filter_asm.specs.Program as asm;
ghost use Rattle.mkdemux_c.specs.Assemblies.{assembly_of, number_of, unassembled_for};
ghost use Rattle.mkdemux_c.specs.Rooms.{laid};

use crate::answers::{DONE, NO_MEMORY, NO_ROOM, TOO_LARGE};
use crate::room::lay_all;
use bpf_insn::Insn;
use filter_asm::{AsmFault, AsmFaultKind, assemble};
use std::alloc::Global;

/// What was assembled of a text.
#[repr(C)]
#[derive(Clone, Copy)]
pub struct Assembly {
    /// How many instructions the program has, also where there is no room for them, and 0 for a fault of the text.
    pub count: usize,
    /// 0, or why nothing was assembled: 1 to 8 a fault of the text, 253 a text of 2^32 bytes or more, 254 no room, 255 no
    /// memory.
    pub fault: u32,
    /// The line that has a fault of the text, from 1.
    pub line: u32,
}

/// The number of a fault.
fn number(kind: AsmFaultKind) -> u32
    ensures { result ≡ number_of kind }
{
    match kind {
        AsmFaultKind::Mnemonic => 1,
        AsmFaultKind::Operand => 2,
        AsmFaultKind::Number => 3,
        AsmFaultKind::NoLabel => 4,
        AsmFaultKind::TwiceLabel => 5,
        AsmFaultKind::Backward => 6,
        AsmFaultKind::TooFar => 7,
        AsmFaultKind::TooLong => 8,
        AsmFaultKind::NoMemory => NO_MEMORY,
    }
}

/// A text with a fault.
fn unassembled(fault: AsmFault) -> Assembly
    ensures { result ≡ unassembled_for (fault_of fault) }
{
    Assembly {
        count: 0,
        fault: number(fault.kind),
        line: fault.line,
    }
}

/// Puts a program that was assembled at the front of the room, if it has room for it.
fn assembled(program: &[Insn], room: &mut [Insn]) -> Assembly
    ensures answer { result ≡ assembly_of program.now (length room.old) }
    ensures fits { result.fault ≡ DONE → length program.now ≤ length room.old }
    ensures laid { result.fault ≡ DONE → room.new ≡ laid program.now room.old }
    ensures no_room { 0 < result.fault → length room.old < length program.now }
    ensures kept { 0 < result.fault → room.new ≡ room.old }
{
    Assembly {
        count: program.len(),
        fault: if lay_all(program, room) {
            DONE
        } else {
            NO_ROOM
        },
        line: 0,
    }
}

/// Assembles a text, and puts its program at the front of the room, if it has room for it. The program need not be one that
/// the verifier accepts.
#[unsafe(no_mangle)]
pub extern "C" fn mkdemux_assemble(alloc: Global, text: &[u8], room: &mut [Insn]) -> Assembly
    // The program that the text stands for lands at the front of the room, or would not fit.
    ensures assembled { result.fault ≡ DONE → (program : List Insn) × asm.Asm text.now program
        × (result.count ≡ length program) × (length program ≤ length room.old) × (room.new ≡ laid program room.old) }
    ensures no_room { result.fault ≡ NO_ROOM → (program : List Insn) × asm.Asm text.now program
        × (result.count ≡ length program) × (length room.old < length program) }

    // Any other answer is the text's first fault, that it is too large, or that memory ran out.
    ensures fault { 0 < result.fault → result.fault < TOO_LARGE
        → (fault : asm.Fault) × asm.Assembles text.now (Err fault) × (result ≡ unassembled_for fault) }
    ensures too_large { (result.fault ≡ TOO_LARGE) ↔ (2 ^ 32 ≤ length text.now) }
    ensures within { result.fault ≤ NO_MEMORY }
    ensures memory { result.fault ≡ NO_MEMORY → result.count ≡ 0 }
    ensures kept { 0 < result.fault → room.new ≡ room.old }

    // What a text that isn't too large stands for is answered, unless memory runs out.
    ensures only { length text.now < 2 ^ 32 → (program : List Insn) → asm.Asm text.now program
        → (result ≡ assembly_of program (length room.old)) ⊎ (result.fault ≡ NO_MEMORY) }
    ensures first { length text.now < 2 ^ 32 → (fault : asm.Fault) → asm.Assembles text.now (Err fault)
        → (result ≡ unassembled_for fault) ⊎ (result.fault ≡ NO_MEMORY) }
{
    if u32::try_from(text.len()).is_err() {
        return Assembly {
            count: 0,
            fault: TOO_LARGE,
            line: 0,
        };
    }
    match assemble(alloc, text) {
        Ok(program) => assembled(program.as_slice(), room),
        Err(fault) => unassembled(fault),
    }
}
