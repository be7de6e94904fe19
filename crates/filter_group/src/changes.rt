//! The members' constants at all places, with one member more or less.

ghost use Rattle.std.specs.Prelude.{OnOk};
ghost use Rattle.filter_group.specs.Changes.{AreSame, CanHave, HaveLess, HaveMember, HaveMore, HaveRoom};

use crate::answers::Slot;
use bpf_insn::Insn;
use std::alloc::{AllocError, Global};

/// Makes room in each slot for a program's constant, as this member's. The constants stay, whatever the result.
#[inline(never)]
pub(crate) fn make_room_in(
    alloc: Global,
    slots: &mut [Slot],
    member: usize,
    code: &[Insn],
) -> Result<(), AllocError>
    requires { CanHave slots.old member code.now }
    ensures same { AreSame slots.old slots.new }
    ensures room { OnOk result (HaveRoom slots.new member code.now) }
{
    for n in 0..slots.len() {
        let k = code[slots[n].place].k;
        slots[n].make_room(alloc, member, k)?;
    }
    Ok(())
}

/// Puts a program's constants in, for which room was made. Takes no memory.
#[inline(never)]
pub(crate) fn put_into(slots: &mut [Slot], member: usize, code: &[Insn])
    requires can { CanHave slots.old member code.now }
    requires room { HaveRoom slots.old member code.now }
    ensures { HaveMore slots.old slots.new member code.now }
{
    for n in 0..slots.len() {
        let k = code[slots[n].place].k;
        slots[n].put(member, k);
    }
}

/// Takes a member's constant out of each slot. Takes no memory.
#[inline(never)]
pub(crate) fn take_out_of(slots: &mut [Slot], member: usize)
    requires { HaveMember slots.old member }
    ensures { HaveLess slots.old slots.new member }
{
    for n in 0..slots.len() {
        slots[n].take_out(member);
    }
}
