//! Programs that are verified with no memory.

ghost use Rattle.std.specs.Prelude.{IfErr, OnOk};
ghost use Rattle.filter_verify.specs.Breaches.{IsBreach};
ghost use Rattle.filter_verify.specs.Rules.{IsWellShaped, Sound};

use crate::code::Code;
use crate::rules::UNWRITTEN_RULE;
use crate::shape::check_shape;
use crate::unwritten::least_open_load;

/// The rule that a program breaks first, by its number, and the place where it does, as `Refusal::number` and
/// `Refusal::place` give them.
#[derive(Clone, Copy, PartialEq, Eq, Debug)]
pub struct Breach {
    pub rule: u8,
    pub pc: u32,
}

/// Accepts a program that `verify` accepts, memory aside, and says of any other which rule it breaks first, and where. Takes
/// no memory: an accepted program isn't copied, and no path is given.
///
/// Where words are loaded it takes a pass over the instructions for each of them, of sixteen at most, in place of the one pass
/// with masks in memory.
pub fn check<C: Code>(code: C) -> Result<(), Breach>
    ensures sound { OnOk result (Sound (C.insns code)) }
    ensures breach { IfErr result (IsBreach (C.insns code)) }
{
    shape_breach(code)?;
    load_breach(code)
}

fn shape_breach<C: Code>(code: C) -> Result<(), Breach>
    ensures ok { OnOk result (IsWellShaped (C.insns code)) }
    ensures breach { IfErr result (IsBreach (C.insns code)) }
{
    match check_shape(code) {
        Ok(()) => Ok(()),
        Err(refusal) => Err(Breach {
            rule: refusal.number(),
            pc: refusal.place(),
        }),
    }
}

fn load_breach<C: Code>(code: C) -> Result<(), Breach>
    requires { IsWellShaped (C.insns code) }
    ensures sound { OnOk result (Sound (C.insns code)) }
    ensures breach { IfErr result (IsBreach (C.insns code)) }
{
    let pc = least_open_load(code);
    if pc < code.count() {
        return Err(Breach {
            rule: UNWRITTEN_RULE,
            pc: pc as u32,
        });
    }
    Ok(())
}
