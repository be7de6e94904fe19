//! The rules on a program's size, on each instruction, and on its end.

ghost use Rattle.std.specs.Prelude.{ℕ, ◌<◌, ◌≤◌, length, IfErr, OnOk, IsTrue};
ghost use Rattle.bpf_insn.specs.Program.{FormAt};
ghost use Rattle.filter_verify.specs.Rules.{BreaksAt, EndsInReturn, IsFine, IsReturn, IsWellShaped, Refuses};

use crate::code::Code;
use crate::rules::Refusal;
use bpf_insn::{AluOp, Form, MAX_INSNS, jumps_out};

/// How many scratch words there are.
pub const WORDS: u32 = 16;

/// The first place of an absolute load that stands for ancillary data.
const ANCILLARY: u32 = 0x8000_0000;

/// Refuses an instruction of that form at a place, if it breaks a rule.
fn check_form<C: Code>(code: C, pc: usize, form: Form) -> Result<(), Refusal>
    requires inside { pc < length (C.insns code) }
    requires limited { length (C.insns code) ≤ MAX_INSNS }
    requires form { FormAt (C.insns code) pc form }
    ensures ok { OnOk result (IsFine (C.insns code) pc) }
    ensures err { IfErr result (λ refusal. BreaksAt (C.insns code) pc refusal) }
{
    let at = pc as u32;
    match form {
        Form::AluK {
            op: AluOp::Div | AluOp::Mod,
            k: 0,
        } => Err(Refusal::ZeroDivisor(at)),
        Form::AluK {
            op: AluOp::Lsh | AluOp::Rsh,
            k: 32..,
        } => Err(Refusal::BadShift(at)),
        Form::LdMem { k } | Form::LdxMem { k } | Form::St { k } | Form::Stx { k } if k >= WORDS => {
            Err(Refusal::BadWord(at))
        }
        Form::LdAbs { k, .. } if k >= ANCILLARY => Err(Refusal::Ancillary(at)),
        _ if jumps_out(form, pc, code.count()) => Err(Refusal::JumpOut(at)),
        _ => Ok(()),
    }
}

/// Refuses the instruction at a place, if it breaks a rule.
fn check_insn<C: Code>(code: C, pc: usize) -> Result<(), Refusal>
    requires inside { pc < length (C.insns code) }
    requires limited { length (C.insns code) ≤ MAX_INSNS }
    ensures ok { OnOk result (IsFine (C.insns code) pc) }
    ensures err { IfErr result (λ refusal. BreaksAt (C.insns code) pc refusal) }
{
    match code.insn(pc).form() {
        Some(form) => check_form(code, pc, form),
        None => Err(Refusal::BadCode(pc as u32)),
    }
}

/// Whether the form is a return.
fn is_return(form: Form) -> bool
    ensures yes { IsTrue result → IsReturn form }
    ensures no { (IsTrue result → ⊥) → IsReturn form → ⊥ }
{
    matches!(form, Form::RetK { .. } | Form::RetA)
}

/// Whether the last instruction is a return.
fn ends_in_return<C: Code>(code: C) -> bool
    requires { 0 < length (C.insns code) }
    ensures ends { IsTrue result → EndsInReturn (C.insns code) }
    ensures no { (IsTrue result → ⊥) → EndsInReturn (C.insns code) → ⊥ }
{
    match code.insn(code.count() - 1).form() {
        Some(form) => is_return(form),
        None => false,
    }
}

/// Refuses a program that breaks a rule on its size, its instructions in order, or its end.
pub fn check_shape<C: Code>(code: C) -> Result<(), Refusal>
    ensures ok { OnOk result (IsWellShaped (C.insns code)) }
    ensures err { IfErr result (λ refusal. Refuses (C.insns code) refusal) }
{
    if code.count() == 0 {
        return Err(Refusal::Empty);
    }
    if code.count() > MAX_INSNS {
        return Err(Refusal::TooLong);
    }
    'places: for pc in 0..code.count() {
        check_insn(code, pc)?;
    }
    if ends_in_return(code) {
        Ok(())
    } else {
        Err(Refusal::NoReturn)
    }
}

/// The form at a place of a program whose instructions break no rule.
pub fn form_there<C: Code>(code: C, pc: usize) -> Form
    requires shaped { IsWellShaped (C.insns code) }
    requires inside { pc < length (C.insns code) }
    ensures { FormAt (C.insns code) pc result }
{
    code.insn(pc).form().unwrap()
}
