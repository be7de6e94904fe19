//! Programs written as text.

ghost use Rattle.std.specs.Prelude.{◌≡◌, ℕ, ◌+◌, ◌<◌, ◌≤◌, ◌++◌, ◌↔◌, length, IfOk, OnOk, IsTrue};
ghost use Rattle.std.specs.String.{string_bytes};
ghost use Rattle.bpf_insn.specs.AsmText.{IsPrintable, PrintsAt, alu_word, arms, asm_line, asm_text, load_word, printed, test_word};
ghost use Rattle.bpf_insn.specs.Ddd.{Ddd};
ghost use Rattle.bpf_insn.specs.DddText.{ddd_text, insn_line};
ghost use Rattle.bpf_insn.specs.Table.{InRange};

use crate::{AluOp, Form, Insn, MAX_INSNS, Size, Test, jumps_out};
use std::alloc::{AllocError, Global};

/// The decimal text of a program, as `tcpdump -ddd` writes it: the number of instructions, then for each its code, jt,
/// jf and k, on lines of their own. `read_ddd` gives the program back, if it has at most `MAX_INSNS` instructions.
pub fn write_ddd(alloc: Global, program: &[Insn]) -> Result<Vec<u8>, AllocError>
    ensures text { IfOk result (λ text. text.items ≡ ddd_text program.now) }
    ensures spells { length program.now ≤ MAX_INSNS → IfOk result (λ text. Ddd text.items program.now) }
{
    let mut text = format!(in alloc; "{}\n", program.len())?;
    for insn in program {
        push_insn(&mut text, *insn)?;
    }
    Ok(text.into_bytes())
}

/// Writes an instruction's four numbers on a line. That they are in range is what its type says.
fn push_insn(text: &mut String, insn: Insn) -> Result<(), AllocError>
    ensures written { OnOk result (string_bytes text.new ≡ string_bytes text.old ++ insn_line insn) }
    ensures range { InRange insn }
{
    let Insn { code, jt, jf, k } = insn;
    writeln!(text, "{code} {jt} {jf} {k}")
}

/// Whether a program has an assembler text: it has at most `MAX_INSNS` instructions, each with the code of a form, and each
/// jump leads to one of them.
pub fn printable(program: &[Insn]) -> bool
    ensures { IsTrue result ↔ IsPrintable program.now }
{
    if program.len() > MAX_INSNS {
        return false;
    }
    for place in 0..program.len() {
        if !prints_at(program, place) {
            return false;
        }
    }
    true
}

/// Whether the instruction at a place has a form, and is no jump that leads outside the program.
fn prints_at(program: &[Insn], place: usize) -> bool
    requires inside { place < length program.now }
    requires short { length program.now ≤ MAX_INSNS }
    ensures { IsTrue result ↔ PrintsAt program.now place }
{
    match program[place].form() {
        Some(form) => !jumps_out(form, place, program.len()),
        None => false,
    }
}

/// The assembler text of a printable program, in the syntax of Linux's `bpf_asm`: for the instruction at place N, from
/// 0, a line of its own with the label `lN: ` and the instruction. Jumps name these labels. Unused fields aren't
/// written.
pub fn write_asm(alloc: Global, program: &[Insn]) -> Result<Vec<u8>, AllocError>
    requires { IsPrintable program.now }
    ensures { IfOk result (λ text. text.items ≡ asm_text program.now) }
{
    let mut text = String::new(alloc);
    for (place, insn) in program.iter().enumerate() {
        match insn.form() {
            Some(form) => push_line(&mut text, place, form)?,
            None => unreachable!(),
        }
    }
    Ok(text.into_bytes())
}

/// Writes the line of an instruction of a form at a place.
fn push_line(text: &mut String, place: usize, form: Form) -> Result<(), AllocError>
    requires { place < MAX_INSNS }
    ensures { OnOk result (string_bytes text.new ≡ string_bytes text.old ++ asm_line place form) }
{
    write!(text, "l{place}: ")?;
    push_form(text, place, form)?;
    text.push_str("\n")
}

/// Writes an instruction of a form at a place, as on its line of `write_asm`, without the label of the line.
pub fn push_form(text: &mut String, place: usize, form: Form) -> Result<(), AllocError>
    requires { place < MAX_INSNS }
    ensures { OnOk result (string_bytes text.new ≡ string_bytes text.old ++ printed place form) }
{
    match form {
        Form::LdImm { k } => write!(text, "ldi #{k}"),
        Form::LdAbs { size, k } => write!(text, "{} [{k}]", load_word(size)),
        Form::LdInd { size, k } => write!(text, "{} [x + {k}]", load_word(size)),
        Form::LdMem { k } => write!(text, "ld M[{k}]"),
        Form::LdLen => text.push_str("ld #len"),
        Form::LdxImm { k } => write!(text, "ldxi #{k}"),
        Form::LdxMem { k } => write!(text, "ldx M[{k}]"),
        Form::LdxLen => text.push_str("ldx #len"),
        Form::LdxMsh { k } => write!(text, "ldxb 4*([{k}]&0xf)"),
        Form::St { k } => write!(text, "st M[{k}]"),
        Form::Stx { k } => write!(text, "stx M[{k}]"),
        Form::AluK { op, k } => write!(text, "{} #{k}", alu_word(op)),
        Form::AluX { op } => write!(text, "{} x", alu_word(op)),
        Form::Neg => text.push_str("neg"),
        Form::Ja { k } => write!(text, "jmp l{}", place + 1 + k as usize),
        Form::JmpK { test, k, jt, jf } => {
            write!(text, "{} #{k}, ", test_word(test))?;
            push_arms(text, place, jt, jf)
        }
        Form::JmpX { test, jt, jf } => {
            write!(text, "{} x, ", test_word(test))?;
            push_arms(text, place, jt, jf)
        }
        Form::RetK { k } => write!(text, "ret #{k}"),
        Form::RetA => text.push_str("ret a"),
        Form::Tax => text.push_str("tax"),
        Form::Txa => text.push_str("txa"),
    }
}

/// Writes the two targets of a conditional jump at a place.
fn push_arms(text: &mut String, place: usize, jt: u8, jf: u8) -> Result<(), AllocError>
    requires { place < MAX_INSNS }
    ensures { OnOk result (string_bytes text.new ≡ string_bytes text.old ++ arms place jt jf) }
{
    let next = place + 1;
    write!(
        text,
        "l{}, l{}",
        next + usize::from(jt),
        next + usize::from(jf)
    )
}

/// The mnemonic of a load.
fn load_word(size: Size) -> &'static str
    ensures { result.now ≡ load_word size }
{
    match size {
        Size::Word => "ld",
        Size::Half => "ldh",
        Size::Byte => "ldb",
    }
}

/// The mnemonic of an operation.
fn alu_word(op: AluOp) -> &'static str
    ensures { result.now ≡ alu_word op }
{
    match op {
        AluOp::Add => "add",
        AluOp::Sub => "sub",
        AluOp::Mul => "mul",
        AluOp::Div => "div",
        AluOp::Or => "or",
        AluOp::And => "and",
        AluOp::Lsh => "lsh",
        AluOp::Rsh => "rsh",
        AluOp::Mod => "mod",
        AluOp::Xor => "xor",
    }
}

/// The mnemonic of a conditional jump.
fn test_word(test: Test) -> &'static str
    ensures { result.now ≡ test_word test }
{
    match test {
        Test::Equal => "jeq",
        Test::Greater => "jgt",
        Test::GreaterOrEqual => "jge",
        Test::AnyBit => "jset",
    }
}
