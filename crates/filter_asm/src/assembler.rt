//! The two passes over a text.

ghost use Rattle.std.specs.Prelude.{ℕ, MatchResult, IsErrAnd, Result, vec_len, ◌^◌, ◌==◌, Err, ◌≡◌, ◌+◌, ◌<◌, ◌++◌, ◌⊎◌, List, [], ◌∷◌, length, option_map, IsSome, IfOk, IfErr, OnOk};
ghost use Rattle.std.specs.Result.{result_map_both};
ghost use Rattle.filter_asm.specs.declared.fault.AsmFaultKind.TheVariants.{NoMemory};
ghost use Rattle.filter_asm.specs.DraftViews.{draft_of, drafts_of};
ghost use Rattle.filter_asm.specs.Texts.{texts};
ghost use Rattle.filter_asm.specs.Program as spec;
ghost use Rattle.std.specs.List.{before_first, after_first};
ghost use Rattle.filter_asm.specs.Cleared.{PrintedStands};
ghost use Rattle.filter_asm.specs.Leads.{LinksLead};
ghost use Rattle.filter_asm.specs.Fits.{FittingOperandsAreRead, ReadOperandsFit};
ghost use Rattle.filter_asm.specs.Faults.{fault_of};
ghost use Rattle.filter_asm.specs.Answers.{Answers, IsNext};
ghost use Rattle.filter_asm.specs.Knows.{Knows};
ghost use Rattle.filter_asm.specs.Passed.{Passed, PassedOneMore, LineRefused};
ghost use Rattle.bpf_insn.specs.declared.insn.Insn.{Insn};
ghost use Rattle.bpf_insn.specs.declared.insn.TheConstants.{MAX_INSNS};

use crate::define::define_labels;
use crate::draft::{Draft, instruction};
use crate::fault::{AsmFault, AsmFaultKind};
use crate::labels::Labels;
use crate::link::linked;
use crate::pass::Pass;
use crate::token::Token;
use crate::tokenizer::{find, tokens, without_comment};
use bpf_insn::Insn;
use std::alloc::Global;

fn nothing_read<'a>(alloc: Global) -> Pass<'a>
    ensures { Passed [] result }
{
    Pass {
        labels: Labels::new(alloc),
        drafts: Vec::new(alloc),
    }
}

/// The instruction of the tokens after the labels, where there is one.
fn body_draft<'a>(
    number: u32,
    count: usize,
    body: &[Token<'a>],
) -> Result<Option<Draft<'a>>, AsmFaultKind>
    ensures room { IfOk result (λ draft. IsSome draft → count < MAX_INSNS) }
    ensures gives { result_map_both (option_map draft_of) (λ e. e) result ≡ spec.instruction_of number count (texts body.now) }
{
    let Some((word, operands)) = body.split_first() else {
        return Ok(None);
    };
    let draft = instruction(number, count, word.text, operands)?;
    Ok(Some(draft))
}

/// Reads the tokens of the line with this number, from 1.
fn read_tokens<'a>(
    pass: &mut Pass<'a>,
    number: u32,
    tokens: &[Token<'a>],
) -> Result<(), AsmFaultKind>
    ensures ok { OnOk result ((lines : List spec.Line) → Passed lines pass.old → number ≡ length lines + 1 →
        Passed (lines ++ spec.line_of (texts tokens.now) ∷ []) pass.new) }
    ensures err { IfErr result (λ refusal. (refusal ≡ NoMemory) ⊎ ((lines : List spec.Line) → Passed lines pass.old → number ≡ length lines + 1 →
        spec.line_gives lines (spec.line_of (texts tokens.now)) ≡ Err refusal)) }
{
    let count = pass.drafts.len();
    let labels_len = define_labels(&mut pass.labels, count as u32, tokens)?;
    let (_, body) = tokens.split_at(labels_len);
    let draft = body_draft(number, count, body)?;
    if let Some(draft) = draft {
        pass.drafts.push(draft)?;
    }
    Ok(())
}

/// Reads the line with this number, from 1.
fn read_line<'a>(
    pass: &mut Pass<'a>,
    alloc: Global,
    number: u32,
    line: &'a [u8],
) -> Result<(), AsmFaultKind>
    ensures ok { OnOk result ((lines : List spec.Line) → Passed lines pass.old → number ≡ length lines + 1 → PassedOneMore lines line.now pass.new) }
    ensures err { IfErr result (λ refusal. (refusal ≡ NoMemory) ⊎ ((lines : List spec.Line) → Passed lines pass.old → number ≡ length lines + 1 → LineRefused lines line.now refusal)) }
{
    let tokens = tokens(alloc, without_comment(line))?;
    read_tokens(pass, number, &tokens)
}

/// The first line, and what stands after its LF.
fn split_line(text: &[u8]) -> (&[u8], &[u8])
    ensures line { result.0.now ≡ before_first (λ b. b == 10) text.now }
    ensures rest { result.1.now ≡ after_first (λ b. b == 10) text.now }
{
    let end = find(b'\n', text);
    let (line, rest) = text.split_at(end);
    if rest.is_empty() {
        return (line, rest);
    }
    let (_, rest) = text.split_at(end + 1);
    (line, rest)
}

/// The first pass: the labels, and the instructions without the places of theirs.
fn read(alloc: Global, text: &[u8]) -> Result<Pass<'_>, AsmFault>
    requires { length text.now < 2 ^ 32 }
    ensures ok { IfOk result (λ pass. (lines : List spec.Line) × spec.SpellsAll (spec.text_lines text.now) lines × Passed lines pass) }
    ensures err { IfErr result (λ fault. (fault.kind ≡ NoMemory) ⊎ spec.Assembles text.now (Err (fault_of fault))) }
{
    let mut pass = nothing_read(alloc);
    let mut rest = text;
    let mut number = 0;
    while !rest.is_empty() {
        let (line, after) = split_line(rest);
        number += 1;
        if let Err(kind) = read_line(&mut pass, alloc, number, line) {
            return Err(AsmFault { line: number, kind });
        }
        rest = after;
    }
    Ok(pass)
}

/// Links one more instruction.
fn link_next<'a>(
    program: &mut Vec<Insn>,
    labels: &Labels<'a>,
    draft: Draft<'a>,
) -> Result<(), AsmFaultKind>
    requires { vec_len program.old < 2 ^ 32 }
    ensures len { OnOk result (vec_len program.new ≡ vec_len program.old + 1) }
    ensures ok { OnOk result ((places : List (List ℕ × ℕ)) → Knows labels.now places →
        IsNext program.old.items program.new.items (spec.linked places (vec_len program.old) (draft_of draft.entry))) }
    ensures err { IfErr result (λ refusal. (refusal ≡ NoMemory) ⊎ ((places : List (List ℕ × ℕ)) → Knows labels.now places →
        Err refusal ≡ spec.linked places (vec_len program.old) (draft_of draft.entry))) }
{
    let insn = linked(labels, program.len() as u32, draft)?;
    program.push(insn)?;
    Ok(())
}

/// The second pass: each label gets its place.
fn link(alloc: Global, pass: &Pass<'_>) -> Result<Vec<Insn>, AsmFault>
    ensures { (places : List (List ℕ × ℕ)) → Knows pass.now.labels places → Answers result (spec.links places 0 (drafts_of pass.now.drafts.items)) }
{
    let mut program = Vec::new(alloc);
    for draft in &pass.drafts {
        if let Err(kind) = link_next(&mut program, &pass.labels, *draft) {
            return Err(AsmFault {
                line: draft.line,
                kind,
            });
        }
    }
    Ok(program)
}

/// Both passes.
fn two_passes(alloc: Global, text: &[u8]) -> Result<Vec<Insn>, AsmFault>
    requires { length text.now < 2 ^ 32 }
    ensures found { IfOk result (λ program. spec.Asm text.now program.items) }
    ensures refused { IfErr result (λ fault. (fault.kind ≡ NoMemory) ⊎ spec.Assembles text.now (Err (fault_of fault))) }
{
    let pass = read(alloc, text)?;
    link(alloc, &pass)
}

/// The program that the text stands for, or its first fault. Each line has any number of labels, `name:`, and then one
/// instruction at most, in the mnemonics of Linux's `bpf_asm`; `;` begins a comment. The first pass takes the lines in
/// order, and finds labels that are defined twice, unknown mnemonics, programs that are too long, operands that don't
/// fit and numbers out of range, in this order within a line. Only then does the second take the instructions in order,
/// and finds labels that aren't defined, jumps that don't go forward and conditional jumps that go too far, with the
/// labels of an instruction as they are written. A jump may go to the place after the last instruction.
pub fn assemble(alloc: Global, text: &[u8]) -> Result<Vec<Insn>, AsmFault>
    requires { length text.now < 2 ^ 32 }
    // Each text stands for a program or for a fault ..
    ensures some { (outcome : Result (List Insn) spec.Fault) × spec.Assembles text.now outcome }
    // .. and for no two things.
    ensures one { (this other : Result (List Insn) spec.Fault) → spec.Assembles text.now this → spec.Assembles text.now other → this ≡ other }
    // What is answered is what the text stands for.
    ensures found { IfOk result (λ program. spec.Asm text.now program.items) }
    ensures refused { IfErr result (λ fault. (fault.kind ≡ NoMemory) ⊎ spec.Assembles text.now (Err (fault_of fault))) }
    // What the text stands for is answered, unless memory runs out.
    ensures only { (program : List Insn) → spec.Asm text.now program → MatchResult result (λ found. found.items ≡ program) (λ fault. fault.kind ≡ NoMemory) }
    ensures first { (fault : spec.Fault) → spec.Assembles text.now (Err fault) → IsErrAnd result (λ given. (given.kind ≡ NoMemory) ⊎ (fault_of given ≡ fault)) }
    // The text that is printed of a program stands for it, but for fields that its forms don't use: these are 0.
    ensures printed { PrintedStands }
    // Operands are read by a shape that they fit, and they fit one shape of their mnemonic at most.
    ensures read_fit { ReadOperandsFit }
    ensures fit_read { FittingOperandsAreRead }
    // Jumps are given the distances by which they lead to their labels.
    ensures leads { LinksLead }
{
    two_passes(alloc, text)
}
