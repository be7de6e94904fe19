//! Which scratch words are written before each instruction, over all paths.

ghost use Rattle.std.specs.Prelude.{◌≡◌, ℕ, ◌+◌, ◌<◌, ◌≤◌, ◌↔◌, Some, length, IsTrue, OnOk, IfOk, IfErr, IfSome, IfNone};
ghost use Rattle.bpf_insn.specs.Program.{LeadsTo};
ghost use Rattle.bpf_insn.specs.declared.insn.TheConstants.{MAX_INSNS};
ghost use Rattle.filter_verify.specs.Exits.{StoresForm};
ghost use Rattle.filter_verify.specs.Kept.{IsKept};
ghost use Rattle.filter_verify.specs.Flows.{Flows, IsAfter, IsSettled, LacksAt, LoadsUnwritten, Narrows, PassesBy};
ghost use Rattle.filter_verify.specs.Paths.{IsUnwritten, LoadsWord};
ghost use Rattle.filter_verify.specs.Rules.{IsWellShaped, Refuses};
ghost use Rattle.filter_verify.specs.Words.{LacksWord};

use crate::flow::{Exit, exit_of, loaded_word, stored_word, stores};
use crate::path::Places;
use crate::rules::Refusal;
use crate::shape::form_there;
use crate::words::Words;
use bpf_insn::{Form, Insn};
use std::alloc::{AllocError, Global};

/// Keeps at a place only the words that the set has.
fn narrow(written: &mut [Words], place: usize, words: Words)
    requires { place < length written.old }
    ensures { Narrows place words written.old written.new }
{
    written[place] = written[place].meet(words);
}

/// The words that are written after an instruction of that form, from those before it.
fn words_after(before: Words, form: Form) -> Words
    requires { (word : ℕ) → StoresForm form word → word < 16 }
    ensures { IsAfter before form result }
{
    match stored_word(form) {
        Some(word) => before.with(word),
        None => before,
    }
}

/// Takes into account the effect of the instruction of that form at a place.
fn flow_through(written: &mut [Words], pc: usize, form: Form)
    requires inside { pc < length written.old }
    requires limited { pc ≤ MAX_INSNS }
    requires words { (word : ℕ) → StoresForm form word → word < 16 }
    requires targets { (to : ℕ) → LeadsTo pc form to → to < length written.old }
    ensures { Flows pc form written.old written.new }
{
    let after = words_after(written[pc], form);
    match exit_of(form, pc) {
        Exit::On => narrow(written, pc + 1, after),
        Exit::To(place) => narrow(written, place, after),
        Exit::Either(place, other) => {
            narrow(written, place, after);
            narrow(written, other, after);
        }
        Exit::Nowhere => {}
    }
}

/// Whether control may go from an instruction of that form at a place to another place.
fn leads_to(form: Form, pc: usize, to: usize) -> bool
    requires { pc ≤ MAX_INSNS }
    ensures { IsTrue result ↔ LeadsTo pc form to }
{
    match exit_of(form, pc) {
        Exit::On => to == pc + 1,
        Exit::To(place) => to == place,
        Exit::Either(place, other) => to == place || to == other,
        Exit::Nowhere => false,
    }
}

/// Whether an instruction of that form at a place leads to another with a word still unwritten.
fn lets_pass(form: Form, pc: usize, before: Words, to: usize, word: u32) -> bool
    requires limited { pc ≤ MAX_INSNS }
    requires word { word < 16 }
    ensures yes { IsTrue result → LeadsTo pc form to × LacksWord before word × (StoresForm form word → ⊥) }
    ensures no { (IsTrue result → ⊥) → LeadsTo pc form to → LacksWord before word → (StoresForm form word → ⊥) → ⊥ }
{
    leads_to(form, pc, to) && !before.contains(word) && !stores(form, word)
}

/// Whether a place leads to another with a word still unwritten.
fn passes_by(code: &[Insn], written: &[Words], pc: usize, to: usize, word: u32) -> bool
    requires inside { pc < length code.now }
    requires limited { length code.now ≤ MAX_INSNS }
    requires same_length { length written.now ≡ length code.now }
    requires word { word < 16 }
    ensures yes { IsTrue result → PassesBy code.now written.now pc to word }
    ensures no { (IsTrue result → ⊥) → PassesBy code.now written.now pc to word → ⊥ }
{
    match code[pc].form() {
        Some(form) => lets_pass(form, pc, written[pc], to, word),
        None => false,
    }
}

/// A path to a load of a word that may be unwritten there, on which no earlier place stores the word.
fn path_to(
    alloc: Global,
    code: &[Insn],
    written: &[Words],
    pc: usize,
    word: u32,
) -> Result<Places, AllocError>
    requires inside { pc < length code.now }
    requires limited { length code.now ≤ MAX_INSNS }
    requires settled { IsSettled code.now pc written.now }
    requires word { word < 16 }
    requires loads { LoadsWord code.now pc word }
    requires lacks { LacksAt written.now pc word }
    ensures { IfOk result (λ path. IsUnwritten code.now pc word path) }
{
    let mut path = Vec::new(alloc);
    path.push(pc as u32)?;
    let mut next = pc;
    'back: for place in (0..pc).rev() {
        if passes_by(code, written, place, next, word) {
            path.push(place as u32)?;
            next = place;
        }
    }
    path.reverse();
    Ok(Places::from_vec(path))
}

/// Goes over the instruction at a place, or gives the word that it loads and a path may leave unwritten.
fn go_over(code: &[Insn], written: &mut [Words], pc: usize) -> Option<u32>
    requires shaped { IsWellShaped code.now }
    requires inside { pc < length code.now }
    requires settled { IsSettled code.now pc written.old }
    ensures none { IfNone result (IsSettled code.now (pc + 1) written.new) }
    ensures some { IfSome result (λ word. LoadsUnwritten code.now written.new pc word) }
{
    let form = form_there(code, pc);
    if let Some(word) = loaded_word(form) {
        if !written[pc].contains(word) {
            return Some(word);
        }
    }
    flow_through(written, pc, form);
    None
}

/// The place and the word of the first load of a word that a path may leave unwritten, by the sets of written words that each
/// instruction leaves to those after it. What the sets were before makes no difference. Takes no memory.
pub fn first_unwritten(code: &[Insn], written: &mut [Words]) -> Option<(usize, u32)>
    requires shaped { IsWellShaped code.now }
    requires room { length written.old ≡ length code.now }
    ensures none { IfNone result (IsKept code.now) }
    ensures some { IfSome result (λ load. LoadsUnwritten code.now written.new load.0 load.1) }
{
    written.fill(Words::all());
    written[0] = Words::none();
    'pass: for pc in 0..code.len() {
        if let Some(word) = go_over(code, written, pc) {
            return Some((pc, word));
        }
    }
    None
}

/// Whether an instruction loads a scratch word.
fn loads_words(code: &[Insn]) -> bool
    requires { IsWellShaped code.now }
    ensures { (IsTrue result → ⊥) → (pc word : ℕ) → LoadsWord code.now pc word → ⊥ }
{
    'places: for pc in 0..code.len() {
        if loaded_word(form_there(code, pc)).is_some() {
            return true;
        }
    }
    false
}

/// Accepts a program, or says where a path to a load leaves its word unwritten.
fn check_loads(alloc: Global, code: &[Insn]) -> Result<(), Refusal>
    requires { IsWellShaped code.now }
    ensures ok { OnOk result (IsKept code.now) }
    ensures err { IfErr result (λ refusal. (refusal ≡ Refusal.NoMemory → ⊥) → Refuses code.now refusal) }
{
    let mut written = vec![in alloc; Words::none(); code.len()]?;
    check_loads_by(alloc, code, written.as_mut_slice())
}

fn check_loads_by(alloc: Global, code: &[Insn], written: &mut [Words]) -> Result<(), Refusal>
    requires shaped { IsWellShaped code.now }
    requires room { length written.old ≡ length code.now }
    ensures ok { OnOk result (IsKept code.now) }
    ensures err { IfErr result (λ refusal. (refusal ≡ Refusal.NoMemory → ⊥) → Refuses code.now refusal) }
{
    match first_unwritten(code, written) {
        None => Ok(()),
        Some((pc, word)) => {
            let path = path_to(alloc, code, written, pc, word)?;
            Err(Refusal::Unwritten {
                pc: pc as u32,
                word,
                path,
            })
        }
    }
}

/// Accepts a program that loads only scratch words that are written on each path, or says where a path breaks that.
///
/// Most programs load none. They take no sets, and so no memory.
pub fn check_words(alloc: Global, code: &[Insn]) -> Result<(), Refusal>
    requires { IsWellShaped code.now }
    ensures ok { OnOk result (IsKept code.now) }
    ensures err { IfErr result (λ refusal. (refusal ≡ Refusal.NoMemory → ⊥) → Refuses code.now refusal) }
{
    if loads_words(code) {
        check_loads(alloc, code)
    } else {
        Ok(())
    }
}
