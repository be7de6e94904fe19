//! The first load of a scratch word that a path may leave unwritten, found with no memory: by one pass for each word that is
//! loaded at all, with the set of places that a path leads to with the word unwritten.

ghost use Rattle.std.specs.Prelude.{ℕ, ◌+◌, ◌<◌, ◌≤◌, ◌↔◌, IsTrue, length};
ghost use Rattle.bpf_insn.specs.Program.{LeadsTo};
ghost use Rattle.bpf_insn.specs.declared.insn.TheConstants.{MAX_INSNS};
ghost use Rattle.filter_verify.specs.Opens.{IsFollowed, IsLeastOfWords, IsLeastOpen, LoadsOpen, Spreads};
ghost use Rattle.filter_verify.specs.Paths.{LoadsWord};
ghost use Rattle.filter_verify.specs.Rules.{IsWellShaped};
ghost use Rattle.filter_verify.specs.Words.{HasWord};

use crate::code::Code;
use crate::flow::{Exit, exit_of, loaded_word, loads, stores};
use crate::place_set::PlaceSet;
use crate::shape::{WORDS, form_there};
use crate::words::Words;
use bpf_insn::Form;

/// Puts the places into the set that an instruction of that form leads to.
fn open_exits(open: &mut PlaceSet, pc: usize, form: Form)
    requires limited { pc ≤ MAX_INSNS }
    requires targets { (to : ℕ) → LeadsTo pc form to → to < MAX_INSNS }
    ensures { Spreads pc form open.old open.new }
{
    match exit_of(form, pc) {
        Exit::On => open.insert(pc + 1),
        Exit::To(place) => open.insert(place),
        Exit::Either(place, other) => {
            open.insert(place);
            open.insert(other);
        }
        Exit::Nowhere => {}
    }
}

/// Goes over the instruction at a place, and says whether it loads the word where a path leaves it unwritten.
fn follow<C: Code>(code: C, word: u32, pc: usize, open: &mut PlaceSet) -> bool
    requires shaped { IsWellShaped (C.insns code) }
    requires inside { pc < length (C.insns code) }
    requires followed { IsFollowed (C.insns code) word pc open.old }
    ensures yes { IsTrue result → LoadsOpen (C.insns code) word pc }
    ensures no { (IsTrue result → ⊥) → IsFollowed (C.insns code) word (pc + 1) open.new }
{
    if !open.contains(pc) {
        return false;
    }
    let form = form_there(code, pc);
    if loads(form, word) {
        return true;
    }
    if !stores(form, word) {
        open_exits(open, pc, form);
    }
    false
}

/// The least place below an end that loads the word where a path leaves it unwritten, or else the end.
fn first_of_word<C: Code>(code: C, word: u32, end: usize) -> usize
    requires shaped { IsWellShaped (C.insns code) }
    requires inside { end ≤ length (C.insns code) }
    ensures { IsLeastOpen (C.insns code) word end result }
{
    let mut open = PlaceSet::empty();
    open.insert(0);
    'pass: for pc in 0..end {
        if follow(code, word, pc, &mut open) {
            return pc;
        }
    }
    end
}

/// The scratch words that instructions load, and maybe others.
fn loaded_words<C: Code>(code: C) -> Words
    requires { IsWellShaped (C.insns code) }
    ensures { (pc word : ℕ) → LoadsWord (C.insns code) pc word → HasWord result word }
{
    let mut words = Words::none();
    'places: for pc in 0..code.count() {
        if let Some(word) = loaded_word(form_there(code, pc)) {
            words = words.with(word);
        }
    }
    words
}

/// The least place that loads a word where a path leaves it unwritten, or else the program's length.
pub fn least_open_load<C: Code>(code: C) -> usize
    requires { IsWellShaped (C.insns code) }
    ensures { IsLeastOfWords (C.insns code) 16 result }
{
    let loaded = loaded_words(code);
    let mut end = code.count();
    'words: for word in 0..WORDS {
        if loaded.contains(word) {
            end = first_of_word(code, word, end);
        }
    }
    end
}
