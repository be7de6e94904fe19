//! The decimal text of a program.

ghost use Rattle.std.specs.Prelude.{◌≡◌, ◌≢◌, ◌≤◌, ◌<◌, ◌+◌, ◌^◌, ◌⊎◌, ◌∷◌, [], ℕ, List, Some, length, min, IfOk, IfErr, IsErrAnd, MatchOption, MatchResult};
ghost use Rattle.std.specs.Option.{option_copied};
ghost use Rattle.bpf_insn.specs.Ddd.{Ddd, Faults, HasOutcome, IsCountRight, IsInsn, IsPieces, SpellsCount, SpellsInsn};
ghost use Rattle.bpf_insn.specs.Parts.{IsBadAt, IsCountedText, SpellsFirst, StartsWithNumber, parts_of};
ghost use Rattle.bpf_insn.specs.Texts.{number_of, words_of};

use crate::number::{HUGE, number};
use crate::pieces::{first_piece, first_word};
use crate::{Insn, MAX_INSNS};
use std::alloc::{AllocError, AllocFailed, Global};
use thiserror::Error;

/// Why a text spells no program. The first that applies is reported: the count, then its bound, then the number of
/// instructions, then the instructions in order.
#[derive(Clone, Copy, Debug, PartialEq, Eq, Error)]
pub enum TextFault {
    /// The piece at this place is not what belongs there: at 0, the count, or at N, the four numbers of the Nth
    /// instruction, each in the range of its field.
    #[error("entry {0} of the text is not what belongs there")]
    BadNumber(u32),
    /// The count isn't the number of instructions that follow it.
    #[error("the count is not the number of instructions that follow it")]
    CountMismatch,
    /// The count is above `MAX_INSNS`.
    #[error("the count is too large")]
    TooLong,
    /// Memory ran out. This says nothing of the text but that its count is right.
    #[error("out of memory")]
    NoMemory,
}

impl From<AllocError> for TextFault {
    ghost use Rattle.bpf_insn.specs.declared.ddd.TextFault.TheVariants.{NoMemory};

    ghost from_gives = { λ _ e. e ≡ NoMemory };

    fn from(_error: AllocError) -> TextFault {
        TextFault::NoMemory
    }
}

impl<T: Drop> From<AllocFailed<T>> for TextFault {
    ghost use Rattle.bpf_insn.specs.declared.ddd.TextFault.TheVariants.{NoMemory};

    ghost from_gives = { λ _ e. e ≡ NoMemory };

    fn from(_error: AllocFailed<T>) -> TextFault {
        TextFault::NoMemory
    }
}

/// The program that a decimal text spells: the number of instructions, then for each its code, jt, jf and k.
///
/// Commas and line feeds part the count and the instructions from one another, and spaces, tabs and carriage returns
/// the numbers of one. What is empty at the end doesn't count, and numbers may have leading zeros. So this reads what
/// `tcpdump -ddd` writes, line by line, and what `bpf_asm` writes and the bpf match of iptables takes, with commas.
///
/// At most `MAX_INSNS` instructions are read. Whether they make a program that can run isn't looked at.
pub fn read_ddd(alloc: Global, text: &[u8]) -> Result<Vec<Insn>, TextFault>
    ensures spelled { IfOk result (λ program. Ddd text.now program.items) }
    ensures fault { IfErr result (λ fault. (fault ≡ TextFault.NoMemory) ⊎ Faults text.now fault) }

    // What the text stands for is answered, unless memory runs out.
    ensures only { (program : List Insn) → Ddd text.now program
        → MatchResult result (λ found. found.items ≡ program) (λ fault. fault ≡ TextFault.NoMemory) }
    ensures first { (fault : TextFault) → Faults text.now fault
        → IsErrAnd result (λ found. (found ≡ TextFault.NoMemory) ⊎ (found ≡ fault)) }

    // A wrong count is reported even where memory runs out.
    ensures memory { result ≡ Err TextFault.NoMemory → IsCountRight text.now }

    // Whatever is answered, the text stands for a program or for a fault ..
    ensures some { HasOutcome text.now }
    // .. and for no two things.
    ensures one_program { (program other : List Insn) → Ddd text.now program → Ddd text.now other → program ≡ other }
    ensures one_fault { (fault other : TextFault) → Faults text.now fault → Faults text.now other → fault ≡ other }
    ensures apart { (program : List Insn) (fault : TextFault) → Ddd text.now program → Faults text.now fault → ⊥ }
{
    let (count, rest) = read_count(text)?;
    read_insns(alloc, rest, count)
}

/// The number of instructions that a text announces and has, and what stands after its first piece.
fn read_count(text: &[u8]) -> Result<(usize, Option<&[u8]>), TextFault>
    ensures counted { IfOk result (λ found. IsCountedText text.now found.0 (parts_of (option_copied found.1))) }
    ensures fault { IfErr result (Faults text.now) }
{
    let number = piece_count(text);
    if number == 0 {
        return Err(TextFault::BadNumber(0));
    }
    let (first, rest) = first_piece(text);
    let count = count_of(first).ok_or(TextFault::BadNumber(0))?;
    if count > MAX_INSNS as u64 {
        return Err(TextFault::TooLong);
    }
    if count as usize != number - 1 {
        return Err(TextFault::CountMismatch);
    }
    Ok((number - 1, rest))
}

/// The instructions in the next pieces, the first of which is piece 1.
fn read_insns(alloc: Global, rest: Option<&[u8]>, count: usize) -> Result<Vec<Insn>, TextFault>
    requires within { count ≤ length (parts_of (option_copied rest)) }
    requires short { count ≤ MAX_INSNS }
    ensures spelled { IfOk result (λ program. SpellsFirst (parts_of (option_copied rest.entry)) count program.items) }
    ensures fault { IfErr result (λ fault. (fault ≡ TextFault.NoMemory)
        ⊎ ((place : ℕ) × (fault ≡ TextFault.BadNumber place) × IsBadAt (parts_of (option_copied rest.entry)) count place)) }
{
    let mut program = Vec::with_capacity(alloc, count)?;
    let mut left = rest;
    for place in 0..count {
        let Some(text) = left else { unreachable!() };
        let (piece, more) = first_piece(text);
        left = more;
        match insn_of(piece) {
            Some(insn) => program.push(insn)?,
            None => return Err(TextFault::BadNumber(place as u32 + 1)),
        }
    }
    Ok(program)
}

/// How many pieces a text has, without the empty ones at its end.
fn piece_count(text: &[u8]) -> usize
    ensures { (pieces : List (List (List ℕ))) × IsPieces text.now pieces × (length pieces ≡ result) }
{
    let mut count = 0;
    let mut place = 0;
    let mut left = text;
    loop {
        let (piece, more) = first_piece(left);
        count = counted(piece, place, count);
        match more {
            Some(rest) => left = rest,
            None => return count,
        }
        place += 1;
    }
}

/// The number of pieces after one more, where the empty ones at the end don't count.
fn counted(piece: &[u8], place: usize, count: usize) -> usize
    requires { place + length piece.now < 2 ^ 64 }
    ensures { ((words_of piece.now ≡ []) × (result ≡ count)) ⊎ ((words_of piece.now ≢ []) × (result ≡ place + 1)) }
{
    if piece.is_empty() {
        return count;
    }
    match first_word(piece) {
        Some(_) => place + 1,
        None => count,
    }
}

/// The count that stands alone in a piece.
fn count_of(piece: &[u8]) -> Option<u64>
    ensures { MatchOption result ((n : ℕ) → ¬ (SpellsCount (words_of piece.now) n))
        (λ count. (n : ℕ) × SpellsCount (words_of piece.now) n × (count ≡ min n HUGE)) }
{
    let (count, rest) = first_number(piece)?;
    if first_word(rest).is_some() {
        return None;
    }
    Some(count)
}

/// The instruction that a piece spells.
fn insn_of(piece: &[u8]) -> Option<Insn>
    ensures { MatchOption result (¬ (IsInsn (words_of piece.now))) (SpellsInsn (words_of piece.now)) }
{
    let (code, rest) = first_number(piece)?;
    let (jt, rest) = first_number(rest)?;
    let (jf, rest) = first_number(rest)?;
    let (k, rest) = first_number(rest)?;
    if first_word(rest).is_some() {
        return None;
    }
    Some(Insn {
        code: u16::try_from(code).ok()?,
        jt: u8::try_from(jt).ok()?,
        jf: u8::try_from(jf).ok()?,
        k: u32::try_from(k).ok()?,
    })
}

/// The number that the first word of a piece writes, and what stands after the word.
fn first_number(piece: &[u8]) -> Option<(u64, &[u8])>
    ensures { MatchOption result (¬ (StartsWithNumber (words_of piece.now)))
        (λ found. (word : List ℕ) × (n : ℕ) × (words_of piece.now ≡ word ∷ words_of found.1.now)
        × (number_of word ≡ Some n) × (found.0 ≡ min n HUGE)) }
{
    let (word, rest) = first_word(piece)?;
    Some((number(word)?, rest))
}
