//! Reading the CODE of a filter, and saying why it is none.

ghost use Rattle.std.specs.Prelude.{◌≡◌, ◌≢◌, IfOk, MatchResult, string_bytes};
ghost use Rattle.console.specs.Code.{IsGoodCode, ShowsBadCode, code_line, refused_line};

use crate::fault_words::{push_code_words, push_refusal_words};
use bpf_insn::{TextFault, read_ddd};
use filter_predecode::Predecoded;
use filter_verify::{Refusal, Verified, verify};
use std::alloc::{AllocError, Global};

/// The verified program that a decimal text spells, or the line that says why there is none.
pub fn read_code(alloc: Global, code: &[u8]) -> Result<Result<Verified, String>, AllocError>
    ensures { IfOk result (λ answer. MatchResult answer (IsGoodCode code.now) (λ line. ShowsBadCode code.now (string_bytes line))) }
{
    match read_ddd(alloc, code) {
        Ok(program) => match verify(alloc, program.as_slice()) {
            Ok(verified) => Ok(Ok(verified)),
            Err(refusal) => Ok(Err(refused(alloc, refusal)?)),
        },
        Err(fault) => Ok(Err(code_fault(alloc, fault)?)),
    }
}

/// The same program, predecoded, so that it runs faster.
pub fn read_predecoded(alloc: Global, code: &[u8]) -> Result<Result<Predecoded, String>, AllocError>
    ensures { IfOk result (λ answer. MatchResult answer (IsGoodCode code.now) (λ line. ShowsBadCode code.now (string_bytes line))) }
{
    match read_code(alloc, code)? {
        Ok(program) => Ok(Ok(Predecoded::new(alloc, &program)?)),
        Err(line) => Ok(Err(line)),
    }
}

/// The line that says why a text spells no program.
pub(crate) fn code_fault(alloc: Global, fault: TextFault) -> Result<String, AllocError>
    ensures { IfOk result (λ line. (fault ≢ TextFault.NoMemory) × (string_bytes line ≡ code_line fault)) }
{
    let mut line = String::from_str(alloc, "code ")?;
    push_code_words(&mut line, fault)?;
    line.push_str("\n")?;
    Ok(line)
}

/// The line that says why a program is refused.
fn refused(alloc: Global, refusal: Refusal) -> Result<String, AllocError>
    ensures { IfOk result (λ line. (refusal ≢ Refusal.NoMemory) × (string_bytes line ≡ refused_line refusal)) }
{
    let mut line = String::from_str(alloc, "refused ")?;
    push_refusal_words(&mut line, &refusal)?;
    line.push_str("\n")?;
    Ok(line)
}
