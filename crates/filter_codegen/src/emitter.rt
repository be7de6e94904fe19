//! The instructions of one test.

ghost use Rattle.std.specs.Prelude.{◌≡◌, ℕ, ◌+◌, ◌-◌, ◌<◌, ◌≤◌, length, IfOk, IfErr, OnOk};
ghost use Rattle.filter_codegen.specs.Drafts.{Refuses};
ghost use Rattle.filter_codegen.specs.Emits.{Branches, Masks, Loads, Indexes, Emits};

use crate::draft::Draft;
use crate::fault::CompileFault;
use crate::insns::{branch, index_header, index_of, load_at, load_length, load_past, mask_by};
use crate::plan::{ANCILLARY, Start};
use crate::task::Ways;
use filter_cond::{Check, Load};

/// Compares the accumulator, and goes on at one of two places that are near.
fn emit_branch(draft: &mut Draft, check: Check, ways: Ways) -> Result<usize, CompileFault>
    requires pass { (ways.pass < length draft.old) × (length draft.old ≤ ways.pass + 256) }
    requires fail { (ways.fail < length draft.old) × (length draft.old ≤ ways.fail + 256) }
    ensures ok { IfOk result (λ place. Branches check ways.pass ways.fail draft.old draft.new place) }
    ensures err { IfErr result (λ fault. Refuses (length draft.old + 1) fault) }
{
    let last = draft.len() - 1;
    draft.put(branch(
        check.test,
        check.value,
        (last - ways.pass) as u8,
        (last - ways.fail) as u8,
    ))
}

/// Keeps the bits of the accumulator that count, before what is there.
fn emit_mask(draft: &mut Draft, check: Check) -> Result<(), CompileFault>
    requires { 0 < length draft.old }
    ensures ok { OnOk result (Masks check draft.old draft.new) }
    ensures err { IfErr result (λ fault. Refuses (length draft.old + 1) fault) }
{
    if let Some(mask) = check.mask {
        draft.put(mask_by(mask))?;
    }
    Ok(())
}

/// Loads a number before what is there, the index register being ready.
fn emit_load(draft: &mut Draft, load: Load) -> Result<usize, CompileFault>
    requires { 0 < length draft.old }
    ensures ok { IfOk result (λ place. Loads load draft.old draft.new place) }
    ensures err { IfErr result (λ fault. Refuses (length draft.old + 1) fault) }
{
    match load {
        Load::At { size, at } if at < ANCILLARY => draft.put(load_at(size, at)),
        Load::At { size, at } => draft.put(load_past(size, at)),
        Load::Past {
            size,
            header: _,
            at,
        } => draft.put(load_past(size, at)),
        Load::Length => draft.put(load_length()),
    }
}

/// Loads the index register and then a number, before what is there.
fn emit_indexed(draft: &mut Draft, load: Load) -> Result<usize, CompileFault>
    requires { 0 < length draft.old }
    ensures ok { IfOk result (λ place. Indexes load draft.old draft.new place) }
    ensures err { IfErr result (λ fault. Refuses (length draft.old + 2) fault) }
{
    match load {
        Load::At { size, at } => {
            draft.put(load_past(size, at))?;
            draft.put(index_of(0))
        }
        Load::Past { size, header, at } => {
            draft.put(load_past(size, at))?;
            draft.put(index_header(header))
        }
        Load::Length => draft.put(load_length()),
    }
}

/// Tests a number, and goes on at one of two places that are near. The code begins where it must, by what the registers hold.
pub fn emit_check(
    draft: &mut Draft,
    check: Check,
    start: Start,
    ways: Ways,
) -> Result<usize, CompileFault>
    requires pass { (ways.pass < length draft.old) × (length draft.old ≤ ways.pass + 256) }
    requires fail { (ways.fail < length draft.old) × (length draft.old ≤ ways.fail + 256) }
    ensures ok { IfOk result (λ place. Emits check start ways.pass ways.fail draft.old draft.new place) }
    ensures err { IfErr result (λ fault. Refuses (length draft.old + 4) fault) }
{
    let place = emit_branch(draft, check, ways)?;
    match start {
        Start::Branch => Ok(place),
        Start::Mask => {
            emit_mask(draft, check)?;
            Ok(draft.len() - 1)
        }
        Start::Load => {
            emit_mask(draft, check)?;
            emit_load(draft, check.load)
        }
        Start::Index => {
            emit_mask(draft, check)?;
            emit_indexed(draft, check.load)
        }
    }
}
