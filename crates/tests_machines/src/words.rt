//! Requests, packets and jobs that several tests use.

ghost use Rattle.std.specs.Prelude.{◌≡◌, ◌≤◌, ◌∷◌, [], IsTrue, IfOk, length};
ghost use Rattle.filter_table.specs.Tables.{HasShortProgram};
ghost use Rattle.core_loop.specs.Cores.{AreShort};
ghost use Rattle.core_machine.specs.Driving.{IsStep};

use bpf_insn::Insn;
use core_machine::{CoreStep, Task};
use filter_table::{Op, Program};
use std::alloc::{AllocError, Global};

/// Domain 1 creates endpoint 7.
pub(crate) fn create() -> Op
    ensures { HasShortProgram result }
{
    Op::Create {
        domain: 1,
        endpoint: 7,
    }
}

/// A program that accepts every packet.
fn all(alloc: Global) -> Result<Program, AllocError>
    ensures { IfOk result (λ program. length program ≤ 4096) }
{
    let accept = Insn {
        code: 6,
        jt: 0,
        jf: 0,
        k: 65535,
    };
    Program::from_vec(alloc, Vec::from_slice(alloc, &[accept])?)
}

/// A filter that accepts every packet, for endpoint 7.
pub(crate) fn install(alloc: Global) -> Result<Op, AllocError>
    ensures { IfOk result HasShortProgram }
{
    Ok(Op::Install {
        domain: 1,
        cap: 1,
        program: all(alloc)?,
    })
}

pub(crate) fn is_short(op: &Op) -> bool
    ensures { IsTrue result → HasShortProgram op.now }
{
    match op {
        Op::Install { program, .. } | Op::Replace { program, .. } => program.as_slice().len()
            <= 4096,
        _ => true,
    }
}

fn can_be_given(core: u16, op: &Op) -> bool
    ensures { IsTrue result → AreShort core (op.now ∷ []) }
{
    core == 0 || is_short(op)
}

/// Whether the step is one of so many cores.
pub(crate) fn is_step(step: &CoreStep, cores: usize) -> bool
    ensures { IsTrue result → IsStep cores step.now }
{
    if usize::from(step.core) >= cores {
        return false;
    }
    match &step.task {
        Task::Ask { op } => can_be_given(step.core, op),
        Task::Turn { rx: _ } => true,
        Task::Receive { packet: _ } => true,
    }
}
