//! Requests. Each is answered by a turn of the same core, in the order in which they were asked.

ghost use Rattle.std.specs.Prelude.{◌≡◌, ◌≢◌, ◌↔◌, ◌∷◌, [], ◌⊎◌, ◌≤◌, ◌<◌, None, Some, MatchOption, IfErr, IfOk, IsTrue, length};
ghost use Rattle.bpf_insn.specs.declared.insn.Insn.{Insn as GhostInsn};
ghost use Rattle.endpoint_caps.specs.declared.Rights.{Rights as GhostRights};
ghost use Rattle.filter_table.specs.declared.operation.Op.TheVariants.{Create, Mint, Revoke, DropCap, Install, Remove, Replace};
ghost use Rattle.core_loop.specs.Cores.{AreShort};
ghost use Rattle.core_machine.specs.Machines.{RingCore};
ghost use Rattle.mkdemux_cores.specs.Asking.{HasAsked, IsOther, IsTooLong, rights_number};
ghost use Rattle.mkdemux_cores.specs.Leading.{Leads};

use crate::answers::{BAD_RIGHTS, CLOSED, DONE, NO_MEMORY, PEER_CLOSED, TOO_LONG};
use crate::handle::CoreHandle;
use bpf_insn::Insn;
use core_loop::{Core, RingLinks};
use endpoint_caps::Rights;
use filter_table::{Op, Program};
use std::alloc::{AllocError, Global};

/// The instructions that a program of a core other than 0 may have.
const MOST_INSTRUCTIONS: usize = 4096;

/// Asks for a capability of an endpoint with all rights, for a domain: `DONE`, `CLOSED`, `PEER_CLOSED` or `NO_MEMORY`.
#[unsafe(no_mangle)]
pub extern "C" fn mkdemux_ask_create(
    alloc: Global,
    core: &mut CoreHandle,
    domain: u16,
    endpoint: u16,
) -> u32
    ensures closed { result ≡ CLOSED ↔ core.old.core ≡ None }
    ensures asked { result ≡ DONE → Leads (HasAsked (Create domain endpoint)) core.old.core core.new.core }
    ensures same { result ≢ DONE → core.new.core ≡ core.old.core }
    ensures peer_closed { result ≡ PEER_CLOSED → IsOther core.old.core }
    ensures answers { (result ≡ DONE) ⊎ ((result ≡ CLOSED) ⊎ ((result ≡ PEER_CLOSED) ⊎ (result ≡ NO_MEMORY))) }
{
    ask(alloc, core, Op::Create { domain, endpoint })
}

/// Asks for a capability of the same endpoint as another, for the domain `to`. Rights are 1 to receive, 2 to mint, 3 for both:
/// `DONE`, `CLOSED`, `BAD_RIGHTS`, `PEER_CLOSED` or `NO_MEMORY`.
#[unsafe(no_mangle)]
pub extern "C" fn mkdemux_ask_mint(
    alloc: Global,
    core: &mut CoreHandle,
    domain: u16,
    cap: u32,
    to: u16,
    rights: u8,
) -> u32
    ensures closed { result ≡ CLOSED ↔ core.old.core ≡ None }
    ensures asked { result ≡ DONE → (r : GhostRights) × (rights_number r ≡ rights) × Leads (HasAsked (Mint domain cap to r)) core.old.core core.new.core }
    ensures rights { result ≡ BAD_RIGHTS → (r : GhostRights) → rights_number r ≢ rights }
    ensures same { result ≢ DONE → core.new.core ≡ core.old.core }
    ensures peer_closed { result ≡ PEER_CLOSED → IsOther core.old.core }
    ensures answers { (result ≡ DONE) ⊎ ((result ≡ CLOSED) ⊎ ((result ≡ BAD_RIGHTS) ⊎ ((result ≡ PEER_CLOSED) ⊎ (result ≡ NO_MEMORY)))) }
{
    match rights_of(rights) {
        Some(rights) => ask(
            alloc,
            core,
            Op::Mint {
                domain,
                cap,
                to,
                rights,
            },
        ),
        None if core.is_open(alloc) => BAD_RIGHTS,
        None => CLOSED,
    }
}

/// Asks that all that was minted from a capability goes: `DONE`, `CLOSED`, `PEER_CLOSED` or `NO_MEMORY`.
#[unsafe(no_mangle)]
pub extern "C" fn mkdemux_ask_revoke(
    alloc: Global,
    core: &mut CoreHandle,
    domain: u16,
    cap: u32,
) -> u32
    ensures closed { result ≡ CLOSED ↔ core.old.core ≡ None }
    ensures asked { result ≡ DONE → Leads (HasAsked (Revoke domain cap)) core.old.core core.new.core }
    ensures same { result ≢ DONE → core.new.core ≡ core.old.core }
    ensures peer_closed { result ≡ PEER_CLOSED → IsOther core.old.core }
    ensures answers { (result ≡ DONE) ⊎ ((result ≡ CLOSED) ⊎ ((result ≡ PEER_CLOSED) ⊎ (result ≡ NO_MEMORY))) }
{
    ask(alloc, core, Op::Revoke { domain, cap })
}

/// Asks that a capability goes, with all that was minted from it: `DONE`, `CLOSED`, `PEER_CLOSED` or `NO_MEMORY`.
#[unsafe(no_mangle)]
pub extern "C" fn mkdemux_ask_drop(
    alloc: Global,
    core: &mut CoreHandle,
    domain: u16,
    cap: u32,
) -> u32
    ensures closed { result ≡ CLOSED ↔ core.old.core ≡ None }
    ensures asked { result ≡ DONE → Leads (HasAsked (DropCap domain cap)) core.old.core core.new.core }
    ensures same { result ≢ DONE → core.new.core ≡ core.old.core }
    ensures peer_closed { result ≡ PEER_CLOSED → IsOther core.old.core }
    ensures answers { (result ≡ DONE) ⊎ ((result ≡ CLOSED) ⊎ ((result ≡ PEER_CLOSED) ⊎ (result ≡ NO_MEMORY))) }
{
    ask(alloc, core, Op::DropCap { domain, cap })
}

/// Asks for a filter for the endpoint of a capability. The program is copied, and may be one that the verifier refuses: `DONE`,
/// `CLOSED`, `TOO_LONG`, `PEER_CLOSED` or `NO_MEMORY`.
#[unsafe(no_mangle)]
pub extern "C" fn mkdemux_ask_install(
    alloc: Global,
    core: &mut CoreHandle,
    domain: u16,
    cap: u32,
    code: &[Insn],
) -> u32
    ensures closed { result ≡ CLOSED ↔ core.old.core ≡ None }
    ensures asked { result ≡ DONE → Leads (HasAsked (Install domain cap code.now)) core.old.core core.new.core }
    ensures too_long { result ≡ TOO_LONG ↔ IsTooLong code.now core.old.core }
    ensures same { result ≢ DONE → core.new.core ≡ core.old.core }
    ensures peer_closed { result ≡ PEER_CLOSED → IsOther core.old.core }
    ensures answers { (result ≡ DONE) ⊎ ((result ≡ CLOSED) ⊎ ((result ≡ TOO_LONG) ⊎ ((result ≡ PEER_CLOSED) ⊎ (result ≡ NO_MEMORY)))) }
{
    match program_for(alloc, core, code) {
        Ok(program) => ask(
            alloc,
            core,
            Op::Install {
                domain,
                cap,
                program,
            },
        ),
        Err(answer) => answer,
    }
}

/// Asks that a filter goes: `DONE`, `CLOSED`, `PEER_CLOSED` or `NO_MEMORY`.
#[unsafe(no_mangle)]
pub extern "C" fn mkdemux_ask_remove(
    alloc: Global,
    core: &mut CoreHandle,
    domain: u16,
    filter: u32,
) -> u32
    ensures closed { result ≡ CLOSED ↔ core.old.core ≡ None }
    ensures asked { result ≡ DONE → Leads (HasAsked (Remove domain filter)) core.old.core core.new.core }
    ensures same { result ≢ DONE → core.new.core ≡ core.old.core }
    ensures peer_closed { result ≡ PEER_CLOSED → IsOther core.old.core }
    ensures answers { (result ≡ DONE) ⊎ ((result ≡ CLOSED) ⊎ ((result ≡ PEER_CLOSED) ⊎ (result ≡ NO_MEMORY))) }
{
    ask(alloc, core, Op::Remove { domain, filter })
}

/// Asks that a filter gets another program, and keeps all else. The program is copied: `DONE`, `CLOSED`, `TOO_LONG`, `PEER_CLOSED` or `NO_MEMORY`.
#[unsafe(no_mangle)]
pub extern "C" fn mkdemux_ask_replace(
    alloc: Global,
    core: &mut CoreHandle,
    domain: u16,
    filter: u32,
    code: &[Insn],
) -> u32
    ensures closed { result ≡ CLOSED ↔ core.old.core ≡ None }
    ensures asked { result ≡ DONE → Leads (HasAsked (Replace domain filter code.now)) core.old.core core.new.core }
    ensures too_long { result ≡ TOO_LONG ↔ IsTooLong code.now core.old.core }
    ensures same { result ≢ DONE → core.new.core ≡ core.old.core }
    ensures peer_closed { result ≡ PEER_CLOSED → IsOther core.old.core }
    ensures answers { (result ≡ DONE) ⊎ ((result ≡ CLOSED) ⊎ ((result ≡ TOO_LONG) ⊎ ((result ≡ PEER_CLOSED) ⊎ (result ≡ NO_MEMORY)))) }
{
    match program_for(alloc, core, code) {
        Ok(program) => ask(
            alloc,
            core,
            Op::Replace {
                domain,
                filter,
                program,
            },
        ),
        Err(answer) => answer,
    }
}

/// Whether it is another core, and knows that core 0 is closed.
fn has_lost_core_0(core: &Core<RingLinks>) -> bool
    ensures { IsTrue result → 0 < core.now.number }
{
    core.number() > 0 && core.closed() != 0
}

/// Puts a request after those of the core.
fn ask(alloc: Global, core: &mut CoreHandle, op: Op) -> u32
    requires short { (c : RingCore) → core.old.core ≡ Some c → AreShort c.number (op ∷ []) }
    ensures closed { result ≡ CLOSED ↔ core.old.core ≡ None }
    ensures asked { result ≡ DONE → Leads (HasAsked op) core.old.core core.new.core }
    ensures same { result ≢ DONE → core.new.core ≡ core.old.core }
    ensures peer_closed { result ≡ PEER_CLOSED → IsOther core.old.core }
    ensures answers { (result ≡ DONE) ⊎ ((result ≡ CLOSED) ⊎ ((result ≡ PEER_CLOSED) ⊎ (result ≡ NO_MEMORY))) }
{
    let Some(mut open) = core.take(alloc) else {
        return CLOSED;
    };
    if has_lost_core_0(&open) {
        core.put(open);
        return PEER_CLOSED;
    }
    let asked = open.ask(op);
    core.put(open);
    match asked {
        Ok(()) => DONE,
        Err(AllocError) => NO_MEMORY,
    }
}

/// A copy of a program that this core can be asked for, or what is to be answered.
fn program_for(alloc: Global, core: &mut CoreHandle, code: &[Insn]) -> Result<Program, u32>
    ensures same { core.new.core ≡ core.old.core }
    ensures copy { IfOk result (λ program. program ≡ code.now) }
    ensures open { IfOk result (λ _. core.old.core ≢ None) }
    ensures fits { IfOk result (λ _. (c : RingCore) → core.old.core ≡ Some c → (c.number ≡ 0) ⊎ (length code.now ≤ 4096)) }
    ensures closed { IfErr result (λ answer. answer ≡ CLOSED ↔ core.old.core ≡ None) }
    ensures too_long { IfErr result (λ answer. answer ≡ TOO_LONG ↔ IsTooLong code.now core.old.core) }
    ensures answers { IfErr result (λ answer. (answer ≡ CLOSED) ⊎ ((answer ≡ TOO_LONG) ⊎ (answer ≡ NO_MEMORY))) }
{
    let Some(open) = core.take(alloc) else {
        return Err(CLOSED);
    };
    let number = open.number();
    core.put(open);
    if number > 0 && code.len() > MOST_INSTRUCTIONS {
        return Err(TOO_LONG);
    }
    match copied(alloc, code) {
        Ok(program) => Ok(program),
        Err(AllocError) => Err(NO_MEMORY),
    }
}

/// A copy of a program.
fn copied(alloc: Global, code: &[Insn]) -> Result<Program, AllocError>
    ensures { IfOk result (λ program. program ≡ code.now) }
{
    Program::from_vec(alloc, Vec::from_slice(alloc, code)?)
}

/// The rights of a number.
fn rights_of(number: u8) -> Option<Rights>
    ensures { MatchOption result ((r : GhostRights) → rights_number r ≢ number) (λ r. rights_number r ≡ number) }
{
    match number {
        1 => Some(Rights::R),
        2 => Some(Rights::M),
        3 => Some(Rights::Rm),
        _ => None,
    }
}
