//! Messages read from bytes.

ghost use Rattle.std.specs.Prelude.{◌≡◌, ◌≤◌, ℕ, ⊤, IfOk, IfErr, OnErr, MatchResult, length};
ghost use Rattle.bpf_insn.specs.declared.insn.TheConstants.{MAX_INSNS};
ghost use Rattle.monitor_messages.specs.declared.loaded.Carrier.TheVariants as carrier;
ghost use Rattle.monitor_messages.specs.declared.message.Message.{Message as GhostMessage};
ghost use Rattle.monitor_messages.specs.declared.fault.DecodeFault.TheVariants.{BadMessage, NoMemory};
ghost use Rattle.filter_table.specs.Loading.{load_op};
ghost use Rattle.monitor_messages.specs.Coding.{Coded};
ghost use Rattle.monitor_messages.specs.Carrying.{IsLoading, LoadsAt, CarriesFrom, CarriesProgram, loaded_message};
ghost use Rattle.monitor_messages.specs.Programs.{insns_of};
ghost use Rattle.monitor_messages.specs.Reading as spec;
ghost use Rattle.monitor_messages.specs.Reading.{Gives};

use crate::fault::DecodeFault;
use crate::loaded::{Carrier, CodedProgram, Loaded};
use crate::message::Message;
use bpf_insn::{Insn, MAX_INSNS};
use endpoint_caps::Rights;
use filter_table::{Decision, Load, Made, Op, OpFault, Program, Veto, Vote};
use std::alloc::Global;

/// What stands where no instruction has been read yet.
const NO_INSN: Insn = Insn {
    code: 0,
    jt: 0,
    jf: 0,
    k: 0,
};

/// The stamp and the message whose bytes these are, all of the bytes. Memory is taken only for the program of an operation.
pub fn decode(alloc: Global, bytes: &[u8]) -> Result<(u64, Message), DecodeFault>
    ensures found { IfOk result (λ found. Coded bytes.now found.0 found.1) }
    ensures memory { result ≡ Err DecodeFault.NoMemory → CarriesProgram bytes.now }
    ensures only { (stamp : ℕ) (message : GhostMessage) → Coded bytes.now stamp message → MatchResult result (λ found. found ≡ (stamp, message)) (λ fault. fault ≡ NoMemory) }
{
    message_in(alloc, bytes)
}

/// The message whose bytes these are, all of the bytes, where it carries a program: `decode` without memory. The program stays
/// where it lies.
pub fn decode_in_place(bytes: &[u8]) -> Result<Loaded<'_>, DecodeFault>
    requires { CarriesProgram bytes.now }
    ensures found { IfOk result (λ found. Coded bytes.now found.stamp (loaded_message found.carrier found.load (insns_of found.program.bytes.now))) }
    ensures no_message { OnErr result ((stamp : ℕ) (message : GhostMessage) → Coded bytes.now stamp message → ⊥) }
    ensures fault { IfErr result (λ fault. fault ≡ BadMessage) }
{
    carried_in_place(bytes)
}

#[tactic(auto, unfolding(crate::specs::Reading::message_in, crate::specs::Reading::body_of))]
fn carried_in_place(bytes: &[u8]) -> Result<Loaded<'_>, DecodeFault>
    requires { CarriesProgram bytes.now }
    ensures { Gives ⊥ (λ found. (found.stamp, loaded_message found.carrier found.load (insns_of found.program.bytes.now))) result (spec.message_in bytes.now) }
{
    let (kind, rest) = u8_at(bytes)?;
    let (stamp, rest) = u64_at(rest)?;
    if kind == 1 {
        let (txn, load, program) = prepare_in_place(rest)?;
        return Ok(Loaded {
            stamp,
            carrier: Carrier::Prepare { txn },
            load,
            program,
        });
    }
    let (load, program) = load_in_place(rest)?;
    Ok(Loaded {
        stamp,
        carrier: Carrier::Submit,
        load,
        program,
    })
}

#[tactic(auto, unfolding(crate::specs::Reading::message_in))]
fn message_in(alloc: Global, bytes: &[u8]) -> Result<(u64, Message), DecodeFault>
    ensures { Gives (CarriesProgram bytes.now) (λ found. found) result (spec.message_in bytes.now) }
{
    let (kind, rest) = u8_at(bytes)?;
    let (stamp, rest) = u64_at(rest)?;
    let message = body_of(alloc, kind, rest)?;
    Ok((stamp, message))
}

#[tactic(auto, unfolding(crate::specs::Reading::body_of))]
fn body_of(alloc: Global, kind: u8, bytes: &[u8]) -> Result<Message, DecodeFault>
    ensures { Gives (CarriesFrom kind bytes.now) (λ message. message) result (spec.body_of kind bytes.now) }
{
    match kind {
        1 => prepare_in(alloc, bytes),
        2 => vote_in(bytes),
        3 => {
            let txn = last_u64(bytes)?;
            Ok(Message::Commit { txn })
        }
        4 => {
            let txn = last_u64(bytes)?;
            Ok(Message::Abort { txn })
        }
        5 => {
            let txn = last_u64(bytes)?;
            Ok(Message::Ack { txn })
        }
        6 => {
            let op = op_in(alloc, bytes)?;
            Ok(Message::Submit { op })
        }
        7 => {
            let decision = decision_in(bytes)?;
            Ok(Message::Reply { decision })
        }
        _ => Err(DecodeFault::BadMessage),
    }
}

#[tactic(auto, unfolding(crate::specs::Reading::prepare_in))]
fn prepare_in(alloc: Global, bytes: &[u8]) -> Result<Message, DecodeFault>
    ensures { Gives (LoadsAt 8 bytes.now) (λ message. message) result (spec.prepare_in bytes.now) }
{
    let (txn, rest) = u64_at(bytes)?;
    let op = op_in(alloc, rest)?;
    Ok(Message::Prepare { txn, op })
}

#[tactic(auto, unfolding(crate::specs::Reading::prepare_in))]
fn prepare_in_place(bytes: &[u8]) -> Result<(u64, Load, CodedProgram<'_>), DecodeFault>
    requires { LoadsAt 8 bytes.now }
    ensures { Gives ⊥ (λ found. loaded_message (carrier.Prepare found.0) found.1 (insns_of found.2.bytes.now)) result (spec.prepare_in bytes.now) }
{
    let (txn, rest) = u64_at(bytes)?;
    let (load, program) = load_in_place(rest)?;
    Ok((txn, load, program))
}

#[tactic(auto, unfolding(crate::specs::Reading::vote_in, crate::specs::Reading::last_u8))]
fn vote_in(bytes: &[u8]) -> Result<Message, DecodeFault>
    ensures { Gives ⊥ (λ message. message) result (spec.vote_in bytes.now) }
{
    let (txn, rest) = u64_at(bytes)?;
    let vote = match last_u8(rest)? {
        0 => Vote::Yes,
        1 => Vote::Budget,
        2 => Vote::NoMemory,
        _ => return Err(DecodeFault::BadMessage),
    };
    Ok(Message::Vote { txn, vote })
}

// Operations

#[tactic(auto, unfolding(crate::specs::Reading::op_in))]
fn op_in(alloc: Global, bytes: &[u8]) -> Result<Op, DecodeFault>
    ensures { Gives (LoadsAt 0 bytes.now) (λ op. op) result (spec.op_in bytes.now) }
{
    let (kind, rest) = u8_at(bytes)?;
    let (domain, rest) = u16_at(rest)?;
    op_of(alloc, kind, domain, rest)
}

#[tactic(auto, unfolding(crate::specs::Reading::op_of))]
fn op_of(alloc: Global, kind: u8, domain: u16, bytes: &[u8]) -> Result<Op, DecodeFault>
    ensures { Gives (IsLoading kind) (λ op. op) result (spec.op_of kind domain bytes.now) }
{
    match kind {
        1 => {
            let endpoint = last_u16(bytes)?;
            Ok(Op::Create { domain, endpoint })
        }
        2 => mint_in(domain, bytes),
        3 => {
            let cap = last_u32(bytes)?;
            Ok(Op::Revoke { domain, cap })
        }
        4 => {
            let cap = last_u32(bytes)?;
            Ok(Op::DropCap { domain, cap })
        }
        5 => {
            let (cap, program) = loaded_in(alloc, bytes)?;
            Ok(Op::Install {
                domain,
                cap,
                program,
            })
        }
        6 => {
            let filter = last_u32(bytes)?;
            Ok(Op::Remove { domain, filter })
        }
        7 => {
            let (filter, program) = loaded_in(alloc, bytes)?;
            Ok(Op::Replace {
                domain,
                filter,
                program,
            })
        }
        _ => Err(DecodeFault::BadMessage),
    }
}

/// An operation that brings a program.
#[tactic(auto, unfolding(crate::specs::Reading::op_in))]
fn load_in_place(bytes: &[u8]) -> Result<(Load, CodedProgram<'_>), DecodeFault>
    requires { LoadsAt 0 bytes.now }
    ensures { Gives ⊥ (λ found. load_op found.0 (insns_of found.1.bytes.now)) result (spec.op_in bytes.now) }
{
    let (kind, rest) = u8_at(bytes)?;
    let (domain, rest) = u16_at(rest)?;
    load_of(kind, domain, rest)
}

#[tactic(auto, unfolding(crate::specs::Reading::op_of, crate::specs::Reading::loaded_in))]
fn load_of(kind: u8, domain: u16, bytes: &[u8]) -> Result<(Load, CodedProgram<'_>), DecodeFault>
    requires { IsLoading kind }
    ensures { Gives ⊥ (λ found. load_op found.0 (insns_of found.1.bytes.now)) result (spec.op_of kind domain bytes.now) }
{
    let (id, rest) = u32_at(bytes)?;
    let program = program_in_place(rest)?;
    let load = if kind == 5 {
        Load::Install { domain, cap: id }
    } else {
        Load::Replace { domain, filter: id }
    };
    Ok((load, program))
}

#[tactic(auto, unfolding(crate::specs::Reading::mint_in))]
fn mint_in(domain: u16, bytes: &[u8]) -> Result<Op, DecodeFault>
    ensures { Gives ⊥ (λ op. op) result (spec.mint_in domain bytes.now) }
{
    let (cap, rest) = u32_at(bytes)?;
    let (to, rest) = u16_at(rest)?;
    let rights = rights_in(rest)?;
    Ok(Op::Mint {
        domain,
        cap,
        to,
        rights,
    })
}

#[tactic(auto, unfolding(crate::specs::Reading::rights_in))]
fn rights_in(bytes: &[u8]) -> Result<Rights, DecodeFault>
    ensures { Gives ⊥ (λ rights. rights) result (spec.rights_in bytes.now) }
{
    match last_u8(bytes)? {
        1 => Ok(Rights::R),
        2 => Ok(Rights::M),
        3 => Ok(Rights::Rm),
        _ => Err(DecodeFault::BadMessage),
    }
}

/// An id and a program.
#[tactic(auto, unfolding(crate::specs::Reading::loaded_in))]
fn loaded_in(alloc: Global, bytes: &[u8]) -> Result<(u32, Program), DecodeFault>
    ensures { Gives ⊤ (λ loaded. loaded) result (spec.loaded_in bytes.now) }
{
    let (id, rest) = u32_at(bytes)?;
    let program = program_in(alloc, rest)?;
    Ok((id, program))
}

#[tactic(auto, unfolding(crate::specs::Reading::program_in))]
fn program_in(alloc: Global, bytes: &[u8]) -> Result<Program, DecodeFault>
    ensures { Gives ⊤ (λ program. program) result (spec.program_in bytes.now) }
{
    let (count, rest) = u16_at(bytes)?;
    let count = usize::from(count);
    if count > MAX_INSNS {
        return Err(DecodeFault::BadMessage);
    }
    let mut code = vec![in alloc; NO_INSN; count]?;
    fill_insns(code.as_mut_slice(), rest)?;
    Ok(Program::from_vec(alloc, code)?)
}

/// A program, which stays where it lies.
#[tactic(auto, unfolding(crate::specs::Reading::program_in))]
fn program_in_place(bytes: &[u8]) -> Result<CodedProgram<'_>, DecodeFault>
    ensures { Gives ⊥ (λ program. insns_of program.bytes.now) result (spec.program_in bytes.now) }
{
    let (count, rest) = u16_at(bytes)?;
    let count = usize::from(count);
    if count <= MAX_INSNS {
        insns_in_place(rest, count)
    } else {
        Err(DecodeFault::BadMessage)
    }
}

/// So many instructions, with nothing after them.
fn insns_in_place(bytes: &[u8], count: usize) -> Result<CodedProgram<'_>, DecodeFault>
    requires { count ≤ MAX_INSNS }
    ensures { Gives ⊥ (λ program. insns_of program.bytes.now) result (spec.insns_in count bytes.now) }
{
    if bytes.len() != 8 * count {
        return Err(DecodeFault::BadMessage);
    }
    Ok(CodedProgram { bytes })
}

/// As many instructions as there is room for, with nothing after them.
fn fill_insns(code: &mut [Insn], bytes: &[u8]) -> Result<(), DecodeFault>
    ensures found { Gives ⊥ (λ _. code.new) result (spec.insns_in (length code.old) bytes.now) }
    ensures room { length code.new ≡ length code.old }
{
    let mut rest = bytes;
    for place in 0..code.len() {
        let (insn, after) = insn_at(rest)?;
        code[place] = insn;
        rest = after;
    }
    ended(rest)
}

#[tactic(auto, unfolding(crate::specs::Reading::insn_at))]
pub(crate) fn insn_at(bytes: &[u8]) -> Result<(Insn, &[u8]), DecodeFault>
    ensures { Gives ⊥ (λ x. (x.0, x.1.now)) result (spec.insn_at bytes.now) }
{
    let (code, rest) = u16_at(bytes)?;
    let (jt, rest) = u8_at(rest)?;
    let (jf, rest) = u8_at(rest)?;
    let (k, rest) = u32_at(rest)?;
    Ok((Insn { code, jt, jf, k }, rest))
}

// Decisions

#[tactic(auto, unfolding(crate::specs::Reading::decision_in))]
fn decision_in(bytes: &[u8]) -> Result<Decision, DecodeFault>
    ensures { Gives ⊥ (λ decision. decision) result (spec.decision_in bytes.now) }
{
    let (kind, rest) = u8_at(bytes)?;
    match kind {
        0 => committed_in(rest),
        1 => refused_in(rest),
        _ => Err(DecodeFault::BadMessage),
    }
}

#[tactic(auto, unfolding(crate::specs::Reading::committed_in))]
fn committed_in(bytes: &[u8]) -> Result<Decision, DecodeFault>
    ensures { Gives ⊥ (λ decision. decision) result (spec.committed_in bytes.now) }
{
    let (version, rest) = u64_at(bytes)?;
    let made = made_in(rest)?;
    Ok(Decision::Committed { version, made })
}

#[tactic(auto, unfolding(crate::specs::Reading::refused_in))]
fn refused_in(bytes: &[u8]) -> Result<Decision, DecodeFault>
    ensures { Gives ⊥ (λ decision. decision) result (spec.refused_in bytes.now) }
{
    let (core, rest) = u16_at(bytes)?;
    let why = veto_in(rest)?;
    Ok(Decision::Refused { core, why })
}

#[tactic(auto, unfolding(crate::specs::Reading::made_in))]
fn made_in(bytes: &[u8]) -> Result<Made, DecodeFault>
    ensures { Gives ⊥ (λ made. made) result (spec.made_in bytes.now) }
{
    let (made, rest) = u8_at(bytes)?;
    match made {
        0 => {
            ended(rest)?;
            Ok(Made::Nothing)
        }
        1 => {
            let id = last_u32(rest)?;
            Ok(Made::Cap(id))
        }
        2 => {
            let id = last_u32(rest)?;
            Ok(Made::Filter(id))
        }
        _ => Err(DecodeFault::BadMessage),
    }
}

#[tactic(auto, unfolding(crate::specs::Reading::veto_in))]
fn veto_in(bytes: &[u8]) -> Result<Veto, DecodeFault>
    ensures { Gives ⊥ (λ why. why) result (spec.veto_in bytes.now) }
{
    let (why, rest) = u8_at(bytes)?;
    match why {
        0 => {
            ended(rest)?;
            Ok(Veto::Budget)
        }
        1 => {
            ended(rest)?;
            Ok(Veto::NoMemory)
        }
        2 => {
            let fault = fault_in(rest)?;
            Ok(Veto::Rule(fault))
        }
        _ => Err(DecodeFault::BadMessage),
    }
}

#[tactic(auto, unfolding(crate::specs::Reading::fault_in))]
fn fault_in(bytes: &[u8]) -> Result<OpFault, DecodeFault>
    ensures { Gives ⊥ (λ fault. fault) result (spec.fault_in bytes.now) }
{
    let (number, rest) = u8_at(bytes)?;
    if number == 17 {
        return bad_program_in(rest);
    }
    ended(rest)?;
    plain_fault(number)
}

fn plain_fault(number: u8) -> Result<OpFault, DecodeFault>
    ensures { Gives ⊥ (λ fault. fault) result (spec.plain_fault number) }
{
    match number {
        1 => Ok(OpFault::NoCap),
        2 => Ok(OpFault::NotHolder),
        3 => Ok(OpFault::NoRight),
        4 => Ok(OpFault::RightsExceed),
        5 => Ok(OpFault::EndpointTaken),
        6 => Ok(OpFault::CapsFull),
        7 => Ok(OpFault::IdsSpent),
        11 => Ok(OpFault::NoFilter),
        12 => Ok(OpFault::NotOwner),
        13 => Ok(OpFault::TableFull),
        14 => Ok(OpFault::FilterIdsSpent),
        18 => Ok(OpFault::VersionsSpent),
        19 => Ok(OpFault::DomainFull),
        _ => Err(DecodeFault::BadMessage),
    }
}

#[tactic(auto, unfolding(crate::specs::Reading::bad_program_in))]
fn bad_program_in(bytes: &[u8]) -> Result<OpFault, DecodeFault>
    ensures { Gives ⊥ (λ fault. fault) result (spec.bad_program_in bytes.now) }
{
    let (rule, rest) = u8_at(bytes)?;
    let pc = last_u16(rest)?;
    if rule == 0 || rule > 10 {
        return Err(DecodeFault::BadMessage);
    }
    Ok(OpFault::BadProgram { rule, pc })
}

// Numbers

fn ended(bytes: &[u8]) -> Result<(), DecodeFault>
    ensures { Gives ⊥ (λ unit. unit) result (spec.ended bytes.now record {}) }
{
    if !bytes.is_empty() {
        return Err(DecodeFault::BadMessage);
    }
    Ok(())
}

#[tactic(auto, unfolding(crate::specs::Reading::last_u8))]
fn last_u8(bytes: &[u8]) -> Result<u8, DecodeFault>
    ensures { Gives ⊥ (λ n. n) result (spec.last_u8 bytes.now) }
{
    let (number, rest) = u8_at(bytes)?;
    ended(rest)?;
    Ok(number)
}

#[tactic(auto, unfolding(crate::specs::Reading::last_u16))]
fn last_u16(bytes: &[u8]) -> Result<u16, DecodeFault>
    ensures { Gives ⊥ (λ n. n) result (spec.last_u16 bytes.now) }
{
    let (number, rest) = u16_at(bytes)?;
    ended(rest)?;
    Ok(number)
}

#[tactic(auto, unfolding(crate::specs::Reading::last_u32))]
fn last_u32(bytes: &[u8]) -> Result<u32, DecodeFault>
    ensures { Gives ⊥ (λ n. n) result (spec.last_u32 bytes.now) }
{
    let (number, rest) = u32_at(bytes)?;
    ended(rest)?;
    Ok(number)
}

#[tactic(auto, unfolding(crate::specs::Reading::last_u64))]
fn last_u64(bytes: &[u8]) -> Result<u64, DecodeFault>
    ensures { Gives ⊥ (λ n. n) result (spec.last_u64 bytes.now) }
{
    let (number, rest) = u64_at(bytes)?;
    ended(rest)?;
    Ok(number)
}

#[tactic(auto, unfolding(crate::specs::Reading::u8_at))]
fn u8_at(bytes: &[u8]) -> Result<(u8, &[u8]), DecodeFault>
    ensures { Gives ⊥ (λ x. (x.0, x.1.now)) result (spec.u8_at bytes.now) }
{
    match bytes {
        [a, rest @ ..] => Ok((*a, rest)),
        _ => Err(DecodeFault::BadMessage),
    }
}

#[tactic(auto, unfolding(crate::specs::Reading::u16_at))]
fn u16_at(bytes: &[u8]) -> Result<(u16, &[u8]), DecodeFault>
    ensures { Gives ⊥ (λ x. (x.0, x.1.now)) result (spec.u16_at bytes.now) }
{
    match bytes {
        [a, b, rest @ ..] => Ok((u16::from_le_bytes([*a, *b]), rest)),
        _ => Err(DecodeFault::BadMessage),
    }
}

#[tactic(auto, unfolding(crate::specs::Reading::u32_at))]
fn u32_at(bytes: &[u8]) -> Result<(u32, &[u8]), DecodeFault>
    ensures { Gives ⊥ (λ x. (x.0, x.1.now)) result (spec.u32_at bytes.now) }
{
    match bytes {
        [a, b, c, d, rest @ ..] => Ok((u32::from_le_bytes([*a, *b, *c, *d]), rest)),
        _ => Err(DecodeFault::BadMessage),
    }
}

#[tactic(auto, unfolding(crate::specs::Reading::u64_at))]
fn u64_at(bytes: &[u8]) -> Result<(u64, &[u8]), DecodeFault>
    ensures { Gives ⊥ (λ x. (x.0, x.1.now)) result (spec.u64_at bytes.now) }
{
    match bytes {
        [a, b, c, d, e, f, g, h, rest @ ..] => {
            let number = u64::from_le_bytes([*a, *b, *c, *d, *e, *f, *g, *h]);
            Ok((number, rest))
        }
        _ => Err(DecodeFault::BadMessage),
    }
}
