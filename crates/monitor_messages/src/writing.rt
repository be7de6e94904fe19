//! Messages written as bytes.

ghost use Rattle.std.specs.Prelude.{◌≡◌, ◌<◌, ◌≤◌, ◌++◌, ◌∷◌, length, All, IfOk, OnOk};
ghost use Rattle.std.specs.Int.{w16, w32, to_le_bytes};
ghost use Rattle.bpf_insn.specs.Table.{InRange, bytes_of};
ghost use Rattle.filter_table.specs.Tables.{HasShortProgram};
ghost use Rattle.monitor_messages.specs.Coding.{rights_number, program_bytes, op_bytes, coded, Coded, IsShort, IsNumbered, IsOp, IsMessage};

use crate::message::Message;
use crate::short::{headed, numbered, short_bytes};
use bpf_insn::Insn;
use endpoint_caps::Rights;
use filter_table::{Op, Program};
use std::alloc::{AllocError, Global};

/// The bytes of a message that is sent under this stamp.
pub fn encode(alloc: Global, stamp: u64, message: &Message) -> Result<Vec<u8>, AllocError>
    requires { IsShort message.now }
    ensures bytes { IfOk result (λ v. v.items ≡ coded stamp message.now) }
    ensures coded { IfOk result (λ v. IsNumbered message.now → Coded v.items stamp message.now) }
    ensures length { IfOk result (λ v. (0 < length v.items) × (length v.items ≤ 32832)) }
{
    let mut out = Vec::new(alloc);
    put_message(&mut out, stamp, message)?;
    Ok(out)
}

fn put_message(out: &mut Vec<u8>, stamp: u64, message: &Message) -> Result<(), AllocError>
    requires { IsShort message.now }
    ensures bytes { OnOk result (out.new.items ≡ out.old.items ++ coded stamp message.now) }
    ensures fits { OnOk result (IsMessage message.now) }
{
    match message {
        Message::Prepare { txn, op } => {
            out.extend_from_slice(&numbered(1, stamp, *txn))?;
            put_op(out, op)
        }
        Message::Submit { op } => {
            out.extend_from_slice(&headed(6, stamp))?;
            put_op(out, op)
        }
        _ => match short_bytes(stamp, message) {
            Some(bytes) => out.extend_from_slice(&bytes),
            None => unreachable!(),
        },
    }
}

fn number_of_rights(rights: Rights) -> u8
    ensures { result ≡ rights_number rights }
{
    match rights {
        Rights::R => 1,
        Rights::M => 2,
        Rights::Rm => 3,
    }
}

fn put_op(out: &mut Vec<u8>, op: &Op) -> Result<(), AllocError>
    requires { HasShortProgram op.now }
    ensures bytes { OnOk result (out.new.items ≡ out.old.items ++ op_bytes op.now) }
    ensures fits { OnOk result (IsOp op.now) }
{
    match op {
        Op::Create { domain, endpoint } => {
            out.push(1)?;
            out.extend_from_slice(&domain.to_le_bytes())?;
            out.extend_from_slice(&endpoint.to_le_bytes())
        }
        Op::Mint {
            domain,
            cap,
            to,
            rights,
        } => {
            out.push(2)?;
            out.extend_from_slice(&domain.to_le_bytes())?;
            out.extend_from_slice(&cap.to_le_bytes())?;
            out.extend_from_slice(&to.to_le_bytes())?;
            out.push(number_of_rights(*rights))?;
            Ok(())
        }
        Op::Revoke { domain, cap } => put_ids(out, 3, *domain, *cap),
        Op::DropCap { domain, cap } => put_ids(out, 4, *domain, *cap),
        Op::Install {
            domain,
            cap,
            program,
        } => {
            put_ids(out, 5, *domain, *cap)?;
            put_program(out, program)
        }
        Op::Remove { domain, filter } => put_ids(out, 6, *domain, *filter),
        Op::Replace {
            domain,
            filter,
            program,
        } => {
            put_ids(out, 7, *domain, *filter)?;
            put_program(out, program)
        }
    }
}

/// The kind of an operation, the domain, and the id of what it is about.
fn put_ids(out: &mut Vec<u8>, kind: u8, domain: u16, id: u32) -> Result<(), AllocError>
    ensures { OnOk result (out.new.items ≡ out.old.items ++ (kind ∷ to_le_bytes w16 domain ++ to_le_bytes w32 id)) }
{
    out.push(kind)?;
    out.extend_from_slice(&domain.to_le_bytes())?;
    out.extend_from_slice(&id.to_le_bytes())
}

fn put_program(out: &mut Vec<u8>, program: &Program) -> Result<(), AllocError>
    requires { length program.now ≤ 4096 }
    ensures bytes { OnOk result (out.new.items ≡ out.old.items ++ program_bytes program.now) }
    ensures fits { OnOk result (All InRange program.now) }
{
    let code = program.as_slice();
    out.extend_from_slice(&(code.len() as u16).to_le_bytes())?;
    for insn in code {
        put_insn(out, *insn)?;
    }
    Ok(())
}

fn put_insn(out: &mut Vec<u8>, insn: Insn) -> Result<(), AllocError>
    ensures bytes { OnOk result (out.new.items ≡ out.old.items ++ bytes_of insn) }
    ensures fits { InRange insn }
{
    out.extend_from_slice(&insn.to_bytes())
}
