//! Worked bytes of messages.
ghost use Rattle.std.specs.Prelude.{◌≤◌, length};
ghost use Rattle.monitor_messages.specs.Coding.{IsShort};

use crate::asks::{Sent, message, said};
use crate::facts::{equal, holds};
use bpf_insn::Insn;
use endpoint_caps::Rights;
use monitor_messages::{Decision, DecodeFault, Message, Veto, Vote, decode, encode, short_bytes};
use std::alloc::{AllocError, Global};
use std::process::Abort;
use table_replica::{Made, Op, OpFault, Program};
use test_words::Ask;

/// The bytes of the message under stamp 1 are these; they are read back, and so is a copy's. With a byte more, or with one
/// less, they are no message.
fn spelled(rt: &impl Abort, alloc: Global, message: Message, body: &[u8])
    requires { IsShort message }
{
    let wanted = stamped(alloc, body).expect(rt, "there is memory");
    copied(rt, alloc, message, &wanted);
    read_back(rt, alloc, &wanted);
    bad(rt, alloc, &wanted[..wanted.len().saturating_sub(1)]);
    one_more(rt, alloc, wanted);
}

/// The bytes of a message, with stamp 1 after its kind.
fn stamped(alloc: Global, body: &[u8]) -> Result<Vec<u8>, AllocError> {
    let (kind, rest) = body.split_at(body.len().min(1));
    let mut bytes = Vec::new(alloc);
    bytes.extend_from_slice(kind)?;
    bytes.extend_from_slice(&[1, 0, 0, 0, 0, 0, 0, 0])?;
    bytes.extend_from_slice(rest)?;
    Ok(bytes)
}

/// The bytes of the message under stamp 1.
fn bytes_of(rt: &impl Abort, alloc: Global, message: Message) -> Vec<u8>
    requires { IsShort message }
{
    encode(alloc, 1, &message).expect(rt, "there is memory")
}

/// A copy of the message has these bytes.
fn copied(rt: &impl Abort, alloc: Global, message: Message, wanted: &[u8])
    requires { IsShort message }
{
    let copy = message.clone().expect(rt, "there is memory");
    short(rt, &copy, wanted);
    equal(rt, bytes_of(rt, alloc, copy).as_slice(), wanted);
}

/// A message that brings no operation has these bytes without memory, too.
fn short(rt: &impl Abort, message: &Message, wanted: &[u8]) {
    match short_bytes(1, message) {
        Some(bytes) => equal(rt, bytes.as_slice(), wanted),
        None => holds(
            rt,
            matches!(message, Message::Prepare { .. } | Message::Submit { .. }),
        ),
    }
}

/// The bytes are read as a message that has them.
fn read_back(rt: &impl Abort, alloc: Global, wanted: &[u8]) {
    let (stamp, read) = decode(alloc, wanted).expect(rt, "a message");
    equal(rt, stamp, 1);
    equal(rt, bytes_of(rt, alloc, read).as_slice(), wanted);
}

/// With a byte more they are no message.
fn one_more(rt: &impl Abort, alloc: Global, mut bytes: Vec<u8>) {
    bytes.push(0).expect(rt, "there is memory");
    bad(rt, alloc, &bytes);
}

/// The bytes are no message.
fn bad(rt: &impl Abort, alloc: Global, bytes: &[u8]) {
    let fault = decode(alloc, bytes).err();
    equal(rt, fault, Some(DecodeFault::BadMessage));
}

/// Two instructions.
const TWO: &str = "2,21 1 2 2054,6 0 0 65535";

/// Messages with their bytes, but for the stamp.
static SPELLED: [(Sent, &[u8]); 20] = [
    (
        Sent::Prepare(1, Ask::Create(1, 7)),
        &[1, 1, 0, 0, 0, 0, 0, 0, 0, 1, 1, 0, 7, 0],
    ),
    (
        Sent::Reply(Decision::Committed {
            version: 1,
            made: Made::Cap(1),
        }),
        &[7, 0, 1, 0, 0, 0, 0, 0, 0, 0, 1, 1, 0, 0, 0],
    ),
    // Votes and outcomes.
    (
        Sent::Vote(0x0807_0605_0403_0201, Vote::Yes),
        &[2, 1, 2, 3, 4, 5, 6, 7, 8, 0],
    ),
    (
        Sent::Vote(0x0807_0605_0403_0201, Vote::Budget),
        &[2, 1, 2, 3, 4, 5, 6, 7, 8, 1],
    ),
    (
        Sent::Vote(0x0807_0605_0403_0201, Vote::NoMemory),
        &[2, 1, 2, 3, 4, 5, 6, 7, 8, 2],
    ),
    (
        Sent::Commit(0x0807_0605_0403_0201),
        &[3, 1, 2, 3, 4, 5, 6, 7, 8],
    ),
    (
        Sent::Abort(0x0807_0605_0403_0201),
        &[4, 1, 2, 3, 4, 5, 6, 7, 8],
    ),
    (
        Sent::Ack(0x0807_0605_0403_0201),
        &[5, 1, 2, 3, 4, 5, 6, 7, 8],
    ),
    // Operations.
    (
        Sent::Submit(Ask::Mint(0x0201, 0x0403_0201, 5, Rights::R)),
        &[6, 2, 1, 2, 1, 2, 3, 4, 5, 0, 1],
    ),
    (
        Sent::Submit(Ask::Mint(0x0201, 0x0403_0201, 5, Rights::M)),
        &[6, 2, 1, 2, 1, 2, 3, 4, 5, 0, 2],
    ),
    (
        Sent::Submit(Ask::Mint(0x0201, 0x0403_0201, 5, Rights::Rm)),
        &[6, 2, 1, 2, 1, 2, 3, 4, 5, 0, 3],
    ),
    (
        Sent::Submit(Ask::Revoke(0x0201, 0x0403_0201)),
        &[6, 3, 1, 2, 1, 2, 3, 4],
    ),
    (
        Sent::Submit(Ask::DropCap(0x0201, 0x0403_0201)),
        &[6, 4, 1, 2, 1, 2, 3, 4],
    ),
    (
        Sent::Submit(Ask::Remove(0x0201, 9)),
        &[6, 6, 1, 2, 9, 0, 0, 0],
    ),
    (
        Sent::Submit(Ask::Install(1, 2, TWO)),
        &[
            6, 5, 1, 0, 2, 0, 0, 0, 2, 0, 21, 0, 1, 2, 6, 8, 0, 0, 6, 0, 0, 0, 255, 255, 0, 0,
        ],
    ),
    (
        Sent::Submit(Ask::Replace(1, 9, "0")),
        &[6, 7, 1, 0, 9, 0, 0, 0, 0, 0],
    ),
    // Decisions.
    (
        Sent::Reply(Decision::Committed {
            version: 2,
            made: Made::Nothing,
        }),
        &[7, 0, 2, 0, 0, 0, 0, 0, 0, 0, 0],
    ),
    (
        Sent::Reply(Decision::Committed {
            version: 2,
            made: Made::Filter(3),
        }),
        &[7, 0, 2, 0, 0, 0, 0, 0, 0, 0, 2, 3, 0, 0, 0],
    ),
    (
        Sent::Reply(Decision::Refused {
            core: 1,
            why: Veto::Budget,
        }),
        &[7, 1, 1, 0, 0],
    ),
    (
        Sent::Reply(Decision::Refused {
            core: 0,
            why: Veto::NoMemory,
        }),
        &[7, 1, 0, 0, 1],
    ),
];

/// Rules with their bytes in a decision.
static RULES: [(OpFault, &[u8]); 15] = [
    (OpFault::NoCap, &[1]),
    (OpFault::NotHolder, &[2]),
    (OpFault::NoRight, &[3]),
    (OpFault::RightsExceed, &[4]),
    (OpFault::EndpointTaken, &[5]),
    (OpFault::CapsFull, &[6]),
    (OpFault::IdsSpent, &[7]),
    (OpFault::NoFilter, &[11]),
    (OpFault::NotOwner, &[12]),
    (OpFault::TableFull, &[13]),
    (OpFault::FilterIdsSpent, &[14]),
    (OpFault::VersionsSpent, &[18]),
    (OpFault::DomainFull, &[19]),
    (OpFault::BadProgram { rule: 1, pc: 4095 }, &[17, 1, 255, 15]),
    (
        OpFault::BadProgram { rule: 10, pc: 4095 },
        &[17, 10, 255, 15],
    ),
];

/// The bytes of a refusal by a rule of core 0.
fn refusal(alloc: Global, rule: &[u8]) -> Result<Vec<u8>, AllocError> {
    let mut bytes = Vec::from_slice(alloc, &[7, 1, 0, 0, 2])?;
    bytes.extend_from_slice(rule)?;
    Ok(bytes)
}

/// A refusal of core 0 by this rule is spelled so.
fn refusal_spelled(rt: &impl Abort, alloc: Global, fault: OpFault, rule: &[u8]) {
    let decision = Decision::Refused {
        core: 0,
        why: Veto::Rule(fault),
    };
    let body = refusal(alloc, rule).expect(rt, "there is memory");
    spelled(rt, alloc, Message::Reply { decision }, &body);
}

#[test]
fn messages_are_spelled(rt: HostRuntime) {
    let alloc = rt.alloc();
    for (sent, body) in &SPELLED {
        spelled(&rt, alloc, said(&rt, alloc, *sent), body);
    }
    for (fault, rule) in &RULES {
        refusal_spelled(&rt, alloc, *fault, rule);
    }
}

/// A program of 4,096 instructions is sent in 32,794 bytes, and one of 4,097 is not read.
#[test]
fn the_longest_message(rt: HostRuntime) {
    let program = longest_sent(&rt, rt.alloc());
    longest_replaces(&rt, rt.alloc(), program);
}

fn load(k: u32) -> Insn {
    Insn {
        code: 0,
        jt: 0,
        jf: 0,
        k,
    }
}

/// A program of 4,096 instructions.
fn longest(rt: &impl Abort, alloc: Global) -> Program
    ensures { length result ≤ 4096 }
{
    let mut code = Vec::new(alloc);
    for k in 0..4096 {
        code.push(load(k)).expect(rt, "there is memory");
    }
    if code.len() > 4096 {
        rt.abort()
    }
    Program::from_vec(alloc, code).expect(rt, "there is memory")
}

/// The longest program is sent in a Prepare, and read back.
fn longest_sent(rt: &impl Abort, alloc: Global) -> Program
    ensures { length result ≤ 4096 }
{
    let op = Op::Install {
        domain: 1,
        cap: 1,
        program: longest(rt, alloc),
    };
    let bytes = bytes_of(rt, alloc, Message::Prepare { txn: 1, op });
    equal(rt, bytes.len(), 32_794);
    let program = installed(rt, alloc, &bytes);
    let code = program.as_slice();
    equal(rt, code.len(), 4096);
    equal(rt, code.get(4095), Some(&load(4095)));
    program
}

/// The program of the Install in a Prepare of number 1.
fn installed(rt: &impl Abort, alloc: Global, bytes: &[u8]) -> Program
    ensures { length result ≤ 4096 }
{
    let (_, read) = decode(alloc, bytes).expect(rt, "a message");
    match read {
        Message::Prepare {
            txn: 1,
            op: Op::Install { program, .. },
        } => program,
        _ => rt.abort(),
    }
}

/// The program is sent in a Submit, and read back.
fn longest_replaces(rt: &impl Abort, alloc: Global, program: Program)
    requires { length program ≤ 4096 }
{
    let op = Op::Replace {
        domain: 1,
        filter: 1,
        program,
    };
    let message = Message::Submit { op };
    let copy = message.clone().expect(rt, "there is memory");
    let bytes = bytes_of(rt, alloc, copy);
    equal(rt, bytes.len(), 32_786);
    read_back(rt, alloc, &bytes);
}

/// Bytes that are no messages.
static BAD: [&[u8]; 21] = [
    // Nothing, no kind, one too many, and a vote.
    &[],
    &[0, 1, 0, 0, 0, 0, 0, 0, 0, 1, 0, 0, 0, 0, 0, 0, 0],
    &[8, 1, 0, 0, 0, 0, 0, 0, 0, 1, 0, 0, 0, 0, 0, 0, 0],
    &[2, 1, 0, 0, 0, 0, 0, 0, 0, 1, 0, 0, 0, 0, 0, 0, 0, 3],
    // Operations, and rights.
    &[6, 1, 0, 0, 0, 0, 0, 0, 0, 0, 1, 0, 7, 0],
    &[6, 1, 0, 0, 0, 0, 0, 0, 0, 8, 1, 0, 7, 0, 0, 0],
    &[6, 1, 0, 0, 0, 0, 0, 0, 0, 2, 1, 0, 2, 0, 0, 0, 5, 0, 0],
    &[6, 1, 0, 0, 0, 0, 0, 0, 0, 2, 1, 0, 2, 0, 0, 0, 5, 0, 4],
    // A decision, what was made, and why.
    &[7, 1, 0, 0, 0, 0, 0, 0, 0, 2, 0, 0, 0],
    &[7, 1, 0, 0, 0, 0, 0, 0, 0, 0, 1, 0, 0, 0, 0, 0, 0, 0, 3],
    &[7, 1, 0, 0, 0, 0, 0, 0, 0, 1, 0, 0, 3],
    // A rule, and a refusal of the verifier.
    &[7, 1, 0, 0, 0, 0, 0, 0, 0, 1, 0, 0, 2, 0],
    &[7, 1, 0, 0, 0, 0, 0, 0, 0, 1, 0, 0, 2, 8],
    &[7, 1, 0, 0, 0, 0, 0, 0, 0, 1, 0, 0, 2, 10],
    &[7, 1, 0, 0, 0, 0, 0, 0, 0, 1, 0, 0, 2, 15],
    &[7, 1, 0, 0, 0, 0, 0, 0, 0, 1, 0, 0, 2, 16],
    &[7, 1, 0, 0, 0, 0, 0, 0, 0, 1, 0, 0, 2, 17],
    &[7, 1, 0, 0, 0, 0, 0, 0, 0, 1, 0, 0, 2, 20],
    &[7, 1, 0, 0, 0, 0, 0, 0, 0, 1, 0, 0, 2, 17, 0, 0, 0],
    &[7, 1, 0, 0, 0, 0, 0, 0, 0, 1, 0, 0, 2, 17, 11, 0, 0],
    &[7, 1, 0, 0, 0, 0, 0, 0, 0, 1, 0, 0, 2, 17, 255, 0, 0],
];

/// The head of an Install of 4,097 instructions.
const TOO_LONG: [u8; 18] = [6, 1, 0, 0, 0, 0, 0, 0, 0, 5, 1, 0, 1, 0, 0, 0, 1, 16];

/// An Install of 4,097 instructions.
fn too_long(alloc: Global) -> Result<Vec<u8>, AllocError> {
    let mut bytes = Vec::from_slice(alloc, &TOO_LONG)?;
    for _ in 0..4097 {
        bytes.extend_from_slice(&[6, 0, 0, 0, 0, 0, 0, 0])?;
    }
    Ok(bytes)
}

#[test]
fn no_messages(rt: HostRuntime) {
    for bytes in &BAD {
        bad(&rt, rt.alloc(), bytes);
    }
    let long = too_long(rt.alloc()).expect(&rt, "there is memory");
    bad(&rt, rt.alloc(), &long);
}

/// The message, asked for once more where a growth is refused.
fn said_again(rt: &impl Abort, alloc: Global, sent: Sent) -> Message
    ensures { IsShort result }
{
    match message(alloc, sent) {
        Ok(message) => message,
        Err(_) => said(rt, alloc, sent),
    }
}

/// The bytes of the message under stamp 1, asked for once more where a growth is refused.
fn encoded(rt: &impl Abort, alloc: Global, message: Message) -> Vec<u8>
    requires { IsShort message }
{
    match encode(alloc, 1, &message) {
        Ok(bytes) => bytes,
        Err(_) => bytes_of(rt, alloc, message),
    }
}

/// The stamp and the message, asked for once more where a growth is refused.
fn decoded(rt: &impl Abort, alloc: Global, bytes: &[u8]) -> (u64, Message)
    ensures { IsShort result.1 }
{
    match decode(alloc, bytes) {
        Ok(read) => read,
        Err(fault) => {
            equal(rt, fault, DecodeFault::NoMemory);
            decode(alloc, bytes).expect(rt, "there is memory")
        }
    }
}

/// These are the message's bytes, and they are read as a message that has them.
fn spelled_again(rt: &impl Abort, alloc: Global, message: Message, wanted: &[u8])
    requires { IsShort message }
{
    equal(rt, encoded(rt, alloc, message).as_slice(), wanted);
    let (stamp, read) = decoded(rt, alloc, wanted);
    equal(rt, stamp, 1);
    equal(rt, encoded(rt, alloc, read).as_slice(), wanted);
}

/// Messages with all of their bytes.
static AGAIN: [(Sent, &[u8]); 2] = [
    (
        Sent::Prepare(1, Ask::Create(1, 7)),
        &[
            1, 1, 0, 0, 0, 0, 0, 0, 0, 1, 0, 0, 0, 0, 0, 0, 0, 1, 1, 0, 7, 0,
        ],
    ),
    (
        Sent::Submit(Ask::Install(1, 2, TWO)),
        &[
            6, 1, 0, 0, 0, 0, 0, 0, 0, 5, 1, 0, 2, 0, 0, 0, 2, 0, 21, 0, 1, 2, 6, 8, 0, 0, 6, 0, 0,
            0, 255, 255, 0, 0,
        ],
    ),
];

/// One growth may be refused, whichever it is: the call says so, and the same call again answers as with ample memory.
#[test]
fn refused_growths_change_nothing(rt: HostRuntime) {
    for (sent, bytes) in &AGAIN {
        let message = said_again(&rt, rt.alloc(), *sent);
        spelled_again(&rt, rt.alloc(), message, bytes);
    }
}
