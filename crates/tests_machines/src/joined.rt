//! Machines of one core and of two in one thread, and histories written by hand.

ghost use Rattle.std.specs.Prelude.{◌≡◌, ◌<◌, ◌≤◌, ◌∷◌, [], ℕ, suc, List, None, IfOk};
ghost use Rattle.filter_table.specs.Limits.{default_limits};
ghost use Rattle.rx_queue.specs.Queue.{jobs_taken};
ghost use Rattle.filter_table.specs.Tables.{HasShortProgram};
ghost use Rattle.core_links.specs.Flows.{HoldLines};
ghost use Rattle.core_links.specs.RingSlots.{ring_view, link_to, own_of, AreJoinedLinks};
ghost use Rattle.core_loop.specs.Standing.{IsSilent};
ghost use Rattle.core_loop.specs.Cores.{AreShort};
ghost use Rattle.core_machine.specs.Machines.{HasPlace, IsMachine};

use crate::facts::equal;
use bpf_insn::TextFault;
use core_loop::{Core, RingLinks, Stamped};
use core_machine::{Histories, Recorded, conclude, in_order, merge};
use monitor_messages::Vote;
use pcap_reader::SharedPacket;
use rx_queue::{Intake, Job, queue};
use seq::Shared;
use std::alloc::{AllocError, Global};
use std::collections::VecDeque;
use std::process::Abort;
use table_replica::{Limits, Op};
use test_words::{ARP, CAP, EventWords, FILTER, REQUEST, program, tells};
use ump_ring::ring;
use world_model::{Answer, Done, Event};

/// What an event is, but for programs and packets: a word, and three numbers that are 0 where it has none.
type Asked = (&'static str, u16, u16, u64);

fn kind_of(event: &Event) -> Asked {
    match event {
        Event::Start { .. } => ("start", 0, 0, 0),
        Event::Submit { core, .. } => ("submit", *core, 0, 0),
        Event::StartFor { core } => ("start for", *core, 0, 0),
        Event::Take {
            to,
            from,
            short: false,
        } => ("take", *to, *from, 0),
        Event::Take { to, from, .. } => ("take short of memory", *to, *from, 0),
        Event::Rx { core, number, .. } => ("rx", *core, 0, *number),
    }
}

/// The list has just these events.
fn lists(rt: &impl Abort, list: &[Done], wanted: &[(Asked, EventWords)]) {
    equal(rt, list.len(), wanted.len());
    for (done, wanted) in list.iter().zip(wanted.iter()) {
        equal(rt, (kind_of(&done.event), tells(&done.answer)), *wanted);
    }
}

/// A creation of a capability, and an installation of a filter under it.
fn installation(alloc: Global) -> Result<VecDeque<Op>, TextFault> {
    let program = program(alloc, ARP)?;
    let mut requests = VecDeque::new(alloc);
    requests.push_back(creation())?;
    requests.push_back(Op::Install {
        domain: 1,
        cap: 1,
        program,
    })?;
    Ok(requests)
}

fn creation() -> Op
    ensures { HasShortProgram result }
{
    Op::Create {
        domain: 1,
        endpoint: 5,
    }
}

/// A creation that a core other than 0 asks for.
fn submission(alloc: Global) -> Result<VecDeque<Op>, AllocError>
    ensures { IfOk result (λ requests. AreShort 1 requests.items) }
{
    let mut requests = VecDeque::new(alloc);
    requests.push_back(creation())?;
    Ok(requests)
}

/// A queue with one job of this number, for version 2 or a later one.
fn intake(alloc: Global, number: u64) -> Result<Intake, AllocError>
    ensures { IfOk result (λ intake. jobs_taken intake ≡ []) }
{
    let (mut port, intake) = queue(alloc, 1)?;
    let packet = SharedPacket::new(Shared::from_vec(alloc, REQUEST.to_vec(alloc)?)?, 14);
    let _ = port.put(Job {
        number,
        packet,
        floor: 2,
    });
    Ok(intake)
}

/// The links of cores 0 and 1, which two rings of 64 lines join.
fn joined_links(alloc: Global) -> Result<(RingLinks, RingLinks), AllocError>
    ensures own { IfOk result (λ r. (own_of r.0 ≡ 0) × (own_of r.1 ≡ 1)) }
    ensures joined { IfOk result (λ r. AreJoinedLinks r.0 r.1) }
    ensures holds { IfOk result (λ r. HoldLines r.0 r.1) }
    ensures alone { IfOk result (λ r. (link_to r.0 0 ≡ None) × ((entry : ℕ) → link_to r.1 (suc entry) ≡ None)) }
    ensures silent { IfOk result (λ r. ((p : ℕ) → IsSilent (ring_view r.0 p)) × ((p : ℕ) → IsSilent (ring_view r.1 p))) }
{
    let (to_second, from_first) = ring(alloc, 64)?;
    let (to_first, from_second) = ring(alloc, 64)?;
    let mut first = RingLinks::new(alloc, 0, 2)?;
    let mut second = RingLinks::new(alloc, 1, 2)?;
    let (bell, its_bell) = (first.bell()?, second.bell()?);
    first.join(1, to_second, from_second, its_bell);
    second.join(0, to_first, from_first, bell);
    Ok((first, second))
}

/// A core among so many, with a job of this number.
fn core(
    alloc: Global,
    links: RingLinks,
    number: u16,
    cores: u16,
    requests: VecDeque<Op>,
    job: u64,
) -> Result<Recorded<RingLinks>, AllocError>
    requires number { (number < cores) × (cores ≤ 8) }
    requires links { (own_of links ≡ number) × ((p : ℕ) → IsSilent (ring_view links p)) }
    requires short { AreShort number requests.items }
    ensures place { IfOk result (λ core. HasPlace number cores default_limits 100 core) }
    ensures links { IfOk result (λ core. core.links ≡ links) }
{
    let jobs = intake(alloc, job)?;
    let core = Core::new(
        alloc,
        links,
        Limits::DEFAULT,
        100,
        number,
        cores,
        requests,
        jobs,
    )?;
    Ok(Recorded::new(alloc, core))
}

/// Cores 0 and 1 of a machine.
fn two_cores(
    alloc: Global,
    first: VecDeque<Op>,
    second: VecDeque<Op>,
) -> Result<(Recorded<RingLinks>, Recorded<RingLinks>), AllocError>
    requires { AreShort 1 second.items }
    ensures { IfOk result (λ r. IsMachine default_limits 100 (100 ∷ []) (r.0 ∷ r.1 ∷ [])) }
{
    let (links, other_links) = joined_links(alloc)?;
    let first = core(alloc, links, 0, 2, first, 7)?;
    match core(alloc, other_links, 1, 2, second, 8) {
        Ok(second) => Ok((first, second)),
        Err(fault) => {
            drop(first);
            Err(fault)
        }
    }
}

/// Lets the two take turns.
fn take_turns(first: &mut Recorded<RingLinks>, second: &mut Recorded<RingLinks>)
    ensures { (budget : ℕ) (budgets : List ℕ) → IsMachine default_limits budget budgets (first.old ∷ second.old ∷ []) → IsMachine default_limits budget budgets (first.new ∷ second.new ∷ []) }
{
    for _ in 0..40 {
        let _ = first.turn(true);
        let _ = second.turn(true);
    }
}

/// Lets a core that is alone take turns.
fn take_turns_alone(core: &mut Recorded<RingLinks>)
    ensures { (budget : ℕ) (budgets : List ℕ) → IsMachine default_limits budget budgets (core.old ∷ []) → IsMachine default_limits budget budgets (core.new ∷ []) }
{
    for _ in 0..10 {
        let _ = core.turn(true);
    }
}

/// What a core alone does, in one list.
fn run_alone(alloc: Global, requests: VecDeque<Op>) -> Result<Vec<Done>, AllocError> {
    let links = RingLinks::new(alloc, 0, 1)?;
    let mut first = core(alloc, links, 0, 1, requests, 7)?;
    take_turns_alone(&mut first);
    let cores = vec![in alloc; first]?;
    merge(alloc, &conclude(alloc, cores)?)
}

/// What the two do, in one list.
fn run_of(
    alloc: Global,
    requests: VecDeque<Op>,
    submissions: VecDeque<Op>,
) -> Result<Vec<Done>, AllocError>
    requires { AreShort 1 submissions.items }
{
    let (mut first, mut second) = two_cores(alloc, requests, submissions)?;
    take_turns(&mut first, &mut second);
    let cores = vec![in alloc; first, second]?;
    merge(alloc, &conclude(alloc, cores)?)
}

static ALONE: [(Asked, EventWords); 3] = [
    (("start", 0, 0, 0), EventWords::Decided(CAP)),
    (("start", 0, 0, 0), EventWords::Decided(FILTER)),
    (("rx", 0, 0, 7), EventWords::Delivered(2, 1, 5, 14)),
];

#[test]
fn a_core_alone(rt: HostRuntime) {
    let alloc = rt.alloc();
    let requests = installation(alloc).expect(&rt, "there is memory");
    let list = run_alone(alloc, requests).expect(&rt, "there is memory");
    lists(&rt, &list, &ALONE);
}

static INSTALLED: [(Asked, EventWords); 12] = [
    (("start", 0, 0, 0), EventWords::Prepared(1)),
    (("take", 1, 0, 0), EventWords::TookPrepare(1, Vote::Yes)),
    (
        ("take", 0, 1, 0),
        EventWords::TookVote(1, Vote::Yes, Some(CAP)),
    ),
    (("take", 1, 0, 0), EventWords::TookCommit(1, 1)),
    (("take", 0, 1, 0), EventWords::TookAck(1)),
    (("start", 0, 0, 0), EventWords::Prepared(2)),
    (("take", 1, 0, 0), EventWords::TookPrepare(2, Vote::Yes)),
    (
        ("take", 0, 1, 0),
        EventWords::TookVote(2, Vote::Yes, Some(FILTER)),
    ),
    (("rx", 0, 0, 7), EventWords::Delivered(2, 1, 5, 14)),
    (("take", 1, 0, 0), EventWords::TookCommit(2, 2)),
    (("take", 0, 1, 0), EventWords::TookAck(2)),
    (("rx", 1, 0, 8), EventWords::Delivered(2, 1, 5, 14)),
];

static SUBMITTED: [(Asked, EventWords); 8] = [
    (("submit", 1, 0, 0), EventWords::Submitted),
    (("take", 0, 1, 0), EventWords::TookSubmit),
    (("start for", 1, 0, 0), EventWords::Prepared(1)),
    (("take", 1, 0, 0), EventWords::TookPrepare(1, Vote::Yes)),
    (
        ("take", 0, 1, 0),
        EventWords::TookVote(1, Vote::Yes, Some(CAP)),
    ),
    (("take", 1, 0, 0), EventWords::TookCommit(1, 1)),
    (("take", 0, 1, 0), EventWords::TookAck(1)),
    (("take", 1, 0, 0), EventWords::TookReply(CAP)),
];

/// Two cores install and receive; then core 0 decides a request of core 1.
#[test]
fn two_cores_beside_each_other(rt: HostRuntime) {
    let alloc = rt.alloc();
    let requests = installation(alloc).expect(&rt, "there is memory");
    let list = run_of(alloc, requests, VecDeque::new(alloc)).expect(&rt, "there is memory");
    lists(&rt, &list, &INSTALLED);
    let submissions = submission(alloc).expect(&rt, "there is memory");
    let list = run_of(alloc, VecDeque::new(alloc), submissions).expect(&rt, "there is memory");
    lists(&rt, &list, &SUBMITTED);
}

/// Takes of messages by hand: the core, the stamp, the core that each message is from, and what is told.
type Took = (u16, u64, u16, EventWords);

/// Histories of four cores, the last one empty.
static HISTORIES: [&[Took]; 4] = [
    &[
        (0, 4, 1, EventWords::TookSubmit),
        (0, 7, 2, EventWords::TookAck(3)),
    ],
    &[
        (1, 4, 0, EventWords::TookPrepare(3, Vote::NoMemory)),
        (1, 9, 0, EventWords::TookAbort(3, 0)),
    ],
    &[
        (2, 3, 0, EventWords::TookPrepare(3, Vote::Budget)),
        (2, 4, 0, EventWords::TookAbort(3, 0)),
    ],
    &[],
];

fn answer(told: EventWords) -> Answer {
    match told {
        EventWords::TookPrepare(txn, vote) => Answer::TookPrepare { txn, vote },
        EventWords::TookAbort(txn, version) => Answer::TookAbort { txn, version },
        EventWords::TookAck(txn) => Answer::TookAck { txn },
        _ => Answer::TookSubmit,
    }
}

fn history(alloc: Global, takes: &[Took]) -> Result<Vec<Stamped>, AllocError> {
    let mut history = Vec::new(alloc);
    for (to, stamp, from, told) in takes {
        let event = Event::Take {
            to: *to,
            from: *from,
            short: false,
        };
        let answer = answer(*told);
        history.push(Stamped {
            stamp: *stamp,
            done: Done { event, answer },
        })?;
    }
    Ok(history)
}

fn by_hand(alloc: Global) -> Result<Vec<Done>, AllocError> {
    let mut cores = Vec::new(alloc);
    for takes in &HISTORIES {
        cores.push(history(alloc, takes)?)?;
    }
    merge(alloc, &Histories { cores })
}

static BY_STAMP_AND_CORE: [(Asked, EventWords); 6] = [
    (("take", 2, 0, 0), EventWords::TookPrepare(3, Vote::Budget)),
    (("take", 0, 1, 0), EventWords::TookSubmit),
    (
        ("take short of memory", 1, 0, 0),
        EventWords::TookPrepare(3, Vote::NoMemory),
    ),
    (("take", 2, 0, 0), EventWords::TookAbort(3, 0)),
    (("take", 0, 2, 0), EventWords::TookAck(3)),
    (("take", 1, 0, 0), EventWords::TookAbort(3, 0)),
];

#[test]
fn histories_by_stamp_and_core(rt: HostRuntime) {
    let list = by_hand(rt.alloc()).expect(&rt, "there is memory");
    lists(&rt, &list, &BY_STAMP_AND_CORE);
}
