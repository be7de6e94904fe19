//! Worked calls of the protocol: what each role answers to messages that fit and to strangers.
use crate::asks::{Sent, asked};
use crate::cores::{Core0, Heard, Peer};
use crate::facts::equal_at;
use monitor_2pc::{Decision, Say, StartFault, Step, Veto, Vote};
use std::alloc::Global;
use std::process::Abort;
use table_replica::{Made, Op, OpFault};
use test_words::{Ask, CAP, NO_FILTER, OVER_BUDGET_OF_2, TAKEN};

/// A call on core 0.
#[derive(Clone, Copy)]
enum Call {
    Start(Ask),
    /// The core keeps a request of the other.
    Submit(u16, Ask),
    StartFor(u16),
    Vote(u16, u64, Vote),
    Ack(u16, u64),
    /// Whether the core has the creation of endpoint 7 by domain 1 waiting, or nothing.
    Waits(u16),
    IsIdle,
    IsStaged,
}

/// What core 0 answers: a step, or a word.
type Said = Result<Step, &'static str>;

fn of_start(answer: Result<Step, StartFault>) -> Said {
    match answer {
        Ok(step) => Ok(step),
        Err(StartFault::NotIdle) => Err("not idle"),
        Err(StartFault::Spent) => Err("spent"),
        Err(StartFault::NoneWaiting) => Err("none waiting"),
    }
}

fn word(fact: bool, yes: &'static str, no: &'static str) -> Said {
    if fact { Err(yes) } else { Err(no) }
}

fn waits(waiting: Option<&Op>) -> Said {
    match waiting {
        Some(
            Op::Create {
                domain: 1,
                endpoint: 7,
            },
        ) => Err("waits"),
        Some(_) => Err("another waits"),
        None => Err("none waits"),
    }
}

fn core_0_says(rt: &impl Abort, alloc: Global, core0: &mut Core0, call: Call) -> Said {
    match call {
        Call::Start(ask) => of_start(core0.starts(rt, alloc, ask)),
        Call::Submit(from, ask) => word(core0.keeps(rt, alloc, from, ask), "kept", "stranger"),
        Call::StartFor(from) => of_start(core0.starts_for(alloc, from)),
        Call::Vote(from, txn, vote) => core0.hears(from, txn, vote).ok_or("stranger"),
        Call::Ack(from, txn) => core0.hears_end(from, txn).ok_or("stranger"),
        Call::Waits(from) => waits(core0.core.waiting(from)),
        Call::IsIdle => word(core0.core.idle(), "idle", "busy"),
        Call::IsStaged => word(core0.table.staged(), "staged", "not staged"),
    }
}

const CREATE: Ask = Ask::Create(1, 7);

const MADE_1: Said = Ok(Step {
    txn: 1,
    say: None,
    decided: Some(CAP),
    reply: None,
});

const REFUSED_1: Said = Ok(Step {
    txn: 1,
    say: None,
    decided: Some(TAKEN),
    reply: None,
});

const PREPARE_9: Said = Ok(Step {
    txn: 9,
    say: Some(Say::Prepare),
    decided: None,
    reply: None,
});

const NOTHING_9: Said = Ok(Step {
    txn: 9,
    say: None,
    decided: None,
    reply: None,
});

const ABORT_9: Said = Ok(Step {
    txn: 9,
    say: Some(Say::Abort),
    decided: Some(OVER_BUDGET_OF_2),
    reply: None,
});

const PREPARE_1: Said = Ok(Step {
    txn: 1,
    say: Some(Say::Prepare),
    decided: None,
    reply: None,
});

const NOTHING_1: Said = Ok(Step {
    txn: 1,
    say: None,
    decided: None,
    reply: None,
});

const COMMIT_1: Said = Ok(Step {
    txn: 1,
    say: Some(Say::Commit),
    decided: Some(CAP),
    reply: None,
});

/// How many cores there are, core 0's last number, and calls with what it answers.
type Run = (u16, u64, &'static [(Call, Said)]);

static OF_CORE_0: [Run; 7] = [
    // Numbers are spent.
    (
        2,
        u64::MAX,
        &[
            (Call::Start(CREATE), Err("spent")),
            (Call::Submit(1, CREATE), Err("kept")),
            (Call::StartFor(1), Err("spent")),
            (Call::Waits(1), Err("waits")),
        ],
    ),
    // One core alone.
    (
        1,
        0,
        &[
            (Call::Start(CREATE), MADE_1),
            (Call::Start(CREATE), REFUSED_1),
        ],
    ),
    // Of the cores that refuse, the least is named, whichever is heard first.
    (
        4,
        8,
        &[
            (Call::Start(CREATE), PREPARE_9),
            (Call::Vote(3, 9, Vote::NoMemory), NOTHING_9),
            (Call::Vote(2, 9, Vote::Budget), NOTHING_9),
            (Call::Vote(1, 9, Vote::Yes), ABORT_9),
            (Call::IsStaged, Err("not staged")),
        ],
    ),
    // A core has one request.
    (
        2,
        0,
        &[
            (Call::Submit(0, CREATE), Err("stranger")),
            (Call::Submit(2, CREATE), Err("stranger")),
            (Call::Submit(1, CREATE), Err("kept")),
            (Call::Submit(1, Ask::Create(1, 8)), Err("stranger")),
            (Call::Waits(1), Err("waits")),
            (Call::Waits(0), Err("none waits")),
            (Call::Waits(2), Err("none waits")),
        ],
    ),
    // A decision at once is a reply.
    (
        2,
        0,
        &[
            (Call::StartFor(1), Err("none waiting")),
            (Call::Submit(1, Ask::Remove(1, 1)), Err("kept")),
            (
                Call::StartFor(1),
                Ok(Step {
                    txn: 0,
                    say: None,
                    decided: Some(NO_FILTER),
                    reply: Some((1, NO_FILTER)),
                }),
            ),
            (Call::Waits(1), Err("none waits")),
        ],
    ),
    // Strangers among votes.
    (
        3,
        0,
        &[
            (Call::Start(CREATE), PREPARE_1),
            (Call::Vote(1, 1, Vote::Yes), NOTHING_1),
            (Call::Vote(1, 1, Vote::Yes), Err("stranger")),
            (Call::Vote(2, 2, Vote::Yes), Err("stranger")),
            (Call::Vote(3, 1, Vote::Yes), Err("stranger")),
            (Call::Ack(1, 1), Err("stranger")),
            (Call::Start(Ask::Create(1, 8)), Err("not idle")),
            (Call::Vote(2, 1, Vote::Yes), COMMIT_1),
        ],
    ),
    // Strangers among acknowledgements.
    (
        3,
        0,
        &[
            (Call::Start(CREATE), PREPARE_1),
            (Call::Vote(2, 1, Vote::Yes), NOTHING_1),
            (Call::Vote(1, 1, Vote::Yes), COMMIT_1),
            (Call::Ack(2, 1), NOTHING_1),
            (Call::IsIdle, Err("busy")),
            (Call::Ack(2, 1), Err("stranger")),
            (Call::Ack(1, 2), Err("stranger")),
            (Call::Ack(0, 1), Err("stranger")),
            (Call::Ack(1, 1), NOTHING_1),
            (Call::IsIdle, Err("idle")),
        ],
    ),
];

/// Core 0 says this to the calls, one after the other.
fn says(rt: &impl Abort, alloc: Global, core0: &mut Core0, (cores, _, calls): Run) {
    for (number, (call, wanted)) in calls.iter().enumerate() {
        let found = core_0_says(rt, alloc, core0, *call);
        equal_at(rt, found, *wanted, &(cores, number));
    }
}

#[test]
fn what_core_0_says(rt: HostRuntime) {
    for run in &OF_CORE_0 {
        let mut core0 = Core0::new(&rt, rt.alloc(), 9, run.0, run.1);
        says(&rt, rt.alloc(), &mut core0, *run);
        drop(core0);
    }
}

/// A call on another core.
#[derive(Clone, Copy)]
enum Asks {
    Answer(Sent),
    Submit(Ask),
    Reply(Decision),
    IsOutstanding,
}

fn answers(rt: &impl Abort, alloc: Global, peer: &mut Peer, call: Asks) -> Heard {
    let is_done = match call {
        Asks::Answer(sent) => return peer.answers(rt, alloc, sent, false),
        Asks::Submit(ask) => peer.submits(asked(rt, alloc, ask)).is_some(),
        Asks::Reply(decision) => peer.core.reply(&decision).is_ok(),
        Asks::IsOutstanding => peer.core.outstanding(),
    };
    if is_done { YES } else { NO }
}

const YES: Heard = ("yes", 0, Vote::Yes);

const NO: Heard = ("no", 0, Vote::Yes);

const STRANGER: Heard = ("stranger", 0, Vote::Yes);

static OF_ANOTHER: [&[(Asks, Heard)]; 4] = [
    // Messages of other cores.
    &[
        (Asks::Answer(Sent::Ack(0)), STRANGER),
        (Asks::Answer(Sent::Submit(CREATE)), STRANGER),
        (Asks::Answer(Sent::Reply(CAP)), STRANGER),
    ],
    // A core has one request.
    &[
        (Asks::Submit(CREATE), YES),
        (Asks::IsOutstanding, YES),
        (Asks::Submit(Ask::Create(1, 8)), NO),
    ],
    // A reply ends the request.
    &[
        (Asks::Reply(CAP), NO),
        (Asks::Submit(CREATE), YES),
        (Asks::Reply(CAP), YES),
        (Asks::IsOutstanding, NO),
        (Asks::Reply(CAP), NO),
    ],
    // Strangers.
    &[
        (Asks::Answer(Sent::Commit(1)), STRANGER),
        (Asks::Answer(Sent::Prepare(2, CREATE)), STRANGER),
        (
            Asks::Answer(Sent::Prepare(1, Ask::Install(1, 9, "0"))),
            STRANGER,
        ),
        (
            Asks::Answer(Sent::Prepare(1, CREATE)),
            ("vote", 1, Vote::Yes),
        ),
        (Asks::Answer(Sent::Prepare(2, Ask::Create(1, 8))), STRANGER),
        (Asks::Answer(Sent::Abort(1)), ("ack", 1, Vote::Yes)),
    ],
];

#[test]
fn what_another_core_answers(rt: HostRuntime) {
    for (run, calls) in OF_ANOTHER.iter().enumerate() {
        let mut peer = Peer::new(&rt, rt.alloc(), 9);
        for (number, (call, wanted)) in calls.iter().enumerate() {
            let found = answers(&rt, rt.alloc(), &mut peer, *call);
            equal_at(&rt, found, *wanted, &(run, number));
        }
        drop(peer);
    }
}
