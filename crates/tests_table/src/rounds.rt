//! Worked runs of two, three, four and eight cores as calls, a message at a time.

use crate::asks::{Sent, asked};
use crate::cores::{Core0, Peer};
use crate::facts::{equal, equal_at, holds};
use endpoint_caps::Rights;
use monitor_2pc::{Decision, Say, StartFault, Step, Veto, Vote};
use std::alloc::Global;
use std::process::Abort;
use table_replica::{Kept, Made, OpFault, Replica};
use test_words::{
    ARP, Ask, CAP, FILTER, NO_MEMORY_ON_1, OVER_BUDGET_OF_1, OVER_BUDGET_OF_2, REQUEST, TAKEN,
    THREE,
};

const CREATE: Ask = Ask::Create(1, 7);

/// Each other core votes on what core 0 began, in order, and the last vote decides; the core of this number is short of memory.
fn votes(
    rt: &impl Abort,
    alloc: Global,
    core0: &mut Core0,
    peers: &mut [Peer],
    begun: Step,
    ask: Ask,
    short: u16,
) -> Step {
    let mut told = begun;
    for (from, peer) in (1..8).zip(peers.iter_mut()) {
        equal(rt, told.decided, None);
        let vote = peer.votes(rt, alloc, told.txn, ask, from == short);
        told = core0.hears(from, told.txn, vote).expect(rt, "a vote");
    }
    told
}

/// The outcome that core 0 sends when it has decided.
fn outcome_of(decided: Step) -> Sent {
    match decided.say {
        Some(Say::Commit) => Sent::Commit(decided.txn),
        _ => Sent::Abort(decided.txn),
    }
}

/// Each other core ends the operation, in order; core 0 is idle after the last one, and not before. What core 0 then replies.
fn ends(
    rt: &impl Abort,
    alloc: Global,
    core0: &mut Core0,
    peers: &mut [Peer],
    decided: Step,
) -> Option<(u16, Decision)> {
    let outcome = outcome_of(decided);
    let mut told = decided;
    for (from, peer) in (1..8).zip(peers.iter_mut()) {
        holds(rt, !core0.core.idle());
        equal(rt, told.reply, None);
        let (word, txn, _) = peer.answers(rt, alloc, outcome, false);
        equal(rt, word, "ack");
        told = core0.hears_end(from, txn).expect(rt, "an acknowledgement");
    }
    holds(rt, core0.core.idle());
    told.reply
}

/// What core 0 decides on a request of its own, at once or when all have voted; then all have ended it.
fn decides(
    rt: &impl Abort,
    alloc: Global,
    core0: &mut Core0,
    peers: &mut [Peer],
    ask: Ask,
    short: u16,
) -> Option<Decision> {
    let begun = core0.starts(rt, alloc, ask).expect(rt, "core 0 is idle");
    if begun.decided.is_some() {
        return begun.decided;
    }
    equal(rt, begun.say, Some(Say::Prepare));
    let decided = votes(rt, alloc, core0, peers, begun, ask, short);
    equal(rt, ends(rt, alloc, core0, peers, decided), None);
    decided.decided
}

/// The other cores, with these budgets.
fn peers(rt: &impl Abort, alloc: Global, budgets: &[u32]) -> Vec<Peer> {
    let mut peers = Vec::new(alloc);
    for budget in budgets {
        let peer = Peer::new(rt, alloc, *budget);
        peers.push(peer).expect(rt, "there is memory");
    }
    peers
}

/// All other cores are at this version, with so many instructions.
fn are_at(rt: &impl Abort, peers: &[Peer], version: u64, instructions: u32) {
    for peer in peers {
        let found = (peer.table.version(), peer.table.total_instructions());
        equal(rt, found, (version, instructions));
    }
}

/// A request of core 0's own, which other core is short of memory, or 0, what is decided, and core 0's version and last number then.
type Row = (Ask, u16, Decision, u64, u64);

/// The budgets of core 0 and of the others, the requests, and the instructions that the others have then.
type Run = (u32, &'static [u32], &'static [Row], u32);

static RUNS: [Run; 4] = [
    // With four cores all are asked, the last vote decides, and the least core that refuses is named.
    (
        100,
        &[100, 3, 3],
        &[
            (CREATE, 0, CAP, 1, 1),
            (Ask::Install(1, 1, ARP), 0, OVER_BUDGET_OF_2, 1, 2),
            (Ask::Install(1, 1, ARP), 1, NO_MEMORY_ON_1, 1, 3),
            (Ask::Install(1, 1, THREE), 0, FILTER, 2, 4),
        ],
        3,
    ),
    // Where there is memory, each kind of request is agreed on by all.
    (
        4,
        &[4, 4, 4, 4, 4, 4, 4],
        &[
            (CREATE, 0, CAP, 1, 1),
            (
                Ask::Mint(1, 1, 2, Rights::R),
                0,
                Decision::Committed {
                    version: 2,
                    made: Made::Cap(2),
                },
                2,
                2,
            ),
            (
                Ask::Install(1, 1, THREE),
                0,
                Decision::Committed {
                    version: 3,
                    made: Made::Filter(1),
                },
                3,
                3,
            ),
            (
                Ask::Replace(1, 1, ARP),
                0,
                Decision::Committed {
                    version: 4,
                    made: Made::Nothing,
                },
                4,
                4,
            ),
            (
                Ask::Revoke(1, 1),
                0,
                Decision::Committed {
                    version: 5,
                    made: Made::Nothing,
                },
                5,
                5,
            ),
            (
                Ask::Remove(1, 1),
                0,
                Decision::Committed {
                    version: 6,
                    made: Made::Nothing,
                },
                6,
                6,
            ),
            (
                Ask::DropCap(1, 1),
                0,
                Decision::Committed {
                    version: 7,
                    made: Made::Nothing,
                },
                7,
                7,
            ),
        ],
        0,
    ),
    // What one core has no room for is refused to all.
    (
        100,
        &[3],
        &[
            (CREATE, 0, CAP, 1, 1),
            (Ask::Install(1, 1, ARP), 0, OVER_BUDGET_OF_1, 1, 2),
            (Ask::Install(1, 1, THREE), 0, FILTER, 2, 3),
        ],
        3,
    ),
    // A core that is short of memory refuses the first operation of all.
    (9, &[9], &[(CREATE, 1, NO_MEMORY_ON_1, 0, 1)], 0),
];

fn agree(rt: &impl Abort, alloc: Global, core0: &mut Core0, peers: &mut [Peer], rows: &[Row]) {
    for (number, (ask, short, wanted, version, last)) in rows.iter().enumerate() {
        let decided = decides(rt, alloc, core0, peers, *ask, *short);
        equal_at(rt, decided, Some(*wanted), &number);
        let found = (core0.table.version(), core0.core.last());
        equal_at(rt, found, (*version, *last), &number);
    }
}

fn all_agree(rt: &impl Abort, alloc: Global, (budget, budgets, rows, instructions): Run) {
    let mut peers = peers(rt, alloc, budgets);
    let others = budgets.len().min(7) as u16;
    let mut core0 = Core0::new(rt, alloc, budget, others + 1, 0);
    agree(rt, alloc, &mut core0, &mut peers, rows);
    are_at(rt, &peers, core0.table.version(), instructions);
    drop((core0, peers));
}

#[test]
fn rounds_of_requests(rt: HostRuntime) {
    for run in &RUNS {
        all_agree(&rt, rt.alloc(), *run);
    }
}

/// The endpoint, and what it keeps of the packet; there is one at most.
fn delivered(rt: &impl Abort, alloc: Global, table: &Replica) -> Option<Kept> {
    let kept = table
        .accepting(alloc, &REQUEST, 14)
        .expect(rt, "there is memory");
    holds(rt, kept.len() < 2);
    kept.first().copied()
}

const WHOLE: Kept = Kept {
    endpoint: 7,
    kept: 14,
};

/// One core commits after the other, and each delivers by its own version.
#[test]
fn two_phases(rt: HostRuntime) {
    let mut core0 = Core0::new(&rt, rt.alloc(), 100, 2, 0);
    let mut peers = peers(&rt, rt.alloc(), &[100]);
    in_two_phases(&rt, rt.alloc(), &mut core0, &mut peers);
    drop((core0, peers));
}

fn in_two_phases(rt: &impl Abort, alloc: Global, core0: &mut Core0, peers: &mut [Peer]) {
    agree(rt, alloc, core0, peers, &[(CREATE, 0, CAP, 1, 1)]);
    let install = Ask::Install(1, 1, ARP);
    let begun = core0
        .starts(rt, alloc, install)
        .expect(rt, "core 0 is idle");
    let decided = votes(rt, alloc, core0, peers, begun, install, 0);
    equal(rt, decided.decided, Some(FILTER));
    equal(rt, delivered(rt, alloc, &core0.table), Some(WHOLE));
    deliver(rt, alloc, peers, None);
    equal(rt, ends(rt, alloc, core0, peers, decided), None);
    deliver(rt, alloc, peers, Some(WHOLE));
}

/// All other cores deliver the packet so.
fn deliver(rt: &impl Abort, alloc: Global, peers: &[Peer], wanted: Option<Kept>) {
    for peer in peers {
        equal(rt, delivered(rt, alloc, &peer.table), wanted);
    }
}

/// Sends the creation that core 1 asks for to core 0, which keeps it as waiting.
fn submits(rt: &impl Abort, alloc: Global, core0: &mut Core0, peer: &mut Peer) {
    let sent = peer.submits(asked(rt, alloc, CREATE));
    let op = sent.expect(rt, "core 1 asks for nothing else");
    holds(rt, core0.core.submit(1, op).is_ok());
    holds(rt, peer.core.outstanding());
    holds(rt, peer.refuses(asked(rt, alloc, CREATE)));
}

const BEGUN: Step = Step {
    txn: 1,
    say: Some(Say::Prepare),
    decided: None,
    reply: None,
};

const DECIDED: Step = Step {
    txn: 1,
    say: Some(Say::Commit),
    decided: Some(CAP),
    reply: None,
};

const ENDED: Step = Step {
    txn: 1,
    say: None,
    decided: None,
    reply: Some((1, CAP)),
};

/// Requests of another core: one is committed after all have voted, the next is refused at once, and each gets its Reply.
#[test]
fn requests_of_another_core(rt: HostRuntime) {
    let mut core0 = Core0::new(&rt, rt.alloc(), 9, 2, 0);
    let mut peer = Peer::new(&rt, rt.alloc(), 9);
    are_answered(&rt, rt.alloc(), &mut core0, &mut peer);
    drop((core0, peer));
}

fn are_answered(rt: &impl Abort, alloc: Global, core0: &mut Core0, peer: &mut Peer) {
    equal(rt, core0.starts_for(alloc, 1), Err(StartFault::NoneWaiting));
    submits(rt, alloc, core0, peer);
    is_committed_for(rt, alloc, core0, peer);
    submits(rt, alloc, core0, peer);
    let refused = core0.starts_for(alloc, 1).expect(rt, "core 0 is idle");
    equal(rt, refused.reply, Some((1, TAKEN)));
    is_replied(rt, peer, &TAKEN);
}

fn is_committed_for(rt: &impl Abort, alloc: Global, core0: &mut Core0, peer: &mut Peer) {
    equal(rt, core0.starts_for(alloc, 1), Ok(BEGUN));
    let vote = peer.votes(rt, alloc, 1, CREATE, false);
    equal(rt, core0.hears(1, 1, vote), Some(DECIDED));
    let ended = peer.answers(rt, alloc, Sent::Commit(1), false);
    equal(rt, ended, ("ack", 1, Vote::Yes));
    equal(rt, core0.hears_end(1, 1), Some(ENDED));
    is_replied(rt, peer, &CAP);
}

fn is_replied(rt: &impl Abort, peer: &mut Peer, decision: &Decision) {
    holds(rt, peer.core.reply(decision).is_ok());
    holds(rt, !peer.core.outstanding());
}

/// What is decided, once more where memory was refused to one core: then nothing has changed.
fn decides_again(
    rt: &impl Abort,
    alloc: Global,
    core0: &mut Core0,
    peers: &mut [Peer],
    ask: Ask,
) -> Option<Decision> {
    let version = core0.table.version();
    let decided = decides(rt, alloc, core0, peers, ask, 0);
    if let Some(
        Decision::Refused {
            why: Veto::NoMemory,
            ..
        },
    ) = decided
    {
        equal(rt, core0.table.version(), version);
        return decides(rt, alloc, core0, peers, ask, 0);
    }
    decided
}

/// A growth that is refused inside a core's stage is its vote or decision NoMemory, and the request again is committed.
#[test]
fn refused_growths_are_vetoes(rt: HostRuntime) {
    let alloc = rt.alloc();
    let mut core0 = Core0::new(&rt, alloc, 9, 3, 0);
    let mut peers = peers(&rt, alloc, &[9, 9]);
    let made = decides_again(&rt, alloc, &mut core0, &mut peers, CREATE);
    equal(&rt, made, Some(CAP));
    let made = decides_again(
        &rt,
        alloc,
        &mut core0,
        &mut peers,
        Ask::Install(1, 1, THREE),
    );
    equal(&rt, made, Some(FILTER));
    are_at(&rt, &peers, 2, 3);
    drop((core0, peers));
}
