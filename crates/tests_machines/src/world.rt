//! The worked runs, event by event, over each kind of channel. An event that is refused memory is done once more, so that each run is
//! tried with each growth refused in turn (`bench/memory.sh`).

mod copies;
mod pieces;
mod refused_growths;
mod sights;
mod steps;

use self::steps::{Asked, Run, Step, runs};
use crate::facts::equal;
use endpoint_caps::Rights;
use monitor_messages::{Decision, Veto, Vote};
use std::alloc::Global;
use table_replica::{Limits, Made, OpFault};
use test_words::{
    ALL, ARP, Ask, CAP, EventWords, FILTER, NO_FILTER, NO_MEMORY_ON_1, OVER_BUDGET_OF_1, REQUEST,
    TAKEN, THREE,
};
use world_core::{BootFault, Lines, Messages, World, WorldFault};

/// Why there is no machine with these budgets, if there is none.
fn fault_of(alloc: Global, budgets: &[u32]) -> Option<BootFault> {
    World::boot(alloc, budgets).err()
}

#[test]
fn machines_have_one_to_eight_cores(rt: HostRuntime) {
    equal(&rt, fault_of(rt.alloc(), &[]), Some(BootFault::CoreCount));
    equal(
        &rt,
        fault_of(rt.alloc(), &[9; 9]),
        Some(BootFault::CoreCount),
    );
    equal(&rt, fault_of(rt.alloc(), &[9; 8]), None);
}

/// Why there is no machine with the default limits and these budgets, where they are given.
fn fault_with_limits(alloc: Global, budgets: &[u32]) -> Option<BootFault> {
    World::boot_with_limits(alloc, Limits::DEFAULT, budgets).err()
}

#[test]
fn machines_with_limits_have_one_to_64_cores(rt: HostRuntime) {
    let alloc = rt.alloc();
    let none = Some(BootFault::CoreCount);
    equal(&rt, fault_with_limits(alloc, &[]), none);
    equal(&rt, fault_with_limits(alloc, &[9; 65]), none);
    equal(&rt, fault_with_limits(alloc, &[9; 64]), None);
}

const OTHER_CAP: Decision = Decision::Committed {
    version: 2,
    made: Made::Cap(2),
};

const FILTER_AT_3: Decision = Decision::Committed {
    version: 3,
    made: Made::Filter(1),
};

const OTHER_FILTER: Decision = Decision::Committed {
    version: 3,
    made: Made::Filter(2),
};

const NOTHING_AT_4: Decision = Decision::Committed {
    version: 4,
    made: Made::Nothing,
};

const NOTHING_AT_5: Decision = Decision::Committed {
    version: 5,
    made: Made::Nothing,
};

const NOTHING_AT_6: Decision = Decision::Committed {
    version: 6,
    made: Made::Nothing,
};

const NO_CAP: Decision = Decision::Refused {
    core: 0,
    why: Veto::Rule(OpFault::NoCap),
};

const NOT_OWNER: Decision = Decision::Refused {
    core: 0,
    why: Veto::Rule(OpFault::NotOwner),
};

const OVER_BUDGET_OF_0: Decision = Decision::Refused {
    core: 0,
    why: Veto::Budget,
};

const NO_MEMORY_ON_2: Decision = Decision::Refused {
    core: 2,
    why: Veto::NoMemory,
};

const NO_CORE: WorldFault = WorldFault::NoSuchCore;

const NOT_IDLE: WorldFault = WorldFault::NotIdle;

const CREATE: Asked = Asked::Start(Ask::Create(1, 7));

const INSTALL_ALL: Asked = Asked::Start(Ask::Install(1, 1, ALL));

const REPLACE_BY_THREE: Asked = Asked::Start(Ask::Replace(1, 1, THREE));

/// Core 1 agrees to the first capability.
const CAP_IS_AGREED_ON: Step = Step::Settles(&[
    (1, 0, EventWords::TookPrepare(1, Vote::Yes)),
    (0, 1, EventWords::TookVote(1, Vote::Yes, Some(CAP))),
    (1, 0, EventWords::TookCommit(1, 1)),
    (0, 1, EventWords::TookAck(1)),
]);

const GREATEST_VERDICT: Run = (
    &[10],
    &[
        Step::Does(CREATE, EventWords::Decided(CAP)),
        Step::Does(
            Asked::Start(Ask::Install(1, 1, "1,6 0 0 10")),
            EventWords::Decided(FILTER),
        ),
        Step::Does(
            Asked::Start(Ask::Install(1, 1, "1,6 0 0 60")),
            EventWords::Decided(OTHER_FILTER),
        ),
        Step::Does(
            Asked::Rx(0, &[0; 64], 0),
            EventWords::Delivered(3, 1, 7, 60),
        ),
    ],
);

/// Core 0 commits the filter by core 1's vote on number 2, and receives by it before core 1 does.
const TWO_PHASES: Run = (
    &[100, 100],
    &[
        Step::Does(CREATE, EventWords::Prepared(1)),
        CAP_IS_AGREED_ON,
        Step::Does(
            Asked::Start(Ask::Install(1, 1, ARP)),
            EventWords::Prepared(2),
        ),
        Step::Shows(0, 1, 1, 0, 0),
        Step::Does(Asked::Take(1, 0), EventWords::TookPrepare(2, Vote::Yes)),
        Step::Does(
            Asked::Take(0, 1),
            EventWords::TookVote(2, Vote::Yes, Some(FILTER)),
        ),
        Step::Does(Asked::Rx(1, &REQUEST, 0), EventWords::Delivered(1, 0, 0, 0)),
        Step::Does(
            Asked::Rx(0, &REQUEST, 0),
            EventWords::Delivered(2, 1, 7, 14),
        ),
        Step::Does(Asked::Take(1, 0), EventWords::TookCommit(2, 2)),
        Step::Does(
            Asked::Rx(1, &REQUEST, 0),
            EventWords::Delivered(2, 1, 7, 14),
        ),
        Step::Fails(Asked::Rx(1, &REQUEST, 3), WorldFault::NotReady),
    ],
);

const BUDGET_VETO: Run = (
    &[100, 3],
    &[
        Step::Does(CREATE, EventWords::Prepared(1)),
        CAP_IS_AGREED_ON,
        Step::Does(
            Asked::Start(Ask::Install(1, 1, ARP)),
            EventWords::Prepared(2),
        ),
        Step::Settles(&[
            (1, 0, EventWords::TookPrepare(2, Vote::Budget)),
            (
                0,
                1,
                EventWords::TookVote(2, Vote::Budget, Some(OVER_BUDGET_OF_1)),
            ),
            (1, 0, EventWords::TookAbort(2, 1)),
            (0, 1, EventWords::TookAck(2)),
        ]),
        Step::Does(
            Asked::Start(Ask::Install(1, 1, THREE)),
            EventWords::Prepared(3),
        ),
        Step::Settles(&[
            (1, 0, EventWords::TookPrepare(3, Vote::Yes)),
            (0, 1, EventWords::TookVote(3, Vote::Yes, Some(FILTER))),
            (1, 0, EventWords::TookCommit(3, 2)),
            (0, 1, EventWords::TookAck(3)),
        ]),
    ],
);

/// A revoked capability gets nothing.
const REVOKED: Run = (
    &[100],
    &[
        Step::Does(CREATE, EventWords::Decided(CAP)),
        Step::Does(
            Asked::Start(Ask::Mint(1, 1, 2, Rights::R)),
            EventWords::Decided(OTHER_CAP),
        ),
        Step::Does(
            Asked::Start(Ask::Install(2, 2, ALL)),
            EventWords::Decided(FILTER_AT_3),
        ),
        Step::Does(
            Asked::Rx(0, &[1, 2, 3, 4, 5], 0),
            EventWords::Delivered(3, 1, 7, 5),
        ),
        Step::Does(
            Asked::Start(Ask::Revoke(1, 1)),
            EventWords::Decided(NOTHING_AT_4),
        ),
        Step::Does(
            Asked::Rx(0, &[1, 2, 3, 4, 5], 0),
            EventWords::Delivered(4, 0, 0, 0),
        ),
        Step::Does(
            Asked::Start(Ask::Install(2, 2, ALL)),
            EventWords::Decided(NO_CAP),
        ),
        Step::Does(
            Asked::Start(Ask::Remove(1, 1)),
            EventWords::Decided(NOT_OWNER),
        ),
        Step::Shows(0, 4, 1, 1, 1),
        Step::Cap,
        Step::Filter(2, 2),
    ],
);

/// Core 1 is short of memory, which is a veto.
const SHORT: Run = (
    &[9, 9],
    &[
        Step::Does(CREATE, EventWords::Prepared(1)),
        Step::Does(Asked::Short(1), EventWords::TookPrepare(1, Vote::NoMemory)),
        Step::Does(
            Asked::Take(0, 1),
            EventWords::TookVote(1, Vote::NoMemory, Some(NO_MEMORY_ON_1)),
        ),
        Step::Does(Asked::Take(1, 0), EventWords::TookAbort(1, 0)),
        Step::Does(Asked::Take(0, 1), EventWords::TookAck(1)),
    ],
);

const FAULTS: Run = (
    &[9, 9],
    &[
        Step::Does(CREATE, EventWords::Prepared(1)),
        Step::Fails(Asked::Start(Ask::Create(1, 8)), NOT_IDLE),
        Step::Fails(Asked::StartFor(1), NOT_IDLE),
        Step::Fails(Asked::Take(0, 1), WorldFault::Nothing),
        Step::Fails(Asked::Take(2, 0), NO_CORE),
        Step::Fails(Asked::Take(0, 2), NO_CORE),
        Step::Fails(Asked::Take(1, 1), NO_CORE),
        Step::Fails(Asked::Take(0, 0), NO_CORE),
        Step::Fails(Asked::Submit(0, 7), NO_CORE),
        Step::Fails(Asked::Submit(2, 7), NO_CORE),
        Step::Fails(Asked::StartFor(0), NO_CORE),
        Step::Fails(Asked::StartFor(2), NO_CORE),
        Step::Fails(Asked::Rx(2, &[], 0), NO_CORE),
        Step::HasNoCore(2),
    ],
);

/// Requests enter at core 1. The second is refused as soon as it is started.
const HOME: Run = (
    &[9, 9],
    &[
        Step::Fails(Asked::StartFor(1), WorldFault::NoneWaiting),
        Step::Does(Asked::Submit(1, 7), EventWords::Submitted),
        Step::Fails(Asked::Submit(1, 7), WorldFault::Outstanding),
        Step::Waits(1, false),
        Step::Does(Asked::Take(0, 1), EventWords::TookSubmit),
        Step::WaitsToCreate(1),
        Step::Does(Asked::StartFor(1), EventWords::Prepared(1)),
        Step::Waits(1, false),
        Step::Does(Asked::Take(1, 0), EventWords::TookPrepare(1, Vote::Yes)),
        Step::Does(
            Asked::Take(0, 1),
            EventWords::TookVote(1, Vote::Yes, Some(CAP)),
        ),
        Step::Does(Asked::Take(1, 0), EventWords::TookCommit(1, 1)),
        Step::Does(Asked::Take(0, 1), EventWords::TookAck(1)),
        Step::Does(Asked::Take(1, 0), EventWords::TookReply(CAP)),
        Step::Does(Asked::Submit(1, 7), EventWords::Submitted),
        Step::Settles(&[(0, 1, EventWords::TookSubmit)]),
        Step::Does(Asked::StartFor(1), EventWords::Decided(TAKEN)),
        Step::Settles(&[(1, 0, EventWords::TookReply(TAKEN))]),
    ],
);

/// Requests wait while core 0 is busy: a Submit comes between, a veto is answered, and the least core comes first.
const BUSY: Run = (
    &[9, 9, 9],
    &[
        Step::Does(Asked::Submit(2, 7), EventWords::Submitted),
        Step::Does(Asked::Take(0, 2), EventWords::TookSubmit),
        Step::Does(Asked::StartFor(2), EventWords::Prepared(1)),
        Step::Does(Asked::Short(2), EventWords::TookPrepare(1, Vote::NoMemory)),
        Step::Does(Asked::Submit(1, 8), EventWords::Submitted),
        Step::Settles(&[
            (1, 0, EventWords::TookPrepare(1, Vote::Yes)),
            (0, 1, EventWords::TookSubmit),
            (0, 1, EventWords::TookVote(1, Vote::Yes, None)),
            (
                0,
                2,
                EventWords::TookVote(1, Vote::NoMemory, Some(NO_MEMORY_ON_2)),
            ),
            (1, 0, EventWords::TookAbort(1, 0)),
            (2, 0, EventWords::TookAbort(1, 0)),
            (0, 1, EventWords::TookAck(1)),
            (0, 2, EventWords::TookAck(1)),
            (2, 0, EventWords::TookReply(NO_MEMORY_ON_2)),
        ]),
        Step::Waits(1, true),
        Step::Shows(2, 0, 0, 0, 0),
    ],
);

/// Programs are replaced by their owner, and only while the filter's capability is held.
const REPLACED: Run = (
    &[3],
    &[
        Step::Does(CREATE, EventWords::Decided(CAP)),
        Step::Does(INSTALL_ALL, EventWords::Decided(FILTER)),
        Step::Does(INSTALL_ALL, EventWords::Decided(OTHER_FILTER)),
        Step::Does(REPLACE_BY_THREE, EventWords::Decided(OVER_BUDGET_OF_0)),
        Step::Does(
            Asked::Start(Ask::Remove(1, 2)),
            EventWords::Decided(NOTHING_AT_4),
        ),
        Step::Does(REPLACE_BY_THREE, EventWords::Decided(NOTHING_AT_5)),
        Step::Shows(0, 5, 1, 1, 3),
        Step::Does(
            Asked::Start(Ask::Replace(2, 1, ALL)),
            EventWords::Decided(NOT_OWNER),
        ),
        Step::Does(
            Asked::Start(Ask::Replace(1, 9, ALL)),
            EventWords::Decided(NO_FILTER),
        ),
        Step::Does(
            Asked::Start(Ask::DropCap(1, 1)),
            EventWords::Decided(NOTHING_AT_6),
        ),
        Step::Does(
            Asked::Start(Ask::Replace(1, 1, ALL)),
            EventWords::Decided(NO_CAP),
        ),
        Step::Shows(0, 6, 0, 1, 3),
        Step::Filter(1, 1),
    ],
);

static WORKED: [Run; 7] = [
    GREATEST_VERDICT,
    TWO_PHASES,
    BUDGET_VETO,
    SHORT,
    FAULTS,
    HOME,
    BUSY,
];

#[test]
fn worked_runs(rt: HostRuntime) {
    runs::<Messages>(&rt, rt.alloc(), &WORKED);
    runs::<Lines>(&rt, rt.alloc(), &WORKED);
}

#[test]
fn a_revoke_with_a_refused_growth(rt: HostRuntime) {
    runs::<Messages>(&rt, rt.alloc(), &[REVOKED]);
    runs::<Lines>(&rt, rt.alloc(), &[REVOKED]);
}

#[test]
fn a_replacement_with_a_refused_growth(rt: HostRuntime) {
    runs::<Messages>(&rt, rt.alloc(), &[REPLACED]);
    runs::<Lines>(&rt, rt.alloc(), &[REPLACED]);
}
