//! The worked calls on a replica.
use crate::asks::asked;
use crate::facts::{equal, equal_at, holds};
use bpf_insn::Insn;
use endpoint_caps::{Cap, CapLimits, Parent, Rights};
use std::alloc::{AllocError, Global};
use std::process::Abort;
use table_replica::{Kept, Limits, Made, NothingStaged, Op, OpFault, Program, Replica, StageFault};
use test_words::{ALL, Ask, THREE, program};

type Outcome = Result<Made, StageFault>;

const FIVE: &str = "1,6 0 0 5";

fn insn(code: u16, k: u32) -> Insn {
    Insn {
        code,
        jt: 0,
        jf: 0,
        k,
    }
}

/// So many instructions, the last of which is a return.
fn long(alloc: Global, count: usize) -> Result<Program, AllocError> {
    let mut code = vec![in alloc; insn(135, 0); count.saturating_sub(1)]?;
    code.push(insn(6, 5))?;
    Program::from_vec(alloc, code)
}

/// What the operation makes once it is committed, or why it is not staged; `stage` answers what `check` answered.
fn outcome(rt: &impl Abort, alloc: Global, replica: &mut Replica, op: &Op) -> Outcome {
    let checked = replica.check(op);
    equal(rt, replica.staged(), false);
    equal(rt, replica.stage(alloc, op), checked);
    equal(rt, replica.staged(), checked.is_ok());
    checked?;
    Ok(replica.commit().expect(rt, "the operation is staged"))
}

/// A filter that is listed: its id, its owner, its capability, its endpoint and how many instructions it has.
type Listed = (u32, u16, u32, u16, usize);

/// What is done with a replica or seen of it.
#[derive(Clone, Copy)]
enum Step {
    /// The operation has this outcome.
    Does(Ask, Outcome),
    /// The operation is done so many times.
    Repeats(Ask, u32),
    /// An Install under capability 1, or a Replace of filter 1, by so many instructions has this outcome.
    InstallsLong(usize, Outcome),
    ReplacesLong(usize, Outcome),
    /// So many endpoints get a capability of domain 1 each.
    Creates(u16),
    /// The operation is staged, or why it isn't; `check` answers the same.
    Stages(Ask, Result<(), StageFault>),
    Commits(Result<Made, NothingStaged>),
    Aborts(Result<(), NothingStaged>),
    /// A packet of so many bytes of 1, 1,514 before it was captured, goes to these endpoints, with so many bytes each.
    Hands(usize, &'static [(u16, u32)]),
    /// The version, and the instructions of all filters.
    Is(u64, u32),
    /// How many different programs are listed, and how many a packet is run on.
    Programs(usize, usize),
    /// The capabilities that are held: id, endpoint and holder, each with all rights and no parent.
    Caps(&'static [(u32, u16, u16)]),
    Filters(&'static [Listed]),
}

/// A packet of so many bytes of 1.
fn packet(rt: &impl Abort, alloc: Global, captured: usize) -> Vec<u8> {
    vec![in alloc; 1u8; captured].expect(rt, "there is memory")
}

/// Each endpoint keeps so many bytes.
fn are_kept(rt: &impl Abort, found: &[Kept], wanted: &[(u16, u32)]) {
    equal_at(rt, found.len(), wanted.len(), &wanted);
    for (kept, pair) in found.iter().zip(wanted.iter()) {
        equal_at(rt, (kept.endpoint, kept.kept), *pair, &wanted);
    }
}

fn hands(
    rt: &impl Abort,
    alloc: Global,
    replica: &Replica,
    captured: usize,
    wanted: &[(u16, u32)],
) {
    let packet = packet(rt, alloc, captured);
    let kept = replica
        .accepting(alloc, packet.as_slice(), 1514)
        .expect(rt, "there is memory");
    are_kept(rt, kept.as_slice(), wanted);
}

fn lists(rt: &impl Abort, replica: &Replica, wanted: &[Listed]) {
    let mut filters = replica.filters();
    for row in wanted {
        let filter = filters.next().expect(rt, "the filter is listed");
        let length = filter.program.code().len();
        let found = (filter.id, filter.owner, filter.cap, filter.endpoint, length);
        equal_at(rt, found, *row, &wanted);
    }
    holds(rt, filters.next().is_none());
}

fn holds_caps(rt: &impl Abort, replica: &Replica, wanted: &[(u32, u16, u16)]) {
    equal_at(rt, replica.caps().len(), wanted.len(), &wanted);
    for (id, endpoint, holder) in wanted {
        let cap = Cap {
            id: *id,
            endpoint: *endpoint,
            holder: *holder,
            rights: Rights::Rm,
            parent: Parent::NONE,
        };
        equal_at(rt, replica.caps().get(*id).copied(), Some(cap), &wanted);
    }
}

/// An Install under capability 1, or a Replace of filter 1, by so many instructions.
fn by_long(rt: &impl Abort, alloc: Global, is_install: bool, count: usize) -> Op {
    let (domain, cap, filter) = (1, 1, 1);
    let program = long(alloc, count).expect(rt, "there is memory");
    if is_install {
        Op::Install {
            domain,
            cap,
            program,
        }
    } else {
        Op::Replace {
            domain,
            filter,
            program,
        }
    }
}

/// The name of a run, and the number of a step.
type Place<'a> = (&'a str, usize);

fn does(
    rt: &impl Abort,
    alloc: Global,
    replica: &mut Replica,
    op: Op,
    wanted: Outcome,
    place: &Place<'_>,
) {
    equal_at(rt, outcome(rt, alloc, replica, &op), wanted, place);
}

fn stages(
    rt: &impl Abort,
    alloc: Global,
    replica: &mut Replica,
    ask: Ask,
    wanted: Result<(), StageFault>,
    place: &Place<'_>,
) {
    let op = asked(rt, alloc, ask);
    equal_at(rt, replica.check(&op), wanted, place);
    equal_at(rt, replica.stage(alloc, &op), wanted, place);
}

fn is_at(rt: &impl Abort, replica: &Replica, wanted: (u64, u32), place: &Place<'_>) {
    let found = (replica.version(), replica.total_instructions());
    equal_at(rt, found, wanted, place);
}

fn has_programs(rt: &impl Abort, replica: &Replica, wanted: (usize, usize), place: &Place<'_>) {
    let found = (replica.distinct_programs(), replica.running_programs());
    equal_at(rt, found, wanted, place);
}

fn repeats(rt: &impl Abort, alloc: Global, replica: &mut Replica, ask: Ask, times: u32) {
    let op = asked(rt, alloc, ask);
    for _ in 0..times {
        equal(rt, replica.stage(alloc, &op), Ok(()));
        holds(rt, replica.commit().is_ok());
    }
}

fn creates(rt: &impl Abort, alloc: Global, replica: &mut Replica, count: u16) {
    for endpoint in 0..count {
        let create = Op::Create {
            domain: 1,
            endpoint,
        };
        equal(rt, replica.stage(alloc, &create), Ok(()));
        equal(rt, replica.commit(), Ok(Made::Cap(u32::from(endpoint) + 1)));
    }
}

fn take_step(rt: &impl Abort, alloc: Global, replica: &mut Replica, step: Step, place: &Place<'_>) {
    match step {
        Step::Does(ask, wanted) => {
            let op = asked(rt, alloc, ask);
            does(rt, alloc, replica, op, wanted, place);
        }
        Step::InstallsLong(count, wanted) => {
            let op = by_long(rt, alloc, true, count);
            does(rt, alloc, replica, op, wanted, place);
        }
        Step::ReplacesLong(count, wanted) => {
            let op = by_long(rt, alloc, false, count);
            does(rt, alloc, replica, op, wanted, place);
        }
        Step::Repeats(ask, times) => repeats(rt, alloc, replica, ask, times),
        Step::Creates(count) => creates(rt, alloc, replica, count),
        Step::Stages(ask, wanted) => stages(rt, alloc, replica, ask, wanted, place),
        Step::Commits(wanted) => equal_at(rt, replica.commit(), wanted, place),
        Step::Aborts(wanted) => equal_at(rt, replica.abort(), wanted, place),
        Step::Hands(captured, wanted) => hands(rt, alloc, replica, captured, wanted),
        Step::Is(version, instructions) => is_at(rt, replica, (version, instructions), place),
        Step::Programs(listed, running) => has_programs(rt, replica, (listed, running), place),
        Step::Caps(wanted) => holds_caps(rt, replica, wanted),
        Step::Filters(wanted) => lists(rt, replica, wanted),
    }
}

/// What a run shows, its budget, and its steps.
type Run = (&'static str, u32, &'static [Step]);

const CREATED: Step = Step::Does(Ask::Create(1, 7), Ok(Made::Cap(1)));

const REVOKED: Run = (
    "revoked capabilities get nothing",
    100,
    &[
        CREATED,
        Step::Does(Ask::Mint(1, 1, 2, Rights::R), Ok(Made::Cap(2))),
        Step::Does(Ask::Install(2, 2, ALL), Ok(Made::Filter(1))),
        Step::Hands(5, &[(7, 5)]),
        Step::Stages(Ask::Revoke(1, 1), Ok(())),
        Step::Hands(5, &[(7, 5)]),
        Step::Commits(Ok(Made::Nothing)),
        Step::Hands(5, &[]),
        Step::Does(
            Ask::Install(2, 2, ALL),
            Err(StageFault::Rule(OpFault::NoCap)),
        ),
        Step::Does(Ask::Remove(1, 1), Err(StageFault::Rule(OpFault::NotOwner))),
        Step::Is(4, 1),
        Step::Caps(&[(1, 7, 1)]),
        Step::Filters(&[(1, 2, 2, 7, 1)]),
    ],
);

const REPLACED: Run = (
    "replaces in place",
    3,
    &[
        CREATED,
        Step::Does(Ask::Install(1, 1, ALL), Ok(Made::Filter(1))),
        Step::Does(Ask::Install(1, 1, ALL), Ok(Made::Filter(2))),
        Step::Does(Ask::Replace(1, 1, THREE), Err(StageFault::Budget)),
        Step::Does(Ask::Remove(1, 2), Ok(Made::Nothing)),
        Step::Does(Ask::Replace(1, 1, THREE), Ok(Made::Nothing)),
        Step::Does(
            Ask::Replace(2, 1, ALL),
            Err(StageFault::Rule(OpFault::NotOwner)),
        ),
        Step::Does(
            Ask::Replace(1, 9, ALL),
            Err(StageFault::Rule(OpFault::NoFilter)),
        ),
        Step::Does(Ask::DropCap(1, 1), Ok(Made::Nothing)),
        Step::Does(
            Ask::Replace(1, 1, ALL),
            Err(StageFault::Rule(OpFault::NoCap)),
        ),
        Step::Is(6, 3),
        Step::Caps(&[]),
        Step::Filters(&[(1, 1, 1, 7, 3)]),
    ],
);

const REPLACED_IN_ORDER: Run = (
    "replaces in order",
    9,
    &[
        CREATED,
        Step::Does(Ask::Create(1, 3), Ok(Made::Cap(2))),
        Step::Does(Ask::Install(1, 1, ALL), Ok(Made::Filter(1))),
        Step::Does(Ask::Install(1, 2, ALL), Ok(Made::Filter(2))),
        Step::Does(Ask::Install(1, 2, FIVE), Ok(Made::Filter(3))),
        Step::Does(Ask::Replace(1, 1, THREE), Ok(Made::Nothing)),
        Step::Filters(&[(1, 1, 1, 7, 3), (2, 1, 2, 3, 1), (3, 1, 2, 3, 1)]),
        Step::Hands(80, &[(3, 80), (7, 64)]),
        Step::Does(Ask::Remove(1, 2), Ok(Made::Nothing)),
        Step::Does(Ask::Replace(1, 1, FIVE), Ok(Made::Nothing)),
        Step::Programs(1, 1),
        Step::Hands(80, &[(3, 5), (7, 5)]),
    ],
);

const FULL: Run = (
    "limits are kept",
    1024,
    &[
        Step::Creates(1024),
        Step::Does(
            Ask::Create(1, 1024),
            Err(StageFault::Rule(OpFault::CapsFull)),
        ),
        Step::Does(
            Ask::Create(1, 0),
            Err(StageFault::Rule(OpFault::EndpointTaken)),
        ),
        Step::Repeats(Ask::Install(1, 1, FIVE), 1023),
        Step::Does(Ask::Install(1, 1, FIVE), Ok(Made::Filter(1024))),
        Step::Does(
            Ask::Install(1, 1, FIVE),
            Err(StageFault::Rule(OpFault::TableFull)),
        ),
        Step::Does(Ask::Remove(1, 1), Ok(Made::Nothing)),
        Step::Does(
            Ask::Install(1, 1, "2,0 0 0 0,0 0 0 0"),
            Err(StageFault::Budget),
        ),
        Step::Stages(Ask::Install(1, 1, FIVE), Ok(())),
        Step::Stages(Ask::Install(1, 1, FIVE), Err(StageFault::AlreadyStaged)),
        Step::Commits(Ok(Made::Filter(1025))),
        Step::Commits(Err(NothingStaged)),
        Step::Aborts(Err(NothingStaged)),
    ],
);

const KEPT_ONCE: Run = (
    "equal programs are kept once",
    9,
    &[
        CREATED,
        Step::Does(Ask::Install(1, 1, ALL), Ok(Made::Filter(1))),
        Step::Does(Ask::Install(1, 1, ALL), Ok(Made::Filter(2))),
        Step::Does(Ask::Install(1, 1, THREE), Ok(Made::Filter(3))),
        Step::Programs(2, 2),
        Step::Is(4, 5),
        Step::Does(Ask::Remove(1, 1), Ok(Made::Nothing)),
        Step::Programs(2, 2),
        Step::Is(5, 4),
        Step::Does(Ask::Remove(1, 2), Ok(Made::Nothing)),
        Step::Programs(1, 1),
        Step::Is(6, 3),
    ],
);

/// A program runs while a filter that has it has its capability held. Until the last of its filters is removed it is listed.
const RESTING: Run = (
    "programs of revoked filters rest",
    100,
    &[
        CREATED,
        Step::Does(Ask::Mint(1, 1, 2, Rights::R), Ok(Made::Cap(2))),
        Step::Does(Ask::Install(1, 1, ALL), Ok(Made::Filter(1))),
        Step::Does(Ask::Install(2, 2, FIVE), Ok(Made::Filter(2))),
        Step::Does(Ask::Install(2, 2, ALL), Ok(Made::Filter(3))),
        Step::Programs(2, 2),
        Step::Does(Ask::Revoke(1, 1), Ok(Made::Nothing)),
        Step::Programs(2, 1),
        Step::Is(6, 3),
        Step::Filters(&[(1, 1, 1, 7, 1), (2, 2, 2, 7, 1), (3, 2, 2, 7, 1)]),
        Step::Hands(64, &[(7, 64)]),
        // A program that rests runs again.
        Step::Does(Ask::Install(1, 1, FIVE), Ok(Made::Filter(4))),
        Step::Programs(2, 2),
        Step::Does(Ask::Replace(1, 1, THREE), Ok(Made::Nothing)),
        Step::Programs(3, 2),
        Step::Hands(4, &[(7, 4)]),
        Step::Does(Ask::Replace(1, 1, ALL), Ok(Made::Nothing)),
        Step::Programs(2, 2),
        Step::Does(Ask::DropCap(1, 1), Ok(Made::Nothing)),
        Step::Programs(2, 0),
        Step::Hands(64, &[]),
        Step::Does(Ask::Remove(2, 2), Ok(Made::Nothing)),
        Step::Programs(2, 0),
        Step::Does(Ask::Remove(1, 4), Ok(Made::Nothing)),
        Step::Programs(1, 0),
        Step::Is(12, 2),
        Step::Filters(&[(1, 1, 1, 7, 1), (3, 2, 2, 7, 1)]),
    ],
);

/// Each rule of the verifier is named, with the place; there is memory for each answer.
const BAD_PROGRAMS: Run = (
    "each rule is named",
    8192,
    &[
        CREATED,
        Step::Does(
            Ask::Install(1, 1, "2,148 0 0 0,6 0 0 0"),
            Err(StageFault::Rule(OpFault::BadProgram { rule: 4, pc: 0 })),
        ),
        Step::Does(
            Ask::Install(1, 1, "2,96 0 0 3,22 0 0 0"),
            Err(StageFault::Rule(OpFault::BadProgram { rule: 10, pc: 0 })),
        ),
        Step::Does(
            Ask::Install(1, 1, "0"),
            Err(StageFault::Rule(OpFault::BadProgram { rule: 1, pc: 0 })),
        ),
        Step::Does(
            Ask::Install(1, 1, "1,0 0 0 7"),
            Err(StageFault::Rule(OpFault::BadProgram { rule: 9, pc: 0 })),
        ),
        Step::InstallsLong(
            4097,
            Err(StageFault::Rule(OpFault::BadProgram { rule: 2, pc: 0 })),
        ),
        Step::Does(
            Ask::Install(1, 1, "3,0 0 0 0,255 0 0 0,6 0 0 5"),
            Err(StageFault::Rule(OpFault::BadProgram { rule: 3, pc: 1 })),
        ),
        Step::Does(
            Ask::Install(1, 1, "3,0 0 0 0,52 0 0 0,6 0 0 5"),
            Err(StageFault::Rule(OpFault::BadProgram { rule: 4, pc: 1 })),
        ),
        Step::Does(
            Ask::Install(1, 1, "3,0 0 0 0,100 0 0 32,6 0 0 5"),
            Err(StageFault::Rule(OpFault::BadProgram { rule: 5, pc: 1 })),
        ),
        Step::Does(
            Ask::Install(1, 1, "3,0 0 0 0,2 0 0 16,6 0 0 5"),
            Err(StageFault::Rule(OpFault::BadProgram { rule: 6, pc: 1 })),
        ),
        Step::Does(
            Ask::Install(1, 1, "3,0 0 0 0,21 9 0 0,6 0 0 5"),
            Err(StageFault::Rule(OpFault::BadProgram { rule: 7, pc: 1 })),
        ),
        Step::Does(
            Ask::Install(1, 1, "3,0 0 0 0,48 0 0 2147483648,6 0 0 5"),
            Err(StageFault::Rule(OpFault::BadProgram { rule: 8, pc: 1 })),
        ),
        Step::Does(
            Ask::Install(1, 1, "3,0 0 0 0,96 0 0 3,6 0 0 5"),
            Err(StageFault::Rule(OpFault::BadProgram { rule: 10, pc: 1 })),
        ),
    ],
);

/// The worked runs, each on a replica of its own.
static RUNS: [Run; 11] = [
    (
        "keeps the greatest verdict",
        10,
        &[
            CREATED,
            Step::Does(Ask::Install(1, 1, "1,6 0 0 10"), Ok(Made::Filter(1))),
            Step::Does(Ask::Install(1, 1, "1,6 0 0 60"), Ok(Made::Filter(2))),
            Step::Hands(64, &[(7, 60)]),
            Step::Hands(5, &[(7, 5)]),
            Step::Is(3, 2),
        ],
    ),
    // The length that a packet had is the verdict, and no more than what was captured is kept.
    (
        "keeps what was captured",
        10,
        &[
            CREATED,
            Step::Does(
                Ask::Install(1, 1, "2,128 0 0 0,22 0 0 0"),
                Ok(Made::Filter(1)),
            ),
            Step::Hands(60, &[(7, 60)]),
        ],
    ),
    REVOKED,
    REPLACED,
    REPLACED_IN_ORDER,
    FULL,
    KEPT_ONCE,
    RESTING,
    // What is aborted is never shown.
    (
        "aborts",
        9,
        &[
            CREATED,
            Step::Stages(Ask::Install(1, 1, FIVE), Ok(())),
            Step::Aborts(Ok(())),
            Step::Is(1, 0),
            Step::Filters(&[]),
        ],
    ),
    BAD_PROGRAMS,
    // The longest program is staged, by an Install and by a Replace.
    (
        "the longest program",
        4096,
        &[
            CREATED,
            Step::InstallsLong(4096, Ok(Made::Filter(1))),
            Step::ReplacesLong(4096, Ok(Made::Nothing)),
            Step::Hands(60, &[(7, 5)]),
        ],
    ),
];

fn take_steps(rt: &impl Abort, alloc: Global, replica: &mut Replica, name: &str, steps: &[Step]) {
    for (number, next) in steps.iter().enumerate() {
        take_step(rt, alloc, replica, *next, &(name, number));
    }
}

fn works(rt: &impl Abort, alloc: Global, (name, budget, steps): Run) {
    let mut replica = Replica::new(alloc, budget).expect(rt, "there is memory");
    take_steps(rt, alloc, &mut replica, name, steps);
    equal_at(rt, replica.budget(), budget, &name);
    drop(replica);
}

#[test]
fn worked_runs(rt: HostRuntime) {
    for run in &RUNS {
        works(&rt, rt.alloc(), *run);
    }
}

/// Of two capabilities a domain may make one, and of three filters it may own two, which may have seven instructions together.
const SHARES: &[Step] = &[
    Step::Does(Ask::Create(1, 7), Ok(Made::Cap(1))),
    Step::Does(
        Ask::Create(1, 8),
        Err(StageFault::Rule(OpFault::DomainFull)),
    ),
    Step::Does(Ask::Create(2, 8), Ok(Made::Cap(2))),
    Step::Does(Ask::Create(2, 9), Err(StageFault::Rule(OpFault::CapsFull))),
    Step::Does(Ask::Install(1, 1, THREE), Ok(Made::Filter(1))),
    Step::Does(Ask::Install(1, 1, THREE), Ok(Made::Filter(2))),
    Step::Does(
        Ask::Install(1, 1, ALL),
        Err(StageFault::Rule(OpFault::DomainFull)),
    ),
    Step::Does(
        Ask::Replace(1, 2, FIVE_LONG),
        Err(StageFault::Rule(OpFault::DomainFull)),
    ),
    Step::Does(Ask::Remove(1, 1), Ok(Made::Nothing)),
    Step::Does(
        Ask::Install(1, 1, FIVE_LONG),
        Err(StageFault::Rule(OpFault::DomainFull)),
    ),
    Step::Does(Ask::Replace(1, 2, FIVE_LONG), Ok(Made::Nothing)),
    Step::Does(Ask::Install(2, 2, FIVE_LONG), Ok(Made::Filter(3))),
    Step::Does(Ask::Install(1, 1, ALL), Ok(Made::Filter(4))),
    Step::Does(
        Ask::Install(1, 1, ALL),
        Err(StageFault::Rule(OpFault::TableFull)),
    ),
];

const FIVE_LONG: &str = "5,0 0 0 0,7 0 0 0,0 0 0 0,7 0 0 0,6 0 0 64";

#[test]
fn domain_has_a_share(rt: HostRuntime) {
    let caps = CapLimits::new(2, 1).expect(&rt, "they are limits");
    let limits = Limits::new(caps, 3, 2, 7).expect(&rt, "they are limits");
    let mut replica = Replica::with_limits(rt.alloc(), limits, 1024).expect(&rt, "there is memory");
    take_steps(&rt, rt.alloc(), &mut replica, "shares", SHARES);
    equal(&rt, replica.limits(), limits);
    drop(replica);
}

#[test]
fn limits_are_bounded(rt: HostRuntime) {
    let caps = CapLimits::DEFAULT;
    equal(&rt, Limits::new(caps, 0, 0, 9), None);
    equal(&rt, Limits::new(caps, 4, 0, 9), None);
    equal(&rt, Limits::new(caps, 4, 5, 9), None);
    equal(&rt, Limits::new(caps, 65537, 1, 9), None);
    equal(
        &rt,
        Limits::new(caps, 1024, 1024, u32::MAX),
        Some(Limits::DEFAULT),
    );
    equal(&rt, Limits::new(caps, 65536, 65536, 0).is_some(), true);
}

/// The version, the next ids of a capability and of a filter, and the steps of a replica that goes on from there.
static LAST: [(u64, u32, u32, &[Step]); 3] = [
    (
        u64::MAX,
        1,
        1,
        &[Step::Does(
            Ask::Create(1, 7),
            Err(StageFault::Rule(OpFault::VersionsSpent)),
        )],
    ),
    (
        0,
        1,
        u32::MAX,
        &[
            CREATED,
            Step::Does(
                Ask::Install(1, 1, FIVE),
                Err(StageFault::Rule(OpFault::FilterIdsSpent)),
            ),
        ],
    ),
    (
        u64::MAX - 3,
        u32::MAX - 2,
        u32::MAX - 1,
        &[
            Step::Does(Ask::Create(1, 7), Ok(Made::Cap(u32::MAX - 2))),
            Step::Does(
                Ask::Mint(1, u32::MAX - 2, 2, Rights::R),
                Ok(Made::Cap(u32::MAX - 1)),
            ),
            Step::Does(
                Ask::Install(1, u32::MAX - 2, FIVE),
                Ok(Made::Filter(u32::MAX - 1)),
            ),
            Step::Is(u64::MAX, 1),
        ],
    ),
];

/// The last ids and the last version are given out.
#[test]
fn the_last_ids(rt: HostRuntime) {
    for (version, cap, filter, steps) in &LAST {
        let mut replica = Replica::resume(rt.alloc(), 9, *version, *cap, *filter).expect(
            &rt,
            "there is memory",
        );
        take_steps(&rt, rt.alloc(), &mut replica, "the last ids", steps);
        drop(replica);
    }
}

/// A copy of an operation is the same.
#[test]
fn operations_are_copied(rt: HostRuntime) {
    let install = asked(&rt, rt.alloc(), Ask::Install(3, 4, THREE));
    let copy = install.clone().expect(&rt, "there is memory");
    installs_three(&rt, rt.alloc(), &copy);
}

/// The operation is the Install by domain 3 under capability 4 of three instructions.
fn installs_three(rt: &impl Abort, alloc: Global, op: &Op) {
    if let Op::Install {
        domain,
        cap,
        program,
    } = op
    {
        equal(rt, (*domain, *cap), (3, 4));
        are_three(rt, alloc, program.as_slice());
    } else {
        holds(rt, false);
    }
}

fn are_three(rt: &impl Abort, alloc: Global, code: &[Insn]) {
    let three = program(alloc, THREE).expect(rt, "there is memory");
    equal(rt, code, three.as_slice());
    equal(rt, code.len(), 3);
}

/// A copy of a listed program is the same.
#[test]
fn programs_are_copied(rt: HostRuntime) {
    let mut replica = Replica::new(rt.alloc(), 100).expect(&rt, "there is memory");
    take_steps(
        &rt,
        rt.alloc(),
        &mut replica,
        "copies",
        &[CREATED, INSTALLED],
    );
    is_copied(&rt, rt.alloc(), &replica);
    drop(replica);
}

const INSTALLED: Step = Step::Does(Ask::Install(1, 1, ALL), Ok(Made::Filter(1)));

fn is_copied(rt: &impl Abort, alloc: Global, replica: &Replica) {
    let filter = replica.filters().next().expect(rt, "the filter is listed");
    let copy = filter.program.clone().expect(rt, "there is memory");
    equal(rt, copy.code(), filter.program.code());
    let all = program(alloc, ALL).expect(rt, "there is memory");
    equal(rt, copy.code(), all.as_slice());
}

/// What is seen of a replica.
fn seen(replica: &Replica) -> (bool, u64, u32, usize, usize, usize) {
    (
        replica.staged(),
        replica.version(),
        replica.total_instructions(),
        replica.distinct_programs(),
        replica.running_programs(),
        replica.caps().len(),
    )
}

/// A growth that is refused in `stage` changes nothing, and the same call again answers as with ample memory.
fn commits_again(rt: &impl Abort, alloc: Global, replica: &mut Replica, op: &Op, wanted: Made) {
    equal(rt, replica.check(op), Ok(()));
    let before = seen(replica);
    if let Err(fault) = replica.stage(alloc, op) {
        equal(rt, fault, StageFault::NoMemory);
        equal(rt, seen(replica), before);
        equal(rt, replica.stage(alloc, op), Ok(()));
    }
    equal(rt, replica.commit(), Ok(wanted));
}

/// Operations, and what they make.
static OPERATIONS: [(Ask, Made); 9] = [
    (Ask::Create(1, 7), Made::Cap(1)),
    (Ask::Mint(1, 1, 2, Rights::R), Made::Cap(2)),
    (Ask::Create(1, 3), Made::Cap(3)),
    (Ask::Install(1, 1, "1,6 0 0 10"), Made::Filter(1)),
    (Ask::Install(1, 3, FIVE), Made::Filter(2)),
    (Ask::Install(2, 2, "1,6 0 0 10"), Made::Filter(3)),
    (Ask::Replace(1, 1, "1,6 0 0 6"), Made::Nothing),
    (Ask::Revoke(1, 1), Made::Nothing),
    (Ask::Remove(2, 3), Made::Nothing),
];

fn commit_again(rt: &impl Abort, alloc: Global, replica: &mut Replica) {
    for (ask, made) in &OPERATIONS {
        commits_again(rt, alloc, replica, &asked(rt, alloc, *ask), *made);
    }
}

fn accepts_again(rt: &impl Abort, alloc: Global, replica: &Replica) {
    let kept = match replica.accepting(alloc, &[0; 8], 64) {
        Ok(kept) => kept,
        Err(_) => replica
            .accepting(alloc, &[0; 8], 64)
            .expect(rt, "there is memory"),
    };
    equal(rt, kept.as_slice(), [keeps(3, 5), keeps(7, 6)].as_slice());
}

#[test]
fn refused_growths_change_nothing(rt: HostRuntime) {
    let mut replica = Replica::new(rt.alloc(), 10).expect(&rt, "there is memory");
    commit_again(&rt, rt.alloc(), &mut replica);
    accepts_again(&rt, rt.alloc(), &replica);
    drop(replica);
}

fn keeps(endpoint: u16, kept: u32) -> Kept {
    Kept { endpoint, kept }
}
