//! The worked calls on a table of capabilities.
use crate::facts::{equal, equal_at};
use endpoint_caps::{Cap, CapFault, CapLimits, Caps, Parent, Right, Rights};
use std::alloc::Global;
use std::fmt::Debug;
use std::process::Abort;

/// A call on a table.
#[derive(Clone, Copy)]
enum Call {
    Create(u16, u16),
    Mint(u16, u32, u16, Rights),
    Revoke(u16, u32),
    DropCap(u16, u32),
    May(u32, u16, Right),
    CheckCreate(u16, u16),
    CheckMint(u16, u32, Rights),
    CheckHolder(u16, u32),
}

/// What a call answers: an id, of which there is none but for Create, Mint and CheckMint.
type Answer = Result<u32, CapFault>;

fn make(caps: &mut Caps, limits: CapLimits, call: Call) -> Answer {
    let done = match call {
        Call::Create(domain, endpoint) => return caps.create_within(limits, domain, endpoint),
        Call::Mint(domain, cap, to, rights) => {
            return caps.mint_within(limits, domain, cap, to, rights);
        }
        Call::CheckMint(domain, cap, rights) => {
            return Ok(caps.check_mint(limits, domain, cap, rights)?.id);
        }
        Call::Revoke(domain, cap) => caps.revoke(domain, cap),
        Call::DropCap(domain, cap) => caps.drop_cap(domain, cap),
        Call::May(cap, domain, right) => caps.may(cap, domain, right),
        Call::CheckCreate(domain, endpoint) => caps.check_create(limits, domain, endpoint),
        Call::CheckHolder(domain, cap) => caps.check_holder(domain, cap),
    };
    done?;
    DONE
}

const DONE: Answer = Ok(0);

/// The id, the endpoint, the holder, the rights and the parent of a capability.
type Row = (u32, u16, u16, Rights, Option<u32>);

/// Calls with their answers, and the capabilities that are held then.
type Run = (&'static [(Call, Answer)], &'static [Row]);

fn cap(row: &Row) -> Cap {
    let (id, endpoint, holder, rights, parent) = *row;
    Cap {
        id,
        endpoint,
        holder,
        rights,
        parent: Parent::new(parent),
    }
}

/// The calls answer so, one after the other, at these limits.
fn answer_within<Place: Debug>(
    rt: &impl Abort,
    caps: &mut Caps,
    limits: CapLimits,
    calls: &[(Call, Answer)],
    place: &Place,
) {
    for (number, (call, wanted)) in calls.iter().enumerate() {
        equal_at(rt, make(caps, limits, *call), *wanted, &(number, place));
    }
}

/// And at the default.
fn answer<Place: Debug>(rt: &impl Abort, caps: &mut Caps, calls: &[(Call, Answer)], place: &Place) {
    answer_within(rt, caps, CapLimits::DEFAULT, calls, place);
}

/// These capabilities are held.
fn holds_rows(rt: &impl Abort, caps: &Caps, rows: &[Row]) {
    equal_at(rt, caps.len(), rows.len(), &rows);
    for (entry, row) in caps.list().zip(rows.iter()) {
        equal_at(rt, entry.1, cap(row), row);
        equal_at(rt, caps.get(row.0).copied(), Some(cap(row)), row);
    }
}

/// A table that is made new for each list of runs.
static TABLES: [&[Run]; 3] = [
    // Capabilities are derived and revoked.
    &[
        (
            &[
                (Call::Create(1, 7), Ok(1)),
                (Call::Create(2, 7), Err(CapFault::EndpointTaken)),
                (Call::Mint(2, 1, 3, Rights::R), Err(CapFault::NotHolder)),
                (Call::Mint(1, 9, 3, Rights::R), Err(CapFault::NoCap)),
                (Call::Mint(1, 1, 2, Rights::R), Ok(2)),
                (Call::Mint(2, 2, 3, Rights::R), Err(CapFault::NoRight)),
                (Call::Mint(1, 1, 2, Rights::M), Ok(3)),
                (Call::Mint(2, 3, 4, Rights::R), Err(CapFault::RightsExceed)),
                (Call::Mint(2, 3, 4, Rights::M), Ok(4)),
            ],
            &[
                (1, 7, 1, Rights::Rm, None),
                (2, 7, 2, Rights::R, Some(1)),
                (3, 7, 2, Rights::M, Some(1)),
                (4, 7, 4, Rights::M, Some(3)),
            ],
        ),
        (
            &[
                (Call::May(2, 2, Right::Receive), DONE),
                (Call::May(2, 1, Right::Receive), Err(CapFault::NotHolder)),
                (Call::May(3, 2, Right::Receive), Err(CapFault::NoRight)),
                (Call::Revoke(1, 1), DONE),
            ],
            &[(1, 7, 1, Rights::Rm, None)],
        ),
        (&[(Call::DropCap(1, 1), DONE)], &[]),
        (
            &[(Call::Create(2, 7), Ok(5))],
            &[(5, 7, 2, Rights::Rm, None)],
        ),
    ],
    // What is checked is what would be refused, and nothing is done.
    &[(
        &[
            (Call::CheckCreate(1, 7), DONE),
            (Call::Create(1, 7), Ok(1)),
            (Call::CheckCreate(1, 7), Err(CapFault::EndpointTaken)),
            (Call::CheckMint(1, 1, Rights::Rm), Ok(1)),
            (Call::CheckMint(2, 1, Rights::R), Err(CapFault::NotHolder)),
            (Call::CheckHolder(1, 1), DONE),
            (Call::CheckHolder(1, 2), Err(CapFault::NoCap)),
        ],
        &[(1, 7, 1, Rights::Rm, None)],
    )],
    // A branch is revoked from its middle: what stands beside it stays.
    &[(
        &[
            (Call::Create(1, 7), Ok(1)),
            (Call::Mint(1, 1, 2, Rights::Rm), Ok(2)),
            (Call::Mint(1, 1, 3, Rights::R), Ok(3)),
            (Call::Mint(2, 2, 4, Rights::Rm), Ok(4)),
            (Call::Create(5, 8), Ok(5)),
            (Call::Mint(4, 4, 2, Rights::R), Ok(6)),
            (Call::Revoke(2, 2), DONE),
        ],
        &[
            (1, 7, 1, Rights::Rm, None),
            (2, 7, 2, Rights::Rm, Some(1)),
            (3, 7, 3, Rights::R, Some(1)),
            (5, 8, 5, Rights::Rm, None),
        ],
    )],
];

/// A copy shows the same.
fn has_same_copy(rt: &impl Abort, alloc: Global, caps: &Caps) {
    let copy = caps.copy(alloc).expect(rt, "there is memory");
    equal(rt, (copy.len(), copy.next()), (caps.len(), caps.next()));
    for (one, other) in copy.list().zip(caps.list()) {
        equal(rt, one.1, other.1);
    }
}

/// What was made ready and is given up leaves the capabilities.
fn stays_once_forgotten(rt: &impl Abort, caps: &mut Caps) {
    let held = caps.len();
    let next = caps.next();
    equal(rt, caps.prepare_create(CapLimits::DEFAULT, 1, 1000), Ok(()));
    caps.forget();
    equal(rt, (caps.len(), caps.next()), (held, next));
}

/// The calls of each run answer so, and leave the capabilities that it names.
fn all_answer(rt: &impl Abort, alloc: Global, mut caps: Caps, runs: &[Run]) {
    for (calls, rows) in runs {
        answer(rt, &mut caps, calls, rows);
        holds_rows(rt, &caps, rows);
        equal(rt, caps.get(1000), None);
        has_same_copy(rt, alloc, &caps);
        stays_once_forgotten(rt, &mut caps);
    }
}

#[test]
fn derives_and_revokes(rt: HostRuntime) {
    for runs in &TABLES {
        all_answer(&rt, rt.alloc(), Caps::new(rt.alloc()), runs);
    }
}

const LAST: u32 = u32::MAX - 1;

/// The next id of a table, and calls with their answers.
static LAST_IDS: [(u32, &[(Call, Answer)]); 3] = [
    (u32::MAX, &[(Call::Create(1, 7), Err(CapFault::IdsSpent))]),
    (
        LAST,
        &[
            (Call::Create(1, 7), Ok(LAST)),
            (Call::Create(1, 8), Err(CapFault::IdsSpent)),
        ],
    ),
    (
        LAST - 1,
        &[
            (Call::Create(1, 7), Ok(LAST - 1)),
            (Call::Mint(1, LAST - 1, 2, Rights::R), Ok(LAST)),
        ],
    ),
];

#[test]
fn ids_are_spent(rt: HostRuntime) {
    for (next, calls) in &LAST_IDS {
        let mut caps = Caps::resume(rt.alloc(), *next);
        answer(&rt, &mut caps, calls, next);
    }
}

/// 1,024 capabilities are held, and no more.
static FULL: [(Call, Answer); 9] = [
    (Call::Mint(1, 1, 1, Rights::R), Ok(1024)),
    (Call::Create(1, 1024), Err(CapFault::CapsFull)),
    (Call::DropCap(1, 1024), DONE),
    (Call::Create(1, 1023), Ok(1025)),
    (Call::Create(1, 1024), Err(CapFault::CapsFull)),
    (Call::Create(1, 0), Err(CapFault::EndpointTaken)),
    (Call::Mint(1, 1, 1, Rights::R), Err(CapFault::CapsFull)),
    (Call::DropCap(1, 1), DONE),
    (Call::Create(1, 1024), Ok(1026)),
];

fn fills(rt: &impl Abort, caps: &mut Caps) {
    for endpoint in 0..1023u16 {
        equal(rt, caps.create(1, endpoint), Ok(u32::from(endpoint) + 1));
    }
    answer(rt, caps, &FULL, &"full");
}

#[test]
fn table_is_full(rt: HostRuntime) {
    let mut caps = Caps::new(rt.alloc());
    fills(&rt, &mut caps);
    has_same_copy(&rt, rt.alloc(), &caps);
}

/// Of four capabilities a domain may make two. What is minted counts for who minted it, and not for its holder; and what is full
/// for all domains is answered before the share of one.
static SHARES: [(Call, Answer); 14] = [
    (Call::Create(1, 7), Ok(1)),
    (Call::Mint(1, 1, 2, Rights::Rm), Ok(2)),
    (Call::Create(1, 8), Err(CapFault::DomainFull)),
    (Call::CheckCreate(1, 8), Err(CapFault::DomainFull)),
    (Call::Mint(1, 1, 2, Rights::R), Err(CapFault::DomainFull)),
    (Call::CheckMint(1, 1, Rights::R), Err(CapFault::DomainFull)),
    (Call::Create(1, 7), Err(CapFault::EndpointTaken)),
    (Call::Mint(2, 2, 1, Rights::R), Ok(3)),
    (Call::DropCap(1, 3), DONE),
    (Call::Create(2, 8), Ok(4)),
    (Call::Mint(2, 2, 1, Rights::R), Ok(5)),
    (Call::Create(3, 9), Err(CapFault::CapsFull)),
    (Call::Create(1, 9), Err(CapFault::CapsFull)),
    (Call::DropCap(1, 1), DONE),
];

/// What came of the capability that was dropped counts for nobody.
static SHARES_AFTER: [(Call, Answer); 3] = [
    (Call::Create(1, 7), Ok(6)),
    (Call::Create(1, 9), Ok(7)),
    (Call::Create(1, 10), Err(CapFault::DomainFull)),
];

#[test]
fn domain_has_a_share(rt: HostRuntime) {
    let limits = CapLimits::new(4, 2).expect(&rt, "they are limits");
    let mut caps = Caps::new(rt.alloc());
    answer_within(&rt, &mut caps, limits, &SHARES, &"shares");
    answer_within(&rt, &mut caps, limits, &SHARES_AFTER, &"shares");
}

#[test]
fn limits_are_bounded(rt: HostRuntime) {
    equal(&rt, CapLimits::new(0, 0), None);
    equal(&rt, CapLimits::new(4, 0), None);
    equal(&rt, CapLimits::new(4, 5), None);
    equal(&rt, CapLimits::new(65537, 1), None);
    equal(&rt, CapLimits::new(1024, 1024), Some(CapLimits::DEFAULT));
    equal(&rt, CapLimits::new(65536, 65536).is_some(), true);
}

/// A call, made once more where a growth was refused, which has changed nothing.
fn answers_again(rt: &impl Abort, caps: &mut Caps, call: Call, id: u32) {
    let held = caps.len();
    let mut found = make(caps, CapLimits::DEFAULT, call);
    if found == Err(CapFault::NoMemory) {
        equal(rt, caps.len(), held);
        found = make(caps, CapLimits::DEFAULT, call);
    }
    equal(rt, found, Ok(id));
    equal(rt, caps.next(), id.saturating_add(1));
}

fn fills_again(rt: &impl Abort, caps: &mut Caps) {
    for endpoint in 0..40u16 {
        let id = u32::from(endpoint) + 1;
        answers_again(rt, caps, Call::Create(1, endpoint), id);
    }
    answers_again(rt, caps, Call::Mint(1, 1, 2, Rights::R), 41);
}

/// A growth that is refused changes nothing, and the same call again answers as ever.
#[test]
fn refused_growth_changes_nothing(rt: HostRuntime) {
    let mut caps = Caps::new(rt.alloc());
    fills_again(&rt, &mut caps);
}

/// Two capabilities and what was minted from them, through one mint to three. Some children are younger than grandchildren.
static FAMILY: [(Call, Answer); 9] = [
    (Call::Create(1, 7), Ok(1)),
    (Call::Mint(1, 1, 1, Rights::Rm), Ok(2)),
    (Call::Create(1, 8), Ok(3)),
    (Call::Mint(1, 2, 1, Rights::Rm), Ok(4)),
    (Call::Mint(1, 4, 1, Rights::R), Ok(5)),
    (Call::Mint(1, 1, 1, Rights::Rm), Ok(6)),
    (Call::Mint(1, 3, 1, Rights::R), Ok(7)),
    (Call::Mint(1, 6, 1, Rights::R), Ok(8)),
    (Call::Mint(1, 2, 1, Rights::R), Ok(9)),
];

/// The ids that a revocation and a drop would remove.
#[test]
fn tells_what_goes(rt: HostRuntime) {
    let mut caps = Caps::new(rt.alloc());
    answer(&rt, &mut caps, &FAMILY, &"family");
    let revoked = caps
        .revoked_ids(rt.alloc(), 1)
        .expect(&rt, "there is memory");
    let dropped = caps
        .dropped_ids(rt.alloc(), 2)
        .expect(&rt, "there is memory");
    for (id, by_revoke, by_drop) in [
        (1, false, false),
        (2, true, true),
        (3, false, false),
        (4, true, true),
        (5, true, true),
        (6, true, false),
        (7, false, false),
        (8, true, false),
        (9, true, true),
    ] {
        equal_at(&rt, revoked.contains(id), by_revoke, &id);
        equal_at(&rt, dropped.contains(id), by_drop, &id);
    }
}
