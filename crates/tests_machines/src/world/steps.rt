//! Steps of a machine in plain values. An event that is refused memory is done once more.

ghost use Rattle.world_model.specs.Refusals.{IsShortEvent};

use super::sights::{after, listed, places_of, sights};
use crate::facts::{equal, equal_at};
use endpoint_caps::{Cap, Parent, Rights};
use pcap_reader::SharedPacket;
use seq::Shared;
use std::alloc::{AllocError, Global};
use std::process::Abort;
use table_replica::Op;
use test_words::{Ask, EventWords, no_memory, op, tells};
use world_core::{Channel, Done, Event, WorldFault, WorldOver};

/// An event.
#[derive(Clone, Copy)]
pub(crate) enum Asked {
    /// Core 0 starts a request of its own.
    Start(Ask),
    /// The core submits the creation of a capability of this endpoint, by domain 1.
    Submit(u16, u16),
    StartFor(u16),
    /// The first core takes a message of the second.
    Take(u16, u16),
    /// The core takes a message of core 0, and is short of memory.
    Short(u16),
    /// The core receives a packet of these bytes, at this version or later.
    Rx(u16, &'static [u8], u64),
}

/// A take of a message: the core that takes it, the core that it is from, and what is told.
pub(crate) type Taken = (u16, u16, EventWords);

/// What is done with a machine, or seen of it.
#[derive(Clone, Copy)]
pub(crate) enum Step {
    /// The event tells this.
    Does(Asked, EventWords),
    /// The event isn't done, for this fault.
    Fails(Asked, WorldFault),
    /// Settling does these takes.
    Settles(&'static [Taken]),
    /// The core shows this version, so many capabilities and filters, and so many instructions of the filters.
    Shows(u16, u64, usize, usize, u32),
    /// Core 0 lists a first filter with id 1 for endpoint 7, of this owner and under this capability.
    Filter(u16, u32),
    /// Core 0 lists a first capability, domain 1's over endpoint 7 with all rights, minted from none.
    Cap,
    /// Whether core 0 has a request of the core waiting.
    Waits(u16, bool),
    /// The request that waits is the creation of a capability of endpoint 7 by domain 1.
    WaitsToCreate(u16),
    HasNoCore(u16),
}

/// A packet of these bytes, made once more where a growth is refused.
pub(crate) fn packet(rt: &impl Abort, alloc: Global, bytes: &[u8]) -> SharedPacket {
    let original = u32::try_from(bytes.len()).expect(rt, "the packet is short");
    let bytes = match shared(alloc, bytes) {
        Ok(bytes) => bytes,
        Err(_) => shared(alloc, bytes).expect(rt, "there is memory"),
    };
    SharedPacket::new(bytes, original)
}

fn shared(alloc: Global, bytes: &[u8]) -> Result<Shared<u8>, AllocError> {
    Shared::from_vec(alloc, bytes.to_vec(alloc)?)
}

/// The operation, made once more where a growth is refused.
pub(crate) fn operation(rt: &impl Abort, alloc: Global, ask: Ask) -> Op {
    match op(alloc, ask) {
        Ok(op) => op,
        Err(_) => op(alloc, ask).expect(rt, "there is memory"),
    }
}

pub(crate) fn event(rt: &impl Abort, alloc: Global, asked: Asked) -> Event
    ensures { IsShortEvent result }
{
    match asked {
        Asked::Start(ask) => Event::Start {
            op: operation(rt, alloc, ask),
        },
        Asked::Submit(core, endpoint) => {
            let domain = 1;
            let op = Op::Create { domain, endpoint };
            Event::Submit { core, op }
        }
        Asked::StartFor(core) => Event::StartFor { core },
        Asked::Take(to, from) => Event::Take {
            to,
            from,
            short: false,
        },
        Asked::Short(to) => Event::Take {
            to,
            from: 0,
            short: true,
        },
        Asked::Rx(core, bytes, floor) => Event::Rx {
            core,
            number: 1,
            packet: packet(rt, alloc, bytes),
            floor,
        },
    }
}

fn outcome_once<C: Channel>(
    world: &mut WorldOver<C>,
    event: &Event,
) -> Result<EventWords, WorldFault>
    requires { IsShortEvent event.now }
{
    let answer = world.apply(event)?;
    Ok(tells(&answer))
}

/// What the event tells. A growth that is refused changes nothing, and then the event is done again; so is a request of core 0's own
/// for which core 0 has no memory.
pub(crate) fn outcome<C: Channel>(
    rt: &impl Abort,
    alloc: Global,
    world: &mut WorldOver<C>,
    asked: Asked,
) -> Result<EventWords, WorldFault> {
    let event = event(rt, alloc, asked);
    let before = sights(world);
    let first = outcome_once(world, &event);
    let own = matches!(asked, Asked::Start(_)) && first == Ok(EventWords::Decided(no_memory(0)));
    if first == Err(WorldFault::NoMemory) || own {
        equal(rt, sights(world), before);
        return outcome_once(world, &event);
    }
    first
}

/// What settling does. A growth that is refused leaves just the events of the list done, and then it goes on with that list.
pub(crate) fn settled<C: Channel>(
    rt: &impl Abort,
    alloc: Global,
    world: &mut WorldOver<C>,
) -> Vec<Done> {
    let before = places_of(world);
    let mut done = Vec::new(alloc);
    if world.settle(&mut done).is_err() {
        equal(rt, places_of(world), after(before, &done));
        world.settle(&mut done).expect(rt, "there is memory");
    }
    done
}

/// The core that takes a message, the core that it is from, and what is told; of other events zeros.
fn take_of(done: &Done) -> Taken {
    let told = tells(&done.answer);
    match &done.event {
        Event::Take {
            to,
            from,
            short: false,
        } => (*to, *from, told),
        _ => (0, 0, told),
    }
}

/// The events are these takes.
pub(crate) fn are_told(rt: &impl Abort, done: &[Done], wanted: &[Taken]) {
    equal(rt, done.len(), wanted.len());
    for (done, wanted) in done.iter().zip(wanted.iter()) {
        equal(rt, take_of(done), *wanted);
    }
}

/// Settling does these events.
pub(crate) fn settles<C: Channel>(
    rt: &impl Abort,
    alloc: Global,
    world: &mut WorldOver<C>,
    wanted: &[Taken],
) {
    let done = settled(rt, alloc, world);
    are_told(rt, &done, wanted);
}

/// The core's version, how many capabilities and filters it has, and how many instructions these have.
fn shown<C: Channel>(world: &WorldOver<C>, core: u16) -> Option<(u64, usize, usize, u32)> {
    let replica = world.replica(core)?;
    Some((
        replica.version(),
        replica.caps().len(),
        listed(replica),
        replica.total_instructions(),
    ))
}

/// The id, the owner, the capability and the endpoint of core 0's first filter.
fn first_filter<C: Channel>(world: &WorldOver<C>) -> Option<(u32, u16, u32, u16)> {
    let filter = world.replica(0)?.filters().next()?;
    Some((filter.id, filter.owner, filter.cap, filter.endpoint))
}

fn first_cap<C: Channel>(world: &WorldOver<C>) -> Option<Cap> {
    let entry = world.replica(0)?.caps().list().next()?;
    Some(entry.1)
}

fn waits_to_create<C: Channel>(world: &WorldOver<C>, core: u16) -> bool {
    matches!(
        world.waiting(core),
        Some(Op::Create {
            domain: 1,
            endpoint: 7
        })
    )
}

const CAP: Cap = Cap {
    id: 1,
    endpoint: 7,
    holder: 1,
    rights: Rights::Rm,
    parent: Parent::NONE,
};

fn take_step<C: Channel>(
    rt: &impl Abort,
    alloc: Global,
    world: &mut WorldOver<C>,
    step: Step,
    row: &usize,
) {
    match step {
        Step::Does(asked, wanted) => {
            equal_at(rt, outcome(rt, alloc, world, asked), Ok(wanted), row);
        }
        Step::Fails(asked, fault) => {
            equal_at(rt, outcome(rt, alloc, world, asked), Err(fault), row);
        }
        Step::Settles(wanted) => settles(rt, alloc, world, wanted),
        Step::Shows(core, version, caps, filters, instructions) => {
            let wanted = Some((version, caps, filters, instructions));
            equal_at(rt, shown(world, core), wanted, row);
        }
        Step::Filter(owner, cap) => equal_at(
            rt,
            first_filter(world),
            Some((1, owner, cap, 7)),
            row,
        ),
        Step::Cap => equal_at(rt, first_cap(world), Some(CAP), row),
        Step::Waits(core, waits) => equal_at(rt, world.waiting(core).is_some(), waits, row),
        Step::WaitsToCreate(core) => equal_at(rt, waits_to_create(world, core), true, row),
        Step::HasNoCore(core) => {
            equal_at(rt, world.replica(core).is_none(), true, row);
            equal_at(rt, world.waiting(core).is_none(), true, row);
        }
    }
}

/// The steps, one after the other.
pub(crate) fn steps<C: Channel>(
    rt: &impl Abort,
    alloc: Global,
    world: &mut WorldOver<C>,
    steps: &[Step],
) {
    for (number, next) in steps.iter().enumerate() {
        take_step(rt, alloc, world, *next, &number);
    }
}

/// The machine with these budgets, made once more where a growth is refused.
pub(crate) fn boot<C: Channel>(rt: &impl Abort, alloc: Global, budgets: &[u32]) -> WorldOver<C> {
    if let Ok(world) = WorldOver::boot(alloc, budgets) {
        return world;
    }
    let again = WorldOver::boot(alloc, budgets).ok();
    again.expect(rt, "there is memory")
}

/// Budgets, and steps of a machine with these.
pub(crate) type Run = (&'static [u32], &'static [Step]);

/// Runs over one kind of channel, each on a machine of its own.
pub(crate) fn runs<C: Channel>(rt: &impl Abort, alloc: Global, runs: &[Run]) {
    for (budgets, wanted) in runs {
        let mut world = boot::<C>(rt, alloc, budgets);
        steps(rt, alloc, &mut world, wanted);
        drop(world);
    }
}
