ghost use Rattle.rx_queue.specs.Queue.{AreEnds, SameIntake, SamePort};

use crate::facts::{equal, holds};
use pcap_reader::SharedPacket;
use rx_queue::{Intake, Job, Port, queue};
use seq::Shared;
use std::alloc::Global;
use std::process::Abort;
use std::sync::Wait;
use std::thread;

/// A job with this number, whose packet has no byte.
fn job(rt: &impl Abort, alloc: Global, number: u64) -> Job {
    let bytes = Shared::from_vec(alloc, Vec::new(alloc)).expect(rt, "there is memory");
    Job {
        number,
        packet: SharedPacket::new(bytes, 60),
        floor: 0,
    }
}

fn number(job: Option<&Job>) -> Option<u64> {
    Some(job?.number)
}

/// Whether the port takes the job of this number.
fn puts(rt: &impl Abort, alloc: Global, port: &mut Port, number: u64) -> bool
    ensures { SamePort port.old port.new }
{
    port.put(job(rt, alloc, number)).is_ok()
}

/// The port hands this job back.
fn hands_back(rt: &impl Abort, port: &mut Port, refused: Job, wanted: Job)
    ensures { SamePort port.old port.new }
{
    match port.put(refused) {
        Ok(()) => rt.abort(),
        Err(full) => equal(rt, full.0, wanted),
    }
}

/// The job of this number is left, and is taken.
fn is_left(rt: &impl Abort, alloc: Global, port: &mut Port, intake: &mut Intake, number: u64)
    requires { AreEnds port.old intake.old }
    ensures { AreEnds port.new intake.new }
{
    equal(rt, intake.rest(port), Some(job(rt, alloc, number)));
}

/// The first job is taken at once; the second finds the queue full.
fn first_of_two(rt: &impl Abort, alloc: Global, port: &mut Port, intake: &mut Intake)
    ensures { SamePort port.old port.new × SameIntake intake.old intake.new }
{
    holds(rt, intake.front().is_none());
    holds(rt, puts(rt, alloc, port, 1));
    hands_back(rt, port, job(rt, alloc, 2), job(rt, alloc, 2));
    equal(rt, number(intake.front()), Some(1));
    equal(rt, intake.next(), Some(job(rt, alloc, 1)));
    equal(rt, intake.next(), None);
}

/// A third job is seen as soon as it is looked for.
fn third(rt: &impl Abort, alloc: Global, port: &mut Port, intake: &mut Intake)
    ensures { SamePort port.old port.new × SameIntake intake.old intake.new }
{
    intake.look();
    holds(rt, intake.seen().is_none());
    holds(rt, puts(rt, alloc, port, 3));
    holds(rt, intake.seen().is_none());
    intake.look();
    equal(rt, number(intake.seen()), Some(3));
}

#[test]
fn a_queue_of_one(rt: HostRuntime) {
    let alloc = rt.alloc();
    let (mut port, mut intake) = queue(alloc, 1).expect(&rt, "there is memory");
    first_of_two(&rt, alloc, &mut port, &mut intake);
    third(&rt, alloc, &mut port, &mut intake);
    is_left(&rt, alloc, &mut port, &mut intake, 3);
    equal(&rt, intake.rest(&mut port), None);
}

/// Puts jobs with the numbers from 0 on, and waits where the queue is full.
fn put_all<R: Wait + Abort>(rt: &R, alloc: Global, port: Port, count: u64) -> Port
    ensures { SamePort port result }
{
    let mut port = port;
    let mut number = 0;
    for _ in rt.forever() {
        if number >= count {
            return port;
        }
        if puts(rt, alloc, &mut port, number) {
            number += 1;
        } else {
            thread::yield_now();
        }
    }
    unreachable!()
}

/// The number of the next job, which is taken.
fn next_number(intake: &mut Intake) -> Option<u64>
    ensures { SameIntake intake.old intake.new }
{
    number(intake.next().as_ref())
}

/// Takes jobs with the numbers from 0 on, and says how many came in this order.
fn take_all(rt: &impl Wait, intake: Intake, count: u64) -> (Intake, u64)
    ensures { SameIntake intake result.0 }
{
    let mut intake = intake;
    let mut number = 0;
    for _ in rt.forever() {
        if number >= count {
            return (intake, number);
        }
        match next_number(&mut intake) {
            Some(next) if next == number => number += 1,
            Some(_) => return (intake, number),
            None => thread::yield_now(),
        }
    }
    unreachable!()
}

#[test]
fn jobs_go_from_thread_to_thread(rt: HostRuntime) {
    let alloc = rt.alloc();
    let (port, intake) = queue(alloc, 16).expect(&rt, "there is memory");
    let (mut port, (mut intake, taken)) = thread::join(
        &rt,
        || -> Port
            ensures { SamePort port result }
        { put_all(&rt, alloc, port, 1_000) },
        || -> (Intake, u64)
            ensures { SameIntake intake result.0 }
        { take_all(&rt, intake, 997) },
    );
    equal(&rt, taken, 997);
    for number in 997..1_000 {
        is_left(&rt, alloc, &mut port, &mut intake, number);
    }
    equal(&rt, intake.rest(&mut port), None);
}
