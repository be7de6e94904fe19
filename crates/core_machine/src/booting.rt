//! How a machine comes up.

ghost use Rattle.std.specs.Prelude.{◌≡◌, ◌<◌, ◌≤◌, ◌⊎◌, ◌↔◌, ℕ, All, List, length, Err, IfOk, OnOk, vec_capacity};
ghost use Rattle.filter_table.specs.Limits.{TableLimits, default_limits};
ghost use Rattle.two_phase.specs.declared.most.TheConstants.{MOST_CORES};
ghost use Rattle.core_loop.specs.Cores.{AreShort};
ghost use Rattle.core_machine.specs.Machines.{IsMachine};
ghost use Rattle.world_events.specs.declared.boot.BootFault.TheVariants.{CoreCount};
ghost use Rattle.core_machine.specs.Booted.{AreBooted, HasDoneNothing};
ghost use Rattle.core_machine.specs.Booting.{ComesUpLast, AddsCore, HaveComeUp, HaveRequests, AreGivable, AreShortLanes, IsMachineOf};
ghost use Rattle.core_machine.specs.Wiring.{AreSilent};

use crate::lanes::by_core;
use crate::wiring::wire;
use core_loop::{Core, RingLinks};
use filter_table::{Limits, Op};
use monitor_2pc::{DEFAULT_MOST_CORES, MOST_CORES};
use rx_queue::{Port, queue};
use std::alloc::{AllocError, Global};
use std::collections::VecDeque;
use std::mem;
use world_events::BootFault;

/// The jobs that a core's queue holds.
const QUEUE_JOBS: usize = 16;

/// A core that has done nothing. The port of its queue is put with the others, so that a core isn't moved with one.
// In line, so that the stack has one core at a time.
#[inline(always)]
fn start_core(
    alloc: Global,
    links: RingLinks,
    limits: Limits,
    budget: u32,
    number: u16,
    cores: u16,
    requests: VecDeque<Op>,
    ports: &mut Vec<Port>,
) -> Result<Core<RingLinks>, AllocError>
    requires number { number < cores }
    requires cores { cores ≤ MOST_CORES }
    requires short { AreShort number requests.items }
    requires silent { AreSilent links }
    requires room { length ports.old.items < vec_capacity ports.old }
    ensures up { IfOk result (λ core. ComesUpLast number cores limits budget links requests.items core ports.old.items ports.new.items) }
    ensures room { vec_capacity ports.new ≡ vec_capacity ports.old }
{
    let (port, intake) = queue(alloc, QUEUE_JOBS)?;
    ports.push_reserved(port);
    Core::new(
        alloc, links, limits, budget, number, cores, requests, intake,
    )
}

/// One more core comes up. There is room for it, so that no core is dropped here: that takes much of the stack.
#[inline(always)]
fn add_core(
    alloc: Global,
    links: RingLinks,
    limits: Limits,
    budget: u32,
    count: u16,
    requests: VecDeque<Op>,
    cores: &mut Vec<Core<RingLinks>>,
    ports: &mut Vec<Port>,
) -> Result<(), AllocError>
    requires number { length cores.old.items < count }
    requires count { count ≤ MOST_CORES }
    requires short { AreShort (length cores.old.items) requests.items }
    requires silent { AreSilent links }
    requires room { length cores.old.items < vec_capacity cores.old }
    requires port_room { length ports.old.items < vec_capacity ports.old }
    ensures adds { OnOk result (AddsCore count limits budget links requests.items cores.old.items cores.new.items ports.old.items ports.new.items) }
    ensures room { vec_capacity cores.new ≡ vec_capacity cores.old }
    ensures port_room { vec_capacity ports.new ≡ vec_capacity ports.old }
{
    let number = cores.len() as u16;
    // By cases, since `?` has the core on the stack once more.
    match start_core(alloc, links, limits, budget, number, count, requests, ports) {
        Ok(core) => {
            cores.push_reserved(core);
            Ok(())
        }
        Err(error) => Err(error),
    }
}

/// The cores over these links come up, each with its budget and its requests.
#[inline(never)]
fn start_cores(
    alloc: Global,
    limits: Limits,
    budgets: &[u32],
    links: Vec<RingLinks>,
    lanes: Vec<VecDeque<Op>>,
) -> Result<(Vec<Core<RingLinks>>, Vec<Port>), AllocError>
    requires count { (length budgets.now ≤ MOST_CORES) × (length links.items ≡ length budgets.now) × (length lanes.items ≡ length budgets.now) }
    requires short { AreShortLanes lanes.items }
    requires silent { All AreSilent links.items }
    ensures { IfOk result (λ r. HaveComeUp (length budgets.now) limits budgets.now lanes.items links.items r.0.items r.1.items) }
{
    let count = budgets.len() as u16;
    let mut cores = Vec::with_capacity(alloc, budgets.len())?;
    let mut ports = Vec::with_capacity(alloc, budgets.len())?;
    let mut lanes = lanes;
    for links in links {
        let place = cores.len();
        let requests = mem::replace(&mut lanes[place], VecDeque::new(alloc));
        add_core(
            alloc,
            links,
            limits,
            budgets[place],
            count,
            requests,
            &mut cores,
            &mut ports,
        )?;
    }
    Ok((cores, ports))
}

/// The cores of a machine of so many, and the ports of their queues.
fn assemble(
    alloc: Global,
    limits: Limits,
    budgets: &[u32],
    requests: Vec<(u16, Op)>,
) -> Result<(Vec<Core<RingLinks>>, Vec<Port>), AllocError>
    requires count { (0 < length budgets.now) × (length budgets.now ≤ MOST_CORES) }
    requires inside { All (λ r. r.0 < length budgets.now) requests.items }
    requires short { AreGivable requests.items }
    ensures cores { IfOk result (λ r. length r.0.items ≡ length budgets.now) }
    ensures machine { IfOk result (λ r. IsMachineOf limits budgets.now r.0.items) }
    ensures requests { IfOk result (λ r. HaveRequests requests.items r.0.items) }
    ensures booted { IfOk result (λ r. AreBooted r.0.items r.1.items) }
{
    let lanes = by_core(alloc, budgets.len(), requests)?;
    let links = wire(alloc, budgets.len() as u16)?;
    let (cores, ports) = start_cores(alloc, limits, budgets, links, lanes)?;
    Ok((cores, ports))
}

/// The cores of a machine with these limits, one for each budget, 1 to 64 of them, and the port of each one's queue: core 0 and
/// each other core are joined by two rings, and each core has the requests given for it, in order. A request of a core other
/// than 0 has a program of at most 4,096 instructions.
pub fn boot_with_ports(
    alloc: Global,
    limits: Limits,
    budgets: &[u32],
    requests: Vec<(u16, Op)>,
) -> Result<(Vec<Core<RingLinks>>, Vec<Port>), BootFault>
    requires inside { All (λ r. r.0 < length budgets.now) requests.items }
    requires short { AreGivable requests.items }
    ensures count { result ≡ Err CoreCount ↔ ((length budgets.now ≡ 0) ⊎ (64 < length budgets.now)) }
    ensures cores { IfOk result (λ r. length r.0.items ≡ length budgets.now) }
    ensures machine { IfOk result (λ r. IsMachineOf limits budgets.now r.0.items) }
    ensures requests { IfOk result (λ r. HaveRequests requests.items r.0.items) }
    ensures booted { IfOk result (λ r. AreBooted r.0.items r.1.items) }
{
    if budgets.is_empty() || budgets.len() > usize::from(MOST_CORES) {
        return Err(BootFault::CoreCount);
    }
    match assemble(alloc, limits, budgets, requests) {
        Ok(booted) => Ok(booted),
        Err(_) => Err(BootFault::NoMemory),
    }
}

/// The cores of a machine with these limits, one for each budget, 1 to 64 of them, which have done nothing. They have no requests,
/// and their queues no jobs: who owns a core asks of it what it is to do.
pub fn boot_machine(
    alloc: Global,
    limits: Limits,
    budgets: &[u32],
) -> Result<Vec<Core<RingLinks>>, BootFault>
    ensures count { result ≡ Err CoreCount ↔ ((length budgets.now ≡ 0) ⊎ (64 < length budgets.now)) }
    ensures cores { IfOk result (λ cores. length cores.items ≡ length budgets.now) }
    ensures machine { IfOk result (λ cores. IsMachineOf limits budgets.now cores.items) }
    ensures some_machine { IfOk result (λ cores. (its : TableLimits) × (budget : ℕ) × (rest : List ℕ) × IsMachine its budget rest cores.items) }
    ensures nothing { IfOk result (λ cores. All HasDoneNothing cores.items) }
{
    match boot_with_ports(alloc, limits, budgets, Vec::new(alloc)) {
        Ok((cores, ports)) => {
            drop(ports);
            Ok(cores)
        }
        Err(fault) => Err(fault),
    }
}

/// The same with the default limits, and 1 to 8 cores.
pub fn boot_cores(alloc: Global, budgets: &[u32]) -> Result<Vec<Core<RingLinks>>, BootFault>
    ensures count { result ≡ Err CoreCount ↔ ((length budgets.now ≡ 0) ⊎ (8 < length budgets.now)) }
    ensures cores { IfOk result (λ cores. length cores.items ≡ length budgets.now) }
    ensures machine { IfOk result (λ cores. IsMachineOf default_limits budgets.now cores.items) }
    ensures some_machine { IfOk result (λ cores. (limits : TableLimits) × (budget : ℕ) × (rest : List ℕ) × IsMachine limits budget rest cores.items) }
    ensures nothing { IfOk result (λ cores. All HasDoneNothing cores.items) }
{
    if budgets.len() > usize::from(DEFAULT_MOST_CORES) {
        return Err(BootFault::CoreCount);
    }
    boot_machine(alloc, Limits::DEFAULT, budgets)
}
