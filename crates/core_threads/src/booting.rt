//! How a machine comes up.

ghost use Rattle.std.specs.Prelude.{◌≡◌, ◌<◌, ◌⊎◌, ◌↔◌, All, length, Err, IfOk};
ghost use Rattle.filter_table.specs.Limits.{default_limits};
ghost use Rattle.world_events.specs.declared.boot.BootFault.TheVariants.{CoreCount};
ghost use Rattle.core_machine.specs.Booted.{AreBooted};
ghost use Rattle.core_machine.specs.Booting.{HaveRequests, AreGivable, IsMachineOf};
ghost use Rattle.core_threads.specs.Recording.{HaveNoHistories};

use crate::machine::Machine;
use core_loop::{Core, RingLinks};
use core_machine::{BootFault, Recorded, boot_with_ports};
use filter_table::{Limits, Op};
use monitor_2pc::DEFAULT_MOST_CORES;
use std::alloc::{AllocError, Global};

/// Each core with an empty list.
fn record_all(
    alloc: Global,
    cores: Vec<Core<RingLinks>>,
) -> Result<Vec<Recorded<RingLinks>>, AllocError>
    requires { HaveNoHistories cores.items }
    ensures { IfOk result (λ recorded. recorded.items ≡ cores.items) }
{
    let mut recorded = Vec::with_capacity(alloc, cores.len())?;
    for core in cores {
        recorded.push_reserved(Recorded::new(alloc, core));
    }
    Ok(recorded)
}

/// A machine with the default limits and a core for each budget, 1 to 8 of them: core 0 and each other core are joined by two
/// rings, and each core has a queue for its jobs and the requests given for it, in order. A request of a core other than 0 has a
/// program of at most 4,096 instructions.
pub fn boot(alloc: Global, budgets: &[u32], requests: Vec<(u16, Op)>) -> Result<Machine, BootFault>
    requires inside { All (λ r. r.0 < length budgets.now) requests.items }
    requires short { AreGivable requests.items }
    ensures count { result ≡ Err CoreCount ↔ ((length budgets.now ≡ 0) ⊎ (8 < length budgets.now)) }
    ensures cores { IfOk result (λ m. length m.cores ≡ length budgets.now) }
    ensures machine { IfOk result (λ m. IsMachineOf default_limits budgets.now m.cores) }
    ensures requests { IfOk result (λ m. HaveRequests requests.items m.cores) }
    ensures booted { IfOk result (λ m. AreBooted m.cores m.ports) }
{
    if budgets.len() > usize::from(DEFAULT_MOST_CORES) {
        return Err(BootFault::CoreCount);
    }
    boot_with_limits(alloc, Limits::DEFAULT, budgets, requests)
}

/// The same with these limits, and 1 to 64 cores.
pub fn boot_with_limits(
    alloc: Global,
    limits: Limits,
    budgets: &[u32],
    requests: Vec<(u16, Op)>,
) -> Result<Machine, BootFault>
    requires inside { All (λ r. r.0 < length budgets.now) requests.items }
    requires short { AreGivable requests.items }
    ensures count { result ≡ Err CoreCount ↔ ((length budgets.now ≡ 0) ⊎ (64 < length budgets.now)) }
    ensures cores { IfOk result (λ m. length m.cores ≡ length budgets.now) }
    ensures machine { IfOk result (λ m. IsMachineOf limits budgets.now m.cores) }
    ensures requests { IfOk result (λ m. HaveRequests requests.items m.cores) }
    ensures booted { IfOk result (λ m. AreBooted m.cores m.ports) }
{
    let (cores, ports) = match boot_with_ports(alloc, limits, budgets, requests) {
        Ok(booted) => booted,
        Err(fault) => return Err(fault),
    };
    match record_all(alloc, cores) {
        Ok(cores) => Ok(Machine { cores, ports }),
        Err(_) => {
            drop(ports);
            Err(BootFault::NoMemory)
        }
    }
}
