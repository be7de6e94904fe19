//! What a core says of itself, and its end.

ghost use Rattle.std.specs.Prelude.{◌≡◌, None, Some};
ghost use Rattle.core_loop.specs.Answering.{IsGivenCount};
ghost use Rattle.core_loop.specs.Receiving.{version_now};
ghost use Rattle.core_machine.specs.Machines.{RingCore};
ghost use Rattle.mkdemux_cores.specs.Asking.{AreUnanswered};

use crate::handle::CoreHandle;
use std::alloc::Global;

/// The core's version of the table; 0 for a closed core.
#[unsafe(no_mangle)]
pub extern "C" fn mkdemux_version(alloc: Global, core: &mut CoreHandle) -> u64
    ensures version { (c : RingCore) → core.old.core ≡ Some c → result ≡ version_now c }
    ensures closed { core.old.core ≡ None → result ≡ 0 }
    ensures same { core.new.core ≡ core.old.core }
{
    let Some(open) = core.take(alloc) else {
        return 0;
    };
    let version = open.version();
    core.put(open);
    version
}

/// How many requests of the core have no decision yet; 0 for a closed core.
#[unsafe(no_mangle)]
pub extern "C" fn mkdemux_unanswered(alloc: Global, core: &mut CoreHandle) -> u64
    ensures unanswered { (c : RingCore) → core.old.core ≡ Some c → AreUnanswered result c }
    ensures closed { core.old.core ≡ None → result ≡ 0 }
    ensures same { core.new.core ≡ core.old.core }
{
    let Some(open) = core.take(alloc) else {
        return 0;
    };
    open.are_decided();
    let count = (open.pending() as u64).saturating_add(open.under_way());
    core.put(open);
    count
}

/// How many requests the core was asked in all; 0 for a closed core. No count is above 2^64 - 1.
#[unsafe(no_mangle)]
pub extern "C" fn mkdemux_asked(alloc: Global, core: &mut CoreHandle) -> u64
    ensures asked { (c : RingCore) → core.old.core ≡ Some c → IsGivenCount result c.history c.pending }
    ensures closed { core.old.core ≡ None → result ≡ 0 }
    ensures same { core.new.core ≡ core.old.core }
{
    let Some(open) = core.take(alloc) else {
        return 0;
    };
    let count = open.given();
    core.put(open);
    count
}

/// Closes a core, which gives its memory back. A closed core stays closed.
#[unsafe(no_mangle)]
pub extern "C" fn mkdemux_close_core(alloc: Global, core: &mut CoreHandle)
    ensures { core.new.core ≡ None }
{
    drop(core.take(alloc));
}
