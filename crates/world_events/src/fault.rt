//! Why a machine does not do an event.

ghost use Rattle.std.specs.Prelude.{◌≡◌};
ghost use Rattle.world_events.specs.declared.fault.WorldFault.TheVariants as world_fault;

use std::alloc::AllocError;
use thiserror::Error;

/// Why an event is not done. The first that holds is reported, in this order.
#[derive(Clone, Copy, PartialEq, Eq, Debug, Drop, Error)]
pub enum WorldFault {
    /// There is no such core, or no channel joins the two.
    #[error("there is no such core, or no channel joins the two")]
    NoSuchCore,
    /// The channel is empty.
    #[error("the channel is empty")]
    Nothing,
    /// The core's version is below the packet's floor.
    #[error("the core's version is below the packet's floor")]
    NotReady,
    /// Core 0 has another request under way.
    #[error("core 0 has another request under way")]
    NotIdle,
    /// Core 0's last number has been given out.
    #[error("core 0's last number has been given out")]
    Spent,
    /// The core has a request outstanding.
    #[error("the core has a request outstanding")]
    Outstanding,
    /// The core has no request waiting.
    #[error("the core has no request waiting")]
    NoneWaiting,
    /// There was no memory.
    #[error("out of memory")]
    NoMemory,
}

impl From<AllocError> for WorldFault {
    ghost from_gives = { λ _ fault. fault ≡ world_fault.NoMemory };

    fn from(_: AllocError) -> WorldFault {
        WorldFault::NoMemory
    }
}
