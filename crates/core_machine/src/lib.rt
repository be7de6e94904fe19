//! The cores of one machine: as they come up, joined by rings, with nothing done; as they are asked, turned and given packets one after
//! another in one thread; turned until nothing is left to do; and what they did, while they stand still and once they are joined. No core
//! of a machine stops.
#![tactic(auto)]

mod agreement;
mod booting;
mod conclusion;
mod driving;
mod halt;
mod lanes;
mod laws;
mod looking;
mod member;
mod merging;
mod recorded;
mod settling;
mod sound;
mod step;
mod wiring;

pub use agreement::agree;
pub use booting::{boot_cores, boot_machine, boot_with_ports};
pub use conclusion::{Histories, agree_all, conclude};
pub use driving::drive;
pub use halt::Halt;
pub use lanes::by_core;
pub use laws::{cores_stay_a_machine, fair_rounds_settle, named_turns_settle};
pub use looking::look_at_machine;
pub use member::Member;
pub use merging::{in_order, merge};
pub use recorded::{Recorded, RecordedTurn};
pub use settling::{Settled, at_rest, settle};
pub use sound::{a_still_machine_is_at_rest, no_core_stops};
pub use step::{CoreStep, StepOutcome, Task};
pub use world_events::BootFault;
