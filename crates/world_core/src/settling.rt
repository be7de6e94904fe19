//! Takes of messages until there is none.

ghost use Rattle.std.specs.Prelude.{◌≡◌, ◌++◌, ◌+◌, ◌<◌, List, IfOk, OnOk, OnErr, length};
ghost use Rattle.two_phase.specs.Coordinators.{Idle};
ghost use Rattle.world_events.specs.declared.event.Done.{Done as GhostDone};

use crate::channel::Channel;
use crate::world::WorldOver;
use std::alloc::AllocError;
use world_events::{Done, Event, WorldFault};

impl<C: Channel> WorldOver<C> {
    ghost use Rattle.world_model.specs.Refusals.{AllQuiet, Extends, Settles};
    ghost use Rattle.world_model.specs.Settling.{NoneDown, TakenDown, TakenUp, TakenNext};

    /// Takes messages until all channels are empty: first one from core 0, the least receiver first, then one to core 0, the least
    /// sender first, looking anew after each. Each event is put into the list with its answer. Where memory is refused, the
    /// events in the list are done, and no others.
    pub fn settle(&mut self, done: &mut Vec<Done>) -> Result<(), AllocError>
        ensures run { (events : List GhostDone) × (done.new.items ≡ done.old.items ++ events) × Settles self.old events self.new }
        ensures extends { (events : List GhostDone) × (done.new.items ≡ done.old.items ++ events) × Extends self.old events self.new }
        ensures quiet { OnOk result (AllQuiet self.new) }
        ensures idle { OnOk result (self.new.place.phase ≡ Idle) }
    {
        'takes: loop {
            done.reserve(1)?;
            let Some(taken) = self.take_next()? else {
                return Ok(());
            };
            done.push_reserved(taken);
        }
    }

    /// Takes the message that comes next, if there is one.
    fn take_next(&mut self) -> Result<Option<Done>, AllocError>
        ensures taken { IfOk result (TakenNext self.old self.new) }
        ensures same { OnErr result (self.new ≡ self.old) }
    {
        let cores = self.cores();
        if let Some(taken) = self.take_from_core_0(cores)? {
            return Ok(Some(taken));
        }
        self.take_to_core_0(cores)
    }

    /// Takes the oldest message from core 0 to the least of these cores that has one.
    fn take_from_core_0(&mut self, cores: u16) -> Result<Option<Done>, AllocError>
        requires { cores ≡ length self.old.peers + 1 }
        ensures taken { IfOk result (TakenDown self.old self.new) }
        ensures same { OnErr result (self.new ≡ self.old) }
    {
        for core in 1..cores {
            match self.take_down(core, false) {
                Ok(answer) => {
                    let event = Event::Take {
                        to: core,
                        from: 0,
                        short: false,
                    };
                    return Ok(Some(Done { event, answer }));
                }
                Err(WorldFault::NoMemory) => return Err(AllocError),
                Err(_) => {}
            }
        }
        Ok(None)
    }

    /// Takes the oldest message to core 0 from the least of these cores that has one.
    fn take_to_core_0(&mut self, cores: u16) -> Result<Option<Done>, AllocError>
        requires cores { cores ≡ length self.old.peers + 1 }
        requires none_down { NoneDown self.old }
        ensures taken { IfOk result (TakenUp self.old self.new) }
        ensures same { OnErr result (self.new ≡ self.old) }
    {
        for core in 1..cores {
            match self.take_up(core) {
                Ok(answer) => {
                    let event = Event::Take {
                        to: 0,
                        from: core,
                        short: false,
                    };
                    return Ok(Some(Done { event, answer }));
                }
                Err(WorldFault::NoMemory) => return Err(AllocError),
                Err(_) => {}
            }
        }
        Ok(None)
    }
}
