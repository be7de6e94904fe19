//! How a request is begun.

ghost use Rattle.std.specs.Prelude.{◌≡◌, IfOk};
ghost use Rattle.filter_table.specs.Tables.{HasShortProgram};
ghost use Rattle.world_model.specs.Refusals.{IsShortEvent};
ghost use Rattle.sim_engine.specs.Ways.{home_of, event_of, way_of};

use filter_table::Op;
use std::alloc::{AllocError, Global};
use world_events::Event;

/// How a request is begun: core 0 starts one of its own, or another core submits one of its own to core 0.
#[derive(Clone, Copy, PartialEq, Eq, Debug)]
pub enum Way {
    Start,
    Submit(u16),
}

impl Way {
    /// How the requests are begun that enter at a core.
    pub(crate) fn of(home: u16) -> Way
        ensures { result ≡ way_of home }
    {
        if home == 0 {
            Way::Start
        } else {
            Way::Submit(home)
        }
    }

    /// The core where the requests enter that are begun so.
    pub(crate) fn home(self) -> u16
        ensures { result ≡ home_of self }
    {
        match self {
            Way::Start => 0,
            Way::Submit(core) => core,
        }
    }

    /// The event that begins a request.
    pub(crate) fn event(self, op: &Op) -> Result<Event, AllocError>
        requires { HasShortProgram op.now }
        ensures event { IfOk result (λ event. event ≡ event_of self op.now) }
        ensures short { IfOk result IsShortEvent }
    {
        let copy = op.clone()?;
        match self {
            Way::Start => Ok(Event::Start { op: copy }),
            Way::Submit(core) => Ok(Event::Submit { core, op: copy }),
        }
    }
}
