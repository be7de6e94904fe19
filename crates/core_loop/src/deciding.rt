//! The decisions on a core's own requests.

ghost use Rattle.std.specs.Prelude.{◌≡◌, option_to_list};
ghost use Rattle.core_loop.specs.Answering.{own_decision};
ghost use Rattle.core_loop.specs.Owning.{asks_itself};

use crate::part::BoxedPart;
use filter_table::Decision;
use world_events::{Answer, Done, Event};

/// The decision on a request of the core's own that an event has, where this is the core's part after the event.
pub(crate) fn decision_of(part: &BoxedPart, done: &Done) -> Option<Decision>
    ensures { option_to_list result ≡ own_decision (asks_itself part.now) done.now.event done.now.answer }
{
    match (&done.event, &done.answer) {
        (_, Answer::TookReply { decision }) => Some(*decision),
        (Event::Start { .. }, Answer::Decided(decision)) => Some(*decision),
        (_, Answer::TookVote { decided, .. }) if part.asks_itself() => *decided,
        _ => None,
    }
}
