//! Where the event of a turn goes. The place is handed down, so that no call on the way to the event makes room on the
//! stack for one of its own.

ghost use Rattle.std.specs.Prelude.{◌≡◌, None, Some};

use std::mem;
use world_histories::Stamped;

/// Puts an event where there is none yet. What is forgotten here holds no memory.
pub(crate) fn put(event: &mut Option<Stamped>, stamped: Stamped)
    requires { event.old ≡ None }
    ensures { event.new ≡ Some stamped }
{
    mem::forget(event.replace(stamped));
}
