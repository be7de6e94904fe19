//! What goes into a core's history, which only proofs read.

ghost use Rattle.std.specs.Prelude.{◌≡◌, ◌++◌, ◌∷◌, []};
ghost use Rattle.world_histories.specs.declared.history.Stamped.{Stamped as GhostStamped};
ghost use Rattle.core_loop.specs.InTurn.{last_begun_with};

use filter_table::Kept;
use ghost_log::Log;
use std::snapshot::Snapshot;
use world_events::Event;
use world_histories::Stamped;

/// The history with one event more.
pub(crate) fn noted(history: &Log<Stamped>, stamped: &Stamped) -> Log<Stamped>
    ensures { result.items ≡ history.now.items ++ stamped.now ∷ [] }
{
    history.and(&Snapshot::of(stamped))
}

/// The core whose request core 0 began last, once it has done this event.
pub(crate) fn last_begun_with(last: u16, event: &Event) -> u16
    ensures { result ≡ last_begun_with last event.now }
{
    match event {
        Event::Start { .. } => 0,
        Event::StartFor { core } => *core,
        _ => last,
    }
}

/// The history with one event more, which a proof names by these: the receipt of a packet that stays where it is.
pub(crate) fn noted_receipt(
    history: &Log<Stamped>,
    _core: u16,
    _stamp: u64,
    _version: u64,
    _bytes: &[u8],
    _original: u32,
    _kept: &[Kept],
) -> Log<Stamped>
    ghost item: { GhostStamped }
    ensures { result.items ≡ history.now.items ++ item ∷ [] }
{
    history.with()
}
