//! What endpoints keep of a packet, gathered from its raises alone: each is an endpoint, and a verdict by which it gets the packet.
ghost use Rattle.std.specs.Prelude.{OnOk};
ghost use Rattle.std.specs.List.Sorted.{IsPermutation};
ghost use Rattle.installed_filters.specs.Keeping.{AreKept, IsRaised};

use crate::raising::raise_within;
use filter_table::Kept;
use std::alloc::AllocError;

/// So many raises are few: each is put where it belongs. More are sorted first, so that each comes last.
pub(crate) const FEW_RAISES: usize = 16;

/// The endpoints of the raises, in increasing order, in place of what `kept` had: each keeps as much as its greatest verdict says, and
/// at most what was captured. Of n raises it takes n log n steps, whatever the table lists. Takes memory only where `kept` is too short.
pub(crate) fn gather(
    raises: &mut Vec<Kept>,
    captured: usize,
    kept: &mut Vec<Kept>,
) -> Result<(), AllocError>
    ensures { OnOk result (AreKept (IsRaised raises.old.items) captured kept.new.items) }
{
    sort_many(raises);
    keep_each(raises, captured, kept)?;
    Ok(())
}

/// Sorts many raises by endpoint.
fn sort_many(raises: &mut Vec<Kept>)
    ensures { IsPermutation raises.old.items raises.new.items }
{
    if raises.len() > FEW_RAISES {
        raises.sort_unstable_by_key(|raise| raise.endpoint);
    }
}

/// The same in any order.
fn keep_each(raises: &[Kept], captured: usize, kept: &mut Vec<Kept>) -> Result<(), AllocError>
    ensures { OnOk result (AreKept (IsRaised raises.now) captured kept.new.items) }
{
    kept.clear();
    for raise in raises {
        let most = (raise.kept as usize).min(captured) as u32;
        raise_within(kept, raise.endpoint, most)?;
    }
    Ok(())
}
