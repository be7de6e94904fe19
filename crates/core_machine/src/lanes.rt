//! Items with the numbers of their cores, as a lane for each core.

ghost use Rattle.std.specs.Prelude.{◌<◌, ◌≡◌, [], All, length, IfOk};
ghost use Rattle.core_machine.specs.Lanes.{AreLanes};

use std::alloc::{AllocError, Global};
use std::collections::VecDeque;

/// The items of each of so many cores, in order. The one error is that there is no memory.
// Not in line: what it needs of the stack is free again before the cores are made.
#[inline(never)]
pub fn by_core<T: Drop>(
    alloc: Global,
    cores: usize,
    items: Vec<(u16, T)>,
) -> Result<Vec<VecDeque<T>>, AllocError>
    requires { All (λ i. i.0 < cores) items.items }
    ensures count { IfOk result (λ lanes. length lanes.items ≡ cores) }
    ensures lanes { IfOk result (λ lanes. AreLanes items.items lanes.items) }
{
    let mut lanes = empty_lanes(alloc, cores)?;
    for (core, item) in items {
        lanes[usize::from(core)].push_back(item)?;
    }
    Ok(lanes)
}

/// A lane for each core, with nothing in it.
fn empty_lanes<T: Drop>(alloc: Global, cores: usize) -> Result<Vec<VecDeque<T>>, AllocError>
    ensures count { IfOk result (λ lanes. length lanes.items ≡ cores) }
    ensures empty { IfOk result (λ lanes. All (λ lane. lane.items ≡ []) lanes.items) }
{
    let mut lanes = Vec::with_capacity(alloc, cores)?;
    for _ in 0..cores {
        lanes.push(VecDeque::new(alloc))?;
    }
    Ok(lanes)
}
