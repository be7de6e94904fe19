//! Memory for one item more.

ghost use Rattle.std.specs.Prelude.{◌≡◌, ◌<◌, ℕ, [], length, OnOk};
ghost use Rattle.chunked.specs.Chunks.{lists, AreWide, HasRoom};

use crate::edits::MOST_TOGETHER;
use std::alloc::AllocError;

/// Makes room for one item more at any place. The items stay, whatever the result. A list of one chunk takes no more memory than a
/// vector would, until the chunk is full.
pub(crate) fn make_room<T: Drop>(
    chunks: &mut Vec<Vec<T>>,
    spare: &mut Vec<T>,
) -> Result<(), AllocError>
    requires { spare.old.items ≡ [] }
    ensures lists { lists chunks.new.items ≡ lists chunks.old.items }
    ensures spare { spare.new.items ≡ [] }
    ensures wide { (n : ℕ) → AreWide n chunks.old.items → AreWide n chunks.new.items }
    ensures room { OnOk result (HasRoom chunks.new spare.new) }
{
    chunks.reserve(1)?;
    if chunks.is_empty() {
        return spare.reserve(1);
    }
    if chunks.len() == 1 && chunks[0].len() < MOST_TOGETHER {
        return chunks[0].reserve(1);
    }
    spare.reserve(MOST_TOGETHER)
}
