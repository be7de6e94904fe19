//! What goes into the list of a source or of a sink, which only proofs read.

ghost use Rattle.std.specs.Prelude.{◌≡◌, ◌++◌, ℕ, List};

use ghost_log::Log;

/// The list with more bytes at its end, which a proof names by these. It does nothing at run time.
pub(crate) fn remembered(list: &Log<u8>, _bytes: &[u8]) -> Log<u8>
    ghost more: { List ℕ }
    ensures { result.items ≡ list.now.items ++ more }
{
    list.with_all()
}
