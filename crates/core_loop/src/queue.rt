//! The queue of requests that a core has not begun.

ghost use Rattle.std.specs.Prelude.{◌≡◌, ◌∷◌, [], MatchOption};

use filter_table::Op;
use std::collections::VecDeque;

// An empty queue keeps room for so many requests.
const KEPT: usize = 64;

/// Takes the first request. A queue that was long gives its memory back once it is empty, so a flood of requests leaves nothing behind.
pub(crate) fn next_request(requests: &mut VecDeque<Op>) -> Option<Op>
    ensures { MatchOption result (requests.old.items ≡ []) (λ op. requests.old.items ≡ op ∷ requests.new.items) }
{
    let op = requests.pop_front()?;
    if requests.is_empty() && requests.capacity() > KEPT {
        // Not `shrink_to`, which moves the items that stay through 4 KB of the stack.
        let alloc = *requests.allocator();
        *requests = VecDeque::new(alloc);
    }
    Some(op)
}
