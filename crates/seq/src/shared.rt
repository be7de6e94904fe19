//! Lists that share their items.

ghost use Rattle.std.specs.Prelude.{◌≡◌, ◌+◌, ◌≤◌, length, take, drop, IfOk};
ghost use Rattle.std.specs.Arc.{arc_value};
ghost use Rattle.std.specs.Cmp.Lexicographic.{pointwise, lists_per, lists_equiv};

use std::alloc::{AllocError, Global};
use std::fmt::{self, Debug, Formatter, Write};
use std::marker::Model;
use std::sync::Arc;

/// Items in order, seen as their list: a window of a vector that has one owner for each such list. An equal list takes no memory.
pub struct Shared<T: Drop> {
    whole: Arc<Vec<T>, Global>,
    start: usize,
    count: usize,
}

// By hand, so that the proofs of its owners have one call and not a drop of each part.
impl<T: Drop> Drop for Shared<T> {
    fn drop(self) {
        let Shared {
            whole: _,
            start: _,
            count: _,
        } = self;
    }
}

impl<T: Drop> Model for Shared<T> {
    ghost use Rattle.std.specs.Prelude.{◌+◌, ◌≤◌, List, length, take, drop};
    ghost use Rattle.std.specs.Arc.{arc_value};

    ghost Value = { List T };

    ghost view = { λ shared. take shared.count (drop shared.start (arc_value shared.whole).items) };

    ghost invariant = { λ shared. shared.start + shared.count ≤ length (arc_value shared.whole).items };
}

impl<T: Drop> Shared<T> {
    /// The items of a vector. Takes memory for the count of their owners alone.
    pub fn from_vec(alloc: Global, items: Vec<T>) -> Result<Shared<T>, AllocError>
        ensures { IfOk result (λ shared. shared ≡ items.items) }
    {
        let count = items.len();
        Ok(Shared {
            whole: Arc::new(alloc, items)?,
            start: 0,
            count,
        })
    }

    /// So many of these items from a place on. Takes no memory.
    pub fn window(&self, start: usize, count: usize) -> Result<Shared<T>, AllocError>
        requires { start + count ≤ length self.now }
        ensures { IfOk result (λ window. window ≡ take count (drop start self.now)) }
    {
        Ok(Shared {
            whole: Arc::try_clone(&self.whole)?,
            start: self.start + start,
            count,
        })
    }

    /// The items as a slice.
    pub fn as_slice(&self) -> &[T]
        ensures { result.now ≡ self.now }
    {
        &self.whole.as_slice()[self.start..][..self.count]
    }
}

impl<T: Drop> Clone for Shared<T> {
    ghost is_clone = { λ shared copy. copy ≡ shared };

    fn clone(&self) -> Result<Shared<T>, AllocError> {
        self.window(0, self.count)
    }
}

impl<T: PartialEq + Drop> PartialEq for Shared<T> {
    ghost eq = { pointwise T.eq };

    ghost laws = { lists_per T.laws };

    fn eq(&self, other: &Shared<T>) -> bool {
        self.as_slice() == other.as_slice()
    }
}

impl<T: Eq + Drop> Eq for Shared<T> {
    ghost laws = { lists_equiv T.Eq.laws };
}

impl<T: Debug + Drop> Debug for Shared<T> {
    fn fmt<W: Write>(&self, f: &mut Formatter<W>) -> fmt::Result {
        self.as_slice().fmt(f)
    }
}
