//! A list that only proofs read. It has no bytes, and its calls do nothing at run time.
#![tactic(auto)]

ghost use Rattle.std.specs.Prelude.{◌≡◌, List, [], ◌∷◌, ◌++◌};
ghost use Rattle.std.specs.Borrow.{ftrue};

use std::marker::{Model, PhantomData};
use std::snapshot::Snapshot;

/// A list of items that only clauses name, as `items`.
#[derive(Drop)]
pub struct Log<T> {
    of: PhantomData<T>,
    pub ghost items: { List T },
}

impl<T> Model for Log<T> {
    ghost also_owns = { λ _. ftrue };
}

impl<T> Log<T> {
    /// The empty list.
    pub fn new() -> Log<T>
        ensures { result.items ≡ [] }
    {
        Log { of: PhantomData }
    }

    /// The list with the value that was remembered at its end.
    pub fn and(&self, _item: &Snapshot<T>) -> Log<T>
        ensures { result.items ≡ self.now.items ++ _item.now.value ∷ [] }
    {
        Log { of: PhantomData }
    }

    /// The list with one item more at its end, which a proof names.
    pub fn with(&self) -> Log<T>
        ghost item: { T }
        ensures { result.items ≡ self.now.items ++ item ∷ [] }
    {
        Log { of: PhantomData }
    }

    /// The list with more items at its end, which a proof names.
    pub fn with_all(&self) -> Log<T>
        ghost more: { List T }
        ensures { result.items ≡ self.now.items ++ more }
    {
        Log { of: PhantomData }
    }
}

unsafe impl<T: Send> Send for Log<T> {}
