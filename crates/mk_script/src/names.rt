//! Names.

ghost use Rattle.std.specs.Prelude.{◌≡◌, ℕ, List, Some, None, OnOk};
ghost use Rattle.std.specs.Option.{option_copied};
ghost use Rattle.std.specs.Map.{update};
ghost use Rattle.std.specs.Str.{bytes_eq};

use indexmap::IndexMap;
use std::alloc::{AllocError, Global};

/// The names that are taken, in the order in which they were, and the value of each.
#[derive(Drop)]
pub(crate) struct Names<'a, T> {
    values: IndexMap<&'a [u8], T>,
}

impl<'a, T: Drop> Names<'a, T> {
    ghost use Rattle.mk_script.specs.Names.{value_of};

    pub(crate) fn new(alloc: Global) -> Self
        ensures { (name : List ℕ) → value_of result name ≡ None }
    {
        Names {
            values: IndexMap::new(alloc),
        }
    }

    /// Gives a name a value.
    pub(crate) fn put(&mut self, name: &'a [u8], value: T) -> Result<(), AllocError>
        ensures { OnOk result ((other : List ℕ) → value_of self.new other ≡ update bytes_eq (value_of self.old) name.now (Some value) other) }
    {
        self.values.insert(name, value)?;
        Ok(())
    }

    /// The value of a name.
    pub(crate) fn get(&self, name: &'a [u8]) -> Option<&T>
        ensures { option_copied result ≡ value_of self.now name.now }
    {
        self.values.get(&name)
    }
}
