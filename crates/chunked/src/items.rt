//! Walks over the items of a list in chunks.

ghost use Rattle.std.specs.Iterator.{YieldsFirstRef, item_count};

use std::marker::Model;

/// The items of a list in chunks that are still to come, in order.
#[derive(Drop)]
pub struct Items<'a, T> {
    pub(crate) current: &'a [T],
    pub(crate) rest: &'a [Vec<T>],
}

impl<'a, T> Model for Items<'a, T> {
    ghost use Rattle.std.specs.Prelude.{List, ◌++◌, ◌<◌, length};
    ghost use Rattle.std.specs.List.{All};
    ghost use Rattle.chunked.specs.Chunks.{whole, lists};

    ghost Value = { List T };

    ghost view = { λ a. a.current.now ++ whole (lists a.rest.now) };

    ghost invariant = { λ a. All (λ c. 0 < length c) (lists a.rest.now) };
}

impl<'a, T> Iterator for Items<'a, T> {
    type Item = &'a T;

    ghost next_gives = { YieldsFirstRef (λ rest. rest) };

    ghost remaining = { item_count (λ rest. rest) };

    fn next(&mut self) -> Option<&'a T> {
        if let Some((item, current)) = self.current.split_first() {
            self.current = current;
            return Some(item);
        }
        let (chunk, rest) = self.rest.split_first()?;
        let (item, current) = chunk.split_first()?;
        self.current = current;
        self.rest = rest;
        Some(item)
    }
}
