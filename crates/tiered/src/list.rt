//! Lists in tiers, of which a short one is a vector alone.

ghost use Rattle.std.specs.Prelude.{◌≡◌, ◌<◌, ◌≤◌, ◌++◌, ◌∷◌, ◌^◌, ◌↔◌, [], Some, IfSome, IsSome, IsTrue, OnOk, OnErr, IfOk, Bool, true, false, length, replicate, slice_get, slice_set};
ghost use Rattle.std.specs.List.{insert, remove};

use crate::block::MOST;
use crate::copies::repeat;
use crate::tiers::Tiers;
use std::alloc::{AllocError, Global};
use std::marker::Model;
use std::mem;

/// A list in tiers. An insert for which room was made before takes no memory and can't fail, nor does a removal.
///
/// An edit moves up to 2,048 items beside each other, and then one item of each block that comes after them.
// Owners hold many of these and move them by value, so what only a long list needs lies behind a box.
pub struct Tiered<T> {
    alloc: Global,
    form: Form<T>,
}

const _: () = prove!(mem::size_of::<Tiered<u32>>() <= 40);

/// How the items lie.
enum Form<T> {
    /// Up to 2,048 items side by side, and whether one more insert takes no memory.
    Few { items: Vec<T>, ready: bool },
    /// All items of a list that has more, or had more before it got short again.
    Many { all: Box<Tiers<T>> },
}

// By hand, so that the proofs of its owners have one call and not a drop of each part.
impl<T: Drop> Drop for Form<T> {
    fn drop(self) {
        match self {
            Form::Few { items: _, ready: _ } => {}
            Form::Many { all: _ } => {}
        }
    }
}

// By hand, so that the proofs of its owners have one call and not a drop of each part.
impl<T: Drop> Drop for Tiered<T> {
    fn drop(self) {
        let Tiered { alloc: _, form: _ } = self;
    }
}

impl<T> Model for Tiered<T> {
    ghost use Rattle.tiered.specs.Lists.{TieredList};

    ghost Value = { TieredList T };

    ghost use Rattle.tiered.specs.Forms.{list_of, IsFormed};

    ghost view = { λ a. list_of a.form };

    ghost invariant = { λ a. IsFormed a.form };
}

/// A long list without items, in its box.
// Not in line, so that the stack has the list no longer than this.
#[inline(never)]
fn empty_box<T: Drop>(alloc: Global) -> Result<Box<Tiers<T>>, AllocError>
    ensures { IfOk result (λ all. all.value ≡ record { items = []; ready = false }) }
{
    Ok(Box::new(alloc, Tiers::new(alloc, Vec::new(alloc)))?)
}

/// The items in a box, where more than 2,048 fit. They stay where they are if there is no memory.
// Not in line, so that what puts an item into a short list has no room on the stack for this.
#[inline(never)]
fn boxed<T: Drop>(alloc: Global, items: &mut Vec<T>) -> Result<Box<Tiers<T>>, AllocError>
    requires { length items.old.items ≤ 2048 }
    ensures ok { IfOk result (λ all. all.value ≡ record { items = items.old.items; ready = false }) }
    ensures err { OnErr result (items.new ≡ items.old) }
{
    // First the box, so that the items stay if there is no memory.
    let mut all = empty_box(alloc)?;
    *all = Tiers::new(alloc, mem::replace(items, Vec::new(alloc)));
    Ok(all)
}

impl<T: Drop> Tiered<T> {
    /// No item. Takes no memory.
    pub fn new(alloc: Global) -> Tiered<T>
        ensures { result ≡ record { items = []; ready = false } }
    {
        Tiered::few(alloc, Vec::new(alloc))
    }

    /// A list of these items, in the memory that they have.
    fn few(alloc: Global, items: Vec<T>) -> Tiered<T>
        requires { length items.items ≤ 2048 }
        ensures { result ≡ record { items = items.items; ready = false } }
    {
        Tiered {
            alloc,
            form: Form::Few {
                items,
                ready: false,
            },
        }
    }

    /// So many times an item.
    // Not in line: what a long list needs of the stack is free again at the end.
    #[inline(never)]
    pub fn repeated(alloc: Global, item: T, count: usize) -> Result<Tiered<T>, AllocError>
    where
        T: Copy,
        ensures { IfOk result (λ list. list.items ≡ replicate count item) }
    {
        if count <= MOST {
            return Ok(Tiered::few(alloc, repeat(alloc, item, count, count)?));
        }
        let mut all = empty_box(alloc)?;
        all.fill(item, count)?;
        Ok(Tiered {
            alloc,
            form: Form::Many { all },
        })
    }

    /// An equal list.
    pub fn copy(&self, alloc: Global) -> Result<Tiered<T>, AllocError>
    where
        T: Copy,
        ensures { IfOk result (λ list. list.items ≡ self.now.items) }
    {
        match &self.form {
            Form::Few { items, ready: _ } => {
                Ok(Tiered::few(alloc, Vec::from_slice(alloc, items)?))
            }
            Form::Many { all } => Tiered::copy_of(alloc, all),
        }
    }

    /// A list equal to one in a box, and in none if it got short.
    // Not in line, so that what copies a short list has no room on the stack for this.
    #[inline(never)]
    fn copy_of(alloc: Global, all: &Tiers<T>) -> Result<Tiered<T>, AllocError>
    where
        T: Copy,
        ensures { IfOk result (λ list. list.items ≡ all.now.items) }
    {
        if let Some(items) = all.as_slice() {
            return Ok(Tiered::few(alloc, Vec::from_slice(alloc, items)?));
        }
        let mut copied = empty_box(alloc)?;
        copied.copy_from(all)?;
        Ok(Tiered {
            alloc,
            form: Form::Many { all: copied },
        })
    }

    /// How many items there are.
    #[inline]
    pub fn len(&self) -> usize
        ensures count { result ≡ length self.now.items }
        ensures small { result < 2 ^ 63 }
    {
        match &self.form {
            Form::Few { items, ready: _ } => items.len(),
            Form::Many { all } => all.len(),
        }
    }

    /// Whether there is no item.
    #[inline]
    pub fn is_empty(&self) -> bool
        ensures { IsTrue result ↔ (self.now.items ≡ []) }
    {
        self.len() == 0
    }

    /// The item at a place: without a search, in some ten instructions.
    #[inline]
    pub fn at(&self, place: usize) -> &T
        requires { place < length self.now.items }
        ensures { slice_get self.now.items place ≡ Some result.now }
    {
        match &self.form {
            Form::Few { items, ready: _ } => &items[place],
            Form::Many { all } => all.at(place),
        }
    }

    /// All items side by side, if they lie so: up to 2,048 do.
    #[inline]
    pub fn as_slice(&self) -> Option<&[T]>
        ensures same { IfSome result (λ items. items.now ≡ self.now.items) }
        ensures few { length self.now.items ≤ 2048 → IsSome result }
    {
        match &self.form {
            Form::Few { items, ready: _ } => Some(items),
            Form::Many { all } => all.as_slice(),
        }
    }

    /// Replaces the item at a place. Takes no memory.
    pub fn set(&mut self, place: usize, item: T)
        requires { place < length self.old.items }
        ensures { self.new ≡ record { items = slice_set self.old.items place item; ready = self.old.ready } }
    {
        match &mut self.form {
            Form::Few { items, ready: _ } => items[place] = item,
            Form::Many { all } => all.set(place, item),
        }
    }

    /// Makes room for one insert at any place. The items stay, whatever the result. An error also where there are 2^62 items.
    pub fn reserve(&mut self) -> Result<(), AllocError>
        ensures items { self.new.items ≡ self.old.items }
        ensures ready { OnOk result (IsTrue self.new.ready) }
        ensures err { OnErr result (self.new.ready ≡ false) }
    {
        match &mut self.form {
            Form::Few { items, ready } => {
                if items.len() < MOST {
                    *ready = false;
                    items.reserve(1)?;
                    *ready = true;
                    return Ok(());
                }
                let mut all = boxed(self.alloc, items)?;
                let result = all.reserve();
                self.form = Form::Many { all };
                result
            }
            Form::Many { all } => all.reserve(),
        }
    }

    /// Puts an item in at a place, for which room was made. Takes no memory.
    pub fn insert_reserved(&mut self, place: usize, item: T)
        requires ready { IsTrue self.old.ready }
        requires place { place ≤ length self.old.items }
        ensures { self.new ≡ record { items = insert self.old.items place item; ready = false } }
    {
        match &mut self.form {
            Form::Few { items, ready } => {
                *ready = false;
                // There is room, so this can't fail.
                let _ = items.insert(place, item);
            }
            Form::Many { all } => all.insert_reserved(place, item),
        }
    }

    /// Puts an item in at the end. The items stay if there is no memory.
    pub fn push(&mut self, item: T) -> Result<(), AllocError>
        ensures ok { OnOk result (self.new ≡ record { items = self.old.items ++ item ∷ []; ready = false }) }
        ensures err { OnErr result (self.new ≡ record { items = self.old.items; ready = false }) }
    {
        self.reserve()?;
        let end = self.len();
        self.insert_reserved(end, item);
        Ok(())
    }

    /// Takes the item at a place out. Takes no memory. No room for an insert is kept, so an insert that is ready comes first.
    pub fn remove(&mut self, place: usize) -> T
        requires { place < length self.old.items }
        ensures item { slice_get self.old.items place ≡ Some result }
        ensures items { self.new ≡ record { items = remove self.old.items place; ready = false } }
    {
        match &mut self.form {
            Form::Few { items, ready } => {
                *ready = false;
                items.remove(place)
            }
            Form::Many { all } => all.remove(place),
        }
    }

    /// Leaves no item.
    pub fn clear(&mut self)
        ensures { self.new ≡ record { items = []; ready = false } }
    {
        match &mut self.form {
            Form::Few { items, ready } => {
                *ready = false;
                items.clear();
            }
            Form::Many { all: _ } => {
                self.form = Form::Few {
                    items: Vec::new(self.alloc),
                    ready: false,
                };
            }
        }
    }
}
