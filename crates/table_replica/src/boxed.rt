//! The filters of a table on the heap.
ghost use Rattle.std.specs.Prelude.{◌≡◌, ◌==◌, ◌<◌, ◌++◌, [], ◌∷◌, ℕ, None, Some, IsSome, true, not, filter, nat_le, map, length, List, IfOk, OnOk, OnErr, MatchOption};
ghost use Rattle.std.specs.Iterator.{YieldsFirstBy, item_count};
ghost use Rattle.std.specs.List.{Contains};
ghost use Rattle.std.specs.Option.{option_map};
ghost use Rattle.endpoint_caps.specs.declared.Cap.{Cap as AnyCap};
ghost use Rattle.filter_table.specs.Tables.{filter_at, AreReceivers};
ghost use Rattle.installed_filters.specs.Installed.{AreHeldBy, Installed, replaced_by};
ghost use Rattle.installed_filters.specs.Receiving.{kept_by};
ghost use Rattle.installed_filters.specs.Lent.{AreDifferent, held_listed, listed, shown_filter};
ghost use Rattle.table_replica.specs.Boxed.{standing_in, IsLapse};

use chunked::Sorted;
use filter_verify::Verified;
use installed_filters::{Filter, Filters, InstalledIter, Receivers, Workspace};
use std::alloc::{AllocError, Global};
use std::marker::Model;
use std::mem;

/// The filters in order of installation. They lie on the heap, so that a table is small and its moves take little of the stack. No
/// filter takes no memory.
pub(crate) struct BoxedFilters {
    filters: Option<Box<Filters>>,
}

// By hand, so that the proofs of its owners have one call and not a drop of each part.
impl Drop for BoxedFilters {
    // Not in line, so that its room on the stack isn't there for the rest of a table. A box that is dropped has its content on the
    // stack: so the filters are cleared where they lie, and what is forgotten holds no memory.
    #[inline(never)]
    fn drop(self) {
        let BoxedFilters { filters } = self;
        if let Some(mut filters) = filters {
            let alloc = *Box::allocator(&filters);
            filters.clear(alloc);
            mem::forget(Box::into_inner(filters));
        }
    }
}

impl Model for BoxedFilters {
    ghost use Rattle.installed_filters.specs.Installed.{Standing};
    ghost use Rattle.table_replica.specs.Boxed.{standing_in};

    ghost Value = { Standing };

    ghost view = { λ a. standing_in a.filters };
}

impl BoxedFilters {
    /// No filter.
    pub(crate) fn new() -> BoxedFilters
        ensures { result ≡ record { now = []; next = None } }
    {
        BoxedFilters { filters: None }
    }

    /// How many are listed.
    pub(crate) fn len(&self) -> usize
        ensures { result ≡ length self.now.now }
    {
        match &self.filters {
            Some(filters) => filters.len(),
            None => 0,
        }
    }

    /// The filter with this id.
    pub(crate) fn get(&self, id: u32) -> Option<Filter<'_>>
        ensures { option_map shown_filter result ≡ filter_at (listed self.now.now) id }
    {
        match &self.filters {
            Some(filters) => filters.get(id),
            None => None,
        }
    }

    /// The filters in order of installation.
    pub(crate) fn iter(&self) -> FilterIter<'_>
        ensures { result ≡ listed self.now.now }
    {
        match &self.filters {
            Some(filters) => FilterIter {
                filters: Some(filters.iter()),
            },
            None => FilterIter { filters: None },
        }
    }

    /// The filters from an id on, in order of installation.
    pub(crate) fn iter_from(&self, id: u32) -> FilterIter<'_>
        ensures { result ≡ filter (λ f. nat_le id f.id) (listed self.now.now) }
    {
        match &self.filters {
            Some(filters) => FilterIter {
                filters: Some(filters.iter_from(id)),
            },
            None => FilterIter { filters: None },
        }
    }

    /// How many different programs the filters have.
    pub(crate) fn distinct_programs(&self) -> usize
        ensures { AreDifferent (listed self.now.now) result }
    {
        match &self.filters {
            Some(filters) => filters.distinct_programs(),
            None => 0,
        }
    }

    /// How many programs a packet is run on.
    pub(crate) fn running_programs(&self) -> usize
        ensures { AreDifferent (held_listed self.now.now) result }
    {
        match &self.filters {
            Some(filters) => filters.running_programs(),
            None => 0,
        }
    }

    /// The endpoints that get a packet, in increasing order, each with the number of bytes that it keeps. If they are listed, then in
    /// place of what the workspace kept.
    // In line, so that a packet that meets no filter costs no call.
    #[inline(always)]
    pub(crate) fn receivers(
        &self,
        workspace: &mut Workspace,
        bytes: &[u8],
        original: u32,
    ) -> Result<Receivers, AllocError>
        ensures { IfOk result (λ found. (caps : List AnyCap) → AreHeldBy caps self.now.now → AreReceivers caps (listed self.now.now) (record { bytes = bytes.now; original = original }) (kept_by found workspace.new.kept.items)) }
    {
        match &self.filters {
            Some(filters) => filters.receivers(workspace, bytes, original),
            None => Ok(Receivers::Nobody),
        }
    }

    /// The endpoints that get a packet, in increasing order, each with the number of bytes that it keeps, in place of what the workspace
    /// kept.
    // In line, so that a packet that meets no filter costs no call.
    #[inline(always)]
    pub(crate) fn accepting_with(
        &self,
        workspace: &mut Workspace,
        bytes: &[u8],
        original: u32,
    ) -> Result<(), AllocError>
        ensures { OnOk result ((caps : List AnyCap) → AreHeldBy caps self.now.now → AreReceivers caps (listed self.now.now) (record { bytes = bytes.now; original = original }) workspace.new.kept.items) }
    {
        match &self.filters {
            Some(filters) => filters.accepting_with(workspace, bytes, original),
            None => {
                workspace.kept.clear();
                Ok(())
            }
        }
    }

    /// Plans a filter more, which comes last and whose capability is held. The filters stay, whatever the result.
    #[inline(never)]
    pub(crate) fn prepare_install(
        &mut self,
        alloc: Global,
        id: u32,
        owner: u16,
        cap: u32,
        endpoint: u16,
        program: &Verified,
    ) -> Result<(), AllocError>
        requires free { self.old.next ≡ None }
        requires last { (f : Installed) → Contains self.old.now f → f.filter.id < id }
        requires below { id < 4294967295 }
        ensures now { self.new.now ≡ self.old.now }
        ensures planned { OnOk result (self.new.next ≡ Some (self.old.now ++ record { filter = record { id = id; owner = owner; cap = cap; endpoint = endpoint; program = program.now }; held = true } ∷ [])) }
        ensures free { OnErr result (self.new.next ≡ None) }
    {
        make_filters(alloc, &mut self.filters)?;
        match &mut self.filters {
            Some(filters) => filters.prepare_install(alloc, id, owner, cap, endpoint, program),
            None => unreachable!(),
        }
    }

    /// Plans that a filter goes. The filters stay, whatever the result.
    #[inline(never)]
    pub(crate) fn prepare_remove(&mut self, alloc: Global, id: u32) -> Result<(), AllocError>
        requires free { self.old.next ≡ None }
        requires there { (f : Installed) × Contains self.old.now f × (f.filter.id ≡ id) }
        ensures now { self.new.now ≡ self.old.now }
        ensures planned { OnOk result (self.new.next ≡ Some (filter (λ f. not (f.filter.id == id)) self.old.now)) }
        ensures free { OnErr result (self.new.next ≡ None) }
    {
        match &mut self.filters {
            Some(filters) => filters.prepare_remove(alloc, id),
            None => unreachable!(),
        }
    }

    /// Plans that a filter gets another program. The filters stay, whatever the result.
    #[inline(never)]
    pub(crate) fn prepare_replace(
        &mut self,
        alloc: Global,
        id: u32,
        program: &Verified,
    ) -> Result<(), AllocError>
        requires free { self.old.next ≡ None }
        requires there { (f : Installed) × Contains self.old.now f × (f.filter.id ≡ id) }
        requires held { (f : Installed) → Contains self.old.now f → f.filter.id ≡ id → f.held ≡ true }
        ensures now { self.new.now ≡ self.old.now }
        ensures planned { OnOk result (self.new.next ≡ Some (map (replaced_by id program.now) self.old.now)) }
        ensures free { OnErr result (self.new.next ≡ None) }
    {
        match &mut self.filters {
            Some(filters) => {
                // One more could not be counted.
                if filters.len() >= u32::MAX as usize {
                    return Err(AllocError);
                }
                filters.prepare_replace(alloc, id, program)
            }
            None => unreachable!(),
        }
    }

    /// Plans that the capabilities with these ids are not held any more. The filters stay, whatever the result.
    #[inline(never)]
    pub(crate) fn prepare_lapse(
        &mut self,
        alloc: Global,
        gone: &Sorted<()>,
    ) -> Result<(), AllocError>
        requires free { self.old.next ≡ None }
        ensures now { self.new.now ≡ self.old.now }
        ensures planned { OnOk result (IsLapse gone.now.entries self.old.now self.new.next) }
        ensures free { OnErr result (self.new.next ≡ None) }
    {
        match &mut self.filters {
            Some(filters) => filters.prepare_lapse(alloc, gone),
            None => Ok(()),
        }
    }

    /// Does what is planned, if anything is. Takes no memory.
    pub(crate) fn perform(&mut self)
        ensures now { MatchOption self.old.next (self.new.now ≡ self.old.now) (λ next. self.new.now ≡ next) }
        ensures free { self.new.next ≡ None }
    {
        if let Some(filters) = &mut self.filters {
            if filters.is_planned() {
                filters.perform();
            }
        }
    }

    /// Gives up what is planned. Takes no memory.
    pub(crate) fn forget(&mut self)
        ensures { self.new ≡ record { now = self.old.now; next = None } }
    {
        if let Some(filters) = &mut self.filters {
            filters.forget();
        }
    }
}

/// Puts filters on the heap where there are none, of which none is listed. They are made here, so that they lie in no frame that is open
/// while one more is planned. What is forgotten here holds no memory.
#[inline(never)]
fn make_filters(alloc: Global, filters: &mut Option<Box<Filters>>) -> Result<(), AllocError>
    ensures same { standing_in filters.new ≡ standing_in filters.old }
    ensures there { OnOk result (IsSome filters.new) }
{
    if filters.is_some() {
        return Ok(());
    }
    match Box::new(alloc, Filters::new(alloc)) {
        Ok(made) => {
            mem::forget(filters.replace(made));
            Ok(())
        }
        Err(refused) => {
            mem::forget(refused);
            Err(AllocError)
        }
    }
}

/// The filters of a table that are still to come, in order of installation.
#[derive(Drop)]
pub struct FilterIter<'a> {
    filters: Option<InstalledIter<'a>>,
}

impl<'a> Model for FilterIter<'a> {
    ghost use Rattle.std.specs.Prelude.{List};
    ghost use Rattle.filter_table.specs.Listed.{ListedFilter};
    ghost use Rattle.table_replica.specs.Boxed.{rest_in};

    ghost Value = { List ListedFilter };

    ghost view = { λ a. rest_in a.filters };
}

impl<'a> Iterator for FilterIter<'a> {
    type Item = Filter<'a>;

    ghost next_gives = { YieldsFirstBy shown_filter (λ rest. rest) };

    ghost remaining = { item_count (λ rest. rest) };

    fn next(&mut self) -> Option<Filter<'a>> {
        match &mut self.filters {
            Some(filters) => filters.next(),
            None => None,
        }
    }
}
