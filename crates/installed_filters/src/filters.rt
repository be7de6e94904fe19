//! The filters, and what is planned of them.
ghost use Rattle.std.specs.Prelude.{◌≡◌, ◌==◌, ◌<◌, ◌++◌, ◌∷◌, [], ℕ, None, Some, IsSome, true, not, filter, length, IfOk, OnOk, OnErr};
ghost use Rattle.installed_filters.specs.Slotting.{slot_at};
ghost use Rattle.installed_filters.specs.Books.{Begins};
ghost use Rattle.installed_filters.specs.Homes.{AreProgramsApart};
ghost use Rattle.installed_filters.specs.Leaving.{IsOneOf};
ghost use Rattle.installed_filters.specs.Listing.{AreListed, AreListedFor};
ghost use Rattle.installed_filters.specs.Planning.{slots_swapped};
ghost use Rattle.std.specs.List.{Contains};
ghost use Rattle.installed_filters.specs.Installed.{Installed, AreHeldBy, lapsed_under, replaced_by};
ghost use Rattle.std.specs.Prelude.{List, map};
ghost use Rattle.endpoint_caps.specs.declared.Cap.{Cap as AnyCap};
ghost use Rattle.filter_table.specs.Tables.{AreReceivers};
ghost use Rattle.installed_filters.specs.Receiving.{kept_by};

use crate::books::Row;
use crate::by_id::Rows;
use crate::changes::{Change, carry_out, take_back};
use crate::coming::start;
use crate::homes::{Home, home_of};
use crate::lapsing::rest_all;
use crate::leaving::{rest, wake};
use crate::lists::Lists;
use crate::reaches::Reaches;
use crate::receiving::{Receivers, Workspace};
use crate::slots::Slots;
use chunked::Sorted;
use filter_group::Shared;
use filter_verify::Verified;
use std::alloc::{AllocError, Global};
use std::marker::Model;

/// Filters in order of installation. Each program is kept once, and a packet is run on those of the filters whose capability is held.
/// A change is planned first, which takes all memory, and then done, which takes none and can't fail.
pub struct Filters {
    pub(crate) rows: Rows,
    pub(crate) slots: Slots,
    pub(crate) reaches: Reaches,
    pub(crate) lists: Lists,
    pub(crate) change: Option<Change>,
}

// By hand, so that the proofs of its owners have one call and not a drop of each part.
impl Drop for Filters {
    fn drop(self) {
        let Filters {
            rows: _,
            slots: _,
            reaches: _,
            lists: _,
            change: _,
        } = self;
    }
}

impl Model for Filters {
    ghost use Rattle.installed_filters.specs.Installed.{Standing, installed};
    ghost use Rattle.installed_filters.specs.Planning.{next_of, IsKept, IsPlanned};

    ghost Value = { Standing };

    ghost view = { λ a. record { now = installed a.slots.slots a.rows.entries; next = next_of a.slots.slots a.rows.entries a.change } };

    ghost invariant = { λ a. IsKept a.rows.entries a.slots.slots a.reaches.ends a.lists a.change × IsPlanned a.rows a.slots a.reaches a.change };
}

impl Filters {
    /// No filter. Takes no memory.
    pub fn new(alloc: Global) -> Filters
        ensures { result ≡ record { now = []; next = None } }
    {
        Filters {
            rows: Rows::new(alloc),
            slots: Slots::new(alloc),
            reaches: Reaches::new(alloc),
            lists: Lists::new(alloc),
            change: None,
        }
    }

    /// Gives back all that they hold: there is no filter, and nothing is planned. Takes no memory.
    // A part at a time, so that the stack has one of them at a time.
    #[inline(never)]
    pub fn clear(&mut self, alloc: Global)
        ensures { self.new ≡ record { now = []; next = None } }
    {
        self.forget();
        self.lists.clear(alloc);
        self.rows.clear(alloc);
        self.slots.clear(alloc);
        self.reaches.clear(alloc);
    }

    /// How many filters there are.
    pub fn len(&self) -> usize
        ensures { result ≡ length self.now.now }
    {
        self.rows.len()
    }

    /// Plans a filter more, which comes last and whose capability is held. The filters stay, whatever the result.
    pub fn prepare_install(
        &mut self,
        alloc: Global,
        id: u32,
        owner: u16,
        cap: u32,
        endpoint: u16,
        program: &Verified,
    ) -> Result<(), AllocError>
        requires free { self.old.next ≡ None }
        requires last { (f : Installed) → Contains self.old.now f → f.filter.id < id }
        requires below { id < 4294967295 }
        ensures now { self.new.now ≡ self.old.now }
        ensures planned { OnOk result (self.new.next ≡ Some (self.old.now ++ record { filter = record { id = id; owner = owner; cap = cap; endpoint = endpoint; program = program.now }; held = true } ∷ [])) }
        ensures free { OnErr result (self.new.next ≡ None) }
    {
        let program = Shared::new(alloc, program.clone()?)?;
        let _count = self.rows.len();
        self.rows.reserve()?;
        let home = home_of(&mut self.slots, &mut self.reaches, &self.lists, program)?;
        self.reaches.reserve(alloc, home.number, endpoint)?;
        start(
            alloc,
            &self.slots,
            &mut self.lists.running,
            home.number,
            &home.program,
            home.guess,
        )?;
        self.change = Some(coming(id, owner, cap, endpoint, home));
        Ok(())
    }

    /// Plans that a filter goes. The filters stay, whatever the result.
    pub fn prepare_remove(&mut self, alloc: Global, id: u32) -> Result<(), AllocError>
        requires free { self.old.next ≡ None }
        requires there { (f : Installed) × Contains self.old.now f × (f.filter.id ≡ id) }
        ensures now { self.new.now ≡ self.old.now }
        ensures planned { OnOk result (self.new.next ≡ Some (filter (λ f. not (f.filter.id == id)) self.old.now)) }
        ensures free { OnErr result (self.new.next ≡ None) }
    {
        let row = match self.rows.get(u64::from(id)) {
            Some(row) => *row,
            None => unreachable!(),
        };
        self.slots.reserve()?;
        rest(alloc, &self.slots, &mut self.lists.resting, row)?;
        self.change = Some(Change::Remove { id, row });
        Ok(())
    }

    /// Plans that a filter gets another program. The filters stay, whatever the result.
    pub fn prepare_replace(
        &mut self,
        alloc: Global,
        id: u32,
        program: &Verified,
    ) -> Result<(), AllocError>
        requires free { self.old.next ≡ None }
        requires there { (f : Installed) × Contains self.old.now f × (f.filter.id ≡ id) }
        requires held { (f : Installed) → Contains self.old.now f → f.filter.id ≡ id → f.held ≡ true }
        requires few { length self.old.now < 4294967295 }
        ensures now { self.new.now ≡ self.old.now }
        ensures planned { OnOk result (self.new.next ≡ Some (map (replaced_by id program.now) self.old.now)) }
        ensures free { OnErr result (self.new.next ≡ None) }
    {
        let program = Shared::new(alloc, program.clone()?)?;
        let _count = self.rows.len();
        let old = match self.rows.get(u64::from(id)) {
            Some(row) => *row,
            None => unreachable!(),
        };
        let home = home_of(&mut self.slots, &mut self.reaches, &self.lists, program)?;
        if home.number == old.number {
            self.change = Some(Change::Stay);
            return Ok(());
        }
        self.slots.reserve()?;
        self.reaches.reserve(alloc, home.number, old.endpoint)?;
        exchange(alloc, &self.slots, &mut self.lists, old, &home)?;
        self.change = Some(exchanging(id, old, home));
        Ok(())
    }

    /// Plans that the capabilities with these ids are not held any more. The filters stay, whatever the result.
    pub fn prepare_lapse(&mut self, alloc: Global, gone: &Sorted<()>) -> Result<(), AllocError>
        requires free { self.old.next ≡ None }
        ensures now { self.new.now ≡ self.old.now }
        ensures planned { OnOk result (self.new.next ≡ Some (map (lapsed_under gone.now.entries) self.old.now)) }
        ensures free { OnErr result (self.new.next ≡ None) }
    {
        let _count = self.rows.len();
        let lapsing = self.rows.lapsing_under(alloc, gone)?;
        rest_all(alloc, &self.slots, &mut self.lists.resting, &lapsing)?;
        self.change = Some(Change::Lapse { lapsing });
        Ok(())
    }

    /// Does what is planned. Takes no memory.
    pub fn perform(&mut self)
        requires { IsSome self.old.next }
        ensures now { (next : List Installed) → self.old.next ≡ Some next → self.new.now ≡ next }
        ensures free { self.new.next ≡ None }
    {
        match self.change.take() {
            Some(change) => carry_out(
                &mut self.rows,
                &mut self.slots,
                &mut self.reaches,
                &mut self.lists,
                change,
            ),
            None => unreachable!(),
        }
    }

    /// Gives up what is planned. Takes no memory.
    pub fn forget(&mut self)
        ensures { self.new ≡ record { now = self.old.now; next = None } }
    {
        take_back(&self.slots, &mut self.lists, &self.change);
        self.change = None;
    }

    /// The endpoints that get a packet, in increasing order, each with the number of bytes that it keeps. If they are listed, then in
    /// place of what the workspace kept. Takes memory only where the workspace was never as long as the packet needs.
    #[inline(always)]
    pub fn receivers(
        &self,
        workspace: &mut Workspace,
        bytes: &[u8],
        original: u32,
    ) -> Result<Receivers, AllocError>
        ensures { IfOk result (λ found. (caps : List AnyCap) → AreHeldBy caps self.now.now → AreReceivers caps (map (λ f. f.filter) self.now.now) (record { bytes = bytes.now; original = original }) (kept_by found workspace.new.kept.items)) }
    {
        let _count = self.rows.len();
        self.lists
            .running
            .run(&mut workspace.lists, bytes, original)?;
        let found = self.reaches.receive(
            &workspace.lists.hits,
            bytes.len(),
            &mut workspace.verdicts,
            &mut workspace.raises,
            &mut workspace.kept,
        )?;
        Ok(found)
    }

    /// The endpoints that get a packet, in increasing order, each with the number of bytes that it keeps, in place of what the workspace
    /// kept. Takes memory only where the workspace was never as long as the packet needs.
    #[inline(always)]
    pub fn accepting_with(
        &self,
        workspace: &mut Workspace,
        bytes: &[u8],
        original: u32,
    ) -> Result<(), AllocError>
        ensures { OnOk result ((caps : List AnyCap) → AreHeldBy caps self.now.now → AreReceivers caps (map (λ f. f.filter) self.now.now) (record { bytes = bytes.now; original = original }) workspace.new.kept.items) }
    {
        let found = self.receivers(workspace, bytes, original)?;
        workspace.list(found)
    }
}

/// A filter comes whose capability is held.
fn coming(id: u32, owner: u16, cap: u32, endpoint: u16, home: Home) -> Change
    ensures { result ≡ Change.Install id (record { owner = owner; cap = cap; endpoint = endpoint; held = true; number = home.number }) home.program }
{
    let Home {
        number,
        program,
        ..
    } = home;
    let row = Row {
        owner,
        cap,
        endpoint,
        held: true,
        number,
    };
    Change::Install { id, row, program }
}

/// Puts into the lists what is needed once a filter goes with its program and comes with that of a home. Without memory the lists are as
/// they were, but those that run may have no plan.
#[inline(never)]
fn exchange(
    alloc: Global,
    slots: &Slots,
    lists: &mut Lists,
    old: Row,
    home: &Home,
) -> Result<(), AllocError>
    requires one { IsOneOf (slot_at slots.now.slots old.number) old.held }
    requires held { old.held ≡ true }
    requires begins { Begins slots.now.slots home.now.number home.now.program }
    requires inside { home.now.number < length slots.now.slots }
    requires other { old.number ≡ home.now.number → ⊥ }
    requires apart { AreProgramsApart slots.now.slots }
    requires listed { AreListed (slot_at slots.now.slots) lists.old.running lists.old.resting }
    ensures done { OnOk result (AreListedFor (slot_at slots.now.slots) (slots_swapped slots.now.slots old (record old { number = home.now.number }) home.now.program) lists.new.running lists.new.resting) }
    ensures undone { OnErr result (AreListed (slot_at slots.now.slots) lists.new.running lists.new.resting) }
{
    rest(alloc, slots, &mut lists.resting, old)?;
    let running = &mut lists.running;
    let started = start(
        alloc,
        slots,
        running,
        home.number,
        &home.program,
        home.guess,
    );
    if started.is_err() {
        wake(slots, &mut lists.resting, old);
    }
    started
}

/// A filter gets the program of a home.
fn exchanging(id: u32, old: Row, home: Home) -> Change
    ensures { result ≡ Change.Replace id old (record old { number = home.number }) home.program }
{
    let Home {
        number,
        program,
        ..
    } = home;
    let row = Row { number, ..old };
    Change::Replace {
        id,
        old,
        row,
        program,
    }
}
