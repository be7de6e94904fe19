//! The replica of a core: the table that it shows, and what is planned of the operation that is staged.
ghost use Rattle.std.specs.Prelude.{◌≡◌, ◌≤◌, [], None, Some, IsSome, is_some, filter, nat_le, IsOk, IfOk, IfErr, OnOk, OnErr};
ghost use Rattle.std.specs.Option.{option_map};
ghost use Rattle.filter_table.specs.Tables.{Accepting, Allowed, after, filter_at, instructions, instructions_of, made};
ghost use Rattle.table_replica.specs.Lent.{AreDifferent, held_filters, shown_filter};
ghost use Rattle.filter_table.specs.Limits.{default_limits};
ghost use Rattle.filter_table.specs.Loading.{load_op};
ghost use Rattle.filter_table.specs.Staging.{CannotStage};
ghost use Rattle.installed_filters.specs.Receiving.{kept_by};
ghost use Rattle.filter_table.specs.Soundness.{IsSoundTable, IdsGrow};
ghost use Rattle.filter_table.specs.declared.operation.Op.{Op as GhostOp};

use crate::{
    Code, Contents, Filter, FilterIter, Kept, Limits, Load, Made, NothingStaged, Op, Receivers,
    StageFault, Workspace,
};
use endpoint_caps::Caps;
use std::alloc::{AllocError, Global};
use std::marker::Model;

/// A replica of the table: a budget of instructions, the table that is shown, and the operation that is staged, if one is.
pub struct Replica {
    budget: u32,
    contents: Contents,
}

// By hand, so that the proofs of its owners have one call and not a drop of each part.
impl Drop for Replica {
    // In line, so that the replica is not copied to be dropped.
    #[inline(always)]
    fn drop(self) {
        let Replica {
            budget: _,
            contents: _,
        } = self;
    }
}

impl Model for Replica {
    ghost use Rattle.std.specs.Prelude.{◌≤◌};
    ghost use Rattle.table_replica.specs.Shown.{ReplicaState};
    ghost use Rattle.filter_table.specs.Tables.{instructions_of};

    ghost Value = { ReplicaState };

    ghost use Rattle.table_replica.specs.Replicas.{AllowsStaged};
    ghost use Rattle.filter_table.specs.Soundness.{IsSoundTable};

    ghost view = { λ a. record { budget = a.budget; shown = a.contents.table; staged = a.contents.staged } };

    ghost invariant = { λ a. (instructions_of a.contents.table.filters ≤ a.budget) × IsSoundTable a.contents.table × AllowsStaged a.budget a.contents.table a.contents.staged };
}

impl Replica {
    /// An empty replica at version 0 under the default limits, whose filters may have `budget` instructions together; the first ids
    /// are 1. Takes no memory yet.
    pub fn new(alloc: Global, budget: u32) -> Result<Replica, AllocError>
        ensures ok { IsOk result }
        ensures empty { IfOk result (λ replica. replica ≡ record { budget = budget; shown = record { limits = default_limits; version = 0; caps = record { held = []; next = 1 }; filters = []; next_filter = 1 }; staged = None }) }
    {
        Replica::with_limits(alloc, Limits::DEFAULT, budget)
    }

    /// The same under other limits.
    pub fn with_limits(alloc: Global, limits: Limits, budget: u32) -> Result<Replica, AllocError>
        ensures ok { IsOk result }
        ensures empty { IfOk result (λ replica. replica ≡ record { budget = budget; shown = record { limits = limits; version = 0; caps = record { held = []; next = 1 }; filters = []; next_filter = 1 }; staged = None }) }
    {
        Replica::resume_with_limits(alloc, limits, budget, 0, 1, 1)
    }

    /// An empty replica at a version under the default limits, with the next ids of a capability and of a filter. Takes no memory
    /// yet.
    pub fn resume(
        alloc: Global,
        budget: u32,
        version: u64,
        next_cap: u32,
        next_filter: u32,
    ) -> Result<Replica, AllocError>
        ensures ok { IsOk result }
        ensures empty { IfOk result (λ replica. replica ≡ record { budget = budget; shown = record { limits = default_limits; version = version; caps = record { held = []; next = next_cap }; filters = []; next_filter = next_filter }; staged = None }) }
    {
        Replica::resume_with_limits(
            alloc,
            Limits::DEFAULT,
            budget,
            version,
            next_cap,
            next_filter,
        )
    }

    /// The same under other limits.
    #[tactic(auto, using(filter_table::proofs::Soundness::sound_empty))]
    pub fn resume_with_limits(
        alloc: Global,
        limits: Limits,
        budget: u32,
        version: u64,
        next_cap: u32,
        next_filter: u32,
    ) -> Result<Replica, AllocError>
        ensures ok { IsOk result }
        ensures empty { IfOk result (λ replica. replica ≡ record { budget = budget; shown = record { limits = limits; version = version; caps = record { held = []; next = next_cap }; filters = []; next_filter = next_filter }; staged = None }) }
    {
        let contents = Contents::resume(alloc, limits, version, next_cap, next_filter);
        Ok(Replica { budget, contents })
    }

    /// Gives back all that the replica holds: nothing is held or listed, and nothing is staged. Takes no memory.
    // So that who owns it on the heap can drop it where it lies: a box that is dropped has its content on the stack.
    #[tactic(auto, using(filter_table::proofs::Soundness::sound_empty))]
    pub fn clear(&mut self, alloc: Global)
        ensures shown { self.new.shown ≡ record self.old.shown { caps = record { held = []; next = self.old.shown.caps.next }; filters = [] } }
        ensures none_staged { self.new.staged ≡ None }
        ensures budget { self.new.budget ≡ self.old.budget }
    {
        self.contents.clear(alloc);
    }

    /// The version of the table.
    pub fn version(&self) -> u64
        ensures { result ≡ self.now.shown.version }
    {
        self.contents.version()
    }

    /// How much the table may list. No operation changes it.
    pub fn limits(&self) -> Limits
        ensures { result ≡ self.now.shown.limits }
    {
        self.contents.limits()
    }

    /// How many instructions the filters may have.
    pub fn budget(&self) -> u32
        ensures { result ≡ self.now.budget }
    {
        self.budget
    }

    /// The instructions of all filters.
    pub fn total_instructions(&self) -> u32
        ensures { result ≡ instructions_of self.now.shown.filters }
    {
        self.contents.instructions()
    }

    /// How many different programs the listed filters have.
    pub fn distinct_programs(&self) -> usize
        ensures { AreDifferent self.now.shown.filters result }
    {
        self.contents.filters().distinct_programs()
    }

    /// How many programs a packet is run on: the different ones of the filters whose capability is held. So a filter whose
    /// capability is gone costs no packet, though it is listed and its instructions are counted.
    pub fn running_programs(&self) -> usize
        ensures { AreDifferent (held_filters self.now.shown.caps.held self.now.shown.filters) result }
    {
        self.contents.filters().running_programs()
    }

    /// Whether an operation is staged.
    pub fn staged(&self) -> bool
        ensures { result ≡ is_some self.now.staged }
    {
        self.contents.staged()
    }

    /// The capabilities.
    pub fn caps(&self) -> &Caps
        ensures { result.now.table ≡ self.now.shown.caps }
    {
        self.contents.caps()
    }

    /// The filters of the shown table, in order of installation. Whenever this is asked, the table is sound: ids increase and
    /// lie below the next one, a filter's program is sound, and while its capability is held, its owner holds it, for its
    /// endpoint and with the right to receive.
    pub fn filters(&self) -> FilterIter<'_>
        ensures filters { result ≡ self.now.shown.filters }
        ensures sound { IsSoundTable self.now.shown }
    {
        self.contents.filters().iter()
    }

    /// Those of them whose ids are at least the given one. The others are not walked.
    pub fn filters_from(&self, id: u32) -> FilterIter<'_>
        ensures { result ≡ filter (λ f. nat_le id f.id) self.now.shown.filters }
    {
        self.contents.filters().iter_from(id)
    }

    /// The filter of the shown table with this id.
    pub fn filter(&self, id: u32) -> Option<Filter<'_>>
        ensures { option_map shown_filter result ≡ filter_at self.now.shown.filters id }
    {
        self.contents.filters().get(id)
    }

    /// The endpoints that get a packet by the shown table: those of the listed filters that accept it and whose capability
    /// is held. They come in increasing order, each with the number of bytes that it keeps, the greatest verdict's and at
    /// most the captured ones. `original` is the packet's length before it was captured.
    pub fn accepting(
        &self,
        alloc: Global,
        bytes: &[u8],
        original: u32,
    ) -> Result<Vec<Kept>, AllocError>
        ensures { IfOk result (λ kept. Accepting self.now.shown (record { bytes = bytes.now; original = original }) kept.items) }
    {
        let mut workspace = Workspace::new(alloc);
        self.accepting_with(&mut workspace, bytes, original)?;
        Ok(workspace.into_kept())
    }

    /// The same, told in short: if they are listed, then in place of what the workspace kept. Takes memory only where the workspace was
    /// never as long as the packet needs.
    #[inline(always)]
    pub fn receivers(
        &self,
        workspace: &mut Workspace,
        bytes: &[u8],
        original: u32,
    ) -> Result<Receivers, AllocError>
        ensures { IfOk result (λ found. Accepting self.now.shown (record { bytes = bytes.now; original = original }) (kept_by found workspace.new.kept.items)) }
    {
        self.contents
            .filters()
            .receivers(workspace, bytes, original)
    }

    /// The same, in place of what the workspace kept. Takes memory only where the workspace was never as long as the packet needs.
    #[inline(always)]
    pub fn accepting_with(
        &self,
        workspace: &mut Workspace,
        bytes: &[u8],
        original: u32,
    ) -> Result<(), AllocError>
        ensures { OnOk result (Accepting self.now.shown (record { bytes = bytes.now; original = original }) workspace.new.kept.items) }
    {
        self.contents
            .filters()
            .accepting_with(workspace, bytes, original)
    }

    /// What `stage` would answer, memory aside. Nothing changes, and no memory is taken.
    pub fn check(&self, op: &Op) -> Result<(), StageFault>
        ensures ok { OnOk result (Allowed self.now.shown self.now.budget op.now None) }
        ensures nothing_staged { OnOk result (self.now.staged ≡ None) }
        ensures err { IfErr result (CannotStage self.now.shown self.now.budget op.now self.now.staged) }
        ensures memory { result ≡ Err StageFault.NoMemory → ⊥ }
        ensures fits { instructions_of self.now.shown.filters ≤ self.now.budget }
    {
        if self.contents.staged() {
            return Err(StageFault::AlreadyStaged);
        }
        self.contents.check(self.budget, op)
    }

    /// The same of an operation whose program lies elsewhere: it is verified there.
    pub fn check_load<C: Code>(&self, load: Load, program: C) -> Result<(), StageFault>
        ensures ok { OnOk result (Allowed self.now.shown self.now.budget (load_op load (C.insns program)) None) }
        ensures nothing_staged { OnOk result (self.now.staged ≡ None) }
        ensures err { IfErr result (CannotStage self.now.shown self.now.budget (load_op load (C.insns program)) self.now.staged) }
        ensures memory { result ≡ Err StageFault.NoMemory → ⊥ }
        ensures fits { instructions_of self.now.shown.filters ≤ self.now.budget }
    {
        if self.contents.staged() {
            return Err(StageFault::AlreadyStaged);
        }
        self.contents.check_load(self.budget, load, program)
    }

    /// Plans the operation and takes the memory that it needs, so that `commit` and `abort` take none. The table that is shown stays.
    /// Memory is asked for only once no test but the verifier's search for unwritten words is left.
    pub fn stage(&mut self, alloc: Global, op: &Op) -> Result<(), StageFault>
        ensures ok { OnOk result (Allowed self.old.shown self.old.budget op.now None) }
        ensures nothing_staged { OnOk result (self.old.staged ≡ None) }
        ensures now_staged { OnOk result (self.new.staged ≡ Some op.now) }
        ensures err { IfErr result (CannotStage self.old.shown self.old.budget op.now self.old.staged) }
        ensures same { OnErr result (self.new.staged ≡ self.old.staged) }
        ensures shown { self.new.shown ≡ self.old.shown }
        ensures budget { self.new.budget ≡ self.old.budget }
        ensures fits { instructions_of self.old.shown.filters ≤ self.old.budget }
    {
        if self.contents.staged() {
            return Err(StageFault::AlreadyStaged);
        }
        self.contents.prepare(alloc, self.budget, op)
    }

    /// Does the operation that is staged, and answers what it made. Takes no memory.
    #[tactic(auto, using(filter_table::proofs::Soundness::ids_stay))]
    pub fn commit(&mut self) -> Result<Made, NothingStaged>
        ensures ok { IfOk result (λ id. (op : GhostOp) × (self.old.staged ≡ Some op) × (self.new.shown ≡ after self.old.shown op) × (id ≡ made self.old.shown op)) }
        ensures err { OnErr result (self.old.staged ≡ None) }
        ensures unchanged { OnErr result (self.new.shown ≡ self.old.shown) }
        ensures none_staged { self.new.staged ≡ None }
        ensures budget { self.new.budget ≡ self.old.budget }
        ensures ids { IdsGrow self.old.shown self.new.shown }
    {
        match self.contents.perform() {
            None => Err(NothingStaged),
            Some(made) => Ok(made),
        }
    }

    /// Gives up the operation that is staged. Takes no memory.
    pub fn abort(&mut self) -> Result<(), NothingStaged>
        ensures err { OnErr result (self.old.staged ≡ None) }
        ensures ok { OnOk result (IsSome self.old.staged) }
        ensures shown { self.new.shown ≡ self.old.shown }
        ensures none_staged { self.new.staged ≡ None }
        ensures budget { self.new.budget ≡ self.old.budget }
    {
        if !self.contents.staged() {
            return Err(NothingStaged);
        }
        self.contents.forget();
        Ok(())
    }
}
