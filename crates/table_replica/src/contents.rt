//! The table, changed in place: what an operation does to it is planned before, and then done.
ghost use Rattle.std.specs.Prelude.{◌≡◌, ◌==◌, ◌+◌, ◌<◌, ◌≤◌, ℕ, [], None, Some, is_none, is_some, true, false, leb, not, filter, length, IfSome, IfNone, IfOk, IfErr, OnOk, OnErr};
ghost use Rattle.std.specs.Option.{option_map};
ghost use Rattle.std.specs.Result.{result_err};
ghost use Rattle.endpoint_caps.specs.Capabilities.{first, cap_at, is_some_and, mint_tests, revoked, dropped};
ghost use Rattle.filter_table.specs.Tables.{TableState, Accepting, Allowed, after, made, tests, as_rules, rule_of, instructions, instructions_of, owned_by, replaced, program_of, endpoint_of, Verifies, owner_tests, install_tests, replace_tests, cap_of, filter_at};
ghost use Rattle.filter_verify.specs.Rules.{Sound, Refuses};
ghost use Rattle.filter_verify.specs.Numbers.{number_of, place_of};
ghost use Rattle.filter_table.specs.Staging.{CannotStage};
ghost use Rattle.table_replica.specs.Replicas.{RefusesAs};
ghost use Rattle.filter_table.specs.Loading.{load_op};
ghost use Rattle.filter_table.specs.Soundness.{IsSoundTable};
ghost use Rattle.filter_table.specs.declared.operation.Op.{Op as GhostOp};
ghost use Rattle.installed_filters.specs.Installed.{AreHeldBy};
ghost use Rattle.installed_filters.specs.Lent.{listed};
ghost use Rattle.table_replica.specs.Changing.{program_at};
ghost use Rattle.table_replica.specs.Shares.{IsNewShare, owned_share};

use crate::boxed::BoxedFilters;
use crate::changing::prepare_filters;
use crate::plan::{Plan, change_caps, prepare_caps};
use crate::shares::{NewShare, Share, Shares, fit};
use crate::{Limits, Load, Made, Op, OpFault, StageFault};
use bpf_insn::Insn;
use endpoint_caps::{CapFault, Caps, Right};
use filter_verify::{Code, Refusal, Verified, check, verify};
use std::alloc::{AllocError, Global};
use std::marker::Model;
use std::snapshot::Snapshot;

/// The table, and the plan of the operation that is staged, if one is.
pub(crate) struct Contents {
    limits: Limits,
    version: u64,
    caps: Caps,
    filters: BoxedFilters,
    /// Of each domain that has a filter.
    shares: Shares,
    /// Of all filters.
    instructions: u32,
    next_filter: u32,
    plan: Option<Plan>,
}

// By hand, so that the proofs of its owners have one call and not a drop of each part.
impl Drop for Contents {
    fn drop(self) {
        let Contents {
            limits: _,
            version: _,
            caps: _,
            filters: _,
            shares: _,
            instructions: _,
            next_filter: _,
            plan: _,
        } = self;
    }
}

impl Model for Contents {
    ghost use Rattle.std.specs.Prelude.{◌≡◌};
    ghost use Rattle.filter_table.specs.Tables.{TableState};
    ghost use Rattle.table_replica.specs.Shown.{Staging};
    ghost use Rattle.table_replica.specs.Plans.{staged_op, IsKept};
    ghost use Rattle.installed_filters.specs.Lent.{listed};

    ghost Value = { Staging };

    ghost view = { λ a. record { table = record { limits = a.limits; version = a.version; caps = a.caps.table; filters = listed a.filters.now; next_filter = a.next_filter }; staged = staged_op a.plan } };

    ghost invariant = { λ a. IsKept (record { limits = a.limits; version = a.version; caps = a.caps.table; filters = listed a.filters.now; next_filter = a.next_filter }) a.caps a.filters a.shares a.instructions a.plan };
}

/// The fault of the capabilities as a reason not to stage.
fn ruled(answer: Result<(), CapFault>) -> Result<(), StageFault>
    ensures { result_err result ≡ option_map rule_of (result_err answer) }
{
    match answer {
        Ok(()) => Ok(()),
        Err(CapFault::NoCap) => Err(StageFault::Rule(OpFault::NoCap)),
        Err(CapFault::NotHolder) => Err(StageFault::Rule(OpFault::NotHolder)),
        Err(CapFault::NoRight) => Err(StageFault::Rule(OpFault::NoRight)),
        Err(CapFault::RightsExceed) => Err(StageFault::Rule(OpFault::RightsExceed)),
        Err(CapFault::EndpointTaken) => Err(StageFault::Rule(OpFault::EndpointTaken)),
        Err(CapFault::CapsFull) => Err(StageFault::Rule(OpFault::CapsFull)),
        Err(CapFault::DomainFull) => Err(StageFault::Rule(OpFault::DomainFull)),
        Err(CapFault::IdsSpent) => Err(StageFault::Rule(OpFault::IdsSpent)),
        Err(CapFault::NoMemory) => Err(StageFault::NoMemory),
    }
}

impl Contents {
    /// An empty table.
    pub(crate) fn resume(
        alloc: Global,
        limits: Limits,
        version: u64,
        next_cap: u32,
        next_filter: u32,
    ) -> Contents
        ensures { result ≡ record { table = record { limits = limits; version = version; caps = record { held = []; next = next_cap }; filters = []; next_filter = next_filter }; staged = None } }
    {
        Contents {
            limits,
            version,
            caps: Caps::resume(alloc, next_cap),
            filters: BoxedFilters::new(),
            shares: Shares::new(),
            instructions: 0,
            next_filter,
            plan: None,
        }
    }

    /// Gives back all that the table holds: nothing is held or listed, and nothing is staged. Takes no memory.
    pub(crate) fn clear(&mut self, alloc: Global)
        ensures { self.new ≡ record { table = record self.old.table { caps = record { held = []; next = self.old.table.caps.next }; filters = [] }; staged = None } }
    {
        self.plan = None;
        self.filters = BoxedFilters::new();
        self.shares = Shares::new();
        self.instructions = 0;
        clear_caps(alloc, &mut self.caps);
    }

    pub(crate) fn limits(&self) -> Limits
        ensures { result ≡ self.now.table.limits }
    {
        self.limits
    }

    pub(crate) fn version(&self) -> u64
        ensures { result ≡ self.now.table.version }
    {
        self.version
    }

    pub(crate) fn caps(&self) -> &Caps
        ensures { result.now.table ≡ self.now.table.caps }
    {
        &self.caps
    }

    pub(crate) fn filters(&self) -> &BoxedFilters
        ensures listed { listed result.now.now ≡ self.now.table.filters }
        ensures held { AreHeldBy self.now.table.caps.held result.now.now }
    {
        &self.filters
    }

    /// The instructions of all filters.
    pub(crate) fn instructions(&self) -> u32
        ensures { result ≡ instructions_of self.now.table.filters }
    {
        self.instructions
    }

    /// Whether an operation is staged.
    pub(crate) fn staged(&self) -> bool
        ensures { result ≡ is_some self.now.staged }
    {
        self.plan.is_some()
    }

    /// The first refusal, the verifier's aside.
    pub(crate) fn refusal(&self, budget: u32, op: &Op) -> Result<(), StageFault>
        requires fits { instructions_of self.now.table.filters ≤ budget }
        requires sound { IsSoundTable self.now.table }
        ensures { result_err result ≡ first (tests self.now.table budget op.now) }
    {
        if self.version == u64::MAX {
            return Err(StageFault::Rule(OpFault::VersionsSpent));
        }
        match op {
            Op::Create { domain, endpoint } => {
                ruled(
                    self.caps
                        .check_create(self.limits.caps(), *domain, *endpoint),
                )
            }
            Op::Mint {
                domain,
                cap,
                rights,
                ..
            } => match self
                .caps
                .check_mint(self.limits.caps(), *domain, *cap, *rights)
            {
                Ok(_) => Ok(()),
                Err(fault) => ruled(Err(fault)),
            },
            Op::Revoke { domain, cap } => ruled(self.caps.check_holder(*domain, *cap)),
            Op::DropCap { domain, cap } => ruled(self.caps.check_holder(*domain, *cap)),
            Op::Install {
                domain,
                cap,
                program,
            } => self.refusal_of_install(budget, *domain, *cap, program.as_slice()),
            Op::Remove { domain, filter } => {
                self.owned(*domain, *filter)?;
                Ok(())
            }
            Op::Replace {
                domain,
                filter,
                program,
            } => self.refusal_of_replace(budget, *domain, *filter, program.as_slice()),
        }
    }

    /// The first refusal, the verifier's aside, as what stands in the way of staging. Takes no memory.
    #[tactic(auto, using(filter_table::proofs::Changes::cannot_first, filter_table::proofs::Changes::never_memory))]
    fn tested(&self, budget: u32, op: &Op) -> Result<(), StageFault>
        requires fits { instructions_of self.now.table.filters ≤ budget }
        requires sound { IsSoundTable self.now.table }
        ensures ok { OnOk result (first (tests self.now.table budget op.now) ≡ None) }
        ensures err { IfErr result (CannotStage self.now.table budget op.now None) }
        ensures memory { result ≡ Err StageFault.NoMemory → ⊥ }
    {
        match self.refusal(budget, op) {
            Ok(()) => Ok(()),
            Err(fault) => Err(fault),
        }
    }

    /// The same of an operation whose program lies elsewhere.
    #[tactic(auto, using(filter_table::proofs::Changes::cannot_first, filter_table::proofs::Changes::never_memory))]
    fn tested_load<C: Code>(&self, budget: u32, load: Load, program: C) -> Result<(), StageFault>
        requires fits { instructions_of self.now.table.filters ≤ budget }
        requires sound { IsSoundTable self.now.table }
        ensures ok { OnOk result (first (tests self.now.table budget (load_op load (C.insns program))) ≡ None) }
        ensures err { IfErr result (CannotStage self.now.table budget (load_op load (C.insns program)) None) }
        ensures memory { result ≡ Err StageFault.NoMemory → ⊥ }
    {
        match self.refusal_of_load(budget, load, program) {
            Ok(()) => Ok(()),
            Err(fault) => Err(fault),
        }
    }

    fn refusal_of_load<C: Code>(
        &self,
        budget: u32,
        load: Load,
        program: C,
    ) -> Result<(), StageFault>
        requires fits { instructions_of self.now.table.filters ≤ budget }
        requires sound { IsSoundTable self.now.table }
        ensures { result_err result ≡ first (tests self.now.table budget (load_op load (C.insns program))) }
    {
        if self.version == u64::MAX {
            return Err(StageFault::Rule(OpFault::VersionsSpent));
        }
        match load {
            Load::Install { domain, cap } => self.refusal_of_install(budget, domain, cap, program),
            Load::Replace { domain, filter } => {
                self.refusal_of_replace(budget, domain, filter, program)
            }
        }
    }

    fn refusal_of_install<C: Code>(
        &self,
        budget: u32,
        domain: u16,
        cap: u32,
        program: C,
    ) -> Result<(), StageFault>
        requires { instructions_of self.now.table.filters ≤ budget }
        ensures { result_err result ≡ first (install_tests self.now.table budget domain cap (C.insns program)) }
    {
        ruled(self.caps.may(cap, domain, Right::Receive))?;
        if self.filters.len() >= self.limits.filters() as usize {
            return Err(StageFault::Rule(OpFault::TableFull));
        }
        let share = self.share(domain);
        if share.filters >= self.limits.domain_filters() {
            return Err(StageFault::Rule(OpFault::DomainFull));
        }
        if !fit(
            share.instructions,
            program.count(),
            self.limits.domain_insns(),
        ) {
            return Err(StageFault::Rule(OpFault::DomainFull));
        }
        if self.next_filter == u32::MAX {
            return Err(StageFault::Rule(OpFault::FilterIdsSpent));
        }
        if program.count() > (budget - self.instructions) as usize {
            return Err(StageFault::Budget);
        }
        Ok(())
    }

    /// The capability of a filter that the domain owns.
    fn owned(&self, domain: u16, id: u32) -> Result<u32, StageFault>
        ensures fault { result_err result ≡ first (owner_tests self.now.table.filters domain id) }
        ensures cap { IfOk result (λ cap. cap ≡ cap_of (filter_at self.now.table.filters id)) }
        ensures owned { OnOk result (is_some_and (λ f. f.owner == domain) (filter_at self.now.table.filters id) ≡ true) }
    {
        match self.filters.get(id) {
            None => Err(StageFault::Rule(OpFault::NoFilter)),
            Some(filter) => {
                if filter.owner == domain {
                    Ok(filter.cap)
                } else {
                    Err(StageFault::Rule(OpFault::NotOwner))
                }
            }
        }
    }

    fn refusal_of_replace<C: Code>(
        &self,
        budget: u32,
        domain: u16,
        id: u32,
        program: C,
    ) -> Result<(), StageFault>
        requires { IsSoundTable self.now.table }
        ensures { result_err result ≡ first (replace_tests self.now.table budget domain id (C.insns program)) }
    {
        let cap = self.owned(domain, id)?;
        ruled(self.caps.may(cap, domain, Right::Receive))?;
        if !self.owned_fit_with(domain, id, program) {
            return Err(StageFault::Rule(OpFault::DomainFull));
        }
        if self.fit_with(id, program, budget) {
            Ok(())
        } else {
            Err(StageFault::Budget)
        }
    }

    /// Whether the domain's filters are within its limit on instructions, once the program of one that it owns is replaced by this.
    fn owned_fit_with<C: Code>(&self, domain: u16, id: u32, program: C) -> bool
        requires sound { IsSoundTable self.now.table }
        requires owned { is_some_and (λ f. f.owner == domain) (filter_at self.now.table.filters id) ≡ true }
        ensures { result ≡ leb (instructions_of (owned_by domain (replaced self.now.table.filters id (C.insns program)))) self.now.table.limits.domain_insns }
    {
        let left = self.share_without(domain, id);
        fit(
            left.instructions,
            program.count(),
            self.limits.domain_insns(),
        )
    }

    /// Whether the filters are within a budget, once the program of one that is listed is replaced by this.
    fn fit_with<C: Code>(&self, id: u32, program: C, budget: u32) -> bool
        requires sound { IsSoundTable self.now.table }
        requires there { is_none (filter_at self.now.table.filters id) ≡ false }
        ensures { result ≡ leb (instructions_of (replaced self.now.table.filters id (C.insns program))) budget }
    {
        let left = self.instructions_without(id);
        fit(left, program.count(), budget)
    }

    /// How many instructions the program of a filter has; 0 where none has this id.
    fn length_of(&self, id: u32) -> u32
        requires { IsSoundTable self.now.table }
        ensures { result ≡ length (program_at self.now.table.filters id) }
    {
        match self.filters.get(id) {
            Some(filter) => filter.program.code().len() as u32,
            None => 0,
        }
    }

    /// The instructions of the filters but one.
    fn instructions_without(&self, id: u32) -> u32
        requires { IsSoundTable self.now.table }
        ensures { result ≡ instructions_of (filter (λ f. not (f.id == id)) self.now.table.filters) }
    {
        self.instructions - self.length_of(id)
    }

    /// What a domain has of the filters. None of them is looked at.
    fn share(&self, domain: u16) -> Share
        ensures { result ≡ owned_share self.now.table.filters domain }
    {
        self.shares.of(domain)
    }

    /// The same but for one filter, which is the domain's.
    fn share_without(&self, domain: u16, id: u32) -> Share
        requires sound { IsSoundTable self.now.table }
        requires owned { is_some_and (λ f. f.owner == domain) (filter_at self.now.table.filters id) ≡ true }
        ensures { result ≡ owned_share (filter (λ f. not (f.id == id)) self.now.table.filters) domain }
    {
        let share = self.share(domain);
        Share {
            filters: share.filters - 1,
            instructions: share.instructions - self.length_of(id),
        }
    }

    /// What `prepare` would answer, memory aside. Takes no memory.
    #[tactic(auto, using(filter_table::proofs::Changes::allowed_if, crate::proofs::Refusals::cannot_program))]
    pub(crate) fn check(&self, budget: u32, op: &Op) -> Result<(), StageFault>
        requires fits { instructions_of self.now.table.filters ≤ budget }
        requires sound { IsSoundTable self.now.table }
        ensures ok { OnOk result (Allowed self.now.table budget op.now None) }
        ensures err { IfErr result (CannotStage self.now.table budget op.now None) }
        ensures memory { result ≡ Err StageFault.NoMemory → ⊥ }
    {
        self.tested(budget, op)?;
        program_accepted(op)
    }

    /// The same of an operation whose program lies elsewhere.
    #[tactic(auto, using(filter_table::proofs::Changes::allowed_if, crate::proofs::Refusals::cannot_program))]
    pub(crate) fn check_load<C: Code>(
        &self,
        budget: u32,
        load: Load,
        program: C,
    ) -> Result<(), StageFault>
        requires fits { instructions_of self.now.table.filters ≤ budget }
        requires sound { IsSoundTable self.now.table }
        ensures ok { OnOk result (Allowed self.now.table budget (load_op load (C.insns program)) None) }
        ensures err { IfErr result (CannotStage self.now.table budget (load_op load (C.insns program)) None) }
        ensures memory { result ≡ Err StageFault.NoMemory → ⊥ }
    {
        self.tested_load(budget, load, program)?;
        accepts(program)
    }

    /// What an operation makes.
    #[tactic(auto, unfolding(filter_table::specs::Tables::made))]
    pub(crate) fn made(&self, op: &Op) -> Made
        ensures { result ≡ made self.now.table op.now }
    {
        match op {
            Op::Create { .. } | Op::Mint { .. } => Made::Cap(self.caps.next()),
            Op::Install { .. } => Made::Filter(self.next_filter),
            Op::Revoke { .. } | Op::DropCap { .. } | Op::Remove { .. } | Op::Replace { .. } => {
                Made::Nothing
            }
        }
    }

    /// Plans an operation, so that `perform` takes no memory and can't fail, or answers the first refusal. The table stays.
    #[tactic(auto, using(filter_table::proofs::Changes::allowed_if, crate::proofs::Refusals::cannot_program, filter_table::proofs::Changes::cannot_change))]
    pub(crate) fn prepare(&mut self, alloc: Global, budget: u32, op: &Op) -> Result<(), StageFault>
        requires fits { instructions_of self.old.table.filters ≤ budget }
        requires sound { IsSoundTable self.old.table }
        requires free { self.old.staged ≡ None }
        ensures table { self.new.table ≡ self.old.table }
        ensures staged { OnOk result (self.new.staged ≡ Some op.now) }
        ensures free { OnErr result (self.new.staged ≡ None) }
        ensures allowed { OnOk result (Allowed self.old.table budget op.now None) }
        ensures err { IfErr result (CannotStage self.old.table budget op.now None) }
    {
        self.tested(budget, op)?;
        let program = verified(alloc, op)?;
        match self.make_plan(alloc, budget, op, program) {
            Ok(()) => Ok(()),
            Err(AllocError) => Err(StageFault::NoMemory),
        }
    }

    /// Plans an operation that no test refuses.
    #[tactic(auto, using(filter_table::proofs::Changes::version_room))]
    fn make_plan(
        &mut self,
        alloc: Global,
        budget: u32,
        op: &Op,
        program: Option<Verified>,
    ) -> Result<(), AllocError>
        requires allowed { first (tests self.old.table budget op.now) ≡ None }
        requires program { program ≡ program_of op.now }
        requires sound { IsSoundTable self.old.table }
        requires free { self.old.staged ≡ None }
        ensures table { self.new.table ≡ self.old.table }
        ensures staged { OnOk result (self.new.staged ≡ Some op.now) }
        ensures free { OnErr result (self.new.staged ≡ None) }
    {
        let _ = budget;
        let made = self.made(op);
        let next_filter = self.next_filter_after(op);
        let instructions = self.instructions_after(op);
        let share = self.share_after(op);
        self.shares.reserve(alloc, share)?;
        let caps = prepare_caps(&mut self.caps, self.limits.caps(), op)?;
        prepare_filters(
            alloc,
            &mut self.filters,
            &self.caps,
            self.next_filter,
            op,
            program,
        )?;
        self.plan = Some(Plan {
            caps,
            share,
            instructions,
            next_filter,
            made,
            op: Snapshot::of(op),
        });
        Ok(())
    }

    /// Does what is planned, and answers what the operation made. None where nothing is staged. Takes no memory.
    pub(crate) fn perform(&mut self) -> Option<Made>
        ensures performed { IfSome result (λ id. (op : GhostOp) × (self.old.staged ≡ Some op) × (self.new.table ≡ after self.old.table op) × (id ≡ made self.old.table op)) }
        ensures none { IfNone result ((self.old.staged ≡ None) × (self.new.table ≡ self.old.table)) }
        ensures free { self.new.staged ≡ None }
    {
        let Plan {
            caps,
            share,
            instructions,
            next_filter,
            made,
            op: _op,
        } = self.plan.take()?;
        change_caps(&mut self.caps, caps);
        self.shares.change(share);
        self.filters.perform();
        self.instructions = instructions;
        self.next_filter = next_filter;
        self.version += 1;
        Some(made)
    }

    /// Gives up what is planned. Takes no memory.
    pub(crate) fn forget(&mut self)
        ensures { self.new ≡ record { table = self.old.table; staged = None } }
    {
        self.plan = None;
        self.caps.forget();
        self.filters.forget();
    }

    /// The id that the next filter gets after an operation.
    #[tactic(auto, unfolding(filter_table::specs::Tables::after), using(filter_table::proofs::Changes::filter_id_room))]
    fn next_filter_after(&self, op: &Op) -> u32
        requires { (budget : ℕ) × (first (tests self.now.table budget op.now) ≡ None) }
        ensures { result ≡ (after self.now.table op.now).next_filter }
    {
        match op {
            Op::Install { .. } => self.next_filter + 1,
            _ => self.next_filter,
        }
    }

    /// The instructions of all filters after an operation that no test refuses.
    #[tactic(auto, unfolding(filter_table::specs::Tables::after))]
    fn instructions_after(&self, op: &Op) -> u32
        requires allowed { (budget : ℕ) × (budget < 4294967296) × (first (tests self.now.table budget op.now) ≡ None) }
        requires sound { IsSoundTable self.now.table }
        ensures { result ≡ instructions_of (after self.now.table op.now).filters }
    {
        match op {
            Op::Install { program, .. } => self.instructions + program.as_slice().len() as u32,
            Op::Remove { filter, .. } => self.instructions_without(*filter),
            Op::Replace {
                filter,
                program,
                ..
            } => self.instructions_without(*filter) + program.as_slice().len() as u32,
            _ => self.instructions,
        }
    }

    /// What its domain has after an operation that no test refuses, if it changes that. No other domain has more or less.
    #[tactic(auto, unfolding(filter_table::specs::Tables::after))]
    fn share_after(&self, op: &Op) -> Option<NewShare>
        requires allowed { (budget : ℕ) × (budget < 4294967296) × (first (tests self.now.table budget op.now) ≡ None) }
        requires sound { IsSoundTable self.now.table }
        ensures { IsNewShare self.now.table.filters (after self.now.table op.now).filters result }
    {
        let _next = self.next_filter;
        match op {
            Op::Install {
                domain,
                program,
                ..
            } => Some(NewShare {
                domain: *domain,
                share: self.share(*domain).with_one(program.as_slice()),
            }),
            Op::Remove { domain, filter } => Some(NewShare {
                domain: *domain,
                share: self.share_without(*domain, *filter),
            }),
            Op::Replace {
                domain,
                filter,
                program,
            } => {
                let left = self.share_without(*domain, *filter);
                Some(NewShare {
                    domain: *domain,
                    share: left.with_one(program.as_slice()),
                })
            }
            Op::Create { .. } | Op::Mint { .. } | Op::Revoke { .. } | Op::DropCap { .. } => None,
        }
    }
}

/// Gives back all that capabilities hold: none is held.
// Not in line, so that what they held is on the stack no longer than this.
#[inline(never)]
fn clear_caps(alloc: Global, caps: &mut Caps)
    ensures { caps.new.table ≡ record { held = []; next = caps.old.table.next } }
{
    *caps = Caps::resume(alloc, caps.next());
}

/// The program that an operation brings, verified.
#[inline(never)]
fn verified(alloc: Global, op: &Op) -> Result<Option<Verified>, StageFault>
    ensures ok { IfOk result (λ program. program ≡ program_of op.now) }
    ensures sound { OnOk result (Verifies (program_of op.now) None) }
    ensures err { IfErr result (RefusesAs (program_of op.now)) }
{
    match op {
        Op::Install { program, .. } | Op::Replace { program, .. } => {
            let program = accepted(alloc, program.as_slice())?;
            Ok(Some(program))
        }
        _ => Ok(None),
    }
}

/// A program, verified.
fn accepted(alloc: Global, code: &[Insn]) -> Result<Verified, StageFault>
    ensures ok { IfOk result (λ program. program ≡ code.now) }
    ensures sound { OnOk result (Sound code.now) }
    ensures err { IfErr result (RefusesAs (Some code.now)) }
{
    match verify(alloc, code) {
        Ok(program) => Ok(program),
        Err(Refusal::NoMemory) => Err(StageFault::NoMemory),
        Err(refusal) => Err(StageFault::Rule(bad_program(code, &refusal))),
    }
}

/// Whether the program that an operation brings is accepted, memory aside. Takes no memory.
// Not in line, so that the room of the verifier isn't there while an operation is staged.
#[inline(never)]
fn program_accepted(op: &Op) -> Result<(), StageFault>
    ensures ok { OnOk result (Verifies (program_of op.now) None) }
    ensures err { IfErr result (RefusesAs (program_of op.now)) }
    ensures memory { result ≡ Err StageFault.NoMemory → ⊥ }
{
    match op {
        Op::Install { program, .. } | Op::Replace { program, .. } => { accepts(program.as_slice()) }
        _ => Ok(()),
    }
}

/// Whether a program is accepted, memory aside. Takes no memory.
fn accepts<C: Code>(code: C) -> Result<(), StageFault>
    ensures ok { OnOk result (Verifies (Some (C.insns code)) None) }
    ensures err { IfErr result (RefusesAs (Some (C.insns code))) }
    ensures memory { result ≡ Err StageFault.NoMemory → ⊥ }
{
    match check(code) {
        Ok(()) => Ok(()),
        Err(breach) => Err(StageFault::Rule(OpFault::BadProgram {
            rule: breach.rule,
            pc: breach.pc as u16,
        })),
    }
}

/// The verifier's refusal as a rule that an operation breaks.
#[tactic(auto, using(crate::proofs::Places::place_below))]
fn bad_program(code: &[Insn], refusal: &Refusal) -> OpFault
    requires { Refuses code.now refusal.now }
    ensures { result ≡ OpFault.BadProgram (number_of refusal.now) (place_of refusal.now) }
{
    OpFault::BadProgram {
        rule: refusal.number(),
        pc: refusal.place() as u16,
    }
}
