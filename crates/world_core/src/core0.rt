//! Core 0, with what proofs say of it.

ghost use Rattle.std.specs.Prelude.{◌≡◌, ◌<◌, ◌≤◌, ℕ, suc, None, [], IfOk};
ghost use Rattle.filter_table.specs.declared.operation.Op.{Op as GhostOp};
ghost use Rattle.filter_table.specs.Tables.{empty_table};
ghost use Rattle.two_phase.specs.Coordinators.{Idle, no_requests};
ghost use Rattle.monitor_2pc.specs.Starting.{WasStaged};
ghost use Rattle.world_model.specs.Agreement.{Expects};
ghost use Rattle.world_model.specs.Cases.{outgoing};
ghost use Rattle.core_steps.specs.Core0Steps.{core0_place, HasWaiting, start_sends, start_for_sends};
ghost use Rattle.world_core.specs.LoggedCore0s.{Core0IsKept, Core0IsIdle, Core0Starts, Core0StartsFor, Core0Takes, begun_op, logged, begun_by, entered, still_begun};

use core_steps::{Core0, Told};
use filter_table::{Limits, Op, StageFault};
use ghost_log::Log;
use monitor_2pc::{Decision, MOST_CORES, Message};
use std::alloc::{AllocError, Global};
use std::snapshot::Snapshot;

/// Core 0, and what proofs say of it beside: the log, and the operation under vote.
pub(crate) struct LoggedCore0 {
    pub(crate) core: Core0,
    /// What was committed, in order.
    pub(crate) log: Log<Op>,
    /// The operation under vote, which enters the log if it is committed.
    pub(crate) begun: Option<Snapshot<Op>>,
}

// By hand, so that the proofs of its owners have one call and not a drop of each part.
impl Drop for LoggedCore0 {
    fn drop(self) {
        let LoggedCore0 {
            core: _,
            log: _,
            begun: _,
        } = self;
    }
}

impl LoggedCore0 {
    /// Core 0 that has done nothing yet, beside so many others.
    pub(crate) fn new(
        alloc: Global,
        limits: Limits,
        budget: u32,
        others: u16,
    ) -> Result<LoggedCore0, AllocError>
        requires { others < MOST_CORES }
        ensures log { IfOk result (λ core0. core0.log.items ≡ []) }
        ensures replica { IfOk result (λ core0. core0.core.replica ≡ record { budget = budget; shown = empty_table limits; staged = None }) }
        ensures coordinator { IfOk result (λ core0. core0.core.coordinator ≡ record { others = others; last = 0; phase = Idle; requests = no_requests others }) }
        ensures begun { IfOk result (λ core0. core0.begun ≡ None) }
    {
        Ok(LoggedCore0 {
            core: Core0::new(alloc, limits, budget, others + 1)?,
            log: Log::new(),
            begun: None,
        })
    }

    /// Starts a request, which core 0 was asked to stage with this outcome.
    pub(crate) fn begin(&mut self, op: &Op, refusal: Option<StageFault>) -> Told
        requires idle { Core0IsIdle self.old }
        requires tried { WasStaged self.old.core.replica op.now refusal }
        ensures starts { Core0Starts self.old op.now self.new result }
        ensures sends { outgoing result.step (core0_place self.new.core) ≡ start_sends self.old.core op.now refusal }
    {
        let told = self.core.begin(refusal);
        self.note(Snapshot::of(op), told.step.decided);
        told
    }

    /// Starts the request that the core has waiting, which core 0 was asked to stage with this outcome. There are other cores.
    pub(crate) fn begin_for(&mut self, core: u16, refusal: Option<StageFault>) -> Told
        requires idle { Core0IsIdle self.old }
        requires others { 0 < self.old.core.coordinator.others }
        requires waits { (entry : ℕ) × (op : GhostOp) × HasWaiting self.old.core core entry op × WasStaged self.old.core.replica op refusal }
        ensures starts { (entry : ℕ) → core ≡ suc entry → Core0StartsFor self.old entry self.new result }
        ensures sends { (entry : ℕ) (op : GhostOp) → HasWaiting self.old.core core entry op → outgoing result.step (core0_place self.new.core) ≡ start_for_sends entry self.old.core op refusal }
    {
        let Some(op) = self.core.coordinator.waiting(core) else {
            unreachable!()
        };
        let op = Snapshot::of(op);
        let told = self.core.begin_for(core, refusal);
        self.note(op, told.step.decided);
        told
    }

    /// Keeps the operation as begun, or enters it into the log where it is committed at once.
    fn note(&mut self, op: Snapshot<Op>, decided: Option<Decision>)
        ensures log { self.new.log.items ≡ logged self.old.log.items op.value decided }
        ensures begun { begun_op self.new.begun ≡ begun_by (begun_op self.old.begun) op.value decided }
        ensures core { self.new.core ≡ self.old.core }
    {
        match decided {
            None => self.begun = Some(op),
            Some(Decision::Committed { .. }) => self.log = self.log.and(&op),
            Some(Decision::Refused { .. }) => {}
        }
    }

    /// Takes a message that core 0 waits for.
    pub(crate) fn take(&mut self, from: u16, message: Message) -> Told
        requires kept { Core0IsKept self.old }
        requires expects { (entry : ℕ) × (from ≡ suc entry) × Expects (core0_place self.old.core) self.old.core.coordinator.requests entry message }
        ensures { Core0Takes self.old from message self.new result }
    {
        let Ok(told) = self.core.take(from, message) else {
            unreachable!()
        };
        self.enter(told.step.decided);
        told
    }

    /// Enters the operation under vote into the log where it is committed.
    fn enter(&mut self, decided: Option<Decision>)
        ensures log { self.new.log.items ≡ entered self.old.log.items (begun_op self.old.begun) decided }
        ensures begun { begun_op self.new.begun ≡ still_begun (begun_op self.old.begun) decided }
        ensures core { self.new.core ≡ self.old.core }
    {
        let Some(decision) = decided else {
            return;
        };
        if let (Decision::Committed { .. }, Some(op)) = (decision, &self.begun) {
            self.log = self.log.and(op);
        }
        self.begun = None;
    }
}
