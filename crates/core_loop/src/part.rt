//! A core's part in the protocol.

use core_steps::{Core0, OtherCore};
use filter_table::Limits;
use std::alloc::{AllocError, Global};
use std::marker::Model;
use table_replica::Replica;

/// Core 0 coordinates; every other core takes part. Each has its replica of the table.
#[derive(Drop)]
pub(crate) enum Part {
    Core0(Core0),
    OtherCore(OtherCore),
}

impl Part {
    ghost use Rattle.std.specs.Prelude.{◌≡◌};
    ghost use Rattle.core_loop.specs.Keeping.{replica_of};

    /// The core's replica.
    pub(crate) fn replica(&self) -> &Replica
        ensures { result.now ≡ replica_of self.now }
    {
        match self {
            Part::Core0(core) => &core.replica,
            Part::OtherCore(core) => &core.replica,
        }
    }

    /// Gives back what the replica holds.
    fn clear(&mut self, alloc: Global) {
        match self {
            Part::Core0(core) => core.replica.clear(alloc),
            Part::OtherCore(core) => core.replica.clear(alloc),
        }
    }

    /// Gives up a part whose replica holds no memory.
    #[inline(always)]
    fn drop_cleared(self) {
        match self {
            Part::Core0(core) => core.drop_cleared(),
            Part::OtherCore(core) => core.drop_cleared(),
        }
    }
}

/// A core's part on the heap, so that a core is small and its moves take little of the stack.
pub(crate) struct BoxedPart {
    pub(crate) inner: Box<Part>,
}

// By hand, so that the proofs of its owners have one call and not a drop of each part.
impl Drop for BoxedPart {
    // Not in line, so that its room on the stack isn't there for the rest of a core. A box that is dropped has its content on the
    // stack: so the replica, which is most of it, is cleared where it lies.
    #[inline(never)]
    fn drop(self) {
        let BoxedPart { mut inner } = self;
        let alloc = *Box::allocator(&inner);
        inner.clear(alloc);
        Box::into_inner(inner).drop_cleared();
    }
}

impl Model for BoxedPart {
    ghost use Rattle.std.specs.Box.{box_value};
    ghost use Rattle.core_loop.specs.declared.part.Part.{Part};

    ghost Value = { Part };

    ghost view = { λ a. box_value a.inner };
}

impl BoxedPart {
    ghost use Rattle.std.specs.Prelude.{◌≡◌, ◌<◌, ◌≤◌, [], ℕ, IfOk};
    ghost use Rattle.core_links.specs.Views.{LinkView};
    ghost use Rattle.two_phase.specs.declared.most.TheConstants.{MOST_CORES};
    ghost use Rattle.core_loop.specs.Keeping.{IsStanding};
    ghost use Rattle.core_loop.specs.Standing.{IsSilent};
    ghost use Rattle.core_loop.specs.Keeping.{replica_of};
    ghost use Rattle.core_loop.specs.Answering.{count_if, under_way};
    ghost use Rattle.core_loop.specs.Owning.{asks_itself};

    /// The part of a core of this number, which has done nothing yet.
    // Not in line: what it needs of the stack is free again before the core is put together.
    #[inline(never)]
    pub(crate) fn new(
        alloc: Global,
        limits: Limits,
        budget: u32,
        number: u16,
        cores: u16,
    ) -> Result<BoxedPart, AllocError>
        requires number { number < cores }
        requires cores { cores ≤ MOST_CORES }
        ensures stands { IfOk result (λ boxed. (view : ℕ → LinkView) → ((peer : ℕ) → IsSilent (view peer)) → IsStanding boxed number cores 0 [] view) }
        ensures limits { IfOk result (λ boxed. (replica_of boxed).shown.limits ≡ limits) }
        ensures budget { IfOk result (λ boxed. (replica_of boxed).budget ≡ budget) }
    {
        if number == 0 {
            BoxedPart::core_0(alloc, limits, budget, cores)
        } else {
            BoxedPart::other_core(alloc, limits, budget, number, cores)
        }
    }

    /// Core 0's part.
    // Not in line, so that the stack has one part at a time.
    #[inline(never)]
    fn core_0(
        alloc: Global,
        limits: Limits,
        budget: u32,
        cores: u16,
    ) -> Result<BoxedPart, AllocError>
        requires least { 1 ≤ cores }
        requires most { cores ≤ MOST_CORES }
        ensures stands { IfOk result (λ boxed. (view : ℕ → LinkView) → ((peer : ℕ) → IsSilent (view peer)) → IsStanding boxed 0 cores 0 [] view) }
        ensures limits { IfOk result (λ boxed. (replica_of boxed).shown.limits ≡ limits) }
        ensures budget { IfOk result (λ boxed. (replica_of boxed).budget ≡ budget) }
    {
        // By cases, since `?` has the core on the stack once more.
        match Core0::new(alloc, limits, budget, cores) {
            Ok(core) => {
                let boxed = BoxedPart::of(alloc, Part::Core0(core))?;
                Ok(boxed)
            }
            Err(error) => Err(error),
        }
    }

    /// The part of the other core with this number.
    #[inline(never)]
    fn other_core(
        alloc: Global,
        limits: Limits,
        budget: u32,
        number: u16,
        cores: u16,
    ) -> Result<BoxedPart, AllocError>
        requires other { 1 ≤ number }
        requires number { number < cores }
        requires cores { cores ≤ MOST_CORES }
        ensures stands { IfOk result (λ boxed. (view : ℕ → LinkView) → ((peer : ℕ) → IsSilent (view peer)) → IsStanding boxed number cores 0 [] view) }
        ensures limits { IfOk result (λ boxed. (replica_of boxed).shown.limits ≡ limits) }
        ensures budget { IfOk result (λ boxed. (replica_of boxed).budget ≡ budget) }
    {
        // By cases, since `?` has the core on the stack once more.
        match OtherCore::new(alloc, limits, budget) {
            Ok(core) => {
                let boxed = BoxedPart::of(alloc, Part::OtherCore(core))?;
                Ok(boxed)
            }
            Err(error) => Err(error),
        }
    }

    /// This part, whose replica holds no memory yet.
    // In line, so that the part isn't copied on the stack once more.
    #[inline(always)]
    fn of(alloc: Global, part: Part) -> Result<BoxedPart, AllocError>
        ensures { IfOk result (λ boxed. boxed ≡ part) }
    {
        match Box::new(alloc, part) {
            Ok(inner) => Ok(BoxedPart { inner }),
            Err(refused) => {
                refused.value.drop_cleared();
                Err(AllocError)
            }
        }
    }

    /// Whether core 0 has no request of another core under way.
    pub(crate) fn asks_itself(&self) -> bool
        ensures { result ≡ asks_itself self.now }
    {
        match &*self.inner {
            Part::Core0(core) => core.coordinator.asker().is_none(),
            Part::OtherCore(_) => false,
        }
    }

    /// Whether a request of the core's own is begun and not decided.
    pub(crate) fn has_under_way(&self) -> bool
        ensures { count_if result ≡ under_way self.now }
    {
        match &*self.inner {
            Part::Core0(core) => core.coordinator.voting() && core.coordinator.asker().is_none(),
            Part::OtherCore(core) => core.participant.outstanding(),
        }
    }

    /// The core's replica.
    pub(crate) fn replica(&self) -> &Replica
        ensures { result.now ≡ replica_of self.now }
    {
        self.inner.replica()
    }
}
