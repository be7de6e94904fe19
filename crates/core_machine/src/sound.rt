//! A law of cores whose links carried only what was sent.

ghost use Rattle.std.specs.Prelude.{◌≡◌, ℕ, suc, List, Some, length, slice_get};
ghost use Rattle.filter_table.specs.Limits.{TableLimits};
ghost use Rattle.core_links.specs.Views.{LinkView};
ghost use Rattle.core_links.specs.Flows.{Flow, IsExact};
ghost use Rattle.core_steps.specs.declared.core0.Core0.{Core0};
ghost use Rattle.core_steps.specs.declared.other_core.OtherCore.{OtherCore};
ghost use Rattle.world_histories.specs.declared.history.Stamped.{Stamped};
ghost use Rattle.world_histories.specs.Histories.{Core0State, OtherState};
ghost use Rattle.core_loop.specs.declared.part.Part.TheVariants as part;
ghost use Rattle.core_loop.specs.declared.cause.Cause.{Cause};
ghost use Rattle.core_loop.specs.Keeping.{IsCore0, IsOtherCore};
ghost use Rattle.core_loop.specs.Taking.{StopsAt};
ghost use Rattle.filter_table.specs.declared.operation.Op.{Op};
ghost use Rattle.core_machine.specs.Beside.{StandBeside, Idles0, IsStillCore, NothingIsLeft};

/// Where cores stand at the ends of their histories, and of each link between core 0 and another what was taken and is kept begins what was sent,
/// nothing over that link stops either.
pub fn no_core_stops()
    ensures other { (limits : TableLimits) (budget : ℕ) (budgets : List ℕ) (h0 : List Stamped) (hs : List (List Stamped)) (view0 : ℕ → LinkView) (views : List (ℕ → LinkView)) (end : Core0State) (ends : List OtherState) → StandBeside limits budget budgets h0 hs view0 views end ends →
        (i b : ℕ) (h : List Stamped) (v : ℕ → LinkView) (d : OtherState) (core : OtherCore) (cores clock capacity : ℕ) (out come : Flow) (cause : Cause) → slice_get budgets i ≡ Some b → slice_get hs i ≡ Some h → slice_get views i ≡ Some v → slice_get ends i ≡ Some d →
        IsOtherCore core clock d → core.replica.budget ≡ b → IsExact capacity (view0 (suc i)) (v 0) out come → StopsAt cores clock 0 (part.OtherCore core) v cause → ⊥ }
    ensures first { (limits : TableLimits) (budget : ℕ) (budgets : List ℕ) (h0 : List Stamped) (hs : List (List Stamped)) (view0 : ℕ → LinkView) (views : List (ℕ → LinkView)) (end : Core0State) (ends : List OtherState) → StandBeside limits budget budgets h0 hs view0 views end ends →
        (i b : ℕ) (h : List Stamped) (v : ℕ → LinkView) (d : OtherState) (core : Core0) (cores clock capacity : ℕ) (out come : Flow) (cause : Cause) → slice_get budgets i ≡ Some b → slice_get hs i ≡ Some h → slice_get views i ≡ Some v → slice_get ends i ≡ Some d →
        IsCore0 (length budgets) core clock end → IsExact capacity (v 0) (view0 (suc i)) out come → StopsAt cores clock (suc i) (part.Core0 core) view0 cause → ⊥ }
{}

/// Where in a round no core did an event and no line moved, nothing is left to do: each request is decided, all cores are at rest, none has a
/// request to begin, and every ring is empty.
pub fn a_still_machine_is_at_rest()
    ensures { (limits : TableLimits) (budget : ℕ) (budgets : List ℕ) (h0 : List Stamped) (hs : List (List Stamped)) (view0 : ℕ → LinkView) (views : List (ℕ → LinkView)) (end : Core0State) (ends : List OtherState) → StandBeside limits budget budgets h0 hs view0 views end ends →
        (core0 : Core0) (clock0 : ℕ) (pending0 : List Op) (core : ℕ → OtherCore) (pending : ℕ → List Op) (f0 f0' g g' : ℕ → Flow) → IsCore0 (length budgets) core0 clock0 end → Idles0 (length budgets) core0 pending0 view0 f0' →
        ((i : ℕ) (v : ℕ → LinkView) (d : OtherState) → slice_get views i ≡ Some v → slice_get ends i ≡ Some d → IsStillCore (length budgets) i (core i) (pending i) d view0 v f0 f0' (g i) (g' i)) → NothingIsLeft view0 views end ends pending0 pending f0' g' }
{}
