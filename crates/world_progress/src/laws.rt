//! Laws, each the contract of a function that does nothing.

ghost use Rattle.std.specs.Prelude.{◌≡◌, ℕ, All, List, map};
ghost use Rattle.filter_table.specs.Limits.{TableLimits};
ghost use Rattle.world_events.specs.declared.event.Answer.{Answer};
ghost use Rattle.world_events.specs.declared.event.Done.{Done};
ghost use Rattle.world_events.specs.declared.event.Event.{Event};
ghost use Rattle.world_events.specs.declared.fault.WorldFault.{WorldFault};
ghost use Rattle.world_events.specs.Memory.{LacksMemory, HadMemory};
ghost use Rattle.world_model.specs.Worlds.{World, Happens, Runs, Run};
ghost use Rattle.world_model.specs.Refusals.{StandsFirst, AllQuiet, Settles};
ghost use Rattle.world_progress.specs.Progress.{DoneOrRefused, SettlesAmply};

/// In every run each event can be done with no core out of memory, or a fault stands, and not both. The fault is the only one.
pub fn events_are_done_or_refused()
    ensures some { (limits : TableLimits) (budget : ℕ) (budgets : List ℕ) (events : List Done) (w : World) (event : Event) → Run limits budget budgets events w → DoneOrRefused w event }
    ensures one { (limits : TableLimits) (budget : ℕ) (budgets : List ℕ) (events : List Done) (w w' : World) (event : Event) (answer : Answer) (fault : WorldFault) →
        Run limits budget budgets events w → Happens w event w' answer → StandsFirst w event fault → ⊥ }
    ensures fault { (w : World) (event : Event) (fault other : WorldFault) → StandsFirst w event fault → StandsFirst w event other → fault ≡ other }
{}

/// From one world the events of a run alone tell their answers and the world at its end, unless a core is out of memory: two runs
/// of the same events are the same where core 0 refused no request for lack of memory in either, and each core that voted so was
/// short of memory by its event.
pub fn answers_follow_from_events()
    ensures event { (w w1 w2 : World) (event : Event) (a1 a2 : Answer) → Happens w event w1 a1 → Happens w event w2 a2 →
        (LacksMemory event a1 → ⊥) → (LacksMemory event a2 → ⊥) → (a1 ≡ a2) × (w1 ≡ w2) }
    ensures runs { (w w1 w2 : World) (done1 done2 : List Done) → Runs w done1 w1 → Runs w done2 w2 →
        map (λ done. done.event) done1 ≡ map (λ done. done.event) done2 → All HadMemory done1 → All HadMemory done2 → (done1 ≡ done2) × (w1 ≡ w2) }
{}

/// From the world of every run all messages can be taken in order, with no core out of memory, until none is left. Where no core is
/// out of memory, those takes with their answers are the only ones, and so is the world in which they end.
pub fn settling_ends()
    ensures some { (limits : TableLimits) (budget : ℕ) (budgets : List ℕ) (events : List Done) (w : World) → Run limits budget budgets events w → SettlesAmply w }
    ensures one { (w w1 w2 : World) (taken1 taken2 : List Done) → Settles w taken1 w1 → AllQuiet w1 → All HadMemory taken1 →
        Settles w taken2 w2 → AllQuiet w2 → All HadMemory taken2 → (taken1 ≡ taken2) × (w1 ≡ w2) }
{}
