//! What holds of the histories of a machine's cores: laws, each the contract of a function that does nothing.

ghost use Rattle.std.specs.Prelude.{◌≡◌, ◌∷◌, ◌++◌, List, Some, slice_get, ℕ};
ghost use Rattle.filter_table.specs.Limits.{TableLimits};
ghost use Rattle.filter_table.specs.declared.decision.Decision.{Decision};
ghost use Rattle.world_events.specs.declared.event.Answer.TheVariants.{TookReply};
ghost use Rattle.world_histories.specs.declared.history.Stamped.{Stamped};
ghost use Rattle.world_histories.specs.Histories.{Core0State, OtherState, Computation};
ghost use Rattle.world_histories.specs.Merging.{Merged, IsRun};
ghost use Rattle.world_histories.specs.Agreement.{HistoriesAgree};
ghost use Rattle.world_histories.specs.Answers.{InRun, Replied};
ghost use Rattle.world_histories.specs.Decisions.{DecidesAs};

/// Whatever the order in time was, each core is at a version of one log, which core 0 commits: what it committed was allowed, its
/// tables are sound and within every core's budget, and each packet went to the endpoints that accept it at its core's version.
pub fn histories_agree()
    ensures { (limits : TableLimits) (budget : ℕ) (budgets : List ℕ) (core0 : List Stamped) (others : List (List Stamped)) (end : Core0State) (ends : List OtherState) →
        Computation limits budget budgets core0 others end ends → HistoriesAgree limits budget budgets core0 others end ends }
{}

/// In order of their stamps, then of their cores, the events of the histories make one list, and it is a run of the machine that
/// ends where the cores end. The histories alone tell where that is, and so what the log is.
pub fn histories_are_one_run()
    ensures there_is { (limits : TableLimits) (budget : ℕ) (budgets : List ℕ) (core0 : List Stamped) (others : List (List Stamped)) (end : Core0State) (ends : List OtherState) →
        Computation limits budget budgets core0 others end ends → (merged : List Stamped) × Merged core0 others merged }
    ensures once { (core0 : List Stamped) (others : List (List Stamped)) (merged again : List Stamped) →
        Merged core0 others merged → Merged core0 others again → merged ≡ again }
    ensures run { (limits : TableLimits) (budget : ℕ) (budgets : List ℕ) (core0 : List Stamped) (others : List (List Stamped)) (end : Core0State) (ends : List OtherState) (merged : List Stamped) →
        Computation limits budget budgets core0 others end ends → Merged core0 others merged → IsRun limits budget budgets merged end ends }
    ensures one_end { (limits : TableLimits) (budget : ℕ) (budgets : List ℕ) (core0 : List Stamped) (others : List (List Stamped)) (end again : Core0State) (ends ends_again : List OtherState) →
        Computation limits budget budgets core0 others end ends → Computation limits budget budgets core0 others again ends_again → (end ≡ again) × (ends ≡ ends_again) }
{}

/// Each event of each core's history is an event of the one run, which has before it fronts of all histories, and all that came
/// before in this core's. Read off the histories alone: a commit is the log's next entry, by the votes of all, and a refusal has a
/// reason that holds, or is the veto of the least core that voted against. A core that takes a Reply takes what core 0 decided on
/// its one request, the last that it submitted, and stands exactly at its version.
pub fn answers_are_right()
    ensures in_run { (limits : TableLimits) (budget : ℕ) (budgets : List ℕ) (core0 : List Stamped) (others : List (List Stamped)) (end : Core0State) (ends : List OtherState) (merged : List Stamped)
        (core : ℕ) (history before after : List Stamped) (s : Stamped) → Computation limits budget budgets core0 others end ends → Merged core0 others merged →
        slice_get (core0 ∷ others) core ≡ Some history → history ≡ before ++ s ∷ after → InRun limits budget budgets core0 others end.log merged core before s }
    ensures decided { (limits : TableLimits) (budget : ℕ) (budgets : List ℕ) (core0 : List Stamped) (others : List (List Stamped)) (end : Core0State) (ends : List OtherState) → Computation limits budget budgets core0 others end ends →
        (before after : List Stamped) (s : Stamped) → core0 ≡ before ++ s ∷ after → DecidesAs limits budget budgets others end.log before s }
    ensures replied { (limits : TableLimits) (budget : ℕ) (budgets : List ℕ) (core0 : List Stamped) (others : List (List Stamped)) (end : Core0State) (ends : List OtherState) → Computation limits budget budgets core0 others end ends →
        (entry : ℕ) (history before after : List Stamped) (s : Stamped) (decision : Decision) →
        slice_get others entry ≡ Some history → history ≡ before ++ s ∷ after → s.done.answer ≡ TookReply decision → Replied core0 limits end.log entry before decision }
{}
