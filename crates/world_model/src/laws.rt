//! What holds of every run: laws, each the contract of a function that does nothing.

ghost use Rattle.std.specs.Prelude.{List, ℕ};
ghost use Rattle.filter_table.specs.Limits.{TableLimits};
ghost use Rattle.world_model.specs.Worlds.{World, Run, Happens};
ghost use Rattle.world_model.specs.Agreement.{Agrees, TellsVersions, Grows, IsSoundLog, NoStranger};
ghost use Rattle.world_model.specs.Decisions.{Delivers, DecidesRightly, RepliesRightly, WaitsRightly};
ghost use Rattle.world_events.specs.declared.event.Answer.{Answer};
ghost use Rattle.world_events.specs.declared.event.Done.{Done};
ghost use Rattle.world_events.specs.declared.event.Event.{Event};

/// In every run the replicas agree within the budgets, no core meets a message that it does not wait for, and versions and log
/// only grow. The version of a core is how often it committed, read off the events.
pub fn replicas_agree()
    ensures agree { (limits : TableLimits) (budget : ℕ) (budgets : List ℕ) (events : List Done) (w : World) → Run limits budget budgets events w → Agrees limits budget budgets w }
    ensures no_stranger { (limits : TableLimits) (budget : ℕ) (budgets : List ℕ) (events : List Done) (w : World) → Run limits budget budgets events w → NoStranger w }
    ensures growing { (limits : TableLimits) (budget : ℕ) (budgets : List ℕ) (events : List Done) (w w' : World) (event : Event) (answer : Answer) →
        Run limits budget budgets events w → Happens w event w' answer → Grows w w' }
    ensures versions { (limits : TableLimits) (budget : ℕ) (budgets : List ℕ) (events : List Done) (w : World) → Run limits budget budgets events w → TellsVersions events w }
{}

/// In every run each table that the log makes is sound: ids increase, each program is one that the verifier accepts, and a filter's
/// owner holds the filter's capability for as long as anybody does. No later table gives out an id again.
pub fn tables_are_sound()
    ensures { (limits : TableLimits) (budget : ℕ) (budgets : List ℕ) (events : List Done) (w : World) → Run limits budget budgets events w → IsSoundLog w.limits w.log }
{}

/// In every run each packet is handed to the endpoints that accept it at the version that its core had.
pub fn packets_are_delivered()
    ensures { (limits : TableLimits) (budget : ℕ) (budgets : List ℕ) (events : List Done) (w : World) → Run limits budget budgets events w → Delivers w.limits w.log events }
{}

/// In every run each decision is right: a commit is the next entry of the log, by the votes of all, and a refusal has a reason
/// that holds, or is the veto of the least core that voted against.
pub fn decisions_are_right()
    ensures { (limits : TableLimits) (budget : ℕ) (budgets : List ℕ) (events : List Done) (w w' : World) (event : Event) (answer : Answer) →
        Run limits budget budgets events w → Happens w event w' answer → DecidesRightly events w event w' answer }
{}

/// In every run a Reply carries the decision of the one request that it answers; where that is committed, the request is the
/// named entry of the log, and the core that takes the Reply stands exactly at its version. What waits on core 0 is the
/// operation of its core's last request.
pub fn replies_are_right()
    ensures replies { (limits : TableLimits) (budget : ℕ) (budgets : List ℕ) (events : List Done) (w w' : World) (event : Event) (answer : Answer) →
        Run limits budget budgets events w → Happens w event w' answer → RepliesRightly events w event answer }
    ensures waits { (limits : TableLimits) (budget : ℕ) (budgets : List ℕ) (events : List Done) (w : World) → Run limits budget budgets events w → WaitsRightly events w }
{}
