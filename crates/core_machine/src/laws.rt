//! Laws of the cores of one machine, each the contract of a function that does nothing.

ghost use Rattle.std.specs.Prelude.{◌<◌, ℕ, List, length};
ghost use Rattle.filter_table.specs.Limits.{TableLimits};
ghost use Rattle.core_machine.specs.Machines.{RingCore, IsMachine, AreSameCores};
ghost use Rattle.core_machine.specs.Ahead.{work_ahead};
ghost use Rattle.core_machine.specs.Rounds.{AreSeen, AreAtRest, Rounds, SomeRests};
ghost use Rattle.core_machine.specs.Naming.{Awake, AllAwake, NoneAwake, NamedTurn, NamedTurns, turns_ahead};

/// The cores of a machine are its cores still, after any calls that keep each of them on its rings and its queue.
pub fn cores_stay_a_machine()
    ensures { (limits : TableLimits) (budget : ℕ) (budgets : List ℕ) (old new : List RingCore) → IsMachine limits budget budgets old → AreSameCores old new → IsMachine limits budget budgets new }
{}

/// Whatever the order of the turns in each round, and however many a core takes, of more rounds than the work ahead one leaves the cores at rest.
pub fn fair_rounds_settle()
    ensures { (limits : TableLimits) (budget : ℕ) (budgets : List ℕ) (rounds : ℕ) (old first last : List RingCore) → IsMachine limits budget budgets old → AreSeen old first → Rounds rounds first last → work_ahead first < rounds → SomeRests rounds first last }
{}

/// It is enough to turn the cores that have something to do: each that was asked, each that a turn of another core named, and each whose own turn
/// did an event. Where there is none, all are at rest; and each turn of one leaves fewer turns ahead, so without new requests there is none in the
/// end. At first all have something to do, and the cores are looked at after each turn.
pub fn named_turns_settle()
    ensures rests { (limits : TableLimits) (budget : ℕ) (budgets : List ℕ) (steps : ℕ) (awake awake' : Awake) (old first last : List RingCore) → IsMachine limits budget budgets old → AreSeen old first → AllAwake awake → NamedTurns steps awake awake' first last → NoneAwake (length last) awake' → AreAtRest last }
    ensures fewer { (limits : TableLimits) (budget : ℕ) (budgets : List ℕ) (steps : ℕ) (awake between awake' : Awake) (old first mid last : List RingCore) → IsMachine limits budget budgets old → AreSeen old first → AllAwake awake → NamedTurns steps awake between first mid → NamedTurn between awake' mid last → turns_ahead awake' last < turns_ahead between mid }
{}
