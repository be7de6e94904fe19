//! Laws, each the contract of a function that does nothing.

ghost use Rattle.std.specs.Prelude.{◌≡◌, ◌≤◌, ◌+◌, ◌*◌, ◌⊎◌, ◌∷◌, ℕ, List, Some, length, slice_get};
ghost use Rattle.filter_table.specs.Limits.{TableLimits};
ghost use Rattle.filter_table.specs.declared.operation.Op.{Op};
ghost use Rattle.two_phase.specs.Coordinators.{Idle};
ghost use Rattle.world_events.specs.declared.event.Answer.{Answer};
ghost use Rattle.world_model.specs.Cases.{outgoing};
ghost use Rattle.world_events.specs.declared.event.Done.{Done};
ghost use Rattle.world_model.specs.Worlds.{Peer, World, HappensUp, Happens, Runs, Run};
ghost use Rattle.world_histories.specs.declared.history.Stamped.{Stamped};
ghost use Rattle.world_histories.specs.Histories.{Core0State, OtherState, Computation};
ghost use Rattle.world_model.specs.Refusals.{AllQuiet};
ghost use Rattle.world_progress.specs.Remaining.{steps_left, is_step, is_request, steps, requests, per_request, total, NoneWaits, IsAtRest, HasNothingLeft, CanGoOn, HasNoNumber, SendsToEmpty, HasReplyAtMost, NextIsAwaited, SendsToReady, HasTakenAll, AreAtRest, LastWordsComeLast};

/// Each step of a run leaves at least one step less, but for what a request brings.
pub fn each_step_leaves_less()
    ensures { (limits : TableLimits) (budget : ℕ) (budgets : List ℕ) (before : List Done) (w w' : World) (done : Done) → Run limits budget budgets before w → Happens w done.event w' done.answer →
        steps_left w' + is_step done.event ≤ steps_left w + per_request (length budgets) * is_request done.event }
{}

/// The steps of a run, with those that it has left, are at most four for each core and request that was begun. From any of its worlds on, whatever
/// the order of the events, they are at most those left there and those that the requests begun from then on bring.
pub fn steps_are_bounded()
    ensures run { (limits : TableLimits) (budget : ℕ) (budgets : List ℕ) (events : List Done) (w : World) → Run limits budget budgets events w → steps events + steps_left w ≤ per_request (length budgets) * requests events }
    ensures later { (limits : TableLimits) (budget : ℕ) (budgets : List ℕ) (before later : List Done) (w w' : World) → Run limits budget budgets before w → Runs w later w' →
        steps later + steps_left w' ≤ steps_left w + per_request (length budgets) * requests later }
{}

/// The steps of cores that ran beside each other, whatever the order in time was, are at most four for each core and request that one of them began.
pub fn steps_of_cores_are_bounded()
    ensures { (limits : TableLimits) (budget : ℕ) (budgets : List ℕ) (core0 : List Stamped) (others : List (List Stamped)) (end : Core0State) (ends : List OtherState) → Computation limits budget budgets core0 others end ends →
        total steps (core0 ∷ others) ≤ per_request (length budgets) * total requests (core0 ∷ others) }
{}

/// A machine never hangs: either no message is under way and no request waits, and then each request that was begun is decided, its core knows, and
/// all cores have all of the log; or a message can be taken or a request begun, with no core out of memory,
/// unless a number that only grows is at its end.
pub fn a_machine_goes_on()
    ensures some { (limits : TableLimits) (budget : ℕ) (budgets : List ℕ) (events : List Done) (w : World) → Run limits budget budgets events w → HasNothingLeft w ⊎ (CanGoOn w ⊎ HasNoNumber w) }
    ensures rest { (limits : TableLimits) (budget : ℕ) (budgets : List ℕ) (events : List Done) (w : World) → Run limits budget budgets events w → AllQuiet w → NoneWaits w → IsAtRest w }
{}

/// Core 0 never waits for room: whatever it sends as it takes a message, it sends to cores that have taken all that it sent to them before. And
/// where it is idle each core has at most a Reply to take.
pub fn core_0_sends_to_empty()
    ensures idle { (limits : TableLimits) (budget : ℕ) (budgets : List ℕ) (events : List Done) (w : World) → Run limits budget budgets events w → w.place.phase ≡ Idle → (i : ℕ) (p : Peer) → slice_get w.peers i ≡ Some p → HasReplyAtMost p }
    ensures take { (limits : TableLimits) (budget : ℕ) (budgets : List ℕ) (events : List Done) (w w' : World) (i : ℕ) (answer : Answer) → Run limits budget budgets events w → (h : HappensUp w i w' answer) → SendsToEmpty w (outgoing h.told h.place) }
{}

/// No core of cores that ran beside each other is a stranger to another: whatever the order in time was, each waits for the next message that was
/// sent to it.
pub fn next_messages_are_awaited()
    ensures { (limits : TableLimits) (budget : ℕ) (budgets : List ℕ) (core0 : List Stamped) (others : List (List Stamped)) (end : Core0State) (ends : List OtherState) → (h : Computation limits budget budgets core0 others end ends) →
        NextIsAwaited limits budget budgets core0 others end ends h }
{}

/// Cores that ran beside each other go on: whatever core 0 sends as it takes the next message of a core, it sends to cores that have taken all that
/// it sent to them before, so it never waits for room. And where no core has anything left to take and no request waits at core 0, all cores are
/// at rest.
pub fn cores_go_on()
    ensures sends { (limits : TableLimits) (budget : ℕ) (budgets : List ℕ) (core0 : List Stamped) (others : List (List Stamped)) (end : Core0State) (ends : List OtherState) → (h : Computation limits budget budgets core0 others end ends) →
        SendsToReady limits budgets others end ends h.sent h.taken }
    ensures rest { (limits : TableLimits) (budget : ℕ) (budgets : List ℕ) (core0 : List Stamped) (others : List (List Stamped)) (end : Core0State) (ends : List OtherState) → (h : Computation limits budget budgets core0 others end ends) →
        HasTakenAll limits budgets others ends h.sent h.taken → ((i : ℕ) (op : Op) → slice_get end.requests.waiting i ≡ Some (Some op) → ⊥) → AreAtRest end ends }
{}

/// Where the next message of a core is the last word of its kind, the cores to which core 0 then sends have taken all that it sent to them before. So a
/// core 0 that sends with last words alone never waits for room.
pub fn last_words_come_last()
    ensures { (limits : TableLimits) (budget : ℕ) (budgets : List ℕ) (core0 : List Stamped) (others : List (List Stamped)) (end : Core0State) (ends : List OtherState) → (h : Computation limits budget budgets core0 others end ends) →
        LastWordsComeLast limits budgets others end ends h.sent h.taken }
{}
