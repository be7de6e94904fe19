//! Laws, each the contract of a function that does nothing.

ghost use Rattle.std.specs.Prelude.{◌≡◌, ◌∷◌, ◌⊎◌, ℕ, All, List, Ok, map};
ghost use Rattle.filter_table.specs.Limits.{TableLimits};
ghost use Rattle.std.specs.List.{flat_map};
ghost use Rattle.world_events.specs.declared.event.Done.{Done};
ghost use Rattle.world_model.specs.Worlds.{World, Run};
ghost use Rattle.world_histories.specs.declared.history.Stamped.{Stamped};
ghost use Rattle.world_histories.specs.Histories.{Core0State, OtherState};
ghost use Rattle.world_histories.specs.Merging.{as_listed};
ghost use Rattle.sim_lines.specs.Events.{done_line};
ghost use Rattle.mk_script.specs.declared.script.Item.{Item};
ghost use Rattle.mk_script.specs.declared.script.Script.{Script};
ghost use Rattle.mk_script.specs.Scripts.{AreFiles, Stands};
ghost use Rattle.script_input.specs.Inputs.{AllShort};
ghost use Rattle.mk_script.specs.Threads.{for_simulation, for_threads};
ghost use Rattle.sim_engine.specs.Showing.{ShowsSim};
ghost use Rattle.sim_engine.specs.Simulations.{Simulation};
ghost use Rattle.run_engine.specs.Showing.{ShowsRun};
ghost use Rattle.trace_lines.specs.Lines.{Shown};
ghost use Rattle.trace_lines.specs.Traces as drawn;
ghost use Rattle.trace_text.specs.Reading.{shown_done};
ghost use Rattle.trace_text.specs.Traces.{EndsInLf, traced_script};
ghost use Rattle.world_events.specs.Memory.{WasNotRefused};
ghost use Rattle.trace_runs.specs.Printed.{event_lines, events_of, with_trace};
ghost use Rattle.trace_runs.specs.Repeats.{BeginInOrder, PerformsTrace, CanRepeat, DiffersByMemory, Repeats, RanScript, CanRepeatMerged, ShowsTrace};

/// After a script's requests `sim` can do the events of any run whose cores begin those requests in order, prints the lines of the
/// events with their answers, and ends in the run's world. Where core 0 refused no request for lack of memory in that run, `sim`
/// does and prints nothing else for them, unless memory runs out: then the first line that differs says so.
pub fn runs_are_done_again()
    ensures can { (limits : TableLimits) (budget : ℕ) (budgets : List ℕ) (items : List Item) (events : List Done) (w : World) →
        Run limits budget budgets events w → BeginInOrder items events → CanRepeat limits budget budgets items events w }
    ensures only { (limits : TableLimits) (budget : ℕ) (budgets : List ℕ) (items : List Item) (events : List Done) (w : World) (end : Simulation) (text : List ℕ) →
        Run limits budget budgets events w → BeginInOrder items events → All WasNotRefused events → PerformsTrace limits budget budgets items events end text →
        Repeats events w end.world text }
{}

/// Of cores that ran beside each other on a script: after the script's requests `sim` can do the one list of all their events, shows
/// a line for each, and ends where the cores end. Where core 0 refused no request for lack of memory, `sim` shows nothing else,
/// unless memory runs out: then the first line that differs says so.
pub fn merged_runs_are_done_again()
    ensures can { (limits : TableLimits) (budget : ℕ) (budgets : List ℕ) (items : List Item) (end : Core0State) (ends : List OtherState) (merged : List Stamped) →
        RanScript limits budget budgets items end ends merged → CanRepeatMerged limits budget budgets items end ends merged }
    ensures shown { (limits : TableLimits) (budget : ℕ) (budgets : List ℕ) (items : List Item) (end : Core0State) (ends : List OtherState) (merged : List Stamped) →
        RanScript limits budget budgets items end ends merged → ShowsTrace limits (budget ∷ budgets) items (as_listed merged) (flat_map done_line (as_listed merged)) }
    ensures only { (limits : TableLimits) (budget : ℕ) (budgets : List ℕ) (items : List Item) (end : Core0State) (ends : List OtherState) (merged : List Stamped) (text : List ℕ) →
        RanScript limits budget budgets items end ends merged → All WasNotRefused (as_listed merged) → ShowsTrace limits (budget ∷ budgets) items (as_listed merged) text →
        (text ≡ flat_map done_line (as_listed merged)) ⊎ DiffersByMemory (as_listed merged) text }
{}

/// `sim` can show, of a text that stands for a script's requests and then the events of cores that ran on the script, a line for
/// each event, with status 0. Where core 0 refused no request for lack of memory, it shows nothing else, unless memory runs out:
/// then the first line that differs says so.
///
/// The text and its files have to be within the limits of `sim`.
pub fn sim_shows_the_trace()
    ensures shown { (files : List (List ℕ)) (input : List ℕ) (script : Script) (budget : ℕ) (budgets : List ℕ) (end : Core0State) (ends : List OtherState) (merged : List Stamped) →
        AllShort input files → script.budgets ≡ budget ∷ budgets → RanScript script.limits budget budgets script.items end ends merged → Stands (for_simulation files) input (Ok (traced_script script (as_listed merged))) →
        ShowsSim files input 0 (flat_map done_line (as_listed merged)) }
    ensures only { (files : List (List ℕ)) (input : List ℕ) (script : Script) (budget : ℕ) (budgets : List ℕ) (end : Core0State) (ends : List OtherState) (merged : List Stamped) (status : ℕ) (text : List ℕ) →
        AreFiles files → AllShort input files → script.budgets ≡ budget ∷ budgets → RanScript script.limits budget budgets script.items end ends merged → All WasNotRefused (as_listed merged) →
        Stands (for_simulation files) input (Ok (traced_script script (as_listed merged))) → ShowsSim files input status text →
        (status ≡ 0) × ((text ≡ flat_map done_line (as_listed merged)) ⊎ DiffersByMemory (as_listed merged) text) }
{}

/// `draw` reads all that `sim` and `run` show of a script that stands: of a run it draws every event, in order, and nothing else.
pub fn outputs_are_drawn()
    ensures sim { (files : List (List ℕ)) (input text : List ℕ) → ShowsSim files input 0 text → (shown : List Shown) × (drawn.trace_of text ≡ Ok shown) }
    ensures run { (files : List (List ℕ)) (input : List ℕ) (script : Script) (text : List ℕ) (run : ShowsRun script text) → AllShort input files → Stands (for_threads files) input (Ok script) →
        drawn.trace_of text ≡ Ok (map shown_done (events_of run)) }
{}

/// What `run` printed of a script, given to `sim` after the script and a line `trace`: `sim` can show the lines of the run's events
/// once more, with status 0, and none of what was left. Where core 0 refused no request for lack of memory in the run, `sim` shows
/// nothing else, unless memory runs out: then the first line that differs says so.
///
/// The script's text has to end in LF, and all of this has to be within the limits of `sim`.
pub fn printed_runs_are_done_again()
    ensures shown { (files : List (List ℕ)) (input : List ℕ) (script : Script) (text : List ℕ) (run : ShowsRun script text) →
        Stands (for_threads files) input (Ok script) → EndsInLf input → AllShort (with_trace input text) files →
        ShowsSim files (with_trace input text) 0 (event_lines run) }
    ensures only { (files : List (List ℕ)) (input : List ℕ) (script : Script) (text : List ℕ) (run : ShowsRun script text) (status : ℕ) (text' : List ℕ) →
        AreFiles files → Stands (for_threads files) input (Ok script) → EndsInLf input → AllShort (with_trace input text) files →
        All WasNotRefused (events_of run) → ShowsSim files (with_trace input text) status text' →
        (status ≡ 0) × ((text' ≡ event_lines run) ⊎ DiffersByMemory (events_of run) text') }
{}
