//! What holds of a script, of what its run printed, and of what `draw` reads of that.

ghost use Rattle.std.specs.Prelude.{◌≡◌, ◌≤◌, ◌<◌, ◌^◌, ◌++◌, ◌∷◌, ℕ, List, [], length, map, slice_get, Ok, Some};
ghost use Rattle.std.specs.List.{All, flat_map};
ghost use Rattle.mk_script.specs.declared.script.Script.{Script};
ghost use Rattle.mk_script.specs.Bodies.{Means};
ghost use Rattle.mk_script.specs.Drafts.{Settings};
ghost use Rattle.mk_script.specs.Meanings.{Does, Known, Named, Nothing};
ghost use Rattle.mk_script.specs.Scripts.{Stands};
ghost use Rattle.mk_script.specs.Statements.{plain};
ghost use Rattle.mk_script.specs.Threads.{IsScriptForThreads, for_simulation, for_threads, received};
ghost use Rattle.filter_table.specs.Limits.{TableLimits};
ghost use Rattle.pcap_reader.specs.declared.capture.CapturedPacket.{CapturedPacket};
ghost use Rattle.sim_lines.specs.Events.{done_line, left_line};
ghost use Rattle.trace_lines.specs.Traces as drawn;
ghost use Rattle.trace_text.specs.Reading.{CanDrawDone, CanDrawPrinted, Printed, drawn_of, printed_text, shown_done};
ghost use Rattle.trace_text.specs.Traces.{EndsInLf, IsNamed, IsNamedIn, trace_item, trace_of, traced_script};
ghost use Rattle.world_events.specs.declared.event.Done.{Done};
ghost use Rattle.world_events.specs.declared.event.Event.{Event};
ghost use Rattle.world_events.specs.declared.event.Event.TheVariants.{Rx};
ghost use Rattle.world_model.specs.Worlds.{Run, World};

/// After `trace`, the line that was printed of an event means that event, and the line of a packet that was left means nothing.
///
/// An event has to be named by its words: its cores are numbers of 16 bits, and a packet is the one of its number in the script.
pub fn lines_are_read_back()
    ensures events { (settings : Settings) (known : Known) (jobs : List Event) (number : ℕ) (done : Done) (line : List ℕ) → known.jobs ≡ Named jobs →
        IsNamedIn jobs done.event → done_line done ≡ line ++ 10 ∷ [] → Means settings known (plain number line) (Ok (Does (trace_item done))) }
    ensures left { (settings : Settings) (known : Known) (jobs : List Event) (number core packet : ℕ) (line : List ℕ) → known.jobs ≡ Named jobs →
        left_line core packet ≡ line ++ 10 ∷ [] → Means settings known (plain number line) (Ok Nothing) }
{}

/// A packet of a script for threads is named by its core and its number.
pub fn packets_are_named()
    ensures { (script : Script) (place core number floor : ℕ) (packet : CapturedPacket) → IsScriptForThreads script →
        length script.budgets ≤ 2 ^ 16 → length (received script.items) < 2 ^ 64 →
        slice_get (received script.items) place ≡ Some (Rx core number packet floor) → IsNamedIn (received script.items) (Rx core number packet floor) }
{}

/// A script for threads, followed by `trace` and what a run of it printed, is a script for a simulation: it stands for the
/// script's requests, and then for the events of the run, in their order.
///
/// The script's text has to end in LF. Without it, `trace` is no line of its own: it belongs to the script's last line.
pub fn traces_are_read_back()
    ensures { (files : List (List ℕ)) (text : List ℕ) (script : Script) (events : List Done) (left : List (ℕ × ℕ)) →
        Stands (for_threads files) text (Ok script) → EndsInLf text → All (IsNamed script.items) events →
        Stands (for_simulation files) (text ++ trace_of events left) (Ok (traced_script script events)) }
{}

/// What `sim` and `run` print is what `draw` reads. Of each event that was done it reads what was done and what was answered,
/// whether that is a refusal, the version that the core comes to, and the line: all in order, and nothing of packets that were
/// left.
///
/// So too among all that is printed: an event that wasn't done is read as such a one, and no line of a table or of a core that
/// isn't there is read as an event or refused. The cores of an event have to be below 64, and its answer one to such an event, as in
/// every run. Nothing is drawn of `submit C: fault Nothing` where C is 64 or more.
pub fn printed_lines_are_drawn()
    ensures events { (events : List Done) (left : List (ℕ × ℕ)) → All CanDrawDone events →
        drawn.trace_of (flat_map done_line events ++ flat_map (λ l. left_line l.0 l.1) left) ≡ Ok (map shown_done events) }
    ensures all { (printed : List Printed) → All CanDrawPrinted printed → drawn.trace_of (flat_map printed_text printed) ≡ Ok (flat_map drawn_of printed) }
{}

/// `draw` reads every event of every run of a machine of at most 64 cores from the line that is printed of it.
pub fn runs_are_drawn()
    ensures { (limits : TableLimits) (budget : ℕ) (budgets : List ℕ) (events : List Done) (left : List (ℕ × ℕ)) (w : World) → length budgets < 64 →
        Run limits budget budgets events w → drawn.trace_of (flat_map done_line events ++ flat_map (λ l. left_line l.0 l.1) left) ≡ Ok (map shown_done events) }
{}
