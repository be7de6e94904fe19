//! Lines that commands print, as docs/formats.md has them.

ghost use Rattle.std.specs.Prelude.{◌≡◌, [], ◌∷◌, Err, None, Ok, Some, codes, false};
ghost use Rattle.filter_table.specs.declared.operation.Op.TheVariants.{Create};
ghost use Rattle.filter_table.specs.declared.operation.Made.TheVariants.{Filter, Nothing};
ghost use Rattle.filter_table.specs.declared.operation.OpFault.TheVariants.{BadProgram};
ghost use Rattle.filter_table.specs.declared.decision.Decision.TheVariants.{Committed, Refused};
ghost use Rattle.filter_table.specs.declared.decision.Veto.TheVariants as veto;
ghost use Rattle.filter_table.specs.declared.decision.Vote.TheVariants as vote;
ghost use Rattle.world_events.specs.declared.event.Answer.TheVariants.{Decided, Delivered, Prepared, TookPrepare, TookReply, TookVote};
ghost use Rattle.world_events.specs.declared.event.Event.TheVariants.{Rx, Start, Submit, Take};
ghost use Rattle.world_events.specs.declared.fault.WorldFault.TheVariants.{Outstanding};
ghost use Rattle.sim_lines.specs.Events.{event_line, left_line};
ghost use Rattle.console.specs.Matching.{Hex, bad_line, outcome_line};
ghost use Rattle.definitions_tried.specs.Filters.{whole};
ghost use Rattle.definitions_tried.specs.Readings.{no_bytes};
ghost use Rattle.definitions_tried.specs.Tables.{keeps};

/// The lines of events, by "Printed lines".
pub fn printed_events()
    ensures of_a_start { event_line (Start (Create 1 7)) (Ok (Prepared 1)) ≡ codes "start: prepared 1\n" }
    ensures of_a_vote { event_line (Take 1 0 false) (Ok (TookPrepare 12 vote.Yes)) ≡ codes "take 1 0: prepare 12 Yes\n" }
    ensures of_a_commit { event_line (Take 0 1 false) (Ok (TookVote 2 vote.Yes (Some (Committed 2 (Filter 1))))) ≡ codes "take 0 1: vote 2 Yes committed 2 filter 1\n" }
    ensures of_a_veto { event_line (Take 0 3 false) (Ok (TookVote 1 vote.NoMemory (Some (Refused 3 veto.NoMemory)))) ≡ codes "take 0 3: vote 1 NoMemory refused NoMemory core 3\n" }
    ensures of_an_early_vote { event_line (Take 0 2 false) (Ok (TookVote 1 vote.Budget None)) ≡ codes "take 0 2: vote 1 Budget\n" }
    ensures of_a_refusal { event_line (Start (Create 1 7)) (Ok (Decided (Refused 0 (veto.Rule (BadProgram 10 2))))) ≡ codes "start: refused BadProgram 10 2\n" }
    ensures of_a_reply { event_line (Take 2 0 false) (Ok (TookReply (Committed 3 Nothing))) ≡ codes "take 2 0: reply committed 3\n" }
    ensures of_a_receipt { event_line (Rx 1 4 no_bytes 0) (Ok (Delivered 2 (keeps 7 16 ∷ keeps 8 2 ∷ []))) ≡ codes "rx 1 4: version 2 7=16 8=2\n" }
    ensures of_a_receipt_by_none { event_line (Rx 0 10 no_bytes 0) (Ok (Delivered 0 [])) ≡ codes "rx 0 10: version 0 none\n" }
    ensures of_a_fault { event_line (Submit 1 (Create 1 7)) (Err Outstanding) ≡ codes "submit 1: fault Outstanding\n" }
    ensures of_a_packet_left { left_line 1 30 ≡ codes "left 1 30\n" }
{}

/// The lines of `match`: a verdict and steps, or the number of a line that spells no packet. Digits are of either
/// case, two a byte.
pub fn matched_lines()
    ensures of_an_outcome { outcome_line (record { verdict = 262144; steps = 3 }) ≡ codes "262144 3\n" }
    ensures of_a_bad_line { bad_line 20 ≡ codes "line 20: BadHex\n" }
    ensures digits_of_either_case { Hex (codes "0aFf10") (whole (10 ∷ 255 ∷ 16 ∷ [])) }
    ensures no_bytes { Hex [] (whole []) }
{}
