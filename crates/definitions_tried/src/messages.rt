//! Messages between cores, as bytes and as lines.

ghost use Rattle.std.specs.Prelude.{◌≡◌, [], ◌∷◌, Some, None};
ghost use Rattle.bpf_insn.specs.declared.insn.Insn.{Insn};
ghost use Rattle.endpoint_caps.specs.declared.Rights.TheVariants.{Rm};
ghost use Rattle.filter_table.specs.declared.operation.Op.TheVariants.{Install, Mint};
ghost use Rattle.filter_table.specs.declared.operation.Made.TheVariants.{Filter};
ghost use Rattle.filter_table.specs.declared.operation.OpFault.TheVariants.{BadProgram};
ghost use Rattle.filter_table.specs.declared.decision.Decision.TheVariants.{Committed, Refused};
ghost use Rattle.filter_table.specs.declared.decision.Veto.TheVariants as veto;
ghost use Rattle.filter_table.specs.declared.decision.Vote.TheVariants as vote;
ghost use Rattle.monitor_messages.specs.declared.message.Message.TheVariants.{Ack, Prepare, Reply, Submit, Vote};
ghost use Rattle.monitor_messages.specs.Coding.{Coded, coded};
ghost use Rattle.ump_ring.specs.declared.fault.LineFault.TheVariants.{BadLength, OutOfSequence};
ghost use Rattle.ump_ring.specs.Lines.{lines_of, messages_in};
ghost use Rattle.ump_ring.specs.Reading.{line_fault};
ghost use Rattle.definitions_tried.specs.Filters.{insn};
ghost use Rattle.definitions_tried.specs.Messages.{fifty_seven, first_line, line_of_three, second_line, three, u16, u32, u64};

/// Messages as bytes, by the table at the head of `monitor_messages`. A refusal by the verifier has one of its ten
/// numbers.
pub fn coded_messages()
    ensures low_bytes_first { coded 258 (Ack 0x0102030405060708) ≡ 5 ∷ 2 ∷ 1 ∷ 0 ∷ 0 ∷ 0 ∷ 0 ∷ 0 ∷ 0 ∷ 8 ∷ 7 ∷ 6 ∷ 5 ∷ 4 ∷ 3 ∷ 2 ∷ 1 ∷ [] }
    ensures of_a_vote { coded 7 (Vote 3 vote.Budget) ≡ 2 ∷ u64 7 (u64 3 (1 ∷ [])) }
    ensures of_a_mint { coded 0 (Prepare 1 (Mint 2 3 4 Rm)) ≡ 1 ∷ u64 0 (u64 1 (2 ∷ u16 2 (u32 3 (u16 4 (3 ∷ []))))) }
    ensures of_an_install { coded 0 (Submit (Install 1 2 (insn 6 0 0 64 ∷ []))) ≡ 6 ∷ u64 0 (5 ∷ u16 1 (u32 2 (u16 1 (u16 6 (0 ∷ 0 ∷ u32 64 []))))) }
    ensures of_a_commit { coded 0 (Reply (Committed 9 (Filter 2))) ≡ 7 ∷ u64 0 (0 ∷ u64 9 (2 ∷ u32 2 [])) }
    ensures of_a_refusal { coded 0 (Reply (Refused 3 (veto.Rule (BadProgram 10 5)))) ≡ 7 ∷ u64 0 (1 ∷ u16 3 (2 ∷ 17 ∷ 10 ∷ u16 5 [])) }
    ensures of_no_memory { coded 0 (Reply (Refused 3 veto.NoMemory)) ≡ 7 ∷ u64 0 (1 ∷ u16 3 (1 ∷ [])) }
    ensures no_rule_11 { Coded (7 ∷ u64 0 (1 ∷ u16 3 (2 ∷ 17 ∷ 11 ∷ u16 5 []))) 0 (Reply (Refused 3 (veto.Rule (BadProgram 11 5)))) → ⊥ }
{}

/// Messages as lines of eight words, by the head of `ump_ring`: 56 bytes a line, the length on a message's first
/// line, and the line's number in its ring, which begins with 0 again after 2^32 lines.
pub fn lines_of_messages()
    ensures of_three_bytes { lines_of three 5 ≡ line_of_three ∷ [] }
    ensures of_more_than_a_line { lines_of fifty_seven 0xffff_ffff ≡ first_line ∷ second_line ∷ [] }
    ensures three_read { messages_in (line_of_three ∷ []) ≡ three ∷ [] }
    ensures both_read { messages_in (first_line ∷ second_line ∷ line_of_three ∷ []) ≡ fifty_seven ∷ three ∷ [] }
    ensures none_of_a_part { messages_in (first_line ∷ []) ≡ [] }
    ensures next_in_sequence { line_fault 5 0 [] line_of_three ≡ None }
    ensures out_of_sequence { line_fault 6 0 [] line_of_three ≡ Some OutOfSequence }
    ensures no_length_of_0 { line_fault 0 0 [] second_line ≡ Some BadLength }
    ensures no_length_past_the_most { line_fault 0 0 [] (0x8041_0000_0000 ∷ 0 ∷ 0 ∷ 0 ∷ 0 ∷ 0 ∷ 0 ∷ 0 ∷ []) ≡ Some BadLength }
    ensures most_length { line_fault 0 0 [] (0x8040_0000_0000 ∷ 0 ∷ 0 ∷ 0 ∷ 0 ∷ 0 ∷ 0 ∷ 0 ∷ []) ≡ None }
    ensures padding_of_zeros { line_fault 0 0 [] (0x1_0000_0000 ∷ 256 ∷ 0 ∷ 0 ∷ 0 ∷ 0 ∷ 0 ∷ 0 ∷ []) ≡ Some BadLength }
{}
