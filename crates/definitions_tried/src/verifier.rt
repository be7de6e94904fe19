//! Programs that the verifier accepts, and programs that it refuses.

ghost use Rattle.std.specs.Prelude.{ℕ, ◌+◌, [], ◌∷◌, replicate};
ghost use Rattle.filter_verify.specs.declared.rules.Refusal.TheVariants.{Empty, TooLong, BadCode, ZeroDivisor, BadShift, BadWord, JumpOut, Ancillary, NoReturn, Unwritten};
ghost use Rattle.filter_verify.specs.Rules.{IsSized, Refuses, Sound};
ghost use Rattle.definitions_tried.specs.Codes.{BPF_LD, BPF_LDX, BPF_ST, BPF_STX, BPF_ALU, BPF_JMP, BPF_RET, BPF_W, BPF_ABS, BPF_B, BPF_MSH, BPF_IMM, BPF_MEM, BPF_DIV, BPF_MOD, BPF_LSH, BPF_RSH, BPF_JEQ, BPF_JA, BPF_K, BPF_X, BPF_STMT, BPF_JUMP};
ghost use Rattle.definitions_tried.specs.Filters.{arp};
ghost use Rattle.definitions_tried.specs.Verdicts.{IsRefused, return_0, store_load, store_on_one_path, unreached_load};

/// Programs that Linux accepts (`bpf_check_classic` of net/core/filter.c), and one with a load that no path reaches, which can do
/// no harm.
pub fn sound_programs()
    ensures the_least { Sound (return_0 ∷ []) }
    ensures filter_for_arp { Sound arp }
    ensures a_word_that_was_stored { Sound store_load }
    ensures a_load_that_no_path_reaches { Sound unreached_load }
    ensures the_longest { IsSized (replicate 4096 return_0) }
{}

/// The least programs that break each rule of Linux' `bpf_check_classic` and `check_load_and_stores`, and why they are refused: the
/// numbers are those of the rules in the order in which they are looked for. The kernel's own cases are in its lib/test_bpf.c, as
/// "check: div_k_0", "check: unknown insn", "check: out of range spill/fill" and "check: missing ret".
pub fn refused_programs()
    ensures no_instruction { IsRefused [] Empty 1 0 }
    ensures one_instruction_too_many { IsRefused (replicate 4097 return_0) TooLong 2 0 }
    ensures no_such_code { IsRefused (BPF_STMT 255 0 ∷ []) (BadCode 0) 3 0 }
    ensures no_return_of_x { IsRefused (return_0 ∷ BPF_STMT (BPF_RET + BPF_X) 0 ∷ []) (BadCode 1) 3 1 }
    ensures division_by_0 { IsRefused (BPF_STMT (BPF_ALU + BPF_DIV + BPF_K) 0 ∷ []) (ZeroDivisor 0) 4 0 }
    ensures remainder_by_0 { IsRefused (BPF_STMT (BPF_ALU + BPF_MOD + BPF_K) 0 ∷ []) (ZeroDivisor 0) 4 0 }
    ensures shift_left_by_32 { IsRefused (BPF_STMT (BPF_ALU + BPF_LSH + BPF_K) 32 ∷ []) (BadShift 0) 5 0 }
    ensures shift_right_by_32 { IsRefused (BPF_STMT (BPF_ALU + BPF_RSH + BPF_K) 32 ∷ []) (BadShift 0) 5 0 }
    ensures word_16_is_stored { IsRefused (BPF_STMT BPF_STX 16 ∷ []) (BadWord 0) 6 0 }
    ensures word_16_is_loaded { IsRefused (BPF_STMT (BPF_LD + BPF_MEM) 16 ∷ []) (BadWord 0) 6 0 }
    ensures jump_to_the_end { IsRefused (BPF_STMT (BPF_JMP + BPF_JA) 0 ∷ []) (JumpOut 0) 7 0 }
    ensures other_arm_to_the_end { IsRefused (BPF_JUMP (BPF_JMP + BPF_JEQ + BPF_K) 7 0 1 ∷ return_0 ∷ []) (JumpOut 0) 7 0 }
    ensures ancillary_load { IsRefused (BPF_STMT (BPF_LD + BPF_W + BPF_ABS) 0xfffff000 ∷ []) (Ancillary 0) 8 0 }
    ensures first_ancillary_place { IsRefused (BPF_STMT (BPF_LD + BPF_W + BPF_ABS) 0x80000000 ∷ []) (Ancillary 0) 8 0 }
    ensures no_return { IsRefused (BPF_STMT (BPF_LD + BPF_IMM) 1 ∷ []) NoReturn 9 0 }
    ensures unwritten_word { IsRefused (BPF_STMT (BPF_LDX + BPF_MEM) 3 ∷ return_0 ∷ []) (Unwritten 0 3 (0 ∷ [])) 10 0 }
    ensures unwritten_on_one_path { IsRefused store_on_one_path (Unwritten 2 3 (0 ∷ 2 ∷ [])) 10 2 }

    // And none of these is sound.
    ensures not_sound_without_return { Sound (BPF_STMT (BPF_LD + BPF_IMM) 1 ∷ []) → ⊥ }
    ensures not_sound_with_a_jump_to_the_end { Sound (BPF_STMT (BPF_JMP + BPF_JA) 0 ∷ []) → ⊥ }
    ensures not_sound_on_one_path { Sound store_on_one_path → ⊥ }
    ensures not_all_on_the_other_path { Refuses store_on_one_path (Unwritten 2 3 (0 ∷ 1 ∷ 2 ∷ [])) → ⊥ }
{}
