//! Filters: runs, and what one instruction does.

ghost use Rattle.std.specs.Prelude.{◌+◌, [], ◌∷◌};
ghost use Rattle.std.specs.FinMap.{empty, insert};
ghost use Rattle.bpf_insn.specs.Machine.{Ends, State, Step};
ghost use Rattle.definitions_tried.specs.Codes.{BPF_LD, BPF_LDX, BPF_ST, BPF_STX, BPF_ALU, BPF_JMP, BPF_RET, BPF_MISC, BPF_W, BPF_H, BPF_B, BPF_IMM, BPF_ABS, BPF_IND, BPF_MEM, BPF_LEN, BPF_MSH, BPF_ADD, BPF_SUB, BPF_MUL, BPF_DIV, BPF_OR, BPF_AND, BPF_LSH, BPF_RSH, BPF_NEG, BPF_MOD, BPF_XOR, BPF_JA, BPF_JEQ, BPF_JGT, BPF_JGE, BPF_JSET, BPF_K, BPF_X, BPF_A, BPF_TAX, BPF_TXA, BPF_STMT, BPF_JUMP};
ghost use Rattle.definitions_tried.specs.Filters.{arp, arp_request, ip_datagram, cut_frame, nothing, cut, at, Turns, Jumps, Stops};

/// The filter that `tcpdump -ddd -y EN10MB -s 64 arp` writes (tcpdump(1)), on frames of Ethernet (IEEE 802.3, clause 3; the
/// type of ARP is 2054, RFC 826): it keeps 64 bytes of a frame of ARP and nothing of another. A frame that ends before its type
/// is not accepted (McCanne and Jacobson 1993, section 3).
pub fn runs_of_filters()
    ensures arp_is_kept { Ends arp arp_request 64 3 }
    ensures another_is_not { Ends arp ip_datagram 0 3 }
    ensures a_load_past_the_end_ends_with_0 { Ends arp cut_frame 0 1 }
    ensures not_65_bytes { Ends arp arp_request 65 3 → ⊥ }
    ensures not_in_4_instructions { Ends arp arp_request 64 4 → ⊥ }
{}

/// Loads. A packet is cut whose five bytes are 255, 1, 2, 3 and 69, of 60 that it had. The effects are those of McCanne
/// and Jacobson (1993), section 3.3, and of bpf(4) of FreeBSD: the bytes of a number are in network order, a load past
/// the bytes that were captured ends the run with 0, and `BPF_LEN` is the packet's length. The place of an indexed load
/// is an exact sum, as in bpf_filter.c of FreeBSD. Places from 4294963200 on are ancillary data in Linux, which no step
/// loads.
pub fn loads()
    ensures ld_imm { Turns (BPF_STMT (BPF_LD + BPF_IMM) 0xffffffff) nothing 7 9 0xffffffff 9 }
    ensures ld_word_at_the_last_bytes { Turns (BPF_STMT (BPF_LD + BPF_W + BPF_ABS) 1) cut 7 9 0x1020345 9 }
    ensures ld_word_one_past { Stops (BPF_STMT (BPF_LD + BPF_W + BPF_ABS) 2) cut 7 9 0 }
    ensures ld_half_at_the_last_bytes { Turns (BPF_STMT (BPF_LD + BPF_H + BPF_ABS) 3) cut 7 9 837 9 }
    ensures ld_half_one_past { Stops (BPF_STMT (BPF_LD + BPF_H + BPF_ABS) 4) cut 7 9 0 }
    ensures ld_byte_at_the_last_byte { Turns (BPF_STMT (BPF_LD + BPF_B + BPF_ABS) 4) cut 7 9 69 9 }
    ensures ld_byte_at_the_last_byte_goes_on { Stops (BPF_STMT (BPF_LD + BPF_B + BPF_ABS) 4) cut 7 9 0 → ⊥ }
    ensures ld_byte_one_past { Stops (BPF_STMT (BPF_LD + BPF_B + BPF_ABS) 5) cut 7 9 0 }
    ensures ld_word_from_the_first_byte { Turns (BPF_STMT (BPF_LD + BPF_W + BPF_ABS) 0) cut 7 9 0xff010203 9 }
    ensures ld_ancillary { (t : State) → Step (BPF_STMT (BPF_LD + BPF_W + BPF_ABS) 0xfffff000 ∷ []) cut (at 0 7 9) t → ⊥ }
    ensures ld_word_by_index_at_the_last_bytes { Turns (BPF_STMT (BPF_LD + BPF_W + BPF_IND) 1) cut 7 0 0x1020345 0 }
    ensures ld_word_by_index_one_past { Stops (BPF_STMT (BPF_LD + BPF_W + BPF_IND) 1) cut 7 1 0 }
    ensures ld_half_by_index_at_the_last_bytes { Turns (BPF_STMT (BPF_LD + BPF_H + BPF_IND) 1) cut 7 2 837 2 }
    ensures ld_half_by_index_one_past { Stops (BPF_STMT (BPF_LD + BPF_H + BPF_IND) 2) cut 7 2 0 }
    ensures ld_byte_by_index_at_the_last_byte { Turns (BPF_STMT (BPF_LD + BPF_B + BPF_IND) 0) cut 7 4 69 4 }
    ensures ld_byte_by_index_one_past { Stops (BPF_STMT (BPF_LD + BPF_B + BPF_IND) 1) cut 7 4 0 }
    ensures ld_by_index_does_not_wrap { Stops (BPF_STMT (BPF_LD + BPF_B + BPF_IND) 0xffffffff) cut 7 1 0 }
    ensures ld_len_is_the_original { Turns (BPF_STMT (BPF_LD + BPF_LEN) 0) cut 7 9 60 9 }
    ensures ldx_imm { Turns (BPF_STMT (BPF_LDX + BPF_IMM) 0xffffffff) nothing 7 9 7 0xffffffff }
    ensures ldx_len_is_the_original { Turns (BPF_STMT (BPF_LDX + BPF_LEN) 0) cut 7 9 7 60 }
    ensures ldx_msh_of_the_last_byte { Turns (BPF_STMT (BPF_LDX + BPF_B + BPF_MSH) 4) cut 7 9 7 20 }
    ensures ldx_msh_is_60_at_most { Turns (BPF_STMT (BPF_LDX + BPF_B + BPF_MSH) 0) cut 7 9 7 60 }
    ensures ldx_msh_one_past { Stops (BPF_STMT (BPF_LDX + BPF_B + BPF_MSH) 5) cut 7 9 0 }
{}

/// Workspace words and transfers, as in McCanne and Jacobson (1993), section 3.3. There are sixteen words, `BPF_MEMWORDS`
/// of bpf(4) and of Linux' filter.h. What an unwritten word holds is left open there: here no step loads it.
pub fn words()
    ensures st_the_last_word { Step (BPF_STMT (BPF_ST) 15 ∷ []) nothing (record { pc = 0; a = 7; x = 9; memory = empty }) (record { pc = 1; a = 7; x = 9; memory = (insert empty 15 7) }) }
    ensures stx_the_first_word { Step (BPF_STMT (BPF_STX) 0 ∷ []) nothing (record { pc = 0; a = 7; x = 9; memory = empty }) (record { pc = 1; a = 7; x = 9; memory = (insert empty 0 9) }) }
    ensures ld_mem { Step (BPF_STMT (BPF_LD + BPF_MEM) 15 ∷ []) nothing (record { pc = 0; a = 7; x = 9; memory = (insert empty 15 4294967295) }) (record { pc = 1; a = 4294967295; x = 9; memory = (insert empty 15 4294967295) }) }
    ensures ldx_mem { Step (BPF_STMT (BPF_LDX + BPF_MEM) 0 ∷ []) nothing (record { pc = 0; a = 7; x = 9; memory = (insert empty 0 4294967295) }) (record { pc = 1; a = 7; x = 4294967295; memory = (insert empty 0 4294967295) }) }
    ensures no_word_16 { (t : State) → Step (BPF_STMT (BPF_ST) 16 ∷ []) nothing (at 0 7 9) t → ⊥ }
    ensures no_unwritten_word { (t : State) → Step (BPF_STMT (BPF_LD + BPF_MEM) 3 ∷ []) nothing (at 0 7 9) t → ⊥ }
    ensures tax { Turns (BPF_STMT (BPF_MISC + BPF_TAX) 0) nothing 7 9 7 7 }
    ensures txa { Turns (BPF_STMT (BPF_MISC + BPF_TXA) 0) nothing 7 9 9 9 }
{}

/// Arithmetic on unsigned numbers modulo 2^32, as in McCanne and Jacobson (1993), section 3.3, and bpf(4), with the
/// remainder and the exclusive or of Linux (bpf_common.h). A division by an index register of 0 ends the run with 0, as
/// in bpf_filter.c of FreeBSD. A shift by 32 or more is left open there: here it leaves no bit.
pub fn arithmetic()
    ensures add_wraps_k { Turns (BPF_STMT (BPF_ALU + BPF_ADD + BPF_K) 1) nothing 0xffffffff 9 0 9 }
    ensures add_wraps_x { Turns (BPF_STMT (BPF_ALU + BPF_ADD + BPF_X) 0) nothing 0xffffffff 1 0 1 }
    ensures add_of_the_greatest_k { Turns (BPF_STMT (BPF_ALU + BPF_ADD + BPF_K) 0xffffffff) nothing 0xffffffff 9 0xfffffffe 9 }
    ensures add_of_the_greatest_x { Turns (BPF_STMT (BPF_ALU + BPF_ADD + BPF_X) 0) nothing 0xffffffff 0xffffffff 0xfffffffe 0xffffffff }
    ensures sub_wraps_k { Turns (BPF_STMT (BPF_ALU + BPF_SUB + BPF_K) 1) nothing 0 9 0xffffffff 9 }
    ensures sub_wraps_x { Turns (BPF_STMT (BPF_ALU + BPF_SUB + BPF_X) 0) nothing 0 1 0xffffffff 1 }
    ensures sub_of_the_same_k { Turns (BPF_STMT (BPF_ALU + BPF_SUB + BPF_K) 5) nothing 5 9 0 9 }
    ensures sub_of_the_same_x { Turns (BPF_STMT (BPF_ALU + BPF_SUB + BPF_X) 0) nothing 5 5 0 5 }
    ensures mul_wraps_k { Turns (BPF_STMT (BPF_ALU + BPF_MUL + BPF_K) 0x10000) nothing 0x10000 9 0 9 }
    ensures mul_wraps_x { Turns (BPF_STMT (BPF_ALU + BPF_MUL + BPF_X) 0) nothing 0x10000 0x10000 0 0x10000 }
    ensures mul_of_the_greatest_k { Turns (BPF_STMT (BPF_ALU + BPF_MUL + BPF_K) 0xffffffff) nothing 0xffffffff 9 1 9 }
    ensures mul_of_the_greatest_x { Turns (BPF_STMT (BPF_ALU + BPF_MUL + BPF_X) 0) nothing 0xffffffff 0xffffffff 1 0xffffffff }
    ensures div_is_unsigned_k { Turns (BPF_STMT (BPF_ALU + BPF_DIV + BPF_K) 2) nothing 0xffffffff 9 0x7fffffff 9 }
    ensures div_is_unsigned_x { Turns (BPF_STMT (BPF_ALU + BPF_DIV + BPF_X) 0) nothing 0xffffffff 2 0x7fffffff 2 }
    ensures div_rounds_down_k { Turns (BPF_STMT (BPF_ALU + BPF_DIV + BPF_K) 4) nothing 7 9 1 9 }
    ensures div_rounds_down_x { Turns (BPF_STMT (BPF_ALU + BPF_DIV + BPF_X) 0) nothing 7 4 1 4 }
    ensures mod_k { Turns (BPF_STMT (BPF_ALU + BPF_MOD + BPF_K) 0x70000000) nothing 0xffffffff 9 0x1fffffff 9 }
    ensures mod_x { Turns (BPF_STMT (BPF_ALU + BPF_MOD + BPF_X) 0) nothing 0xffffffff 0x70000000 0x1fffffff 0x70000000 }
    ensures or_k { Turns (BPF_STMT (BPF_ALU + BPF_OR + BPF_K) 0x7fffffff) nothing 0x80000000 9 0xffffffff 9 }
    ensures or_x { Turns (BPF_STMT (BPF_ALU + BPF_OR + BPF_X) 0) nothing 0x80000000 0x7fffffff 0xffffffff 0x7fffffff }
    ensures and_k { Turns (BPF_STMT (BPF_ALU + BPF_AND + BPF_K) 0xfffffff0) nothing 255 9 240 9 }
    ensures and_x { Turns (BPF_STMT (BPF_ALU + BPF_AND + BPF_X) 0) nothing 255 0xfffffff0 240 0xfffffff0 }
    ensures xor_k { Turns (BPF_STMT (BPF_ALU + BPF_XOR + BPF_K) 0xfffffff0) nothing 255 9 0xffffff0f 9 }
    ensures xor_x { Turns (BPF_STMT (BPF_ALU + BPF_XOR + BPF_X) 0) nothing 255 0xfffffff0 0xffffff0f 0xfffffff0 }
    ensures lsh_by_31_k { Turns (BPF_STMT (BPF_ALU + BPF_LSH + BPF_K) 31) nothing 3 9 0x80000000 9 }
    ensures lsh_by_31_x { Turns (BPF_STMT (BPF_ALU + BPF_LSH + BPF_X) 0) nothing 3 31 0x80000000 31 }
    ensures rsh_by_31_k { Turns (BPF_STMT (BPF_ALU + BPF_RSH + BPF_K) 31) nothing 0xffffffff 9 1 9 }
    ensures rsh_by_31_x { Turns (BPF_STMT (BPF_ALU + BPF_RSH + BPF_X) 0) nothing 0xffffffff 31 1 31 }
    ensures lsh_by_32 { Turns (BPF_STMT (BPF_ALU + BPF_LSH + BPF_X) 0) nothing 0xffffffff 32 0 32 }
    ensures rsh_by_32 { Turns (BPF_STMT (BPF_ALU + BPF_RSH + BPF_X) 0) nothing 0xffffffff 32 0 32 }
    ensures lsh_by_the_greatest { Turns (BPF_STMT (BPF_ALU + BPF_LSH + BPF_X) 0) nothing 0xffffffff 0xffffffff 0 0xffffffff }
    ensures div_by_an_index_of_0 { Stops (BPF_STMT (BPF_ALU + BPF_DIV + BPF_X) 0) nothing 7 0 0 }
    ensures mod_by_an_index_of_0 { Stops (BPF_STMT (BPF_ALU + BPF_MOD + BPF_X) 0) nothing 7 0 0 }
    ensures div_by_the_constant_0 { (t : State) → Step (BPF_STMT (BPF_ALU + BPF_DIV + BPF_K) 0 ∷ []) nothing (at 0 7 9) t → ⊥ }
    ensures mod_by_the_constant_0 { (t : State) → Step (BPF_STMT (BPF_ALU + BPF_MOD + BPF_K) 0 ∷ []) nothing (at 0 7 9) t → ⊥ }
    ensures lsh_by_the_constant_32 { (t : State) → Step (BPF_STMT (BPF_ALU + BPF_LSH + BPF_K) 32 ∷ []) nothing (at 0 7 9) t → ⊥ }
    ensures rsh_by_the_constant_32 { (t : State) → Step (BPF_STMT (BPF_ALU + BPF_RSH + BPF_K) 32 ∷ []) nothing (at 0 7 9) t → ⊥ }
    ensures neg { Turns (BPF_STMT (BPF_ALU + BPF_NEG) 0) nothing 1 9 0xffffffff 9 }
    ensures neg_of_0 { Turns (BPF_STMT (BPF_ALU + BPF_NEG) 0) nothing 0 9 0 9 }
    ensures neg_of_the_half { Turns (BPF_STMT (BPF_ALU + BPF_NEG) 0) nothing 0x80000000 9 0x80000000 9 }
{}

/// Jumps and returns, as in McCanne and Jacobson (1993), section 3.3: a distance counts from the next instruction, and
/// a test is of unsigned numbers.
pub fn jumps()
    ensures ja_by_0 { Jumps (BPF_STMT (BPF_JMP + BPF_JA) 0) 7 9 1 }
    ensures ja_passes_over { Jumps (BPF_STMT (BPF_JMP + BPF_JA) 5) 7 9 6 }
    ensures jeq_k { Jumps (BPF_JUMP (BPF_JMP + BPF_JEQ + BPF_K) 7 255 1) 7 9 256 }
    ensures jeq_k_not { Jumps (BPF_JUMP (BPF_JMP + BPF_JEQ + BPF_K) 9 1 255) 7 9 256 }
    ensures jeq_x { Jumps (BPF_JUMP (BPF_JMP + BPF_JEQ + BPF_X) 0 2 3) 9 9 3 }
    ensures jeq_x_not { Jumps (BPF_JUMP (BPF_JMP + BPF_JEQ + BPF_X) 0 2 3) 7 9 4 }
    ensures jgt_k_is_unsigned { Jumps (BPF_JUMP (BPF_JMP + BPF_JGT + BPF_K) 1 2 3) 0x80000000 9 3 }
    ensures jgt_k_not_of_the_same { Jumps (BPF_JUMP (BPF_JMP + BPF_JGT + BPF_K) 7 2 3) 7 9 4 }
    ensures jgt_x { Jumps (BPF_JUMP (BPF_JMP + BPF_JGT + BPF_X) 0 2 3) 10 9 3 }
    ensures jgt_x_not_of_the_same { Jumps (BPF_JUMP (BPF_JMP + BPF_JGT + BPF_X) 0 2 3) 9 9 4 }
    ensures jge_k_of_the_same { Jumps (BPF_JUMP (BPF_JMP + BPF_JGE + BPF_K) 7 2 3) 7 9 3 }
    ensures jge_k_not { Jumps (BPF_JUMP (BPF_JMP + BPF_JGE + BPF_K) 8 2 3) 7 9 4 }
    ensures jge_x_of_the_same { Jumps (BPF_JUMP (BPF_JMP + BPF_JGE + BPF_X) 0 2 3) 9 9 3 }
    ensures jge_x_not { Jumps (BPF_JUMP (BPF_JMP + BPF_JGE + BPF_X) 0 2 3) 8 9 4 }
    ensures jset_k { Jumps (BPF_JUMP (BPF_JMP + BPF_JSET + BPF_K) 0x80000001 2 3) 0x80000000 9 3 }
    ensures jset_k_not { Jumps (BPF_JUMP (BPF_JMP + BPF_JSET + BPF_K) 0x7fffffff 2 3) 0x80000000 9 4 }
    ensures jset_x { Jumps (BPF_JUMP (BPF_JMP + BPF_JSET + BPF_X) 0 2 3) 8 9 3 }
    ensures jset_x_not { Jumps (BPF_JUMP (BPF_JMP + BPF_JSET + BPF_X) 0 2 3) 6 9 4 }
    ensures ret_k { Stops (BPF_STMT (BPF_RET + BPF_K) 0xffffffff) nothing 7 9 0xffffffff }
    ensures ret_a { Stops (BPF_STMT (BPF_RET + BPF_A) 0) nothing 7 9 7 }
{}
