//! Filters as texts.

ghost use Rattle.std.specs.Prelude.{◌≡◌, [], ◌∷◌, Err, Ok, Some, codes, false, true};
ghost use Rattle.bpf_insn.specs.AsmText.{asm_text};
ghost use Rattle.bpf_insn.specs.Ddd.{Ddd, Faults};
ghost use Rattle.bpf_insn.specs.declared.ddd.TextFault.TheVariants.{CountMismatch, TooLong};
ghost use Rattle.bpf_insn.specs.DddText.{ddd_text};
ghost use Rattle.console.specs.Telling.{is_expression};
ghost use Rattle.filter_asm.specs.declared.fault.AsmFaultKind.TheVariants as asm_fault;
ghost use Rattle.filter_asm.specs.Program.{Asm, assembled, room_behind, short_reach};
ghost use Rattle.definitions_tried.specs.Texts.{arp_all, arp_assembler, arp_labelled, arp_lines, arp_numbers, computing_insns, computing_lines, fault, jumping_insns, jumping_lines, labelled, looping, moving_insns, moving_lines, return_0, testing_insns, testing_lines, unlabelled};

/// The numbers of a program, as `tcpdump -ddd` writes them (tcpdump(1)), a line an instruction, and as Linux'
/// `bpf_asm` does, on one line with commas.
pub fn decimal_texts()
    ensures of_tcpdump { Ddd arp_lines arp_all }
    ensures of_bpf_asm { Ddd arp_numbers arp_all }
    ensures written { ddd_text arp_all ≡ arp_lines }
    ensures count_of_4096 { Faults (codes "4096") CountMismatch }
    ensures count_of_4097 { Faults (codes "4097") TooLong }
    ensures not_too_long_at_4096 { Faults (codes "4096") TooLong → ⊥ }
{}

/// Which texts of CODE are filter expressions: those of pcap-filter(7) begin with a word, a parenthesis, `!` or an escaped
/// name, and the numbers that `tcpdump -ddd` writes with a digit.
pub fn told_texts()
    ensures of_a_word { is_expression (codes "tcp port 80") ≡ true }
    ensures of_a_parenthesis { is_expression (codes "(arp or ip6) and not vlan") ≡ true }
    ensures of_a_negation { is_expression (codes "!ip") ≡ true }
    ensures of_an_escape { is_expression (92 ∷ codes "icmp") ≡ true }
    ensures of_blanks_before { is_expression (32 ∷ 9 ∷ 13 ∷ 10 ∷ codes "arp") ≡ true }
    ensures of_numbers { is_expression arp_numbers ≡ false }
    ensures of_blanks_before_numbers { is_expression (32 ∷ 10 ∷ codes "1,6 0 0 1") ≡ false }
    ensures of_nothing { is_expression [] ≡ false }
    ensures of_blanks { is_expression (32 ∷ 10 ∷ []) ≡ false }
{}

/// The example "ARP packets" of Linux' documentation, which `bpf_asm` takes, and the labelled lines that stand for
/// the program: a test has both its targets there.
pub fn assembler_texts()
    ensures of_linux { Asm arp_assembler arp_all }
    ensures written { asm_text arp_all ≡ arp_labelled }
    ensures jumps { assembled jumping_lines ≡ Ok jumping_insns }
    ensures moves { assembled moving_lines ≡ Ok moving_insns }
    ensures computes { assembled computing_lines ≡ Ok computing_insns }
    ensures tests { assembled testing_lines ≡ Ok testing_insns }
{}

/// Texts that stand for no program (docs/formats.md, "Assembler text"). A conditional jump passes over 255
/// instructions at most, as its distances are bytes; a program has 4,096 instructions at most, as in Linux.
pub fn refused_texts()
    ensures mnemonic { assembled (return_0 ∷ unlabelled (codes "return" ∷ []) ∷ []) ≡ Err (fault 2 asm_fault.Mnemonic) }
    ensures operand { assembled (unlabelled (codes "ret" ∷ codes "0" ∷ []) ∷ []) ≡ Err (fault 1 asm_fault.Operand) }
    ensures number { assembled (unlabelled (codes "ret" ∷ codes "#" ∷ codes "4294967296" ∷ []) ∷ []) ≡ Err (fault 1 asm_fault.Number) }
    ensures second_label { assembled (labelled (codes "a") ∷ return_0 ∷ labelled (codes "a") ∷ []) ≡ Err (fault 3 asm_fault.TwiceLabel) }
    ensures no_label { assembled (unlabelled (codes "ja" ∷ codes "a" ∷ []) ∷ labelled (codes "b") ∷ []) ≡ Err (fault 1 asm_fault.NoLabel) }
    ensures backward { assembled (labelled (codes "a") ∷ unlabelled (codes "ja" ∷ codes "a" ∷ []) ∷ []) ≡ Err (fault 2 asm_fault.Backward) }
    ensures to_itself { assembled (looping ∷ []) ≡ Err (fault 1 asm_fault.Backward) }
    ensures over_255 { short_reach 0 (Some 256) ≡ Ok 255 }
    ensures over_256 { short_reach 0 (Some 257) ≡ Err asm_fault.TooFar }
    ensures most_instructions { room_behind 4095 ≡ Ok 4095 }
    ensures one_more { room_behind 4096 ≡ Err asm_fault.TooLong }
{}
