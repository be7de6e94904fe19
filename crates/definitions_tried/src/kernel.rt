//! Programs of Linux, with their verdicts.

ghost use Rattle.std.specs.Prelude.{[], ◌∷◌};
ghost use Rattle.bpf_insn.specs.Machine.{Ends};
ghost use Rattle.definitions_tried.specs.Filters.{whole};
ghost use Rattle.definitions_tried.specs.Kernel.{add_sub_mul, div_mod, and_or_lsh, tax, txa, ret_a, ld_abs, ld_ind, jeq, jgt, jge, jset};

/// Whole programs with the verdicts that Linux expects of them, after cases of its lib/test_bpf.c, which `specs/Kernel.antt`
/// names.
pub fn kernel_programs()
    ensures add_sub_mul { Ends add_sub_mul (whole ([])) 0xfffffffd 7 }
    ensures div_mod { Ends div_mod (whole ([])) 0x20000000 16 }
    ensures and_or_lsh { Ends and_or_lsh (whole ([])) 0x800000ff 8 }
    ensures tax_of_3 { Ends tax (whole (10 ∷ 20 ∷ 30 ∷ [])) 20 11 }
    ensures tax_of_4 { Ends tax (whole (10 ∷ 20 ∷ 30 ∷ 40 ∷ [])) 30 11 }
    ensures txa_of_1 { Ends txa (whole (10 ∷ [])) 2 4 }
    ensures txa_of_3 { Ends txa (whole (10 ∷ 20 ∷ 30 ∷ [])) 6 4 }
    ensures txa_of_4 { Ends txa (whole (10 ∷ 20 ∷ 30 ∷ 40 ∷ [])) 8 4 }
    ensures ret_a_of_1 { Ends ret_a (whole (10 ∷ [])) 0 2 }
    ensures ld_abs_of_10 { Ends ld_abs (whole (0 ∷ 0 ∷ 0 ∷ 0 ∷ 0 ∷ 0 ∷ 0 ∷ 0 ∷ 0 ∷ 0 ∷ [])) 0 1 }
    ensures ld_ind_of_1 { Ends ld_ind (whole (0 ∷ [])) 0 2 }
    ensures ld_ind_of_10 { Ends ld_ind (whole (0 ∷ 0 ∷ 0 ∷ 0 ∷ 0 ∷ 0 ∷ 0 ∷ 0 ∷ 0 ∷ 0 ∷ [])) 0 2 }
    ensures jeq_of_1 { Ends jeq (whole (3 ∷ [])) 0 2 }
    ensures jeq_of_3 { Ends jeq (whole (3 ∷ 3 ∷ 3 ∷ [])) 1 4 }
    ensures jeq_of_4 { Ends jeq (whole (3 ∷ 3 ∷ 3 ∷ 3 ∷ [])) 0xffffffff 4 }
    ensures jgt_of_2 { Ends jgt (whole (4 ∷ 4 ∷ [])) 0 2 }
    ensures jgt_of_3 { Ends jgt (whole (4 ∷ 4 ∷ 4 ∷ [])) 1 4 }
    ensures jgt_of_4 { Ends jgt (whole (4 ∷ 4 ∷ 4 ∷ 3 ∷ [])) 0xffffffff 4 }
    ensures jge_of_2 { Ends jge (whole (4 ∷ 4 ∷ [])) 0 2 }
    ensures jge_of_3 { Ends jge (whole (4 ∷ 4 ∷ 4 ∷ [])) 1 4 }
    ensures jge_of_4 { Ends jge (whole (4 ∷ 4 ∷ 4 ∷ 3 ∷ [])) 1 4 }
    ensures jset_of_4 { Ends jset (whole (0 ∷ 170 ∷ 85 ∷ 1 ∷ [])) 10 10 }
    ensures jset_of_5 { Ends jset (whole (0 ∷ 170 ∷ 85 ∷ 1 ∷ 0 ∷ [])) 20 11 }
    ensures jset_of_6 { Ends jset (whole (0 ∷ 170 ∷ 85 ∷ 1 ∷ 0 ∷ 0 ∷ [])) 0xffffffff 12 }
{}
