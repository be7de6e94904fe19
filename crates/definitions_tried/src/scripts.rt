//! Scripts, as docs/formats.md has them.

ghost use Rattle.std.specs.Prelude.{◌≡◌, [], ◌∷◌, ◌^◌, Err, None, Ok, codes, false, is_some, replicate, true};
ghost use Rattle.mk_script.specs.declared.fault.ScriptFaultKind.TheVariants.{AfterCores, BadLine, BadNumber, NoCores, Twice};
ghost use Rattle.mk_script.specs.Drafts.{Whole, limits_of, script_draft};
ghost use Rattle.mk_script.specs.Meanings.{Budgets, Limits, known};
ghost use Rattle.mk_script.specs.Rows.{command_of, event_of};
ghost use Rattle.mk_script.specs.Statements.{plain, statements};
ghost use Rattle.mk_script.specs.Threads.{for_simulation, for_threads};
ghost use Rattle.mk_script.specs.Words.{is_name, number_below};
ghost use Rattle.definitions_tried.specs.Scripts.{a_name, asm_of_one_line, lines_and_blanks};

/// The words of lines, by "Scripts": what each command takes, and which of them only a simulation knows. A name
/// begins with a letter and has 32 bytes at most.
pub fn script_words()
    ensures most_cores { is_some (command_of false (codes "cores" ∷ replicate 8 (codes "9"))) ≡ true }
    ensures no_65_cores { command_of false (codes "cores" ∷ replicate 65 (codes "9")) ≡ None }
    ensures of_limits { is_some (command_of true (codes "limits" ∷ codes "1" ∷ codes "65536" ∷ [])) ≡ true }
    ensures of_a_mint { is_some (command_of true (codes "mint" ∷ codes "1" ∷ codes "2" ∷ codes "3" ∷ codes "rm" ∷ [])) ≡ true }
    ensures no_such_rights { command_of true (codes "mint" ∷ codes "1" ∷ codes "2" ∷ codes "3" ∷ codes "mr" ∷ []) ≡ None }
    ensures too_few_words { command_of false (codes "install" ∷ codes "1" ∷ codes "1" ∷ []) ≡ None }
    ensures of_a_short_take { is_some (command_of false (codes "take" ∷ codes "1" ∷ codes "0" ∷ codes "short" ∷ [])) ≡ true }
    ensures not_for_threads { command_of true (codes "settle" ∷ []) ≡ None }
    ensures of_a_trace { is_some (event_of (codes "take" ∷ codes "1" ∷ codes "0" ∷ [])) ≡ true }
    ensures no_request_in_a_trace { event_of (codes "create" ∷ codes "1" ∷ codes "7" ∷ []) ≡ None }
    ensures longest_name { is_name (a_name 31) ≡ true }
    ensures too_long_a_name { is_name (a_name 32) ≡ false }
    ensures no_name_by_a_digit { is_name (codes "1a") ≡ false }
    ensures greatest_domain { number_below (2 ^ 16) (codes "65535") ≡ Ok 65535 }
    ensures no_greater_domain { number_below (2 ^ 16) (codes "65536") ≡ Err BadNumber }
{}

/// What `limits` and `cores` ask for, by the lines before them: the first gives the limits, once and before `cores`, and with it
/// `cores` has up to 64 budgets in place of 8.
pub fn script_limits()
    ensures limits { script_draft (for_threads []) (known []) 0 (codes "limits" ∷ codes "1" ∷ codes "65536" ∷ []) [] None ≡ Ok (Whole (Limits (limits_of 1 65536))) }
    ensures not_0 { script_draft (for_threads []) (known []) 0 (codes "limits" ∷ codes "0" ∷ codes "1" ∷ []) [] None ≡ Err BadNumber }
    ensures no_more { script_draft (for_threads []) (known []) 0 (codes "limits" ∷ codes "1" ∷ codes "65537" ∷ []) [] None ≡ Err BadNumber }
    ensures once { script_draft (for_threads []) (known (Limits (limits_of 2 3) ∷ [])) 0 (codes "limits" ∷ codes "1" ∷ codes "1" ∷ []) [] None ≡ Err Twice }
    ensures before_cores { script_draft (for_threads []) (known (Budgets (9 ∷ []) ∷ [])) 0 (codes "limits" ∷ codes "1" ∷ codes "1" ∷ []) [] None ≡ Err AfterCores }
    ensures twice_first { script_draft (for_threads []) (known (Limits (limits_of 2 3) ∷ Budgets (9 ∷ []) ∷ [])) 0 (codes "limits" ∷ codes "1" ∷ codes "1" ∷ []) [] None ≡ Err Twice }
    ensures no_cores_yet { script_draft (for_threads []) (known (Limits (limits_of 2 3) ∷ [])) 0 (codes "create" ∷ codes "1" ∷ codes "7" ∷ []) [] None ≡ Err NoCores }
    ensures eight_cores { script_draft (for_simulation []) (known []) 0 (codes "cores" ∷ replicate 8 (codes "9")) [] None ≡ Ok (Whole (Budgets (replicate 8 9))) }
    ensures no_nine_cores { script_draft (for_simulation []) (known []) 0 (codes "cores" ∷ replicate 9 (codes "9")) [] None ≡ Err BadLine }
    ensures line_first { script_draft (for_simulation []) (known []) 0 (codes "cores" ∷ replicate 9 (codes "x")) [] None ≡ Err BadLine }
    ensures most_cores_by_limits { script_draft (for_simulation []) (known (Limits (limits_of 2 3) ∷ [])) 0 (codes "cores" ∷ replicate 64 (codes "9")) [] None ≡ Ok (Whole (Budgets (replicate 64 9))) }
    ensures no_more_by_limits { script_draft (for_simulation []) (known (Limits (limits_of 2 3) ∷ [])) 0 (codes "cores" ∷ replicate 65 (codes "9")) [] None ≡ Err BadLine }
{}

/// The lines of a text: those that are empty or begin with `#` are skipped and counted, and `asm` goes on to `end`.
pub fn script_lines()
    ensures skipped_and_counted { statements lines_and_blanks ≡ plain 3 (codes "settle") ∷ plain 4 (codes "show 0") ∷ [] }
    ensures block { statements (codes "asm a\nret #0\nend\n") ≡ asm_of_one_line ∷ [] }
{}
