//! Laws that each way is needed in which a script has a fault: there is a text that has it by this way alone. By
//! `change_script::one_script_or_one_fault` these have no other fault, and are no scripts.

ghost use Rattle.std.specs.Prelude.{[], ◌∷◌, ◌++◌, codes};
ghost use Rattle.change_script.specs.ScriptFiles.{IsScriptFault};
ghost use Rattle.change_script.specs.declared.error.ScriptError.TheVariants.{BadLine, NoEnd, NoStart, NumberTooBig, Order};

/// Each place at which a statement can't stand: before what it needs, behind what it can't follow, or twice.
pub fn each_place_of_a_statement_is_needed()
    ensures start_without_use { IsScriptFault (codes "start A") (Order 1) }
    ensures second_start { IsScriptFault (codes "use a\nstart A\nuse b\nstart A") (Order 4) }
    ensures run_before_start { IsScriptFault (codes "run 1") (Order 1) }
    ensures change_before_start { IsScriptFault (codes "use a\nchange to A within 1") (Order 2) }
    ensures show_before_start { IsScriptFault (codes "show") (Order 1) }
    ensures finish_before_start { IsScriptFault (codes "finish within 1") (Order 1) }
    ensures use_behind_end { IsScriptFault (codes "end\nuse a") (Order 2) }
    ensures start_behind_end { IsScriptFault (codes "use a\nend\nstart A") (Order 3) }
    ensures run_behind_end { IsScriptFault (codes "use a\nstart A\nend\nrun 1") (Order 4) }
    ensures change_behind_end { IsScriptFault (codes "use a\nstart A\nend\nchange to A within 1") (Order 4) }
    ensures show_behind_end { IsScriptFault (codes "use a\nstart A\nend\nshow") (Order 4) }
    ensures finish_behind_end { IsScriptFault (codes "use a\nstart A\nend\nfinish within 1") (Order 4) }
    ensures second_end { IsScriptFault (codes "end\nend") (Order 2) }
    ensures use_behind_finish { IsScriptFault (codes "use a\nstart A\nfinish within 1\nuse a") (Order 4) }
    ensures run_behind_finish { IsScriptFault (codes "use a\nstart A\nfinish within 1\nrun 1") (Order 4) }
    ensures change_behind_finish { IsScriptFault (codes "use a\nstart A\nfinish within 1\nchange to A within 1") (Order 4) }
    ensures show_behind_finish { IsScriptFault (codes "use a\nstart A\nfinish within 1\nshow") (Order 4) }
    ensures second_finish { IsScriptFault (codes "use a\nstart A\nfinish within 1\nfinish within 1") (Order 4) }
{}

/// Each statement that a script lacks, where it has the other one.
pub fn each_end_of_a_script_is_needed()
    ensures no_start { IsScriptFault (codes "use a\nend") NoStart }
    ensures no_end { IsScriptFault (codes "use a\nstart A\nrun 1") NoEnd }
{}

/// Each word of a statement that isn't what its form asks for.
pub fn each_word_of_a_statement_is_needed()
    ensures verb { IsScriptFault (codes "start? A") (BadLine 1) }
    ensures file { IsScriptFault (codes "use " ++ 255 ∷ []) (BadLine 1) }
    ensures start_name { IsScriptFault (codes "start 1") (BadLine 1) }
    ensures start_argument { IsScriptFault (codes "start A(x)") (BadLine 1) }
    ensures run_count { IsScriptFault (codes "run x") (BadLine 1) }
    ensures change_name { IsScriptFault (codes "change to 1 within 1") (BadLine 1) }
    ensures change_argument { IsScriptFault (codes "change to A(x) within 1") (BadLine 1) }
    ensures change_count { IsScriptFault (codes "change to A within x") (BadLine 1) }
    ensures move_source { IsScriptFault (codes "change to A within 1 moving 1 -> a") (BadLine 1) }
    ensures move_target { IsScriptFault (codes "change to A within 1 moving a -> 1") (BadLine 1) }
    ensures finish_count { IsScriptFault (codes "finish within x") (BadLine 1) }
{}

/// Each word that a form lacks, or has too many.
pub fn each_form_of_a_statement_is_needed()
    ensures use_without_blank { IsScriptFault (codes "usea") (BadLine 1) }
    ensures use_without_name { IsScriptFault (codes "use") (BadLine 1) }
    ensures use_of_two { IsScriptFault (codes "use a b") (BadLine 1) }
    ensures start_without_name { IsScriptFault (codes "start") (BadLine 1) }
    ensures start_unclosed { IsScriptFault (codes "start A(1") (BadLine 1) }
    ensures start_and_more { IsScriptFault (codes "start A B") (BadLine 1) }
    ensures run_without_count { IsScriptFault (codes "run") (BadLine 1) }
    ensures run_and_more { IsScriptFault (codes "run 1 1") (BadLine 1) }
    ensures change_without_to { IsScriptFault (codes "change at A within 1") (BadLine 1) }
    ensures change_without_within { IsScriptFault (codes "change to A below 1") (BadLine 1) }
    ensures change_without_moving { IsScriptFault (codes "change to A within 1 taking a -> b") (BadLine 1) }
    ensures change_without_moves { IsScriptFault (codes "change to A within 1 moving") (BadLine 1) }
    ensures change_and_more { IsScriptFault (codes "change to A within 1 moving a -> b c") (BadLine 1) }
    ensures finish_without_within { IsScriptFault (codes "finish below 1") (BadLine 1) }
    ensures finish_and_more { IsScriptFault (codes "finish within 1 1") (BadLine 1) }
    ensures show_and_more { IsScriptFault (codes "show 1") (BadLine 1) }
    ensures end_and_more { IsScriptFault (codes "end 1") (BadLine 1) }
{}

/// Each number of a statement that is beyond its limit.
pub fn each_number_of_a_statement_is_needed()
    ensures start_argument { IsScriptFault (codes "start A(2147483648)") (NumberTooBig 1) }
    ensures start_negative { IsScriptFault (codes "start A(-2147483649)") (NumberTooBig 1) }
    ensures run_count { IsScriptFault (codes "run 4294967296") (NumberTooBig 1) }
    ensures change_argument { IsScriptFault (codes "change to A(2147483648) within 1") (NumberTooBig 1) }
    ensures change_count { IsScriptFault (codes "change to A within 4294967296") (NumberTooBig 1) }
    ensures move_source { IsScriptFault (codes "change to A within 1 moving a[4294967296] -> b") (NumberTooBig 1) }
    ensures move_target { IsScriptFault (codes "change to A within 1 moving a -> b[4294967296]") (NumberTooBig 1) }
    ensures finish_count { IsScriptFault (codes "finish within 4294967296") (NumberTooBig 1) }
{}
