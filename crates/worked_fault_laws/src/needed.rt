//! Laws that each case of a definition of faults is needed, each as the contract of a function that does nothing.

ghost use Rattle.std.specs.Prelude.{[], ◌∷◌, ◌++◌, codes, replicate};
ghost use Rattle.std.specs.List.{flat_map, range_with_len};
ghost use Rattle.change_script.specs.EventFiles.{IsFirstFault};
ghost use Rattle.change_script.specs.ScriptFiles.{IsScriptFault};
ghost use Rattle.change_script.specs.declared.error.ScriptError.TheVariants.{BadLine, NoEnd, NoStart, NumberTooBig, Order, TooManyLines};
ghost use Rattle.change_plan.specs.declared.error.PlanError.TheVariants.{KindsDiffer, MovedTwice, NodesFull, NotCreated, NotRemoved, PortsFull};
ghost use Rattle.darwin_lexer.specs.declared.front.LexicalFault.{LexicalFault};
ghost use Rattle.darwin_lexer.specs.declared.front.LexicalFault.TheVariants.{BadByte, LongName, OpenComment};
ghost use Rattle.darwin_lexer.specs.declared.token.At.{At};
ghost use Rattle.darwin_lexer.specs.Tokens.{FirstFault};
ghost use Rattle.darwin_parser.specs.Refusals.{IsTooNested, IsUnexpected};
ghost use Rattle.darwin_types.specs.FaultCases as check_faults;
ghost use Rattle.elaborator.specs.FaultCases as elaboration_faults;
ghost use Rattle.worked_fault_laws.specs.Checks as checks;
ghost use Rattle.worked_fault_laws.specs.Elaborations as elaborations;
ghost use Rattle.worked_fault_laws.specs.Plans.{IsRefused, a_to_c, b_to_c, empty, fork_b, made, move, one, sink_a, sink_b, sink_c, source_b, two};
ghost use Rattle.report_texts.specs.Stages.{IsReportFault};
ghost use Rattle.report_texts.specs.declared.error.ReportFault.TheVariants as faults;
ghost use Rattle.worked_fault_laws.specs.Texts.{parentheses, ranges, signs, text_of, too_nested, unexpected, unfinished, without_braces};
ghost use Rattle.darwin_parser.specs.Trees.{at};

/// For each fault of a text there is one whose first fault it is, and texts that have it otherwise: a comment that only
/// its own star closes, a name of digits, a byte that is half a sign, and a fault behind a token or a comment. By
/// `darwin_lexer::one_reading` these have no other, and are no tokens.
pub fn each_fault_of_a_text_is_needed()
    ensures each { (fault : LexicalFault) → (place : At) × FirstFault (text_of fault) fault place }
    ensures own_star { FirstFault (codes "/*/") OpenComment (at 1 1) }
    ensures name_of_digits { FirstFault (codes "_" ++ replicate 64 48) LongName (at 1 1) }
    ensures half_sign { FirstFault (codes "!") BadByte (at 1 1) }
    ensures behind_token { FirstFault (codes "a ?") BadByte (at 1 3) }
    ensures behind_comment { FirstFault (codes "//\n?") BadByte (at 2 1) }
{}

/// There are tokens of which one can't stand where it does, tokens that end too soon, and tokens of which one is too
/// nested: by each that opens a level. By `darwin_parser::one_answer` these have no other refusal, and are no unit.
pub fn each_refusal_of_tokens_is_needed()
    ensures unexpected { IsUnexpected [] unexpected 0 }
    ensures unfinished { IsUnexpected [] unfinished 1 }
    ensures too_nested { IsTooNested [] too_nested 51 }
    ensures without_braces { IsTooNested [] without_braces 35 }
    ensures ranges { IsTooNested [] ranges 115 }
    ensures parentheses { IsTooNested [] parentheses 36 }
    ensures signs { IsTooNested [] signs 36 }
{}

/// For each case of the faults of `check` there is a description in which a fault stands by it, and none by another.
pub fn each_case_of_a_check_is_needed()
    ensures { (case : check_faults.Case) → checks.StandsAlone (checks.description case) case }
{}

/// For each case of the faults of an elaboration there is a checked description that has a fault by it, and none by
/// another.
pub fn each_case_of_an_elaboration_is_needed()
    ensures { (case : elaboration_faults.Case) → elaborations.StandsAlone (elaborations.query case) case }
{}

/// For each refusal of a plan there are two graphs and moves that have it. A source isn't removed, or a target
/// created, where no node is there, where the node is in both graphs, and where it has another path; and the moves
/// may have either end twice. By `change_plan::a_plan_or_a_refusal` they have no other, and no plan.
pub fn each_refusal_of_a_plan_is_needed()
    ensures not_removed { IsRefused empty empty (move ∷ []) (made 0 0) (NotRemoved (codes "a")) }
    ensures source_stays { IsRefused (one sink_a) (one sink_a) (move ∷ []) (made 0 0) (NotRemoved (codes "a")) }
    ensures other_source { IsRefused (one sink_b) empty (move ∷ []) (made 0 0) (NotRemoved (codes "a")) }
    ensures not_created { IsRefused (one sink_a) empty (move ∷ []) (made 0 0) (NotCreated (codes "b")) }
    ensures target_stays { IsRefused (two sink_a sink_b) (one sink_b) (move ∷ []) (made 0 0) (NotCreated (codes "b")) }
    ensures other_target { IsRefused (one sink_a) (one sink_c) (move ∷ []) (made 0 0) (NotCreated (codes "b")) }
    ensures kinds_differ { IsRefused (one sink_a) (one fork_b) (move ∷ []) (made 0 0) (KindsDiffer (codes "a") (codes "b")) }
    ensures moved_twice { IsRefused (one sink_a) (one sink_b) (move ∷ move ∷ []) (made 0 0) (MovedTwice (codes "a")) }
    ensures source_twice { IsRefused (one sink_a) (two sink_b sink_c) (move ∷ a_to_c ∷ []) (made 0 0) (MovedTwice (codes "a")) }
    ensures target_twice { IsRefused (two sink_a sink_b) (one sink_c) (a_to_c ∷ b_to_c ∷ []) (made 0 0) (MovedTwice (codes "c")) }
    ensures nodes_full { IsRefused empty (one sink_b) [] (made 1023 0) (NodesFull 1023 1) }
    ensures ports_full { IsRefused empty (one source_b) [] (made 0 4096) (PortsFull 4096 1) }
{}

/// For each refusal of a script there is a text that has it. By `change_script::one_script_or_one_fault` it has no
/// other, and is no script.
pub fn each_refusal_of_a_script_is_needed()
    ensures bad_line { IsScriptFault (codes "?") (BadLine 1) }
    ensures too_big { IsScriptFault (codes "run 4294967296") (NumberTooBig 1) }
    ensures order { IsScriptFault (codes "run 1") (Order 1) }
    ensures too_many { IsScriptFault (flat_map (λ _. codes "use a\n") (range_with_len 0 257)) (TooManyLines 257) }
    ensures no_start { IsScriptFault [] NoStart }
    ensures no_end { IsScriptFault (codes "use a\nstart A") NoEnd }
{}

/// For each refusal of a report there is a text that has it: of its first line, of one within, of what stands behind
/// the last, and of a text that ends too soon. By `report_texts::one_report_or_one_fault` these have no other, and
/// are no reports.
pub fn each_refusal_of_a_report_is_needed()
    ensures bad_line { IsReportFault (codes "?\n") (faults.BadLine 1) }
    ensures bad_version { IsReportFault (codes "report 3\n") (faults.BadLine 1) }
    ensures bad_history { IsReportFault (codes "report 2\nopen 0 1\n") (faults.BadLine 2) }
    ensures bad_end { IsReportFault (codes "report 2\nstatus 0\n?") (faults.BadLine 3) }
    ensures short { IsReportFault [] faults.Short }
    ensures short_history { IsReportFault (codes "report 2\n") faults.Short }
{}

/// For each refusal of an event file there is a text that has it. By `change_script::one_file_or_one_fault` it has no
/// other, and is no event file.
pub fn each_refusal_of_events_is_needed()
    ensures bad_line { IsFirstFault (codes "?") (BadLine 1) }
    ensures too_big { IsFirstFault (codes "start A(2147483648)") (NumberTooBig 1) }
    ensures order { IsFirstFault (codes "close 1") (Order 1) }
    ensures no_start { IsFirstFault [] NoStart }
{}
