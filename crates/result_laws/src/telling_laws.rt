//! Texts tell reports and parts.

ghost use Rattle.std.specs.Prelude.{◌≡◌, ◌≤◌, ◌<◌, ◌^◌, ℕ, Bool, IfSome, List, Ok, Option, Some, length};
ghost use Rattle.cfg_io.specs.Shelf.{Files};
ghost use Rattle.std.specs.List.{AllByRecursion};
ghost use Rattle.change_spec.specs.Lawful.{Lawful};
ghost use Rattle.change_spec.specs.Statements.{Statement};
ghost use Rattle.config_graph.specs.Graph.{Graph};
ghost use Rattle.config_graph.specs.Sound.{Sound};
ghost use Rattle.change_parts.specs.declared.part.Part.{Part};
ghost use Rattle.report_writing.specs.Reports.{report_text};
ghost use Rattle.report_types.specs.declared.report.NodeLog.{NodeLog};
ghost use Rattle.report_types.specs.declared.report.Report.{Report};
ghost use Rattle.report_types.specs.declared.script.Script.{Script};
ghost use Rattle.change_script.specs.ScriptFiles.{IsScript};
ghost use Rattle.change_spec.specs.Scripts.{StatementsOf};
ghost use Rattle.report_texts.specs.ReportTexts.{IsReport};
ghost use Rattle.report_texts.specs.Stages.{reading};
ghost use Rattle.report_texts.specs.declared.version.Version.TheVariants as versions;
ghost use Rattle.command_answers.specs.PartTexts.{parts_text, roll_text};
ghost use Rattle.command_answers.specs.declared.status.Status.{Status};
ghost use Rattle.command_words.specs.declared.words.Command.{Command};
ghost use Rattle.command_words.specs.declared.words.Command.TheVariants as commands;
ghost use Rattle.command_spec.specs.Endings.{RefusesNothing};
ghost use Rattle.command_spec.specs.Files.{StillHolds};
ghost use Rattle.command_spec.specs.Known.{AsksOf};
ghost use Rattle.command_spec.specs.Outcomes.{Ends, Judged, ReadFrom, WasRunBy};
ghost use Rattle.command_spec.specs.Runs.{Run, Runs};
ghost use Rattle.command_spec.specs.Schedules.{Schedule};
ghost use Rattle.command_spec.specs.Scripts.{Elaborates, prepares};
ghost use Rattle.command_spec.specs.Sorts.{limit_of, of_report};
ghost use Rattle.result_laws.specs.Telling.{AreStated, CountFits, NumbersFit, StateFits, TellsItself};
ghost use Rattle.result_laws.specs.PartTelling.{HasWordPaths, HaveWordPaths, plan_texts};

use change_script::{lines_mean_what_their_forms_say, names_are_those_of_the_language};
use change_script_laws::paths_of_nodes_are_paths;
use change_spec::a_moved_state_is_the_last_one;
use command_spec::a_check_of_what_was_run_is_consistent;
use darwin_lexer::fronts_as_spelled;
use elaborator::paths_are_words;
use report_texts::a_written_report_is_read;

/// Each last state of a lawful report is of numbers below 2^64: a source's count, a buffer's items, an account's amount. So
/// all of its numbers are, where those of its `run` lines are. No rule bounds these, and a text's reader does.
pub fn last_states_fit()
    ensures states { (statements : List Statement) (report : Report) → Lawful statements report
        → AllByRecursion (λ (log : NodeLog). StateFits log.last) report.logs }
    ensures all { (statements : List Statement) (report : Report) → Lawful statements report
        → AllByRecursion CountFits report.history → NumbersFit report }
{
    a_moved_state_is_the_last_one();
}

/// The numbers that no rule of a report bounds are below 2^64 in the report of each run. A port's serials end at
/// 16,777,215, and a run has 4,096 ports at most, so no more transactions end; a count is one more at most. What an account
/// has is kept below, and so are values.
pub fn numbers_of_runs_fit()
    ensures fit { (schedule : Schedule) (files : Option Files) (name : List ℕ) (own : Status)
        → (ran : WasRunBy schedule files name own) → NumbersFit ran.report }
{
    a_moved_state_is_the_last_one();
}

/// A consistent report of stated statements whose numbers fit is one that can be written and read again. The statements of a
/// script are stated, since names and paths are words of the language. So the report of a run, in rounds or on threads, is
/// read again from its text.
pub fn texts_tell_the_reports_of_runs()
    ensures consistent { (statements : List Statement) (report : Report) → TellsItself statements report }
    ensures stated { (files : Option Files) (bytes : List ℕ) (script : Script) (statements : List Statement)
        → IsScript bytes script → StatementsOf (Elaborates files) script statements → AreStated statements }
    ensures told { (schedule : Schedule) (files : Option Files) (name : List ℕ) (own : Status)
        → (ran : WasRunBy schedule files name own) → IsReport versions.Second ran.report }
    ensures read { (schedule : Schedule) (files : Option Files) (name : List ℕ) (own : Status)
        → (ran : WasRunBy schedule files name own)
        → reading (report_text ran.report) ≡ Ok (record { version = versions.Second; report = ran.report }) }
{
    fronts_as_spelled();
    names_are_those_of_the_language();
    lines_mean_what_their_forms_say();
    paths_are_words();
    paths_of_nodes_are_paths();
    a_check_of_what_was_run_is_consistent();
    numbers_of_runs_fit();
    a_written_report_is_read();
}

/// And a check of the report that `step` or `live` wrote for the same script, where each file is still as it was then, says
/// that it is consistent. It ends with Ok, unless memory ran out or the sink failed, where nothing refuses the script and
/// a report may have so many bytes.
pub fn checks_of_runs_are_consistent()
    ensures judged { (schedule : Schedule) (before after : Files) (name file : List ℕ) (own verdict : Status)
        (also u : Option (List ℕ)) → (ran : WasRunBy schedule (Some before) name own)
        → StillHolds before after
        → (j : Judged (Some after) name file verdict also u) → j.bytes ≡ report_text ran.report → verdict ≡ Status.Ok }
    ensures ends { (knows : Command → Bool) (schedule : Schedule) (before after : Files) (name file : List ℕ)
        (own : Status) → (ran : WasRunBy schedule (Some before) name own)
        → StillHolds before after → after file ≡ Some (report_text ran.report)
        → length (report_text ran.report) ≤ limit_of of_report
        → (r : Run) → Runs knows r → ReadFrom r after → AsksOf knows r.words (commands.Check name file)
        → RefusesNothing after (prepares name)
        → Ends r.status Status.Ok }
{
    texts_tell_the_reports_of_runs();
    a_written_report_is_read();
    a_check_of_what_was_run_is_consistent();
}

/// The text of parts, and that of a roll, tells the text of each part's plan, in their order: no line of a plan begins with
/// `part`, `pending` or `done`. What a plan's text tells are its steps (`texts_tell_plans` of change_plan). That of a roll
/// tells too which part it gave up, if any, and the graph that it left.
pub fn texts_tell_parts()
    ensures parts { (a b : Graph) (ps qs : List Part) → HaveWordPaths a ps → HaveWordPaths b qs
        → parts_text a ps ≡ parts_text b qs → plan_texts a ps ≡ plan_texts b qs }
    ensures rolls { (a b : Graph) (ps qs : List Part) (given_up other : Option ℕ) (left right : Graph)
        → HaveWordPaths a ps → HaveWordPaths b qs
        → roll_text a ps given_up left ≡ roll_text b qs other right → plan_texts a ps ≡ plan_texts b qs }
    ensures ends { (a b : Graph) (ps qs : List Part) (given_up other : Option ℕ) (left right : Graph)
        → HaveWordPaths a ps → HaveWordPaths b qs
        → IfSome given_up (λ n. n < 2 ^ 64) → IfSome other (λ n. n < 2 ^ 64)
        → roll_text a ps given_up left ≡ roll_text b qs other right → given_up ≡ other }
    ensures graphs { (a b : Graph) (ps qs : List Part) (given_up other : Option ℕ) (left right : Graph)
        → HaveWordPaths a ps → HaveWordPaths b qs
        → IfSome given_up (λ n. n < 2 ^ 64) → IfSome other (λ n. n < 2 ^ 64)
        → Sound left → Sound right → HasWordPaths left → HasWordPaths right
        → roll_text a ps given_up left ≡ roll_text b qs other right → left ≡ right }
{}
