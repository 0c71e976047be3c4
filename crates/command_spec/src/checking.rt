//! A law of checks: one of the report that a run wrote says that it is consistent.

ghost use Rattle.std.specs.Prelude.{◌≡◌, ◌≤◌, ℕ, Bool, List, Option, Some, length};
ghost use Rattle.cfg_io.specs.Shelf.{Files};
ghost use Rattle.report_writing.specs.Reports.{report_text};
ghost use Rattle.change_spec.specs.Consistent.{Consistent};
ghost use Rattle.command_answers.specs.declared.status.Status.{Status};
ghost use Rattle.command_words.specs.declared.words.Command.{Command};
ghost use Rattle.command_words.specs.declared.words.Command.TheVariants as commands;
ghost use Rattle.command_spec.specs.Endings.{RefusesNothing};
ghost use Rattle.command_spec.specs.Files.{StillHolds};
ghost use Rattle.command_spec.specs.Known.{AsksOf};
ghost use Rattle.command_spec.specs.Outcomes.{Ends, Judged, ReadFrom, WasRunBy};
ghost use Rattle.command_spec.specs.Runs.{Run, Runs};
ghost use Rattle.command_spec.specs.Schedules.{Schedule};
ghost use Rattle.command_spec.specs.Scripts.{prepares};
ghost use Rattle.command_spec.specs.Sorts.{TellsReport, limit_of, of_report};

use crate::{
    check_promises, checks_end_by_what_is_lawful, runs_answer_their_commands,
    what_bytes_give_is_one, what_is_not_refused_is_answered,
};
use change_spec::lawful_reports_are_consistent;
use report_texts::one_report_or_one_fault;

/// A law of runs: the report that `step` or `live` wrote is consistent. A check of it for the same script, where each file
/// is still as it was then, says so. It ends with Ok, unless memory ran out or the sink failed, where nothing refuses the
/// script and a report may have so many bytes. That its text tells the report is asked for here; a law of result_laws
/// says so of each run (`texts_tell_the_reports_of_runs`).
pub fn a_check_of_what_was_run_is_consistent()
    ensures consistent { (schedule : Schedule) (files : Option Files) (name : List ℕ) (own : Status)
        → (ran : WasRunBy schedule files name own) → Consistent ran.statements ran.report }
    ensures judged { (schedule : Schedule) (before after : Files) (name file : List ℕ) (own verdict : Status)
        (also u : Option (List ℕ)) → (ran : WasRunBy schedule (Some before) name own)
        → TellsReport (report_text ran.report) ran.report
        → StillHolds before after
        → (j : Judged (Some after) name file verdict also u) → j.bytes ≡ report_text ran.report → verdict ≡ Status.Ok }
    ensures ends { (knows : Command → Bool) (schedule : Schedule) (before after : Files) (name file : List ℕ)
        (own : Status) → (ran : WasRunBy schedule (Some before) name own)
        → TellsReport (report_text ran.report) ran.report
        → StillHolds before after → after file ≡ Some (report_text ran.report)
        → length (report_text ran.report) ≤ limit_of of_report
        → (r : Run) → Runs knows r → ReadFrom r after → AsksOf knows r.words (commands.Check name file)
        → RefusesNothing after (prepares name)
        → Ends r.status Status.Ok }
{
    lawful_reports_are_consistent();
    one_report_or_one_fault();
    what_bytes_give_is_one();
    runs_answer_their_commands();
    check_promises();
    checks_end_by_what_is_lawful();
    what_is_not_refused_is_answered();
}
