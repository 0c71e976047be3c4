//! Laws of runs of scripts; those of which lines are refused are of a shelf that tells its files.

ghost use Rattle.std.specs.Prelude.{◌≡◌, ◌≢◌, ◌⊎◌, ◌≤◌, ℕ, Bool, true, List, [], Option, Some};
ghost use Rattle.base.specs.Each.{Each};
ghost use Rattle.command_words.specs.BigFiles.{script};
ghost use Rattle.command_words.specs.declared.big_texts.TheConstants.{MAX_LANES};
ghost use Rattle.cfg_io.specs.Shelf.{Files};
ghost use Rattle.change_script.specs.ScriptFiles.{IsScript};
ghost use Rattle.report_types.specs.declared.script.Script.{Script};
ghost use Rattle.command_answers.specs.Answers.{Refusal, description, script as script_refusal};
ghost use Rattle.command_answers.specs.declared.status.Status.{Status};
ghost use Rattle.command_spec.specs.Courses.{Follows, came};
ghost use Rattle.command_spec.specs.Endings.{Refuses, RefusesNothing, is_of_file};
ghost use Rattle.command_spec.specs.Lines.{RunLine, Progress, begun, of_lines};
ghost use Rattle.command_spec.specs.Outcomes.{Judged, Ran, SummedUp};
ghost use Rattle.command_spec.specs.Runs.{Run, Runs};
ghost use Rattle.command_spec.specs.Plans.{lines_of_change};
ghost use Rattle.command_words.specs.declared.words.Change.{Change};
ghost use Rattle.command_spec.specs.Scripts.{Elaborates, LeadTo, Uses, lines_of_script, prepares};
ghost use Rattle.command_spec.specs.RunReports.{IsReportOf};
ghost use Rattle.change_spec.specs.Scripts.{StatementsOf};
ghost use Rattle.change_spec.specs.Statements.{Statement};
ghost use Rattle.report_types.specs.declared.report.Report.{Report};
ghost use Rattle.command_spec.specs.Known.{AsksOf};
ghost use Rattle.command_words.specs.declared.words.Command.{Command};
ghost use Rattle.command_words.specs.declared.words.Command.TheVariants as commands;
ghost use Rattle.change_round_laws.specs.SoundStatements.{AreSound};
ghost use Rattle.command_spec.specs.MadeScripts.{made_script};
ghost use Rattle.change_round_laws.specs.Waits.{DrainsInTime};

use crate::{made_runs_are_not_refused, what_bytes_give_is_one};
use change_plan::a_plan_or_a_refusal;
use change_round_laws::{
    a_sound_script_has_a_report, changes_drain_within_what_is_left, reports_of_rounds_are_lawful,
};
use darwin_types::a_fault_or_none;
use elaborator::{a_graph_or_a_fault, one_graph};

/// A law: the statements of a script are sound, since its graphs are those of descriptions. So they have a report, by
/// which a run of them may end.
pub fn a_script_has_a_report()
    ensures sound { (files : Option Files) (bytes : List ℕ) (script : Script) (statements : List Statement)
        → IsScript bytes script
        → StatementsOf (Elaborates files) script statements → AreSound statements }
    ensures exists { (files : Option Files) (bytes : List ℕ) (script : Script) (statements : List Statement)
        → IsScript bytes script
        → StatementsOf (Elaborates files) script statements
        → (report : Report) × IsReportOf statements report }
{
    a_graph_or_a_fault();
    one_graph();
    a_sound_script_has_a_report();
    reports_of_rounds_are_lawful();
}

/// A law: in a run of a script, a change that may wait for at least as many rounds as events are left when its ports
/// are closed finds them all drained, and is committed. So one that is given up could wait for fewer.
pub fn changes_of_a_run_drain_in_time()
    ensures fetched { (files : Option Files) (name : List ℕ) (own : Status) (taken t : Option (List ℕ))
        → (ran : Ran files name own taken t) → Each DrainsInTime ran.was_run.is_report.serial.parts }
    ensures made { (lanes : ℕ) (own : Status) (taken t : Option (List ℕ))
        → (ran : SummedUp lanes own taken t) → Each DrainsInTime ran.was_run.is_report.serial.parts }
{
    a_script_has_a_report();
    changes_drain_within_what_is_left();
}

/// A law: a run of a script is a function of the files, and that of a made script one of the number of its lanes. Two
/// runs that end by a report write the same text, and end with the same status. So do two checks, and a script has one
/// list of statements.
pub fn a_script_has_one_run()
    ensures fetched { (files : Files) (name : List ℕ) (own other : Status) (taken t also : Option (List ℕ))
        → Ran (Some files) name own taken t → Ran (Some files) name other taken also → (own ≡ other) × (t ≡ also) }
    ensures made { (lanes : ℕ) (own other : Status) (taken t also : Option (List ℕ))
        → SummedUp lanes own taken t → SummedUp lanes other taken also → (own ≡ other) × (t ≡ also) }
    ensures checked { (files : Files) (name file : List ℕ) (own other : Status) (taken t also : Option (List ℕ))
        → Judged (Some files) name file own taken t → Judged (Some files) name file other taken also
        → (own ≡ other) × (t ≡ also) }
    ensures statements { (files : Files) (script : Script) (first second : List Statement)
        → StatementsOf (Elaborates (Some files)) script first
        → StatementsOf (Elaborates (Some files)) script second → first ≡ second }
{
    what_bytes_give_is_one();
}

/// A law: the lines of a script lead to one end at most, and none of them is refused then. Where the shelf has each file
/// that they use, they lead on or one of them is refused; and so do the lines that say a change.
pub fn lines_lead_or_are_refused()
    ensures one_end { (files : Files) (lines : List RunLine) (end other : Progress)
        → LeadTo (Some files) begun lines end → LeadTo (Some files) begun lines other → end ≡ other }
    ensures never_both { (files : Files) (lines : List RunLine) (end : Progress)
        → LeadTo (Some files) begun lines end → RefusesNothing files (of_lines begun lines) }
    ensures always_one { (files : Files) (bytes : List ℕ) (script : Script) → IsScript bytes script
        → ((file : List ℕ) → Uses (lines_of_script script.lines) file → (text : List ℕ) × (files file ≡ Some text))
        → ((end : Progress) × LeadTo (Some files) begun (lines_of_script script.lines) end)
        ⊎ ((file : List ℕ) × (words : List (List ℕ))
        × Refuses files (of_lines begun (lines_of_script script.lines)) (description file words)) }
    ensures of_a_change { (files : Files) (change : Change)
        → ((file : List ℕ) → Uses (lines_of_change change) file → (text : List ℕ) × (files file ≡ Some text))
        → ((end : Progress) × LeadTo (Some files) begun (lines_of_change change) end)
        ⊎ ((file : List ℕ) × (words : List (List ℕ))
        × Refuses files (of_lines begun (lines_of_change change)) (description file words)) }
{
    a_fault_or_none();
    a_graph_or_a_fault();
    a_plan_or_a_refusal();
}

/// A law: by its files a script is refused as one, or a line of it is, or nothing is: no two of these hold, and that
/// none holds can't be. So for each script one of three answers is due, where memory lasts.
pub fn three_things_are_asked_of_a_script()
    ensures whole_or_line { (files : Files) (name file used : List ℕ) (words why : List (List ℕ))
        → Refuses files (prepares name) (script_refusal file words)
        → ¬ Refuses files (prepares name) (description used why) }
    ensures refused_or_nothing { (files : Files) (name : List ℕ) (why : Refusal) → is_of_file why ≡ true
        → Refuses files (prepares name) why → ¬ RefusesNothing files (prepares name) }
    ensures refused_or_leads { (files : Files) (name : List ℕ) (end : Progress)
        → Follows (Some files) (prepares name) [] (came end) → RefusesNothing files (prepares name) }
    ensures not_neither { (files : Files) (name : List ℕ)
        → ¬ (((file : List ℕ) (words : List (List ℕ)) → ¬ Refuses files (prepares name) (script_refusal file words))
        × ((used : List ℕ) (why : List (List ℕ)) → ¬ Refuses files (prepares name) (description used why))
        × (¬ RefusesNothing files (prepares name))) }
{
    a_graph_or_a_fault();
    a_plan_or_a_refusal();
}

/// A law: the script that is made for so many lanes is one, with the statements that are meant.
pub fn made_scripts_are_scripts()
    ensures { (lanes : ℕ) → 1 ≤ lanes → lanes ≤ MAX_LANES → IsScript (script lanes) (made_script lanes) }
{}

/// A law of runs: what is made is never refused as a script.
pub fn made_scripts_are_not_refused()
    ensures { (knows : Command → Bool) (r : Run) → Runs knows r
        → (lanes : ℕ) → AsksOf knows r.words (commands.Big lanes) → r.status ≢ Status.Script }
{
    made_runs_are_not_refused();
}
