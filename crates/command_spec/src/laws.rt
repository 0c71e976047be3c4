//! Laws of runs, by status, for all commands that there are. Whatever runs, as all commands do or the program over real
//! files, has them.

ghost use Rattle.std.specs.Prelude.{◌≡◌, ◌≢◌, ◌∷◌, ◌++◌, ◌⊎◌, ◌↔◌, [], ℕ, ℤ, List, Option, Some, Bool, true, false, is_some};
ghost use Rattle.std.specs.List.{list_any};
ghost use Rattle.base.specs.Count.{Rose};
ghost use Rattle.cfg_io.specs.Shelf.{Files};
ghost use Rattle.cfg_io.specs.Sink.{with_bytes};
ghost use Rattle.config_graph.specs.Graph.{Graph, IsGraph};
ghost use Rattle.config_graph.specs.declared.node.Made.{Made};
ghost use Rattle.quiesce_core.specs.Start.{started};
ghost use Rattle.change_script.specs.EventFiles.{IsEventFile};
ghost use Rattle.change_script.specs.declared.event_files.EventFile.{EventFile};
ghost use Rattle.quiesce_replay.specs.Replay.{IsDenied};
ghost use Rattle.change_plan.specs.Plans.{IsPlanOf};
ghost use Rattle.change_plan.specs.Room.{HasRoomFor, LacksRoomFor};
ghost use Rattle.change_plan.specs.declared.error.PlanError.{PlanError};
ghost use Rattle.change_plan.specs.declared.plan_data.Plan.{Plan};
ghost use Rattle.report_types.specs.declared.report.Report.{Report};
ghost use Rattle.report_types.specs.declared.script.Script.{Script as ScriptOf};
ghost use Rattle.report_writing.specs.Reports.{report_text};
ghost use Rattle.report_texts.specs.Stages.{IsReportFault};
ghost use Rattle.report_texts.specs.declared.error.ReportFault.{ReportFault};
ghost use Rattle.change_spec.specs.Consistent.{Consistent};
ghost use Rattle.change_spec.specs.Members.{is_pending};
ghost use Rattle.change_spec.specs.Scripts.{StatementsOf};
ghost use Rattle.watch_lines.specs.Observers.{Watched};
ghost use Rattle.command_answers.specs.Answers.{Refusal, description, script, usage_line, no_memory_line, refusal_status};
ghost use Rattle.command_answers.specs.RefusalLines.{description_line, read_fault_line, script_line};
ghost use Rattle.command_answers.specs.declared.status.Status.{Status};
ghost use Rattle.command_answers.specs.declared.status.Status.TheVariants.{Usage, ReadFault, WriteFault, Description, Script, Denied, NoMemory, Pending, Unfinished, Unlawful};
ghost use Rattle.command_words.specs.declared.words.Command.{Command};
ghost use Rattle.command_words.specs.declared.words.Command.TheVariants as commands;
ghost use Rattle.command_words.specs.declared.words.Change.{Change};
ghost use Rattle.command_words.specs.declared.words.Cut.{Cut};
ghost use Rattle.command_words.specs.declared.words.TopCall.{TopCall};
ghost use Rattle.command_spec.specs.declared.query.Query.{Query};
ghost use Rattle.command_spec.specs.Commands.{Shown, ShowsChange, course_of, runs_by};
ghost use Rattle.command_spec.specs.Courses.{End, Follows, came, reads, refusal};
ghost use Rattle.command_spec.specs.Descriptions.{HasGraph, IsDescriptionRefusal};
ghost use Rattle.command_spec.specs.Endings.{Alike, Comes, FailsLast, Refuses, RefusesNothing, is_of_file};
ghost use Rattle.command_spec.specs.Files.{IsTold};
ghost use Rattle.command_spec.specs.Known.{AsksOf, HasNoForm, on_one_thread};
ghost use Rattle.command_spec.specs.Lines.{RunLine, Progress, begun, of_lines};
ghost use Rattle.command_spec.specs.Outcomes.{AsksForRun, Ends, EndsAs, GoesBy, IsRollStatus, Judged, MayEnd, MentionsFile, ReadFrom, Replayed, SameShown, WasRunBy, WroteFront};
ghost use Rattle.command_spec.specs.Plans.{IsRollText, RefusesStart, Starts, lines_of_change};
ghost use Rattle.command_spec.specs.Queries.{AnswersQuery, IsRefused, IsTextBy};
ghost use Rattle.command_spec.specs.Runs.{Answered, Does, Run, Runs};
ghost use Rattle.command_spec.specs.Schedules.{Schedule};
ghost use Rattle.command_spec.specs.Scripts.{Elaborates, LeadTo, Uses, lines_of_script, prepares};
ghost use Rattle.command_spec.specs.Sorts.{TellsReport, limit_of, of_description, of_events, of_report};

use change_parts::{
    there_are_parts, there_is_a_roll, there_is_one_list_of_parts, there_is_one_roll,
};
use change_plan::a_plan_or_a_refusal;
use darwin_types::a_fault_or_none;
use elaborator::a_graph_or_a_fault;
use report_texts::{a_text_tells_its_report, one_report_or_one_fault};

/// A law of runs: words that ask for a command are answered as the command is, by its course.
pub fn runs_answer_their_commands()
    ensures { (knows : Command → Bool) (r : Run) → Runs knows r
        → (command : Command) → AsksOf knows r.words command → Answered command r }
{}

/// A law of runs: Usage comes where the words have none of the forms, with its line, and nowhere else.
pub fn usage_is_of_words_without_a_form()
    ensures only { (knows : Command → Bool) (r : Run) → Runs knows r
        → r.status ≡ Usage → HasNoForm knows r.words × (r.taken' ≡ with_bytes r.taken usage_line) }
    ensures always { (knows : Command → Bool) (r : Run) → Runs knows r
        → HasNoForm knows r.words → Ends r.status Usage }
{}

/// A law of runs: ReadFault comes where a fetch failed, and nowhere else. One fetch fails at most, of a file that the
/// words name or a `use` line of the script that they name, and the line names it.
pub fn read_faults_are_failed_fetches()
    ensures only { (knows : Command → Bool) (r : Run) → Runs knows r
        → r.status ≡ ReadFault → (command : Command) × (file : List ℕ) × AsksOf knows r.words command
        × MentionsFile r.files command file
        × (r.failures' ≡ r.failures ++ file ∷ [])
        × (r.taken' ≡ with_bytes r.taken (read_fault_line file)) }
    ensures always { (knows : Command → Bool) (r : Run) → Runs knows r
        → r.failures' ≢ r.failures → Ends r.status ReadFault }
{}

/// A law of runs: WriteFault comes where a put failed, and nowhere else. A proper front went out of a text that
/// another status could have had.
pub fn write_faults_are_failed_puts()
    ensures only { (knows : Command → Bool) (r : Run) → Runs knows r
        → r.status ≡ WriteFault → Rose r.faults r.faults' × WroteFront knows r }
    ensures always { (knows : Command → Bool) (r : Run) → Runs knows r
        → r.status ≢ WriteFault → r.faults' ≡ r.faults }
{}

/// A law of runs: with NoMemory goes its line.
pub fn want_of_memory_has_its_line()
    ensures line { (knows : Command → Bool) (r : Run) → Runs knows r
        → r.status ≡ NoMemory → r.taken' ≡ with_bytes r.taken no_memory_line }
{}

/// A law of runs: Script comes where the course of the command refuses a script, a file of events or a report, and
/// nowhere else; the line names the file, and its first fault or what a script lacks.
pub fn scripts_are_refused_for_their_first_fault()
    ensures only { (knows : Command → Bool) (r : Run) → Runs knows r
        → r.status ≡ Script → (command : Command) × (file : List ℕ) × (words : List (List ℕ)) × AsksOf knows r.words command
        × Does r.files command [] (refusal (script file words)) × (r.taken' ≡ with_bytes r.taken (script_line file words)) }
    ensures always { (command : Command) (r : Run) (files : Files) → Answered command r → GoesBy command r files
        → (file : List ℕ) (words : List (List ℕ)) → Refuses files (course_of command) (script file words)
        → Ends r.status Script }
{
    a_graph_or_a_fault();
    a_plan_or_a_refusal();
    what_bytes_give_is_one();
}

/// A law of runs: Description comes where the course of the command refuses a description, and nowhere else; the line
/// names the file and a fault that holds, of a script the first line that leads nowhere.
pub fn descriptions_are_refused_for_faults_that_hold()
    ensures only { (knows : Command → Bool) (r : Run) → Runs knows r
        → r.status ≡ Description → (command : Command) × (file : List ℕ) × (words : List (List ℕ)) × AsksOf knows r.words command
        × Does r.files command [] (refusal (description file words))
        × (r.taken' ≡ with_bytes r.taken (description_line file words)) }
    ensures always { (command : Command) (r : Run) (files : Files) → Answered command r → GoesBy command r files
        → (file : List ℕ) (words : List (List ℕ)) → Refuses files (course_of command) (description file words)
        → Ends r.status Description }
{
    a_graph_or_a_fault();
    a_plan_or_a_refusal();
    what_bytes_give_is_one();
}

/// A law of runs: where nothing along its course is refused, a command ends as it may, with what was asked for. What its
/// course shows by the files is what it ends with, but of threads, which may take their turns in other ways.
pub fn what_is_not_refused_is_answered()
    ensures complete { (command : Command) (r : Run) (files : Files) → Answered command r → GoesBy command r files
        → RefusesNothing files (course_of command) → EndsAs (MayEnd command) r.status }
    ensures every_answer { (command : Command) (r : Run) (files : Files) → Answered command r → GoesBy command r files
        → on_one_thread command ≡ true
        → (s : Shown) → Follows (Some files) (course_of command) [] (came s) → Ends r.status s.own }
    ensures every_graph { (file : List ℕ) (call : TopCall) (r : Run) (files : Files)
        → Answered (commands.Flat file call) r → GoesBy (commands.Flat file call) r files
        → (text : List ℕ) (graph : Graph) → IsTold (Some files) (limit_of of_description) file text
        → HasGraph text call.top call.args graph → Ends r.status Status.Ok }
{
    a_graph_or_a_fault();
    a_plan_or_a_refusal();
    what_bytes_give_is_one();
}

/// A law: what refuses a script refuses its run, and the check of a report. Where nothing does, nothing refuses its run;
/// and where nothing refuses a report either, nothing refuses the check of it. Where a report must be refused, the check
/// says so, if nothing refuses the script.
pub fn what_is_prepared_is_run_or_judged()
    ensures refused { (files : Files) (name : List ℕ) (why : Refusal) → Refuses files (prepares name) why
        → ((schedule : Schedule) → Refuses files (runs_by schedule name) why)
        × ((file : List ℕ) → Refuses files (course_of (commands.Check name file)) why) }
    ensures run { (files : Files) (schedule : Schedule) (name : List ℕ) → RefusesNothing files (prepares name)
        → RefusesNothing files (runs_by schedule name) }
    ensures check { (files : Files) (name file : List ℕ) → RefusesNothing files (prepares name)
        → RefusesNothing files (reads of_report file) → RefusesNothing files (course_of (commands.Check name file)) }
    ensures report { (name file : List ℕ) (r : Run) (files : Files) → Answered (commands.Check name file) r → ReadFrom r files
        → RefusesNothing files (prepares name) → (words : List (List ℕ)) → Refuses files (reads of_report file) (script file words)
        → Ends r.status Script }
{
    what_bytes_give_is_one();
}

/// A law: by the same files the course of a command ends in one way, where memory lasts: it refuses one file, or shows
/// one status and one text, but of threads.
pub fn a_course_ends_in_one_way()
    ensures { (command : Command) (files : Files) (end other : End Shown)
        → Follows (Some files) (course_of command) [] end → Follows (Some files) (course_of command) [] other
        → Alike (SameShown command) end other }
{
    a_graph_or_a_fault();
    a_plan_or_a_refusal();
    what_bytes_give_is_one();
}

/// A law: a fetch that fails is the last, and the only one; the course comes to it, and the answer says so unless memory
/// ran out. Lines fetch the files that they use.
pub fn a_failed_fetch_is_the_last()
    ensures of_commands { (files : Option Files) (command : Command) (failing : List (List ℕ)) (end : End Shown)
        → Does files command failing end → FailsLast (Comes files (course_of command)) failing end }
    ensures of_lines { (files : Option Files) (p : Progress) (lines : List RunLine) (failing : List (List ℕ))
        (end : End Progress) → Follows files (of_lines p lines) failing end → FailsLast (Uses lines) failing end }
{}

/// A law of runs: a run of a script ends as its report says: with Pending exactly where the report says that a change
/// was given up, with Unfinished exactly where it names a node that wasn't done and no such change. The two come for no
/// other command, but that a roll may end with Pending. Behind the text of the report stand lines of observers, and none
/// where there are none.
pub fn runs_end_by_their_reports()
    ensures only { (knows : Command → Bool) (r : Run) → Runs knows r
        → (r.status ≡ Pending) ⊎ (r.status ≡ Unfinished)
        → AsksForRun knows r.words r.status }
    ensures unwatched { (report : Report) (bytes : List ℕ) → Watched report 0 bytes ↔ (bytes ≡ report_text report) }
    ensures pending { (schedule : Schedule) (files : Option Files) (name : List ℕ) (own : Status)
        (r : WasRunBy schedule files name own)
        → (own ≡ Pending) ↔ (list_any is_pending r.report.history ≡ true) }
    ensures unfinished { (schedule : Schedule) (files : Option Files) (name : List ℕ) (own : Status)
        (r : WasRunBy schedule files name own)
        → (own ≡ Unfinished)
        ↔ ((list_any is_pending r.report.history ≡ false) × (is_some r.report.unfinished ≡ true)) }
{}

/// A law of runs: a roll ends with Pending exactly where the rounds gave one of its parts up, and else with Ok.
pub fn rolls_end_by_their_rounds()
    ensures ends { (run within : ℕ) (call target : TopCall) (own : Status) (old new : Graph) (written : List ℕ)
        → IsRollText run within call target own old new written → IsRollStatus own }
    ensures pending { (run within : ℕ) (call target : TopCall) (own : Status) (old new : Graph) (written : List ℕ)
        (t : IsRollText run within call target own old new written) → (own ≡ Pending) ↔ (is_some t.given_up ≡ true) }
{}

/// A law of runs: a check that judges a report ends with Ok exactly where the report can be one of this machine for the
/// statements of the script, and with Unlawful exactly where it can't. Unlawful comes for no other command.
pub fn checks_end_by_what_is_lawful()
    ensures only { (knows : Command → Bool) (r : Run) → Runs knows r
        → r.status ≡ Unlawful → (name : List ℕ) × (file : List ℕ) × AsksOf knows r.words (commands.Check name file) }
    ensures consistent { (files : Option Files) (name file : List ℕ) (own : Status) (taken taken' : Option (List ℕ))
        (j : Judged files name file own taken taken')
        → (own ≡ Status.Ok) ↔ Consistent j.statements j.report }
    ensures unlawful { (files : Option Files) (name file : List ℕ) (own : Status) (taken taken' : Option (List ℕ))
        (j : Judged files name file own taken taken')
        → (own ≡ Unlawful) ↔ ¬ Consistent j.statements j.report }
{}

/// A law of runs: Denied comes where an event is no step from the state before it, and nowhere else.
pub fn denials_are_of_first_events()
    ensures only { (knows : Command → Bool) (r : Run) → Runs knows r
        → r.status ≡ Denied → (file events : List ℕ) × AsksOf knows r.words (commands.Replay file events)
        × Replayed r.files file events Denied r.taken r.taken' }
    ensures always { (file events : List ℕ) (r : Run) (files : Files)
        → Answered (commands.Replay file events) r → GoesBy (commands.Replay file events) r files
        → (bytes : List ℕ) (events_file : EventFile) (text : List ℕ) (graph : Graph) (number rule : ℕ)
        → IsTold (Some files) (limit_of of_events) events bytes → IsEventFile bytes events_file
        → IsTold (Some files) (limit_of of_description) file text
        → Starts text events_file.name events_file.args graph → IsDenied (started graph) events_file.events number rule
        → Ends r.status Denied }
{
    what_is_not_refused_is_answered();
}

/// A law: the lines of a script that lead on say its statements, each start and change with the graph to which its
/// component elaborates.
pub fn lines_that_lead_on_are_statements()
    ensures { (files : Option Files) (script : ScriptOf) (end : Progress)
        → LeadTo files begun (lines_of_script script.lines) end
        → StatementsOf (Elaborates files) script end.statements }
{}

/// A law: what bytes give is one, status and text, and they aren't refused too.
pub fn what_bytes_give_is_one()
    ensures one_answer { (query : Query) (text : List ℕ) (own other : Status) (written also : List ℕ)
        → AnswersQuery query text own written → AnswersQuery query text other also → (own ≡ other) × (written ≡ also) }
    ensures never_both { (query : Query) (text : List ℕ) (own : Status) (written : List ℕ) (words : List (List ℕ))
        → AnswersQuery query text own written → ¬ IsRefused query text words }
    ensures one_change { (cut : Cut) (call target : TopCall) (old new : Graph) (own other : Status) (written also : List ℕ)
        → IsGraph old → IsGraph new → IsTextBy cut call target own old new written
        → IsTextBy cut call target other old new also → (own ≡ other) × (written ≡ also) }
    ensures one_plan { (old new : Graph) (p q : Plan) → IsPlanOf old new [] p → IsPlanOf old new [] q → p ≡ q }
    ensures one_report { (bytes : List ℕ) (r s : Report) → TellsReport bytes r → TellsReport bytes s → r ≡ s }
    ensures no_fault_beside { (bytes : List ℕ) (r : Report) (fault : ReportFault) → TellsReport bytes r
        → ¬ IsReportFault bytes fault }
{
    a_text_tells_its_report();
    one_report_or_one_fault();
    there_is_one_list_of_parts();
    there_is_one_roll();
}

/// A law: nothing hides behind want of memory. Of each text a graph of a component stands or a refusal, and a start
/// or a refusal of it; there is room for a graph, or none; and each text is one of a report, or has a fault. That
/// what is wanted of a text is neither refused nor answered can't be, nor that nothing is shown of a change whose lines
/// lead on.
pub fn what_is_wanted_is_refused_or_answered()
    ensures graphs { (text name : List ℕ) (args : List ℤ) → ((g : Graph) × HasGraph text name args g)
        ⊎ ((words : List (List ℕ)) × IsDescriptionRefusal text name args words) }
    ensures starts { (text top : List ℕ) (args : List ℤ) → ((g : Graph) × Starts text top args g)
        ⊎ ((words : List (List ℕ)) × RefusesStart text top args words) }
    ensures room { (made : Made) (g : Graph) → HasRoomFor made g ⊎ ((e : PlanError) × LacksRoomFor made g e) }
    ensures queries { (query : Query) (text : List ℕ) → ¬ (((words : List (List ℕ)) → ¬ IsRefused query text words)
        × ((own : Status) (written : List ℕ) → ¬ AnswersQuery query text own written)) }
    ensures changes { (files : Files) (cut : Cut) (change : Change) (p : Progress)
        → LeadTo (Some files) begun (lines_of_change change) p → ¬ ((s : Shown) → ¬ ShowsChange cut change p.statements s) }
    ensures reports { (bytes : List ℕ) → ((r : Report) × TellsReport bytes r)
        ⊎ ((fault : ReportFault) × IsReportFault bytes fault) }
{
    a_fault_or_none();
    a_graph_or_a_fault();
    one_report_or_one_fault();
    there_are_parts();
    there_is_a_roll();
}
