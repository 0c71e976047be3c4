//! What is answered to commands, by fetches.

ghost use Rattle.std.specs.Prelude.{◌≡◌, true, [], IfOk, Option, Some};
ghost use Rattle.cfg_io.specs.Shelf.{Files};
ghost use Rattle.command_answers.specs.declared.status.Status.TheVariants.{Ok};
ghost use Rattle.report_writing.specs.Reports.{LogsAreMade};
ghost use Rattle.command_words.specs.BigFiles.{files_beside, made_files, script_name};
ghost use Rattle.command_words.specs.HelpTexts.{help_text, version_text};
ghost use Rattle.command_words.specs.declared.words.Command.TheVariants as commands;
ghost use Rattle.command_spec.specs.Commands.{IsRunOf, IsSummary, ShowsChange, course_of, judging, of_change, of_query, own_files, runs_script};
ghost use Rattle.command_spec.specs.Courses.{says};
ghost use Rattle.command_spec.specs.Plans.{statements_of_change};
ghost use Rattle.command_spec.specs.Known.{on_one_thread};
ghost use Rattle.command_spec.specs.Naming.{NamesNoFile};
ghost use Rattle.command_spec.specs.RunReports.{IsReportOf};
ghost use Rattle.command_spec.specs.Schedules.{IsReportBy, IsShownBy, rounds};
ghost use Rattle.command_spec.specs.declared.query.Query.TheVariants as queries;
ghost use Rattle.command_program.specs.Planning.{CanMake};
ghost use Rattle.command_program.specs.Coming.{Comes, ComesOwn, EndsIn, IsShown, Shows};
ghost use Rattle.command_program.specs.Preparing.{CanRun, statements_in};
ghost use Rattle.command_program.specs.Refusals.{IsLine};

use crate::answer::or_stop;
use crate::change_lines::{Planned, prepare_change};
use crate::files::{FileSort, fetch_file, read_events, read_report};
use crate::plans::change_graphs;
use crate::{
    Answer, Prepared, Stop, answer_run, answer_summary, describe, judge, prepare, upgrade,
};
use cfg_io::Shelf;
use change_round_laws::reports_of_rounds_are_lawful;
use command_answers::Status;
use command_spec::Query;
use command_words::{Change, Command, Cut, Keyword, MadeFiles, SCRIPT_NAME, VERSION, help_text};
use config_graph::NoMemory;
use report_types::Report;
use std::alloc::Global;
use step_board::{NodeTable, StepBoard};
use step_runner::run_in_rounds;

/// What is answered to a command that runs on one thread.
pub fn answer_command<H: Shelf>(
    alloc: Global,
    shelf: &mut H,
    command: Command<'_>,
) -> Result<Answer, Stop>
    requires { on_one_thread command ≡ true }
    ensures answers { ComesOwn (own_files command.entry) (H.files shelf.old) (course_of command.entry)
        (H.failed shelf.old) (H.failed shelf.new) result }
    ensures kept { H.files shelf.new ≡ H.files shelf.old }
    ensures untouched { NamesNoFile command.entry → shelf.new ≡ shelf.old }
{
    match command {
        Command::Help { of } => or_stop(answer_help(alloc, of)),
        Command::Version => or_stop(answer_version(alloc)),
        Command::Flat { file, call } => {
            answer_description(alloc, shelf, file.as_str(), &Query::Graph(call))
        }
        Command::Change { cut, change } => answer_change(alloc, shelf, &cut, &change),
        Command::Replay { file, events } => {
            answer_replay(alloc, shelf, file.as_str(), events.as_str())
        }
        Command::Upgrade { file } => answer_report(alloc, shelf, file.as_str()),
        Command::Step { script } => answer_script(alloc, shelf, script.as_str()),
        Command::Live { .. } => unreachable!(),
        Command::Check { script, report } => {
            answer_check(alloc, shelf, script.as_str(), report.as_str())
        }
        Command::Big { lanes } => answer_big(alloc, lanes),
    }
}

/// What the program says of its commands, or of one.
fn answer_help(alloc: Global, of: Option<Keyword>) -> Result<Answer, NoMemory>
    ensures { IfOk result (IsLine Ok (help_text of)) }
{
    Ok(Answer {
        status: Status::Ok,
        text: help_text(alloc, of)?,
    })
}

/// The program's name and version.
fn answer_version(alloc: Global) -> Result<Answer, NoMemory>
    ensures { IfOk result (IsLine Ok version_text) }
{
    Ok(Answer {
        status: Status::Ok,
        text: Vec::from_slice(alloc, VERSION.as_bytes())?,
    })
}

/// Fetches a description, and answers what is wanted of it.
fn answer_description<H: Shelf>(
    alloc: Global,
    shelf: &mut H,
    file: &str,
    query: &Query<'_>,
) -> Result<Answer, Stop>
    ensures answers { Comes Shows (H.files shelf.old) (of_query file.now query.now)
        (H.failed shelf.old) (H.failed shelf.new) result }
    ensures kept { H.files shelf.new ≡ H.files shelf.old }
{
    let text = fetch_file(alloc, shelf, FileSort::Description, file)?;
    describe(alloc, file, query, text.items())
}

/// Fetches the files of a change, and answers it, made as it is cut.
fn answer_change<H: Shelf>(
    alloc: Global,
    shelf: &mut H,
    cut: &Cut,
    change: &Change<'_>,
) -> Result<Answer, Stop>
    ensures answers { Comes Shows (H.files shelf.old) (of_change cut.now change.now) (H.failed shelf.old)
        (H.failed shelf.new) result }
    ensures kept { H.files shelf.new ≡ H.files shelf.old }
{
    let planned = prepare_change(alloc, shelf, change)?;
    show_change(alloc, cut, change, &planned)
}

/// Answers the change between these graphs. A plan of them is there, so that want of memory alone may be in the way.
fn show_change(
    alloc: Global,
    cut: &Cut,
    change: &Change<'_>,
    planned: &Planned,
) -> Result<Answer, Stop>
    requires { CanMake planned.now }
    ensures { (files : Option Files) → EndsIn Shows files (says (ShowsChange cut.now change.now
        (statements_of_change change.now planned.now.start.graph planned.now.change.graph))) [] result }
{
    let old = &planned.start.graph;
    let new = &planned.change.graph;
    match change_graphs(alloc, cut, &change.call, &change.target, old, new) {
        Ok(answer) => Ok(answer),
        Err(_) => Err(Stop::NoMemory),
    }
}

/// Fetches a file of events and then a description, and answers what the events come to.
fn answer_replay<H: Shelf>(
    alloc: Global,
    shelf: &mut H,
    file: &str,
    events: &str,
) -> Result<Answer, Stop>
    ensures answers { Comes Shows (H.files shelf.old) (course_of (commands.Replay file.now events.now))
        (H.failed shelf.old) (H.failed shelf.new) result }
    ensures kept { H.files shelf.new ≡ H.files shelf.old }
{
    let read = read_events(alloc, shelf, events)?;
    answer_description(alloc, shelf, file, &Query::Replay(read))
}

/// Fetches a report, and answers its text in the version that is written today.
fn answer_report<H: Shelf>(alloc: Global, shelf: &mut H, file: &str) -> Result<Answer, Stop>
    ensures answers { Comes Shows (H.files shelf.old) (course_of (commands.Upgrade file.now)) (H.failed shelf.old)
        (H.failed shelf.new) result }
    ensures kept { H.files shelf.new ≡ H.files shelf.old }
{
    let report = read_report(alloc, shelf, file)?;
    or_stop(upgrade(alloc, &report))
}

/// Fetches a script and what it uses, runs it, and answers the report.
fn answer_script<H: Shelf>(alloc: Global, shelf: &mut H, name: &str) -> Result<Answer, Stop>
    ensures answers { Comes Shows (H.files shelf.old) (course_of (commands.Step name.now)) (H.failed shelf.old)
        (H.failed shelf.new) result }
    ensures kept { H.files shelf.new ≡ H.files shelf.old }
{
    let asked = prepare(alloc, shelf, name)?;
    or_stop(run_script(alloc, asked))
}

/// Fetches a script and what it uses, and then a report, and answers whether this can be one of this machine.
fn answer_check<H: Shelf>(
    alloc: Global,
    shelf: &mut H,
    name: &str,
    file: &str,
) -> Result<Answer, Stop>
    ensures answers { Comes Shows (H.files shelf.old) (course_of (commands.Check name.now file.now))
        (H.failed shelf.old) (H.failed shelf.new) result }
    ensures kept { H.files shelf.new ≡ H.files shelf.old }
{
    let asked = prepare(alloc, shelf, name)?;
    answer_judgement(alloc, shelf, &asked, file)
}

/// Fetches a report, and answers whether it can be one of this machine for what a script asks for.
fn answer_judgement<H: Shelf>(
    alloc: Global,
    shelf: &mut H,
    asked: &Prepared,
    file: &str,
) -> Result<Answer, Stop>
    requires { CanRun asked.now }
    ensures answers { Comes Shows (H.files shelf.old) (judging file.now (statements_in asked.now))
        (H.failed shelf.old) (H.failed shelf.new) result }
    ensures kept { H.files shelf.new ≡ H.files shelf.old }
{
    let report = read_report(alloc, shelf, file)?;
    or_stop(judge(alloc, asked, &report))
}

/// Makes a system of so many lanes and a script, runs it, and answers the summary.
fn answer_big(alloc: Global, lanes: u32) -> Result<Answer, Stop>
    ensures { EndsIn Shows (Some (made_files lanes)) (course_of (commands.Big lanes)) [] result }
{
    match MadeFiles::of(alloc, lanes) {
        Ok(made) => answer_made(alloc, lanes, made),
        Err(_) => Err(Stop::NoMemory),
    }
}

/// Runs the script that was made for so many lanes, and answers the summary.
fn answer_made(alloc: Global, lanes: u32, mut made: MadeFiles) -> Result<Answer, Stop>
    ensures { EndsIn Shows (Some (files_beside made)) (runs_script (IsReportBy rounds) (IsSummary lanes) script_name) [] result }
{
    let asked = prepare(alloc, &mut made, SCRIPT_NAME)?;
    or_stop(sum_up(alloc, lanes, asked))
}

/// Runs what a script asks for, and answers the report.
fn run_script(alloc: Global, asked: Prepared) -> Result<Answer, NoMemory>
    requires { CanRun asked }
    ensures { IfOk result (IsShown (IsRunOf (IsReportBy rounds) (IsShownBy rounds) (statements_in asked))) }
{
    let report = report_of(alloc, asked)?;
    answer_run(alloc, &report)
}

/// Runs what the script of so many lanes asks for, and answers the summary.
fn sum_up(alloc: Global, lanes: u32, asked: Prepared) -> Result<Answer, NoMemory>
    requires { CanRun asked }
    ensures { IfOk result (IsShown (IsRunOf (IsReportBy rounds) (IsSummary lanes) (statements_in asked))) }
{
    let report = report_of(alloc, asked)?;
    answer_summary(alloc, lanes, &report)
}

/// Runs what a script asks for in rounds on one thread.
fn report_of(alloc: Global, asked: Prepared) -> Result<Report, NoMemory>
    requires { CanRun asked }
    ensures report { IfOk result (λ report. IsReportOf (statements_in asked) report) }
    ensures made { IfOk result (λ report. LogsAreMade report) }
{
    reports_of_rounds_are_lawful();
    let board = StepBoard::<NodeTable>::new(alloc)?;
    run_in_rounds(alloc, board, asked.start, asked.steps)
}
