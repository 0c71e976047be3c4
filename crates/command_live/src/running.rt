//! The run of a script on threads, and its answer.

ghost use Rattle.std.specs.Prelude.{◌≡◌, ◌++◌, [], IfErr, IfOk, MatchResult};
ghost use Rattle.command_answers.specs.Answers.{run_status};
ghost use Rattle.command_apply.specs.Preparing.{CanRun, statements_in};
ghost use Rattle.command_apply.specs.Coming.{EndsNoRun, IsShown};
ghost use Rattle.command_spec.specs.Commands.{IsRunOf};
ghost use Rattle.command_spec.specs.Outcomes.{IsRunStatus};
ghost use Rattle.command_spec.specs.Schedules.{IsShownBy, threads};
ghost use Rattle.command_live.specs.Agreeing.{AgreesWithSeat, IsFresh};
ghost use Rattle.command_live.specs.Crews.{IsCrew};
ghost use Rattle.command_live.specs.Coming.{ComesWithSeat, ComesWithout};
ghost use Rattle.report_writing.specs.Reports.{LogsAreMade, report_text};
ghost use Rattle.txn_gate.specs.Seats.{IsChangeSeatOf};
ghost use Rattle.watch_lines.specs.WatchText.{watch_text};

use cfg_io::Shelf;
use command_apply::{Answer, Prepared, Stop, answer_run, prepare};
use config_graph::{List, NoMemory};
use live_run::{Observers, Turnstile, run_on_threads};
use report_types::Report;
use std::alloc::Global;
use std::sync::Wait;
use std::thread::Threads;
use txn_gate::{ChangeSeat, Gates};
use watch_lines::{Sighting, push_watch_text};

/// How many threads a run has beside the one that changes the system.
#[derive(Clone, Copy)]
pub struct Crew {
    /// Those that give the nodes their turns.
    pub workers: u32,
    /// Those that read the graph meanwhile.
    pub observers: u32,
}

/// Fetches a script and what it uses, runs it on these gates, and answers the report, and behind it lines of each
/// observer. With it comes the seat, which agrees with it.
pub fn answer_script<H, R, T>(
    rt: R,
    alloc: Global,
    shelf: &mut H,
    name: &str,
    stile: &T,
    crew: Crew,
    gates: &Gates,
    seat: ChangeSeat,
) -> Result<(Answer, ChangeSeat), Stop>
where
    H: Shelf,
    R: Threads + Wait + Copy + Send + Sync,
    T: Turnstile + Sync,
    requires crew { IsCrew crew }
    requires fresh { IsFresh gates.now seat }
    ensures answers { MatchResult result
        (λ x. ComesWithSeat (H.files shelf.old) name.now crew.observers (H.failed shelf.old) (H.failed shelf.new)
        x.0 x.1)
        (ComesWithout (H.files shelf.old) name.now crew.observers (H.failed shelf.old) (H.failed shelf.new)) }
    ensures here { IfOk result (λ x. IsChangeSeatOf x.1 gates.now) }
    ensures run { IfOk result (λ x. IsRunStatus x.0.status) }
    ensures no_run { IfErr result EndsNoRun }
    ensures kept { H.files shelf.new ≡ H.files shelf.old }
{
    let asked = prepare(alloc, shelf, name)?;
    match run_script(rt, alloc, stile, crew, gates, seat, asked) {
        Ok(ran) => Ok(ran),
        Err(_) => Err(Stop::NoMemory),
    }
}

/// Runs what a script asks for, and answers the report, and behind it lines of each observer.
fn run_script<R, T>(
    rt: R,
    alloc: Global,
    stile: &T,
    crew: Crew,
    gates: &Gates,
    seat: ChangeSeat,
    asked: Prepared,
) -> Result<(Answer, ChangeSeat), NoMemory>
where
    R: Threads + Wait + Copy + Send + Sync,
    T: Turnstile + Sync,
    requires crew { IsCrew crew }
    requires fresh { IsFresh gates.now seat }
    requires asked { CanRun asked }
    ensures answer { IfOk result
        (λ x. IsShown (IsRunOf (AgreesWithSeat x.1) (IsShownBy (threads crew.observers)) (statements_in asked)) x.0) }
    ensures here { IfOk result (λ x. IsChangeSeatOf x.1 gates.now) }
    ensures run { IfOk result (λ x. IsRunStatus x.0.status) }
{
    let Prepared { start, steps } = asked;
    let observers = Observers::new(crew.observers);
    let (report, seen, seat) = run_on_threads(
        rt,
        alloc,
        gates,
        seat,
        stile,
        crew.workers,
        &observers,
        start,
        steps,
    )?;
    let answer = answer_watched(alloc, &report, seen.as_slice())?;
    Ok((answer, seat))
}

/// The text of a report that was made now, and behind it the lines of observers; and how the run ends by the report.
fn answer_watched(
    alloc: Global,
    report: &Report,
    seen: &[List<Sighting>],
) -> Result<Answer, NoMemory>
    requires { LogsAreMade report.now }
    ensures status { IfOk result (λ answer. answer.status ≡ run_status report.now.status) }
    ensures text { IfOk result (λ answer. answer.text.items ≡ report_text report.now ++ watch_text seen.now) }
    ensures run { IfOk result (λ answer. IsRunStatus answer.status) }
{
    let mut answer = answer_run(alloc, report)?;
    push_watch_text(&mut answer.text, seen)?;
    Ok(answer)
}
