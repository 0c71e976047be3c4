//! The command that runs a script on threads.

ghost use Rattle.std.specs.Prelude.{◌≡◌, ◌↔◌, ℕ, Bool, List, [], true, map, string_bytes, is_some, IfSome, IsTrue};
ghost use Rattle.command_answers.specs.Statuses.{is_of_run};
ghost use Rattle.command_spec.specs.Known.{AsksOf, on_threads};
ghost use Rattle.command_spec.specs.Outcomes.{IsRunStatus};
ghost use Rattle.command_spec.specs.Naming.{AskForNoFile, NamesNoFile};
ghost use Rattle.command_spec.specs.Runs.{Answered, Runs, run_of};
ghost use Rattle.command_live.specs.Agreeing.{ComesBack, IsFresh};
ghost use Rattle.command_live.specs.Crews.{IsCrew};
ghost use Rattle.command_words.specs.CommandLine.{Asks};
ghost use Rattle.command_words.specs.declared.words.Command.{Command};
ghost use Rattle.command_words.specs.declared.words.Command.TheVariants as commands;

use crate::running::{Crew, answer_script};
use cfg_io::{Shelf, Sink};
use command_answers::Status;
use command_apply::{write_answer, write_no_memory, write_text, write_usage};
use command_spec::runs_answer_their_commands;
use command_words::{Command, read_words};
use live_run::Turnstile;
use std::alloc::Global;
use std::sync::Wait;
use std::thread::Threads;
use txn_gate::{ChangeSeat, Gates};

/// Runs the script that the words name on these gates, on which nothing was made: so many workers give the nodes their
/// turns, before each of which the turnstile is called, while this thread changes the system, and observers read the
/// committed graph. Writes the report, and behind it lines of each observer, or one line that refuses. The seat comes
/// back exactly where a report was written, and agrees with it. It may wait, and where some node is never done it may
/// never return.
/// What each status says are the laws of command_spec, of each run.
pub fn live<H: Shelf, K: Sink, R, T>(
    rt: R,
    alloc: Global,
    words: &[String],
    shelf: &mut H,
    out: &mut K,
    stile: &T,
    gates: &Gates,
    seat: ChangeSeat,
) -> (Status, Option<ChangeSeat>)
where
    R: Threads + Wait + Copy + Send + Sync,
    T: Turnstile + Sync,
    requires fresh { IsFresh gates.now seat }
    // What the words ask for, by what the files hold, and what was written of it; words that ask for no run on threads
    // have no form.
    ensures runs { Runs on_threads (run_of H.Shelf K.Sink (map string_bytes words.now)
        shelf.old shelf.new out.old out.new result.0) }
    // The same of the run for which they ask.
    ensures answered { (command : Command) → AsksOf on_threads (map string_bytes words.now) command
        → Answered command (run_of H.Shelf K.Sink (map string_bytes words.now)
        shelf.old shelf.new out.old out.new result.0) }
    // No fetch changes the files.
    ensures kept { H.files shelf.new ≡ H.files shelf.old }
    // The seat comes back exactly where the run ended as its report says.
    ensures back { IsTrue (is_some result.1) ↔ IsRunStatus result.0 }
    // One report was written, and behind it lines of observers. It is lawful on threads, is borne by the record of that
    // seat, and has the logs that this took in.
    ensures agrees { IfSome result.1 (ComesBack gates.now.words.shared.table_id
        (run_of H.Shelf K.Sink (map string_bytes words.now) shelf.old shelf.new out.old out.new result.0)) }
    // Words of no form fetch nothing.
    ensures untouched { AskForNoFile on_threads (map string_bytes words.now) → shelf.new ≡ shelf.old }
{
    runs_answer_their_commands();
    match read_words(alloc, words) {
        Ok(Some(command)) => run_asked(rt, alloc, command, shelf, out, stile, gates, seat),
        Ok(None) => (write_usage(out), None),
        Err(_) => (write_no_memory(out), None),
    }
}

/// Does what a command asks for, where it runs on threads; another has no form here.
fn run_asked<H: Shelf, K: Sink, R, T>(
    rt: R,
    alloc: Global,
    command: Command<'_>,
    shelf: &mut H,
    out: &mut K,
    stile: &T,
    gates: &Gates,
    seat: ChangeSeat,
) -> (Status, Option<ChangeSeat>)
where
    R: Threads + Wait + Copy + Send + Sync,
    T: Turnstile + Sync,
    requires asked { (words : List (List ℕ)) × Asks words command }
    requires fresh { IsFresh gates.now seat }
    ensures runs { (words : List (List ℕ)) → Asks words command.entry → Runs on_threads (run_of H.Shelf K.Sink words
        shelf.old shelf.new out.old out.new result.0) }
    ensures kept { H.files shelf.new ≡ H.files shelf.old }
    ensures back { IsTrue (is_some result.1) ↔ IsRunStatus result.0 }
    ensures agrees { (words : List (List ℕ)) → Asks words command.entry → IfSome result.1
        (ComesBack gates.now.words.shared.table_id
        (run_of H.Shelf K.Sink words shelf.old shelf.new out.old out.new result.0)) }
    ensures untouched { (on_threads command.entry ≡ true → NamesNoFile command.entry) → shelf.new ≡ shelf.old }
{
    match command {
        Command::Live {
            script,
            workers,
            observers,
        } => {
            let crew = Crew { workers, observers };
            run_live(
                rt,
                alloc,
                script.as_str(),
                crew,
                shelf,
                out,
                stile,
                gates,
                seat,
            )
        }
        _command => (write_usage(out), None),
    }
}

/// Runs the script of a name, with so many threads beside this one.
pub fn run_live<H: Shelf, K: Sink, R, T>(
    rt: R,
    alloc: Global,
    script: &str,
    crew: Crew,
    shelf: &mut H,
    out: &mut K,
    stile: &T,
    gates: &Gates,
    seat: ChangeSeat,
) -> (Status, Option<ChangeSeat>)
where
    R: Threads + Wait + Copy + Send + Sync,
    T: Turnstile + Sync,
    requires crew { IsCrew crew }
    requires fresh { IsFresh gates.now seat }
    ensures runs { (knows : Command → Bool) (words : List (List ℕ))
        → AsksOf knows words (commands.Live script.now crew.workers crew.observers)
        → Runs knows (run_of H.Shelf K.Sink words shelf.old shelf.new out.old out.new result.0) }
    ensures kept { H.files shelf.new ≡ H.files shelf.old }
    ensures back { IsTrue (is_some result.1) ↔ IsRunStatus result.0 }
    ensures agrees { (words : List (List ℕ)) → Asks words (commands.Live script.now crew.workers crew.observers)
        → IfSome result.1 (ComesBack gates.now.words.shared.table_id
        (run_of H.Shelf K.Sink words shelf.old shelf.new out.old out.new result.0)) }
{
    match answer_script(rt, alloc, shelf, script, stile, crew, gates, seat) {
        Ok((answer, seat)) => {
            let status = write_text(out, answer.status, answer.text.as_slice());
            (status, seat_back(status, seat))
        }
        Err(stop) => (write_answer(out, Err(stop)), None),
    }
}

/// The seat, where the run ended as its report says.
fn seat_back(status: Status, seat: ChangeSeat) -> Option<ChangeSeat>
    ensures back { IsTrue (is_some result) ↔ (is_of_run status ≡ true) }
    ensures seat { IfSome result (λ s. s ≡ seat) }
{
    match status {
        Status::Ok | Status::Pending | Status::Unfinished => Some(seat),
        _ => None,
    }
}
