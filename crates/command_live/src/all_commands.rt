//! All commands.

ghost use Rattle.std.specs.Prelude.{◌≡◌, ◌↔◌, [], ℕ, List, map, string_bytes, is_some, IfSome, IsTrue};
ghost use Rattle.command_words.specs.CommandLine.{Asks};
ghost use Rattle.command_words.specs.declared.words.Command.{Command};
ghost use Rattle.command_words.specs.declared.words.Command.TheVariants as commands;
ghost use Rattle.command_spec.specs.Known.{AsksOf, all_commands};
ghost use Rattle.command_spec.specs.Naming.{AskForNoFile, NamesNoFile};
ghost use Rattle.command_spec.specs.Outcomes.{IsRunStatus};
ghost use Rattle.command_spec.specs.Runs.{Answered, Runs, run_of};
ghost use Rattle.command_live.specs.Agreeing.{ComesBack, GivesBack, IsFresh};

use crate::on_threads::run_live;
use crate::running::Crew;
use cfg_io::{Shelf, Sink};
use command_answers::Status;
use command_apply::{run_command, write_no_memory, write_usage};
use command_spec::runs_answer_their_commands;
use command_words::{Command, read_words};
use live_run::Turnstile;
use std::alloc::Global;
use std::sync::Wait;
use std::thread::Threads;
use txn_gate::{ChangeSeat, Gates};

/// Does what the words ask for, with files from the shelf, and writes to the sink. A script is run on threads by `live`,
/// on these gates, and all else as by `still`. What each status says, and what each command promises, are the laws of
/// command_spec, of each run.
pub fn top<H: Shelf, K: Sink, R, T>(
    rt: R,
    alloc: Global,
    words: &[String],
    shelf: &mut H,
    out: &mut K,
    stile: &T,
    gates: &Gates,
    seat: ChangeSeat,
) -> (Status, Option<ChangeSeat>)
where
    R: Threads + Wait + Copy + Send + Sync,
    T: Turnstile + Sync,
    requires fresh { IsFresh gates.now seat }
    // What the words ask for, by what the files hold, and what was written of it.
    ensures runs { Runs all_commands (run_of H.Shelf K.Sink (map string_bytes words.now)
        shelf.old shelf.new out.old out.new result.0) }
    // The same of the command for which they ask.
    ensures answered { (command : Command) → AsksOf all_commands (map string_bytes words.now) command
        → Answered command (run_of H.Shelf K.Sink (map string_bytes words.now)
        shelf.old shelf.new out.old out.new result.0) }
    // No fetch changes the files.
    ensures kept { H.files shelf.new ≡ H.files shelf.old }
    // The seat comes back exactly where a script was run on threads, and agrees with the report that was written.
    ensures back { IsTrue (is_some result.1)
        ↔ ((name : List ℕ) × (workers observers : ℕ)
        × Asks (map string_bytes words.now) (commands.Live name workers observers) × IsRunStatus result.0) }
    ensures agrees { IfSome result.1 (ComesBack gates.now.words.shared.table_id
        (run_of H.Shelf K.Sink (map string_bytes words.now) shelf.old shelf.new out.old out.new result.0)) }
    // Words that name no file, as those of `big`, fetch none: the shelf is as it was.
    ensures untouched { AskForNoFile all_commands (map string_bytes words.now) → shelf.new ≡ shelf.old }
{
    runs_answer_their_commands();
    match read_words(alloc, words) {
        Ok(Some(command)) => run_read(rt, alloc, command, shelf, out, stile, gates, seat),
        Ok(None) => (write_usage(out), None),
        Err(_) => (write_no_memory(out), None),
    }
}

/// Does what a command asks for.
fn run_read<H: Shelf, K: Sink, R, T>(
    rt: R,
    alloc: Global,
    command: Command<'_>,
    shelf: &mut H,
    out: &mut K,
    stile: &T,
    gates: &Gates,
    seat: ChangeSeat,
) -> (Status, Option<ChangeSeat>)
where
    R: Threads + Wait + Copy + Send + Sync,
    T: Turnstile + Sync,
    requires asked { (words : List (List ℕ)) × Asks words command }
    requires fresh { IsFresh gates.now seat }
    ensures runs { (words : List (List ℕ)) → Asks words command.entry → Runs all_commands (run_of H.Shelf K.Sink words
        shelf.old shelf.new out.old out.new result.0) }
    ensures kept { H.files shelf.new ≡ H.files shelf.old }
    ensures seat { (words : List (List ℕ)) → Asks words command.entry → GivesBack gates.now.words.shared.table_id
        (run_of H.Shelf K.Sink words shelf.old shelf.new out.old out.new result.0) result.1 }
    ensures untouched { NamesNoFile command.entry → shelf.new ≡ shelf.old }
{
    match command {
        Command::Live {
            script,
            workers,
            observers,
        } => {
            let crew = Crew { workers, observers };
            run_live(
                rt,
                alloc,
                script.as_str(),
                crew,
                shelf,
                out,
                stile,
                gates,
                seat,
            )
        }
        command => (run_command(alloc, shelf, out, command), None),
    }
}
