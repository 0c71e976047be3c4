//! All commands that run on one thread.

ghost use Rattle.std.specs.Prelude.{◌≡◌, true, ℕ, List, map, string_bytes};
ghost use Rattle.command_words.specs.CommandLine.{Asks};
ghost use Rattle.command_words.specs.declared.words.Command.{Command};
ghost use Rattle.command_spec.specs.Known.{AsksOf, on_one_thread};
ghost use Rattle.command_spec.specs.Naming.{AskForNoFile, NamesNoFile};
ghost use Rattle.command_spec.specs.Runs.{Answered, Runs, run_of};

use crate::answering::answer_command;
use crate::writing::{write_answer, write_no_memory, write_usage};
use cfg_io::{Shelf, Sink};
use command_answers::Status;
use command_spec::runs_answer_their_commands;
use command_words::{Command, read_words};
use std::alloc::Global;

/// Does what the words ask for, with files from the shelf, and writes to the sink: the text that they ask for, or one
/// line that refuses. It always returns. What each status says, and what each command promises, are the laws of
/// command_spec, of each run.
pub fn still<H: Shelf, K: Sink>(
    alloc: Global,
    words: &[String],
    shelf: &mut H,
    out: &mut K,
) -> Status
    // What the words ask for, by what the files hold, and what was written of it.
    ensures runs { Runs on_one_thread (run_of H.Shelf K.Sink (map string_bytes words.now)
        shelf.old shelf.new out.old out.new result) }
    // The same of the command for which they ask.
    ensures answered { (command : Command) → AsksOf on_one_thread (map string_bytes words.now) command
        → Answered command (run_of H.Shelf K.Sink (map string_bytes words.now)
        shelf.old shelf.new out.old out.new result) }
    // No fetch changes the files.
    ensures kept { H.files shelf.new ≡ H.files shelf.old }
    // Words that name no file, as those of `big`, fetch none: the shelf is as it was.
    ensures untouched { AskForNoFile on_one_thread (map string_bytes words.now) → shelf.new ≡ shelf.old }
{
    runs_answer_their_commands();
    run_words(alloc, words, shelf, out)
}

/// Does what the words ask for, or says that they have none of the forms.
fn run_words<H: Shelf, K: Sink>(
    alloc: Global,
    words: &[String],
    shelf: &mut H,
    out: &mut K,
) -> Status
    ensures runs { Runs on_one_thread (run_of H.Shelf K.Sink (map string_bytes words.now)
        shelf.old shelf.new out.old out.new result) }
    ensures kept { H.files shelf.new ≡ H.files shelf.old }
    ensures untouched { AskForNoFile on_one_thread (map string_bytes words.now) → shelf.new ≡ shelf.old }
{
    match read_words(alloc, words) {
        Ok(Some(command)) => run_command(alloc, shelf, out, command),
        Ok(None) => write_usage(out),
        Err(_) => write_no_memory(out),
    }
}

/// Does what a command asks for, where it runs on one thread; one that runs on threads has no form here.
pub fn run_command<H: Shelf, K: Sink>(
    alloc: Global,
    shelf: &mut H,
    out: &mut K,
    command: Command<'_>,
) -> Status
    ensures runs { (words : List (List ℕ)) → Asks words command.entry
        → Runs on_one_thread (run_of H.Shelf K.Sink words shelf.old shelf.new out.old out.new result) }
    ensures kept { H.files shelf.new ≡ H.files shelf.old }
    ensures untouched { (on_one_thread command.entry ≡ true → NamesNoFile command.entry) → shelf.new ≡ shelf.old }
{
    match command {
        Command::Live { .. } => write_usage(out),
        command => write_answer(out, answer_command(alloc, shelf, command)),
    }
}
