//! The whole program over any shelf and any sink: from the words of a command line to the code with which it exits.

ghost use Rattle.std.specs.Prelude.{◌≡◌, [], drop, map, string_bytes, IfOk, IfErr, OnErr};
ghost use Rattle.std.specs.IoError.{error_kind};
ghost use Rattle.std.specs.Process.{exit_status};
ghost use Rattle.std.specs.Vec.Iter.{into_iter_items};
ghost use Rattle.command_answers.specs.Answers.{no_memory_line};
ghost use Rattle.command_answers.specs.Statuses.{status_number};
ghost use Rattle.command_spec.specs.Runs.{Runs, Written, run_of};
ghost use Rattle.command_spec.specs.Known.{all_commands};
ghost use Rattle.command_live.specs.Doing.{Does};
ghost use Rattle.command_live.specs.Exits.{Exits};
ghost use Rattle.command_live.specs.Notes.{IsNoted, RunsNoted, Takes};
ghost use Rattle.command_spec.specs.Naming.{AskForNoFile};
ghost use Rattle.command_words.specs.SessionWords.{AskForNoSession};

use crate::all_commands::top;
use cfg_io::{Shelf, Sink, write_all};
use command_answers::Status;
use command_apply::{carry_out, write_no_memory};
use command_words::{hint, read_session};
use config_graph::NoMemory;
use live_run::Turnstile;
use std::alloc::Global;
use std::env::Args;
use std::io;
use std::io::{ErrorKind, Read};
use std::process::ExitCode;
use std::sync::Wait;
use std::thread::Threads;
use txn_gate::Gates;

/// Does what the words of a command line ask for, of which the first is the program's name, and says with which code
/// to exit: the number of the status. Words that can't be read, as one that isn't UTF-8, are of no form, as no words
/// are. Words of `apply` hold a session by the lines of the input, which no other words read. The gates of a run on
/// threads are made before all other words; where there is no memory for them, the line says so. Behind `usage` the notes
/// take the form that is nearest to the words, and nothing else.
pub fn run_program<H: Shelf, I: Read + Drop, K: Sink, N: Sink, R, T>(
    rt: R,
    alloc: Global,
    args: io::Result<Args>,
    shelf: &mut H,
    input: I,
    out: &mut K,
    notes: &mut N,
    stile: &T,
) -> ExitCode
where
    R: Threads + Wait + Copy + Send + Sync,
    T: Turnstile + Sync,
    // All words but the first are asked, and none is left out.
    ensures given { IfOk args (λ args. Exits (λ own. Does (I.remaining input) N.Sink notes.old notes.new
        (run_of H.Shelf K.Sink (map string_bytes (drop 1 (into_iter_items args)))
        shelf.old shelf.new out.old out.new own)) result) }
    ensures unreadable { IfErr args (λ fault. Exits (λ own. RunsNoted N.Sink notes.old notes.new
        (run_of H.Shelf K.Sink [] shelf.old shelf.new out.old out.new own)) result) }
    // With no memory for the words nothing is fetched.
    ensures no_memory { IfErr args (λ fault. error_kind fault ≡ ErrorKind.OutOfMemory
        → Exits (λ own. Written Status.NoMemory no_memory_line
        (run_of H.Shelf K.Sink [] shelf.old shelf.new out.old out.new own)) result
        × (H.failed shelf.new ≡ H.failed shelf.old)) }
    // No fetch changes the files. Words that name no file fetch none: the shelf is as it was.
    ensures kept { H.files shelf.new ≡ H.files shelf.old }
    ensures untouched { IfOk args (λ args. AskForNoSession (map string_bytes (drop 1 (into_iter_items args)))
        → AskForNoFile all_commands (map string_bytes (drop 1 (into_iter_items args))) → shelf.new ≡ shelf.old) }
    ensures unread { OnErr args (shelf.new ≡ shelf.old) }
{
    match args {
        Ok(args) => exit_code(run_given(rt, alloc, args, shelf, input, out, notes, stile)),
        Err(fault) if fault.kind() == ErrorKind::OutOfMemory => exit_code(write_no_memory(out)),
        Err(_) => exit_code(run_noted(rt, alloc, &[], shelf, out, notes, stile)),
    }
}

/// Does what words that can be read ask for, of which the first is passed over.
fn run_given<H: Shelf, I: Read + Drop, K: Sink, N: Sink, R, T>(
    rt: R,
    alloc: Global,
    args: Args,
    shelf: &mut H,
    input: I,
    out: &mut K,
    notes: &mut N,
    stile: &T,
) -> Status
where
    R: Threads + Wait + Copy + Send + Sync,
    T: Turnstile + Sync,
    ensures does { Does (I.remaining input) N.Sink notes.old notes.new
        (run_of H.Shelf K.Sink (map string_bytes (drop 1 (into_iter_items args)))
        shelf.old shelf.new out.old out.new result) }
    ensures kept { H.files shelf.new ≡ H.files shelf.old }
    ensures untouched { AskForNoSession (map string_bytes (drop 1 (into_iter_items args)))
        → AskForNoFile all_commands (map string_bytes (drop 1 (into_iter_items args))) → shelf.new ≡ shelf.old }
{
    match words_behind_name(alloc, args) {
        Ok(words) => run_asked(rt, alloc, words.as_slice(), shelf, input, out, notes, stile),
        Err(_) => write_no_memory(out),
    }
}

/// Holds a session where the words ask for one, and else does what they ask for.
fn run_asked<H: Shelf, I: Read + Drop, K: Sink, N: Sink, R, T>(
    rt: R,
    alloc: Global,
    words: &[String],
    shelf: &mut H,
    input: I,
    out: &mut K,
    notes: &mut N,
    stile: &T,
) -> Status
where
    R: Threads + Wait + Copy + Send + Sync,
    T: Turnstile + Sync,
    ensures does { Does (I.remaining input) N.Sink notes.old notes.new (run_of H.Shelf K.Sink (map string_bytes words.now)
        shelf.old shelf.new out.old out.new result) }
    ensures kept { H.files shelf.new ≡ H.files shelf.old }
    ensures untouched { AskForNoSession (map string_bytes words.now) → AskForNoFile all_commands (map string_bytes words.now)
        → shelf.new ≡ shelf.old }
{
    match read_session(alloc, words) {
        Ok(Some(asked)) => carry_out(alloc, &asked, shelf, input, out),
        Ok(None) => run_noted(rt, alloc, words, shelf, out, notes, stile),
        Err(_) => write_no_memory(out),
    }
}

/// The same, and behind `usage` the form that is nearest to the words is noted.
fn run_noted<H: Shelf, K: Sink, N: Sink, R, T>(
    rt: R,
    alloc: Global,
    words: &[String],
    shelf: &mut H,
    out: &mut K,
    notes: &mut N,
    stile: &T,
) -> Status
where
    R: Threads + Wait + Copy + Send + Sync,
    T: Turnstile + Sync,
    ensures runs { RunsNoted N.Sink notes.old notes.new (run_of H.Shelf K.Sink (map string_bytes words.now)
        shelf.old shelf.new out.old out.new result) }
    ensures kept { H.files shelf.new ≡ H.files shelf.old }
    ensures untouched { AskForNoFile all_commands (map string_bytes words.now) → shelf.new ≡ shelf.old }
    ensures unread { words.now ≡ [] → shelf.new ≡ shelf.old }
{
    let status = run_on_gates(rt, alloc, words, shelf, out, stile);
    note_form(notes, status, words);
    status
}

/// Notes the form that is nearest to words, where they have none.
fn note_form<N: Sink>(notes: &mut N, status: Status, words: &[String])
    ensures { IsNoted N.Sink (map string_bytes words.now) status notes.old notes.new }
{
    match status {
        Status::Usage => write_note(notes, hint(words)),
        _ => {}
    }
}

/// Notes a text. Where the notes fail, there is nowhere left to say so.
fn write_note<N: Sink>(notes: &mut N, text: &str)
    ensures { Takes N.Sink text.now notes.old notes.new }
{
    match write_all(notes, text.as_bytes()) {
        Ok(()) => {}
        Err(_stopped) => {}
    }
}

/// Does what the words ask for, on gates that are made for it.
fn run_on_gates<H: Shelf, K: Sink, R, T>(
    rt: R,
    alloc: Global,
    words: &[String],
    shelf: &mut H,
    out: &mut K,
    stile: &T,
) -> Status
where
    R: Threads + Wait + Copy + Send + Sync,
    T: Turnstile + Sync,
    ensures runs { Runs all_commands (run_of H.Shelf K.Sink (map string_bytes words.now)
        shelf.old shelf.new out.old out.new result) }
    ensures kept { H.files shelf.new ≡ H.files shelf.old }
    ensures untouched { AskForNoFile all_commands (map string_bytes words.now) → shelf.new ≡ shelf.old }
    ensures unread { words.now ≡ [] → shelf.new ≡ shelf.old }
{
    match Gates::new(alloc) {
        Ok((gates, seat)) => {
            let (status, _seat) = top(rt, alloc, words, shelf, out, stile, &gates, seat);
            status
        }
        Err(_) => write_no_memory(out),
    }
}

/// All words but the first, which is the program's name.
fn words_behind_name(alloc: Global, mut args: Args) -> Result<Vec<String>, NoMemory>
    ensures { IfOk result (λ words. words.items ≡ drop 1 (into_iter_items args)) }
{
    let mut words = Vec::new(alloc);
    let _name = args.next();
    while let Some(word) = args.next() {
        words.push(word)?;
    }
    Ok(words)
}

/// The exit code of a status, which is its number.
fn exit_code(status: Status) -> ExitCode
    ensures { exit_status result ≡ status_number status }
{
    ExitCode::from(status.number())
}
