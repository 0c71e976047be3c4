//! How a row is run.

use crate::files::{add_files, fail_fetches};
use crate::lines::{number, parted, value_of};
use crate::showing::push_shown;
use cfg_io::{MemShelf, MemSink, Shelf};
use command_apply::{Status, carry_out, still};
use command_words::read_session;
use std::alloc::{AllocError, Global};
use std::str;

/// Room of a sink that takes each text of the rows.
const AMPLE: usize = 131_072;

/// Adds the words of a line: those of `words` stand between single spaces, that of `word` is the rest of the line.
fn push_words(alloc: Global, words: &mut Vec<String>, line: &str) -> Result<(), AllocError> {
    match parted(line) {
        ("words", rest) => {
            for word in rest.split(" ") {
                words.push(String::from_str(alloc, word)?)?;
            }
        }
        ("word", rest) => words.push(String::from_str(alloc, rest)?)?,
        _ => {}
    }
    Ok(())
}

/// The words of a row's command line.
fn words_of(alloc: Global, row: &str) -> Result<Vec<String>, AllocError> {
    let mut words = Vec::new(alloc);
    for line in row.split("\n") {
        push_words(alloc, &mut words, line)?;
    }
    Ok(words)
}

/// The input of a row: `say` has a line of it, `say:` its last piece without a line end.
fn said_of(alloc: Global, row: &str) -> Result<String, AllocError> {
    let mut said = String::new(alloc);
    for line in row.split("\n") {
        match parted(line) {
            ("say", rest) => {
                said.push_str(rest)?;
                said.push_str("\n")?;
            }
            ("say:", rest) => said.push_str(rest)?,
            _ => {}
        }
    }
    Ok(said)
}

/// The status of a run: of a session where the words ask for one.
fn status_of(
    alloc: Global,
    words: &[String],
    shelf: &mut MemShelf,
    said: &str,
    sink: &mut MemSink,
) -> Result<Status, AllocError> {
    match read_session(alloc, words)? {
        Some(asked) => Ok(carry_out(alloc, &asked, shelf, said.as_bytes(), sink)),
        None => Ok(still(alloc, words, shelf, sink)),
    }
}

/// The files of a row.
fn shelf_of(alloc: Global, shared: &str, row: &str) -> Result<MemShelf, AllocError> {
    let mut shelf = MemShelf::new(alloc);
    add_files(alloc, &mut shelf, shared)?;
    add_files(alloc, &mut shelf, row)?;
    Ok(shelf)
}

/// Adds whether a fetch behind those of the run fails, where the row asks.
fn push_next(text: &mut String, shelf: &mut MemShelf, row: &str) -> Result<(), AllocError> {
    let Some(name) = value_of(row, "next") else {
        return Ok(());
    };
    text.push_str(match shelf.fetch(name, 1_048_576) {
        Ok(_) => "the next fetch is made\n",
        Err(_) => "the next fetch fails\n",
    })
}

/// What comes of a row: its name, the status, and the text as the row has it shown.
pub fn run_row(alloc: Global, shared: &str, row: &str) -> Result<String, AllocError> {
    let (name, lines) = row.split_once("\n").unwrap_or((row, ""));
    let words = words_of(alloc, lines)?;
    let mut shelf = shelf_of(alloc, shared, row)?;
    fail_fetches(&mut shelf, lines)?;
    let room = value_of(lines, "room").map_or(AMPLE, number);
    let mut sink = MemSink::new(alloc, room)?;
    let said = said_of(alloc, lines)?;
    let status = status_of(
        alloc,
        words.as_slice(),
        &mut shelf,
        said.as_str(),
        &mut sink,
    )?;
    let mut shown = format!(in alloc; "row {name}\nstatus {}\n", status.number())?;
    push_next(&mut shown, &mut shelf, lines)?;
    let text = str::from_utf8(sink.bytes()).unwrap_or("?");
    push_shown(alloc, &mut shown, lines, text)?;
    Ok(shown)
}
