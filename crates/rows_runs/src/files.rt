//! The files of rows, in memory.

use crate::lines::{number, parted};
use cfg_io::MemShelf;
use std::alloc::{AllocError, Global};

/// Adds lines so many times. A `|` parts them.
fn push_lines(text: &mut String, counted: &str) -> Result<(), AllocError> {
    let (count, lines) = parted(counted);
    for _ in 0..number(count) {
        for line in lines.split("|") {
            text.push_str(line)?;
            text.push_str("\n")?;
        }
    }
    Ok(())
}

/// Adds what a line of a row says of its file: `|` has a line, `:` a last piece without a line end, and `lines` some
/// lines so many times.
fn push_line(text: &mut String, line: &str) -> Result<(), AllocError> {
    let (word, rest) = parted(line);
    match word {
        "|" => {
            text.push_str(rest)?;
            text.push_str("\n")
        }
        ":" => text.push_str(rest),
        "lines" => push_lines(text, rest),
        _ => Ok(()),
    }
}

/// Puts a file on the shelf: its name stands in the first line.
fn add_file(alloc: Global, shelf: &mut MemShelf, lines: &str) -> Result<(), AllocError> {
    let (name, lines) = lines.split_once("\n").unwrap_or((lines, ""));
    let mut text = String::new(alloc);
    for line in lines.split("\n") {
        push_line(&mut text, line)?;
    }
    shelf.add(name, text.as_str().as_bytes())
}

/// Puts the files of these lines on the shelf.
pub fn add_files(alloc: Global, shelf: &mut MemShelf, lines: &str) -> Result<(), AllocError> {
    for file in lines.split("\nfile ").skip(1) {
        add_file(alloc, shelf, file)?;
    }
    Ok(())
}

/// Makes the fetches fail that the row names, counted from 0.
pub fn fail_fetches(shelf: &mut MemShelf, row: &str) -> Result<(), AllocError> {
    for line in row.split("\n") {
        let (word, rest) = parted(line);
        if word == "fail" {
            shelf.fail_at(rest.parse::<u32>().unwrap_or(0))?;
        }
    }
    Ok(())
}
