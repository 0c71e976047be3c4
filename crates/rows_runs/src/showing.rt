//! How a text is shown: whole or cut, and with some of its lines.

use crate::lines::{number, parted, value_of};
use std::alloc::{AllocError, Global};

/// Adds a line behind a mark.
fn push_line(shown: &mut String, mark: &str, line: &str) -> Result<(), AllocError> {
    shown.push_str(mark)?;
    if !line.is_empty() {
        shown.push_str(" ")?;
        shown.push_str(line)?;
    }
    shown.push_str("\n")
}

/// Adds a text: its lines, and a piece without a line end behind them.
fn push_whole(shown: &mut String, text: &str) -> Result<(), AllocError> {
    let (lines, rest) = text.rsplit_once("\n").unwrap_or(("", text));
    if lines.len() < text.len() - rest.len() {
        for line in lines.split("\n") {
            push_line(shown, ">", line)?;
        }
    }
    if rest.is_empty() {
        return Ok(());
    }
    push_line(shown, ">:", rest)
}

/// Adds a text's first and last lines, so many of each, and between them how long it is.
fn push_cut(
    alloc: Global,
    shown: &mut String,
    text: &str,
    (first, last): (usize, usize),
) -> Result<(), AllocError> {
    let bytes = text.len();
    let lines = text.split("\n").count().saturating_sub(1);
    for line in text.split("\n").take(first) {
        push_line(shown, ">", line)?;
    }
    let length = format!(in alloc; "{bytes} bytes in {lines} lines")?;
    push_line(shown, "..", length.as_str())?;
    for line in text
        .split("\n")
        .take(lines)
        .skip(lines.saturating_sub(last))
    {
        push_line(shown, ">", line)?;
    }
    Ok(())
}

/// Adds each line that a row asks for, or that the text lacks it.
fn push_some(shown: &mut String, row: &str, text: &str) -> Result<(), AllocError> {
    for line in row.split("\n") {
        let (word, wanted) = parted(line);
        if word == "has" {
            let has = text.split("\n").any(|line| line == wanted);
            push_line(shown, if has { "has" } else { "lacks" }, wanted)?;
        }
    }
    Ok(())
}

/// Adds the text as the row has it shown.
pub fn push_shown(
    alloc: Global,
    shown: &mut String,
    row: &str,
    text: &str,
) -> Result<(), AllocError> {
    match value_of(row, "cut") {
        Some(cut) => {
            let (first, last) = parted(cut);
            push_cut(alloc, shown, text, (number(first), number(last)))?;
        }
        None => push_whole(shown, text)?,
    }
    push_some(shown, row, text)
}
