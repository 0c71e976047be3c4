//! Lines that are read, of at most so many bytes.

ghost use Rattle.std.specs.Prelude.{◌≡◌, Some, None};
ghost use Rattle.change_apply.specs.Reading.{ByteCame, LineCame, TookByte};

use crate::saying::LINE_LIMIT;
use std::io::{BufRead, ErrorKind};

/// What comes next of an input.
#[derive(Clone, Copy, PartialEq, Eq)]
pub(crate) enum Came {
    /// A line. One that is too long ends with the byte that is one too many.
    Line,
    /// The end of the input.
    End,
    /// Nothing: it can't be read.
    Fault,
    NoMemory,
}

/// The next byte of an input.
#[derive(Clone, Copy, PartialEq, Eq)]
enum NextByte {
    Is(u8),
    End,
    Fault,
    /// A signal came in between.
    Interrupted,
}

fn try_byte<R: BufRead>(reader: &mut R) -> NextByte
    ensures { ByteCame (R.remaining reader.old) (R.remaining reader.new) result }
{
    let shown = match reader.fill_buf() {
        Ok(shown) => shown,
        Err(error) => {
            return if error.kind() == ErrorKind::Interrupted {
                NextByte::Interrupted
            } else {
                NextByte::Fault
            };
        }
    };
    if shown.is_empty() {
        return NextByte::End;
    }
    let byte = shown[0];
    reader.consume(1);
    NextByte::Is(byte)
}

/// The next byte, however many signals come in between.
fn next_byte<R: BufRead>(reader: &mut R) -> NextByte
    ensures { ByteCame (R.remaining reader.old) (R.remaining reader.new) result }
{
    for _try in 0..u64::MAX {
        match try_byte(reader) {
            NextByte::Interrupted => {}
            next => return next,
        }
    }
    NextByte::Fault
}

/// Adds the next byte to the line, unless nothing is to be added: then it says what came.
fn take_byte<R: BufRead>(reader: &mut R, line: &mut Vec<u8>) -> Option<Came>
    ensures { TookByte (R.remaining reader.old) (R.remaining reader.new) line.old.items line.new.items result }
{
    match next_byte(reader) {
        NextByte::Is(b'\n') => Some(Came::Line),
        NextByte::Is(byte) => match line.push(byte) {
            Ok(()) => None,
            Err(_) => Some(Came::NoMemory),
        },
        NextByte::End => Some(Came::End),
        NextByte::Fault | NextByte::Interrupted => Some(Came::Fault),
    }
}

/// Reads a line, without its line feed.
pub(crate) fn read_line<R: BufRead>(reader: &mut R, line: &mut Vec<u8>) -> Came
    ensures { LineCame (R.remaining reader.old) (R.remaining reader.new) line.new.items result }
{
    line.clear();
    for _taken in 0..LINE_LIMIT {
        if let Some(came) = take_byte(reader, line) {
            return came;
        }
    }
    take_byte(reader, line).unwrap_or(Came::Line)
}
