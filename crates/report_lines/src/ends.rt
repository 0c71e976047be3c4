//! The lines behind the logs of a report.

ghost use Rattle.std.specs.Prelude.{◌≡◌};
ghost use Rattle.report_lines.specs.Parts.{words};
ghost use Rattle.report_lines.specs.Ends.{status_in, unfinished_in};

use crate::numbers::{one_index, single};
use change_script::cut;

/// The slot that an `unfinished` line names, or `None` where the line is none.
pub fn unfinished_line(line: &[u8]) -> Option<u32>
    ensures { result ≡ unfinished_in (words line.now) }
{
    let (verb, rest) = cut(line, b' ');
    if verb == b"unfinished".as_slice() {
        one_index(rest)
    } else {
        None
    }
}

/// The exit status that a `status` line says, or `None` where the line is none.
pub fn status_line(line: &[u8]) -> Option<u8>
    ensures { result ≡ status_in (words line.now) }
{
    let (verb, rest) = cut(line, b' ');
    if verb != b"status".as_slice() {
        return None;
    }
    Some(single(rest, u64::from(u8::MAX))? as u8)
}
