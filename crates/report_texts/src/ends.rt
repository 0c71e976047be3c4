//! The first line of a report, and those behind its logs.

ghost use Rattle.std.specs.Prelude.{◌≡◌, None, Some, IfErr, IfOk, Err, Ok};
ghost use Rattle.report_texts.specs.Rests.{CanNumberLines, IsRestOf, leaving};
ghost use Rattle.report_texts.specs.Stages.{is_over, status_from, unfinished_from, unfinished_of, version_from};
ghost use Rattle.report_texts.specs.TextLines.{lines, tail};

use crate::error::ReportFault;
use crate::limits::is_slot;
use crate::rest::{Rest, next_line};
use crate::version::{Version, version_in};
use report_lines::{status_line, unfinished_line};

/// The version that the first line says.
pub fn version(rest: Rest<'_>) -> Result<(Version, Rest<'_>), ReportFault>
    requires { CanNumberLines rest }
    ensures read { IfOk result
        (λ found. version_from rest.entry.number (lines rest.entry.text.now) ≡ Ok (leaving found.0 found.1)) }
    ensures follows { IfOk result (λ found. IsRestOf found.1 rest.entry) }
    ensures fault { IfErr result (λ fault. version_from rest.entry.number (lines rest.entry.text.now) ≡ Err fault) }
{
    let Some((line, behind)) = next_line(rest) else {
        return Err(ReportFault::Short);
    };
    match version_in(line) {
        Some(version) => Ok((version, behind)),
        None => Err(ReportFault::BadLine(rest.number)),
    }
}

/// The slot that an `unfinished` line names, where there is one.
pub fn unfinished(version: Version, rest: Rest<'_>) -> (Option<u32>, Rest<'_>)
    requires { CanNumberLines rest }
    ensures read { unfinished_from version rest.entry.number (lines rest.entry.text.now) ≡ leaving result.0 result.1 }
    ensures follows { IsRestOf result.1 rest.entry }
{
    let Some((line, behind)) = next_line(rest) else {
        return (None, rest);
    };
    match unfinished_in(version, line) {
        Some(slot) => (Some(slot), behind),
        None => (None, rest),
    }
}

fn unfinished_in(version: Version, line: &[u8]) -> Option<u32>
    ensures { result ≡ unfinished_of version line.now }
{
    let slot = unfinished_line(line)?;
    if is_slot(version, slot) {
        Some(slot)
    } else {
        None
    }
}

/// The exit status.
pub fn status(rest: Rest<'_>) -> Result<(u8, Rest<'_>), ReportFault>
    requires { CanNumberLines rest }
    ensures read { IfOk result
        (λ found. status_from rest.entry.number (lines rest.entry.text.now) ≡ Ok (leaving found.0 found.1)) }
    ensures follows { IfOk result (λ found. IsRestOf found.1 rest.entry) }
    ensures fault { IfErr result (λ fault. status_from rest.entry.number (lines rest.entry.text.now) ≡ Err fault) }
{
    let Some((line, behind)) = next_line(rest) else {
        return Err(ReportFault::Short);
    };
    match status_line(line) {
        Some(status) => Ok((status, behind)),
        None => Err(ReportFault::BadLine(rest.number)),
    }
}

/// Whether nothing is left.
pub fn is_over(rest: Rest<'_>) -> bool
    ensures { result ≡ is_over (lines rest.entry.text.now) (tail rest.entry.text.now) }
{
    rest.text.is_empty()
}
