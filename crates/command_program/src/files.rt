//! Files by their sorts: each is fetched and read, or refused.

ghost use Rattle.std.specs.Prelude.{◌≡◌, ◌≢◌, ◌≤◌, length, IfOk, Option};
ghost use Rattle.cfg_io.specs.Shelf.{Files};
ghost use Rattle.change_script.specs.declared.error.ScriptError.TheVariants as script_faults;
ghost use Rattle.report_texts.specs.declared.error.ReportFault.TheVariants as report_faults;
ghost use Rattle.darwin_types.specs.Checked as of_checked;
ghost use Rattle.report_writing.specs.Reports.{LogsAreMade};
ghost use Rattle.command_answers.specs.Answers as values;
ghost use Rattle.command_answers.specs.RefusalLines.{report_words, script_words};
ghost use Rattle.command_spec.specs.Courses.{ends, fetches, reads};
ghost use Rattle.command_spec.specs.Sorts.{limit_of, of_description, of_events, of_report, of_script};
ghost use Rattle.command_program.specs.Coming.{Comes, EndsIn, StopsFor};
ghost use Rattle.command_program.specs.Refusals.{IsFaultOf};
ghost use Rattle.command_program.specs.Sources.{sort_of};

use crate::answer::{Stop, stop_with, too_long, unreadable};
use crate::checked_of;
use cfg_io::{Shelf, ShelfError};
use change_script::{EventFile, ScriptError, parse_events, parse_script};
use command_answers::{DescriptionFault, Status, description_line, report_line, script_line};
use config_graph::List;
use darwin_lexer::MAX_TEXT;
use darwin_types::Checked;
use report_texts::{MAX_REPORT, ReportFault, parse_report};
use report_types::{Report, Script};
use std::alloc::Global;

/// The sorts of files.
#[derive(Clone, Copy)]
pub enum FileSort {
    Script,
    /// A file of events.
    Events,
    Report,
    Description,
}

impl FileSort {
    /// The most bytes of a file of this sort.
    pub fn limit(self) -> u32
        ensures { result ≡ limit_of (sort_of self) }
    {
        match self {
            FileSort::Report => MAX_REPORT as u32,
            FileSort::Script | FileSort::Events | FileSort::Description => MAX_TEXT as u32,
        }
    }
}

/// Fetches a file of a sort, or says why it has no bytes to go on with.
pub fn fetch_file<H: Shelf>(
    alloc: Global,
    shelf: &mut H,
    sort: FileSort,
    file: &str,
) -> Result<List<u8>, Stop>
    ensures comes { Comes (λ text bytes. text ≡ bytes) (H.files shelf.old) (fetches (sort_of sort) file.now ends)
        (H.failed shelf.old) (H.failed shelf.new) result }
    ensures within { IfOk result (λ text. length text ≤ limit_of (sort_of sort)) }
    ensures kept { H.files shelf.new ≡ H.files shelf.old }
{
    match shelf.fetch(file, sort.limit()) {
        Ok(text) => Ok(List::of(text)),
        Err(ShelfError::Failed) => Err(unreadable(alloc, file)),
        Err(ShelfError::TooLong { .. }) => Err(too_long(alloc, sort, file)),
        Err(ShelfError::NoMemory) => Err(Stop::NoMemory),
    }
}

/// Fetches a script, and reads it.
pub fn read_script<H: Shelf>(alloc: Global, shelf: &mut H, name: &str) -> Result<Script, Stop>
    ensures comes { Comes (λ said value. said ≡ value) (H.files shelf.old) (reads of_script name.now)
        (H.failed shelf.old) (H.failed shelf.new) result }
    ensures kept { H.files shelf.new ≡ H.files shelf.old }
{
    let bytes = fetch_file(alloc, shelf, FileSort::Script, name)?;
    match parse_script(alloc, bytes.items()) {
        Ok(script) => Ok(script),
        Err(fault) => Err(refuse_script(alloc, name, &fault)),
    }
}

/// Fetches a file of events, and reads it.
pub fn read_events<H: Shelf>(alloc: Global, shelf: &mut H, name: &str) -> Result<EventFile, Stop>
    ensures comes { Comes (λ said value. said ≡ value) (H.files shelf.old) (reads of_events name.now)
        (H.failed shelf.old) (H.failed shelf.new) result }
    ensures kept { H.files shelf.new ≡ H.files shelf.old }
{
    let bytes = fetch_file(alloc, shelf, FileSort::Events, name)?;
    match parse_events(alloc, bytes.items()) {
        Ok(events) => Ok(events),
        Err(fault) => Err(refuse_script(alloc, name, &fault)),
    }
}

/// Fetches a report, and reads it.
pub fn read_report<H: Shelf>(alloc: Global, shelf: &mut H, name: &str) -> Result<Report, Stop>
    ensures comes { Comes (λ said value. said ≡ value) (H.files shelf.old) (reads of_report name.now)
        (H.failed shelf.old) (H.failed shelf.new) result }
    ensures logs { IfOk result (λ report. LogsAreMade report) }
    ensures kept { H.files shelf.new ≡ H.files shelf.old }
{
    let bytes = fetch_file(alloc, shelf, FileSort::Report, name)?;
    match parse_report(alloc, bytes.items()) {
        Ok(report) => Ok(report),
        Err(fault) => Err(refuse_report(alloc, name, &fault)),
    }
}

/// Fetches a description, and reads it.
pub fn read_description<H: Shelf>(alloc: Global, shelf: &mut H, file: &str) -> Result<Checked, Stop>
    ensures comes { Comes (λ checked tree. of_checked.description checked ≡ tree) (H.files shelf.old)
        (reads of_description file.now) (H.failed shelf.old) (H.failed shelf.new) result }
    ensures kept { H.files shelf.new ≡ H.files shelf.old }
{
    let bytes = fetch_file(alloc, shelf, FileSort::Description, file)?;
    match checked_of(alloc, bytes.items()) {
        Ok(checked) => Ok(checked),
        Err(fault) => Err(refuse_description(alloc, file, &fault)),
    }
}

/// The line that refuses a description.
pub fn refuse_description(alloc: Global, file: &str, fault: &DescriptionFault) -> Stop
    ensures { StopsFor (IsFaultOf file.now fault.now) result }
{
    if fault.is_no_memory() {
        return Stop::NoMemory;
    }
    stop_with(Status::Description, description_line(alloc, file, fault))
}

/// The line that refuses a script, or a file of events.
fn refuse_script(alloc: Global, name: &str, fault: &ScriptError) -> Stop
    ensures { StopsFor (λ why. (fault.now ≢ script_faults.NoMemory) × (why ≡ values.script name.now (script_words fault.now)))
        result }
{
    match fault {
        ScriptError::NoMemory => Stop::NoMemory,
        fault => stop_with(Status::Script, script_line(alloc, name, fault)),
    }
}

/// The line that refuses a report.
fn refuse_report(alloc: Global, name: &str, fault: &ReportFault) -> Stop
    ensures { StopsFor (λ why. (fault.now ≢ report_faults.NoMemory) × (why ≡ values.script name.now (report_words fault.now)))
        result }
{
    match fault {
        ReportFault::NoMemory => Stop::NoMemory,
        fault => stop_with(Status::Script, report_line(alloc, name, fault)),
    }
}
