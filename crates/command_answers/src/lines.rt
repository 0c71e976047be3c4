//! The lines that refuse.

ghost use Rattle.std.specs.Prelude.{◌≡◌, ◌++◌, ◌∷◌, [], IfOk, codes};
ghost use Rattle.command_answers.specs.RefusalLines as lines;
ghost use Rattle.command_answers.specs.DescriptionFaults.{fault_words};

use crate::error::DescriptionFault;
use crate::rendering::{push_fault, push_report_fault, push_script_fault, push_word};
use change_script::ScriptError;
use config_graph::NoMemory;
use itoa::Buffer;
use quiesce_replay::Denial;
use report_texts::ReportFault;
use std::alloc::Global;

/// The line of a description with a fault.
pub fn description_line(
    alloc: Global,
    file: &str,
    fault: &DescriptionFault,
) -> Result<Vec<u8>, NoMemory>
    ensures { IfOk result (λ line. line.items ≡ lines.description_line file.now (fault_words fault.now)) }
{
    let mut line = begun(alloc, b"description ", file)?;
    push_fault(&mut line, fault)?;
    line.extend_from_slice(b"\n")?;
    Ok(line)
}

/// The line of a description that is too long.
pub fn description_too_long_line(alloc: Global, file: &str) -> Result<Vec<u8>, NoMemory>
    ensures { IfOk result (λ line. line.items ≡ lines.description_line file.now (codes "TooLong" ∷ [])) }
{
    let mut line = begun(alloc, b"description ", file)?;
    push_word(&mut line, b"TooLong")?;
    line.extend_from_slice(b"\n")?;
    Ok(line)
}

/// The line of a file that can't be read.
pub fn read_fault_line(alloc: Global, file: &str) -> Result<Vec<u8>, NoMemory>
    ensures { IfOk result (λ line. line.items ≡ lines.read_fault_line file.now) }
{
    let mut line = Vec::from_slice(alloc, b"read fault ")?;
    line.extend_from_slice(file.as_bytes())?;
    line.extend_from_slice(b"\n")?;
    Ok(line)
}

/// The line of a script or of a file of events with a fault.
pub fn script_line(alloc: Global, name: &str, fault: &ScriptError) -> Result<Vec<u8>, NoMemory>
    ensures { IfOk result (λ line. line.items ≡ lines.script_line name.now (lines.script_words fault.now)) }
{
    let mut line = begun(alloc, b"script ", name)?;
    push_script_fault(&mut line, fault)?;
    line.extend_from_slice(b"\n")?;
    Ok(line)
}

/// The line of a report with a fault.
pub fn report_line(alloc: Global, name: &str, fault: &ReportFault) -> Result<Vec<u8>, NoMemory>
    ensures { IfOk result (λ line. line.items ≡ lines.script_line name.now (lines.report_words fault.now)) }
{
    let mut line = begun(alloc, b"script ", name)?;
    push_report_fault(&mut line, fault)?;
    line.extend_from_slice(b"\n")?;
    Ok(line)
}

/// The line of a script, a file of events or a report that is too long.
pub fn script_too_long_line(alloc: Global, name: &str) -> Result<Vec<u8>, NoMemory>
    ensures { IfOk result (λ line. line.items ≡ lines.script_line name.now (codes "TooLong" ∷ [])) }
{
    let mut line = begun(alloc, b"script ", name)?;
    push_word(&mut line, b"TooLong")?;
    line.extend_from_slice(b"\n")?;
    Ok(line)
}

/// The line of an event that is denied.
pub fn denied_line(alloc: Global, denial: Denial) -> Result<Vec<u8>, NoMemory>
    ensures { IfOk result (λ line. line.items ≡ lines.denied_line denial.number denial.rule) }
{
    let mut number = Buffer::new();
    let mut rule = Buffer::new();
    let mut line = Vec::from_slice(alloc, b"denied")?;
    push_word(&mut line, number.format(denial.number).as_bytes())?;
    push_word(&mut line, rule.format(denial.rule).as_bytes())?;
    line.extend_from_slice(b"\n")?;
    Ok(line)
}

/// A line that says what is refused, and names its file.
fn begun(alloc: Global, what: &[u8], file: &str) -> Result<Vec<u8>, NoMemory>
    ensures { IfOk result (λ line. line.items ≡ what.now ++ file.now ++ codes ":") }
{
    let mut line = Vec::from_slice(alloc, what)?;
    line.extend_from_slice(file.as_bytes())?;
    line.extend_from_slice(b":")?;
    Ok(line)
}
