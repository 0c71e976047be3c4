//! Names of faults with their fields, each after a space.

ghost use Rattle.std.specs.Prelude.{◌≡◌, ◌++◌, ◌∷◌, [], OnOk, decimal};
ghost use Rattle.command_answers.specs.RefusalLines as lines;
ghost use Rattle.command_answers.specs.DescriptionFaults.{fault_words};

use crate::error::DescriptionFault;
use change_plan::PlanError;
use change_script::ScriptError;
use config_graph::{NoMemory, Text};
use darwin_lexer::{At, LexError};
use darwin_types::TypeError;
use elaborator::ElabError;
use itoa::Buffer;
use report_texts::ReportFault;

/// Writes what names a fault of a description, each word after a space.
pub fn push_fault(line: &mut Vec<u8>, fault: &DescriptionFault) -> Result<(), NoMemory>
    ensures { OnOk result (line.new.items ≡ line.old.items ++ lines.spaced (fault_words fault.now)) }
{
    match fault {
        DescriptionFault::NoMemory => Ok(()),
        DescriptionFault::Lex(fault) => push_lex_fault(line, fault),
        DescriptionFault::Expected(at) => push_placed(line, b"Expected", *at),
        DescriptionFault::TooNested(at) => push_placed(line, b"TooNested", *at),
        DescriptionFault::Check(fault) => push_check_fault(line, fault),
        DescriptionFault::Elaborate(fault) => push_elaborate_fault(line, fault),
        DescriptionFault::Plan(fault) => push_plan_fault(line, fault),
    }
}

/// Writes a fault of a script or of a file of events.
pub fn push_script_fault(line: &mut Vec<u8>, fault: &ScriptError) -> Result<(), NoMemory>
    ensures { OnOk result (line.new.items ≡ line.old.items ++ lines.spaced (lines.script_words fault.now)) }
{
    match fault {
        ScriptError::BadLine(number) => push_line(line, b"BadLine", *number),
        ScriptError::NoStart => push_word(line, b"NoStart"),
        ScriptError::NoEnd => push_word(line, b"NoEnd"),
        ScriptError::Order(number) => push_line(line, b"Order", *number),
        ScriptError::NumberTooBig(number) => push_line(line, b"NumberTooBig", *number),
        ScriptError::TooManyLines(number) => push_line(line, b"TooManyLines", *number),
        ScriptError::NoMemory => Ok(()),
    }
}

/// Writes a fault of a report.
pub fn push_report_fault(line: &mut Vec<u8>, fault: &ReportFault) -> Result<(), NoMemory>
    ensures { OnOk result (line.new.items ≡ line.old.items ++ lines.spaced (lines.report_words fault.now)) }
{
    match fault {
        ReportFault::BadLine(number) => push_line(line, b"BadLine", *number),
        ReportFault::Short => push_word(line, b"Short"),
        ReportFault::NoMemory => Ok(()),
    }
}

/// Writes a fault of the lexer.
fn push_lex_fault(line: &mut Vec<u8>, fault: &LexError) -> Result<(), NoMemory>
    ensures { OnOk result (line.new.items ≡ line.old.items ++ lines.spaced (lines.lex_words fault.now)) }
{
    match fault {
        LexError::BadByte(at) => push_placed(line, b"BadByte", *at),
        LexError::OpenComment(at) => push_placed(line, b"OpenComment", *at),
        LexError::LongName(at) => push_placed(line, b"LongName", *at),
        LexError::BigNumber(at) => push_placed(line, b"BigNumber", *at),
        LexError::NoMemory => Ok(()),
    }
}

/// Writes a fault of the names of a description.
fn push_check_fault(line: &mut Vec<u8>, fault: &TypeError) -> Result<(), NoMemory>
    ensures { OnOk result (line.new.items ≡ line.old.items ++ lines.spaced (lines.check_words fault.now)) }
{
    match fault {
        TypeError::TwoComponents(name) => push_named(line, b"TwoComponents", name),
        TypeError::TwoNames(component, name) => push_named_in(line, b"TwoNames", component, name),
        TypeError::UnknownName(component, name) => push_named_in(
            line,
            b"UnknownName",
            component,
            name,
        ),
        TypeError::UnknownComponent(component, name) => push_named_in(
            line,
            b"UnknownComponent",
            component,
            name,
        ),
        TypeError::ArgCount {
            component,
            name,
            wanted,
            given,
        } => {
            push_named_in(line, b"ArgCount", component, name)?;
            push_numbers(line, *wanted, *given)
        }
        TypeError::UnknownKind(name) => push_named(line, b"UnknownKind", name),
        TypeError::KindPorts(name) => push_named(line, b"KindPorts", name),
        TypeError::NoMemory => Ok(()),
    }
}

/// Writes a fault of the elaboration.
fn push_elaborate_fault(line: &mut Vec<u8>, fault: &ElabError) -> Result<(), NoMemory>
    ensures { OnOk result (line.new.items ≡ line.old.items ++ lines.spaced (lines.elaborate_words fault.now)) }
{
    match fault {
        ElabError::NoTop(name) => push_named(line, b"NoTop", name),
        ElabError::TopIsKind(name) => push_named(line, b"TopIsKind", name),
        ElabError::TopArgs { wanted, given } => {
            push_word(line, b"TopArgs")?;
            push_numbers(line, *wanted, *given)
        }
        ElabError::OutOfRange(path, at) => push_placed_in(line, b"OutOfRange", path, *at),
        ElabError::ZeroDivisor(path, at) => push_placed_in(line, b"ZeroDivisor", path, *at),
        ElabError::BadIndex(path, at) => push_placed_in(line, b"BadIndex", path, *at),
        ElabError::TwoInstances(path) => push_pathed(line, b"TwoInstances", path),
        ElabError::BoundTwice(path, end) => push_end_in(line, b"BoundTwice", path, end),
        ElabError::BadBinding(path, at) => push_placed_in(line, b"BadBinding", path, *at),
        ElabError::Annotation(path, at) => push_placed_in(line, b"Annotation", path, *at),
        ElabError::TooDeep(path) => push_pathed(line, b"TooDeep", path),
        ElabError::TooMany => push_word(line, b"TooMany"),
        ElabError::DependsCycle(path) => push_pathed(line, b"DependsCycle", path),
        ElabError::NoMemory => Ok(()),
    }
}

/// Writes why there is no plan.
fn push_plan_fault(line: &mut Vec<u8>, fault: &PlanError) -> Result<(), NoMemory>
    ensures { OnOk result (line.new.items ≡ line.old.items ++ lines.spaced (lines.plan_words fault.now)) }
{
    match fault {
        PlanError::NotRemoved(path) => push_pathed(line, b"NotRemoved", path),
        PlanError::NotCreated(path) => push_pathed(line, b"NotCreated", path),
        PlanError::KindsDiffer(from, to) => {
            push_word(line, b"KindsDiffer")?;
            push_paths(line, from, to)
        }
        PlanError::MovedTwice(path) => push_pathed(line, b"MovedTwice", path),
        PlanError::NodesFull { made, wanted } => {
            push_word(line, b"NodesFull")?;
            push_numbers(line, *made, *wanted)
        }
        PlanError::PortsFull { made, wanted } => {
            push_word(line, b"PortsFull")?;
            push_numbers(line, *made, *wanted)
        }
        PlanError::NoMemory => Ok(()),
    }
}

/// Writes a word after a space.
pub fn push_word(line: &mut Vec<u8>, word: &[u8]) -> Result<(), NoMemory>
    ensures { OnOk result (line.new.items ≡ line.old.items ++ lines.spaced (word.now ∷ [])) }
{
    line.extend_from_slice(b" ")?;
    line.extend_from_slice(word)
}

/// Writes a number after a space.
fn push_number(line: &mut Vec<u8>, number: u32) -> Result<(), NoMemory>
    ensures { OnOk result (line.new.items ≡ line.old.items ++ lines.spaced (decimal number ∷ [])) }
{
    let mut digits = Buffer::new();
    push_word(line, digits.format(number).as_bytes())
}

/// Writes a place, as LINE:COLUMN, after a space.
fn push_place(line: &mut Vec<u8>, at: At) -> Result<(), NoMemory>
    ensures { OnOk result (line.new.items ≡ line.old.items ++ lines.spaced (lines.place_word at ∷ [])) }
{
    let mut row = Buffer::new();
    let mut column = Buffer::new();
    line.extend_from_slice(b" ")?;
    line.extend_from_slice(row.format(at.line).as_bytes())?;
    line.extend_from_slice(b":")?;
    line.extend_from_slice(column.format(at.column).as_bytes())
}

/// Writes a path after a space, that of the top as a full stop.
fn push_path(line: &mut Vec<u8>, path: &Text) -> Result<(), NoMemory>
    ensures { OnOk result (line.new.items ≡ line.old.items ++ lines.spaced (lines.path_word path.now ∷ [])) }
{
    match path.as_bytes() {
        [] => push_word(line, b"."),
        bytes => push_word(line, bytes),
    }
}

/// Writes two paths, each after a space.
fn push_paths(line: &mut Vec<u8>, from: &Text, to: &Text) -> Result<(), NoMemory>
    ensures { OnOk result
        (line.new.items ≡ line.old.items ++ lines.spaced (lines.path_word from.now ∷ lines.path_word to.now ∷ [])) }
{
    push_path(line, from)?;
    push_path(line, to)
}

/// Writes the name of a fault and its place.
fn push_placed(line: &mut Vec<u8>, name: &[u8], at: At) -> Result<(), NoMemory>
    ensures { OnOk result (line.new.items ≡ line.old.items ++ lines.spaced (name.now ∷ lines.place_word at ∷ [])) }
{
    push_word(line, name)?;
    push_place(line, at)
}

/// Writes the name of a fault, the path of an instance, and a place.
fn push_placed_in(line: &mut Vec<u8>, name: &[u8], path: &Text, at: At) -> Result<(), NoMemory>
    ensures { OnOk result (line.new.items ≡ line.old.items ++ lines.spaced
        (name.now ∷ lines.path_word path.now ∷ lines.place_word at ∷ [])) }
{
    push_word(line, name)?;
    push_path(line, path)?;
    push_place(line, at)
}

/// Writes the name of a fault and the path of an instance.
fn push_pathed(line: &mut Vec<u8>, name: &[u8], path: &Text) -> Result<(), NoMemory>
    ensures { OnOk result (line.new.items ≡ line.old.items ++ lines.spaced (name.now ∷ lines.path_word path.now ∷ [])) }
{
    push_word(line, name)?;
    push_path(line, path)
}

/// Writes the name of a fault, the path of an instance, and an end of a binding in it.
fn push_end_in(line: &mut Vec<u8>, name: &[u8], path: &Text, end: &Text) -> Result<(), NoMemory>
    ensures { OnOk result
        (line.new.items ≡ line.old.items ++ lines.spaced (name.now ∷ lines.path_word path.now ∷ end.now ∷ [])) }
{
    push_word(line, name)?;
    push_path(line, path)?;
    push_word(line, end.as_bytes())
}

/// Writes the name of a fault and a name.
fn push_named(line: &mut Vec<u8>, name: &[u8], what: &Text) -> Result<(), NoMemory>
    ensures { OnOk result (line.new.items ≡ line.old.items ++ lines.spaced (name.now ∷ what.now ∷ [])) }
{
    push_word(line, name)?;
    push_word(line, what.as_bytes())
}

/// Writes the name of a fault, that of a component, and a name in it.
fn push_named_in(
    line: &mut Vec<u8>,
    name: &[u8],
    component: &Text,
    what: &Text,
) -> Result<(), NoMemory>
    ensures { OnOk result (line.new.items ≡ line.old.items ++ lines.spaced (name.now ∷ component.now ∷ what.now ∷ [])) }
{
    push_named(line, name, component)?;
    push_word(line, what.as_bytes())
}

/// Writes two numbers, each after a space.
fn push_numbers(line: &mut Vec<u8>, first: u32, second: u32) -> Result<(), NoMemory>
    ensures { OnOk result (line.new.items ≡ line.old.items ++ lines.spaced (decimal first ∷ decimal second ∷ [])) }
{
    push_number(line, first)?;
    push_number(line, second)
}

/// Writes the name of a fault and the number of its line.
fn push_line(line: &mut Vec<u8>, name: &[u8], number: u32) -> Result<(), NoMemory>
    ensures { OnOk result (line.new.items ≡ line.old.items ++ lines.spaced (name.now ∷ decimal number ∷ [])) }
{
    push_word(line, name)?;
    push_number(line, number)
}
