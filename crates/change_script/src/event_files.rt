//! From a text to an event file.

ghost use Rattle.std.specs.Prelude.{◌≡◌, ◌≢◌, ◌+◌, ◌^◌, ◌<◌, ◌≤◌, length, IfOk, IfErr, IsOkAnd, IsErrOf, ◌⊎◌, Ok, Err, Some, true};
ghost use Rattle.change_script.specs.EventFiles.{IsEventFile, IsFirstFault, fault_in};
ghost use Rattle.change_script.specs.Reading.{event_at, read_events};
ghost use Rattle.change_script.specs.Lines.{statements_from};
ghost use Rattle.change_script.specs.Tokens.{tokens};
ghost use Rattle.change_script.specs.EventLines as of_lines;

use crate::error::ScriptError;
use crate::event_lines::{EventLine, meaning};
use crate::lines::next_statement;
use config_graph::{List, Text};
use darwin_lexer::MAX_TEXT;
use quiesce_core::Event;
use std::alloc::Global;

/// What an event file says: which component is started, with which arguments, and what happens then, in order.
#[derive(Drop)]
pub struct EventFile {
    pub name: Text,
    pub args: List<i32>,
    pub events: List<Event>,
}

/// What the event file with these bytes says, or the first line at fault and what is wrong with it.
pub fn parse_events(alloc: Global, text: &[u8]) -> Result<EventFile, ScriptError>
    requires { length text.now ≤ MAX_TEXT }
    ensures file { IfOk result (λ file. IsEventFile text.now file) }
    ensures few { IfOk result (λ file. length file.events ≤ length text.now) }
    ensures fault { IfErr result (λ fault. fault ≢ ScriptError.NoMemory → IsFirstFault text.now fault) }
    ensures whenever_file { (file : EventFile) → IsEventFile text.now file
        → IsOkAnd result (λ found. found ≡ file) ⊎ IsErrOf result ScriptError.NoMemory }
    ensures whenever_fault { (fault : ScriptError) → IsFirstFault text.now fault
        → IsErrOf result fault ⊎ IsErrOf result ScriptError.NoMemory }
{
    let Some(first) = next_statement(text, 1) else {
        return Err(ScriptError::NoStart);
    };
    let (name, args) = start_of(alloc, first.bytes, first.number)?;
    let events = events_of(alloc, first.rest, first.number + 1)?;
    Ok(EventFile {
        name,
        args,
        events: List::of(events),
    })
}

/// The component and the arguments of the first line.
fn start_of(alloc: Global, line: &[u8], number: u32) -> Result<(Text, List<i32>), ScriptError>
    ensures read { IfOk result (λ start. of_lines.meaning (tokens line.now) ≡ Ok (EventLine.Start start.0 start.1)) }
    ensures fault { IfErr result (λ fault. fault ≢ ScriptError.NoMemory
        → fault_in true number (of_lines.meaning (tokens line.now)) ≡ Some fault) }
{
    match meaning(alloc, line) {
        Ok(EventLine::Start { name, args }) => Ok((name, args)),
        Ok(EventLine::Event(_)) => Err(ScriptError::Order(number)),
        Err(error) => Err(error.at(number)),
    }
}

/// The events of the lines of `text`, where `number` is that of its first line.
fn events_of(alloc: Global, text: &[u8], number: u32) -> Result<Vec<Event>, ScriptError>
    requires { number + length text.now < 2 ^ 32 }
    ensures read { IfOk result (λ events. read_events (statements_from number text.now) ≡ Ok events.items) }
    ensures few { IfOk result (λ events. length events.items ≤ length text.now) }
    ensures fault { IfErr result (λ fault. fault ≢ ScriptError.NoMemory
        → read_events (statements_from number text.now) ≡ Err fault) }
{
    let mut events = Vec::new(alloc);
    let mut rest = text;
    let mut number = number;
    'events: loop {
        let Some(line) = next_statement(rest, number) else {
            return Ok(events);
        };
        events.push(event_of(alloc, line.bytes, line.number)?)?;
        rest = line.rest;
        number = line.number + 1;
    }
}

/// The event of a line behind the first.
fn event_of(alloc: Global, line: &[u8], number: u32) -> Result<Event, ScriptError>
    ensures read { IfOk result (λ event. event_at number (of_lines.meaning (tokens line.now)) ≡ Ok event) }
    ensures fault { IfErr result (λ fault. fault ≢ ScriptError.NoMemory
        → event_at number (of_lines.meaning (tokens line.now)) ≡ Err fault) }
{
    match meaning(alloc, line) {
        Ok(EventLine::Event(event)) => Ok(event),
        Ok(EventLine::Start { .. }) => Err(ScriptError::Order(number)),
        Err(error) => Err(error.at(number)),
    }
}
