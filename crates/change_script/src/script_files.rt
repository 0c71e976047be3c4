//! From a text to a script.

ghost use Rattle.std.specs.Prelude.{◌≡◌, ◌≢◌, ◌+◌, ◌^◌, ◌<◌, ◌≤◌, ◌∷◌, ◌++◌, [], List, ℕ, length, IfOk, IfErr, IsOkAnd, IsErrOf, ◌⊎◌, Ok, Err, None, Some};
ghost use Rattle.change_script.specs.EventFiles.{first_fault};
ghost use Rattle.change_script.specs.Lines.{statements};
ghost use Rattle.change_script.specs.ScriptFiles.{IsScript, IsScriptFault, ends_with_end, fault_in, has, is_stop, is_file, is_finish, is_out_of_order, is_start, lack, line_faults, needs_file, needs_start, said};
ghost use Rattle.change_script.specs.ScriptLines as of_lines;
ghost use Rattle.change_script.specs.ScriptReading.{IsAbove};

use crate::error::ScriptError;
use crate::lines::next_statement;
use crate::script_lines::meaning;
use config_graph::List;
use darwin_lexer::MAX_TEXT;
use report_types::{Body, Script, ScriptLine};
use std::alloc::Global;

/// How many statements a script has at most.
pub const MAX_STATEMENTS: usize = 256;

/// What kinds of statements stand above a line.
#[derive(Clone, Copy)]
struct Above {
    file: bool,
    start: bool,
    finish: bool,
    end: bool,
}

/// What the script with these bytes says; or the first line at fault and what is wrong with it, or what no line says.
pub fn parse_script(alloc: Global, text: &[u8]) -> Result<Script, ScriptError>
    requires { length text.now ≤ MAX_TEXT }
    ensures script { IfOk result (λ script. IsScript text.now script) }
    ensures few { IfOk result (λ script. length script.lines ≤ MAX_STATEMENTS) }
    ensures fault { IfErr result (λ fault. fault ≢ ScriptError.NoMemory → IsScriptFault text.now fault) }
    ensures whenever_script { (script : Script) → IsScript text.now script
        → IsOkAnd result (λ found. found ≡ script) ⊎ IsErrOf result ScriptError.NoMemory }
    ensures whenever_fault { (fault : ScriptError) → IsScriptFault text.now fault
        → IsErrOf result fault ⊎ IsErrOf result ScriptError.NoMemory }
{
    let lines = lines_of(alloc, text)?;
    match lack(&lines) {
        Some(fault) => Err(fault),
        None => Ok(Script {
            lines: List::of(lines),
        }),
    }
}

/// The statements of the lines of `text`.
fn lines_of(alloc: Global, text: &[u8]) -> Result<Vec<ScriptLine>, ScriptError>
    requires { 1 + length text.now < 2 ^ 32 }
    ensures right { IfOk result (λ lines. first_fault (line_faults [] (statements text.now)) ≡ None) }
    ensures read { IfOk result (λ lines. lines.items ≡ said (statements text.now)) }
    ensures few { IfOk result (λ lines. length lines.items ≤ MAX_STATEMENTS) }
    ensures fault { IfErr result (λ fault. fault ≢ ScriptError.NoMemory
        → first_fault (line_faults [] (statements text.now)) ≡ Some fault) }
{
    let mut lines = Vec::new(alloc);
    let mut above = Above {
        file: false,
        start: false,
        finish: false,
        end: false,
    };
    let mut rest = text;
    let mut number = 1;
    'lines: loop {
        let Some(line) = next_statement(rest, number) else {
            return Ok(lines);
        };
        let body = statement_of(alloc, &lines, above, line.bytes, line.number)?;
        above = above.and(&body);
        lines.push(ScriptLine {
            number: line.number,
            body,
        })?;
        rest = line.rest;
        number = line.number + 1;
    }
}

/// The statement of a line below these.
fn statement_of(
    alloc: Global,
    lines: &[ScriptLine],
    above: Above,
    line: &[u8],
    number: u32,
) -> Result<Body, ScriptError>
    requires { IsAbove lines.now above }
    ensures read { IfOk result (λ body. of_lines.meaning line.now ≡ Ok body) }
    ensures right { IfOk result (λ body. fault_in lines.now number (Ok body) ≡ None) }
    ensures few { IfOk result (λ body. length lines.now < MAX_STATEMENTS) }
    ensures fault { IfErr result (λ fault. fault ≢ ScriptError.NoMemory
        → fault_in lines.now number (of_lines.meaning line.now) ≡ Some fault) }
{
    match meaning(alloc, line) {
        Ok(body) => in_its_place(lines, above, body, number),
        Err(error) => Err(error.at(number)),
    }
}

/// The statement, where one may stand below these lines, and this one there.
fn in_its_place(
    lines: &[ScriptLine],
    above: Above,
    body: Body,
    number: u32,
) -> Result<Body, ScriptError>
    requires { IsAbove lines.now above }
    ensures right { IfOk result (λ found. (found ≡ body) × (fault_in lines.now number (Ok body) ≡ None)) }
    ensures few { IfOk result (λ found. length lines.now < MAX_STATEMENTS) }
    ensures fault { IfErr result (λ fault. fault_in lines.now number (Ok body) ≡ Some fault) }
{
    if lines.len() >= MAX_STATEMENTS {
        return Err(ScriptError::TooManyLines(number));
    }
    if above.forbids(&body) {
        return Err(ScriptError::Order(number));
    }
    Ok(body)
}

impl Above {
    /// The same with this statement.
    fn and(self, body: &Body) -> Above
        ensures { (lines : List ScriptLine) (number : ℕ) → IsAbove lines self
            → IsAbove (lines ++ record { number = number; body = body.now } ∷ []) result }
    {
        Above {
            file: self.file || is_file(body),
            start: self.start || is_start(body),
            finish: self.finish || is_finish(body),
            end: self.end || is_stop(body),
        }
    }

    /// Whether a statement can't stand below these.
    fn forbids(self, body: &Body) -> bool
        ensures { (lines : List ScriptLine) → IsAbove lines self → result ≡ is_out_of_order lines body.now }
    {
        (needs_file(body) && !self.file)
            || (is_start(body) && self.start)
            || (needs_start(body) && !self.start)
            || self.end
            || (self.finish && !is_stop(body))
    }
}

/// What a script misses whose lines are right.
fn lack(lines: &[ScriptLine]) -> Option<ScriptError>
    ensures { result ≡ lack lines.now }
{
    if !has_start(lines) {
        return Some(ScriptError::NoStart);
    }
    if !ends_with_end(lines) {
        return Some(ScriptError::NoEnd);
    }
    None
}

fn has_start(lines: &[ScriptLine]) -> bool
    ensures { result ≡ has is_start lines.now }
{
    lines.iter().any(|line| is_start(&line.body))
}

fn ends_with_end(lines: &[ScriptLine]) -> bool
    ensures { result ≡ ends_with_end lines.now }
{
    match lines.last() {
        Some(line) => is_stop(&line.body),
        None => false,
    }
}

fn is_file(body: &Body) -> bool
    ensures { result ≡ is_file body.now }
{
    matches!(body, Body::File(_))
}

fn is_start(body: &Body) -> bool
    ensures { result ≡ is_start body.now }
{
    matches!(body, Body::Start { .. })
}

fn is_finish(body: &Body) -> bool
    ensures { result ≡ is_finish body.now }
{
    matches!(body, Body::Finish(_))
}

fn is_stop(body: &Body) -> bool
    ensures { result ≡ is_stop body.now }
{
    matches!(body, Body::Stop)
}

fn needs_file(body: &Body) -> bool
    ensures { result ≡ needs_file body.now }
{
    matches!(body, Body::Start { .. } | Body::Change { .. })
}

fn needs_start(body: &Body) -> bool
    ensures { result ≡ needs_start body.now }
{
    matches!(
        body,
        Body::Run(_) | Body::Change { .. } | Body::Show | Body::Finish(_)
    )
}
