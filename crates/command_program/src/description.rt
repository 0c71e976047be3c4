//! From the bytes of a description to the graphs of its components.

ghost use Rattle.std.specs.Prelude.{◌≤◌, ℕ, List, length, IfOk, IfErr};
ghost use Rattle.darwin_lexer.specs.Tokens.{IsTokens};
ghost use Rattle.darwin_parser.specs.Tree.{tree_of};
ghost use Rattle.config_graph.specs.Sound.{Sound};
ghost use Rattle.darwin_types.specs.Checked.{description};
ghost use Rattle.command_spec.specs.Descriptions.{IsTree, IsChecked, IsGraphOfCall, HasGraph, IsTextRefusal, IsDescriptionRefusal};
ghost use Rattle.command_answers.specs.DescriptionFaults.{MayRefuse};
ghost use Rattle.command_program.specs.Refusals.{NamesFault};

use crate::places::place_at;
use command_answers::DescriptionFault;
use command_words::TopCall;
use config_graph::Graph;
use darwin_lexer::{MAX_TEXT, Token, lex};
use darwin_parser::{ParseError, Unit, parse};
use darwin_types::{Checked, check};
use elaborator::elaborate;
use std::alloc::Global;

/// The description of these bytes, in which no name is at fault, or what refuses it.
pub fn checked_of(alloc: Global, text: &[u8]) -> Result<Checked, DescriptionFault>
    requires { length text.now ≤ MAX_TEXT }
    ensures checked { IfOk result (λ checked. IsChecked text.now (description checked)) }
    ensures refused { IfErr result (MayRefuse (IsTextRefusal text.now)) }
{
    let tokens = lex(alloc, text)?;
    let unit = tree_of_tokens(alloc, text, tokens.as_slice())?;
    Ok(check(alloc, unit)?)
}

/// The graph of a component of a description with these arguments, or what refuses it.
pub fn graph_of(
    alloc: Global,
    checked: &Checked,
    top: &[u8],
    args: &[i32],
) -> Result<Graph, DescriptionFault>
    ensures is_graph { IfOk result (IsGraphOfCall (description checked.now) top.now args.now) }
    ensures sound { IfOk result (λ graph. Sound graph) }
    ensures at_fault { IfErr result (MayRefuse (NamesFault (description checked.now) top.now args.now)) }
    ensures graph { (text : List ℕ) → IsChecked text (description checked.now)
        → IfOk result (HasGraph text top.now args.now) }
    ensures refused { (text : List ℕ) → IsChecked text (description checked.now)
        → IfErr result (MayRefuse (IsDescriptionRefusal text top.now args.now)) }
{
    Ok(elaborate(alloc, checked, top, args)?)
}

/// The graph of a call's component.
pub fn graph_of_call(
    alloc: Global,
    checked: &Checked,
    call: &TopCall<'_>,
) -> Result<Graph, DescriptionFault>
    ensures sound { IfOk result (λ graph. Sound graph) }
    ensures graph { (text : List ℕ) → IsChecked text (description checked.now)
        → IfOk result (HasGraph text call.now.top call.now.args) }
    ensures refused { (text : List ℕ) → IsChecked text (description checked.now)
        → IfErr result (MayRefuse (IsDescriptionRefusal text call.now.top call.now.args)) }
{
    graph_of(
        alloc,
        checked,
        call.top.as_str().as_bytes(),
        call.args.items(),
    )
}

/// The tree of a description, from its tokens.
fn tree_of_tokens(alloc: Global, text: &[u8], tokens: &[Token]) -> Result<Unit, DescriptionFault>
    requires short { length text.now ≤ MAX_TEXT }
    requires few { length tokens.now ≤ length text.now }
    requires parted { IsTokens text.now tokens.now }
    ensures tree { IfOk result (λ unit. IsTree text.now (tree_of unit)) }
    ensures refused { IfErr result (MayRefuse (IsTextRefusal text.now)) }
{
    match parse(alloc, text, tokens) {
        Ok(unit) => Ok(unit),
        Err(ParseError::Expected(n)) => Err(DescriptionFault::Expected(place_at(text, tokens, n))),
        Err(ParseError::TooNested(n)) => Err(DescriptionFault::TooNested(place_at(
            text, tokens, n,
        ))),
        Err(ParseError::NoMemory) => Err(DescriptionFault::NoMemory),
    }
}
