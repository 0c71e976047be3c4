//! A component led by events: what a node did, done again.

ghost use Rattle.std.specs.Prelude.{◌≡◌, ◌+◌, ◌<◌, ◌&&◌, ◌==◌, true, IfSome, MatchResult, OnErr};
ghost use Rattle.quiesce_core.specs.declared.event.Event.TheVariants as event;
ghost use Rattle.component_trait.specs.Bounds.{FitsNext, FitsRequest};
ghost use Rattle.component_trait.specs.Fold as fold;
ghost use Rattle.component_trait.specs.Following.{Answered, Followed, is_take, value_of};
ghost use Rattle.component_trait.specs.Moves as moves;
ghost use Rattle.config_graph.specs.declared.TheConstants.{VALUE_LIMIT};

use crate::component::Component;
use crate::next::{Ask, Next};
use config_graph::NoMemory;
use quiesce_core::Event;

/// Leads a component by an event, where that is what a node of its kind, with this first port, does; else it stays as
/// it was. The answer says which. A `Take` alone takes memory, and may answer `NoMemory` where the component has no
/// room; that leaves it as it was.
pub fn follow<C: Component>(node: &mut C, first_port: u32, event: &Event) -> Result<bool, NoMemory>
    requires { value_of event.now < VALUE_LIMIT }
    ensures followed { MatchResult result (Followed first_port event.now (C.state node.old) (C.state node.new))
        (λ _. C.state node.new ≡ C.state node.old) }
    ensures takes { OnErr result (is_take event.now ≡ true) }
    ensures full { OnErr result (C.has_room node.old → ⊥) }
{
    match event {
        Event::Begin { port, value, .. } => Ok(is_request(first_port, *port, *value, node.wants())),
        Event::Call { port, value, .. } => Ok(is_request(first_port, *port, *value, asks(node))),
        Event::Take { value, .. } => take(node, *value),
        Event::Give { value, .. } => Ok(give(node, *value)),
        Event::End { port, value, .. } => Ok(end(node, first_port, *port, *value)),
        Event::More { value, .. } => Ok(send_more(node, *value)),
        Event::Ask { port, value, .. } => Ok(is_reply(node, first_port, *port, *value)),
        Event::Hear { value, .. } => Ok(hear(node, *value)),
        Event::Miss { port } => Ok(answer(node, first_port, *port, 0)),
        _ => Ok(false),
    }
}

fn is_at(first_port: u32, port: u32, require: u32) -> bool
    ensures { result ≡ (first_port + require == port) }
{
    first_port <= port && port - first_port == require
}

fn is_request(first_port: u32, port: u32, value: u32, ask: Option<Ask>) -> bool
    ensures { result ≡ fold.is_request first_port port value ask }
{
    match ask {
        Some(ask) => is_at(first_port, port, ask.require) && ask.value == value,
        None => false,
    }
}

/// What its service does next, where it is in one that waits for no further message.
#[tactic(auto, using(crate::proofs::FollowLemmas::goes_on, crate::proofs::FollowLemmas::rests, crate::proofs::FollowLemmas::stays))]
fn next<C: Component>(node: &C) -> Option<Next>
    ensures next { result ≡ moves.next (C.state node.now) }
    ensures fits { IfSome result (FitsNext (C.state node.now).kind) }
{
    if node.in_service() && !node.waits() {
        Some(node.next())
    } else {
        None
    }
}

/// What its service asks next.
fn asks<C: Component>(node: &C) -> Option<Ask>
    ensures asked { result ≡ fold.asked_by (moves.next (C.state node.now)) }
    ensures fits { IfSome result (FitsRequest (C.state node.now).kind) }
{
    match next(node) {
        Some(Next::Ask(ask)) => Some(ask),
        _ => None,
    }
}

fn take<C: Component>(node: &mut C, value: u32) -> Result<bool, NoMemory>
    requires { value < VALUE_LIMIT }
    ensures followed { MatchResult result
        (Answered (fold.may_take (C.state node.old)) (C.state node.old) (moves.after_take (C.state node.old) value)
        (C.state node.new))
        (λ _. C.state node.new ≡ C.state node.old) }
    ensures full { OnErr result (C.has_room node.old → ⊥) }
{
    if node.kind().provides() == 0 || node.in_service() {
        return Ok(false);
    }
    node.room()?;
    node.serve(0, value);
    Ok(true)
}

fn give<C: Component>(node: &mut C, value: u32) -> bool
    ensures { Answered (fold.is_give value (moves.next (C.state node.old))) (C.state node.old)
        (moves.after_give (C.state node.old)) (C.state node.new) result }
{
    match next(node) {
        Some(Next::Give(given)) if given == value => {
            node.given();
            true
        }
        _ => false,
    }
}

fn send_more<C: Component>(node: &mut C, value: u32) -> bool
    ensures { Answered (fold.is_more value (moves.next (C.state node.old))) (C.state node.old)
        (moves.after_more (C.state node.old)) (C.state node.new) result }
{
    match next(node) {
        Some(Next::More(sent)) if sent == value => {
            node.more_given();
            true
        }
        _ => false,
    }
}

fn hear<C: Component>(node: &mut C, value: u32) -> bool
    requires { value < VALUE_LIMIT }
    ensures { Answered (moves.waits (C.state node.old)) (C.state node.old)
        (moves.after_answer (C.state node.old) value) (C.state node.new) result }
{
    if node.waits() {
        node.heard(value);
        true
    } else {
        false
    }
}

fn answer<C: Component>(node: &mut C, first_port: u32, port: u32, value: u32) -> bool
    requires { value < VALUE_LIMIT }
    ensures { Answered (fold.calls_at first_port (C.state node.old) port) (C.state node.old)
        (moves.after_answer (C.state node.old) value) (C.state node.new) result }
{
    match next(node) {
        Some(Next::Ask(ask)) if is_at(first_port, port, ask.require) => {
            node.answered(ask.require, value);
            true
        }
        _ => false,
    }
}

fn end_own<C: Component>(node: &mut C, first_port: u32, port: u32, value: u32) -> bool
    requires { value < VALUE_LIMIT }
    ensures { Answered (fold.wants_at first_port (C.state node.old) port) (C.state node.old)
        (moves.after_end (C.state node.old) value) (C.state node.new) result }
{
    match node.wants() {
        Some(ask) if is_at(first_port, port, ask.require) => {
            node.ended(ask.require, value);
            true
        }
        _ => false,
    }
}

fn end<C: Component>(node: &mut C, first_port: u32, port: u32, value: u32) -> bool
    requires { value < VALUE_LIMIT }
    ensures { Followed first_port (event.End port 0 value) (C.state node.old) (C.state node.new) result }
{
    answer(node, first_port, port, value) || end_own(node, first_port, port, value)
}

/// Whether this request is at the port, and the value is what the component replies there.
fn replies_at<C: Component>(
    node: &C,
    first_port: u32,
    port: u32,
    ask: Option<Ask>,
    value: u32,
) -> bool
    requires { IfSome ask (FitsRequest (C.state node.now).kind) }
    ensures { result ≡ (fold.is_request_at first_port port ask && value == moves.replies (C.state node.now)) }
{
    match ask {
        Some(ask) => is_at(first_port, port, ask.require) && value == node.replies(ask.require),
        None => false,
    }
}

/// Whether the component may have a transaction at this port, and the value is what it replies there.
fn is_reply<C: Component>(node: &C, first_port: u32, port: u32, value: u32) -> bool
    ensures { result ≡ (fold.awaits_at first_port (C.state node.now) port &&
        value == moves.replies (C.state node.now)) }
{
    replies_at(node, first_port, port, asks(node), value)
        || replies_at(node, first_port, port, node.wants(), value)
}
