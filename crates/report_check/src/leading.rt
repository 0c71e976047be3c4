//! One node led through its log.

ghost use Rattle.std.specs.Prelude.{◌≡◌, bytes_eq, IfOk};
ghost use Rattle.component_trait.specs.Following as following;
ghost use Rattle.component_trait.specs.Moves as moves;
ghost use Rattle.report_check.specs.Leading as leading;
ghost use Rattle.report_check.specs.Leading.{LedBy};

use component_trait::{Component, follow};
use config_graph::{NoMemory, VALUE_LIMIT};
use quiesce_core::{Event, NodeEvent};
use report_types::Last;

/// The value that an event carries; 0 where it carries none.
fn value_of(event: &Event) -> u32
    ensures { result ≡ following.value_of event.now }
{
    match event {
        Event::Begin { value, .. }
        | Event::Call { value, .. }
        | Event::Take { value, .. }
        | Event::Give { value, .. }
        | Event::End { value, .. }
        | Event::More { value, .. }
        | Event::Ask { value, .. }
        | Event::Hear { value, .. } => *value,
        _ => 0,
    }
}

/// Leads a node by an event, if it has it then and the value is one.
fn lead<C: Component>(node: &mut C, first_port: u32, event: &Event) -> Result<bool, NoMemory>
    ensures { IfOk result
        (LedBy (leading.led_by first_port (C.state node.old) event.now) (C.state node.new)) }
{
    if value_of(event) < VALUE_LIMIT {
        follow(node, first_port, event)
    } else {
        Ok(false)
    }
}

/// Leads a node through its log, if it has each event in its turn.
pub(crate) fn lead_through<C: Component>(
    node: &mut C,
    first_port: u32,
    log: &[NodeEvent],
) -> Result<bool, NoMemory>
    ensures { IfOk result
        (LedBy (leading.led_through first_port (C.state node.old) log.now) (C.state node.new)) }
{
    for event in log {
        if !lead(node, first_port, &event.event())? {
            return Ok(false);
        }
    }
    Ok(true)
}

/// Whether these are the numbers of a node's state.
fn has_numbers<C: Component>(node: &C, numbers: &[u64]) -> bool
    ensures { result ≡ bytes_eq (moves.numbers (C.state node.now)) numbers.now }
{
    if node.state_len() != numbers.len() {
        return false;
    }
    for (index, number) in numbers.iter().enumerate() {
        if node.state_word(index) != *number {
            return false;
        }
    }
    true
}

/// Whether a log ends so: with the numbers of the node's state, or with the slot to which that went.
pub(crate) fn ends_so<C: Component>(node: &C, heir: Option<u32>, last: &Last) -> bool
    ensures { result ≡ leading.ends_so (C.state node.now) heir last.now }
{
    match (heir, last) {
        (None, Last::State(numbers)) => has_numbers(node, numbers.items()),
        (Some(heir), Last::Moved(slot)) => heir == *slot,
        _ => false,
    }
}
