//! How nodes open: as their arguments say, or with what another node kept.

ghost use Rattle.std.specs.Prelude.{◌≡◌, option_map};
ghost use Rattle.report_check.specs.Leading as leading;
ghost use Rattle.report_check.specs.Leading.{state_of, states_in};
ghost use Rattle.state_handover.specs.Making.{FitsKind};

use crate::tables::MadeNode;
use component_trait::Component;
use state_handover::{AnyNode, import, make};
use std::alloc::Global;

/// What the node that was made in a slot became, taken out.
fn take_node(nodes: &mut [Option<AnyNode>], slot: u32) -> Option<AnyNode>
    ensures taken { option_map state_of result ≡ leading.node_at (states_in nodes.old) slot }
    ensures rest { states_in nodes.new ≡ leading.without (states_in nodes.old) slot }
{
    let place = slot as usize;
    if place < nodes.len() {
        nodes[place].take()
    } else {
        None
    }
}

/// A node that takes over the state of another, where that is of its kind and in no service.
fn hand_over(old: AnyNode, made: &MadeNode) -> Option<AnyNode>
    requires fits { FitsKind made.now.kind made.now.arg }
    ensures { option_map state_of result ≡ leading.handed (state_of old) made.now }
{
    if !old.in_service() && old.kind().number() == made.kind.number() {
        Some(import(old, made.arg))
    } else {
        None
    }
}

fn open_from(nodes: &mut [Option<AnyNode>], from: u32, made: &MadeNode) -> Option<AnyNode>
    requires fits { FitsKind made.now.kind made.now.arg }
    ensures opened { option_map state_of result ≡ leading.opened_from (states_in nodes.old) made.now from }
    ensures rest { states_in nodes.new ≡ leading.without (states_in nodes.old) from }
{
    match take_node(nodes, from) {
        Some(old) => hand_over(old, made),
        None => None,
    }
}

/// The node that was made, as it opens.
pub(crate) fn open(alloc: Global, made: &MadeNode, nodes: &mut [Option<AnyNode>]) -> Option<AnyNode>
    requires fits { FitsKind made.now.kind made.now.arg }
    ensures opened { option_map state_of result ≡ leading.opened (states_in nodes.old) made.now }
    ensures rest { states_in nodes.new ≡ leading.behind_opening (states_in nodes.old) made.now }
{
    match made.from {
        Some(from) => open_from(nodes, from, made),
        None => Some(make(alloc, made.kind, made.arg)),
    }
}
