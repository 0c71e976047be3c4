//! How nodes are made.

ghost use Rattle.std.specs.Prelude.{◌≡◌, ◌+◌, ◌<◌, ◌++◌, ◌∷◌, [], None, length, vec_capacity};
ghost use Rattle.std.specs.Option.{option_map_or};
ghost use Rattle.component_trait.specs.States.{argument};
ghost use Rattle.component_trait.specs.Making.{handed_over, new_node};
ghost use Rattle.node_gate.specs.Seats.{IsWithinLimits};
ghost use Rattle.quiesce_core.specs.Knowledge.{nothing_known};
ghost use Rattle.state_handover.specs.Making.{FitsKind};
ghost use Rattle.step_board.specs.Seen.{component_state, past_in};
ghost use Rattle.step_board.specs.declared.held.Held.TheVariants as held;

use component_trait::Component;
use config_graph::Kind;
use node_gate::CoreSeat;
use node_host::{HostNode, Past};
use state_handover::{AnyNode, import, make};
use std::alloc::Global;

/// A node that has done nothing, and is the first of its line.
pub fn host_first(
    alloc: Global,
    slot: u32,
    first_port: u32,
    kind: Kind,
    arg: Option<u32>,
) -> HostNode<AnyNode, CoreSeat>
    requires fits { FitsKind kind arg }
    requires limits { IsWithinLimits (record { slot = slot; kind = kind; first = first_port }) }
    ensures place { (result.slot ≡ slot) × (result.first_port ≡ first_port) }
    ensures state { component_state result.inner ≡ new_node kind arg }
    ensures known { result.seat.known ≡ nothing_known }
    ensures log { result.log.items ≡ [] }
    ensures past { result.past.items ≡ [] }
    ensures waiting { result.waiting ≡ None ∷ None ∷ [] }
{
    let inner = make(alloc, kind, arg);
    HostNode::host(
        alloc,
        slot,
        first_port,
        inner,
        CoreSeat::new(slot),
        Vec::new(alloc),
    )
}

/// A node that has done nothing, and takes over the state and the past of one of its kind, with an argument of its
/// own. There is room for one more in that past.
pub fn host_from(
    alloc: Global,
    old: HostNode<AnyNode, CoreSeat>,
    slot: u32,
    first_port: u32,
    arg: Option<u32>,
) -> HostNode<AnyNode, CoreSeat>
    requires rests { (component_state old.inner).service ≡ None }
    requires old_arg { option_map_or (λ a. a) (argument (component_state old.inner))
        0 ≡ (component_state old.inner).arg }
    requires fits { FitsKind (component_state old.inner).kind arg }
    requires limits { IsWithinLimits
        (record { slot = slot; kind = (component_state old.inner).kind; first = first_port }) }
    requires room { length old.past.items < vec_capacity old.past }
    ensures place { (result.slot ≡ slot) × (result.first_port ≡ first_port) }
    ensures state { component_state result.inner ≡ handed_over
        (component_state old.inner).kind arg (component_state old.inner).kept }
    ensures known { result.seat.known ≡ nothing_known }
    ensures log { result.log.items ≡ [] }
    ensures past { past_in (held.Node result) ≡ past_in (held.Node old) ++ record {
      slot = old.slot;
      first = old.first_port;
      arg = (component_state old.inner).arg;
      log = old.log.items;
    } ∷ [] }
    ensures waiting { result.waiting ≡ None ∷ None ∷ [] }
{
    let old_slot = old.slot;
    let old_first = old.first_port;
    let old_arg = old.inner.arg().unwrap_or(0);
    let (inner, seat, log, mut past) = old.into_parts();
    past.push_reserved(Past {
        slot: old_slot,
        first_port: old_first,
        arg: old_arg,
        seat,
        log,
    });
    HostNode::host(
        alloc,
        slot,
        first_port,
        import(inner, arg),
        CoreSeat::new(slot),
        past,
    )
}
