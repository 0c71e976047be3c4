//! A node at the gates, with its line: the earlier nodes whose state it took over, and itself.

ghost use Rattle.std.specs.Prelude.{◌≡◌, ◌++◌, ◌∷◌, [], None, Some, map};
ghost use Rattle.txn_spec.specs.Views.{node_at};
ghost use Rattle.live_hall.specs.Lines.{line_words, seen_word};
ghost use Rattle.txn_gate.specs.Seats.{node_in};

use component_trait::Component;
use node_host::HostNode;
use state_handover::AnyNode;
use txn_gate::NodeSeat;

/// A node at the gates. Its seat and those of its line say of their nodes what the line has: its kind, the slots, first
/// ports and arguments, and that each took over from the one before it.
#[derive(Drop)]
pub struct Guest {
    pub node: HostNode<AnyNode, NodeSeat>,
    pub ghost line: { map (λ p. seen_word (node_in p.seat)) node.past.items ++ seen_word (node_in node.seat) ∷ []
        ≡ line_words (⟦<AnyNode as Component>⟧.state node.inner).kind None
        (map (λ p. record { slot = p.slot; first = p.first_port; arg = p.arg }) node.past.items
        ++ record {
          slot = node.slot;
          first = node.first_port;
          arg = (⟦<AnyNode as Component>⟧.state node.inner).arg;
        } ∷ []) },
    pub ghost at: { node_at (node_in node.seat) ≡ record {
      slot = node.slot;
      kind = (⟦<AnyNode as Component>⟧.state node.inner).kind;
      first = node.first_port;
    } },
}
