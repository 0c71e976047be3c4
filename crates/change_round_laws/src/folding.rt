//! What nodes have come to.

ghost use Rattle.std.specs.Prelude.{◌≡◌, ℕ};
ghost use Rattle.change_spec.specs.Opening.{fold_of_node};
ghost use Rattle.node_turn_laws.specs.Reached.{IsReached};
ghost use Rattle.node_turn_laws.specs.World.{World, state_of};

use change_spec::a_moved_state_is_the_last_one;

/// In every world that is reached, what a node has come to is the fold of its own events, from its argument or from
/// what the node kept whose state it took over: the two readings of a node's state are one.
pub fn states_are_folds_of_own_events()
    ensures one { (w : World) → IsReached w → (n : ℕ) → state_of w n ≡ fold_of_node w.events n }
{
    a_moved_state_is_the_last_one();
}
