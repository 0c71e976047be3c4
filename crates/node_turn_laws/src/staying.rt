//! Rounds behind one that moved nothing.

ghost use Rattle.std.specs.Prelude.{◌≡◌, ℕ, Bool, false};
ghost use Rattle.node_turn_laws.specs.Reached.{IsReached};
ghost use Rattle.node_turn_laws.specs.Round.{after_rounds, round};
ghost use Rattle.node_turn_laws.specs.World.{World};
ghost use Rattle.node_turn_laws.specs.Posted.{ArePosted};

use crate::moving::rounds_move_what_is_open;

/// In every world that is reached, and in which no hint waits for a node whose inbox is empty: where a round moves
/// nothing, no round behind it moves either, and each leaves all as it is, the hints too.
pub fn still_rounds_stay()
    ensures stays { (w : World) (allowed : Bool) → IsReached w → ArePosted w → (round allowed w).moved ≡ false
        → (j : ℕ) → round allowed (after_rounds allowed w j) ≡ record { world = w; moved = false } }
{
    rounds_move_what_is_open();
}
