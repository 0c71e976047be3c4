//! A world at rest stays as it is.

ghost use Rattle.std.specs.Prelude.{◌≡◌, Bool, false, IsTrue};
ghost use Rattle.node_turn_laws.specs.Reached.{IsReached};
ghost use Rattle.node_turn_laws.specs.Round.{is_at_rest, round};
ghost use Rattle.node_turn_laws.specs.World.{World};

/// In every world that is reached, where each live node is done and no transaction is left, a round moves nothing and
/// leaves all as it is, the hints too.
pub fn worlds_at_rest_stay()
    ensures stays { (w : World) (allowed : Bool) → IsReached w → IsTrue (is_at_rest w)
        → round allowed w ≡ record { world = w; moved = false } }
{}
