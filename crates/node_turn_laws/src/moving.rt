//! Rounds move while a transaction is open.

ghost use Rattle.std.specs.Prelude.{◌≡◌, ℕ, Bool, true, false};
ghost use Rattle.quiesce_word.specs.Phases.{is_idle};
ghost use Rattle.quiesce_core.specs.Doers.{is_of_change};
ghost use Rattle.quiesce_core.specs.State.{exchange};
ghost use Rattle.quiesce_core.specs.declared.event.Event.{Event};
ghost use Rattle.node_turn_laws.specs.Reached.{IsReached};
ghost use Rattle.node_turn_laws.specs.Round.{round};
ghost use Rattle.node_turn_laws.specs.World.{World, with_event};
ghost use Rattle.node_turn_laws.specs.Posted.{ArePosted};

use component_trait::who_wants_asks_nothing;
use quiesce_laws::some_event_is_possible;

/// In every world that is reached, and in which no hint waits for a node whose inbox is empty, a round moves while a
/// transaction is open, whether nodes may begin transactions or not.
pub fn rounds_move_what_is_open()
    ensures idle { (w : World) (allowed : Bool) → IsReached w → ArePosted w → (round allowed w).moved ≡ false
        → (p : ℕ) → is_idle (exchange w.machine p).phase ≡ true }
{
    some_event_is_possible();
    who_wants_asks_nothing();
}

/// So it is in every world behind a round, and events of the change keep it so: of worlds that rounds and changes
/// reach, none has a hint that waits for a node whose inbox is empty.
pub fn hints_are_posted_in_rounds()
    ensures round { (w : World) (allowed : Bool) → IsReached w → ArePosted (round allowed w).world }
    ensures change { (w : World) (e : Event) → is_of_change e ≡ true → ArePosted w → ArePosted (with_event w e) }
{}
