//! Laws of turns and rounds.

ghost use Rattle.std.specs.Prelude.{◌≡◌, ℕ, Bool, true, false, [], ◌∷◌, drop};
ghost use Rattle.quiesce_core.specs.Runs.{done_by};
ghost use Rattle.quiesce_core.specs.declared.event.Event.TheVariants.{Begin, Call, Take, Give, End, More, Ask, Hear};
ghost use Rattle.node_turn_laws.specs.Round.{after_rounds, is_at_rest, round, stands_still};
ghost use Rattle.node_turn_laws.specs.Hints.{after_move, without_hints};
ghost use Rattle.node_turn_laws.specs.Turn.{turn};
ghost use Rattle.node_turn_laws.specs.World.{World};
ghost use Rattle.node_turn_laws.specs.Rows.{line, sums};

/// A source of three items leads through a map that adds ten to a sink: each item takes six rounds, and all is at
/// rest after the last of them.
pub fn a_line_comes_to_rest()
    ensures not_before { is_at_rest (after_rounds true line 17) ≡ false }
    ensures at_rest { is_at_rest (after_rounds true line 18) ≡ true }
    ensures still { stands_still true line 19 ≡ true }
    ensures map { done_by 0 (after_rounds true line 18).events
        ≡ Take 1 1 1 ∷ Call 0 1 11 ∷ End 0 1 1 ∷ Give 1 1 1 ∷ Take 1 2 2 ∷ Call 0 2 12 ∷ End 0 2 1 ∷ Give 1 2 1
        ∷ Take 1 3 3 ∷ Call 0 3 13 ∷ End 0 3 1 ∷ Give 1 3 1 ∷ [] }
    ensures source { done_by 1 (after_rounds true line 18).events
        ≡ Begin 1 1 1 ∷ End 1 1 1 ∷ Begin 1 2 2 ∷ End 1 2 1 ∷ Begin 1 3 3 ∷ End 1 3 1 ∷ [] }
    ensures sink { done_by 2 (after_rounds true line 18).events
        ≡ Take 0 1 11 ∷ Give 0 1 1 ∷ Take 0 2 12 ∷ Give 0 2 1 ∷ Take 0 3 13 ∷ Give 0 3 1 ∷ [] }
{}

/// A sum takes an intermediate reply, which the asker answers with a further message.
pub fn sums_take_a_further_message()
    ensures events { drop 4 (after_rounds true sums 6).events
        ≡ Begin 0 1 1 ∷ Take 0 1 1 ∷ More 0 1 1 ∷ Ask 0 1 1 ∷ Hear 0 1 1 ∷ Give 0 1 2 ∷ End 0 1 2 ∷ Begin 0 2 2 ∷ [] }
{}

/// A turn makes one event at most, and posting a hint is none.
pub fn a_turn_is_one_event_at_most()
    ensures turn { (w : World) (n : ℕ) (allowed : Bool)
        → without_hints (turn w n allowed).world ≡ without_hints (after_move w n (turn w n allowed).event) }
{}

/// A round in which no node moves leaves the machine and all that nodes have come to as they were.
pub fn a_round_without_a_move_changes_nothing()
    ensures stands { (w : World) (allowed : Bool) → (round allowed w).moved ≡ false
        → without_hints (round allowed w).world ≡ without_hints w }
{}
