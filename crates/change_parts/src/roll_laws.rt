//! What the rounds make of a roll is determined, and a change in parts is one.

ghost use Rattle.std.specs.Prelude.{◌≡◌, ◌≤◌, ℕ, ℤ, List, None, Option, take};
ghost use Rattle.base.specs.Each.{Each};
ghost use Rattle.config_graph.specs.Graph.{Graph, IsGraph};
ghost use Rattle.config_graph.specs.Sound.{Sound};
ghost use Rattle.change_spec.specs.Serial.{world_after};
ghost use Rattle.change_spec.specs.Statements.{Statement};
ghost use Rattle.change_parts.specs.Parts.{AreParts};
ghost use Rattle.change_parts.specs.declared.part.Part.{Part};
ghost use Rattle.change_plan.specs.Refusals.{CanPlan};
ghost use Rattle.change_plan.specs.Room.{HasRoomFor};
ghost use Rattle.change_plan.specs.declared.plan_data.Move.{Move};
ghost use Rattle.change_parts.specs.Rolls.{IsRoll, roll_statements};
ghost use Rattle.change_round_laws.specs.SoundStatements.{AreSound, made_of_graph};
ghost use Rattle.change_spec.specs.Scripts.{nothing_made};
ghost use Rattle.change_round_laws.specs.Waits.{DrainsInTime};
ghost use Rattle.quiesce_core.specs.Rest.{rest};

use crate::{
    no_link_is_lost, parts_may_be_carried_out, stages_are_sound_and_lead_to_the_new_graph,
};
use change_round_laws::{
    a_sound_script_has_a_report, changes_drain_within_what_is_left, changes_in_a_row_drain_together,
};

/// A law: what the rounds of these statements make is determined. They come to an end at one part, or at none.
pub fn there_is_one_roll()
    ensures { (statements : List Statement) (a b : Option ℕ) → IsRoll statements a → IsRoll statements b → a ≡ b }
{}

/// A law: where a system may be started, and there is a plan and room for the change, its parts behind the start and a
/// run are a roll.
pub fn there_is_a_roll()
    ensures { (name : List ℕ) (args : List ℤ) (old : Graph) (k : ℕ) (new_name : List ℕ) (new_args : List ℤ) (within : ℕ)
        (new : Graph) (moves : List Move) (ps : List Part) → Sound old → HasRoomFor nothing_made old → IsGraph new
        → Sound new → CanPlan old new moves (made_of_graph old) → AreParts old new moves ps
        → (given_up : Option ℕ) × IsRoll (roll_statements name args old k new_name new_args within ps) given_up }
{
    a_sound_script_has_a_report();
    no_link_is_lost();
    stages_are_sound_and_lead_to_the_new_graph();
    parts_may_be_carried_out();
}

/// A law: its statements are sound. A part that may wait for at least as many rounds as are events left when its gates are
/// closed is carried out; and where no more are left behind the run than a part may wait for rounds, all parts are.
pub fn a_roll_drains_within_what_is_left()
    ensures sound { (name : List ℕ) (args : List ℤ) (old : Graph) (k : ℕ) (new_name : List ℕ) (new_args : List ℤ) (within : ℕ)
        (new : Graph) (moves : List Move) (ps : List Part) → Sound old → HasRoomFor nothing_made old → IsGraph new
        → Sound new → CanPlan old new moves (made_of_graph old) → AreParts old new moves ps
        → AreSound (roll_statements name args old k new_name new_args within ps) }
    ensures each { (statements : List Statement) (given_up : Option ℕ) → AreSound statements
        → (roll : IsRoll statements given_up) → Each DrainsInTime roll.played }
    ensures all { (name : List ℕ) (args : List ℤ) (old : Graph) (k : ℕ) (new_name : List ℕ) (new_args : List ℤ) (within : ℕ)
        (ps : List Part) (given_up : Option ℕ) → AreSound (roll_statements name args old k new_name new_args within ps)
        → (roll : IsRoll (roll_statements name args old k new_name new_args within ps) given_up)
        → rest (world_after (take 2 roll.played)).machine ≤ within → given_up ≡ None }
{
    a_sound_script_has_a_report();
    changes_drain_within_what_is_left();
    changes_in_a_row_drain_together();
    no_link_is_lost();
    stages_are_sound_and_lead_to_the_new_graph();
    parts_may_be_carried_out();
}
