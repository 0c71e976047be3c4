//! What a roll keeps, and that it does no worse than the change at once.

ghost use Rattle.std.specs.Prelude.{◌≡◌, ◌≤◌, ℕ, ℤ, List, [], ◌∷◌, None, Option, Some, codes, pos, take};
ghost use Rattle.config_graph.specs.Graph.{Graph, IsGraph};
ghost use Rattle.config_graph.specs.Sound.{Sound};
ghost use Rattle.change_plan.specs.Refusals.{CanPlan};
ghost use Rattle.change_plan.specs.Room.{HasRoomFor};
ghost use Rattle.change_plan.specs.declared.plan_data.Move.{Move};
ghost use Rattle.change_spec.specs.Scripts.{nothing_made};
ghost use Rattle.change_spec.specs.Serial.{world_after};
ghost use Rattle.change_spec.specs.Statements.{Statement};
ghost use Rattle.change_round_laws.specs.SoundStatements.{AreSound, made_of_graph};
ghost use Rattle.quiesce_core.specs.Rest.{rest};
ghost use Rattle.quiesce_core.specs.Runs.{state_after};
ghost use Rattle.change_parts.specs.Parts.{AreParts};
ghost use Rattle.change_parts.specs.Rolls.{IsRoll, roll_statements};
ghost use Rattle.change_parts.specs.declared.part.Part.{Part};
ghost use Rattle.result_laws.specs.Banks.{AreBanks, IsBank};
ghost use Rattle.result_laws.specs.Carrying.{AmountsBalance};
ghost use Rattle.result_laws.specs.Describing.{LinksAre};
ghost use Rattle.result_laws.specs.Flows.{AreApart, one, same_side};
ghost use Rattle.result_laws.specs.Holding.{AreFree, AreHeldOnce, AreLent, AreTables, NoneSpent, NothingIsOpenAt, forks_serve_places};
ghost use Rattle.result_laws.specs.Rolling.{ItemsBalance, WaitTogether, at_once};
ghost use Rattle.result_laws.specs.UnderWay.{of_nodes, spent, stock, under_way};
ghost use Rattle.result_laws.specs.WorkedRolls.{as_a_whole, forked, in_parts};

use crate::{forks_are_held_once, items_are_kept_at_each_place, sums_are_kept_at_each_place};
use change_parts::{no_link_is_lost, there_is_one_roll};
use change_plan_laws::{commits_can_not_fail, commits_leave_the_new_graph, each_plan_may_commit};
use change_round_laws::{
    a_sound_script_has_a_report, changes_in_a_row_drain_together, reports_of_rounds_are_lawful,
};

/// Where a roll ends, given up or not, no item is lost: buffers and sinks hold what sources have sent by then, with what is
/// under way. Its stages link kinds as the two graphs do between which it leads.
pub fn rolls_keep_items()
    ensures items { (statements : List Statement) (given_up : Option ℕ) → AreSound statements → AreApart statements
        → (roll : IsRoll statements given_up) → ItemsBalance (world_after roll.played).events }
    ensures stages { (name : List ℕ) (args : List ℤ) (old : Graph) (k : ℕ) (new_name : List ℕ) (new_args : List ℤ) (within : ℕ)
        (new : Graph) (moves : List Move) (ps : List Part) → IsGraph old → IsGraph new → AreParts old new moves ps
        → AreSound (roll_statements name args old k new_name new_args within ps)
        → LinksAre same_side old → LinksAre same_side new
        → AreApart (roll_statements name args old k new_name new_args within ps) }
{
    a_sound_script_has_a_report();
    reports_of_rounds_are_lawful();
    items_are_kept_at_each_place();
    no_link_is_lost();
}

/// Where a roll ends, given up or not, no fork is held by two places. Where no port has come to its last serial, each that
/// isn't free is lent: the owner of a port that leads there has it, or is granted it. So where nothing is open, each is free.
/// In the stages too places alone lead to forks, where that is so in the two graphs.
pub fn rolls_keep_forks()
    ensures once { (statements : List Statement) (given_up : Option ℕ) → AreSound statements → AreTables statements
        → (roll : IsRoll statements given_up) → AreHeldOnce (world_after roll.played).events }
    ensures lent { (statements : List Statement) (given_up : Option ℕ) → AreSound statements → AreTables statements
        → (roll : IsRoll statements given_up) → NoneSpent (state_after (world_after roll.played).events)
        → AreLent (world_after roll.played).events }
    ensures free { (statements : List Statement) (given_up : Option ℕ) → AreSound statements → AreTables statements
        → (roll : IsRoll statements given_up) → NoneSpent (state_after (world_after roll.played).events)
        → NothingIsOpenAt (world_after roll.played).events → AreFree (world_after roll.played).events }
    ensures stages { (name : List ℕ) (args : List ℤ) (old : Graph) (k : ℕ) (new_name : List ℕ) (new_args : List ℤ) (within : ℕ)
        (new : Graph) (moves : List Move) (ps : List Part) → IsGraph old → IsGraph new → AreParts old new moves ps
        → AreSound (roll_statements name args old k new_name new_args within ps)
        → LinksAre forks_serve_places old → LinksAre forks_serve_places new
        → AreTables (roll_statements name args old k new_name new_args within ps) }
{
    a_sound_script_has_a_report();
    reports_of_rounds_are_lawful();
    forks_are_held_once();
    no_link_is_lost();
}

/// Where a roll between banks ends, given up or not, what accounts have, live or not, with what branches carry from one to
/// another, is what they were opened with by then. Each of its stages is a bank.
pub fn rolls_keep_sums()
    ensures sum { (statements : List Statement) (given_up : Option ℕ) → AreSound statements → AreBanks statements
        → (roll : IsRoll statements given_up) → AmountsBalance (world_after roll.played).events }
    ensures stages { (name : List ℕ) (args : List ℤ) (old : Graph) (k : ℕ) (new_name : List ℕ) (new_args : List ℤ) (within : ℕ)
        (new : Graph) (moves : List Move) (ps : List Part) → IsGraph old → IsGraph new → AreParts old new moves ps
        → AreSound (roll_statements name args old k new_name new_args within ps) → IsBank old → IsBank new
        → AreBanks (roll_statements name args old k new_name new_args within ps) }
{
    a_sound_script_has_a_report();
    reports_of_rounds_are_lawful();
    sums_are_kept_at_each_place();
    no_link_is_lost();
}

/// Where the change at once is committed within so many rounds, behind the same start and run, each part is committed
/// within as many: the roll gives none up. And all of them together wait for no more rounds. What a part waits for the whole waits for too, or an earlier part made it and
/// it never began anything; and the nodes that no part has touched go on in the same way.
pub fn rolls_commit_what_commits_at_once()
    ensures all { (name : List ℕ) (args : List ℤ) (old : Graph) (k : ℕ) (new_name : List ℕ) (new_args : List ℤ) (within : ℕ)
        (new : Graph) (moves : List Move) (ps : List Part) (given_up : Option ℕ) → IsGraph new → AreParts old new moves ps
        → AreSound (roll_statements name args old k new_name new_args within ps)
        → IsRoll (at_once name args old k new_name new_args within new moves) None
        → IsRoll (roll_statements name args old k new_name new_args within ps) given_up → given_up ≡ None }
    ensures together { (name : List ℕ) (args : List ℤ) (old : Graph) (k : ℕ) (new_name : List ℕ) (new_args : List ℤ) (within : ℕ)
        (new : Graph) (moves : List Move) (ps : List Part) (given_up : Option ℕ) → IsGraph new → AreParts old new moves ps
        → AreSound (roll_statements name args old k new_name new_args within ps)
        → IsRoll (at_once name args old k new_name new_args within new moves) None
        → (roll : IsRoll (roll_statements name args old k new_name new_args within ps) given_up)
        → WaitTogether within roll.played }
{
    each_plan_may_commit();
    commits_can_not_fail();
    commits_leave_the_new_graph();
}

/// Such a change is there behind each start and run, given up or not, and it is committed where no more events are left
/// behind the run than it may wait for rounds. So the premise above is met by each sound change that may wait for long.
pub fn changes_at_once_are_there()
    ensures sound { (name : List ℕ) (args : List ℤ) (old : Graph) (k : ℕ) (new_name : List ℕ) (new_args : List ℤ) (within : ℕ)
        (new : Graph) (moves : List Move) → Sound old → HasRoomFor nothing_made old → IsGraph new → Sound new
        → CanPlan old new moves (made_of_graph old)
        → AreSound (at_once name args old k new_name new_args within new moves) }
    ensures there { (name : List ℕ) (args : List ℤ) (old : Graph) (k : ℕ) (new_name : List ℕ) (new_args : List ℤ) (within : ℕ)
        (new : Graph) (moves : List Move) → AreSound (at_once name args old k new_name new_args within new moves)
        → (given_up : Option ℕ) × IsRoll (at_once name args old k new_name new_args within new moves) given_up }
    ensures committed { (name : List ℕ) (args : List ℤ) (old : Graph) (k : ℕ) (new_name : List ℕ) (new_args : List ℤ)
        (within : ℕ) (new : Graph) (moves : List Move) (given_up : Option ℕ)
        → AreSound (at_once name args old k new_name new_args within new moves)
        → (once : IsRoll (at_once name args old k new_name new_args within new moves) given_up)
        → rest (world_after (take 2 once.played)).machine ≤ within → given_up ≡ None }
{
    a_sound_script_has_a_report();
    changes_in_a_row_drain_together();
}

/// A small change, evaluated: a map is replaced, to which a source leads, and a buffer that stands aside. Behind a run of one
/// transaction it is committed at once where it may wait for three rounds, and not where it may wait for two. So it is
/// where it is made in two parts: the first is the one that waits, or is given up. Such rolls meet the premises of the laws
/// above. Where all is committed two items lie in the sink and were counted; where not, one of them isn't yet. And whatever
/// the parts of this change are, none of them is given up where each may wait for three rounds.
pub fn rolls_are_told_from_others()
    ensures sound { (within : ℕ) → AreSound (as_a_whole within) × AreSound (in_parts within) }
    ensures apart { (within : ℕ) → AreApart (in_parts within) }
    ensures whole { IsRoll (as_a_whole 3) None }
    ensures early { IsRoll (as_a_whole 2) None → ⊥ }
    ensures parts { (roll : IsRoll (in_parts 3) None) × (of_nodes (stock one) (world_after roll.played).events ≡ 2)
        × (of_nodes (spent one) (world_after roll.played).events ≡ 2)
        × (under_way one (world_after roll.played).events ≡ 0) }
    ensures given_up { (roll : IsRoll (in_parts 2) (Some 1))
        × (of_nodes (stock one) (world_after roll.played).events ≡ 2)
        × (of_nodes (spent one) (world_after roll.played).events ≡ 1)
        × (under_way one (world_after roll.played).events ≡ 1) }
    ensures none { (ps : List Part) (given_up : Option ℕ) → AreParts (forked 1 1) (forked 2 2) [] ps
        → AreSound (roll_statements (codes "Forked") (pos 1 ∷ pos 1 ∷ []) (forked 1 1) 1 (codes "Forked") (pos 2 ∷ pos 2 ∷ []) 3 ps)
        → IsRoll (roll_statements (codes "Forked") (pos 1 ∷ pos 1 ∷ []) (forked 1 1) 1 (codes "Forked") (pos 2 ∷ pos 2 ∷ []) 3 ps) given_up
        → given_up ≡ None }
{
    rolls_commit_what_commits_at_once();
    there_is_one_roll();
}
