//! Laws of transcripts.

ghost use Rattle.std.specs.Prelude.{◌≡◌, ◌+◌, ℕ, true, false, List, [], ◌∷◌, ◌++◌, IsTrue, ◌≤◌, length};
ghost use Rattle.change_plan.specs.Plans.{IsPlanOf};
ghost use Rattle.change_plan.specs.declared.plan_data.Move.{Move};
ghost use Rattle.change_plan.specs.declared.plan_data.Plan.{Plan};
ghost use Rattle.quiesce_laws.specs.Lists.{In};
ghost use Rattle.quiesce_laws.specs.Steps.{change_all};
ghost use Rattle.config_graph.specs.Graph.{Graph, IsGraph, ports};
ghost use Rattle.config_graph.specs.Sound.{Sound};
ghost use Rattle.config_graph.specs.declared.TheConstants.{MAX_NODES, MAX_PORTS};
ghost use Rattle.quiesce_laws.specs.Starts.{start_of};
ghost use Rattle.change_plan_laws.specs.Commit.{commit_events, ports_to_close};
ghost use Rattle.quiesce_core.specs.Live.{IsGraphOf};
ghost use Rattle.quiesce_core.specs.State.{Configuration, gate};
ghost use Rattle.quiesce_word.specs.Words.{has_root, unpack};
ghost use Rattle.txn_records.specs.Entries.{config_of};
ghost use Rattle.txn_records.specs.declared.entry.Entry.{Entry};
ghost use Rattle.txn_records.specs.declared.entry.Entry.TheVariants.{Looked};
ghost use Rattle.txn_records.specs.Looks.{is_drained_word};
ghost use Rattle.change_board.specs.Scans.{Found};
ghost use Rattle.txn_records.specs.Notes.{is_noted};
ghost use Rattle.txn_records.specs.Records.{IsRecord};
ghost use Rattle.change_board.specs.Steps.{HasRoomForAll, MayDoAll, Room};
ghost use Rattle.change_engine.specs.Engines.{IsPlanned};
ghost use Rattle.change_board.specs.Transcripts.{entries};
ghost use Rattle.change_engine.specs.Planning.{MayCarryOut};
ghost use Rattle.change_engine.specs.Passivating.{AreLivePorts, IsPassivation, Passivation, WaitingRound, left_after, passivation_items};

use change_plan_laws::{commits_can_not_fail, commits_leave_the_new_graph};
use quiesce_laws::starts_can_not_fail;

/// Where a passivation leaves no root, the record notes each port that it closed. So what is linked, unlinked or
/// removed next may rest on these ports.
pub fn passivated_ports_are_noted()
    ensures { (r : List Entry) (ports : List ℕ) (rounds p : ℕ) (how : Passivation) → IsPassivation ports rounds how
        → left_after how.first how.rounds ≡ [] → In ports p
        → IsTrue (is_noted (r ++ entries (passivation_items ports how)) p) }
{}

/// A look at a port that is closed loads a word with a root, where it doesn't show the port drained; so do a
/// passivation's looks. So what is left of a passivation are roots, of the serials that its last looks loaded.
pub fn looks_behind_closes_find_roots()
    ensures closed { (before after : List Entry) (p w : ℕ) → IsRecord (before ++ Looked p w ∷ after)
        → (gate (config_of before) p).closed ≡ true → is_drained_word w ≡ false → IsTrue (has_root (unpack w)) }
    ensures first { (r : List Entry) (ports : List ℕ) (within : ℕ) (how : Passivation) (f : Found)
        → IsRecord (r ++ entries (passivation_items ports how)) → AreLivePorts (config_of r) ports
        → IsPassivation ports within how → In how.first f → is_drained_word f.word ≡ false
        → IsTrue (has_root (unpack f.word)) }
    ensures rounds { (r : List Entry) (ports : List ℕ) (within : ℕ) (how : Passivation) (w : WaitingRound) (f : Found)
        → IsRecord (r ++ entries (passivation_items ports how)) → AreLivePorts (config_of r) ports
        → IsPassivation ports within how → In how.rounds w → In w.found f → is_drained_word f.word ≡ false
        → IsTrue (has_root (unpack f.word)) }
{}

/// Each event of a sound graph's start may be done, after those before it, on a board for which nothing is recorded.
pub fn starts_may_be_done()
    ensures { (g : Graph) → Sound g → length g.nodes ≤ MAX_NODES → length (ports g.nodes) ≤ MAX_PORTS
        → MayDoAll [] (start_of g) }
{
    starts_can_not_fail();
}

/// Each event of a plan's commit may be done on a board after those before it, where the record notes the ports of
/// all nodes that the plan freezes: so on every board with the room that was reserved a commit can't fail. After it
/// the graph is the new one.
pub fn plans_may_be_carried_out()
    ensures may { (old new : Graph) (moves : List Move) (plan : Plan) (r : List Entry) → IsRecord r
        → MayCarryOut old new moves plan r → MayDoAll r (commit_events old new plan (config_of r)) }
    ensures graph { (old new : Graph) (moves : List Move) (plan : Plan) (r : List Entry) → IsRecord r
        → MayCarryOut old new moves plan r
        → IsGraphOf (change_all (config_of r) (commit_events old new plan (config_of r))) new }
{
    commits_can_not_fail();
    commits_leave_the_new_graph();
}

/// A board that has room for all nodes that a plan creates, each of which may take over the state of one made before,
/// has room for the plan's commit; and a plan creates no more than a run may make.
pub fn commits_have_room()
    ensures room { (old new : Graph) (plan : Plan) (c : Configuration) (room : Room) → length plan.create ≤ room.nodes
        → length c.slots ≤ room.sources → HasRoomForAll room (commit_events old new plan c) }
    ensures few { (old new : Graph) (moves : List Move) (plan : Plan) (c : Configuration)
        → IsPlanned old new moves plan c → length c.slots + length plan.create ≤ MAX_NODES }
{}
