//! Laws of runs with changes, for nodes of all kinds.

ghost use Rattle.std.specs.Prelude.{◌≡◌, ℕ, List, ◌∷◌, ◌++◌, Some, [], false, true};
ghost use Rattle.change_spec.specs.Follows.{Follows};
ghost use Rattle.change_spec.specs.Lawful.{Merge};
ghost use Rattle.change_spec.specs.Members.{Member, events, of_history};
ghost use Rattle.change_spec.specs.Opening.{fold_at, fold_of_node};
ghost use Rattle.change_spec.specs.Statements.{Statement};
ghost use Rattle.change_round_laws.specs.SoundStatements.{AreSound};
ghost use Rattle.component_trait.specs.Fold.{after_event};
ghost use Rattle.component_trait.specs.States.{Kept, NodeState};
ghost use Rattle.node_turn_laws.specs.Agreement.{Agrees};
ghost use Rattle.quiesce_core.specs.Doers.{is_of_change};
ghost use Rattle.quiesce_core.specs.Knowledge.{own_port_after, served_after};
ghost use Rattle.quiesce_core.specs.Runs.{IsRun, done_by, is_doer, state_after};
ghost use Rattle.quiesce_core.specs.State.{slot};
ghost use Rattle.quiesce_core.specs.declared.event.Event.{Event};
ghost use Rattle.quiesce_core.specs.declared.state.Slot.{Slot};
ghost use Rattle.report_types.specs.declared.report.HistoryLine.TheVariants.{Reopen};
ghost use Rattle.report_types.specs.declared.report.Report.{Report};
ghost use Rattle.result_laws.specs.Coming.{HasFolds};
ghost use Rattle.result_laws.specs.Describing.{StandsAsDescribed};

use change_plan_laws::{commits_can_not_fail, commits_leave_the_new_graph, each_plan_may_commit};
use change_spec::a_moved_state_is_the_last_one;

/// In a run, what a node has come to agrees with what its own events tell it of the machine, whatever it opened with:
/// with the service that it is in, and with how far its ports have come.
pub fn nodes_agree_with_their_folds()
    ensures agree { (es : List Event) → IsRun es → (n : ℕ) (m : Slot) → slot (state_after es).config n ≡ Some m
        → (kept : Kept) (s : NodeState) → fold_at m (done_by n es) kept ≡ Some s
        → Agrees m.first_port s (served_after (done_by n es)) (λ p. own_port_after p (done_by n es)) }
{}

/// Where each node made has a fold, an event of a node leads on its own fold, by what its kind does, and no other:
/// through any chain of nodes that took over from one another.
pub fn folds_go_on_by_events_of_their_nodes()
    ensures own { (es : List Event) (e : Event) → IsRun (es ++ e ∷ []) → HasFolds (es ++ e ∷ [])
        → is_of_change e ≡ false → (n : ℕ) (m : Slot) → slot (state_after es).config n ≡ Some m
        → is_doer (state_after es) n e ≡ true
        → (s t : NodeState) → fold_of_node es n ≡ Some s → fold_of_node (es ++ e ∷ []) n ≡ Some t
        → after_event m.first_port s e ≡ Some t }
    ensures others { (es : List Event) (e : Event) → IsRun (es ++ e ∷ []) → HasFolds (es ++ e ∷ [])
        → is_of_change e ≡ false → (n : ℕ) → is_doer (state_after es) n e ≡ false
        → (s t : NodeState) → fold_of_node es n ≡ Some s → fold_of_node (es ++ e ∷ []) n ≡ Some t → t ≡ s }
{
    a_moved_state_is_the_last_one();
}

/// Where a port is reopened, the live nodes and their links are a graph that a statement describes: a commit links all
/// before it reopens, and a change that is given up has changed nothing.
pub fn reopens_find_a_described_graph()
    ensures described { (statements : List Statement) (report : Report) (m : List Member) → AreSound statements
        → Follows statements report.history → Merge m report → IsRun (events m)
        → (before after : List Member) (p : ℕ) → m ≡ before ++ of_history (Reopen p) ∷ after
        → StandsAsDescribed statements before }
{
    each_plan_may_commit();
    commits_can_not_fail();
    commits_leave_the_new_graph();
}
