//! A plan's commit: what it does to a running system, once the gates that the plan freezes are closed and what was
//! open there has ended.

ghost use Rattle.std.specs.Prelude.{◌≡◌, ◌<◌, ◌↔◌, ◌⊎◌, ℕ, true, false, List, ◌∷◌, ◌++◌, filter, length, map, None, Some, Contains, IsTrue};
ghost use Rattle.std.specs.List.{list_all};
ghost use Rattle.change_plan.specs.Plans.{IsPlanOf};
ghost use Rattle.change_plan.specs.Refusals.{CanPlan};
ghost use Rattle.change_plan.specs.Touched.{IsTouched};
ghost use Rattle.change_plan.specs.declared.plan_data.Move.{Move};
ghost use Rattle.change_plan.specs.declared.plan_data.Plan.{Plan};
ghost use Rattle.config_graph.specs.Graph.{Graph, IsGraph};
ghost use Rattle.config_graph.specs.Sound.{Sound};
ghost use Rattle.quiesce_core.specs.declared.event.Event.{Event};
ghost use Rattle.quiesce_core.specs.declared.event.Event.TheVariants.{Close, Reopen};
ghost use Rattle.quiesce_core.specs.Doers.{is_of_change};
ghost use Rattle.quiesce_core.specs.Live.{IsGraphOf, StandsAt};
ghost use Rattle.quiesce_core.specs.Rules.{denial};
ghost use Rattle.quiesce_core.specs.Runs.{IsRun, state_after};
ghost use Rattle.quiesce_core.specs.Settled.{Quiescent, Settled};
ghost use Rattle.quiesce_core.specs.State.{Configuration, gate, is_live, owner, target};
ghost use Rattle.quiesce_laws.specs.Commits.{IsCommit};
ghost use Rattle.quiesce_laws.specs.Fitting.{IsPart};
ghost use Rattle.quiesce_laws.specs.Steps.{MayStepAll, change_all};
ghost use Rattle.quiesce_laws.specs.Work.{NewNode, work_of};
ghost use Rattle.change_plan_laws.specs.Commit.{commit_events, commit_steps, is_frozen_or_new, is_one_of, new_links, ports_to_close, ports_to_reopen, reopened_ports, work};
ghost use Rattle.change_plan_laws.specs.Committing.{IsTouchedSlot, MayCommit, TakesOver, made_in};

/// Each plan may be committed: where the system has its old graph, and no node did an event yet, so that nothing is
/// under way, it is enough that the gates of frozen nodes are closed.
pub fn each_plan_may_commit()
    ensures { (old new : Graph) (moves : List Move) (plan : Plan) (es : List Event) → IsGraph old → IsGraph new
        → Sound new → IsPlanOf old new moves plan → IsRun es → list_all is_of_change es ≡ true
        → IsGraphOf (state_after es).config old → CanPlan old new moves (made_in (state_after es).config)
        → MayCommit old new moves plan (es ++ map Close (ports_to_close old plan (state_after es).config)) }
{}

/// The gates of frozen nodes, and no others, may be closed one after the other, whatever nodes do in between.
pub fn what_is_frozen_may_be_closed()
    ensures allowed { (old : Graph) (plan : Plan) (es more_ left : List Event) (e : Event) → IsRun (es ++ more_)
        → filter is_of_change more_ ++ e ∷ left ≡ map Close (ports_to_close old plan (state_after es).config)
        → denial (state_after (es ++ more_)) e ≡ None }
    ensures all { (old : Graph) (plan : Plan) (c : Configuration) (p : ℕ) → p < length c.gates
        → is_one_of old plan.freeze c (owner c p) ≡ true → Contains (ports_to_close old plan c) p }
    ensures no_others { (old : Graph) (plan : Plan) (c : Configuration) (p : ℕ)
        → is_one_of old plan.freeze c (owner c p) ≡ false → ¬ Contains (ports_to_close old plan c) p }
{}

/// Each event of a plan's commit is allowed after those before it, whatever nodes do in between. For each but the
/// reopenings it is enough that the ports of frozen nodes were drained when the commit began: a node that is
/// unlinked, linked or removed has no other port, but new ones, and none other reaches it. So with nothing in between
/// the commit is the end of a run. Its lists are those of a commit; and a node takes a state over exactly where a move
/// says so.
pub fn commits_can_not_fail()
    ensures is_commit { (old new : Graph) (moves : List Move) (plan : Plan) (es : List Event)
        → MayCommit old new moves plan es
        → IsCommit (state_after es).config new (IsTouchedSlot old new (state_after es).config)
        (is_frozen_or_new old plan (state_after es).config) (work old new plan (state_after es).config)
        (new_links new plan (change_all (state_after es).config
        (work_of (work old new plan (state_after es).config)))) }
    ensures handed_over { (old new : Graph) (moves : List Move) (plan : Plan) (es : List Event) (m : NewNode) (k : ℕ)
        → MayCommit old new moves plan es → Contains (work old new plan (state_after es).config).makes m
        → (m.from ≡ Some k) ↔ TakesOver old new plan (state_after es).config m k }
    ensures by_the_configuration { (old new : Graph) (moves : List Move) (plan : Plan) (es : List Event)
        → MayCommit old new moves plan es
        → MayStepAll (is_frozen_or_new old plan (state_after es).config) (state_after es).config
        (commit_events old new plan (state_after es).config) }
    ensures allowed { (old new : Graph) (moves : List Move) (plan : Plan) (es more_ left : List Event) (e : Event)
        → MayCommit old new moves plan es → IsRun (es ++ more_)
        → filter is_of_change more_ ++ e ∷ left ≡ commit_events old new plan (state_after es).config
        → denial (state_after (es ++ more_)) e ≡ None }
    ensures runs { (old new : Graph) (moves : List Move) (plan : Plan) (es : List Event)
        → MayCommit old new moves plan es → IsRun (es ++ commit_events old new plan (state_after es).config) }
{}

/// After the last link the graph is the new one, and so it is at each place among the reopenings. At each place
/// before, it is a part of the old or of the new.
pub fn commits_leave_the_new_graph()
    ensures linked { (old new : Graph) (moves : List Move) (plan : Plan) (es more_ : List Event)
        → MayCommit old new moves plan es
        → filter is_of_change more_ ≡ commit_steps old new plan (state_after es).config
        → IsGraphOf (state_after (es ++ more_)).config new }
    ensures reopening { (old new : Graph) (moves : List Move) (plan : Plan) (es more_ done left : List Event)
        → MayCommit old new moves plan es
        → filter is_of_change more_ ≡ commit_steps old new plan (state_after es).config ++ done
        → done ++ left ≡ map Reopen (reopened_ports old new plan (state_after es).config)
        → IsGraphOf (state_after (es ++ more_)).config new }
    ensures between { (old new : Graph) (moves : List Move) (plan : Plan) (es more_ left : List Event)
        → MayCommit old new moves plan es
        → filter is_of_change more_ ++ left ≡ commit_steps old new plan (state_after es).config
        → IsPart (state_after (es ++ more_)).config old ⊎ IsPart (state_after (es ++ more_)).config new }
{}

/// Each touched node is settled and quiescent from when all ports of frozen nodes are drained, until the first
/// reopening or its own removal.
pub fn touched_nodes_are_quiescent()
    ensures settled { (old new : Graph) (moves : List Move) (plan : Plan) (es more_ left : List Event) (n i : ℕ)
        → MayCommit old new moves plan es → IsRun (es ++ more_)
        → filter is_of_change more_ ++ left ≡ commit_steps old new plan (state_after es).config
        → IsTouched old new i → StandsAt (state_after es).config old.nodes n i
        → IsTrue (is_live (state_after (es ++ more_)).config n) → Settled (state_after (es ++ more_)) n }
    ensures quiescent { (old new : Graph) (moves : List Move) (plan : Plan) (es more_ left : List Event) (n i : ℕ)
        → MayCommit old new moves plan es → IsRun (es ++ more_)
        → filter is_of_change more_ ++ left ≡ commit_steps old new plan (state_after es).config
        → IsTouched old new i → StandsAt (state_after es).config old.nodes n i
        → IsTrue (is_live (state_after (es ++ more_)).config n) → Quiescent (es ++ more_) n }
{}

/// A port of a node that isn't frozen is not reopened, and it keeps its target and its gate as it is throughout.
pub fn what_is_not_frozen_is_left()
    ensures unopened { (old : Graph) (plan : Plan) (before after : Configuration) (p : ℕ) → p < length before.gates
        → is_one_of old plan.freeze before (owner before p) ≡ false
        → ¬ Contains (ports_to_reopen old plan before after) p }
    ensures target { (old new : Graph) (moves : List Move) (plan : Plan) (es more_ left : List Event) (p : ℕ)
        → MayCommit old new moves plan es
        → p < length (state_after es).config.gates
        → is_one_of old plan.freeze (state_after es).config (owner (state_after es).config p) ≡ false
        → filter is_of_change more_ ++ left ≡ commit_events old new plan (state_after es).config
        → target (state_after (es ++ more_)).config p ≡ target (state_after es).config p }
    ensures gate { (old new : Graph) (moves : List Move) (plan : Plan) (es more_ left : List Event) (p : ℕ)
        → MayCommit old new moves plan es
        → p < length (state_after es).config.gates
        → is_one_of old plan.freeze (state_after es).config (owner (state_after es).config p) ≡ false
        → filter is_of_change more_ ++ left ≡ commit_events old new plan (state_after es).config
        → (gate (state_after (es ++ more_)).config p).closed ≡ (gate (state_after es).config p).closed }
{}

/// After the commit each gate of a live node is open that was open before the closes, or that is new.
pub fn gates_are_open_again()
    ensures { (old new : Graph) (moves : List Move) (plan : Plan) (before between more_ : List Event) (p : ℕ)
        → MayCommit old new moves plan (before ++ between)
        → filter is_of_change between ≡ map Close (ports_to_close old plan (state_after before).config)
        → filter is_of_change more_ ≡ commit_events old new plan (state_after (before ++ between)).config
        → p < length (state_after (before ++ between ++ more_)).config.gates
        → IsTrue (is_live (state_after (before ++ between ++ more_)).config
        (owner (state_after (before ++ between ++ more_)).config p))
        → (p < length (state_after before).config.gates → (gate (state_after before).config p).closed ≡ false)
        → (gate (state_after (before ++ between ++ more_)).config p).closed ≡ false }
{}
