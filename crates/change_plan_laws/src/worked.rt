//! Worked changes: that the premises of the laws are met, and that less won't do.

ghost use Rattle.std.specs.Prelude.{◌≡◌, ◌<◌, ◌↔◌, ℕ, [], ◌∷◌, ◌++◌, codes, length, None, Some, false, IsTrue};
ghost use Rattle.change_plan.specs.Plans.{IsPlanOf};
ghost use Rattle.change_plan.specs.Touched.{IsTouched};
ghost use Rattle.passive_set.specs.DirectSet.{Direct};
ghost use Rattle.quiesce_word.specs.Phases.{is_idle};
ghost use Rattle.quiesce_core.specs.declared.event.Event.TheVariants.{Link, Make, Remove, Reopen, Unlink};
ghost use Rattle.quiesce_core.specs.Rules.{denial};
ghost use Rattle.quiesce_core.specs.Runs.{IsRun, state_after};
ghost use Rattle.quiesce_core.specs.State.{exchange, gate, owner};
ghost use Rattle.quiesce_laws.specs.Drained.{is_drained};
ghost use Rattle.quiesce_laws.specs.Starts.{start_of};
ghost use Rattle.quiesce_laws.specs.Fitting.{IsPart};
ghost use Rattle.change_plan_laws.specs.Commit.{commit_events, commit_steps};
ghost use Rattle.change_plan_laws.specs.Committing.{MayCommit};
ghost use Rattle.change_plan_laws.specs.Rows.{a_goes_on, all_closed, another_map, adding, bank_closed, chain, crosswise, direct_closed, feeding, feeding_busy, first_accounts, line_closed, linking, n_to_t, next_accounts, replacing};
ghost use Rattle.change_plan_laws.specs.Systems.{account_at, bank, line, map_m, sink_u};

/// A change that may commit: a node is removed, one of its kind is made and takes its state over, and a port is
/// unlinked and linked to it. What stands before is no part of the new graph.
pub fn a_change_may_commit()
    ensures may { MayCommit (bank 3 100) (bank 3 7) (a_goes_on ∷ []) replacing bank_closed }
    ensures no_part { ¬ IsPart (state_after bank_closed).config (bank 3 7) }
    ensures events { commit_events (bank 3 100) (bank 3 7) replacing (state_after bank_closed).config
        ≡ Unlink 0 ∷ Remove 0 ∷ Make 4 (account_at (codes "a") 7) (Some 0) ∷ Link 0 4 0 ∷ Reopen 0 ∷ Reopen 1 ∷ Reopen 2 ∷ [] }
{}

/// A change may commit while nodes that it doesn't freeze work: a node is added, and the port of a source is open and
/// has a transaction under way.
pub fn others_may_work_meanwhile()
    ensures may { MayCommit (feeding []) (feeding (sink_u ∷ [])) [] adding feeding_busy }
    ensures is_open { (gate (state_after feeding_busy).config 0).closed ≡ false }
    ensures is_busy { is_idle (exchange (state_after feeding_busy) 0).phase ≡ false }
{}

/// The commit of another change, whose new node has a port: a map between a source and a sink is replaced.
pub fn a_worked_commit()
    ensures plan { IsPlanOf (line 10) (line 20) [] another_map }
    ensures events { commit_events (line 10) (line 20) another_map (state_after line_closed).config
        ≡ Unlink 0 ∷ Unlink 1 ∷ Remove 0 ∷ Make 3 (map_m 20) None ∷ Link 1 3 0 ∷ Link 2 2 0 ∷ Reopen 1 ∷ Reopen 2 ∷ [] }
{}

/// The events of a commit with two moves between different paths: each node that is made names the slot from which its
/// state comes. The machine allows them.
pub fn a_worked_handover()
    ensures events { commit_events first_accounts next_accounts crosswise (state_after (start_of first_accounts)).config
        ≡ Remove 0 ∷ Remove 1 ∷ Make 2 (account_at (codes "c") 3) (Some 1)
        ∷ Make 3 (account_at (codes "d") 4) (Some 0) ∷ [] }
    ensures runs { IsRun (start_of first_accounts
        ++ commit_events first_accounts next_accounts crosswise (state_after (start_of first_accounts)).config) }
{}

/// Freezing less isn't enough: where only the gates of the direct set are closed, and their ports drained, the
/// commit's link is denied, since a source further up may still begin a transaction that comes to the node. With its
/// gate closed too, as the plan says, the link is allowed. Each node's slot is its place in the graph here.
pub fn freezing_less_is_denied()
    ensures plan { IsPlanOf (chain []) (chain (n_to_t ∷ [])) [] linking }
    ensures steps { commit_steps (chain []) (chain (n_to_t ∷ [])) linking (state_after direct_closed).config
        ≡ Link 1 3 0 ∷ [] }
    ensures runs { IsRun direct_closed }
    ensures direct { (p : ℕ) → p < length (state_after direct_closed).config.gates
        → Direct (chain []) (IsTouched (chain []) (chain (n_to_t ∷ []))) (owner (state_after direct_closed).config p)
        ↔ IsTrue (is_drained (state_after direct_closed) p) }
    ensures denied { denial (state_after direct_closed) (Link 1 3 0) ≡ Some 22 }
    ensures allowed { denial (state_after all_closed) (Link 1 3 0) ≡ None }
{}
