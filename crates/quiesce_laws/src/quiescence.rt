//! A settled node is quiescent, and stays settled until a gate is opened, a link is made or it is removed.

ghost use Rattle.std.specs.Prelude.{◌≡◌, ◌↔◌, ℕ, false, List, ◌∷◌, ◌++◌};
ghost use Rattle.std.specs.List.{list_any};
ghost use Rattle.quiesce_core.specs.declared.event.Event.{Event};
ghost use Rattle.quiesce_core.specs.declared.event.Event.TheVariants.{Link, Unlink, Remove};
ghost use Rattle.quiesce_core.specs.Runs.{IsRun, state_after};
ghost use Rattle.quiesce_core.specs.State.{owner};
ghost use Rattle.quiesce_core.specs.Settled.{Settled, Quiescent, Continues};
ghost use Rattle.quiesce_laws.specs.Continuing.{at_rest, may_come};
ghost use Rattle.quiesce_laws.specs.Events.{is_reopen_or_link, removes};
ghost use Rattle.quiesce_laws.specs.Weaker.{but_own_busy, but_own_open, but_reaching_busy, but_indirect_open, Initiates, Begins, Serves, BecomesTarget, IsTooWeak};

/// After every run, a settled node is quiescent by the four conditions of Kramer and Magee (1990): none of its own
/// transactions is open, it begins none however the run goes on, it services none, and none that is open or comes later
/// has it as its target.
pub fn settled_nodes_are_quiescent()
    ensures { (es : List Event) (n : ℕ) → IsRun es → Settled (state_after es) n → Quiescent es n }
{}

/// However a run goes on without a gate opened or a link made, a settled node is settled still, exactly until it is
/// removed. Nodes may be made meanwhile: a port of a new node is closed and leads nowhere. Where none is made either,
/// the run goes on as the conditions of quiescence have it.
pub fn settled_nodes_stay_settled()
    ensures though_nodes_are_made { (es more_ : List Event) (n : ℕ) → Settled (state_after es) n
        → IsRun (es ++ more_) → list_any is_reopen_or_link more_ ≡ false
        → Settled (state_after (es ++ more_)) n ↔ (list_any (removes n) more_ ≡ false) }
    ensures where_none_is_made { (es more_ : List Event) (n : ℕ) → Settled (state_after es) n → Continues es more_
        → Settled (state_after (es ++ more_)) n ↔ (list_any (removes n) more_ ≡ false) }
{}

/// At each link and unlink of a run the port's owner is quiescent, and at each removal the node is.
pub fn changes_find_nodes_quiescent()
    ensures linked { (before after : List Event) (p n x : ℕ) → IsRun (before ++ Link p n x ∷ after)
        → Quiescent before (owner (state_after before).config p) }
    ensures unlinked { (before after : List Event) (p : ℕ) → IsRun (before ++ Unlink p ∷ after)
        → Quiescent before (owner (state_after before).config p) }
    ensures removed { (before after : List Event) (n : ℕ) → IsRun (before ++ Remove n ∷ after) → Quiescent before n }
{}

/// For each of the four conditions there are a run and a node that breaks it though it passes a test that is weaker
/// than being settled: where its own ports may be busy; where they may be open; where ports that reach it may be busy,
/// so that it services one; where ports that reach it over another node may be open. The last is why the passive set is
/// enlarged by the owners of such ports. And there is a settled node after whose run events come of each kind that may
/// come.
pub fn less_than_settled_is_too_weak()
    ensures none_quiescent { (es : List Event) (n : ℕ) → Quiescent es n → (Initiates es n → ⊥) × (Begins es n
        → ⊥) × (Serves es n → ⊥) × (BecomesTarget es n → ⊥) }

    ensures own_ports_idle { IsTooWeak but_own_busy Initiates }
    ensures own_ports_closed { IsTooWeak but_own_open Begins }
    ensures reaching_ports_idle { IsTooWeak but_reaching_busy Serves }
    ensures indirect_ports_closed { IsTooWeak but_indirect_open BecomesTarget }

    ensures goes_on { Settled (state_after at_rest) 5 × Continues at_rest may_come }
{}
