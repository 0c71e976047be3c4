//! Links that a service may use form no cycle, in the plain sense of the word.

ghost use Rattle.std.specs.Prelude.{◌≡◌, ◌↔◌, ℕ, false, not, List, Some, None, IsTrue};
ghost use Rattle.quiesce_core.specs.declared.event.Event.{Event};
ghost use Rattle.quiesce_core.specs.declared.event.Event.TheVariants.{Link};
ghost use Rattle.quiesce_core.specs.Effect.{with_target};
ghost use Rattle.config_graph.specs.Walks.{Ranks};
ghost use Rattle.config_graph.specs.Wiring.{CallPath, HasNoCycle, MayCall};
ghost use Rattle.quiesce_core.specs.Reach.{has_no_cycle, wiring_of};
ghost use Rattle.quiesce_core.specs.Rules.{denial, is_live_port, is_linked, has_provision, is_settled};
ghost use Rattle.quiesce_core.specs.Runs.{IsRun, state_after};
ghost use Rattle.quiesce_core.specs.State.{Configuration, State, owner};

/// The test for cycles finds one exactly where there are nodes of which each leads to the next, and the last to the
/// first: that is where nodes can't be ranked so that the rank falls along each link that a service may use.
pub fn cycles_are_closed_walks()
    ensures found { (c : Configuration) → (has_no_cycle c ≡ false) ↔ ((n : ℕ) × CallPath (wiring_of c) n n) }
    ensures ranked { (c : Configuration) → HasNoCycle (wiring_of c) ↔ Ranks (MayCall (wiring_of c)) }
{}

/// A link that is denied by the rule against cycles would lead a node back to itself, and one that may be made leads
/// none back. Where each rule before it holds, a link is denied by it exactly where it would.
pub fn links_that_close_walks_are_denied()
    ensures denied { (s : State) (p n x : ℕ) → denial s (Link p n x) ≡ Some 23
        → (i : ℕ) × CallPath (wiring_of (with_target s.config p (Some (record { node = n; provide = x })))) i i }
    ensures allowed { (s : State) (p n x : ℕ) → denial s (Link p n x) ≡ None
        → HasNoCycle (wiring_of (with_target s.config p (Some (record { node = n; provide = x })))) }
    ensures exactly { (s : State) (p n x : ℕ) → IsTrue (is_live_port s.config p)
        → IsTrue (not (is_linked s.config p)) → IsTrue (has_provision s.config n x)
        → IsTrue (is_settled s (owner s.config p)) →
        (denial s (Link p n x) ≡ Some 23) ↔ ((i : ℕ)
        × CallPath (wiring_of (with_target s.config p (Some (record { node = n; provide = x })))) i i) }
{}

/// After no run does a node lead back to itself.
pub fn runs_close_no_walk()
    ensures { (es : List Event) → IsRun es → HasNoCycle (wiring_of (state_after es).config) }
{}
