//! Commits: what is unlinked, removed, made and linked, in this order, and which ports are reopened then.

ghost use Rattle.std.specs.Prelude.{◌≡◌, ◌∷◌, ◌++◌, ℕ, Bool, List, None, filter, map, Contains, IsTrue};
ghost use Rattle.config_graph.specs.Graph.{Graph};
ghost use Rattle.quiesce_core.specs.declared.event.Event.{Event};
ghost use Rattle.quiesce_core.specs.declared.event.Event.TheVariants.{Reopen};
ghost use Rattle.quiesce_core.specs.Doers.{is_of_change};
ghost use Rattle.quiesce_core.specs.Live.{IsGraphOf};
ghost use Rattle.quiesce_core.specs.Rules.{denial, is_live_port};
ghost use Rattle.quiesce_core.specs.Runs.{IsRun, state_after};
ghost use Rattle.quiesce_core.specs.Settled.{Settled};
ghost use Rattle.quiesce_core.specs.State.{is_live};
ghost use Rattle.quiesce_laws.specs.Drained.{is_drained};
ghost use Rattle.quiesce_laws.specs.Commits.{IsCommit};
ghost use Rattle.quiesce_laws.specs.Steps.{change_all};
ghost use Rattle.quiesce_laws.specs.Work.{NewLink, Work, events_of, steps_of};

/// Once the ports of all that a commit touches, and those that reach it, are drained, each event of the commit is
/// allowed after those before it, whatever nodes do in between. Until the first reopening each touched node is
/// settled, so long as it is live. From the last link on the graph is the new one.
pub fn commits_can_not_fail()
    ensures allowed { (es more_ left : List Event) (e : Event) (new : Graph) (touched noted : ℕ
        → Bool) (w : Work) (links : List NewLink) (ports : List ℕ)
        → IsRun (es ++ more_) → ((p : ℕ) → IsTrue (noted p) → IsTrue (is_drained (state_after es) p))
        → IsCommit (state_after es).config new (λ n. IsTrue (touched n)) noted w links
        → ((p : ℕ) → Contains ports p → IsTrue (is_live_port (change_all (state_after es).config (steps_of w links)) p))
        → filter is_of_change more_ ++ e ∷ left ≡ events_of w links ports
        → denial (state_after (es ++ more_)) e ≡ None }
    ensures settled { (es more_ left : List Event) (new : Graph) (touched noted : ℕ
        → Bool) (w : Work) (links : List NewLink) (n : ℕ)
        → IsRun (es ++ more_) → ((p : ℕ) → IsTrue (noted p) → IsTrue (is_drained (state_after es) p))
        → IsCommit (state_after es).config new (λ n. IsTrue (touched n)) noted w links
        → filter is_of_change more_ ++ left ≡ steps_of w links
        → IsTrue (touched n) → IsTrue (is_live (state_after (es ++ more_)).config n)
        → Settled (state_after (es ++ more_)) n }
    ensures graph { (es more_ done left : List Event) (new : Graph) (touched noted : ℕ
        → Bool) (w : Work) (links : List NewLink) (ports : List ℕ)
        → IsRun es → IsCommit (state_after es).config new (λ n. IsTrue (touched n)) noted w links
        → ((p : ℕ) → Contains ports p → IsTrue (is_live_port (change_all (state_after es).config (steps_of w links)) p))
        → filter is_of_change more_ ≡ steps_of w links ++ done → done ++ left ≡ map Reopen ports
        → IsGraphOf (state_after (es ++ more_)).config new }
{}
