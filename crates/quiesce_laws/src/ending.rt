//! How changes that are given up end, and how a system stops.

ghost use Rattle.std.specs.Prelude.{◌≡◌, ◌∷◌, ◌++◌, ℕ, false, List, None, filter, map, Contains, IsTrue};
ghost use Rattle.std.specs.List.{list_any};
ghost use Rattle.config_graph.specs.Graph.{Graph};
ghost use Rattle.quiesce_core.specs.declared.event.Event.{Event};
ghost use Rattle.quiesce_core.specs.declared.event.Event.TheVariants.{Close, Reopen};
ghost use Rattle.quiesce_core.specs.Doers.{is_of_change};
ghost use Rattle.quiesce_core.specs.Live.{IsGraphOf};
ghost use Rattle.quiesce_core.specs.Rules.{denial, is_live_port};
ghost use Rattle.quiesce_core.specs.Runs.{IsRun, is_open_after, state_after};
ghost use Rattle.quiesce_core.specs.State.{gate, target};
ghost use Rattle.quiesce_laws.specs.Drained.{is_drained};
ghost use Rattle.quiesce_laws.specs.Steps.{is_shaping, live_ports};

/// Where nothing is made, removed, linked or unlinked, the graph stays. So a change that is given up leaves the old
/// one.
pub fn what_is_given_up_leaves_the_graph()
    ensures { (graph : Graph) (es more_ : List Event) → IsRun (es ++ more_) → list_any is_shaping more_ ≡ false
        → IsGraphOf (state_after es).config graph → IsGraphOf (state_after (es ++ more_)).config graph }
{}

/// A change that closes ports, and opens them again, leaves the nodes, the links and so the graph. Each of these ports
/// is open then, and each other gate is as it was: so each gate is open that was.
pub fn abandons_leave_all_as_it_was()
    ensures graph { (graph : Graph) (es more_ : List Event) (ports : List ℕ) → ((p : ℕ) → Contains ports p
        → IsTrue (is_live_port (state_after es).config p))
        → filter is_of_change more_ ≡ map Close ports ++ map Reopen ports
        → IsGraphOf (state_after es).config graph → IsGraphOf (state_after (es ++ more_)).config graph }
    ensures slots { (es more_ : List Event) (ports : List ℕ) → ((p : ℕ) → Contains ports p
        → IsTrue (is_live_port (state_after es).config p))
        → filter is_of_change more_ ≡ map Close ports ++ map Reopen ports
        → (state_after (es ++ more_)).config.slots ≡ (state_after es).config.slots }
    ensures targets { (es more_ : List Event) (ports : List ℕ) → ((p : ℕ) → Contains ports p
        → IsTrue (is_live_port (state_after es).config p))
        → filter is_of_change more_ ≡ map Close ports ++ map Reopen ports
        → (p : ℕ) → target (state_after (es ++ more_)).config p ≡ target (state_after es).config p }
    ensures are_open { (es more_ : List Event) (ports : List ℕ) → ((p : ℕ) → Contains ports p
        → IsTrue (is_live_port (state_after es).config p))
        → filter is_of_change more_ ≡ map Close ports ++ map Reopen ports
        → (p : ℕ) → Contains ports p → (gate (state_after (es ++ more_)).config p).closed ≡ false }
    ensures others { (es more_ : List Event) (ports : List ℕ) → ((p : ℕ) → Contains ports p
        → IsTrue (is_live_port (state_after es).config p))
        → filter is_of_change more_ ≡ map Close ports ++ map Reopen ports
        → (p : ℕ) → ¬ Contains ports p
        → (gate (state_after (es ++ more_)).config p).closed ≡ (gate (state_after es).config p).closed }
{}

/// A stop closes the gates of all live nodes, each of which is allowed after those before it, whatever nodes do in
/// between. Once all are drained no transaction is open.
pub fn stops_leave_nothing_open()
    ensures closes { (es more_ left : List Event) (e : Event) → IsRun (es ++ more_)
        → filter is_of_change more_ ++ e ∷ left ≡ map Close (live_ports (state_after es).config)
        → denial (state_after (es ++ more_)) e ≡ None }
    ensures nothing_open { (es : List Event) → IsRun es
        → ((p : ℕ) → Contains (live_ports (state_after es).config) p → IsTrue (is_drained (state_after es) p))
        → (p k : ℕ) → is_open_after es p k ≡ false }
{}
