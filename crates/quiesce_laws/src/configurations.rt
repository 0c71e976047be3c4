//! How the configuration changes along a run: nodes and ports are added alone, and links come by Link alone.

ghost use Rattle.std.specs.Prelude.{◌≡◌, ℕ, false, List, ◌++◌};
ghost use Rattle.std.specs.List.{list_any};
ghost use Rattle.config_graph.specs.Wiring.{Reach};
ghost use Rattle.quiesce_core.specs.declared.event.Event.{Event};
ghost use Rattle.quiesce_core.specs.Reach.{wiring_of};
ghost use Rattle.quiesce_core.specs.Runs.{IsRun, Step, state_after};
ghost use Rattle.quiesce_core.specs.State.{State};
ghost use Rattle.quiesce_laws.specs.Configurations.{Extends, HasNoNewLink};
ghost use Rattle.quiesce_laws.specs.Events.{is_link};

/// However a run goes on, each node keeps its slot, path, kind, argument and ports, also where it is removed, and each
/// port its owner and its requirement.
pub fn nodes_and_ports_stay()
    ensures steps { (s t : State) (e : Event) → Step s e t → Extends s.config t.config }
    ensures runs { (es more_ : List Event) → IsRun (es ++ more_)
        → Extends (state_after es).config (state_after (es ++ more_)).config }
{}

/// Where no link is made meanwhile, each link is one that there was, whatever else is changed, and no port reaches a
/// node anew.
pub fn links_are_made_by_link_alone()
    ensures steps { (s t : State) (e : Event) → Step s e t → is_link e ≡ false → HasNoNewLink s.config t.config }
    ensures links { (es more_ : List Event) → IsRun (es ++ more_) → list_any is_link more_ ≡ false
        → HasNoNewLink (state_after es).config (state_after (es ++ more_)).config }
    ensures reach { (es more_ : List Event) (n p : ℕ) → IsRun (es ++ more_) → list_any is_link more_ ≡ false
        → Reach (wiring_of (state_after (es ++ more_)).config) n p → Reach (wiring_of (state_after es).config) n p }
{}
