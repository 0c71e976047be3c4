//! Laws of the machine: what holds of every state, or of the state after every run.

ghost use Rattle.std.specs.Prelude.{◌≡◌, ◌+◌, ◌*◌, ◌≤◌, ◌↔◌, ◌++◌, ℕ, false, List, None, Some, filter, fold, length, IsTrue};
ghost use Rattle.std.specs.Option.{option_map_or};
ghost use Rattle.quiesce_core.specs.declared.event.Event.{Event};
ghost use Rattle.quiesce_core.specs.State.{Configuration, State, calls_allowed, depends, empty, mores_allowed, owner, ports_of, target};
ghost use Rattle.quiesce_core.specs.Rest.{full, greatest};
ghost use Rattle.quiesce_core.specs.Rules.{denial, has_provision, is_linked, is_live_port, is_settled};
ghost use Rattle.quiesce_core.specs.Legal.{Legal};
ghost use Rattle.quiesce_core.specs.Reach.{has_no_cycle, reaches, wiring_of};
ghost use Rattle.config_graph.specs.Wiring.{HasNoCycle, Reach};
ghost use Rattle.quiesce_core.specs.Runs.{IsRun, Step, Steps, state_after};
ghost use Rattle.quiesce_core.specs.Effect.{effect};
ghost use Rattle.quiesce_core.specs.Named.{AreNamed};
ghost use Rattle.quiesce_core.specs.Start.{started};
ghost use Rattle.config_graph.specs.Sound.{Sound};
ghost use Rattle.config_graph.specs.declared.TheConstants.{MAX_NODES, MAX_PORTS};
ghost use Rattle.config_graph.specs.declared.node.Target.{Target};
ghost use Rattle.quiesce_core.specs.Traffic.{IsConsistent};
ghost use Rattle.quiesce_core.specs.WellFormed.{IsSound, IsWellFormed};
ghost use Rattle.quiesce_core.specs.Live.{IsGraphOf, StandsAt};
ghost use Rattle.quiesce_core.specs.SameWiring.{AreLinkedAlive, IsPortAt};
ghost use Rattle.quiesce_core.specs.GraphNext.{AreLinkedNext, IsNodeNext};
ghost use Rattle.quiesce_core.specs.declared.event.Event.TheVariants.{Link};
ghost use Rattle.config_graph.specs.GraphBy.{IsGraphBy};
ghost use Rattle.config_graph.specs.Cycles.{graph_wiring};
ghost use Rattle.config_graph.specs.declared.node.Port.{Port};
ghost use Rattle.config_graph.specs.Graph.{Graph, ports};

/// An event is denied by no rule exactly where each of its rules holds.
#[tactic(auto, using(crate::proofs::LegalLaws::legal_events))]
pub fn each_rule_holds()
    ensures { (s : State) (e : Event) → (denial s e ≡ None) ↔ Legal s e }
{}

/// The test for cycles finds none exactly where no path of calls comes back to the node at which it begins.
#[tactic(auto, using(crate::proofs::CycleLaws::cycles_are_found))]
pub fn cycles_are_found()
    ensures { (c : Configuration) → IsTrue (has_no_cycle c) ↔ HasNoCycle (wiring_of c) }
{}

/// Where there is no cycle, the test that a port reaches a node finds exactly the least set that holds what is linked
/// to the node, and what is linked to a provision that depends on a port of the set.
#[tactic(auto, using(crate::proofs::SettledLaws::reach_is_found))]
pub fn reach_is_found()
    ensures { (c : Configuration) → IsSound c → (n p : ℕ) → IsTrue (reaches c n p) ↔ Reach (wiring_of c) n p }
{}

/// A run is events that are steps one after the other from where nothing is made. Such events lead to one state, and
/// through one between any two of them.
pub fn runs_are_steps()
    ensures run { (es : List Event) → IsRun es ↔ Steps empty es (state_after es) }
    ensures end { (s t : State) (es : List Event) → Steps s es t → t ≡ fold effect s es }
    ensures between { (s u : State) (es more_ : List Event)
        → Steps s (es ++ more_) u ↔ ((t : State) × Steps s es t × Steps t more_ u) }
{}

/// After every run the state is well formed.
pub fn runs_are_well_formed()
    ensures { (es : List Event) → IsRun es → IsWellFormed (state_after es) }
{}

/// After every run the traffic is consistent: a port that is asked, in more or answered is linked; what a node
/// services is linked to it and asked or in more; the owner of a consequent port services the port that it belongs
/// to; and the ports of removed nodes are closed and unlinked.
pub fn runs_are_consistent()
    ensures { (es : List Event) → IsRun es → IsConsistent (state_after es) }
{}

/// A configuration has one graph at most.
pub fn one_graph()
    ensures { (c : Configuration) (g h : Graph) → IsGraphOf c g → IsGraphOf c h → g ≡ h }
{}

/// After every run no two live nodes have one path, and each node has its argument.
pub fn nodes_are_named()
    ensures { (es : List Event) → IsRun es → AreNamed (state_after es).config }
{}

/// The graph of a system that was just started is the one that it was started as.
pub fn a_started_system_has_its_graph()
    ensures { (g : Graph) → Sound g → length g.nodes ≤ MAX_NODES → length (ports g.nodes) ≤ MAX_PORTS
        → IsGraphOf (started g).config g }
{}

/// Where there is no cycle, the events of a transaction are three, and three for each intermediate reply allowed, and
/// for each call allowed one and those of the linked provision, the greatest over the ports on which the
/// transaction's provision depends.
pub fn full_is_found()
    ensures { (c : Configuration) → IsSound c → (m x : ℕ) → full c m x ≡ 3 + 3 * mores_allowed c m x + calls_allowed
        c m x * greatest (λ p. 1 + option_map_or (λ (t : Target). full c t.node t.provide) (target c p) 0)
        (filter (depends c m x) (ports_of c m)) }
{}

/// Each step leads from a state that is well formed and consistent to such a state.
pub fn steps_keep_consistency()
    ensures { (s t : State) (e : Event) → IsWellFormed s → IsConsistent s → Step s e t
        → IsWellFormed t × IsConsistent t }
{}

/// A system that was just started is well formed and consistent.
pub fn started_systems_are_consistent()
    ensures { (g : Graph) → Sound g → length g.nodes ≤ MAX_NODES → length (ports g.nodes) ≤ MAX_PORTS
        → IsWellFormed (started g) × IsConsistent (started g) }
{}

/// In a state that is consistent, a port reaches a node exactly where, in the graph, what stands for the port reaches
/// what stands for the node; each port that reaches a node stands in the graph, and each requirement that reaches one
/// there stands for a port.
pub fn reach_is_that_of_the_graph()
    ensures there { (s : State) (g : Graph) → IsSound s.config → IsConsistent s → AreNamed s.config
        → IsGraphOf s.config g → (n i p : ℕ) → StandsAt s.config g.nodes n i
        → Reach (wiring_of s.config) n p → (q : Port) × IsPortAt s.config g p q × Reach (graph_wiring g) i q }
    ensures here { (s : State) (g : Graph) → IsSound s.config → IsConsistent s → AreNamed s.config
        → IsGraphOf s.config g → (n i p : ℕ) (q : Port) → StandsAt s.config g.nodes n i
        → IsPortAt s.config g p q → Reach (graph_wiring g) i q → Reach (wiring_of s.config) n p }
    ensures stands { (s : State) (g : Graph) → IsSound s.config → IsConsistent s → AreNamed s.config
        → IsGraphOf s.config g → (n i : ℕ) (q : Port) → StandsAt s.config g.nodes n i
        → Reach (graph_wiring g) i q → (p : ℕ) × IsPortAt s.config g p q × Reach (wiring_of s.config) n p }
{}

/// Whether or not there is a cycle: there is one exactly where there is one in the graph. What is asked of ports and
/// links is so in every state that is well formed and consistent.
pub fn cycles_are_those_of_the_graph()
    ensures exactly { (c : Configuration) (g : Graph) → AreLinkedAlive c → AreNamed c → IsGraphOf c g
        → HasNoCycle (wiring_of c) ↔ HasNoCycle (graph_wiring g) }
    ensures alive { (s : State) → IsWellFormed s → IsConsistent s → AreLinkedAlive s.config }
{}

/// Where each other rule of a link holds, the last denies it exactly where there is a cycle in the graph that the
/// link would make of the nodes and links before it.
pub fn cycles_deny_links()
    ensures { (s : State) (p n x : ℕ) (g : Graph) → AreLinkedAlive s.config → AreNamed s.config
        → IsTrue (is_live_port s.config p) → is_linked s.config p ≡ false → IsTrue (has_provision s.config n x)
        → IsTrue (is_settled s (owner s.config p))
        → IsGraphBy (IsNodeNext s.config (Link p n x)) (AreLinkedNext s.config (Link p n x)) g
        → (denial s (Link p n x) ≡ Some 23) ↔ (HasNoCycle (graph_wiring g) → ⊥) }
{}
