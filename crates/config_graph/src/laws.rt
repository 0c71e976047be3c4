//! Laws of graphs, each as the contract of a function that does nothing.

ghost use Rattle.std.specs.Prelude.{◌≡◌, ◌<◌, ◌≤◌, ◌^◌, ◌⊎◌, ◌↔◌, ℕ, All, Some, true, length};
ghost use Rattle.config_graph.specs.Cycles.{FirstOnCycle, IsLinked, graph_wiring};
ghost use Rattle.config_graph.specs.Graph.{Graph, IsGraph, in_port_order};
ghost use Rattle.config_graph.specs.GraphText.{IsOneWord, graph_text};
ghost use Rattle.config_graph.specs.Kinds.{calls_of, depends_on, kind_named, mores_of, row};
ghost use Rattle.config_graph.specs.Sound.{Sound};
ghost use Rattle.config_graph.specs.Wiring.{HasNoCycle};
ghost use Rattle.config_graph.specs.declared.TheConstants.{MAX_NODES, MAX_PORTS, VALUE_LIMIT};
ghost use Rattle.config_graph.specs.declared.kind.Kind.{Kind};
ghost use Rattle.config_graph.specs.declared.kind.Kind.TheVariants.{Buffer};

/// Each kind is found by its name, so no kind has a name for which none is found.
pub fn kinds_have_their_names()
    ensures { (kind : Kind) → kind_named (row kind).name ≡ Some kind }
{}

/// Graphs with the same nodes, whose ports are linked alike, are equal, where the links of both stand in the
/// order of their ports.
pub fn one_graph()
    ensures { (g h : Graph) → in_port_order g.nodes g.links ≡ g.links → in_port_order h.nodes h.links ≡ h.links
        → g.nodes ≡ h.nodes
        → ((i require j provide : ℕ) → IsLinked g i require j provide ↔ IsLinked h i require j provide) → g ≡ h }
{}

/// Some node of a graph is the first on a cycle, or none is on one.
pub fn a_first_on_a_cycle_or_none()
    ensures { (g : Graph) → IsGraph g → ((i : ℕ) × FirstOnCycle g i) ⊎ HasNoCycle (graph_wiring g) }
{}

/// Where the paths of two sound graphs hold no space and no line feed, the graphs are equal if their texts are.
pub fn texts_tell_sound_graphs()
    ensures { (a b : Graph) → Sound a → Sound b
        → All (λ n. IsOneWord n.path) a.nodes → All (λ n. IsOneWord n.path) b.nodes
        → graph_text a ≡ graph_text b → a ≡ b }
{}

/// How many nodes and how many ports one run makes at most, removed ones counted, and how many values there are.
pub fn limits_of_one_run()
    ensures nodes { MAX_NODES ≡ 1023 }
    ensures ports { MAX_PORTS ≡ 4096 }
    ensures values { VALUE_LIMIT ≡ 2 ^ 24 }
{}

/// Each kind provides one service at most and requires two at most. A service makes at most four calls and at most one
/// intermediate reply. What it provides depends on all that it requires, but for a buffer, whose service calls nothing.
#[tactic(auto, using(crate::proofs::KindLaws::one_provision, crate::proofs::KindLaws::two_requires, crate::proofs::KindLaws::few_calls, crate::proofs::KindLaws::few_mores, crate::proofs::KindLaws::depends_on_all))]
pub fn kinds_are_small()
    ensures provides { (k : Kind) → length (row k).provides ≤ 1 }
    ensures requires_ { (k : Kind) → length (row k).requires_ ≤ 2 }
    ensures calls { (k : Kind) (x : ℕ) → calls_of k x ≤ 4 }
    ensures mores { (k : Kind) (x : ℕ) → mores_of k x ≤ 1 }
    ensures depends { (k : Kind) (x r : ℕ) → x < length (row k).provides → r < length (row k).requires_
        → (k ≡ Buffer → ⊥) → depends_on k x r ≡ true }
{}
