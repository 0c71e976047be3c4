//! Laws of configurations: what an event of the change leaves of them, and what holds of them after every run.

ghost use Rattle.std.specs.Prelude.{◌≡◌, ◌↔◌, ◌⊎◌, ◌+◌, ◌<◌, ◌≤◌, ℕ, Bool, IsTrue, false, List, length, Option, None, Some, ◌==◌, if◌then◌else◌};
ghost use Rattle.config_graph.specs.Graph.{Graph};
ghost use Rattle.config_graph.specs.Sound.{Sound};
ghost use Rattle.config_graph.specs.declared.node.Node.{Node};
ghost use Rattle.quiesce_core.specs.declared.event.Event.{Event};
ghost use Rattle.quiesce_core.specs.declared.event.Event.TheVariants.{Make, Link, Unlink, Remove};
ghost use Rattle.quiesce_core.specs.Alters.{Reconfigures};
ghost use Rattle.quiesce_core.specs.Doers.{is_make, is_remove, relinks};
ghost use Rattle.quiesce_core.specs.Live.{IsGraphOf, IsLiveAt};
ghost use Rattle.quiesce_core.specs.Named.{AreNamed};
ghost use Rattle.quiesce_core.specs.Runs.{IsRun, Step, state_after};
ghost use Rattle.quiesce_core.specs.Start.{started};
ghost use Rattle.quiesce_core.specs.Sources.{SourcesAreGone};
ghost use Rattle.quiesce_core.specs.State.{Configuration, State, gate, owner, slot, target};
ghost use Rattle.quiesce_core.specs.declared.state.Slot.{Slot};
ghost use Rattle.config_graph.specs.Kinds.{row};
ghost use Rattle.config_graph.specs.declared.node.Target.{Target};
ghost use Rattle.quiesce_core.specs.WellFormed.{IsSound, IsWellFormed, LeadsToProvision};
ghost use Rattle.config_graph.specs.declared.TheConstants.{MAX_NODES, MAX_PORTS};
ghost use Rattle.quiesce_core.specs.Effect.{with_closed, with_node, with_removed, with_target};
ghost use Rattle.quiesce_core.specs.Reach.{has_no_cycle};
ghost use Rattle.quiesce_core.specs.GraphNext.{AreLinkedNext, IsNodeNext};
ghost use Rattle.config_graph.specs.GraphBy.{IsGraphBy};

/// Who is live after a node is made and after one is removed. All other events leave the slots as they are.
pub fn live_nodes_change()
    ensures made { (c d : Configuration) (k : ℕ) (node : Node) (from : Option ℕ)
        → Reconfigures c (Make k node from) d → (m : ℕ) (other : Node)
        → IsLiveAt d m other ↔ (IsLiveAt c m other ⊎ ((m ≡ length c.slots) × (node ≡ other))) }
    ensures removed { (c d : Configuration) (n : ℕ) → Reconfigures c (Remove n) d → (m : ℕ) (other : Node)
        → IsLiveAt d m other ↔ (IsLiveAt c m other × (m ≡ n → ⊥)) }
    ensures kept { (c d : Configuration) (e : Event) → Reconfigures c e d → is_make e ≡ false → is_remove e ≡ false
        → (m : ℕ) → slot d m ≡ slot c m }
{}

/// Where ports lead after a link, an unlink, a make and a removal. Of all events a link and an unlink alone change
/// where a port leads, and each changes it at its own port alone.
pub fn targets_change()
    ensures linked { (c d : Configuration) (q n x : ℕ) → Reconfigures c (Link q n x) d → (p : ℕ)
        → target d p ≡ (if q == p then Some (record { node = n; provide = x }) else target c p) }
    ensures unlinked { (c d : Configuration) (q : ℕ) → Reconfigures c (Unlink q) d → (p : ℕ)
        → target d p ≡ (if q == p then None else target c p) }
    ensures made { (c d : Configuration) (k : ℕ) (node : Node) (from : Option ℕ)
        → Reconfigures c (Make k node from) d → (p : ℕ) → target d p ≡ target c p }
    ensures removed { (c d : Configuration) (n : ℕ) → Reconfigures c (Remove n) d → (p : ℕ) → target d p ≡ target c p }
    ensures kept { (c d : Configuration) (e : Event) → Reconfigures c e d → (p : ℕ) → relinks p e ≡ false
        → target d p ≡ target c p }
{}

/// After every run each node from which another took its state over was removed, is of its kind, and gave it to no
/// other. In a system that was just started none took any over, and each step keeps it so.
pub fn sources_are_gone()
    ensures runs { (es : List Event) → IsRun es → SourcesAreGone (state_after es).config }
    ensures started { (g : Graph) → SourcesAreGone (started g).config }
    ensures steps { (s t : State) (e : Event) → SourcesAreGone s.config → Step s e t → SourcesAreGone t.config }
{}

/// The graph after an event is told by the nodes and links before it: a make adds its node, a removal takes its node
/// away, a link adds a link between live nodes, an unlink takes that of its port away, and all other events leave the
/// graph.
pub fn graphs_follow_events()
    ensures { (s t : State) (e : Event) → IsWellFormed s → Step s e t → (g : Graph)
        → IsGraphOf t.config g ↔ IsGraphBy (IsNodeNext s.config e) (AreLinkedNext s.config e) g }
{}

/// After every run there is a graph of the live nodes and their links, and each is sound (`one_graph`: it is the only
/// one).
pub fn graphs_of_runs()
    ensures there { (es : List Event) → IsRun es → (g : Graph) × IsGraphOf (state_after es).config g × Sound g }
    ensures sound { (c : Configuration) (g : Graph) → IsSound c → AreNamed c → IsGraphOf c g → Sound g }
{}

/// What was made stays as it was made, whatever happens: a node its slot, first port, path, kind and argument, a port
/// its owner and the requirement that it is. A node that was removed stays removed, and all that its slot says of it
/// stays.
pub fn what_was_made_stays()
    ensures nodes { (c d : Configuration) (e : Event) → Reconfigures c e d → (n : ℕ) (m : Slot) → n < length c.slots
        → slot d n ≡ Some m → (old : Slot) × (slot c n ≡ Some old) × (old.first_port ≡ m.first_port)
        × (old.node ≡ m.node) }
    ensures owners { (c d : Configuration) (e : Event) → Reconfigures c e d → (p : ℕ) → p < length c.gates
        → owner d p ≡ owner c p }
    ensures requirements { (c d : Configuration) (e : Event) → Reconfigures c e d → (p : ℕ) → p < length c.gates
        → (gate d p).require ≡ (gate c p).require }
    ensures removed { (c d : Configuration) (e : Event) → Reconfigures c e d → (k : ℕ) (old : Slot)
        → slot c k ≡ Some old → old.live ≡ false → slot d k ≡ Some old }
{}

/// A port's number is told by its owner's first port and by its requirement. A port that is linked was made.
pub fn ports_are_numbered()
    ensures numbers { (c : Configuration) → IsSound c → (p : ℕ) (m : Slot) → p < length c.gates
        → slot c (owner c p) ≡ Some m
        → (p ≡ m.first_port + (gate c p).require) × ((gate c p).require < length (row m.node.kind).requires_) }
    ensures linked { (c : Configuration) (p : ℕ) (t : Target) → target c p ≡ Some t → p < length c.gates }
{}

/// A change keeps a configuration sound, whatever the traffic: a node is made where there is room for it and its
/// ports; a port that was made is closed or opened, leads nowhere, or leads to a provision of a live node where that
/// closes no cycle; and a node to which no port leads is removed.
pub fn changes_keep_configurations_sound()
    ensures made { (c : Configuration) (node : Node) (from : Option ℕ) → IsSound c → length c.slots < MAX_NODES
        → length c.gates + length (row node.kind).requires_ ≤ MAX_PORTS → IsSound (with_node c node from) }
    ensures turned { (c : Configuration) (p : ℕ) (closed : Bool) → IsSound c → p < length c.gates
        → IsSound (with_closed c p closed) }
    ensures linked { (c : Configuration) (p : ℕ) (t : Target) → IsSound c → p < length c.gates → LeadsToProvision c t
        → IsTrue (has_no_cycle (with_target c p (Some t))) → IsSound (with_target c p (Some t)) }
    ensures unlinked { (c : Configuration) (p : ℕ) → IsSound c → p < length c.gates → IsSound (with_target c p None) }
    ensures removed { (c : Configuration) (n : ℕ) (old : Slot) → IsSound c → slot c n ≡ Some old
        → ((q : ℕ) (t : Target) → target c q ≡ Some t → t.node ≡ n → ⊥) → IsSound (with_removed c n) }
{}
