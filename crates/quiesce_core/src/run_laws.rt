//! Laws of runs: how they grow, and who does what in them.

ghost use Rattle.std.specs.Prelude.{◌≡◌, ◌↔◌, ◌≤◌, ℕ, true, false, List, [], ◌∷◌, ◌++◌, None, Some, filter, IsTrue, if◌then◌else◌};
ghost use Rattle.quiesce_core.specs.declared.event.Event.{Event};
ghost use Rattle.std.specs.List.{list_any};
ghost use Rattle.quiesce_core.specs.declared.event.Event.TheVariants.{Begin, Call, Take, Give, End, More, Ask, Hear};
ghost use Rattle.quiesce_core.specs.Doers.{is_ask_at, is_end_at, is_of_change};
ghost use Rattle.quiesce_core.specs.Knowledge.{StandsThere};
ghost use Rattle.quiesce_core.specs.Effect.{change_next, configuration_after, effect};
ghost use Rattle.quiesce_core.specs.Rules.{denial};
ghost use Rattle.quiesce_core.specs.Runs.{Begun, IsRun, can_run, doer, done_by, initiator, is_doer, state_after, target_at_begin};
ghost use Rattle.quiesce_core.specs.State.{Configuration, State, calls_allowed, empty, exchange, mores_allowed, owner, provision, service, slot, target};
ghost use Rattle.quiesce_core.specs.declared.state.Service.{Service};
ghost use Rattle.quiesce_core.specs.declared.state.Slot.{Slot};
ghost use Rattle.quiesce_core.specs.WellFormed.{IsSound};
ghost use Rattle.config_graph.specs.declared.kind.Kind.TheVariants.{Buffer};
ghost use Rattle.config_graph.specs.declared.node.Target.{Target};
ghost use Rattle.quiesce_core.specs.Traffic.{IsConsistent};

/// A run goes on with an event exactly where no rule denies it in the state that the run has led to. Each front of a
/// run is a run, and whether events are a run can be computed.
pub fn runs_grow()
    ensures more { (es : List Event) (e : Event)
        → IsRun (es ++ e ∷ []) ↔ (IsRun es × (denial (state_after es) e ≡ None)) }
    ensures state { (es : List Event) (e : Event) → state_after (es ++ e ∷ []) ≡ effect (state_after es) e }
    ensures fronts { (es more_ : List Event) → IsRun (es ++ more_) → IsRun es }
    ensures found { (es : List Event) → IsRun es ↔ IsTrue (can_run empty es) }
{}

/// With one event more, a node has done that event too where it is its doer.
pub fn logs_grow()
    ensures { (n : ℕ) (es : List Event) (e : Event)
        → done_by n (es ++ e ∷ []) ≡ done_by n es ++ (if is_doer (state_after es) n e then e ∷ [] else []) }
{}

/// In a state that is consistent, so at each place of a run, an event that may happen is one of the change exactly
/// where no node does it: each other one has its doer.
pub fn changes_are_of_no_node()
    ensures in_states { (s : State) (e : Event) → IsConsistent s → denial s e ≡ None
        → (is_of_change e ≡ true) ↔ (doer s e ≡ None) }
    ensures in_runs { (before after : List Event) (e : Event) → IsRun (before ++ e ∷ after)
        → (is_of_change e ≡ true) ↔ (doer (state_after before) e ≡ None) }
{}

/// The change alone makes the configuration: what its events make of it goes by the configuration alone, and other
/// events leave it as it is. So the configuration after events is that after those of the change.
pub fn changes_make_the_configuration()
    ensures next { (s : State) (e : Event) → (effect s e).config ≡ change_next s.config e }
    ensures kept { (s : State) (e : Event) → is_of_change e ≡ false → (effect s e).config ≡ s.config }
    ensures after { (es : List Event) → (state_after es).config ≡ configuration_after (filter is_of_change es) }
{}

/// The values that the events of a transaction carry: a request is taken with the value with which it was begun or
/// called, a further message is heard with that with which it was sent, and a transaction ends with that with which
/// it was answered. A reply stands at the port until its owner sends or ends upon it.
pub fn values_carry()
    ensures begun { (before between after : List Event) (p k v w : ℕ)
        → IsRun (before ++ Begin p k v ∷ between ++ Take p k w ∷ after) → w ≡ v }
    ensures called { (before between after : List Event) (p k v w : ℕ)
        → IsRun (before ++ Call p k v ∷ between ++ Take p k w ∷ after) → w ≡ v }
    ensures heard { (before between after : List Event) (p k v w : ℕ)
        → IsRun (before ++ Ask p k v ∷ between ++ Hear p k w ∷ after) → list_any (is_ask_at p) between ≡ false → w ≡ v }
    ensures ended { (before between after : List Event) (p k v w : ℕ)
        → IsRun (before ++ Give p k v ∷ between ++ End p k w ∷ after) → w ≡ v }
    ensures replied { (before between : List Event) (p k v : ℕ) → IsRun (before ++ More p k v ∷ between)
        → list_any (is_ask_at p) between ≡ false
        → StandsThere (state_after (before ++ More p k v ∷ between)) p true v
        × ((exchange (state_after (before ++ More p k v ∷ between)) p).serial ≡ k) }
    ensures answered { (before between : List Event) (p k v : ℕ) → IsRun (before ++ Give p k v ∷ between)
        → list_any (is_end_at p) between ≡ false
        → StandsThere (state_after (before ++ Give p k v ∷ between)) p false v
        × ((exchange (state_after (before ++ Give p k v ∷ between)) p).serial ≡ k) }
{}

/// A transaction engages the node that begins or calls it and the one to which the port leads then. These are two,
/// but where a buffer is linked to itself.
pub fn transactions_engage_two_nodes()
    ensures target { (es : List Event) (p k : ℕ) (b : Begun es p k) → IsRun es
        → (n : ℕ) × (target_at_begin es p k b ≡ Some n) }
    ensures apart { (es : List Event) (p k : ℕ) (b : Begun es p k) → IsRun es
        → target_at_begin es p k b ≡ Some (initiator es p k b) → (m : Slot)
        → slot (state_after b.before).config (initiator es p k b) ≡ Some m → m.node.kind ≡ Buffer }
    ensures linked { (c : Configuration) (p : ℕ) (t : Target) (m : Slot) → IsSound c → target c p ≡ Some t
        → t.node ≡ owner c p → slot c (owner c p) ≡ Some m → m.node.kind ≡ Buffer }
{}

/// After every run a service has made no more calls, missed ones among them, and no more intermediate replies than
/// the kind of its node allows by the provision that it is in.
pub fn services_keep_their_bounds()
    ensures calls { (es : List Event) (n : ℕ) (v : Service) → IsRun es → service (state_after es) n ≡ Some v
        → v.calls ≤ calls_allowed (state_after es).config n (provision (state_after es).config v.port) }
    ensures mores { (es : List Event) (n : ℕ) (v : Service) → IsRun es → service (state_after es) n ≡ Some v
        → v.mores ≤ mores_allowed (state_after es).config n (provision (state_after es).config v.port) }
{}
