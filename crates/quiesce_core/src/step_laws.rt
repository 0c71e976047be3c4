//! What an event changes, and what stays while a transaction is open.

ghost use Rattle.std.specs.Prelude.{◌≡◌, ◌<◌, ◌↔◌, ℕ, true, false, IsTrue, length, Some};
ghost use Rattle.quiesce_core.specs.declared.event.Event.{Event};
ghost use Rattle.quiesce_core.specs.declared.state.Service.{Service};
ghost use Rattle.config_graph.specs.declared.node.Target.{Target};
ghost use Rattle.quiesce_core.specs.Alters.{Alters};
ghost use Rattle.quiesce_core.specs.Doers.{is_ask_at, is_end_at, is_give_at};
ghost use Rattle.quiesce_word.specs.Phases.{is_answered, is_idle, is_in_more};
ghost use Rattle.quiesce_core.specs.Rules.{is_linked, is_live_port, is_taken};
ghost use Rattle.quiesce_core.specs.Runs.{Step};
ghost use Rattle.quiesce_core.specs.State.{State, exchange, owner, service, target};
ghost use Rattle.quiesce_core.specs.Traffic.{IsConsistent};
ghost use Rattle.quiesce_core.specs.WellFormed.{IsWellFormed};

/// An event that may happen changes what the tables say of it, place by place, and nothing else.
pub fn steps_alter()
    ensures { (s t : State) (e : Event) → IsWellFormed s → Step s e t → Alters s e t }
{}

/// A port that isn't idle keeps its target, with the provision. While a node services, its own ports keep theirs.
pub fn targets_stay()
    ensures busy { (s t : State) (e : Event) (p : ℕ) → IsWellFormed s → IsConsistent s → Step s e t
        → is_idle (exchange s p).phase ≡ false → target t.config p ≡ target s.config p }
    ensures serving { (s t : State) (e : Event) (n p : ℕ) (v : Service) → IsWellFormed s → Step s e t
        → service s n ≡ Some v → owner s.config p ≡ n → target t.config p ≡ target s.config p }
{}

/// An answer stands at its port until the owner's End, and an intermediate reply until the owner's Ask. A request
/// that was taken stays so until it is answered.
pub fn replies_stay()
    ensures answered { (s t : State) (e : Event) (p : ℕ) → IsWellFormed s → IsConsistent s → Step s e t
        → is_answered (exchange s p).phase ≡ true → is_end_at p e ≡ false → exchange t p ≡ exchange s p }
    ensures in_more { (s t : State) (e : Event) (p : ℕ) → IsWellFormed s → IsConsistent s → Step s e t
        → is_in_more (exchange s p).phase ≡ true → is_ask_at p e ≡ false → exchange t p ≡ exchange s p }
    ensures taken { (s t : State) (e : Event) (p : ℕ) → IsWellFormed s → IsConsistent s → Step s e t
        → is_taken s p ≡ true → is_give_at p e ≡ false → is_taken t p ≡ true }
{}

/// A port that isn't idle was made, is linked, and its owner is live.
pub fn busy_ports_are_linked_and_live()
    ensures made { (s : State) (p : ℕ) → IsConsistent s → is_idle (exchange s p).phase ≡ false
        → p < length s.config.gates }
    ensures linked { (s : State) (p : ℕ) → IsConsistent s → is_idle (exchange s p).phase ≡ false
        → IsTrue (is_linked s.config p) }
    ensures live { (s : State) (p : ℕ) → IsConsistent s → is_idle (exchange s p).phase ≡ false
        → IsTrue (is_live_port s.config p) }
{}

/// A port is taken exactly where its target services it. No node services an idle port, or one that was answered.
pub fn taken_ports_are_serviced()
    ensures taken { (s : State) (p : ℕ)
        → IsTrue (is_taken s p) ↔ ((t : Target) × (v : Service) × (target s.config p ≡ Some t)
        × (service s t.node ≡ Some v) × (v.port ≡ p)) }
    ensures idle { (s : State) (p : ℕ) → IsConsistent s → is_idle (exchange s p).phase ≡ true
        → (m : ℕ) (v : Service) → service s m ≡ Some v → v.port ≡ p → ⊥ }
    ensures answered { (s : State) (p : ℕ) → IsConsistent s → is_answered (exchange s p).phase ≡ true
        → (m : ℕ) (v : Service) → service s m ≡ Some v → v.port ≡ p → ⊥ }
{}
