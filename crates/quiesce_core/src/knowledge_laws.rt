//! Laws of what a node knows of itself.

ghost use Rattle.std.specs.Prelude.{◌≡◌, ◌↔◌, ℕ, ◌+◌, ◌<◌, true, false, IsTrue, List, [], ◌∷◌, ◌++◌, length, Option, Some, None, nat_lt, slice_get};
ghost use Rattle.config_graph.specs.Kinds.{row, calls_of, depends_on, mores_of};
ghost use Rattle.config_graph.specs.declared.node.Node.{Node};
ghost use Rattle.quiesce_core.specs.declared.event.Event.{Event};
ghost use Rattle.quiesce_core.specs.declared.event.Event.TheVariants.{Make};
ghost use Rattle.quiesce_core.specs.declared.known.Known.{Known};
ghost use Rattle.quiesce_core.specs.declared.known.PortKnown.{PortKnown};
ghost use Rattle.quiesce_core.specs.declared.known.Served.{Served};
ghost use Rattle.quiesce_core.specs.declared.state.Slot.{Slot};
ghost use Rattle.quiesce_core.specs.Knowledge.{IsKnown, Knows, KnowsItsService, known_after, known_next, own_port_after, port_at_start, served_after, nothing_known};
ghost use Rattle.quiesce_core.specs.Rules.{calls_have_ended, has_calls_left, has_mores_left, is_taken, serves_through, was_heard};
ghost use Rattle.quiesce_core.specs.Runs.{IsRun, Step, can_run, done_by, is_doer, state_after};
ghost use Rattle.quiesce_core.specs.State.{State, empty, service, target_service};
ghost use Rattle.quiesce_core.specs.Traffic.{IsConsistent};
ghost use Rattle.quiesce_core.specs.WellFormed.{IsWellFormed};
ghost use Rattle.quiesce_core.specs.Worked.{its_answer, further_message, consequent_call};

/// In every run a node's own events tell it exactly what the state has of it: what it services, and how far each of
/// its ports has come.
pub fn nodes_know()
    ensures by_number { (es : List Event) → IsRun es → (n : ℕ) → Knows (state_after es) n (done_by n es) }
    ensures by_index { (es : List Event) → IsRun es → (n first : ℕ)
        → IsKnown (state_after es) n first (known_after first (done_by n es)) }
{}

/// What a log tells by the indexes of requirements grows by one event as `known_next` says, and is what it tells of
/// the service and of each port by its number. It tells of no reply that was seen: a look at a port is no event.
pub fn logs_tell()
    ensures more_ { (first : ℕ) (es : List Event) (e : Event)
        → known_after first (es ++ e ∷ []) ≡ known_next first (known_after first es) e }
    ensures service { (first : ℕ) (es : List Event) → (known_after first es).service ≡ served_after es }
    ensures two_ports { (first : ℕ) (es : List Event) → length (known_after first es).ports ≡ 2 }
    ensures idle { (first : ℕ) (es : List Event) (r : ℕ) (k : PortKnown)
        → slice_get (known_after first es).ports r ≡ Some k → k.idle ≡ (own_port_after (first + r) es).idle }
    ensures serial { (first : ℕ) (es : List Event) (r : ℕ) (k : PortKnown)
        → slice_get (known_after first es).ports r ≡ Some k → k.serial ≡ (own_port_after (first + r) es).serial }
    ensures consequent { (first : ℕ) (es : List Event) (r : ℕ) (k : PortKnown)
        → slice_get (known_after first es).ports r ≡ Some k
        → k.consequent ≡ (own_port_after (first + r) es).consequent }
    ensures unseen { (first : ℕ) (es : List Event) (r : ℕ) (k : PortKnown)
        → slice_get (known_after first es).ports r ≡ Some k → k.seen ≡ None }
{}

/// A step that a node does moves what it knows as its log's fold does, and a step that it doesn't do leaves what it
/// knows true: what it has seen at a port stands there until it replies. A node that was just made knows of nothing.
pub fn steps_keep_what_is_known()
    ensures own { (s t : State) (e : Event) (n first : ℕ) (w : Known) → IsWellFormed s → IsConsistent s
        → Step s e t → n < length s.config.slots → is_doer s n e ≡ true → IsKnown s n first w
        → IsKnown t n first (known_next first w e) }
    ensures others { (s t : State) (e : Event) (n first : ℕ) (w : Known) → IsWellFormed s → IsConsistent s
        → Step s e t → n < length s.config.slots → is_doer s n e ≡ false → IsKnown s n first w → IsKnown t n first w }
    ensures new { (s t : State) (n : ℕ) (node : Node) (from : Option ℕ) → IsWellFormed s
        → Step s (Make n node from) t → IsKnown t n (length s.config.gates) nothing_known }
{}

/// Of the rules of its own events a node that is in a service can judge these by what it knows: 14, 29 and 30, 7, 8,
/// 28, and 16.
pub fn nodes_judge_rules()
    ensures taken { (s : State) (n : ℕ) (m : Slot) (k : Known) (u : Served) → KnowsItsService s n m k u
        → is_taken s u.port ≡ true }
    ensures heard { (s : State) (n : ℕ) (m : Slot) (k : Known) (u : Served) → KnowsItsService s n m k u
        → (was_heard (service s n) ≡ u.heard) × (was_heard (target_service s u.port) ≡ u.heard) }
    ensures depends { (s : State) (n : ℕ) (m : Slot) (k : Known) (u : Served) → KnowsItsService s n m k u
        → (r : ℕ) → r < length (row m.node.kind).requires_
        → serves_through s n (m.first_port + r) ≡ depends_on m.node.kind 0 r }
    ensures calls { (s : State) (n : ℕ) (m : Slot) (k : Known) (u : Served) → KnowsItsService s n m k u
        → has_calls_left s n ≡ nat_lt u.calls (calls_of m.node.kind 0) }
    ensures mores { (s : State) (n : ℕ) (m : Slot) (k : Known) (u : Served) → KnowsItsService s n m k u
        → has_mores_left s u.port ≡ nat_lt u.mores (mores_of m.node.kind 0) }
    // Each call has ended exactly where it knows of none of its ports that it is in a consequent transaction.
    ensures ended { (s : State) (n : ℕ) (m : Slot) (k : Known) (u : Served) → KnowsItsService s n m k u
        → (calls_have_ended s u.port ≡ true) ↔ ((r : ℕ) (x : PortKnown) → r < length (row m.node.kind).requires_
        → slice_get k.ports r ≡ Some x → x.consequent ≡ false) }
{}

/// Two worked runs, and what their nodes know: of a message heard, of an answer, and of a call.
pub fn worked_runs()
    ensures again { IsTrue (can_run empty (further_message ++ its_answer)) }
    ensures on { IsTrue (can_run empty consequent_call) }
    ensures asking { known_after 0 (done_by 0 further_message) ≡ record {
      service = None;
      ports = record { idle = false; serial = 1; consequent = false; seen = None; more = false } ∷ port_at_start ∷ [];
    } }
    ensures adding { known_after 1 (done_by 1 further_message) ≡ record {
      service = Some (record { port = 0; serial = 1; value = 6; calls = 0; mores = 1; heard = true });
      ports = port_at_start ∷ port_at_start ∷ [];
    } }
    ensures ended { known_after 0 (done_by 0 (further_message ++ its_answer)) ≡ record {
      service = None;
      ports = record { idle = true; serial = 1; consequent = false; seen = None; more = false } ∷ port_at_start ∷ [];
    } }
    ensures answers { known_after 1 (done_by 1 (further_message ++ its_answer)) ≡ nothing_known }
    ensures calling { known_after 1 (done_by 1 consequent_call) ≡ record {
      service = Some (record { port = 0; serial = 1; value = 1; calls = 1; mores = 0; heard = true });
      ports = record { idle = false; serial = 1; consequent = true; seen = None; more = false } ∷ port_at_start ∷ [];
    } }
{}
