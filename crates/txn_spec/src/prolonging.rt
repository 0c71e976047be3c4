//! Laws of steps: each prolongs the run that the gates show by the event, look or sight that it is, or leaves it.

ghost use Rattle.std.specs.Prelude.{◌≡◌, ℕ, Bool, ◌+◌, ◌<◌, ◌==◌, ◌%◌, ◌^◌, false, List, [], ◌∷◌, ◌++◌, length, Option, Some, bit_and, bit_or, bit_xor};
ghost use Rattle.atomic_table.specs.Table.{opening, step};
ghost use Rattle.config_graph.specs.declared.TheConstants.{MAX_PORTS};
ghost use Rattle.config_graph.specs.declared.node.Node.{Node};
ghost use Rattle.config_graph.specs.declared.node.Target.{Target};
ghost use Rattle.txn_records.specs.Entries.{config_of};
ghost use Rattle.txn_records.specs.Records.{May, Moment, entry};
ghost use Rattle.txn_records.specs.declared.entry.Entry.TheVariants.{Looked, Scanned, Sighted};
ghost use Rattle.quiesce_word.specs.Operands.{call_difference, end_difference, link_difference, message_difference};
ghost use Rattle.quiesce_word.specs.Phases.{is_asked};
ghost use Rattle.quiesce_word.specs.SlotWords.{pack_slot};
ghost use Rattle.quiesce_word.specs.Words.{FitsWord, is_message_to, is_missing, unpack};
ghost use Rattle.quiesce_word.specs.declared.operands.TheConstants.{ALL_BUT_CLOSED, CLOSED};
ghost use Rattle.quiesce_word.specs.declared.phase.Phase.TheVariants as phases;
ghost use Rattle.node_gate.specs.Seats.{MayAsk, MayBegin, MayCallAt, MayEnd, MayGive, MayHear, MaySee, MaySendMore, MayTake, port_known, serial_served, value_seen};
ghost use Rattle.quiesce_core.specs.Rules.{last_serial};
ghost use Rattle.quiesce_core.specs.State as state;
ghost use Rattle.quiesce_core.specs.declared.event.Event.TheVariants as event;
ghost use Rattle.txn_spec.specs.Growth.{ActProlongs, ChangeProlongs, GatesTable, JoinProlongs, LoadProlongs, NoteProlongs, Prolongs, QuietProlongs, RunGoesOn, SplitProlongs, asked_word, if_so};
ghost use Rattle.txn_spec.specs.Steps.{Adopts, ExchangesFor, Hears, LoadsWord, LooksToCall, Sees, Takes, value_served};
ghost use Rattle.txn_spec.specs.Traces.{Holds, first_words, port_place};
ghost use Rattle.txn_spec.specs.Views.{given_out, new_seat, nobody, node_at, nothing_done, of_change, of_node, seat_again, with_seat, with_sight, without_seat};
ghost use Rattle.txn_spec.specs.declared.view.ChangeView.{ChangeView};
ghost use Rattle.txn_spec.specs.declared.view.NodeView.{NodeView};
ghost use prog.Atomic.{either};
ghost use mathlib.Core.Option.{none};

/// Whichever run the words and views show before a step of a node, they show it afterwards too, with at most one
/// event more at its end: the one that is named for the step, where the word that was found is one by which it
/// happens.
pub fn node_steps_prolong_the_run()
    ensures loads { (slots id p : ℕ) (n : NodeView) → p < MAX_PORTS
        → LoadProlongs id n (port_place p) (LoadsWord (step slots (port_place p) 0 0 none) (of_node n, [])) (λ found. []) }
    ensures begins { (slots id p v old : ℕ) (n : NodeView) (to : Target) → MayBegin (node_at n) n.known p v
        → (unpack old).closed ≡ false → (unpack old).target ≡ Some to
        → (unpack old).serial < last_serial
        → Prolongs id (of_node n, []) (port_place p) (λ x. either (x == old) (asked_word old v) x) (ExchangesFor
        (event.Begin p ((unpack old).serial + 1) v) (step slots (port_place p) old (asked_word old v) none) (of_node n, []))
        (λ found. if_so (found == old) (event.Begin p ((unpack old).serial + 1) v)) }
    ensures takes { (slots id p : ℕ) (n : NodeView) → MayTake n.known p
        → LoadProlongs id n (port_place p) (Takes (step slots (port_place p) 0 0 none) (of_node n, []))
        (λ found. if_so (is_message_to n.slot (unpack found))
        (event.Take p (unpack found).serial (unpack found).value)) }
    ensures gives { (id p v : ℕ) (n : NodeView) → MayGive n.known p v
        → ActProlongs id n (port_place p) (message_difference phases.Asked (value_served n.known % 2 ^ 24) phases.Answered v)
        (event.Give p (serial_served n.known) v) }
    ensures sees { (slots id p : ℕ) (n : NodeView) → MaySee (node_at n) n.known p
        → LoadProlongs id n (port_place p) (Sees (step slots (port_place p) 0 0 none) (of_node n, [])) (λ found. []) }
    ensures ends { (id p : ℕ) (n : NodeView) → MayEnd (node_at n) n.known p
        → ActProlongs id n (port_place p) (end_difference (value_seen (port_known (node_at n) n.known p) % 2 ^ 24)
        (port_known (node_at n) n.known p).consequent)
        (event.End p (port_known (node_at n) n.known p).serial (value_seen (port_known (node_at n) n.known p))) }
    ensures mores { (id p v : ℕ) (n : NodeView) → MaySendMore (node_at n) n.known p v
        → ActProlongs id n (port_place p) (message_difference phases.Asked (value_served n.known % 2 ^ 24) phases.More v)
        (event.More p (serial_served n.known) v) }
    ensures asks { (id p v : ℕ) (n : NodeView) → MayAsk (node_at n) n.known p v
        → ActProlongs id n (port_place p) (message_difference phases.More (value_seen (port_known (node_at n) n.known p) % 2 ^ 24)
        phases.Asked v) (event.Ask p (port_known (node_at n) n.known p).serial v) }
    ensures hears { (slots id p : ℕ) (n : NodeView) → MayHear n.known p
        → LoadProlongs id n (port_place p) (Hears (step slots (port_place p) 0 0 none) (of_node n, []))
        (λ found. if_so (is_asked (unpack found).phase) (event.Hear p (serial_served n.known) (unpack found).value)) }
    ensures misses { (slots id p v : ℕ) (n : NodeView) → MayCallAt (node_at n) n.known p v
        → LoadProlongs id n (port_place p) (LooksToCall (step slots (port_place p) 0 0 none) (of_node n, []))
        (λ found. if_so (is_missing (unpack found)) (event.Miss p)) }
    ensures calls { (id p v word : ℕ) (n : NodeView) → MayCallAt (node_at n) n.known p v
        → n.loaded ≡ Some (record { port = p; word = word }) → FitsWord (unpack word)
        → is_missing (unpack word) ≡ false
        → ActProlongs id n (port_place p) (call_difference (unpack word) v) (event.Call p ((unpack word).serial + 1) v) }
    ensures adopts { (slots id : ℕ) (n : NodeView) → LoadProlongs id n (MAX_PORTS + n.slot)
        (Adopts (step slots (MAX_PORTS + n.slot) 0 0 none) (of_node n, [])) (λ found. []) }
{}

/// So it is of each step of the change on a word: the run has its event more, or its look, or its mark of a scan. The
/// look by which the change merges with all nodes is one of these. A load by which it learns of its record, or meets a
/// node that it took in, leaves the run as it is.
pub fn change_steps_prolong_the_run()
    ensures closes { (id p : ℕ) (nodes : List NodeView) (c : ChangeView) → May c.entries (event.Close p)
        → ChangeProlongs id nodes c (port_place p) (λ x. bit_or x CLOSED) (event.Close p) }
    ensures reopens { (id p : ℕ) (nodes : List NodeView) (c : ChangeView) → May c.entries (event.Reopen p)
        → ChangeProlongs id nodes c (port_place p) (λ x. bit_and x ALL_BUT_CLOSED) (event.Reopen p) }
    ensures looks { (id p : ℕ) (nodes : List NodeView) (c : ChangeView) → p < MAX_PORTS
        → NoteProlongs id nodes c (port_place p) (λ found. Looked p found) }
    ensures marks { (id i : ℕ) (begins moved : Bool) (nodes : List NodeView) (c : ChangeView)
        → NoteProlongs id nodes c i (λ found. Scanned begins moved) }
    ensures links { (id p : ℕ) (to : Target) (nodes : List NodeView) (c : ChangeView)
        → May c.entries (event.Link p to.node to.provide)
        → ChangeProlongs id nodes c (port_place p) (λ x. bit_xor x (link_difference to)) (event.Link p to.node to.provide) }
    ensures unlinks { (id p : ℕ) (was : Target) (nodes : List NodeView) (c : ChangeView)
        → state.target (config_of c.entries) p ≡ Some was → May c.entries (event.Unlink p)
        → ChangeProlongs id nodes c (port_place p) (λ x. bit_xor x (link_difference was)) (event.Unlink p) }
    ensures removes { (id n i : ℕ) (nodes : List NodeView) (c : ChangeView) → May c.entries (event.Remove n)
        → ChangeProlongs id nodes c i (λ x. x) (event.Remove n) }
    ensures makes { (id n : ℕ) (node : Node) (from : Option ℕ) (nodes : List NodeView) (c : ChangeView)
        → May c.entries (event.Make n node from)
        → ChangeProlongs id nodes c (MAX_PORTS + n) (λ x. bit_or x (pack_slot
        (record { kind = node.kind; first_port = length (config_of c.entries).gates; arg = node.arg; from = from })))
        (event.Make n node from) }
    ensures learns { (id i : ℕ) (nodes : List NodeView) (c : ChangeView) → QuietProlongs id nodes c i }
{}

/// A seat that is given out, given on or taken in leaves the run as it is, and one that is taken in for a sight is that sight,
/// at its end.
pub fn seat_steps_prolong_the_run()
    ensures new_seats { (id : ℕ) (nodes : List NodeView) (c : ChangeView) → c.seats < length (config_of c.entries).slots
        → SplitProlongs id (of_change nodes c) (without_seat (of_change nodes c)) (new_seat (of_change nodes c)) }
    ensures takes_in { (id other : ℕ) (nodes : List NodeView) (c : ChangeView) (n : NodeView)
        → JoinProlongs id (of_change nodes c) other (of_node n) (with_seat (of_change nodes c) (of_node n)) nobody [] }
    ensures sights { (id other : ℕ) (nodes : List NodeView) (c : ChangeView) (n : NodeView)
        → JoinProlongs id (of_change nodes c) other (of_node n) (with_sight (of_change nodes c) (of_node n))
        nobody (entry (Sighted n.slot n.log) ∷ []) }
    ensures gives_out { (id : ℕ) (n : NodeView) (nodes : List NodeView) (c : ChangeView)
        → SplitProlongs id (of_change (n ∷ nodes) c) (given_out (of_change (n ∷ nodes) c))
        (seat_again (of_change (n ∷ nodes) c)) }
    ensures leaves { (id : ℕ) (n : NodeView) → SplitProlongs id (of_node n) nobody (of_node n) }
{}

/// At the beginning the gates show the run without a moment, and a run that goes on by some moments and then by
/// others goes on by both: so from the beginning on, the run of each moment begins that of each later one.
pub fn runs_open_and_go_on()
    ensures opens { (h : Holds (opening first_words [] (of_change [] nothing_done))) × (h.trace.moments ≡ []) }
    ensures goes_on { (t u v : GatesTable) (h : Holds t) (these those : List Moment) (g : RunGoesOn t h u these)
        → RunGoesOn u g.holds v those → RunGoesOn t h v (these ++ those) }
{}
