//! Laws of the rule: what holds between any two steps on the gates.

ghost use Rattle.std.specs.Prelude.{◌≡◌, ℕ, ◌<◌, ◌≤◌, false, List, [], ◌++◌, IsTrue};
ghost use Rattle.std.specs.List.{AllByRecursion, list_any};
ghost use Rattle.atomic_table.specs.Table.{State as Table};
ghost use Rattle.quiesce_laws.specs.Steps.{IsNoted};
ghost use Rattle.txn_records.specs.Entries.{config_of, events_in};
ghost use Rattle.txn_records.specs.Notes.{is_noted};
ghost use Rattle.txn_records.specs.Records.{IsRecordOf, events, state_at};
ghost use Rattle.txn_records.specs.declared.entry.Entry.{Entry};
ghost use Rattle.quiesce_core.specs.Runs.{IsRun, done_by};
ghost use Rattle.quiesce_core.specs.Settled.{Settled};
ghost use Rattle.quiesce_laws.specs.Drained.{is_drained};
ghost use Rattle.quiesce_laws.specs.Events.{is_reopen_or_link, removes, reopens};
ghost use Rattle.txn_spec.specs.Views.{log_in, of_change, of_node};
ghost use Rattle.txn_spec.specs.Traces.{HaveOwnSlots, HasSlot, Holds, IsThere, KnowsNode, Shows};
ghost use Rattle.txn_spec.specs.declared.view.ChangeView.{ChangeView};
ghost use Rattle.txn_spec.specs.declared.view.NodeView.{NodeView};
ghost use Rattle.txn_spec.specs.declared.view.View.{View};
ghost use mathlib.Core.Option.{some};
ghost use lib.ListN.{get_elem?};

/// The words of all ports and slots are those of the state that one run leads to, and each node's seat knows of its
/// node what it did in that run and what that state has of it, those included that the change took in. The change's
/// seat has the record of that run: its own events, each look at a place where the port's word is the one loaded,
/// each sight where the node's events are those noted.
///
/// The run has no other event. Each node whose seat was given out is in the view of one seat, which has all that the
/// node did; of a node whose seat wasn't, there is none; and the change's seat, which counts those given out, is
/// there. Each word that a node loaded was its port's at a place of that run (`KnowsNode`).
pub fn gates_show_a_run()
    ensures run { (t : Table (Unit {0}) View) (h : Holds t) → IsRun (events h.trace.moments) }
    ensures words { (t : Table (Unit {0}) View) (h : Holds t) → Shows t.words (state_at h.trace.moments) }
    ensures nodes { (t : Table (Unit {0}) View) (h : Holds t) (id : ℕ) (n : NodeView)
        → get_elem? t.views id ≡ some (of_node n)
        → KnowsNode (events h.trace.moments) n }
    ensures change { (t : Table (Unit {0}) View) (h : Holds t) (id : ℕ) (nodes : List NodeView) (c : ChangeView)
        → get_elem? t.views id ≡ some (of_change nodes c) → IsRecordOf c.entries h.trace.moments }
    ensures taken_in { (t : Table (Unit {0}) View) (h : Holds t) (id : ℕ) (nodes : List NodeView) (c : ChangeView)
        → get_elem? t.views id ≡ some (of_change nodes c) → AllByRecursion (KnowsNode (events h.trace.moments)) nodes }
    ensures seated { (t : Table (Unit {0}) View) (h : Holds t) (n : ℕ) → n < h.trace.seats
        → (id : ℕ)
        × IsThere t.views id (λ (v : View). HasSlot n v × (done_by n (events h.trace.moments) ≡ log_in v.nodes n)) }
    ensures one_seat { (t : Table (Unit {0}) View) (h : Holds t) (n id j : ℕ) (u v : View)
        → get_elem? t.views id ≡ some u → get_elem? t.views j ≡ some v
        → HasSlot n u → HasSlot n v → id ≡ j }
    ensures once { (t : Table (Unit {0}) View) (h : Holds t) (id : ℕ) (v : View) → get_elem? t.views id ≡ some v
        → HaveOwnSlots v.nodes }
    ensures unseated { (t : Table (Unit {0}) View) (h : Holds t) (n : ℕ) → h.trace.seats ≤ n
        → done_by n (events h.trace.moments) ≡ [] }
    ensures given_out { (t : Table (Unit {0}) View) (h : Holds t) (id : ℕ) (nodes : List NodeView) (c : ChangeView)
        → get_elem? t.views id ≡ some (of_change nodes c) → c.seats ≡ h.trace.seats }
    ensures change_seat { (t : Table (Unit {0}) View) (h : Holds t)
        → (id : ℕ) × (nodes : List NodeView) × (c : ChangeView) × (get_elem? t.views id ≡ some (of_change nodes c)) }
{}

/// A port that the change's record notes is drained in that state; and so a node is settled there of which the record
/// notes each port of its own, and each that reaches it. Both hold as long as the record notes it, whatever nodes do;
/// and what an earlier part of the record noted holds on: of a port until it is reopened, of a node until a port is
/// reopened or linked, or the node is removed.
pub fn notes_tell_of_the_state()
    ensures drained { (t : Table (Unit {0}) View) (h : Holds t) (id : ℕ) (nodes : List NodeView) (c : ChangeView)
        → get_elem? t.views id ≡ some (of_change nodes c)
        → (p : ℕ) → IsTrue (is_noted c.entries p) → IsTrue (is_drained (state_at h.trace.moments) p) }
    ensures settled { (t : Table (Unit {0}) View) (h : Holds t) (id : ℕ) (nodes : List NodeView) (c : ChangeView)
        → get_elem? t.views id ≡ some (of_change nodes c)
        → (n : ℕ) → IsNoted (is_noted c.entries) (config_of c.entries) n → Settled (state_at h.trace.moments) n }
    ensures drained_until { (t : Table (Unit {0}) View) (h : Holds t) (id : ℕ) (nodes : List NodeView) (c : ChangeView)
        → get_elem? t.views id ≡ some (of_change nodes c) → (r more_ : List Entry) → c.entries ≡ r ++ more_
        → (p : ℕ) → IsTrue (is_noted r p) → list_any (reopens p) (events_in more_) ≡ false
        → IsTrue (is_drained (state_at h.trace.moments) p) }
    ensures settled_until { (t : Table (Unit {0}) View) (h : Holds t) (id : ℕ) (nodes : List NodeView) (c : ChangeView)
        → get_elem? t.views id ≡ some (of_change nodes c) → (r more_ : List Entry) → c.entries ≡ r ++ more_
        → (n : ℕ) → IsNoted (is_noted r) (config_of r) n → list_any is_reopen_or_link (events_in more_) ≡ false
        → list_any (removes n) (events_in more_) ≡ false → Settled (state_at h.trace.moments) n }
{}
