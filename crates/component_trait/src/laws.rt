//! Laws of the kinds' machines.

ghost use Rattle.std.specs.Prelude.{◌≡◌, ℕ, ◌<◌, true, List, Some, None, IsSome, length};
ghost use Rattle.config_graph.specs.Kinds.{calls_of, depends_on, mores_of};
ghost use Rattle.config_graph.specs.declared.kind.Kind.{Kind};
ghost use Rattle.quiesce_core.specs.declared.event.Event.{Event};
ghost use Rattle.component_trait.specs.Bounds.{IsBounded};
ghost use Rattle.component_trait.specs.Fold.{asked_by, fold_from, fold_of};
ghost use Rattle.component_trait.specs.Moves as moves;
ghost use Rattle.component_trait.specs.Rows.{AreWorked};
ghost use Rattle.component_trait.specs.States.{Kept, NodeState, Service};
ghost use Rattle.component_trait.specs.Tables.{next_of};
ghost use Rattle.component_trait.specs.declared.next.Ask.{Ask};
ghost use Rattle.component_trait.specs.declared.next.Next.TheVariants as next;

/// A law of a step of a service: it asks only while fewer answers and further messages have come than its kind makes
/// calls, and on a requirement on which its provision depends; it sends an intermediate reply only while fewer have
/// come than its kind sends intermediate replies. A node whose service calls has had fewer answers than its kind
/// makes calls.
#[tactic(auto, using(crate::proofs::BoundLaws::asks_are_few, crate::proofs::BoundLaws::asks_depend, crate::proofs::BoundLaws::mores_are_few, crate::proofs::BoundLaws::calls_are_few))]
pub fn services_are_bounded()
    ensures asks { (k : Kind) (a v r : ℕ) (answers : List ℕ) (x : Ask) → next_of k a v r answers ≡ next.Ask x →
        length answers < calls_of k 0 }
    ensures depend { (k : Kind) (a v r : ℕ) (answers : List ℕ) (x : Ask) → next_of k a v r answers ≡ next.Ask x →
        depends_on k 0 x.require ≡ true }
    ensures mores { (k : Kind) (a v r : ℕ) (answers : List ℕ) (m : ℕ) → next_of k a v r answers ≡ next.More m →
        length answers < mores_of k 0 }
    ensures calls { (s : NodeState) (w : Service) → IsSome (asked_by (moves.next s)) → s.service ≡ Some w →
        length w.answers < calls_of s.kind 0 }
{}

/// A law: after any log no more answers and further messages have come to a service than its kind makes calls and
/// sends intermediate replies together, and while it waits fewer than its kind sends intermediate replies. A call
/// that is missed has its answer too.
pub fn logs_are_bounded()
    ensures { (k : Kind) (arg first : ℕ) (kept : Kept) (es : List Event) (s : NodeState) →
        fold_of k arg first kept es ≡ Some s → IsBounded s }
{}

/// A law: what a node wants stays what it wants through all that it does in a service. So until its transaction ends
/// it wants the same, at the same port.
#[tactic(auto, using(crate::proofs::WantLaws::wanted_after_take))]
pub fn what_is_wanted_stays()
    ensures take { (s : NodeState) (v : ℕ) (x : Ask) → moves.wants s ≡ Some x →
        moves.wants (moves.after_take s v) ≡ Some x }
    ensures answer { (s : NodeState) (v : ℕ) (x : Ask) → moves.wants s ≡ Some x →
        moves.wants (moves.after_answer s v) ≡ Some x }
    ensures more { (s : NodeState) (x : Ask) → moves.wants s ≡ Some x → moves.wants (moves.after_more s) ≡ Some x }
    ensures give { (s : NodeState) (x : Ask) → moves.wants s ≡ Some x → moves.wants (moves.after_give s) ≡ Some x }
{}

/// A law: the service of a node that wants something asks nothing. So no port is both one that its service calls and
/// one that it wants, and an end is handed in to one of the two alone.
#[tactic(auto, using(crate::proofs::WantLaws::asks_nothing))]
pub fn who_wants_asks_nothing()
    ensures { (s : NodeState) (x : Ask) → moves.wants s ≡ Some x → asked_by (moves.next s) ≡ None }
{}

/// A law: events lead a node to a state of the same kind and argument.
#[tactic(auto, using(crate::proofs::FoldLaws::fold_keeps_kind, crate::proofs::FoldLaws::fold_keeps_argument))]
pub fn folds_keep_kind_and_argument()
    ensures kind { (first : ℕ) (s t : NodeState) (es : List Event) → fold_from first s es ≡ Some t → t.kind ≡ s.kind }
    ensures arg { (first : ℕ) (s t : NodeState) (es : List Event) → fold_from first s es ≡ Some t → t.arg ≡ s.arg }
{}

/// A law: short logs of each kind, evaluated, among them such that no node of the kind has.
#[tactic(auto, using(crate::proofs::Logs::worked))]
pub fn logs_evaluate()
    ensures { AreWorked }
{}
