//! What plans are for: laws that hold of each plan between two graphs.

ghost use Rattle.std.specs.Prelude.{◌≡◌, ◌⊎◌, ◌<◌, ◌↔◌, ℕ, List, length, All, Contains};
ghost use Rattle.config_graph.specs.declared.node.Link.{Link};
ghost use Rattle.config_graph.specs.declared.node.Node.{Node};
ghost use Rattle.config_graph.specs.Graph.{Graph, IsGraph};
ghost use Rattle.config_graph.specs.GraphText.{IsOneWord};
ghost use Rattle.change_plan.specs.Applying.{Connection, ConnectionAfter, IsConnected, KeepsItsLinks, MayBeRelinked, NodeAfter};
ghost use Rattle.change_plan.specs.Moves.{IsOfOneKind, IsShifts, MayMoveAll};
ghost use Rattle.change_plan.specs.PlanText.{plan_text};
ghost use Rattle.change_plan.specs.PlanWithin.{IsPlanWithin};
ghost use Rattle.change_plan.specs.Plans.{HasSameSteps, HasStepsBetween, IsPlanOf};
ghost use Rattle.change_plan.specs.Refusals.{CanPlan, IsRefusal};
ghost use Rattle.change_plan.specs.declared.error.PlanError.{PlanError};
ghost use Rattle.config_graph.specs.declared.node.Made.{Made};
ghost use Rattle.change_plan.specs.declared.plan_data.Move.{Move};
ghost use Rattle.config_graph.specs.declared.node.Port.{Port};
ghost use Rattle.change_plan.specs.declared.plan_data.Plan.{Plan};
ghost use Rattle.change_plan.specs.declared.plan_data.Shift.{Shift};

/// A law: what a plan unlinks, removes, creates and links makes exactly the new graph of the old one.
pub fn a_plan_leads_to_the_new_graph()
    ensures nodes { (old new : Graph) (p : Plan) → IsGraph old → IsGraph new
        → HasStepsBetween old new p
        → (n : Node) → NodeAfter old new p n ↔ Contains new.nodes n }
    ensures links { (old new : Graph) (p : Plan) → IsGraph old → IsGraph new
        → HasStepsBetween old new p
        → (c : Connection) → ConnectionAfter old new p c ↔ IsConnected new c }
{}

/// A law: a node that a plan doesn't freeze stays, and keeps all its links.
pub fn what_is_not_frozen_keeps_its_links()
    ensures { (old new : Graph) (p : Plan) → IsGraph old → IsGraph new
        → HasStepsBetween old new p
        → (i : ℕ) → i < length old.nodes → (¬ Contains p.freeze i) → KeepsItsLinks old new i }
{}

/// A law: each port that a plan unlinks is one of a node that it freezes, and each link that it makes begins at a
/// node that it creates or freezes.
pub fn only_what_is_frozen_or_created_is_linked_anew()
    ensures unlinked { (old new : Graph) (p : Plan) → IsGraph old → IsGraph new
        → HasStepsBetween old new p
        → (q : Port) → Contains p.unlink q → Contains p.freeze q.node }
    ensures linked { (old new : Graph) (p : Plan) → IsGraph old → IsGraph new
        → HasStepsBetween old new p
        → (l : Link) → Contains p.link l → MayBeRelinked old new p l.from }
{}

/// A law: where all moves may be made, each leads to a node of the same kind, and no node stands in two of them.
pub fn a_state_goes_to_one_node_of_its_kind()
    ensures kinds { (old new : Graph) (moves : List Move) (shifts : List Shift) → IsGraph old → IsGraph new
        → MayMoveAll old new moves (length moves) → IsShifts old new moves shifts → All (IsOfOneKind old new) shifts }
    ensures sources { (old new : Graph) (moves : List Move) (shifts : List Shift) → IsGraph old → IsGraph new
        → MayMoveAll old new moves (length moves) → IsShifts old new moves shifts
        → (s t : Shift) → Contains shifts s → Contains shifts t → s.old ≡ t.old → s ≡ t }
    ensures targets { (old new : Graph) (moves : List Move) (shifts : List Shift) → IsGraph old → IsGraph new
        → MayMoveAll old new moves (length moves) → IsShifts old new moves shifts
        → (s t : Shift) → Contains shifts s → Contains shifts t → s.new ≡ t.new → s ≡ t }
{}

/// A law: where no path holds a space or a line feed, two plans between the same graphs freeze, unlink, remove,
/// create and link the same if their texts are equal. Of moves a text says nothing.
pub fn texts_tell_plans()
    ensures { (old new : Graph) (p q : Plan) → IsGraph old → IsGraph new
        → All (λ n. IsOneWord n.path) old.nodes → All (λ n. IsOneWord n.path) new.nodes
        → IsPlanWithin old new p → IsPlanWithin old new q
        → plan_text old new p ≡ plan_text old new q → HasSameSteps p q }
{}

/// A law: there is a plan for moves, or a refusal of them: always one of these, and one alone.
pub fn a_plan_or_a_refusal()
    ensures always_one { (old new : Graph) (moves : List Move) (made : Made) → IsGraph old → IsGraph new
        → CanPlan old new moves made ⊎ ((e : PlanError) × IsRefusal old new moves made e) }
    ensures plan_alone { (old new : Graph) (moves : List Move) (made : Made) → IsGraph old → IsGraph new
        → (e : PlanError) → CanPlan old new moves made → ¬ IsRefusal old new moves made e }
    ensures one_refusal { (old new : Graph) (moves : List Move) (made : Made) → IsGraph old → IsGraph new
        → (d e : PlanError) → IsRefusal old new moves made d → IsRefusal old new moves made e → d ≡ e }
{}

/// A law: there is one plan with given moves.
pub fn there_is_one_plan()
    ensures { (old new : Graph) (moves : List Move) (p q : Plan) → IsPlanOf old new moves p
        → IsPlanOf old new moves q → p ≡ q }
{}
