//! What parts are for: laws that hold of each change in parts.

ghost use Rattle.std.specs.Prelude.{◌≡◌, ◌⊎◌, ◌<◌, ◌++◌, ℕ, List, Some, length, slice_get, take, All, Contains};
ghost use Rattle.config_graph.specs.Graph.{Graph, IsGraph};
ghost use Rattle.config_graph.specs.Sound.{Sound};
ghost use Rattle.config_graph.specs.declared.node.Made.{Made};
ghost use Rattle.config_graph.specs.declared.node.Node.{Node};
ghost use Rattle.change_plan.specs.Refusals.{CanPlan};
ghost use Rattle.change_plan.specs.declared.plan_data.Move.{Move};
ghost use Rattle.change_parts.specs.Carrying.{CanCarryOutAll};
ghost use Rattle.change_parts.specs.Freezing.{IsFrozenAt};
ghost use Rattle.change_parts.specs.Groups.{AreGroups};
ghost use Rattle.change_parts.specs.Parts.{AreParts, CreatedBy, RemovedBy, StandsInOne, stage_after};
ghost use Rattle.change_parts.specs.Stages.{HasLinksOf, IsAfter};
ghost use Rattle.change_parts.specs.Ties.{IsCreated, IsRemoved};
ghost use Rattle.change_parts.specs.declared.part.Part.{Part};

/// A law: there are parts of a change for which there is a plan, and room. That no list is its parts can't be.
pub fn there_are_parts()
    ensures { (old new : Graph) (moves : List Move) (made : Made) → IsGraph old → IsGraph new
        → Sound new → CanPlan old new moves made → ¬ ((ps : List Part) → ¬ AreParts old new moves ps) }
{}

/// A law: behind a stage there is one after any number of the groups that are left. So to take the fewest of them says
/// something of each part.
pub fn stages_are_there()
    ensures { (old new : Graph) (moves : List Move) (made : Made) (done left : List (List ℕ)) (stage : Graph) (k : ℕ)
        → IsGraph old → IsGraph new → Sound new → CanPlan old new moves made → AreGroups old new moves (done ++ left)
        → IsAfter old new moves done old stage → ¬ ((g : Graph) → ¬ IsAfter old new moves (take k left) stage g) }
{}

/// A law: there is one list of parts.
pub fn there_is_one_list_of_parts()
    ensures { (old new : Graph) (moves : List Move) (ps qs : List Part) → IsGraph old → IsGraph new
        → AreParts old new moves ps → AreParts old new moves qs → ps ≡ qs }
{}

/// A law: each stage is sound, and the last is the new graph. So where there is no part the new graph is the old one.
pub fn stages_are_sound_and_lead_to_the_new_graph()
    ensures sound { (old new : Graph) (moves : List Move) (ps : List Part) → IsGraph old → IsGraph new
        → AreParts old new moves ps → Sound old → Sound new
        → (k : ℕ) (p : Part) → slice_get ps k ≡ Some p → Sound p.next }
    ensures last { (old new : Graph) (moves : List Move) (ps : List Part) → IsGraph old → IsGraph new
        → AreParts old new moves ps → stage_after old ps (length ps) ≡ new }
{}

/// A law: no link is lost on the way. Each node of a stage is linked as in the new graph where its group is applied
/// there, and else as in the old one.
pub fn no_link_is_lost()
    ensures { (old new : Graph) (moves : List Move) (ps : List Part) → IsGraph old → IsGraph new
        → AreParts old new moves ps → (k : ℕ) (p : Part) → slice_get ps k ≡ Some p → HasLinksOf old new moves p.next }
{}

/// A law: each node that a part freezes is frozen by the whole change, or was created by an earlier part.
pub fn a_part_freezes_what_the_whole_freezes()
    ensures { (old new : Graph) (moves : List Move) (ps : List Part) → IsGraph old → IsGraph new
        → AreParts old new moves ps → All (λ p. IsGraph p.next) ps
        → (k : ℕ) (p : Part) (i : ℕ) (n : Node) → slice_get ps k ≡ Some p → Contains p.plan.freeze i
        → slice_get (stage_after old ps k).nodes i ≡ Some n
        → IsFrozenAt old new n ⊎ ((j : ℕ) × (j < k) × CreatedBy old ps j n) }
{}

/// A law: each node that is removed, and each that is created, stands in exactly one part.
pub fn a_node_stands_in_one_part()
    ensures removed { (old new : Graph) (moves : List Move) (ps : List Part) → IsGraph old → IsGraph new
        → AreParts old new moves ps → (n : Node) → IsRemoved old new n → StandsInOne (λ k. RemovedBy old ps k n) }
    ensures created { (old new : Graph) (moves : List Move) (ps : List Part) → IsGraph old → IsGraph new
        → AreParts old new moves ps → (n : Node) → IsCreated old new n → StandsInOne (λ k. CreatedBy old ps k n) }
{}

/// A law: the parts of a change for which there is a plan, and room, may be carried out one after the other. None of
/// them is refused.
pub fn parts_may_be_carried_out()
    ensures { (old new : Graph) (moves : List Move) (made : Made) (ps : List Part) → IsGraph old → IsGraph new
        → Sound old → Sound new → CanPlan old new moves made → AreParts old new moves ps
        → All (λ p. IsGraph p.next) ps → CanCarryOutAll old made ps }
{}
