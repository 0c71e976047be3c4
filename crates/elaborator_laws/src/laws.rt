//! The order of what a description says means nothing for whether it is accepted, and for its graph.

ghost use Rattle.std.specs.Prelude.{◌↔◌, ℤ, List};
ghost use Rattle.config_graph.specs.Graph.{Graph};
ghost use Rattle.darwin_parser.specs.Tree.{Name, Tree};
ghost use Rattle.darwin_types.specs.Faults.{NoFault};
ghost use Rattle.elaborator.specs.Elaboration.{HasNoFault, ElaboratesTo};
ghost use Rattle.elaborator_laws.specs.Accepted.{IsAccepted};
ghost use Rattle.elaborator_laws.specs.Reordering.{SameDescription};

/// A description is accepted with a graph exactly where each description is that says the same in another order: with
/// its components, and in a component the ports, the arrays and the statements, in any order and at any places.
pub fn order_means_nothing()
    ensures { (tree other : Tree) (name : Name) (arguments : List ℤ) (g : Graph) → SameDescription tree other
        → IsAccepted tree name arguments g ↔ IsAccepted other name arguments g }
{}

/// Step by step: no fault stands in the one description exactly where none stands in the other. Where none stands, no
/// fault of the one's elaboration holds exactly where none of the other's does; where none holds, the graphs are the
/// same.
pub fn order_means_nothing_at_each_step()
    ensures standing { (tree other : Tree) → SameDescription tree other → NoFault tree ↔ NoFault other }
    ensures elaborating { (tree other : Tree) (name : Name) (arguments : List ℤ) → SameDescription tree other
        → NoFault tree
        → HasNoFault tree name arguments ↔ HasNoFault other name arguments }
    ensures graph { (tree other : Tree) (name : Name) (arguments : List ℤ) (g : Graph) → SameDescription tree other
        → NoFault tree
        → HasNoFault tree name arguments → ElaboratesTo tree name arguments g ↔ ElaboratesTo other name arguments g }
{}

/// Each description says the same as itself, and what says the same in another order does so both ways, and over a
/// third.
pub fn saying_the_same_is_an_equivalence()
    ensures itself { (tree : Tree) → SameDescription tree tree }
    ensures turned { (tree other : Tree) → SameDescription tree other → SameDescription other tree }
    ensures onward { (tree other third : Tree) → SameDescription tree other → SameDescription other third
        → SameDescription tree third }
{}
