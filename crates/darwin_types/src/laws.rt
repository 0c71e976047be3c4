//! Laws of the faults of descriptions, each as the contract of a function that does nothing.

ghost use Rattle.std.specs.Prelude.{◌⊎◌};
ghost use Rattle.darwin_parser.specs.Tree.{Tree};
ghost use Rattle.darwin_types.specs.Faults.{HasFault, NoFault};
ghost use Rattle.darwin_types.specs.declared.error.TypeError.{TypeError};

/// A fault stands in a description, or none does.
pub fn a_fault_or_none()
    ensures { (t : Tree) → NoFault t ⊎ ((e : TypeError) × HasFault t e) }
{}
