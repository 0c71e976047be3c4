//! Laws of what is reached, each as the contract of a function that does nothing.

ghost use Rattle.std.specs.Prelude.{◌≡◌, ◌⊎◌, ◌↔◌, ◌≤ℤ◌, ℤ, Contains};
ghost use Rattle.darwin_parser.specs.Tree.{ArrayDecl, Component, PortDecl, Stmts};
ghost use Rattle.darwin_walk.specs.Reached.{Reached, array_size, integers_to, port_size, reached_in, reached_in_component};
ghost use Rattle.darwin_walk.specs.Reaches.{ReachedIn};
ghost use Rattle.darwin_walk.specs.Value.{Env};

/// The integers of a range are those from its low end to its high end.
pub fn ranges_have_their_integers()
    ensures { (a b z : ℤ) → Contains (integers_to a b) z ↔ ((a ≤ℤ z) × (z ≤ℤ b)) }
{}

/// What is reached in an instance is the sizes of its ports and arrays, and what its reached statements are: those
/// whose variables have integers of their ranges, and round which each `when` is true.
pub fn what_is_reached()
    ensures statements { (body : Stmts) (env : Env) (r : Reached)
        → Contains (reached_in body env) r ↔ ReachedIn body env r }
    ensures component { (c : Component) (env : Env) (r : Reached) → Contains (reached_in_component c env) r
        ↔ (((p : PortDecl) × Contains c.ports p × Contains (port_size env p) r)
        ⊎ ((a : ArrayDecl) × Contains c.arrays a × (r ≡ array_size env a))
        ⊎ ReachedIn c.body env r) }
{}
