//! Laws of the grammar, each as the contract of a function that does nothing.

ghost use Rattle.std.specs.Prelude.{◌≡◌, ◌⊎◌, ℕ, List};
ghost use Rattle.darwin_lexer.specs.declared.token.Token.{Token};
ghost use Rattle.darwin_parser.specs.Tree.{Tree};
ghost use Rattle.darwin_parser.specs.Grammar.{IsUnit, IsUnitWithin};
ghost use Rattle.darwin_parser.specs.Refusals.{IsUnexpected, IsTooNested};

/// Tokens are a unit of one tree at most, however deep units may nest.
pub fn one_tree()
    ensures { (operands statements : ℕ) (text : List ℕ) (tokens : List Token) (a b : Tree)
        → IsUnitWithin operands statements text tokens a → IsUnitWithin operands statements text tokens b → a ≡ b }
{}

/// Tokens are a unit, or one of them can't stand where it does, or one is too nested: always one of
/// these, and never two.
pub fn one_answer()
    ensures always_one { (text : List ℕ) (tokens : List Token)
        → ((tree : Tree) × IsUnit text tokens tree)
        ⊎ ((n : ℕ) × IsUnexpected text tokens n)
        ⊎ ((n : ℕ) × IsTooNested text tokens n) }
    ensures unit_alone { (text : List ℕ) (tokens : List Token) (tree : Tree) (n : ℕ)
        → IsUnit text tokens tree → (¬ IsUnexpected text tokens n) × (¬ IsTooNested text tokens n) }
    ensures unexpected_alone { (text : List ℕ) (tokens : List Token) (m n : ℕ)
        → IsUnexpected text tokens m → (¬ IsTooNested text tokens n) × (IsUnexpected text tokens n → m ≡ n) }
    ensures too_nested_alone { (text : List ℕ) (tokens : List Token) (m n : ℕ)
        → IsTooNested text tokens m → IsTooNested text tokens n → m ≡ n }
{}
