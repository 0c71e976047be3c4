//! Laws of paired lists.

ghost use Rattle.std.specs.Prelude.{◌≡◌, ℕ, Bool, IsTrue, List, [], ◌∷◌, ◌++◌, Some, length, slice_get, slice_set};
ghost use Rattle.base.specs.Paired.{Paired};

/// What a test finds at each place of two lists, it finds there still where both grow by elements of which it finds it,
/// where the second grows so beside a first that reaches further, and where an element of the second becomes another.
pub fn pairs_stay_paired<X, Y>()
    ensures both { (test : ℕ → X → Y → Bool) (xs : List X) (ys : List Y) (x : X) (y : Y) → length xs ≡ length ys
        → Paired (λ k u v. IsTrue (test k u v)) xs ys → IsTrue (test (length xs) x y)
        → Paired (λ k u v. IsTrue (test k u v)) (xs ++ x ∷ []) (ys ++ y ∷ []) }
    ensures second { (test : ℕ → X → Y → Bool) (xs : List X) (ys : List Y) (x : X) (y : Y)
        → slice_get xs (length ys) ≡ Some x → Paired (λ k u v. IsTrue (test k u v)) xs ys
        → IsTrue (test (length ys) x y) → Paired (λ k u v. IsTrue (test k u v)) xs (ys ++ y ∷ []) }
    ensures changed { (test : ℕ → X → Y → Bool) (xs : List X) (ys : List Y) (n : ℕ) (y : Y)
        → Paired (λ k u v. IsTrue (test k u v)) xs ys
        → ((x : X) → slice_get xs n ≡ Some x → IsTrue (test n x y))
        → Paired (λ k u v. IsTrue (test k u v)) xs (slice_set ys n y) }
{}
