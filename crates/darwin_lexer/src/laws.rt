//! Laws of the definitions that the contract of `lex` cites.

ghost use Rattle.std.specs.Prelude.{◌≡◌, ℕ, List, length, ◌⊎◌};
ghost use Rattle.darwin_lexer.specs.declared.lexing.TheConstants.{MAX_TEXT};
ghost use Rattle.darwin_lexer.specs.declared.front.LexicalFault.{LexicalFault};
ghost use Rattle.darwin_lexer.specs.declared.front.Front.{Front};
ghost use Rattle.darwin_lexer.specs.declared.token.At.{At};
ghost use Rattle.darwin_lexer.specs.declared.token.Token.{Token};
ghost use Rattle.darwin_lexer.specs.Fronts as fronts;
ghost use Rattle.darwin_lexer.specs.Spelling.{FaultStands, InOrder, Means};
ghost use Rattle.darwin_lexer.specs.Tokens.{FirstFault, IsTokens};

/// A text is parted in one way, or has one first fault, and never both.
pub fn one_reading()
    ensures one_parting { (text : List ℕ) (tokens others : List Token)
        → IsTokens text tokens → IsTokens text others → tokens ≡ others }
    ensures one_fault { (text : List ℕ) (fault other : LexicalFault) (at place : At)
        → FirstFault text fault at → FirstFault text other place → (fault ≡ other) × (at ≡ place) }
    ensures never_both { (text : List ℕ) (tokens : List Token) (fault : LexicalFault) (at : At)
        → IsTokens text tokens → FirstFault text fault at → ⊥ }
    ensures always_one { (text : List ℕ)
        → ((tokens : List Token) × IsTokens text tokens)
        ⊎ ((fault : LexicalFault) × (at : At) × FirstFault text fault at) }
{}

/// What stands at the front of a text is a blank, a comment or a token that can't be longer, or is at
/// fault; and no other front of that text means so.
pub fn fronts_as_spelled()
    ensures meaning { (text : List ℕ) → Means text (fronts.front_of text) }
    ensures one_meaning { (text : List ℕ) (front : Front) → Means text front → front ≡ fronts.front_of text }
{}

/// The tokens of a text are exactly those that stand in order from its first byte to its last, each as
/// long as it can be, and all else is blanks and comments. Its first fault is exactly the one that
/// stands behind tokens in order.
pub fn tokens_in_order()
    ensures in_order { (text : List ℕ) (tokens : List Token)
        → IsTokens text tokens → InOrder text 0 (length text) tokens }
    ensures only_those { (text : List ℕ) (tokens : List Token)
        → InOrder text 0 (length text) tokens → IsTokens text tokens }
    ensures fault { (text : List ℕ) (fault : LexicalFault) (at : At)
        → FirstFault text fault at → FaultStands text fault at }
    ensures only_that { (text : List ℕ) (fault : LexicalFault) (at : At)
        → FaultStands text fault at → FirstFault text fault at }
{}

/// How many bytes a text has at most.
pub fn limit_of_a_text()
    ensures { MAX_TEXT ≡ 1048576 }
{}
