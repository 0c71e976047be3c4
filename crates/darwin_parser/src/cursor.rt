//! The tokens that are still to be read, and why reading stops.

ghost use Rattle.std.specs.Prelude.{◌≡◌, ◌<◌, ◌≤◌, ◌↔◌, [], length, IsTrue, OnOk};
ghost use Rattle.darwin_parser.specs.Reading as reading;
ghost use Rattle.darwin_parser.specs.Reading.{Reads};
ghost use Rattle.darwin_parser.specs.Grammar.{operation};
ghost use Rattle.darwin_lexer.specs.declared.token.TokenKind.TheVariants as kinds;

use crate::tree::Op;
use darwin_lexer::{Keyword, Sign, Token, TokenKind};
use std::alloc::{AllocError, AllocFailed};

/// Why a rule stops. A place is the number of tokens left there, the refused one included.
#[derive(Drop)]
pub enum Stop {
    Expected(usize),
    TooNested(usize),
    NoMemory,
}

impl From<AllocError> for Stop {
    ghost use Rattle.darwin_parser.specs.declared.cursor.Stop.TheVariants.{NoMemory};

    ghost from_gives = { λ _ e. e ≡ NoMemory };

    fn from(_error: AllocError) -> Stop {
        Stop::NoMemory
    }
}

impl<T: Drop> From<AllocFailed<T>> for Stop {
    ghost use Rattle.darwin_parser.specs.declared.cursor.Stop.TheVariants.{NoMemory};

    ghost from_gives = { λ _ e. e ≡ NoMemory };

    fn from(_failed: AllocFailed<T>) -> Stop {
        Stop::NoMemory
    }
}

/// The levels of operators, from the loosest to the tightest.
#[derive(Clone, Copy)]
pub enum Level {
    Or,
    And,
    Comparison,
    Sum,
    Term,
}

/// The tokens that are still to be read.
#[derive(Drop)]
pub struct Tokens<'a> {
    pub rest: &'a [Token],
}

impl Tokens<'_> {
    pub fn is_empty(&self) -> bool
        ensures { IsTrue result ↔ (self.now.rest.now ≡ []) }
    {
        self.rest.is_empty()
    }

    pub fn expected(&self) -> Stop
        ensures { result ≡ Stop.Expected (length self.now.rest.now) }
    {
        Stop::Expected(self.rest.len())
    }

    pub fn too_nested(&self) -> Stop
        ensures { result ≡ Stop.TooNested (length self.now.rest.now) }
    {
        Stop::TooNested(self.rest.len())
    }

    /// Whether the next token is of this kind.
    #[tactic(auto, unfolding(crate::specs::Reading::sees))]
    pub fn sees(&self, kind: TokenKind) -> bool
        ensures { result ≡ reading.sees kind self.now.rest.now }
    {
        match self.rest {
            [first, ..] => same_kind(first.kind, kind),
            [] => false,
        }
    }

    pub fn sees_word(&self, word: Keyword) -> bool
        ensures { result ≡ reading.sees (kinds.Word word) self.now.rest.now }
    {
        self.sees(TokenKind::Word(word))
    }

    pub fn sees_sign(&self, sign: Sign) -> bool
        ensures { result ≡ reading.sees (kinds.Sign sign) self.now.rest.now }
    {
        self.sees(TokenKind::Sign(sign))
    }

    #[tactic(auto, unfolding(crate::specs::Reading::sees_number))]
    pub fn sees_number(&self) -> bool
        ensures { result ≡ reading.sees_number self.now.rest.now }
    {
        match self.rest {
            [first, ..] => matches!(first.kind, TokenKind::Number(_)),
            [] => false,
        }
    }

    /// Takes the next token if it is this sign.
    #[tactic(auto, unfolding(crate::specs::Reading::sees, crate::specs::Reading::after))]
    pub fn eat(&mut self, sign: Sign) -> bool
        ensures found { result ≡ reading.sees (kinds.Sign sign) self.old.rest.now }
        ensures rest { self.new.rest.now ≡ reading.after (kinds.Sign sign) self.old.rest.now }
        ensures shorter { length self.new.rest.now ≤ length self.old.rest.now }
        ensures taken { IsTrue result → length self.new.rest.now < length self.old.rest.now }
    {
        match self.rest {
            [first, rest @ ..] if same_kind(first.kind, TokenKind::Sign(sign)) => {
                self.rest = rest;
                true
            }
            _ => false,
        }
    }

    /// The next token, which has to be of this kind.
    #[tactic(auto, unfolding(crate::specs::Reading::expect))]
    pub fn expect(&mut self, kind: TokenKind) -> Result<Token, Stop>
        ensures reads { Reads (λ t. t) (reading.expect kind self.old.rest.now) result self.new.rest.now }
        ensures shorter { OnOk result (length self.new.rest.now < length self.old.rest.now) }
    {
        match self.rest {
            [first, rest @ ..] if same_kind(first.kind, kind) => {
                self.rest = rest;
                Ok(*first)
            }
            _ => Err(self.expected()),
        }
    }

    pub fn name(&mut self) -> Result<Token, Stop>
        ensures reads { Reads (λ t. t) (reading.expect kinds.Name self.old.rest.now) result self.new.rest.now }
        ensures shorter { OnOk result (length self.new.rest.now < length self.old.rest.now) }
    {
        self.expect(TokenKind::Name)
    }

    pub fn word(&mut self, word: Keyword) -> Result<Token, Stop>
        ensures reads { Reads (λ t. t) (reading.expect (kinds.Word word) self.old.rest.now) result self.new.rest.now }
        ensures shorter { OnOk result (length self.new.rest.now < length self.old.rest.now) }
    {
        self.expect(TokenKind::Word(word))
    }

    pub fn sign(&mut self, sign: Sign) -> Result<Token, Stop>
        ensures reads { Reads (λ t. t) (reading.expect (kinds.Sign sign) self.old.rest.now) result self.new.rest.now }
        ensures shorter { OnOk result (length self.new.rest.now < length self.old.rest.now) }
    {
        self.expect(TokenKind::Sign(sign))
    }

    /// The token of a note that comes next: a name, `int` or a comma.
    #[tactic(auto, unfolding(crate::specs::Reading::note_token))]
    pub fn note(&mut self) -> Result<Token, Stop>
        ensures reads { Reads (λ t. t) (reading.note_token self.old.rest.now) result self.new.rest.now }
        ensures shorter { OnOk result (length self.new.rest.now < length self.old.rest.now) }
    {
        if self.sees(TokenKind::Name) {
            self.name()
        } else if self.sees_word(Keyword::Int) {
            self.word(Keyword::Int)
        } else {
            self.sign(Sign::Comma)
        }
    }

    /// The number that comes next.
    #[tactic(auto, unfolding(crate::specs::Reading::number))]
    pub fn number(&mut self) -> Result<u32, Stop>
        ensures reads { Reads (λ n. n) (reading.number self.old.rest.now) result self.new.rest.now }
        ensures shorter { OnOk result (length self.new.rest.now < length self.old.rest.now) }
    {
        let [first, rest @ ..] = self.rest else {
            return Err(self.expected());
        };
        let TokenKind::Number(number) = first.kind else {
            return Err(self.expected());
        };
        self.rest = rest;
        Ok(number)
    }

    #[tactic(auto, unfolding(crate::specs::Reading::operator_at))]
    pub fn sees_operator(&self, level: Level) -> bool
        ensures { result ≡ reading.sees_operator level self.now.rest.now }
    {
        match self.rest {
            [first, ..] => operation(level, first.kind).is_some(),
            [] => false,
        }
    }

    /// Whether the next token puts an operand in parentheses or under a minus sign.
    pub fn sees_nested(&self) -> bool
        ensures { result ≡ reading.sees_nested self.now.rest.now }
    {
        self.sees_sign(Sign::OpenParen) || self.sees_sign(Sign::Minus)
    }

    /// Whether the next token begins a statement that has a body.
    pub fn sees_block(&self) -> bool
        ensures { result ≡ reading.sees_block self.now.rest.now }
    {
        self.sees_word(Keyword::Forall) || self.sees_word(Keyword::When)
    }

    /// The operator of this level that comes next.
    #[tactic(auto, unfolding(crate::specs::Reading::operator, crate::specs::Reading::operator_at))]
    pub fn operator(&mut self, level: Level) -> Result<Op, Stop>
        ensures reads { Reads (λ o. o) (reading.operator level self.old.rest.now) result self.new.rest.now }
        ensures shorter { OnOk result (length self.new.rest.now < length self.old.rest.now) }
    {
        let [first, rest @ ..] = self.rest else {
            return Err(self.expected());
        };
        let Some(op) = operation(level, first.kind) else {
            return Err(self.expected());
        };
        self.rest = rest;
        Ok(op)
    }
}

fn same_kind(a: TokenKind, b: TokenKind) -> bool
    ensures value { result ≡ reading.same_kind a b }
{
    a == b
}

/// The operation that a token of this kind stands for at this level.
fn operation(level: Level, kind: TokenKind) -> Option<Op>
    ensures { result ≡ operation level kind }
{
    match kind {
        TokenKind::Word(word) => logical(level, word),
        TokenKind::Sign(sign) => match level {
            Level::Comparison => comparison(sign),
            Level::Sum => additive(sign),
            Level::Term => multiplicative(sign),
            _ => None,
        },
        _ => None,
    }
}

fn logical(level: Level, word: Keyword) -> Option<Op>
    ensures { result ≡ operation level (kinds.Word word) }
{
    match (level, word) {
        (Level::Or, Keyword::Or) => Some(Op::Or),
        (Level::And, Keyword::And) => Some(Op::And),
        _ => None,
    }
}

fn comparison(sign: Sign) -> Option<Op>
    ensures { result ≡ operation Level.Comparison (kinds.Sign sign) }
{
    match sign {
        Sign::EqEq => Some(Op::Eq),
        Sign::NotEq => Some(Op::Ne),
        Sign::Less => Some(Op::Lt),
        Sign::LessEq => Some(Op::Le),
        Sign::Greater => Some(Op::Gt),
        Sign::GreaterEq => Some(Op::Ge),
        _ => None,
    }
}

fn additive(sign: Sign) -> Option<Op>
    ensures { result ≡ operation Level.Sum (kinds.Sign sign) }
{
    match sign {
        Sign::Plus => Some(Op::Add),
        Sign::Minus => Some(Op::Sub),
        _ => None,
    }
}

fn multiplicative(sign: Sign) -> Option<Op>
    ensures { result ≡ operation Level.Term (kinds.Sign sign) }
{
    match sign {
        Sign::Star => Some(Op::Mul),
        Sign::Slash => Some(Op::Div),
        Sign::Percent => Some(Op::Rem),
        _ => None,
    }
}
