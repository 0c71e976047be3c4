//! A teller sends the numbers from 1 to n, each once.

ghost use Rattle.std.specs.Prelude.{◌≡◌, ◌<◌, IfSome, IsSome, length, slice_get};
ghost use Rattle.config_graph.specs.declared.kind.Kind.TheVariants as kind;
ghost use Rattle.component_trait.specs.Bounds.{FitsRequest};
ghost use Rattle.component_trait.specs.Moves as moves;
ghost use Rattle.component_trait.specs.States.{at_rest, nothing};
ghost use Rattle.config_graph.specs.declared.TheConstants.{VALUE_LIMIT};

use component_trait::Ask;

/// A teller: the last number that it sends, and how many it sent.
#[derive(Drop)]
pub struct Teller {
    n: u32,
    sent: u32,
    ghost n_small: { n < VALUE_LIMIT },
}

impl Teller {
    ghost use Rattle.kinds_flow.specs.Nodes.{teller_state};

    /// A teller of the numbers from 1 to `n` that sent none yet.
    pub fn new(n: u32) -> Teller
        requires { n < VALUE_LIMIT }
        ensures { teller_state result ≡ at_rest kind.Teller n nothing }
    {
        Teller { n, sent: 0 }
    }

    /// The same teller with another number to come to.
    pub fn with_arg(self, n: u32) -> Teller
        requires { n < VALUE_LIMIT }
        ensures { teller_state result ≡ record (teller_state self) { arg = n } }
    {
        Teller { n, sent: self.sent }
    }

    /// Its argument.
    pub fn arg(&self) -> u32
        ensures arg { result ≡ (teller_state self.now).arg }
        ensures small { result < VALUE_LIMIT }
    {
        self.n
    }

    /// The transaction that it would begin now, if it wants one.
    pub fn wants(&self) -> Option<Ask>
        ensures wants { result ≡ moves.wants (teller_state self.now) }
        ensures fits { IfSome result (FitsRequest kind.Teller) }
    {
        if self.sent < self.n {
            Some(Ask {
                require: 0,
                value: self.sent + 1,
            })
        } else {
            None
        }
    }

    /// A transaction of its own, which it wanted, ended with this answer, whatever it is.
    pub fn ended(&mut self, _value: u32)
        requires { IsSome (moves.wants (teller_state self.old)) }
        ensures { teller_state self.new ≡ moves.after_end (teller_state self.old) _value }
    {
        self.sent += 1;
    }

    /// Whether it is done.
    pub fn done(&self) -> bool
        ensures { result ≡ moves.is_done (teller_state self.now) }
    {
        self.n <= self.sent
    }

    /// The number of its state at a place.
    pub fn state_word(&self, index: usize) -> u64
        requires { index < length (moves.numbers (teller_state self.now)) }
        ensures { slice_get (moves.numbers (teller_state self.now)) index ≡ Some result }
    {
        self.sent as u64
    }
}
