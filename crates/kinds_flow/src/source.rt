//! A source sends the numbers from 1 to n, each until it is accepted.

ghost use Rattle.std.specs.Prelude.{◌≡◌, ◌<◌, IfSome, IsSome, length, slice_get};
ghost use Rattle.config_graph.specs.declared.kind.Kind.TheVariants as kind;
ghost use Rattle.component_trait.specs.Bounds.{FitsRequest};
ghost use Rattle.component_trait.specs.Moves as moves;
ghost use Rattle.component_trait.specs.States.{at_rest, nothing};
ghost use Rattle.config_graph.specs.declared.TheConstants.{VALUE_LIMIT};

use component_trait::Ask;

/// A source: the last number that it sends, and how many were accepted.
#[derive(Drop)]
pub struct Source {
    n: u32,
    accepted: u32,
    ghost n_small: { n < VALUE_LIMIT },
}

impl Source {
    ghost use Rattle.kinds_flow.specs.Nodes.{source_state};

    /// A source of the numbers from 1 to `n`, of which none was accepted yet.
    pub fn new(n: u32) -> Source
        requires { n < VALUE_LIMIT }
        ensures { source_state result ≡ at_rest kind.Source n nothing }
    {
        Source { n, accepted: 0 }
    }

    /// The same source with another number to come to.
    pub fn with_arg(self, n: u32) -> Source
        requires { n < VALUE_LIMIT }
        ensures { source_state result ≡ record (source_state self) { arg = n } }
    {
        Source {
            n,
            accepted: self.accepted,
        }
    }

    /// Its argument.
    pub fn arg(&self) -> u32
        ensures arg { result ≡ (source_state self.now).arg }
        ensures small { result < VALUE_LIMIT }
    {
        self.n
    }

    /// The transaction that it would begin now, if it wants one.
    pub fn wants(&self) -> Option<Ask>
        ensures wants { result ≡ moves.wants (source_state self.now) }
        ensures fits { IfSome result (FitsRequest kind.Source) }
    {
        if self.accepted < self.n {
            Some(Ask {
                require: 0,
                value: self.accepted + 1,
            })
        } else {
            None
        }
    }

    /// A transaction of its own, which it wanted, ended with this answer.
    pub fn ended(&mut self, value: u32)
        requires wanted { IsSome (moves.wants (source_state self.old)) }
        requires small { value < VALUE_LIMIT }
        ensures { source_state self.new ≡ moves.after_end (source_state self.old) value }
    {
        if value != 0 {
            self.accepted += 1;
        }
    }

    /// Whether it is done.
    pub fn done(&self) -> bool
        ensures { result ≡ moves.is_done (source_state self.now) }
    {
        self.n <= self.accepted
    }

    /// The number of its state at a place.
    pub fn state_word(&self, index: usize) -> u64
        requires { index < length (moves.numbers (source_state self.now)) }
        ensures { slice_get (moves.numbers (source_state self.now)) index ≡ Some result }
    {
        self.accepted as u64
    }
}
