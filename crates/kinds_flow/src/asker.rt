//! An asker asks for the sum of each number from 1 to n with itself: it asks with the number, and replies with it once
//! it is asked for the other one. It adds the sums up.

ghost use Rattle.std.specs.Prelude.{◌≡◌, ◌<◌, IfSome, IsSome, length, slice_get};
ghost use Rattle.config_graph.specs.declared.kind.Kind.TheVariants as kind;
ghost use Rattle.component_trait.specs.Bounds.{FitsRequest};
ghost use Rattle.component_trait.specs.Moves as moves;
ghost use Rattle.component_trait.specs.States.{at_rest, nothing};
ghost use Rattle.config_graph.specs.declared.TheConstants.{VALUE_LIMIT};

use component_trait::{Ask, VALUE_LIMIT};

/// An asker: how many sums it asks for, how many it has, and their total modulo the limit of values.
#[derive(Drop)]
pub struct Asker {
    n: u32,
    sums: u32,
    total: u32,
    ghost n_small: { n < VALUE_LIMIT },
    ghost sums_small: { sums < VALUE_LIMIT },
    ghost total_small: { total < VALUE_LIMIT },
}

impl Asker {
    ghost use Rattle.kinds_flow.specs.Nodes.{asker_state};

    /// An asker for `n` sums that has none yet.
    pub fn new(n: u32) -> Asker
        requires { n < VALUE_LIMIT }
        ensures { asker_state result ≡ at_rest kind.Asker n nothing }
    {
        Asker {
            n,
            sums: 0,
            total: 0,
        }
    }

    /// The same asker with another number of sums.
    pub fn with_arg(self, n: u32) -> Asker
        requires { n < VALUE_LIMIT }
        ensures { asker_state result ≡ record (asker_state self) { arg = n } }
    {
        Asker {
            n,
            sums: self.sums,
            total: self.total,
        }
    }

    /// Its argument.
    pub fn arg(&self) -> u32
        ensures arg { result ≡ (asker_state self.now).arg }
        ensures small { result < VALUE_LIMIT }
    {
        self.n
    }

    /// The transaction that it would begin now, if it wants one.
    pub fn wants(&self) -> Option<Ask>
        ensures wants { result ≡ moves.wants (asker_state self.now) }
        ensures fits { IfSome result (FitsRequest kind.Asker) }
    {
        if self.sums < self.n {
            Some(Ask {
                require: 0,
                value: self.sums + 1,
            })
        } else {
            None
        }
    }

    /// A transaction of its own, which it wanted, ended with this answer.
    pub fn ended(&mut self, value: u32)
        requires wanted { IsSome (moves.wants (asker_state self.old)) }
        requires small { value < VALUE_LIMIT }
        ensures { asker_state self.new ≡ moves.after_end (asker_state self.old) value }
    {
        self.sums += 1;
        self.total = (self.total + value) % VALUE_LIMIT;
    }

    /// What it replies to an intermediate reply: the number that it asks with, while it wants a sum.
    pub fn replies(&self) -> u32
        ensures reply { result ≡ moves.replies (asker_state self.now) }
        ensures small { result < VALUE_LIMIT }
    {
        (self.sums + 1) % VALUE_LIMIT
    }

    /// Whether it is done.
    pub fn done(&self) -> bool
        ensures { result ≡ moves.is_done (asker_state self.now) }
    {
        self.n <= self.sums
    }

    /// The number of its state at a place.
    pub fn state_word(&self, index: usize) -> u64
        requires { index < length (moves.numbers (asker_state self.now)) }
        ensures { slice_get (moves.numbers (asker_state self.now)) index ≡ Some result }
    {
        if index == 0 {
            self.sums as u64
        } else {
            self.total as u64
        }
    }
}
