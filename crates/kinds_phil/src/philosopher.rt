//! A philosopher dines at its place until it ate enough.

ghost use Rattle.std.specs.Prelude.{◌≡◌, ◌<◌, IfSome, IsSome, length, slice_get};
ghost use Rattle.config_graph.specs.declared.kind.Kind.TheVariants as kind;
ghost use Rattle.component_trait.specs.Bounds.{FitsRequest};
ghost use Rattle.component_trait.specs.Moves as moves;
ghost use Rattle.component_trait.specs.States.{at_rest, nothing};
ghost use Rattle.config_graph.specs.declared.TheConstants.{VALUE_LIMIT};

use component_trait::Ask;

/// A philosopher: the number of meals that it wants, and how many it ate.
#[derive(Drop)]
pub struct Philosopher {
    meals: u32,
    eaten: u32,
    ghost meals_small: { meals < VALUE_LIMIT },
}

impl Philosopher {
    ghost use Rattle.kinds_phil.specs.Nodes.{philosopher_state};

    /// A philosopher that ate nothing yet and wants this many meals.
    pub fn new(meals: u32) -> Philosopher
        requires { meals < VALUE_LIMIT }
        ensures { philosopher_state result ≡ at_rest kind.Philosopher meals nothing }
    {
        Philosopher { meals, eaten: 0 }
    }

    /// The same philosopher with another number of meals.
    pub fn with_arg(self, meals: u32) -> Philosopher
        requires { meals < VALUE_LIMIT }
        ensures { philosopher_state result ≡ record (philosopher_state self) { arg = meals } }
    {
        Philosopher {
            meals,
            eaten: self.eaten,
        }
    }

    /// Its argument.
    pub fn arg(&self) -> u32
        ensures arg { result ≡ (philosopher_state self.now).arg }
        ensures small { result < VALUE_LIMIT }
    {
        self.meals
    }

    /// The transaction that it would begin now, if it wants one.
    pub fn wants(&self) -> Option<Ask>
        ensures wants { result ≡ moves.wants (philosopher_state self.now) }
        ensures fits { IfSome result (FitsRequest kind.Philosopher) }
    {
        if self.eaten < self.meals {
            Some(Ask {
                require: 0,
                value: 0,
            })
        } else {
            None
        }
    }

    /// A transaction of its own, which it wanted, ended with this answer.
    pub fn ended(&mut self, value: u32)
        requires wanted { IsSome (moves.wants (philosopher_state self.old)) }
        requires small { value < VALUE_LIMIT }
        ensures { philosopher_state self.new ≡ moves.after_end (philosopher_state self.old) value }
    {
        if value == 1 {
            self.eaten += 1;
        }
    }

    /// Whether it is done.
    pub fn done(&self) -> bool
        ensures { result ≡ moves.is_done (philosopher_state self.now) }
    {
        self.meals <= self.eaten
    }

    /// The number of its state at a place.
    pub fn state_word(&self, index: usize) -> u64
        requires { index < length (moves.numbers (philosopher_state self.now)) }
        ensures { slice_get (moves.numbers (philosopher_state self.now)) index ≡ Some result }
    {
        self.eaten as u64
    }
}
