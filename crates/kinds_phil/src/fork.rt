//! A fork is held by at most one at a time.

ghost use Rattle.std.specs.Prelude.{◌≡◌, ℕ, ◌<◌, IsSome, length, slice_get, None};
ghost use Rattle.config_graph.specs.declared.kind.Kind.TheVariants as kind;
ghost use Rattle.component_trait.specs.Bounds.{FitsNext};
ghost use Rattle.component_trait.specs.Moves as moves;
ghost use Rattle.component_trait.specs.Serving.{WaitsForNoMore};
ghost use Rattle.component_trait.specs.States.{at_rest, nothing};
ghost use Rattle.component_trait.specs.Tables.{serve};
ghost use Rattle.config_graph.specs.declared.TheConstants.{VALUE_LIMIT};
ghost use Rattle.component_trait.specs.declared.next.Next.TheVariants as next;

use component_trait::{Next, Serving, reply};

/// A fork: whether it is held, and its service.
#[derive(Drop)]
pub struct Fork {
    held: bool,
    service: Option<Serving>,
    ghost goes_on: { WaitsForNoMore service },
}

impl Fork {
    ghost use Rattle.kinds_phil.specs.Nodes.{fork_state};

    /// A free fork.
    pub fn new() -> Fork
        ensures { fork_state result ≡ at_rest kind.Fork 0 nothing }
    {
        Fork {
            held: false,
            service: None,
        }
    }

    /// Takes a value up.
    pub fn serve(&mut self, value: u32)
        requires rests { (fork_state self.old).service ≡ None }
        requires small { value < VALUE_LIMIT }
        ensures { fork_state self.new ≡ moves.after_take (fork_state self.old) value }
    {
        let reply = self.lend(value);
        self.service = Some(Serving::of(value, reply));
    }

    /// What its service does next.
    pub fn next(&self) -> Next
        requires goes_on { IsSome (moves.next (fork_state self.now)) }
        ensures next { moves.next (fork_state self.now) ≡ Some result }
        ensures fits { FitsNext kind.Fork result }
    {
        Next::Give(reply(&self.service))
    }

    /// Its service gave its answer.
    pub fn given(&mut self)
        requires gave { ((v : ℕ) × (moves.next (fork_state self.old) ≡ Some (next.Give v))) }
        ensures { fork_state self.new ≡ moves.after_give (fork_state self.old) }
    {
        self.service = None;
    }

    /// Whether it is in a service.
    pub fn in_service(&self) -> bool
        ensures { result ≡ moves.in_service (fork_state self.now) }
    {
        self.service.is_some()
    }

    /// The number of its state at a place.
    pub fn state_word(&self, index: usize) -> u64
        requires { index < length (moves.numbers (fork_state self.now)) }
        ensures { slice_get (moves.numbers (fork_state self.now)) index ≡ Some result }
    {
        if self.held { 1 } else { 0 }
    }

    /// Lends the fork where it is free and the value is 1, has it back where the value is 0; it answers 1 where it did.
    fn lend(&mut self, value: u32) -> u32
        ensures outcome { record { kept = (fork_state self.new).kept; reply = result } ≡
            serve kind.Fork 0 (fork_state self.old).kept value }
        ensures small { result < VALUE_LIMIT }
    {
        match value {
            1 if !self.held => {
                self.held = true;
                1
            }
            0 => {
                self.held = false;
                1
            }
            _ => 0,
        }
    }
}
