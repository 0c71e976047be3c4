//! An adder sends the value that it serves back and gives its sum with the further message.

ghost use Rattle.std.specs.Prelude.{◌≡◌, ℕ, ◌<◌, false, true, IsSome, None};
ghost use Rattle.config_graph.specs.declared.kind.Kind.TheVariants as kind;
ghost use Rattle.component_trait.specs.Bounds.{FitsNext};
ghost use Rattle.component_trait.specs.Moves as moves;
ghost use Rattle.component_trait.specs.States.{at_rest, nothing};
ghost use Rattle.component_trait.specs.Tables.{next_of};
ghost use Rattle.config_graph.specs.declared.TheConstants.{VALUE_LIMIT};
ghost use Rattle.component_trait.specs.declared.next.Next.TheVariants as next;

use component_trait::{Next, Serving, VALUE_LIMIT, hand, services_are_bounded, wait, waits};

/// An adder: its service.
#[derive(Drop)]
pub struct Adder {
    service: Option<Serving>,
}

impl Adder {
    ghost use Rattle.kinds_flow.specs.Nodes.{adder_state};

    /// An adder in no service.
    pub fn new() -> Adder
        ensures { adder_state result ≡ at_rest kind.Adder 0 nothing }
    {
        Adder { service: None }
    }

    /// Takes a value up.
    pub fn serve(&mut self, value: u32)
        requires rests { (adder_state self.old).service ≡ None }
        requires small { value < VALUE_LIMIT }
        ensures { adder_state self.new ≡ moves.after_take (adder_state self.old) value }
    {
        self.service = Some(Serving::of(value, 0));
    }

    /// What its service does next.
    pub fn next(&self) -> Next
        requires goes_on { IsSome (moves.next (adder_state self.now)) }
        ensures next { moves.next (adder_state self.now) ≡ Some result }
        ensures fits { FitsNext kind.Adder result }
    {
        match &self.service {
            Some(service) => add_up(service),
            None => unreachable!(),
        }
    }

    /// Its service sent its intermediate reply.
    pub fn more_given(&mut self)
        requires sent { ((v : ℕ) × (moves.next (adder_state self.old) ≡ Some (next.More v))) }
        ensures { adder_state self.new ≡ moves.after_more (adder_state self.old) }
    {
        services_are_bounded();
        wait(&mut self.service);
    }

    /// Whether its service waits for a further message.
    pub fn waits(&self) -> bool
        ensures { result ≡ moves.waits (adder_state self.now) }
    {
        waits(&self.service)
    }

    /// The further message came.
    pub fn heard(&mut self, value: u32)
        requires waits { moves.waits (adder_state self.old) ≡ true }
        requires small { value < VALUE_LIMIT }
        ensures { adder_state self.new ≡ moves.after_answer (adder_state self.old) value }
    {
        hand(&mut self.service, value);
    }

    /// Its service gave its answer.
    pub fn given(&mut self)
        requires gave { ((v : ℕ) × (moves.next (adder_state self.old) ≡ Some (next.Give v))) }
        ensures { adder_state self.new ≡ moves.after_give (adder_state self.old) }
    {
        self.service = None;
    }

    /// Whether it is in a service.
    pub fn in_service(&self) -> bool
        ensures { result ≡ moves.in_service (adder_state self.now) }
    {
        self.service.is_some()
    }
}

/// What comes next where an adder serves.
fn add_up(service: &Serving) -> Next
    requires { service.now.waits ≡ false }
    ensures next { next_of kind.Adder 0 service.now.value service.now.reply service.now.answers ≡ result }
    ensures fits { FitsNext kind.Adder result }
{
    match service.answer(0) {
        None => Next::More(service.value()),
        Some(further) => Next::Give((service.value() + further) % VALUE_LIMIT),
    }
}
