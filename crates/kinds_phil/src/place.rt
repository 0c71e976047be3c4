//! A place has two forks: it asks for the first, then for the other, and gives both back once it had both.

ghost use Rattle.std.specs.Prelude.{◌≡◌, ℕ, ◌<◌, false, IsSome, None};
ghost use Rattle.config_graph.specs.declared.kind.Kind.TheVariants as kind;
ghost use Rattle.component_trait.specs.Bounds.{FitsNext};
ghost use Rattle.component_trait.specs.Fold.{asked_by};
ghost use Rattle.component_trait.specs.Moves as moves;
ghost use Rattle.component_trait.specs.Serving.{WaitsForNoMore};
ghost use Rattle.component_trait.specs.States.{at_rest, nothing};
ghost use Rattle.component_trait.specs.Tables.{next_of};
ghost use Rattle.config_graph.specs.declared.TheConstants.{VALUE_LIMIT};
ghost use Rattle.component_trait.specs.declared.next.Next.TheVariants as next;

use component_trait::{Next, Serving, hand, services_are_bounded};

/// A place: which fork it takes first, the left one where this is 0, and its service.
#[derive(Drop)]
pub struct Place {
    first: u32,
    service: Option<Serving>,
    ghost first_small: { first < VALUE_LIMIT },
    ghost goes_on: { WaitsForNoMore service },
}

impl Place {
    ghost use Rattle.kinds_phil.specs.Nodes.{place_state};

    /// A place in no service. Its first fork is the left one where `first` is 0, else the right one.
    pub fn new(first: u32) -> Place
        requires { first < VALUE_LIMIT }
        ensures { place_state result ≡ at_rest kind.Place first nothing }
    {
        Place {
            first,
            service: None,
        }
    }

    /// The same place with another first fork.
    pub fn with_arg(self, first: u32) -> Place
        requires { first < VALUE_LIMIT }
        ensures { place_state result ≡ record (place_state self) { arg = first } }
    {
        Place {
            first,
            service: self.service,
        }
    }

    /// Its argument.
    pub fn arg(&self) -> u32
        ensures arg { result ≡ (place_state self.now).arg }
        ensures small { result < VALUE_LIMIT }
    {
        self.first
    }

    /// Takes a value up.
    pub fn serve(&mut self, value: u32)
        requires rests { (place_state self.old).service ≡ None }
        requires small { value < VALUE_LIMIT }
        ensures { place_state self.new ≡ moves.after_take (place_state self.old) value }
    {
        self.service = Some(Serving::of(value, 0));
    }

    /// What its service does next.
    pub fn next(&self) -> Next
        requires goes_on { IsSome (moves.next (place_state self.now)) }
        ensures next { moves.next (place_state self.now) ≡ Some result }
        ensures fits { FitsNext kind.Place result }
    {
        match &self.service {
            Some(service) => dine(self.first, service),
            None => unreachable!(),
        }
    }

    /// The call that its service made ended with this answer. A call that was missed is answered with 0.
    pub fn answered(&mut self, value: u32)
        requires asked { IsSome (asked_by (moves.next (place_state self.old))) }
        requires small { value < VALUE_LIMIT }
        ensures { place_state self.new ≡ moves.after_answer (place_state self.old) value }
    {
        services_are_bounded();
        hand(&mut self.service, value);
    }

    /// Its service gave its answer.
    pub fn given(&mut self)
        requires gave { ((v : ℕ) × (moves.next (place_state self.old) ≡ Some (next.Give v))) }
        ensures { place_state self.new ≡ moves.after_give (place_state self.old) }
    {
        self.service = None;
    }

    /// Whether it is in a service.
    pub fn in_service(&self) -> bool
        ensures { result ≡ moves.in_service (place_state self.now) }
    {
        self.service.is_some()
    }
}

/// What comes next where a place serves, by which fork is its first.
fn dine(first: u32, service: &Serving) -> Next
    requires { service.now.waits ≡ false }
    ensures next { next_of kind.Place first service.now.value service.now.reply service.now.answers ≡ result }
    ensures fits { FitsNext kind.Place result }
{
    let near = if first == 0 { 0 } else { 1 };
    let far = 1 - near;
    let Some(near_taken) = service.answer(0) else {
        return Next::ask(near, 1);
    };
    let Some(far_taken) = service.answer(1) else {
        return if near_taken == 1 {
            Next::ask(far, 1)
        } else {
            Next::Give(0)
        };
    };
    if service.answer(2).is_none() {
        return if far_taken == 1 {
            Next::ask(far, 0)
        } else {
            Next::ask(near, 0)
        };
    }
    if service.answer(3).is_none() {
        return if far_taken == 1 {
            Next::ask(near, 0)
        } else {
            Next::Give(0)
        };
    }
    Next::Give(1)
}
