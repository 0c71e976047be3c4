//! A map adds its argument to what it serves, passes it on, and gives the answer.

ghost use Rattle.std.specs.Prelude.{◌≡◌, ℕ, ◌<◌, false, IsSome, None};
ghost use Rattle.config_graph.specs.declared.kind.Kind.TheVariants as kind;
ghost use Rattle.component_trait.specs.Bounds.{FitsNext};
ghost use Rattle.component_trait.specs.Fold.{asked_by};
ghost use Rattle.component_trait.specs.Moves as moves;
ghost use Rattle.component_trait.specs.Serving.{WaitsForNoMore};
ghost use Rattle.component_trait.specs.States.{at_rest, nothing};
ghost use Rattle.component_trait.specs.Tables.{next_of};
ghost use Rattle.config_graph.specs.declared.TheConstants.{VALUE_LIMIT};
ghost use Rattle.component_trait.specs.declared.next.Next.TheVariants as next;

use component_trait::{Next, Serving, VALUE_LIMIT, hand, services_are_bounded};

/// A map: the number that it adds, and its service.
#[derive(Drop)]
pub struct Map {
    k: u32,
    service: Option<Serving>,
    ghost k_small: { k < VALUE_LIMIT },
    ghost goes_on: { WaitsForNoMore service },
}

impl Map {
    ghost use Rattle.kinds_flow.specs.Nodes.{map_state};

    /// A map that adds `k` modulo 2^24.
    pub fn new(k: u32) -> Map
        requires { k < VALUE_LIMIT }
        ensures { map_state result ≡ at_rest kind.Map k nothing }
    {
        Map { k, service: None }
    }

    /// The same map with another number to add.
    pub fn with_arg(self, k: u32) -> Map
        requires { k < VALUE_LIMIT }
        ensures { map_state result ≡ record (map_state self) { arg = k } }
    {
        Map {
            k,
            service: self.service,
        }
    }

    /// Its argument.
    pub fn arg(&self) -> u32
        ensures arg { result ≡ (map_state self.now).arg }
        ensures small { result < VALUE_LIMIT }
    {
        self.k
    }

    /// Takes a value up.
    pub fn serve(&mut self, value: u32)
        requires rests { (map_state self.old).service ≡ None }
        requires small { value < VALUE_LIMIT }
        ensures { map_state self.new ≡ moves.after_take (map_state self.old) value }
    {
        self.service = Some(Serving::of(value, 0));
    }

    /// What its service does next.
    pub fn next(&self) -> Next
        requires goes_on { IsSome (moves.next (map_state self.now)) }
        ensures next { moves.next (map_state self.now) ≡ Some result }
        ensures fits { FitsNext kind.Map result }
    {
        match &self.service {
            Some(service) => pass_on(self.k, service),
            None => unreachable!(),
        }
    }

    /// The call that its service made ended with this answer. A call that was missed is answered with 0.
    pub fn answered(&mut self, value: u32)
        requires asked { IsSome (asked_by (moves.next (map_state self.old))) }
        requires small { value < VALUE_LIMIT }
        ensures { map_state self.new ≡ moves.after_answer (map_state self.old) value }
    {
        services_are_bounded();
        hand(&mut self.service, value);
    }

    /// Its service gave its answer.
    pub fn given(&mut self)
        requires gave { ((v : ℕ) × (moves.next (map_state self.old) ≡ Some (next.Give v))) }
        ensures { map_state self.new ≡ moves.after_give (map_state self.old) }
    {
        self.service = None;
    }

    /// Whether it is in a service.
    pub fn in_service(&self) -> bool
        ensures { result ≡ moves.in_service (map_state self.now) }
    {
        self.service.is_some()
    }
}

/// What comes next where a map serves that adds k.
fn pass_on(k: u32, service: &Serving) -> Next
    requires goes_on { service.now.waits ≡ false }
    requires small { k < VALUE_LIMIT }
    ensures next { next_of kind.Map k service.now.value service.now.reply service.now.answers ≡ result }
    ensures fits { FitsNext kind.Map result }
{
    match service.answer(0) {
        None => Next::ask(0, (service.value() + k) % VALUE_LIMIT),
        Some(answer) => Next::Give(answer),
    }
}
