//! The service that a node is in.

ghost use Rattle.std.specs.Prelude.{◌≡◌, ◌<◌, [], false, length, slice_get, IfSome, IsSome, Some, option_map};
ghost use Rattle.std.specs.Option.{option_map_or};
ghost use Rattle.component_trait.specs.States.{Service};
ghost use Rattle.component_trait.specs.Moves.{with_answer, with_wait};
ghost use Rattle.component_trait.specs.Serving.{WaitsForNoMore};
ghost use Rattle.config_graph.specs.declared.TheConstants.{VALUE_LIMIT};

use crate::VALUE_LIMIT;
use std::marker::Model;

/// No service of any kind has more answers and further messages than these.
pub const MAX_ANSWERS: usize = 4;

/// A service: the value taken up, the reply where serving decided on it, the answers and further messages since, and
/// whether it waits for a further message. Contracts see all of these.
#[derive(Drop)]
pub struct Serving {
    value: u32,
    reply: u32,
    answers: [u32; MAX_ANSWERS],
    count: usize,
    waits: bool,
}

impl Model for Serving {
    ghost use Rattle.std.specs.Prelude.{take};
    ghost use Rattle.component_trait.specs.States.{Service};
    ghost use Rattle.component_trait.specs.Serving.{IsWithin};

    ghost Value = { Service };

    ghost view = { λ s. record { value = s.value; reply = s.reply; answers = take s.count s.answers; waits = s.waits } };

    ghost invariant = { λ s. IsWithin s.value s.reply s.count s.answers s.waits };
}

impl Serving {
    /// A service that took this value up, with the reply that serving decided on.
    pub fn of(value: u32, reply: u32) -> Serving
        requires value { value < VALUE_LIMIT }
        requires reply { reply < VALUE_LIMIT }
        ensures { result ≡ record { value = value; reply = reply; answers = []; waits = false } }
    {
        Serving {
            value,
            reply,
            answers: [0; MAX_ANSWERS],
            count: 0,
            waits: false,
        }
    }

    pub fn value(&self) -> u32
        ensures value { result ≡ self.now.value }
        ensures small { result < VALUE_LIMIT }
    {
        self.value
    }

    pub fn reply(&self) -> u32
        ensures reply { result ≡ self.now.reply }
        ensures small { result < VALUE_LIMIT }
    {
        self.reply
    }

    pub fn waits(&self) -> bool
        ensures { result ≡ self.now.waits }
    {
        self.waits
    }

    /// The answer or further message at a place, if it has come.
    pub fn answer(&self, index: usize) -> Option<u32>
        ensures answer { result ≡ slice_get self.now.answers index }
        ensures small { IfSome result (λ a. a < VALUE_LIMIT) }
    {
        if index < self.count {
            Some(self.answers[index])
        } else {
            None
        }
    }

    fn hand(&mut self, answer: u32)
        requires few { self.old.waits ≡ false → length self.old.answers < MAX_ANSWERS }
        requires small { answer < VALUE_LIMIT }
        ensures { self.new ≡ with_answer answer self.old }
    {
        self.answers[self.count] = answer;
        self.count += 1;
        self.waits = false;
    }

    fn wait(&mut self)
        requires few { length self.old.answers < MAX_ANSWERS }
        ensures { self.new ≡ with_wait self.old }
    {
        self.waits = true;
    }
}

/// The reply that serving decided on, of the service that there is.
pub fn reply(service: &Option<Serving>) -> u32
    requires { IsSome service.now }
    ensures reply { option_map (λ (w : Service). w.reply) service.now ≡ Some result }
    ensures small { result < VALUE_LIMIT }
{
    match service {
        Some(service) => service.reply(),
        None => unreachable!(),
    }
}

/// Hands an answer or a further message to the service that there is.
pub fn hand(service: &mut Option<Serving>, answer: u32)
    requires few { (w : Service) → service.old ≡ Some w → w.waits ≡ false → length w.answers < MAX_ANSWERS }
    requires small { answer < VALUE_LIMIT }
    ensures service { service.new ≡ option_map (with_answer answer) service.old }
    ensures goes_on { WaitsForNoMore service.new }
{
    if let Some(service) = service {
        service.hand(answer);
    }
}

/// The service that there is waits for a further message from now on.
pub fn wait(service: &mut Option<Serving>)
    requires few { (w : Service) → service.old ≡ Some w → length w.answers < MAX_ANSWERS }
    ensures { service.new ≡ option_map with_wait service.old }
{
    if let Some(service) = service {
        service.wait();
    }
}

/// Whether there is a service and it waits for a further message.
pub fn waits(service: &Option<Serving>) -> bool
    ensures { result ≡ option_map_or (λ (w : Service). w.waits) service.now false }
{
    match service {
        Some(service) => service.waits(),
        None => false,
    }
}
