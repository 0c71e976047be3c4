//! The first words of the lines of an event file.

ghost use Rattle.std.specs.Prelude.{◌≡◌};
ghost use Rattle.change_script.specs.EventLines.{owner_bytes, owner_event, single_bytes, single_event, target_bytes, target_event, event_verb_bytes, event_verb_named};

use crate::event_lines::Triple;
use quiesce_core::{Deed, Event, Message, NodeEvent};

/// A step of a transaction that the owner of its port makes: PORT SERIAL VALUE follow.
#[derive(Clone, Copy)]
pub enum OwnerStep {
    Begin,
    Call,
    Ask,
    End,
}

/// A step of a transaction that the target of its port makes: PORT SERIAL VALUE follow.
#[derive(Clone, Copy)]
pub enum TargetStep {
    Take,
    More,
    Hear,
    Give,
}

/// An event of one port or slot.
#[derive(Clone, Copy)]
pub enum Single {
    Miss,
    Close,
    Reopen,
    Unlink,
    Remove,
}

#[derive(Clone, Copy)]
pub enum EventVerb {
    Start,
    Owner(OwnerStep),
    Target(TargetStep),
    Single(Single),
    Link,
    Make,
}

const EVENT_VERBS: [EventVerb; 16] = [
    EventVerb::Start,
    EventVerb::Owner(OwnerStep::Begin),
    EventVerb::Owner(OwnerStep::Call),
    EventVerb::Owner(OwnerStep::Ask),
    EventVerb::Owner(OwnerStep::End),
    EventVerb::Target(TargetStep::Take),
    EventVerb::Target(TargetStep::More),
    EventVerb::Target(TargetStep::Hear),
    EventVerb::Target(TargetStep::Give),
    EventVerb::Single(Single::Miss),
    EventVerb::Single(Single::Close),
    EventVerb::Single(Single::Reopen),
    EventVerb::Single(Single::Unlink),
    EventVerb::Single(Single::Remove),
    EventVerb::Link,
    EventVerb::Make,
];

/// The verb of a line that begins with this word.
pub fn event_verb_named(name: &[u8]) -> Option<EventVerb>
    ensures { result ≡ event_verb_named name.now }
{
    EVENT_VERBS
        .iter()
        .copied()
        .find(|verb| verb.bytes() == name)
}

impl EventVerb {
    fn bytes(self) -> &'static [u8]
        ensures { result.now ≡ event_verb_bytes self }
    {
        match self {
            EventVerb::Start => b"start",
            EventVerb::Owner(step) => step.bytes(),
            EventVerb::Target(step) => step.bytes(),
            EventVerb::Single(single) => single.bytes(),
            EventVerb::Link => b"link",
            EventVerb::Make => b"make",
        }
    }
}

impl OwnerStep {
    fn bytes(self) -> &'static [u8]
        ensures { result.now ≡ owner_bytes self }
    {
        match self {
            OwnerStep::Begin => b"begin",
            OwnerStep::Call => b"call",
            OwnerStep::Ask => b"ask",
            OwnerStep::End => b"end",
        }
    }

    /// The event of this port, serial and value.
    pub fn event(self, numbers: Triple) -> NodeEvent
        ensures { result ≡ owner_event self numbers }
    {
        let message = Message {
            port: numbers.first,
            serial: numbers.second,
            value: numbers.third,
        };
        NodeEvent::of(match self {
            OwnerStep::Begin => Deed::Begin(message),
            OwnerStep::Call => Deed::Call(message),
            OwnerStep::Ask => Deed::Ask(message),
            OwnerStep::End => Deed::End(message),
        })
    }
}

impl TargetStep {
    fn bytes(self) -> &'static [u8]
        ensures { result.now ≡ target_bytes self }
    {
        match self {
            TargetStep::Take => b"take",
            TargetStep::More => b"more",
            TargetStep::Hear => b"hear",
            TargetStep::Give => b"give",
        }
    }

    /// The event of this port, serial and value.
    pub fn event(self, numbers: Triple) -> NodeEvent
        ensures { result ≡ target_event self numbers }
    {
        let message = Message {
            port: numbers.first,
            serial: numbers.second,
            value: numbers.third,
        };
        NodeEvent::of(match self {
            TargetStep::Take => Deed::Take(message),
            TargetStep::More => Deed::More(message),
            TargetStep::Hear => Deed::Hear(message),
            TargetStep::Give => Deed::Give(message),
        })
    }
}

impl Single {
    fn bytes(self) -> &'static [u8]
        ensures { result.now ≡ single_bytes self }
    {
        match self {
            Single::Miss => b"miss",
            Single::Close => b"close",
            Single::Reopen => b"reopen",
            Single::Unlink => b"unlink",
            Single::Remove => b"remove",
        }
    }

    /// The event at this port or slot.
    pub fn event(self, at: u32) -> Event
        ensures { result ≡ single_event self at }
    {
        match self {
            Single::Miss => Event::Miss { port: at },
            Single::Close => Event::Close { port: at },
            Single::Reopen => Event::Reopen { port: at },
            Single::Unlink => Event::Unlink { port: at },
            Single::Remove => Event::Remove { node: at },
        }
    }
}
