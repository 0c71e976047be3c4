//! Events of nodes in 16 bytes, which contracts see as events.

ghost use Rattle.std.specs.Prelude.{◌≡◌};
ghost use Rattle.quiesce_core.specs.NodeEvents.{as_event};

use crate::event::Event;
use std::marker::Model;

/// What an event tells beside who did it.
#[derive(Clone, Copy)]
pub struct Message {
    pub port: u32,
    pub serial: u32,
    pub value: u32,
}

/// What a node does.
#[derive(Clone, Copy)]
pub enum Deed {
    Begin(Message),
    Call(Message),
    Take(Message),
    Give(Message),
    End(Message),
    More(Message),
    Ask(Message),
    Hear(Message),
    Miss { port: u32 },
}

/// An event of a node's own. Contracts see the event.
#[derive(Clone, Copy)]
pub struct NodeEvent {
    deed: Deed,
}

impl Model for NodeEvent {
    ghost use Rattle.quiesce_core.specs.declared.event.Event.{Event};
    ghost use Rattle.quiesce_core.specs.contracts.event.Event.{the_row};

    ghost Value = { Event };

    ghost coded = { the_row.coded };

    ghost use Rattle.std.proofs.Common.{ap};
    ghost use Rattle.quiesce_core.specs.NodeEvents.{as_event, as_deed, deed_stays};

    ghost view = { λ e. as_event e.deed };

    ghost inverse = { λ e. record { deed = as_deed e } };

    ghost inverse_ok = { λ a h. ap (λ d. record { deed = d }) (deed_stays a.deed) };
}

const _: () = prove!(size_of::<NodeEvent>() == 16);

const _: () = prove!(size_of::<Deed>() == 16);

const _: () = prove!(size_of::<Event>() == 56);

macro_rules! event {
    ($name:ident, $message:ident) => {
        Event::$name {
            port: $message.port,
            serial: $message.serial,
            value: $message.value,
        }
    };
}

impl NodeEvent {
    /// The event of a deed.
    pub fn of(deed: Deed) -> NodeEvent
        ensures { result ≡ as_event deed }
    {
        NodeEvent { deed }
    }

    /// What was done.
    pub fn deed(self) -> Deed
        ensures { as_event result ≡ self }
    {
        self.deed
    }

    /// The same as an event among all.
    pub fn event(self) -> Event
        ensures { result ≡ self }
    {
        match self.deed {
            Deed::Begin(message) => event!(Begin, message),
            Deed::Call(message) => event!(Call, message),
            Deed::Take(message) => event!(Take, message),
            Deed::Give(message) => event!(Give, message),
            Deed::End(message) => event!(End, message),
            Deed::More(message) => event!(More, message),
            Deed::Ask(message) => event!(Ask, message),
            Deed::Hear(message) => event!(Hear, message),
            Deed::Miss { port } => Event::Miss { port },
        }
    }
}
