//! What gates answer. Words are those of ports, in the one form that they have everywhere.

/// The answer to a request to begin a transaction of the node's own.
#[derive(Clone, Copy, PartialEq, Eq)]
pub enum BeginAnswer {
    /// It was begun, with this serial, at the node in the target's slot.
    Begun { serial: u32, target: u32 },
    /// The gate is closed.
    Closed { word: u64 },
    /// The port leads nowhere.
    Unlinked { word: u64 },
    /// Another changed the word meanwhile, and the gate is open: it may be tried again.
    Again { loaded: u64, found: u64 },
    /// The port has no further transaction: this was the last serial.
    Spent { serial: u32 },
}

/// The answer to a call that a service makes.
#[derive(Clone, Copy, PartialEq, Eq)]
pub enum CallAnswer {
    Called { serial: u32, target: u32 },
    /// The port leads nowhere, or has no further transaction: the call is missed.
    Missed { word: u64 },
}

/// The answer to a node that would take a request up.
#[derive(Clone, Copy, PartialEq, Eq)]
pub enum TakeAnswer {
    Taken {
        provide: u32,
        serial: u32,
        value: u32,
    },
    /// No request is asked of this node at the port.
    Stale {
        word: u64,
    },
}

/// What an owner sees at its port.
#[derive(Clone, Copy, PartialEq, Eq)]
pub enum SeeAnswer {
    Answer { value: u32 },
    /// An intermediate reply.
    More { value: u32 },
    /// The port is still asked.
    NotYet { word: u64 },
}

/// The answer to a service that waits for a further message.
#[derive(Clone, Copy, PartialEq, Eq)]
pub enum HearAnswer {
    Heard { value: u32 },
    /// The intermediate reply isn't answered yet.
    NotYet { word: u64 },
}
