//! What can happen in a system.

use config_graph::Node;

/// An event, done by a port's owner (`Begin`, `Call`, `Miss`, `Ask`, `End`), by its target (`Take`, `Give`, `More`,
/// `Hear`), or by the change (all others).
#[derive(Drop)]
pub enum Event {
    /// The owner begins a transaction of its own, a root, with a request of this value.
    Begin {
        port: u32,
        serial: u32,
        value: u32,
    },
    /// The owner begins a consequent transaction for the service that it is in.
    Call {
        port: u32,
        serial: u32,
        value: u32,
    },
    /// The target takes the request up and serves it.
    Take {
        port: u32,
        serial: u32,
        value: u32,
    },
    /// The target answers, and so ends its service.
    Give {
        port: u32,
        serial: u32,
        value: u32,
    },
    /// The owner has its answer: the transaction ends.
    End {
        port: u32,
        serial: u32,
        value: u32,
    },
    /// The target sends an intermediate reply and waits for a further message.
    More {
        port: u32,
        serial: u32,
        value: u32,
    },
    /// The owner sends the further message.
    Ask {
        port: u32,
        serial: u32,
        value: u32,
    },
    /// The target hears the further message.
    Hear {
        port: u32,
        serial: u32,
        value: u32,
    },
    /// The owner's service counts a call that isn't made, since the port is unlinked or its transactions are spent.
    Miss {
        port: u32,
    },
    /// No transaction of its own may be begun at the port from now on.
    Close {
        port: u32,
    },
    Reopen {
        port: u32,
    },
    /// A node comes to be in the next slot, and may take the state of a removed one over.
    Make {
        slot: u32,
        node: Node,
        from: Option<u32>,
    },
    Link {
        port: u32,
        node: u32,
        provide: u32,
    },
    Unlink {
        port: u32,
    },
    Remove {
        node: u32,
    },
}
