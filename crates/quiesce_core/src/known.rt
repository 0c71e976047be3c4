//! What a node knows of itself, from its own events and from what it has seen at its ports.

/// The service that a node is in, with the value of the last message that it heard.
#[derive(Clone, Copy)]
pub struct Served {
    pub port: u32,
    pub serial: u32,
    pub value: u32,
    pub calls: u32,
    pub mores: u32,
    pub heard: bool,
}

/// How far a port of its own has come.
#[derive(Clone, Copy)]
pub struct PortKnown {
    pub idle: bool,
    pub serial: u32,
    pub consequent: bool,
    /// The value of the last reply that was seen at the port and that nothing was sent or ended upon yet.
    pub seen: Option<u32>,
    /// Whether that is an intermediate reply.
    pub more: bool,
}

/// What a node services, and its ports by the indexes of its requirements. No kind has more than two.
#[derive(Clone, Copy)]
pub struct Known {
    pub service: Option<Served>,
    pub ports: [PortKnown; 2],
}
