//! What is said in a session, and what is answered.

ghost use Rattle.std.specs.Prelude.{◌≡◌};
ghost use Rattle.change_apply.specs.Applied.{status_of};

/// What a line says, or the end of the input.
#[derive(Clone, Copy, PartialEq, Eq)]
pub enum Said {
    /// A transaction is under way at the port that its owner began by itself.
    Busy { port: u32 },
    /// The port's gate is closed.
    Closed { port: u32 },
    /// None is under way any more.
    Idle { port: u32 },
    /// A turn of the clock.
    Round,
    Go,
    Stop,
    /// The input is at its end.
    Over,
    /// It can't be read on.
    Broken,
    /// A blank line or a comment.
    Silent,
    /// A line of no form.
    Senseless,
}

/// Where a session is.
#[derive(Clone, Copy, PartialEq, Eq)]
pub enum Phase {
    /// Some port isn't drained.
    Waiting,
    /// All are.
    Ready,
    /// The change was made.
    Committed,
    /// It wasn't.
    Left,
}

/// What is answered, beside the lines of the history.
#[derive(Clone, Copy, PartialEq, Eq)]
pub enum Answer {
    /// Nothing.
    Waits,
    /// Behind the lines: `ready`.
    Ready,
    Committed,
    GivenUp,
    /// Before the lines: `denied`, the line's number and this rule.
    Denied { rule: u32 },
    /// Before the lines: `bad` and the line's number.
    Bad,
    /// Before the lines: `read fault -`.
    Unread,
}

/// How a session with a reader and a sink ended.
#[derive(Clone, Copy, PartialEq, Eq)]
pub enum Ending {
    Committed,
    GivenUp,
    Denied,
    Bad,
    /// The input couldn't be read on.
    Unread,
    /// The sink failed.
    Unwritten,
    NoMemory,
}

impl Ending {
    /// The exit status of the command.
    pub fn status(self) -> u8
        ensures { result ≡ status_of self }
    {
        match self {
            Ending::Committed => 0,
            Ending::Bad => 3,
            Ending::Unread => 4,
            Ending::Unwritten => 5,
            Ending::NoMemory => 6,
            Ending::GivenUp => 7,
            Ending::Denied => 9,
        }
    }
}
