//! What a node asks for, and what its service does next.

ghost use Rattle.std.specs.Prelude.{◌≡◌};
ghost use Rattle.component_trait.specs.declared.next.Next.TheVariants as next;

/// A request: the place of a requirement among those of its kind, from 0 on, and a value below 2^24.
#[derive(Clone, Copy, PartialEq, Eq)]
pub struct Ask {
    pub require: u32,
    pub value: u32,
}

/// What a service does next: it asks at a requirement, sends an intermediate reply of a value, or gives its answer.
/// Values are below 2^24.
#[derive(Clone, Copy)]
pub enum Next {
    Ask(Ask),
    More(u32),
    Give(u32),
}

impl Next {
    /// A request of this value at this requirement.
    pub fn ask(require: u32, value: u32) -> Next
        ensures { result ≡ next.Ask (record { require = require; value = value }) }
    {
        Next::Ask(Ask { require, value })
    }
}
