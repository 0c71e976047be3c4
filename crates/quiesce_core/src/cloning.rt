//! Copies of events.

ghost use Rattle.std.specs.Prelude.{◌≡◌, IfOk};

use crate::event::Event;
use config_graph::NoMemory;

/// Builds the event again, by its variant: of those whose parts are numbers in these fields, and of the one that has a
/// node.
macro_rules! built_again {
    ($event:expr; $($kind:ident { $($field:ident),* })*) => {
        match *$event {
            $(Event::$kind { $($field),* } => Event::$kind { $($field),* },)*
            Event::Make { slot, ref node, from } => Event::Make { slot, node: node.try_clone()?, from },
        }
    };
}

impl Event {
    /// Another event like this one. Only the node of a `Make` takes memory.
    pub fn try_clone(&self) -> Result<Event, NoMemory>
        ensures { IfOk result (λ event. event ≡ self.now) }
    {
        Ok(built_again! { self;
            Begin { port, serial, value }
            Call { port, serial, value }
            Take { port, serial, value }
            Give { port, serial, value }
            End { port, serial, value }
            More { port, serial, value }
            Ask { port, serial, value }
            Hear { port, serial, value }
            Miss { port }
            Close { port }
            Reopen { port }
            Link { port, node, provide }
            Unlink { port }
            Remove { node }
        })
    }
}
