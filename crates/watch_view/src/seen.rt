//! What a look at the published graphs gives.

ghost use Rattle.std.specs.Prelude.{◌≡◌, IfOk};

use config_graph::{Graph, NoMemory};
use left_right::Absorb;
use std::alloc::AllocError;

/// How many graphs were published, and the last of them; where there is none, 0 and the empty graph.
#[derive(Drop)]
pub struct Seen {
    pub commits: u32,
    pub graph: Graph,
}

impl Seen {
    /// Another one alike.
    pub fn try_clone(&self) -> Result<Seen, NoMemory>
        ensures { IfOk result (λ s. s ≡ self.now) }
    {
        let graph = self.graph.try_clone()?;
        Ok(Seen {
            commits: self.commits,
            graph,
        })
    }
}

/// The copies hold what is seen and no list: an operation takes the place of what was there.
impl Absorb<Seen> for Seen {
    type State = Seen;

    ghost state = { λ s. s };

    ghost applied = { λ _ next. next };

    fn absorb_first(&mut self, operation: &Seen, _other: &Seen) -> Result<(), AllocError> {
        let next = operation.try_clone()?;
        *self = next;
        Ok(())
    }

    fn absorb_second(&mut self, operation: Seen, _other: &Seen) -> Result<(), Seen> {
        *self = operation;
        Ok(())
    }
}
