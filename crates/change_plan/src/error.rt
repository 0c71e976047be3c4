//! Why there is no plan.

use config_graph::Text;
use std::alloc::{AllocError, AllocFailed};

/// The first move that can't be made, and in it the first fault; or else that too much would be made.
#[derive(Drop)]
pub enum PlanError {
    /// A move's source isn't the path of a node that is removed.
    NotRemoved(Text),
    /// A move's target isn't the path of a node that is created.
    NotCreated(Text),
    /// A move leads from a node to one of another kind.
    KindsDiffer(Text, Text),
    /// Two moves have this source, or this target.
    MovedTwice(Text),
    /// With the nodes that were made there would be too many.
    NodesFull { made: u32, wanted: u32 },
    /// With the ports that were made there would be too many.
    PortsFull { made: u32, wanted: u32 },
    /// Memory ran out. Nothing else is wrong.
    NoMemory,
}

impl From<AllocError> for PlanError {
    ghost use Rattle.std.specs.Prelude.{◌≡◌};
    ghost use Rattle.change_plan.specs.declared.error.PlanError.TheVariants.{NoMemory};

    ghost from_gives = { λ _ e. e ≡ NoMemory };

    fn from(_error: AllocError) -> PlanError {
        PlanError::NoMemory
    }
}

impl<T: Drop> From<AllocFailed<T>> for PlanError {
    ghost use Rattle.std.specs.Prelude.{◌≡◌};
    ghost use Rattle.change_plan.specs.declared.error.PlanError.TheVariants.{NoMemory};

    ghost from_gives = { λ _ e. e ≡ NoMemory };

    fn from(_failed: AllocFailed<T>) -> PlanError {
        PlanError::NoMemory
    }
}
