//! Why an event did not happen.

use std::alloc::{AllocError, AllocFailed};
use thiserror::Error;

/// Why an event was not applied.
#[derive(Debug, Drop, PartialEq, Eq, Error)]
pub enum CoreError {
    /// The first rule of the event that fails, by its number.
    #[error("rule {rule} denies the event")]
    Denied { rule: u32 },
    /// Only a node that is made takes memory.
    #[error("no memory")]
    NoMemory,
}

impl From<AllocError> for CoreError {
    ghost use Rattle.std.specs.Prelude.{◌≡◌};
    ghost use Rattle.quiesce_core.specs.declared.error.CoreError.TheVariants.{NoMemory};

    ghost from_gives = { λ _ e. e ≡ NoMemory };

    fn from(_error: AllocError) -> CoreError {
        CoreError::NoMemory
    }
}

impl<T: Drop> From<AllocFailed<T>> for CoreError {
    ghost use Rattle.std.specs.Prelude.{◌≡◌};
    ghost use Rattle.quiesce_core.specs.declared.error.CoreError.TheVariants.{NoMemory};

    ghost from_gives = { λ _ e. e ≡ NoMemory };

    fn from(_failed: AllocFailed<T>) -> CoreError {
        CoreError::NoMemory
    }
}
