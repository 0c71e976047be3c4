//! The faults of elaboration that one instance shows.

ghost use Rattle.std.specs.Prelude.{◌≡◌};

use darwin_lexer::At;
use std::alloc::{AllocError, AllocFailed};

/// A fault that an instance shows, with the place of the statement or declaration in which it stands.
#[derive(Clone, Copy)]
pub enum Fault {
    /// The exact result of an operation is no integer of the language.
    OutOfRange(At),
    /// A division by 0.
    ZeroDivisor(At),
    /// An index of an array of instances isn't from 0 to the size less 1.
    BadIndex(At),
}

/// Why an instance can't be walked.
#[derive(Clone, Copy)]
pub enum WalkError {
    /// The instance shows this fault.
    Fault(Fault),
    /// The instance takes more turns and reaches more entries than there is room for.
    TooMany,
    NoMemory,
}

impl From<AllocError> for WalkError {
    ghost use Rattle.darwin_walk.specs.declared.fault.WalkError.TheVariants.{NoMemory};

    ghost from_gives = { λ _ e. e ≡ NoMemory };

    fn from(_error: AllocError) -> WalkError {
        WalkError::NoMemory
    }
}

impl<T: Drop> From<AllocFailed<T>> for WalkError {
    ghost use Rattle.darwin_walk.specs.declared.fault.WalkError.TheVariants.{NoMemory};

    ghost from_gives = { λ _ e. e ≡ NoMemory };

    fn from(_failed: AllocFailed<T>) -> WalkError {
        WalkError::NoMemory
    }
}
