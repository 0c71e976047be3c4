//! What is wrong with a description.

ghost use Rattle.std.specs.Prelude.{◌≡◌};

use base::Text;
use std::alloc::{AllocError, AllocFailed};

/// A fault of a description. But for `TwoComponents`, the first name is that of the component in
/// which the fault stands. A number above 4,294,967,295 is carried as that.
#[derive(Drop)]
pub enum TypeError {
    /// Two components have the name.
    TwoComponents(Text),
    /// In the component two things of one class have the name.
    TwoNames(Text, Text),
    /// In the component the name stands for nothing.
    UnknownName(Text, Text),
    /// In the component an instance or array is of a component that there isn't.
    UnknownComponent(Text, Text),
    /// In the component an entry of the instance has `given` arguments, and its component `wanted` parameters.
    ArgCount {
        component: Text,
        name: Text,
        wanted: u32,
        given: u32,
    },
    /// The primitive component's name is no node kind.
    UnknownKind(Text),
    /// The primitive component isn't declared as its node kind is.
    KindPorts(Text),
    NoMemory,
}

impl From<AllocError> for TypeError {
    ghost use Rattle.darwin_types.specs.declared.error.TypeError.TheVariants.{NoMemory};

    ghost from_gives = { λ _ e. e ≡ NoMemory };

    fn from(_error: AllocError) -> TypeError {
        TypeError::NoMemory
    }
}

impl<T: Drop> From<AllocFailed<T>> for TypeError {
    ghost use Rattle.darwin_types.specs.declared.error.TypeError.TheVariants.{NoMemory};

    ghost from_gives = { λ _ e. e ≡ NoMemory };

    fn from(_failed: AllocFailed<T>) -> TypeError {
        TypeError::NoMemory
    }
}
