//! Why a description can't be elaborated.

ghost use Rattle.std.specs.Prelude.{◌≡◌};

use config_graph::Text;
use darwin_lexer::At;
use std::alloc::{AllocError, AllocFailed};

/// A fault of an elaboration. The first text is the path of the composite instance in which the fault
/// stands, and the place is that of the statement or declaration; in `NoTop` and `TopIsKind` it is the
/// component's name; in `TwoInstances` and `TooDeep` the path is that of the instance, in `DependsCycle`
/// that of the node. A number above 4,294,967,295 is carried as that.
#[derive(Drop)]
pub enum ElabError {
    /// No component has the name.
    NoTop(Text),
    /// The top component has `wanted` parameters.
    TopArgs { wanted: u32, given: u32 },
    /// The exact result of an operation is no integer of the language, or an argument of a node kind lies
    /// outside its range.
    OutOfRange(Text, At),
    /// A division by 0.
    ZeroDivisor(Text, At),
    /// An index isn't from 0 to the size less 1.
    BadIndex(Text, At),
    /// Two reached entries make the instance of this path.
    TwoInstances(Text),
    /// In the instance the end is bound to two different ends.
    BoundTwice(Text, Text),
    /// The two ends can't be bound to one another.
    BadBinding(Text, At),
    /// The notes of the two ports differ.
    Annotation(Text, At),
    /// The instance of this path is nested too deep.
    TooDeep(Text),
    /// More turns and entries are reached than may be.
    TooMany,
    /// The node depends on itself.
    DependsCycle(Text),
    /// The top component is primitive.
    TopIsKind(Text),
    NoMemory,
}

impl From<AllocError> for ElabError {
    ghost use Rattle.elaborator.specs.declared.error.ElabError.TheVariants.{NoMemory};

    ghost from_gives = { λ _ e. e ≡ NoMemory };

    fn from(_error: AllocError) -> ElabError {
        ElabError::NoMemory
    }
}

impl<T: Drop> From<AllocFailed<T>> for ElabError {
    ghost use Rattle.elaborator.specs.declared.error.ElabError.TheVariants.{NoMemory};

    ghost from_gives = { λ _ e. e ≡ NoMemory };

    fn from(_failed: AllocFailed<T>) -> ElabError {
        ElabError::NoMemory
    }
}
