//! Why a line, or a whole text, is no script or no event file.

ghost use Rattle.std.specs.Prelude.{◌≡◌};
ghost use Rattle.change_script.specs.Faults.{both, fault_at};

use std::alloc::{AllocError, AllocFailed};

/// What is wrong with a line by itself.
#[derive(Clone, Copy)]
pub enum LineFault {
    /// It has none of the forms.
    Bad,
    /// It has a form, and in it a number outside its limit.
    Big,
}

/// Why it isn't known what a line says.
#[derive(Clone, Copy)]
pub enum LineError {
    Fault(LineFault),
    NoMemory,
}

/// The first line at fault, by its number from 1, or what the whole text lacks.
#[derive(Drop)]
pub enum ScriptError {
    /// The line has none of the forms.
    BadLine(u32),
    /// No line says anything, or none starts.
    NoStart,
    /// The last statement isn't `end`.
    NoEnd,
    /// The line can't stand at its place among the others.
    Order(u32),
    /// The line has a form, and in it a number outside its limit.
    NumberTooBig(u32),
    /// This line is one statement too many.
    TooManyLines(u32),
    NoMemory,
}

/// Both values; or the fault of the form, wherever it stands, before that of the size.
pub fn both<A: Drop, B: Drop>(
    first: Result<A, LineFault>,
    second: Result<B, LineFault>,
) -> Result<(A, B), LineFault>
    ensures { result ≡ both first second }
{
    match (first, second) {
        (Ok(first), Ok(second)) => Ok((first, second)),
        (Err(LineFault::Bad), _) | (_, Err(LineFault::Bad)) => Err(LineFault::Bad),
        _ => Err(LineFault::Big),
    }
}

impl LineError {
    /// The refusal of the text that names this line.
    pub fn at(self, number: u32) -> ScriptError
        ensures { result ≡ fault_at number self }
    {
        match self {
            LineError::Fault(LineFault::Bad) => ScriptError::BadLine(number),
            LineError::Fault(LineFault::Big) => ScriptError::NumberTooBig(number),
            LineError::NoMemory => ScriptError::NoMemory,
        }
    }
}

impl From<LineFault> for LineError {
    ghost use Rattle.std.specs.Prelude.{◌≡◌};
    ghost use Rattle.change_script.specs.declared.error.LineError.TheVariants.{Fault};

    ghost from_gives = { λ fault error. error ≡ Fault fault };

    fn from(fault: LineFault) -> LineError {
        LineError::Fault(fault)
    }
}

impl From<AllocError> for LineError {
    ghost use Rattle.std.specs.Prelude.{◌≡◌};
    ghost use Rattle.change_script.specs.declared.error.LineError.TheVariants.{NoMemory};

    ghost from_gives = { λ _ error. error ≡ NoMemory };

    fn from(_error: AllocError) -> LineError {
        LineError::NoMemory
    }
}

impl From<AllocError> for ScriptError {
    ghost use Rattle.std.specs.Prelude.{◌≡◌};
    ghost use Rattle.change_script.specs.declared.error.ScriptError.TheVariants.{NoMemory};

    ghost from_gives = { λ _ e. e ≡ NoMemory };

    fn from(_error: AllocError) -> ScriptError {
        ScriptError::NoMemory
    }
}

impl<T: Drop> From<AllocFailed<T>> for ScriptError {
    ghost use Rattle.std.specs.Prelude.{◌≡◌};
    ghost use Rattle.change_script.specs.declared.error.ScriptError.TheVariants.{NoMemory};

    ghost from_gives = { λ _ e. e ≡ NoMemory };

    fn from(_failed: AllocFailed<T>) -> ScriptError {
        ScriptError::NoMemory
    }
}
