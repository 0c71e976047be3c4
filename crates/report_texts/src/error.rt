//! Why a text is no report.

use std::alloc::{AllocError, AllocFailed};

/// The first line at fault, by its number from 1, or that there is none and the text ends too soon.
#[derive(Drop)]
pub enum ReportFault {
    /// The line has none of the forms that may stand in its place. Lines behind `show` that are no sound graph's text
    /// are a fault of the `show` line. Bytes behind the line of the status are a fault of the line that they would be.
    BadLine(u32),
    /// The text ends before the end of the line of its status.
    Short,
    NoMemory,
}

impl From<AllocError> for ReportFault {
    ghost use Rattle.std.specs.Prelude.{◌≡◌};
    ghost use Rattle.report_texts.specs.declared.error.ReportFault.TheVariants.{NoMemory};

    ghost from_gives = { λ _ e. e ≡ NoMemory };

    fn from(_error: AllocError) -> ReportFault {
        ReportFault::NoMemory
    }
}

impl<T: Drop> From<AllocFailed<T>> for ReportFault {
    ghost use Rattle.std.specs.Prelude.{◌≡◌};
    ghost use Rattle.report_texts.specs.declared.error.ReportFault.TheVariants.{NoMemory};

    ghost from_gives = { λ _ e. e ≡ NoMemory };

    fn from(_failed: AllocFailed<T>) -> ReportFault {
        ReportFault::NoMemory
    }
}
