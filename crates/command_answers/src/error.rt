//! Why a description can't be used.

ghost use Rattle.std.specs.Prelude.{◌≡◌};
ghost use Rattle.command_answers.specs.DescriptionFaults.{is_no_memory};

use change_plan::PlanError;
use darwin_lexer::{At, LexError};
use darwin_types::TypeError;
use elaborator::ElabError;
use std::alloc::AllocError;

/// Why a description can't be used.
#[derive(Drop)]
pub enum DescriptionFault {
    NoMemory,
    Lex(LexError),
    /// The token at this place can't stand there.
    Expected(At),
    /// The token at this place opens one level of nesting too many.
    TooNested(At),
    Check(TypeError),
    Elaborate(ElabError),
    Plan(PlanError),
}

impl DescriptionFault {
    /// Whether it is want of memory, and no fault of the description.
    pub fn is_no_memory(&self) -> bool
        ensures { result ≡ is_no_memory self.now }
    {
        match self {
            DescriptionFault::NoMemory => true,
            DescriptionFault::Lex(fault) => matches!(fault, LexError::NoMemory),
            DescriptionFault::Expected(_) | DescriptionFault::TooNested(_) => false,
            DescriptionFault::Check(fault) => matches!(fault, TypeError::NoMemory),
            DescriptionFault::Elaborate(fault) => matches!(fault, ElabError::NoMemory),
            DescriptionFault::Plan(fault) => matches!(fault, PlanError::NoMemory),
        }
    }
}

impl From<AllocError> for DescriptionFault {
    ghost use Rattle.std.specs.Prelude.{◌≡◌};
    ghost use Rattle.command_answers.specs.declared.error.DescriptionFault.TheVariants.{NoMemory};

    ghost from_gives = { λ _ fault. fault ≡ NoMemory };

    fn from(_error: AllocError) -> DescriptionFault {
        DescriptionFault::NoMemory
    }
}

impl From<LexError> for DescriptionFault {
    ghost use Rattle.std.specs.Prelude.{◌≡◌};
    ghost use Rattle.command_answers.specs.declared.error.DescriptionFault.TheVariants.{Lex};

    ghost from_gives = { λ error fault. fault ≡ Lex error };

    fn from(error: LexError) -> DescriptionFault {
        DescriptionFault::Lex(error)
    }
}

impl From<TypeError> for DescriptionFault {
    ghost use Rattle.std.specs.Prelude.{◌≡◌};
    ghost use Rattle.command_answers.specs.declared.error.DescriptionFault.TheVariants.{Check};

    ghost from_gives = { λ error fault. fault ≡ Check error };

    fn from(error: TypeError) -> DescriptionFault {
        DescriptionFault::Check(error)
    }
}

impl From<ElabError> for DescriptionFault {
    ghost use Rattle.std.specs.Prelude.{◌≡◌};
    ghost use Rattle.command_answers.specs.declared.error.DescriptionFault.TheVariants.{Elaborate};

    ghost from_gives = { λ error fault. fault ≡ Elaborate error };

    fn from(error: ElabError) -> DescriptionFault {
        DescriptionFault::Elaborate(error)
    }
}

impl From<PlanError> for DescriptionFault {
    ghost use Rattle.std.specs.Prelude.{◌≡◌};
    ghost use Rattle.command_answers.specs.declared.error.DescriptionFault.TheVariants.{Plan};

    ghost from_gives = { λ error fault. fault ≡ Plan error };

    fn from(error: PlanError) -> DescriptionFault {
        DescriptionFault::Plan(error)
    }
}
