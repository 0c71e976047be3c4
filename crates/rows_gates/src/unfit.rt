//! Why a call that tests what it asks does nothing.

use config_graph::NoMemory;
use thiserror::Error;

/// What the call asks doesn't hold. A call that takes one step did nothing; one of several stopped before that step.
#[derive(Clone, Copy, Debug, PartialEq, Eq, Error)]
#[error("what the call asks doesn't hold")]
pub struct Unfit;

/// Why a system wasn't made.
#[derive(Debug, Drop, PartialEq, Eq, Error)]
pub enum Unmade {
    #[error("no memory")]
    NoMemory,
    /// There is no room for its nodes.
    #[error("what a call asks doesn't hold")]
    Unfit,
}

impl From<NoMemory> for Unmade {
    fn from(_error: NoMemory) -> Unmade {
        Unmade::NoMemory
    }
}

impl From<Unfit> for Unmade {
    fn from(_unfit: Unfit) -> Unmade {
        Unmade::Unfit
    }
}
