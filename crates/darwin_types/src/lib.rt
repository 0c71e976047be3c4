//! The faults of a Darwin description: names that stand for nothing or for two things, arguments that
//! are too few or too many, and primitive components that are no node kind.
#![tactic(auto)]

mod checked;
mod checking;
mod declared;
mod directory;
mod entries;
mod error;
mod instances;
mod laws;
mod names;
mod naming;
mod primitive;
mod refusal;

pub use checked::Checked;
pub use checking::check;
pub use error::TypeError;
pub use laws::a_fault_or_none;
