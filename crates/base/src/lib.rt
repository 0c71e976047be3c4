//! What every part stands on: texts and lists as contracts see them, want of memory, and what an answer owes.
#![tactic(auto)]

mod list;
mod pair_laws;
mod text;

pub use list::List;
pub use pair_laws::pairs_stay_paired;
pub use text::Text;

/// Memory ran out. Nothing else is wrong: what was lent is as before, and what was handed over is gone, unless the
/// call says otherwise.
pub type NoMemory = std::alloc::AllocError;
