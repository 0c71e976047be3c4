//! Where files come from and where text goes.
//!
//! A [`Shelf`] gives files by name, a [`Sink`] takes bytes. [`MemShelf`] and [`MemSink`] are values in
//! memory, whose contracts say all that they do. [`FileShelf`] and [`OutSink`] are the edge to the
//! system: what a real file holds and what standard output shows, no contract can say.
//!
//! Code that is generic over both proves its own promises from the two traits alone. Where it hands a
//! fault on it says so by their ghost members:
//!
//! - it failed to read exactly where `H.failed shelf.new ≡ H.failed shelf.old ++ name ∷ []`, and
//!   otherwise the list is as it was;
//! - it failed to write only where `Rose (K.faults sink.old) (K.faults sink.new)`, and otherwise the
//!   count is as it was;
//! - what it wrote is `K.taken sink.new ≡ with_bytes (K.taken sink.old) text`, under
//!   `IfSome (H.files shelf.old) (λ files. ..)` where the text depends on what the files hold.
//!
//! A function that writes once needs no proof file for these. One that writes in several calls joins what went
//! out by `append_assoc`.
#![tactic(auto)]

mod file_shelf;
mod mem_shelf;
mod mem_sink;
mod out_sink;
mod shelf;
mod sink;

pub use base::NoMemory;
pub use file_shelf::{FileShelf, answer_of};
pub use mem_shelf::MemShelf;
pub use mem_sink::MemSink;
pub use out_sink::OutSink;
pub use shelf::{Shelf, ShelfError};
pub use sink::{Sink, SinkFailed, Stopped, write_all};
