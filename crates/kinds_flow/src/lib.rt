//! The kinds of flows and of banks: source, map, buffer and sink, teller, branch and account, asker and adder.
#![tactic(auto)]

mod account;
mod adder;
mod asker;
mod branch;
mod buffer;
mod map;
mod sink;
mod source;
mod teller;

pub use account::Account;
pub use adder::Adder;
pub use asker::Asker;
pub use branch::Branch;
pub use buffer::Buffer;
pub use map::Map;
pub use sink::Sink;
pub use source::Source;
pub use teller::Teller;
