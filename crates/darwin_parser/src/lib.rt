//! Syntax trees of Darwin descriptions (Magee, Dulay, Eisenbach and Kramer 1995).
#![tactic(auto)]

mod cursor;
mod declarations;
mod error;
mod expressions;
mod laws;
mod parsing;
mod source;
mod statements;
mod tree;

pub use error::ParseError;
pub use laws::{one_answer, one_tree};
pub use parsing::parse;
pub use tree::{
    ArrayDecl, BindEntry, Component, Expr, InstEntry, Op, PortDecl, PortRef, Side, Stmt, Unit,
};
