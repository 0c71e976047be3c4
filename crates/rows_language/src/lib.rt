//! Worked rows of the language: texts with their tokens, trees and values, and graphs.
#![tactic(auto)]

#[cfg(test)]
mod base_rows;
#[cfg(test)]
mod graph_rows;
#[cfg(test)]
mod lex_rows;
#[cfg(test)]
mod limit_rows;
#[cfg(test)]
mod parse_rows;
#[cfg(test)]
mod reading;
#[cfg(test)]
mod tree_rows;
#[cfg(test)]
mod tree_text;
#[cfg(test)]
mod walk_rows;
