//! Worked rows of the board over the gates, in one thread.
#![tactic(auto)]

#[cfg(test)]
mod board_rows;
#[cfg(test)]
mod scan_rows;
