//! Worked rows of the gates, and the systems and exchanges of which they are made.
#![tactic(auto)]

#[cfg(test)]
mod call_rows;
#[cfg(test)]
mod exchanges;
#[cfg(test)]
mod further_rows;
#[cfg(test)]
mod gate_rows;
#[cfg(test)]
mod replacing;
#[cfg(test)]
mod row_systems;
#[cfg(test)]
mod seated;
#[cfg(test)]
mod systems;
#[cfg(test)]
mod thread_rows;
#[cfg(test)]
mod turn_rows;
#[cfg(test)]
mod unfit;
