//! Worked rows of nodes: what each kind does, what is handed over, inboxes, and turns.
#![tactic(auto)]

#[cfg(test)]
mod handover_rows;
#[cfg(test)]
mod inbox_rows;
#[cfg(test)]
mod kind_rows;
#[cfg(test)]
mod steps;
#[cfg(test)]
mod turn_rows;
