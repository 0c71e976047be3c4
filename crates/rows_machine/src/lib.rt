//! Worked rows of what stands beneath the commands: files, event files, the change machine, plans, parts
//! of changes and passive sets.
#![tactic(auto)]

#[cfg(test)]
mod event_file_rows;
#[cfg(test)]
mod machine_rows;
#[cfg(test)]
mod part_rows;
#[cfg(test)]
mod passive_rows;
#[cfg(test)]
mod plan_rows;
#[cfg(test)]
mod shelf_rows;
#[cfg(test)]
mod systems;
