//! Worked rows of scripts and of reports, as texts.
#![tactic(auto)]

#[cfg(test)]
mod merge_rows;
#[cfg(test)]
mod report_rows;
#[cfg(test)]
mod script_rows;
