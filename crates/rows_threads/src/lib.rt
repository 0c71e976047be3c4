//! Worked rows of scripts that are run on threads. They end by themselves, and ask only for what comes out alike in every
//! order of the threads' steps.
#![tactic(auto)]

#[cfg(test)]
mod coming;
#[cfg(test)]
mod counting;
#[cfg(test)]
mod held;
#[cfg(test)]
mod looking;
#[cfg(test)]
mod looking_on;
#[cfg(test)]
mod meeting;
#[cfg(test)]
mod rows;
#[cfg(test)]
mod running;
