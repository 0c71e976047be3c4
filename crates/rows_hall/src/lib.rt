//! Worked rows of inboxes and the hall, with threads. They end by themselves, and come out alike in every order of the
//! threads' steps.
#![tactic(auto)]

#[cfg(test)]
mod door_rows;
#[cfg(test)]
mod guests;
#[cfg(test)]
mod hand_rows;
