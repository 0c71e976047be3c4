//! Worked rows of observers beside a writer. They end by themselves, and come out alike in every order of the threads'
//! steps, but for one, which asks that each thread gets on now and then.
#![tactic(auto)]

#[cfg(test)]
mod graphs;
#[cfg(test)]
mod line_rows;
#[cfg(test)]
mod view_rows;
#[cfg(test)]
mod watch_rows;
