//! A node whose state was handed over.

/// Where the log of a node lies whose state was handed over.
#[derive(Clone, Copy)]
pub struct Handed {
    /// The slot of the first node of its line.
    pub line: u32,
    /// Its place in the past of the node at the end of the line, from 0.
    pub place: usize,
}
