//! What a hand knows of an inbox.

use std::collections::LinkedList;

/// The ports that the hand posted there, and those that it took, in order. No value of this type is made.
pub struct Known {
    pub posted: LinkedList<u32>,
    pub taken: LinkedList<u32>,
}
