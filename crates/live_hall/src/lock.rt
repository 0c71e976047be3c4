//! One key of a door.

use crate::cell::Key;

/// A key to a cell, and how often the cell was found empty. The count stands still at its last value.
#[derive(Drop)]
pub struct Lock {
    pub key: Key,
    pub missed: u64,
}
