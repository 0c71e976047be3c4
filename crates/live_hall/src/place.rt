//! What a key knows of its cell.

/// The slot of the cell, once it is given. No value of this type is made.
pub struct Place {
    pub named: bool,
    pub slot: u32,
}
