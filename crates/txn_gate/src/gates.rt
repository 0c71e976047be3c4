//! The gates.

ghost use Rattle.std.specs.Prelude.{◌≡◌, ◌+◌};
ghost use Rattle.config_graph.specs.declared.TheConstants.{MAX_NODES, MAX_PORTS};

use crate::steps::Words;

/// A word for each port and a word for each slot. A seat is of these gates where it has their table's number
/// (`IsSeatOf`, `IsChangeSeatOf` in specs/Seats).
#[derive(Drop)]
pub struct Gates {
    pub words: Words,
    pub ghost words_are: { words.shared.table_id.words ≡ MAX_PORTS + MAX_NODES },
}
