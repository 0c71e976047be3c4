//! Laws of tables.

ghost use Rattle.std.specs.Prelude.{◌≡◌, length, map};
ghost use Rattle.std.specs.List.{range_with_len};
ghost use Rattle.quiesce_core.specs.Runs.{IsRun, done_by};
ghost use Rattle.node_turn_laws.specs.Reached.{IsReached};
ghost use Rattle.node_turn_laws.specs.World.{World};
ghost use Rattle.step_board.specs.Table.{Shows, logs_of, machine};
ghost use Rattle.step_board.specs.declared.table.NodeTable.{NodeTable};

/// A law: a world that a table shows is reached by allowed events of the change and turns of nodes, its events are a
/// run, its machine's state is the table's, and the logs that the table keeps are what each node did.
pub fn tables_show_worlds()
    ensures reached { (t : NodeTable) (w : World) → Shows t w → IsReached w }
    ensures run { (t : NodeTable) (w : World) → Shows t w → IsRun w.events }
    ensures machine { (t : NodeTable) (w : World) → Shows t w → w.machine ≡ machine t }
    ensures logs { (t : NodeTable) (w : World) → Shows t w
        → logs_of t ≡ map (λ n. done_by n w.events) (range_with_len 0 (length w.machine.config.slots)) }
{}
