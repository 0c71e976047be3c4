//! Memory for nodes to be made.

ghost use Rattle.std.specs.Prelude.{◌≡◌, ◌≤◌, [], IfOk, vec_capacity};

use config_graph::NoMemory;
use live_hall::Berth;
use node_host::Past;
use std::alloc::Global;
use txn_gate::NodeSeat;

/// Memory for one node, and an empty list with room for so many earlier nodes of its line.
#[derive(Drop)]
pub struct Blank {
    pub berth: Berth,
    pub list: Vec<Past<NodeSeat>>,
    pub room: u32,
    pub ghost is_empty: { list.items ≡ [] },
    pub ghost has_room: { room ≤ vec_capacity list },
}

impl Blank {
    pub fn new(alloc: Global, room: u32) -> Result<Blank, NoMemory>
        ensures { IfOk result (λ b. b.room ≡ room) }
    {
        let list = Vec::with_capacity(alloc, room as usize)?;
        let berth = Berth::new(alloc)?;
        Ok(Blank { berth, list, room })
    }
}
