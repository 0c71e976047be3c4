//! Guests of new gates, for the rows of doors.

ghost use Rattle.std.specs.Prelude.{◌≡◌, [], IfOk};
ghost use Rattle.config_graph.specs.declared.kind.Kind.TheVariants as kind;
ghost use Rattle.live_hall.specs.Houses.{IsAt};
ghost use Rattle.txn_gate.specs.Seats.{IsChangeSeatOf, record_of, table_of_change};

use base::Text;
use config_graph::{Kind, NoMemory, Node};
use live_hall::{Berth, BoxedGuest, Guest};
use std::alloc::Global;
use txn_gate::{ChangeSeat, Gates};

/// A sink, the first node that is made.
pub fn sink(alloc: Global, gates: &Gates, change: &mut ChangeSeat) -> Result<BoxedGuest, NoMemory>
    requires here { IsChangeSeatOf change.old gates.now }
    requires fresh { record_of change.old ≡ [] }
    ensures slot { IfOk result (λ x. x.node.slot ≡ 0) }
    ensures gates { IfOk result (IsAt gates.now.words.shared.table_id) }
{
    let path = Text::from_bytes(alloc, b"t")?;
    let berth = Berth::new(alloc)?;
    let node = Node {
        path,
        kind: Kind::Sink,
        arg: None,
    };
    gates.reserve(change, 1)?;
    let seat = gates.make_node(change, &node, None);
    Ok(berth.take_in(Guest::first(alloc, 0, 0, Kind::Sink, None, seat)))
}
