//! A scan on nodes that lie in the hall.

ghost use Rattle.std.specs.Prelude.{◌≡◌, IfOk, OnErr, option_map};
ghost use Rattle.live_board.specs.Scanning.{IsScan};
ghost use Rattle.live_board.specs.Turning.{ways};
ghost use Rattle.txn_gate.specs.Seats.{IsChangeSeatOf, collected_in, record_of, table_of_change};

use crate::comparing::{is_as_before, no_lengths};
use crate::looking::look_at_ports;
use crate::seeing::see_nodes;
use crate::stile::Turnstile;
use crate::turning::give_turns;
use change_board::Scan;
use component_trait::Component;
use config_graph::NoMemory;
use live_hall::{Door, Named};
use live_hands::Hand;
use state_handover::AnyNode;
use std::alloc::Global;
use std::sync::Wait;
use txn_gate::{ChangeSeat, Gates};

/// What a scan answers, and how long the logs were that it saw, where it found all ports idle.
#[derive(Drop)]
pub struct Scanned {
    pub scan: Scan,
    pub lengths: Option<Vec<Option<usize>>>,
}

/// Gives each live node that lies in the hall a turn, in which it may begin a transaction or not. Then it sights those
/// that are done, and looks once at each port. `last` is what is kept of the last scan.
pub fn scan<J: Named, R: Wait, T: Turnstile>(
    alloc: Global,
    gates: &Gates,
    seat: &mut ChangeSeat,
    door: &mut Door<J, R>,
    hand: &mut Hand<R>,
    stile: &T,
    last: &Option<Vec<Option<usize>>>,
    begins: bool,
) -> Result<Scanned, NoMemory>
    requires here { IsChangeSeatOf seat.old gates.now }
    requires named { J.gates ≡ gates.now.words.shared.table_id }
    ensures here { table_of_change seat.new ≡ table_of_change seat.old }
    ensures nodes { collected_in seat.new ≡ collected_in seat.old }
    ensures spare { seat.new.spare ≡ seat.old.spare }
    ensures ok { IfOk result (λ s. IsScan ⟦<AnyNode as Component>⟧.state J.gates (record_of seat.old)
        (record_of seat.new) (ways door.old hand.old) (ways door.new hand.new) (option_map (λ v. v.items) last.now)
        (option_map (λ v. v.items) s.lengths) begins s.scan) }
    ensures err { OnErr result (record_of seat.new ≡ record_of seat.old) }
{
    gates.learn(seat);
    let made = seat.made();
    let mut lengths = no_lengths(alloc, made.nodes)?;
    let moved = give_turns(gates, seat, door, hand, stile, made.nodes, begins)?;
    gates.mark(seat, begins, moved);
    let seen = see_nodes(gates, seat, door, &mut lengths, made.nodes);
    let ports = look_at_ports(gates, seat, made.ports);
    let same = is_as_before(seat, last, &lengths);
    let scan = Scan {
        moved,
        done: seen & ports.idle & same,
        ended: ports.ended,
    };
    let lengths = if ports.idle { Some(lengths) } else { None };
    Ok(Scanned { scan, lengths })
}
