//! What a scan finds at ports.

ghost use Rattle.std.specs.Prelude.{◌≡◌, ◌≤◌, ◌<◌, ◌+◌, ◌-◌, ◌*◌, ◌^◌, ◌∷◌, ◌++◌, ◌&&◌, ℕ, [], length, if◌then◌else◌};
ghost use Rattle.change_board.specs.Scans.{is_idle_if_live};
ghost use Rattle.config_graph.specs.declared.TheConstants.{MAX_PORTS};
ghost use Rattle.live_board.specs.Looking.{SawPorts};
ghost use Rattle.live_board.specs.Seeing.{SeatGoesOn};
ghost use Rattle.txn_gate.specs.Seats.{IsChangeSeatOf, record_of};
ghost use Rattle.txn_records.specs.Entries.{config_of};
ghost use Rattle.txn_records.specs.Looks.{ended_in_word, is_idle_word, look_of};
ghost use Rattle.txn_records.specs.Records.{IsRecord};
ghost use Rattle.txn_records.specs.declared.entry.Entry.TheVariants.{Looked};

use quiesce_word::Word;
use txn_gate::{ChangeSeat, Gates};
use txn_records::Look;

/// What looks at ports found.
#[derive(Clone, Copy)]
pub struct PortsSeen {
    /// Whether each port of a live node was idle.
    pub idle: bool,
    /// How many transactions had ended.
    pub ended: u64,
}

/// What a look shows of a port.
#[derive(Clone, Copy)]
struct Shown {
    idle: bool,
    ended: u32,
}

fn at_serial(serial: u32, idle: bool) -> Shown
    ensures idle { result.idle ≡ idle }
    ensures ended { result.ended ≡ (if idle then serial else serial - 1) }
{
    Shown {
        idle,
        ended: if idle {
            serial
        } else {
            serial.saturating_sub(1)
        },
    }
}

/// Whether the port is idle, and how many of its transactions have ended.
fn shown_by(look: Look) -> Shown
    ensures { (word : ℕ) → look ≡ look_of word → (result.idle ≡ is_idle_word word) × (result.ended ≡ ended_in_word word) }
{
    match look {
        Look::Drained { serial, idle } => at_serial(serial, idle),
        Look::Busy { word } => {
            let fields = Word::of(word);
            at_serial(fields.serial, fields.phase.is_idle())
        }
    }
}

/// Looks at one port more.
fn look_at(gates: &Gates, seat: &mut ChangeSeat, port: u32, seen: PortsSeen) -> PortsSeen
    requires here { IsChangeSeatOf seat.old gates.now }
    requires made { port < length (config_of (record_of seat.old)).gates }
    requires few { seen.ended ≤ port * 2 ^ 32 }
    requires ports { port ≤ MAX_PORTS }
    ensures seat { SeatGoesOn seat.old seat.new }
    ensures few { result.ended ≤ (port + 1) * 2 ^ 32 }
    ensures seen { (word : ℕ) × (record_of seat.new ≡ record_of seat.old ++ Looked port word ∷ [])
        × (result.idle ≡ (seen.idle && is_idle_if_live (config_of (record_of seat.old)) (record { port = port; word = word })))
        × (result.ended ≡ seen.ended + ended_in_word word) }
{
    let live = seat.is_live_port(port);
    let shown = shown_by(gates.look(seat, port));
    // `|` and `&` take both sides: each port is looked at in each scan
    PortsSeen {
        idle: seen.idle & (!live | shown.idle),
        ended: seen.ended + shown.ended as u64,
    }
}

/// Looks once at each port made.
pub fn look_at_ports(gates: &Gates, seat: &mut ChangeSeat, ports: u32) -> PortsSeen
    requires here { IsChangeSeatOf seat.old gates.now }
    requires known { IsRecord (record_of seat.old) }
    requires made { ports ≡ length (config_of (record_of seat.old)).gates }
    ensures seat { SeatGoesOn seat.old seat.new }
    ensures seen { SawPorts (config_of (record_of seat.old)) (record_of seat.old) (record_of seat.new) ports result.idle
        result.ended }
{
    let mut seen = PortsSeen {
        idle: true,
        ended: 0,
    };
    for port in 0..ports {
        seen = look_at(gates, seat, port, seen);
    }
    seen
}
