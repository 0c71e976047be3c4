//! What a node knows, as data: it grows with each event of the node's own.

ghost use Rattle.std.specs.Prelude.{◌≡◌, ◌<◌, ◌^◌};
ghost use Rattle.node_gate.specs.Moves.{seen_by};
ghost use Rattle.node_gate.specs.Noting.{CanCount};
ghost use Rattle.quiesce_core.specs.Knowledge as knowledge;

use crate::answers::SeeAnswer;
use quiesce_core::{Event, Known, PortKnown, Served};

/// What a node knows before its first event.
pub fn unknown() -> Known
    ensures { result ≡ knowledge.nothing_known }
{
    let port = PortKnown {
        idle: true,
        serial: 0,
        consequent: false,
        seen: None,
        more: false,
    };
    Known {
        service: None,
        ports: [port, port],
    }
}

/// The owner did one more event: what is known of the port then. It changes in place, since a copy costs more than
/// the rest.
#[inline(always)]
fn note_port(port: &mut PortKnown, number: u32, event: &Event)
    ensures { port.new ≡ knowledge.port_known_next number port.old event.now }
{
    let (idle, consequent, serial) = match event {
        Event::Begin {
            port: at,
            serial,
            ..
        } if *at == number => (false, false, *serial),
        Event::Call {
            port: at,
            serial,
            ..
        } if *at == number => (false, true, *serial),
        Event::End {
            port: at,
            serial,
            ..
        } if *at == number => (true, false, *serial),
        Event::Ask { port: at, .. } if *at == number => (port.idle, port.consequent, port.serial),
        _ => return,
    };
    port.idle = idle;
    port.serial = serial;
    port.consequent = consequent;
    port.seen = None;
    port.more = false;
}

/// What it services after one more event.
#[inline(always)]
fn service_next(service: Option<Served>, event: &Event) -> Option<Served>
    requires { CanCount service event.now }
    ensures { result ≡ knowledge.served_next service event.now }
{
    if let Event::Take {
        port,
        serial,
        value,
    } = event
    {
        return Some(Served {
            port: *port,
            serial: *serial,
            value: *value,
            calls: 0,
            mores: 0,
            heard: true,
        });
    }
    let served = service?;
    match event {
        Event::Call { .. } | Event::Miss { .. } => Some(Served {
            calls: served.calls + 1,
            ..served
        }),
        Event::More { .. } => Some(Served {
            mores: served.mores + 1,
            heard: false,
            ..served
        }),
        Event::Hear { value, .. } => Some(Served {
            value: *value,
            heard: true,
            ..served
        }),
        Event::Give { .. } => None,
        _ => Some(served),
    }
}

/// What it knows of its ports after one more event.
#[inline(always)]
fn note_ports(ports: &mut [PortKnown; 2], first_port: u32, event: &Event)
    requires small { first_port < 2 ^ 31 }
    ensures { ports.new ≡ knowledge.ports_known_next first_port ports.old event.now }
{
    note_port(&mut ports[0], first_port, event);
    note_port(&mut ports[1], first_port + 1, event);
}

/// The node at whose seat it is, and whose first port this is, did one more event. Only a call is told of a port and
/// of the service.
#[inline(always)]
#[tactic(auto, using(crate::proofs::NotingLaws::ports_stay))]
pub fn note(known: &mut Known, first_port: u32, event: &Event)
    requires small { first_port < 2 ^ 31 }
    requires count { CanCount known.old.service event.now }
    ensures { known.new ≡ knowledge.known_next first_port known.old event.now }
{
    match event {
        Event::Begin { .. } | Event::Ask { .. } | Event::End { .. } => {
            note_ports(&mut known.ports, first_port, event);
        }
        Event::Call { .. } => {
            known.service = service_next(known.service, event);
            note_ports(&mut known.ports, first_port, event);
        }
        _ => known.service = service_next(known.service, event),
    }
}

/// A reply was looked for at a port: what is known of it then. Where there is none the port isn't written.
#[inline(always)]
pub fn note_reply(port: &mut PortKnown, answer: SeeAnswer)
    ensures { port.new ≡ seen_by answer port.old }
{
    match answer {
        SeeAnswer::Answer { value } => {
            port.seen = Some(value);
            port.more = false;
        }
        SeeAnswer::More { value } => {
            port.seen = Some(value);
            port.more = true;
        }
        SeeAnswer::NotYet { .. } => {}
    }
}

/// What it knows of a port once a reply was looked for there.
pub fn note_seen(port: PortKnown, answer: SeeAnswer) -> PortKnown
    ensures { result ≡ seen_by answer port }
{
    let mut seen = port;
    note_reply(&mut seen, answer);
    seen
}
