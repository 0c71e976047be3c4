//! What a scan does: turns of the live nodes, and looks at all nodes and ports.

ghost use Rattle.std.specs.Prelude.{◌≡◌, ◌+◌, ◌-◌, ◌*◌, ◌<◌, ◌≤◌, ◌^◌, ◌&&◌, IfOk, OnErr, is_none, length, if◌then◌else◌};
ghost use Rattle.quiesce_word.specs.Phases.{is_idle};
ghost use Rattle.std.specs.List.{list_all};
ghost use Rattle.txn_records.specs.Looks.{ended_in_word};
ghost use Rattle.change_board.specs.Scans.{ended_in, is_idle_if_live};
ghost use Rattle.quiesce_core.specs.Words.{word_of};
ghost use Rattle.step_board.specs.Going.{BrokeOff, GaveTurnIfLive, GaveTurns, ShowsSome};
ghost use Rattle.step_board.specs.Seeing.{first_undone_in, found_all, found_at};
ghost use Rattle.node_turn_laws.specs.World.{World};

use crate::nodes::Nodes;
use config_graph::NoMemory;
use quiesce_word::Word;

/// Gives the node in this slot a turn, if it is live. Tells whether it moved.
fn give_turn<N: Nodes>(nodes: &mut N, slot: u32, begins: bool) -> Result<bool, NoMemory>
    requires some { ShowsSome N.shows nodes.old }
    ensures ok { IfOk result (λ moved. GaveTurnIfLive N.shows nodes.old nodes.new begins slot moved) }
    ensures err { OnErr result ((w : World) → N.shows nodes.old w → N.shows nodes.new w) }
    ensures room { N.room nodes.new ≡ N.room nodes.old }
{
    if !nodes.is_live(slot) {
        return Ok(false);
    }
    nodes.turn(slot, begins)
}

/// Gives each live node a turn, in the order of slots. Tells whether one moved.
pub fn give_turns<N: Nodes>(nodes: &mut N, begins: bool) -> Result<bool, NoMemory>
    requires some { ShowsSome N.shows nodes.old }
    ensures ok { IfOk result (λ moved. GaveTurns N.shows nodes.old nodes.new begins moved) }
    ensures err { OnErr result (BrokeOff N.shows nodes.old nodes.new) }
    ensures room { N.room nodes.new ≡ N.room nodes.old }
{
    let mut moved = false;
    let made = nodes.made().nodes;
    for slot in 0..made {
        let more = give_turn(nodes, slot, begins)?;
        moved = moved | more;
    }
    Ok(moved)
}

/// The first slot whose node is live and isn't done.
pub fn first_undone<N: Nodes>(nodes: &N) -> Option<u32>
    requires some { ShowsSome N.shows nodes.now }
    ensures { (w : World) → N.shows nodes.now w → result ≡ first_undone_in w }
{
    let made = nodes.made().nodes;
    for slot in 0..made {
        if nodes.is_live(slot) && !nodes.is_done(slot) {
            return Some(slot);
        }
    }
    None
}

/// Whether all is at rest, where it is told whether the ports are idle. Nodes are looked at only then.
pub fn rests<N: Nodes>(nodes: &N, idle: bool) -> bool
    requires some { ShowsSome N.shows nodes.now }
    ensures { (w : World) → N.shows nodes.now w → result ≡ (is_none (first_undone_in w) && idle) }
{
    idle && first_undone(nodes).is_none()
}

/// What looks at ports found.
#[derive(Clone, Copy)]
pub struct PortsSeen {
    /// Whether each port of a live node was idle.
    pub idle: bool,
    /// How many transactions had ended.
    pub ended: u64,
}

/// How many transactions a word shows as ended.
fn ended_by(word: Word) -> u32
    ensures { result ≡ (if is_idle word.phase then word.serial else word.serial - 1) }
{
    if word.phase.is_idle() {
        word.serial
    } else {
        word.serial.saturating_sub(1)
    }
}

/// What a look at one port more comes to.
fn look_at<N: Nodes>(nodes: &N, port: u32, seen: PortsSeen) -> PortsSeen
    requires made { port < length (N.machine nodes.now).config.gates }
    requires few { seen.ended ≤ port * 2 ^ 24 }
    ensures idle { result.idle
        ≡ (seen.idle && is_idle_if_live (N.machine nodes.now).config (found_at (N.machine nodes.now) port)) }
    ensures ended { result.ended ≡ seen.ended + ended_in_word (word_of (N.machine nodes.now) port) }
    ensures few { result.ended ≤ (port + 1) * 2 ^ 24 }
{
    let word = nodes.fields(port);
    // `|` and `&` take both sides: each port is looked at in each scan, and a branch costs more than a test
    let idle = !nodes.is_live_port(port) | word.phase.is_idle();
    PortsSeen {
        idle: seen.idle & idle,
        ended: seen.ended + ended_by(word) as u64,
    }
}

/// Looks once at each port made.
pub fn look_at_ports<N: Nodes>(nodes: &N) -> PortsSeen
    ensures idle { result.idle ≡ list_all (is_idle_if_live (N.machine nodes.now).config)
        (found_all (N.machine nodes.now)) }
    ensures ended { result.ended ≡ ended_in (found_all (N.machine nodes.now)) }
{
    let mut seen = PortsSeen {
        idle: true,
        ended: 0,
    };
    let made = nodes.made().ports;
    for port in 0..made {
        seen = look_at(nodes, port, seen);
    }
    seen
}
