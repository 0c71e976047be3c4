//! What a worker does until it is told to stop.

ghost use Rattle.std.specs.Prelude.{◌≡◌, ◌<◌};
ghost use Rattle.config_graph.specs.declared.TheConstants.{MAX_NODES};

use crate::due::{Due, waits};
use crate::held::Held;
use config_graph::{MAX_NODES, NoMemory};
use live_board::{Signs, Turnstile};
use live_hall::{Door, Named};
use live_hands::Hand;
use node_host::Turn;
use std::alloc::Global;
use std::sync::Wait;
use std::sync::atomic::{AtomicBool, Ordering};
use std::thread;
use std::thread::Parker;
use std::time::Duration;
use txn_gate::Gates;

/// A round has so many passes over the nodes that are due, where none is waited for.
const PASSES: u32 = 64;

/// In one of so many rounds all nodes of a worker's share are due, and in one of so many all nodes: a turn of the thread
/// of the change may have left one something to do, and other workers may stand still.
const ROUNDS_TO_SHARE: u32 = 16;

const ROUNDS_TO_ALL: u32 = 512;

/// The same of rounds that move nothing: all nodes are due behind the first, and behind one of so many.
const QUIET_ROUNDS_TO_ALL: u32 = 8;

/// Behind more quiet rounds in a row a worker sleeps, for up to so many microseconds.
const QUIET_ROUNDS_AWAKE: u32 = 32;

const LONGEST_SLEEP: u32 = 500;

/// Which worker this is, from 1 on, and how many there are. Its share is a block of slots, since nodes that meet often have
/// slots nearby.
#[derive(Clone, Copy)]
pub struct Share {
    pub worker: u32,
    pub workers: u32,
}

impl Share {
    /// Whether a slot is of this worker's share of the slots below this.
    fn has(self, slot: u32, slots: u32) -> bool {
        let block = slot.saturating_mul(self.workers).checked_div(slots);
        block == self.worker.checked_sub(1)
    }
}

/// How many rounds a worker made, and how many since a node moved.
#[derive(Clone, Copy)]
struct Rounds {
    made: u32,
    quiet: u32,
}

impl Rounds {
    /// Whether all nodes are due.
    fn take_all(self) -> bool {
        self.made % ROUNDS_TO_ALL == 0
            || self.quiet == 1
            || self.quiet > 0 && self.quiet % QUIET_ROUNDS_TO_ALL == 0
    }

    /// Whether those of the worker's share are.
    fn take_share(self) -> bool {
        self.made % ROUNDS_TO_SHARE == 0 || self.quiet > 0
    }

    /// Behind one round more.
    fn after(self, moved: bool) -> Rounds {
        Rounds {
            made: self.made.wrapping_add(1),
            quiet: if moved {
                0
            } else {
                self.quiet.saturating_add(1)
            },
        }
    }
}

/// Makes the nodes below a slot due that are to be looked for before this round, whatever is known of them.
fn remind(due: &mut Due, share: Share, rounds: Rounds, slots: u32) {
    let all = rounds.take_all();
    if !all && !rounds.take_share() {
        return;
    }
    for slot in 0..slots {
        if all || share.has(slot, slots) {
            due.add_once(slot);
        }
    }
}

/// What the thread of the change and the workers tell one another.
#[derive(Drop)]
pub struct Flags {
    /// The workers are to stop.
    pub stop: AtomicBool,
    pub signs: Signs,
}

impl Flags {
    pub fn new(alloc: Global) -> Result<Flags, NoMemory> {
        Ok(Flags {
            stop: AtomicBool::new(false),
            signs: Signs::new(alloc)?,
        })
    }
}

fn has_moved(turn: &Result<Turn, NoMemory>) -> bool {
    matches!(turn, Ok(Turn::Moved(_)))
}

/// Gives the node of a slot a turn, where it is held or lies in the hall. There is none where it doesn't. It is held then, if
/// it may be, and it moved or was held before; else it lies in the hall again.
fn give_turn<J: Named, R: Wait, T: Turnstile>(
    gates: &Gates,
    held: &mut Held<J, R>,
    hand: &mut Hand<R>,
    stile: &T,
    worker: u32,
    slot: u32,
    may_hold: bool,
) -> Result<Option<Turn>, NoMemory>
    requires named { J.gates ≡ gates.now.words.shared.table_id }
    requires slot { slot < MAX_NODES }
{
    let was_held = held.has(slot);
    let Some(mut guest) = held.take(slot) else {
        return Ok(None);
    };
    stile.before(worker, slot);
    let turn = guest.turn(gates, hand, true);
    let stays = may_hold & (was_held | has_moved(&turn));
    held.give_back(slot, guest, stays);
    Ok(Some(turn?))
}

/// What a turn of the node of a slot makes due: itself, unless it can't go on by itself, and who may go on by what it did.
/// Tells whether it moved.
fn note(due: &mut Due, signs: &Signs, slot: u32, turn: &Turn) -> bool {
    due.remove(slot);
    let Turn::Moved(event) = turn else {
        return false;
    };
    if !waits(*event) {
        due.add(slot);
    }
    if let Some(partner) = signs.partner(*event) {
        due.add(partner);
    }
    true
}

/// Gives each node that is due, and is held or lies in the hall, a turn, in the order of slots. Tells whether one moved. Once
/// a change comes it breaks off.
fn give_turns<J: Named, R: Wait, T: Turnstile>(
    gates: &Gates,
    held: &mut Held<J, R>,
    hand: &mut Hand<R>,
    signs: &Signs,
    stile: &T,
    due: &mut Due,
    worker: u32,
    slots: u32,
) -> Result<bool, NoMemory>
    requires named { J.gates ≡ gates.now.words.shared.table_id }
{
    let changing = signs.is_changing();
    let mut moved = false;
    for slot in 0..slots.min(MAX_NODES) {
        if due.has(slot) && signs.is_changing() == changing {
            match give_turn(gates, held, hand, stile, worker, slot, !changing)? {
                Some(turn) => moved |= note(due, signs, slot, &turn),
                None => due.miss(slot),
            }
        }
    }
    Ok(moved)
}

/// The same again and again while nodes move and none is waited for, up to a limit. All are told of each pass in which one
/// moved.
fn give_passes<J: Named, R: Wait, T: Turnstile>(
    gates: &Gates,
    held: &mut Held<J, R>,
    hand: &mut Hand<R>,
    signs: &Signs,
    stile: &T,
    due: &mut Due,
    worker: u32,
    slots: u32,
) -> Result<bool, NoMemory>
    requires named { J.gates ≡ gates.now.words.shared.table_id }
{
    let mut moved = false;
    for _ in 0..PASSES {
        let more = give_turns(gates, held, hand, signs, stile, due, worker, slots)?;
        if more {
            signs.tell_move();
        }
        moved |= more;
        if !more || signs.is_changing() {
            break;
        }
    }
    Ok(moved)
}

/// A round: passes, behind which all nodes lie in the hall again, also after want of memory. Tells whether one moved.
fn give_round<J: Named, R: Wait, T: Turnstile>(
    gates: &Gates,
    held: &mut Held<J, R>,
    hand: &mut Hand<R>,
    signs: &Signs,
    stile: &T,
    due: &mut Due,
    worker: u32,
    slots: u32,
) -> Result<bool, NoMemory>
    requires named { J.gates ≡ gates.now.words.shared.table_id }
{
    let moved = give_passes(gates, held, hand, signs, stile, due, worker, slots);
    held.put_back(slots);
    moved
}

/// Lets others go first behind a round that moved nothing, the longer the more there were.
fn give_way<R: Wait>(rt: &R, parker: &Parker, rounds: Rounds) {
    match rounds.quiet.checked_sub(QUIET_ROUNDS_AWAKE) {
        Some(longer) => {
            let micros = u64::from(longer.min(LONGEST_SLEEP));
            parker.park_timeout(rt, Duration::from_micros(micros));
        }
        None => thread::yield_now(),
    }
}

/// Gives nodes turns until it is told to stop. It stops with want of memory where a node's turn found none.
fn give_all_turns<J: Named, R: Wait + Copy, T: Turnstile>(
    rt: &R,
    gates: &Gates,
    held: &mut Held<J, R>,
    hand: &mut Hand<R>,
    flags: &Flags,
    stile: &T,
    share: Share,
) -> Result<(), NoMemory>
    requires named { J.gates ≡ gates.now.words.shared.table_id }
{
    let mut due = Due::new();
    let parker = Parker::new();
    let mut rounds = Rounds { made: 0, quiet: 0 };
    for _ in rt.forever() {
        if flags.stop.load(Ordering::SeqCst) {
            return Ok(());
        }
        let slots = flags.signs.made();
        remind(&mut due, share, rounds, slots);
        let moved = give_round(
            gates,
            held,
            hand,
            &flags.signs,
            stile,
            &mut due,
            share.worker,
            slots,
        )?;
        rounds = rounds.after(moved);
        if !moved {
            give_way(rt, &parker, rounds);
        }
    }
    unreachable!()
}

/// The same by this door and hand, with memory of its own for what it holds.
fn give_turns_by<J: Named, R: Wait + Copy, T: Turnstile>(
    rt: &R,
    alloc: Global,
    gates: &Gates,
    door: Door<J, R>,
    mut hand: Hand<R>,
    flags: &Flags,
    stile: &T,
    share: Share,
) -> Result<(), NoMemory>
    requires named { J.gates ≡ gates.now.words.shared.table_id }
{
    let mut held = Held::new(alloc, door)?;
    give_all_turns(rt, gates, &mut held, &mut hand, flags, stile, share)
}

/// A worker: gives nodes turns until it is told to stop, or finds no memory, which it tells.
pub fn work<J: Named, R: Wait + Copy, T: Turnstile>(
    rt: &R,
    alloc: Global,
    gates: &Gates,
    door: Door<J, R>,
    hand: Hand<R>,
    flags: &Flags,
    stile: &T,
    share: Share,
)
    requires named { J.gates ≡ gates.now.words.shared.table_id }
{
    let turns = give_turns_by(rt, alloc, gates, door, hand, flags, stile, share);
    if turns.is_err() {
        flags.signs.tell_short();
    }
}
