//! The atomic steps on the gates: each is one operation on one word, and says which event, look or sight it is.

ghost use Rattle.std.specs.Prelude.{[], ◌≡◌, ◌≢◌, true, ◌+◌, ◌<◌, Some, false, length};
ghost use Rattle.config_graph.specs.declared.TheConstants.{MAX_NODES, MAX_PORTS};
ghost use Rattle.quiesce_word.specs.Operands.{call_difference};
ghost use Rattle.quiesce_word.specs.Phases.{is_asked};
ghost use Rattle.quiesce_word.specs.SlotWords.{pack_slot, unpack_slot};
ghost use Rattle.quiesce_word.specs.Words.{FitsWord, is_message_to, is_missing, pack, unpack};
ghost use Rattle.txn_records.specs.Entries.{config_of};
ghost use Rattle.txn_records.specs.Records.{IsRecord, May};
ghost use Rattle.txn_records.specs.declared.entry.Entry.TheVariants.{Did, Looked};
ghost use Rattle.quiesce_core.specs.declared.event.Event.TheVariants as event;
ghost use Rattle.node_gate.specs.Seats.{MayAsk, MayBegin, MayCallAt, MayEnd, MayGive, MayHear, MaySee, MaySendMore, MayTake, serial_served};
ghost use Rattle.txn_spec.specs.Steps.{WasShown, did, looks, noted, read, sees};
ghost use Rattle.txn_spec.specs.Traces.{port_place};
ghost use Rattle.txn_spec.specs.Views.{change_of, new_seat, node_at, node_of, of_node, without_seat};
ghost use Rattle.txn_spec.specs.declared.view.LoadKind.TheVariants as kinds;
ghost use Rattle.txn_gate.specs.Acts.{StepDid, StepMay, StepSaw};
ghost use Rattle.txn_gate.specs.Calls.{MayBeBegun, ask_difference, ask_of, asked_word, end_difference_at, end_of, give_difference, give_of, more_difference, more_of, slot_word};
ghost use Rattle.txn_gate.specs.Places.{IsChangeHere, IsNodeHere};

use crate::plays::{
    Acting, Adopting, Beginning, Changing, Hearing, Loading, Looking, LookingToCall, Names,
    NewSeat, Seeing, Taking,
};
use atomic_table::{Seat, Table};
use config_graph::{MAX_PORTS, Node};
use quiesce_word::{ALL_BUT_CLOSED, CLOSED};
use std::alloc::Global;
use txn_spec::{GateRule, View};

/// One word for each port, and one for each slot after them.
pub type Words = Table<(), View, (), GateRule, Global>;

pub type AnySeat = Seat<(), View>;

/// The index of the word of a slot.
fn place_of(slot: u32) -> usize
    requires { slot < MAX_NODES }
    ensures { result ≡ MAX_PORTS + slot }
{
    MAX_PORTS as usize + slot as usize
}

/// The index of the word of a port. Those of neighbours lie in cache lines of their own.
#[tactic(auto, unfolding(txn_spec::specs::Traces::port_place))]
pub fn place_of_port(port: u32) -> usize
    requires { port < MAX_PORTS }
    ensures place { result ≡ port_place port }
    ensures few { result < MAX_PORTS }
{
    ((port % 512) * 8 + port / 512) as usize
}

/// A node loads the word of a port of its own.
pub fn load(words: &Words, seat: &mut AnySeat, port: u32) -> u64
    requires here { IsNodeHere seat.old.table_id words.now.shared.table_id seat.old.me }
    requires port { port < MAX_PORTS }
    ensures { StepSaw port result seat.old seat.new (read seat.old.me kinds.Own port result) }
{
    words.shared.load::<Loading>(seat, place_of_port(port))
}

/// A node begins a transaction of its own where the word is still the one that it loaded. Returns the word that is
/// found.
pub fn begin<E: Names>(
    words: &Words,
    seat: &mut AnySeat,
    port: u32,
    value: u32,
    loaded: u64,
    asked: u64,
) -> u64
    requires event { E.event ≡ event.Begin port ((unpack loaded).serial + 1) value }
    requires here { IsNodeHere seat.old.table_id words.now.shared.table_id seat.old.me }
    requires may { MayBegin (node_at (node_of seat.old.me.0)) (node_of seat.old.me.0).known port value }
    requires port { port < MAX_PORTS }
    requires loaded { MayBeBegun (unpack loaded) }
    requires asked { asked ≡ pack (asked_word (unpack loaded) value) }
    ensures here { seat.new.table_id ≡ seat.old.table_id }
    ensures begun { result ≡ loaded → seat.new.me ≡ did (read seat.old.me kinds.Exchange port result) E.event }
    ensures kept { result ≢ loaded → seat.new.me ≡ read seat.old.me kinds.Exchange port result }
    ensures shown { WasShown (node_of seat.old.me.0) port result }
{
    words
        .shared
        .compare_exchange::<Beginning<E>>(seat, place_of_port(port), loaded, asked)
}

/// A node takes up what is asked of it at a port.
pub fn take(words: &Words, seat: &mut AnySeat, port: u32) -> u64
    requires here { IsNodeHere seat.old.table_id words.now.shared.table_id seat.old.me }
    requires may { MayTake (node_of seat.old.me.0).known port }
    ensures { StepMay (is_message_to (node_of seat.old.me.0).slot (unpack result))
        (event.Take port (unpack result).serial (unpack result).value) kinds.Take port result seat.old seat.new }
{
    words.shared.load::<Taking>(seat, place_of_port(port))
}

/// A node looks for a reply at a port of its own.
pub fn see(words: &Words, seat: &mut AnySeat, port: u32) -> u64
    requires here { IsNodeHere seat.old.table_id words.now.shared.table_id seat.old.me }
    requires may { MaySee (node_at (node_of seat.old.me.0)) (node_of seat.old.me.0).known port }
    requires port { port < MAX_PORTS }
    ensures { StepSaw port result seat.old seat.new (of_node (sees (node_of seat.old.me.0) port result), []) }
{
    words.shared.load::<Seeing>(seat, place_of_port(port))
}

/// A node answers the request that it services.
pub fn give<E: Names>(words: &Words, seat: &mut AnySeat, port: u32, value: u32, operand: u64)
    requires event { E.event ≡ give_of (node_of seat.old.me.0) port value }
    requires here { IsNodeHere seat.old.table_id words.now.shared.table_id seat.old.me }
    requires may { MayGive (node_of seat.old.me.0).known port value }
    requires port { port < MAX_PORTS }
    requires operand { operand ≡ give_difference (node_of seat.old.me.0) value }
    ensures { StepDid seat.old seat.new (did seat.old.me E.event) }
{
    words
        .shared
        .fetch_xor::<Acting<E>>(seat, place_of_port(port), operand);
}

/// A node ends a transaction whose answer it saw.
pub fn end<E: Names>(words: &Words, seat: &mut AnySeat, port: u32, operand: u64)
    requires event { E.event ≡ end_of (node_of seat.old.me.0) port }
    requires here { IsNodeHere seat.old.table_id words.now.shared.table_id seat.old.me }
    requires may { MayEnd (node_at (node_of seat.old.me.0)) (node_of seat.old.me.0).known port }
    requires port { port < MAX_PORTS }
    requires operand { operand ≡ end_difference_at (node_of seat.old.me.0) port }
    ensures { StepDid seat.old seat.new (did seat.old.me E.event) }
{
    words
        .shared
        .fetch_xor::<Acting<E>>(seat, place_of_port(port), operand);
}

/// A node sends an intermediate reply for the request that it services.
pub fn more<E: Names>(words: &Words, seat: &mut AnySeat, port: u32, value: u32, operand: u64)
    requires event { E.event ≡ more_of (node_of seat.old.me.0) port value }
    requires here { IsNodeHere seat.old.table_id words.now.shared.table_id seat.old.me }
    requires may { MaySendMore (node_at (node_of seat.old.me.0)) (node_of seat.old.me.0).known port value }
    requires port { port < MAX_PORTS }
    requires operand { operand ≡ more_difference (node_of seat.old.me.0) value }
    ensures { StepDid seat.old seat.new (did seat.old.me E.event) }
{
    words
        .shared
        .fetch_xor::<Acting<E>>(seat, place_of_port(port), operand);
}

/// A node replies to an intermediate reply that it saw.
pub fn ask<E: Names>(words: &Words, seat: &mut AnySeat, port: u32, value: u32, operand: u64)
    requires event { E.event ≡ ask_of (node_of seat.old.me.0) port value }
    requires here { IsNodeHere seat.old.table_id words.now.shared.table_id seat.old.me }
    requires may { MayAsk (node_at (node_of seat.old.me.0)) (node_of seat.old.me.0).known port value }
    requires port { port < MAX_PORTS }
    requires operand { operand ≡ ask_difference (node_of seat.old.me.0) port value }
    ensures { StepDid seat.old seat.new (did seat.old.me E.event) }
{
    words
        .shared
        .fetch_xor::<Acting<E>>(seat, place_of_port(port), operand);
}

/// A node listens for the further message for which its service waits.
pub fn hear(words: &Words, seat: &mut AnySeat, port: u32) -> u64
    requires here { IsNodeHere seat.old.table_id words.now.shared.table_id seat.old.me }
    requires may { MayHear (node_of seat.old.me.0).known port }
    requires port { port < MAX_PORTS }
    ensures { StepMay (is_asked (unpack result).phase)
        (event.Hear port (serial_served (node_of seat.old.me.0).known) (unpack result).value) kinds.Hear port result
        seat.old seat.new }
{
    words.shared.load::<Hearing>(seat, place_of_port(port))
}

/// A node loads the word of an idle port of its own before it calls there, by which the call may be missed.
pub fn look_to_call(words: &Words, seat: &mut AnySeat, port: u32, value: u32) -> u64
    requires here { IsNodeHere seat.old.table_id words.now.shared.table_id seat.old.me }
    requires may { MayCallAt (node_at (node_of seat.old.me.0)) (node_of seat.old.me.0).known port value }
    requires port { port < MAX_PORTS }
    ensures here { seat.new.table_id ≡ seat.old.table_id }
    ensures missed { is_missing (unpack result) ≡ true
        → seat.new.me ≡ did (read seat.old.me kinds.Own port result) (event.Miss port) }
    ensures found { is_missing (unpack result) ≡ false
        → seat.new.me ≡ (of_node (looks (node_of seat.old.me.0) port result), []) }
    ensures shown { WasShown (node_of seat.old.me.0) port result }
{
    let _ = value;
    words
        .shared
        .load::<LookingToCall>(seat, place_of_port(port))
}

/// A node calls by the word that it loaded there.
pub fn call<E: Names>(
    words: &Words,
    seat: &mut AnySeat,
    port: u32,
    value: u32,
    loaded: u64,
    operand: u64,
)
    requires event { E.event ≡ event.Call port ((unpack loaded).serial + 1) value }
    requires here { IsNodeHere seat.old.table_id words.now.shared.table_id seat.old.me }
    requires may { MayCallAt (node_at (node_of seat.old.me.0)) (node_of seat.old.me.0).known port value }
    requires port { port < MAX_PORTS }
    requires loaded { (node_of seat.old.me.0).loaded ≡ Some (record { port = port; word = loaded }) }
    requires fits { FitsWord (unpack loaded) }
    requires found { is_missing (unpack loaded) ≡ false }
    requires operand { operand ≡ call_difference (unpack loaded) value }
    ensures { StepDid seat.old seat.new (did seat.old.me E.event) }
{
    let (_, _) = (value, loaded);
    words
        .shared
        .fetch_xor::<Acting<E>>(seat, place_of_port(port), operand);
}

/// The change closes a port.
pub fn close<E: Names>(words: &Words, seat: &mut AnySeat, port: u32)
    requires event { E.event ≡ event.Close port }
    requires here { IsChangeHere seat.old.table_id words.now.shared.table_id seat.old.me }
    requires may { May (change_of seat.old.me.0).entries (event.Close port) }
    requires port { port < MAX_PORTS }
    ensures { StepDid seat.old seat.new (noted seat.old.me (Did E.event)) }
{
    words
        .shared
        .fetch_or::<Changing<E>>(seat, place_of_port(port), CLOSED);
}

/// The change opens a port again.
pub fn reopen<E: Names>(words: &Words, seat: &mut AnySeat, port: u32)
    requires event { E.event ≡ event.Reopen port }
    requires here { IsChangeHere seat.old.table_id words.now.shared.table_id seat.old.me }
    requires may { May (change_of seat.old.me.0).entries (event.Reopen port) }
    requires port { port < MAX_PORTS }
    ensures { StepDid seat.old seat.new (noted seat.old.me (Did E.event)) }
{
    words
        .shared
        .fetch_and::<Changing<E>>(seat, place_of_port(port), ALL_BUT_CLOSED);
}

/// The change looks at a port.
pub fn look(words: &Words, seat: &mut AnySeat, port: u32) -> u64
    requires here { IsChangeHere seat.old.table_id words.now.shared.table_id seat.old.me }
    requires port { port < MAX_PORTS }
    ensures did { StepDid seat.old seat.new (noted seat.old.me (Looked port result)) }
    ensures run { IsRecord (change_of seat.new.me.0).entries }
{
    words.shared.load::<Looking>(seat, place_of_port(port))
}

/// The change makes the node of the next slot, whose word this is.
pub fn make<E: Names>(
    words: &Words,
    seat: &mut AnySeat,
    slot: u32,
    word: u64,
    node: &Node,
    from: Option<u32>,
)
    requires event { E.event ≡ event.Make slot node.now from }
    requires may { May (change_of seat.old.me.0).entries (event.Make slot node.now from) }
    requires word { word ≡ pack_slot (slot_word (length (config_of (change_of seat.old.me.0).entries).gates)
        node.now from) }
    requires here { IsChangeHere seat.old.table_id words.now.shared.table_id seat.old.me }
    requires slot { slot < MAX_NODES }
    ensures { StepDid seat.old seat.new (noted seat.old.me (Did E.event)) }
{
    let (_, _) = (node, from);
    words
        .shared
        .fetch_or::<Changing<E>>(seat, place_of(slot), word);
}

/// The change gives the seat of the first node out whose seat wasn't given out yet.
pub fn new_seat(words: &Words, seat: &mut AnySeat) -> AnySeat
    requires here { IsChangeHere seat.old.table_id words.now.shared.table_id seat.old.me }
    requires made { (change_of seat.old.me.0).seats < length (config_of (change_of seat.old.me.0).entries).slots }
    ensures here { (seat.new.table_id ≡ seat.old.table_id) × (result.table_id ≡ seat.old.table_id) }
    ensures me { seat.new.me ≡ (without_seat seat.old.me.0, []) }
    ensures node { result.me ≡ (new_seat seat.old.me.0, []) }
{
    words.shared.split_seat::<NewSeat>(seat)
}

/// A new node's seat reads its slot's word.
pub fn adopt(words: &Words, seat: &mut AnySeat, slot: u32) -> u64
    requires here { IsNodeHere seat.old.table_id words.now.shared.table_id seat.old.me }
    requires slot { (node_of seat.old.me.0).slot ≡ slot }
    requires within { slot < MAX_NODES }
    ensures did { StepDid seat.old seat.new seat.old.me }
    ensures word { unpack_slot result ≡ Some (node_of seat.old.me.0).made }
{
    words.shared.load::<Adopting>(seat, place_of(slot))
}
