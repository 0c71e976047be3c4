//! The atomic steps by which the change links, unlinks and removes, and marks its scans.

ghost use Rattle.std.specs.Prelude.{◌≡◌, ◌<◌, Some};
ghost use Rattle.config_graph.specs.declared.TheConstants.{MAX_PORTS};
ghost use Rattle.txn_records.specs.Entries.{config_of};
ghost use Rattle.txn_records.specs.Records.{IsRecord, May};
ghost use Rattle.txn_records.specs.declared.entry.Entry.TheVariants.{Did, Scanned};
ghost use Rattle.txn_spec.specs.Steps.{noted};
ghost use Rattle.txn_spec.specs.Views.{change_of};
ghost use Rattle.quiesce_word.specs.Words.{FitsTarget};
ghost use Rattle.quiesce_core.specs.State as state;
ghost use Rattle.quiesce_core.specs.declared.event.Event.TheVariants as event;
ghost use Rattle.txn_gate.specs.Acts.{StepDid};
ghost use Rattle.txn_gate.specs.Places.{IsChangeHere};

use crate::plays::{Changing, Marking, Marks, Names};
use crate::steps::{AnySeat, Words, place_of_port};
use config_graph::Target;
use quiesce_word::link_operand;

/// The change links a port that is linked to nothing.
pub fn link<E: Names>(words: &Words, seat: &mut AnySeat, port: u32, to: Target)
    requires event { E.event ≡ event.Link port to.node to.provide }
    requires here { IsChangeHere seat.old.table_id words.now.shared.table_id seat.old.me }
    requires may { May (change_of seat.old.me.0).entries (event.Link port to.node to.provide) }
    requires port { port < MAX_PORTS }
    requires fits { FitsTarget to }
    ensures { StepDid seat.old seat.new (noted seat.old.me (Did E.event)) }
{
    words
        .shared
        .fetch_xor::<Changing<E>>(seat, place_of_port(port), link_operand(to));
}

/// The change unlinks a port from what it is linked to.
pub fn unlink<E: Names>(words: &Words, seat: &mut AnySeat, port: u32, was: Target)
    requires event { E.event ≡ event.Unlink port }
    requires here { IsChangeHere seat.old.table_id words.now.shared.table_id seat.old.me }
    requires may { May (change_of seat.old.me.0).entries (event.Unlink port) }
    requires port { port < MAX_PORTS }
    requires linked { state.target (config_of (change_of seat.old.me.0).entries) port ≡ Some was }
    requires fits { FitsTarget was }
    ensures { StepDid seat.old seat.new (noted seat.old.me (Did E.event)) }
{
    words
        .shared
        .fetch_xor::<Changing<E>>(seat, place_of_port(port), link_operand(was));
}

/// The change removes a node: a load, after which the record has it.
pub fn remove<E: Names>(words: &Words, seat: &mut AnySeat, node: u32)
    requires event { E.event ≡ event.Remove node }
    requires here { IsChangeHere seat.old.table_id words.now.shared.table_id seat.old.me }
    requires may { May (change_of seat.old.me.0).entries (event.Remove node) }
    ensures { StepDid seat.old seat.new (noted seat.old.me (Did E.event)) }
{
    let _ = node;
    words.shared.load::<Changing<E>>(seat, 0);
}

/// The change marks a scan: a load, after which the record has the mark.
pub fn mark<M: Marks>(words: &Words, seat: &mut AnySeat, begins: bool, moved: bool)
    requires mark { (M.begins ≡ begins) × (M.moved ≡ moved) }
    requires here { IsChangeHere seat.old.table_id words.now.shared.table_id seat.old.me }
    ensures did { StepDid seat.old seat.new (noted seat.old.me (Scanned begins moved)) }
    ensures run { IsRecord (change_of seat.new.me.0).entries }
{
    let (_, _) = (begins, moved);
    words.shared.load::<Marking<M>>(seat, 0);
}
