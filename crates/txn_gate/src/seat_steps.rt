//! The steps by which the change takes nodes' seats in and gives them out again, and what it learns of them.

ghost use Rattle.std.specs.Prelude.{◌≡◌, [], ◌∷◌, ◌<◌, List};
ghost use Rattle.config_graph.specs.declared.TheConstants.{MAX_PORTS};
ghost use Rattle.txn_records.specs.Records.{IsRecord};
ghost use Rattle.txn_records.specs.declared.entry.Entry.TheVariants.{Looked};
ghost use Rattle.txn_spec.specs.Merging.{AreAllAmong, IsOfRecord, MergeIntoRun};
ghost use Rattle.txn_spec.specs.Steps.{noted};
ghost use Rattle.txn_spec.specs.Traces.{HaveOwnSlots};
ghost use Rattle.txn_spec.specs.Views.{change_of, given_out, node_of, seat_again, with_seat, with_sight};
ghost use Rattle.txn_spec.specs.declared.view.NodeView.{NodeView};
ghost use Rattle.txn_gate.specs.Acts.{StepDid};
ghost use Rattle.txn_gate.specs.Places.{IsChangeHere, IsNodeHere};

use crate::steps::{AnySeat, Words, place_of_port};
use atomic_table::{Join, Play, Split};
use txn_spec::View;

/// A node's seat is taken in.
pub struct TakingIn;

impl Join<View> for TakingIn {
    ghost use Rattle.txn_spec.specs.Views.{nobody, with_seat};

    ghost both = { with_seat };

    ghost spent = { nobody };
}

/// A node's seat is taken in, and the record has a sight of the node.
pub struct Sighting;

impl Join<View> for Sighting {
    ghost use Rattle.txn_spec.specs.Views.{nobody, with_sight};

    ghost both = { with_sight };

    ghost spent = { nobody };
}

/// The seat that was taken in last is given out again.
pub struct GivingOut;

impl Split<View> for GivingOut {
    ghost use Rattle.txn_spec.specs.Views.{given_out, seat_again};

    ghost left = { given_out };

    ghost right = { seat_again };
}

/// A node's seat is given on to a new one.
pub struct Leaving;

impl Split<View> for Leaving {
    ghost use Rattle.txn_spec.specs.Views.{nobody};

    ghost left = { λ v. nobody };

    ghost right = { λ v. v };
}

/// A load by which the change learns of its record, and of all nodes whose seats it took in.
pub struct Learning;

impl Play<(), View> for Learning {
    ghost use Rattle.txn_spec.specs.Merging.{Learns};

    ghost then = { Learns };
}

/// A load by which the change learns of its record, and of the node whose seat it took in last.
pub struct Meeting;

impl Play<(), View> for Meeting {
    ghost use Rattle.txn_spec.specs.Merging.{Meets};

    ghost then = { Meets };
}

/// A look by which the change learns of all nodes whose seats it took in.
pub struct Merging;

impl Play<(), View> for Merging {
    ghost use Rattle.txn_spec.specs.Merging.{Merges};

    ghost then = { Merges };
}

/// The change takes a node's seat in.
pub fn take_in(words: &Words, seat: &mut AnySeat, node: AnySeat)
    requires here { IsChangeHere seat.old.table_id words.now.shared.table_id seat.old.me }
    requires node_here { IsNodeHere node.table_id words.now.shared.table_id node.me }
    ensures { StepDid seat.old seat.new (with_seat seat.old.me.0 node.me.0, []) }
{
    words.shared.join_seat::<TakingIn>(seat, node);
}

/// The change takes a node's seat in, and notes a sight of the node.
pub fn sight(words: &Words, seat: &mut AnySeat, node: AnySeat)
    requires here { IsChangeHere seat.old.table_id words.now.shared.table_id seat.old.me }
    requires node_here { IsNodeHere node.table_id words.now.shared.table_id node.me }
    ensures { StepDid seat.old seat.new (with_sight seat.old.me.0 node.me.0, []) }
{
    words.shared.join_seat::<Sighting>(seat, node);
}

/// The change learns that its record is one of a run, and that no two nodes whose seats it took in are of one slot.
pub fn learn(words: &Words, seat: &mut AnySeat)
    requires here { IsChangeHere seat.old.table_id words.now.shared.table_id seat.old.me }
    ensures did { StepDid seat.old seat.new seat.old.me }
    ensures run { IsRecord (change_of seat.old.me.0).entries }
    ensures apart { HaveOwnSlots seat.old.me.0.nodes }
{
    words.shared.load::<Learning>(seat, 0);
}

/// The change learns of its record, and of the node whose seat it took in last. A join tells its caller nothing, so
/// this is a load of its own.
pub fn meet(words: &Words, seat: &mut AnySeat)
    requires here { IsChangeHere seat.old.table_id words.now.shared.table_id seat.old.me }
    requires some { (nodes : List NodeView) × (seat.old.me.0.nodes ≡ node_of seat.old.me.0 ∷ nodes) }
    ensures did { StepDid seat.old seat.new seat.old.me }
    ensures run { IsRecord (change_of seat.old.me.0).entries }
    ensures learned { IsOfRecord (change_of seat.old.me.0).entries (node_of seat.old.me.0) }
{
    words.shared.load::<Meeting>(seat, 0);
}

/// The change gives the seat out again that it took in last.
pub fn give_out(words: &Words, seat: &mut AnySeat) -> AnySeat
    requires here { IsChangeHere seat.old.table_id words.now.shared.table_id seat.old.me }
    requires some { (nodes : List NodeView) × (seat.old.me.0.nodes ≡ node_of seat.old.me.0 ∷ nodes) }
    ensures here { (seat.new.table_id ≡ seat.old.table_id) × (result.table_id ≡ seat.old.table_id) }
    ensures me { seat.new.me ≡ (given_out seat.old.me.0, []) }
    ensures node { result.me ≡ (seat_again seat.old.me.0, []) }
{
    words.shared.split_seat::<GivingOut>(seat)
}

/// The change looks once more at a port, and learns that its record and the nodes that it took in are of one run.
pub fn merge(words: &Words, seat: &mut AnySeat, port: u32) -> u64
    requires here { IsChangeHere seat.old.table_id words.now.shared.table_id seat.old.me }
    requires port { port < MAX_PORTS }
    requires all { AreAllAmong (change_of seat.old.me.0).seats seat.old.me.0.nodes }
    ensures did { StepDid seat.old seat.new (noted seat.old.me (Looked port result)) }
    ensures merged { MergeIntoRun (change_of seat.new.me.0).entries seat.old.me.0.nodes }
{
    words.shared.load::<Merging>(seat, place_of_port(port))
}

/// A node's seat is given on to a new one, and nobody is left in its place.
pub fn leave(words: &Words, seat: &mut AnySeat) -> AnySeat
    requires here { IsNodeHere seat.old.table_id words.now.shared.table_id seat.old.me }
    ensures here { (seat.new.table_id ≡ seat.old.table_id) × (result.table_id ≡ seat.old.table_id) }
    ensures node { result.me ≡ seat.old.me }
{
    words.shared.split_seat::<Leaving>(seat)
}
