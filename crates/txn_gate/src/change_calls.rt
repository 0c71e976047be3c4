//! The calls of the change at the gates.

ghost use Rattle.std.specs.Prelude.{◌≡◌, ◌⊎◌, ◌+◌, ◌<◌, ◌≤◌, ℕ, [], IfOk, IsOk, IsTrue, OnOk, length, replicate};
ghost use Rattle.quiesce_laws.specs.Steps.{MayLink, MayRemove, MayUnlink};
ghost use Rattle.config_graph.specs.Kinds.{row};
ghost use Rattle.config_graph.specs.declared.TheConstants.{MAX_NODES, MAX_PORTS};
ghost use Rattle.txn_records.specs.Entries.{config_of};
ghost use Rattle.txn_records.specs.Looks.{look_of};
ghost use Rattle.txn_records.specs.Notes.{is_noted};
ghost use Rattle.txn_records.specs.Records.{IsRecord};
ghost use Rattle.txn_records.specs.declared.entry.Entry.TheVariants.{Did, Looked};
ghost use Rattle.quiesce_core.specs.Knowledge.{nothing_known};
ghost use Rattle.quiesce_core.specs.Legal.{CanMake};
ghost use Rattle.quiesce_core.specs.Rules.{is_live_port};
ghost use Rattle.quiesce_core.specs.declared.event.Event.TheVariants as event;
ghost use Rattle.txn_spec.specs.Views.{nothing_done, of_node};
ghost use Rattle.txn_spec.specs.declared.view.NodeView.{NodeView as NodeFields};
ghost use Rattle.txn_gate.specs.Acts.{SeatDid, SeatMade};
ghost use Rattle.txn_gate.specs.Calls.{made_node, slot_word};
ghost use Rattle.txn_gate.specs.Seats.{IsChangeSeatOf, change_in, collected_in, node_in, record_of, table_of_change, table_of_node};
ghost use Rattle.txn_spec.specs.Traces.{first_words};

use crate::change_seat::ChangeSeat;
use crate::gates::Gates;
use crate::node_seat::NodeSeat;
use crate::plays::Names;
use crate::record_tables::RecordTables;
use crate::steps::{AnySeat, Words};
use crate::{change_steps, steps};
use config_graph::{MAX_NODES, MAX_PORTS, Made, NoMemory, Node, Target};
use node_gate::unknown;
use quiesce_word::{CLOSED, SlotWord};
use std::alloc::Global;
use std::marker::Brand;
use txn_records::Look;

/// So many words, all of them this one.
fn copies(alloc: Global, word: u64, count: u32) -> Result<Vec<u64>, NoMemory>
    ensures { IfOk result (λ v. v.items ≡ replicate count word) }
{
    vec![in alloc; word; count as usize]
}

/// The words of ports and slots that were never made.
fn fresh_words(alloc: Global) -> Result<Vec<u64>, NoMemory>
    ensures { IfOk result (λ v. v.items ≡ first_words) }
{
    let mut words = copies(alloc, CLOSED, MAX_PORTS)?;
    let slots = copies(alloc, 0, MAX_NODES)?;
    words.extend_from_slice(&slots)?;
    Ok(words)
}

impl Gates {
    /// Nothing is made: each port's word is closed, idle and unlinked, and each slot's word is 0.
    pub fn new(alloc: Global) -> Result<(Gates, ChangeSeat), NoMemory>
        ensures here { IfOk result (λ r. IsChangeSeatOf r.1 r.0) }
        ensures change { IfOk result (λ r. (change_in r.1 ≡ nothing_done) × (collected_in r.1 ≡ []) × (r.1.spare ≡ 0)) }
    {
        let fresh = fresh_words(alloc)?;
        let tables = RecordTables::new(alloc)?;
        let (words, seat) = Words::of_words(alloc, fresh.as_slice(), &())?;
        let gates = Gates { words };
        let seat = ChangeSeat {
            tables,
            spare: 0,
            seat,
        };
        Ok((gates, seat))
    }

    /// Makes room for so many nodes more.
    pub fn reserve(&self, seat: &mut ChangeSeat, nodes: u32) -> Result<(), NoMemory>
        requires { length (config_of (record_of seat.old)).slots + nodes ≤ MAX_NODES }
        ensures spare { OnOk result (nodes ≤ seat.new.spare) }
        ensures kept { seat.old.spare ≤ seat.new.spare }
        ensures no_more { (seat.new.spare ≡ seat.old.spare) ⊎ (seat.new.spare ≡ nodes) }
        ensures always { IsOk result }
        ensures seat { seat.new.seat ≡ seat.old.seat }
    {
        seat.spare = seat.spare.max(nodes);
        Ok(())
    }

    /// The change makes the node of the next slot, with its ports behind those made before, and gives its seat out.
    /// The seat reads from its slot's word what was made. It takes no memory: there is room for it.
    pub fn make_node(&self, seat: &mut ChangeSeat, node: &Node, from: Option<u32>) -> NodeSeat
        requires here { IsChangeSeatOf seat.old self.now }
        requires spare { 0 < seat.old.spare }
        requires may { CanMake (config_of (record_of seat.old))
            (length (config_of (record_of seat.old)).slots) node.now from }
        ensures made { SeatMade (length (config_of (record_of seat.old)).slots) node.now from seat.old seat.new }
        ensures here { table_of_node result ≡ table_of_change seat.old }
        ensures node { node_in result ≡ made_node (length (config_of (record_of seat.old)).slots)
            (length (config_of (record_of seat.old)).gates) node.now from }
    {
        let Made { nodes, ports } = seat.made();
        let made = SlotWord {
            kind: node.kind,
            first_port: ports,
            arg: node.arg,
            from,
        };
        let new = self.make_slot::<Brand>(seat, nodes, made, node, from);
        self.adopt(new, nodes)
    }

    /// The step that makes it, and the one that gives its seat out.
    fn make_slot<E: Names>(
        &self,
        seat: &mut ChangeSeat,
        slot: u32,
        made: SlotWord,
        node: &Node,
        from: Option<u32>,
    ) -> AnySeat
        requires event { E.event ≡ event.Make slot node.now from }
        requires here { IsChangeSeatOf seat.old self.now }
        requires spare { 0 < seat.old.spare }
        requires slot { slot ≡ length (config_of (record_of seat.old)).slots }
        requires may { CanMake (config_of (record_of seat.old)) slot node.now from }
        requires made { made ≡ slot_word (length (config_of (record_of seat.old)).gates) node.now from }
        ensures made { SeatMade slot node.now from seat.old seat.new }
        ensures here { result.table_id ≡ table_of_change seat.old }
        ensures node { result.me
            ≡ (of_node (made_node slot (length (config_of (record_of seat.old)).gates) node.now from), []) }
    {
        seat.tables.make(node, from);
        steps::make::<E>(&self.words, &mut seat.seat, slot, made.pack(), node, from);
        let new = steps::new_seat(&self.words, &mut seat.seat);
        seat.spare -= 1;
        new
    }

    /// The new seat reads its slot's word.
    fn adopt(&self, seat: AnySeat, slot: u32) -> NodeSeat
        requires here { seat.table_id ≡ self.now.words.shared.table_id }
        requires node { (n : NodeFields) × (seat.me ≡ (of_node n, [])) × (n.slot ≡ slot) × (n.known ≡ nothing_known)
            × (n.made.first_port + length (row n.made.kind).requires_ ≤ MAX_PORTS) }
        requires slot { slot < MAX_NODES }
        ensures here { table_of_node result ≡ seat.table_id }
        ensures node { result.seat.me ≡ seat.me }
    {
        let mut seat = seat;
        let word = steps::adopt(&self.words, &mut seat, slot);
        let Some(made) = SlotWord::of(word) else {
            unreachable!()
        };
        NodeSeat {
            slot,
            first_port: made.first_port,
            known: unknown(),
            seat,
        }
    }

    /// The change closes a live port.
    pub fn close(&self, seat: &mut ChangeSeat, port: u32)
        requires here { IsChangeSeatOf seat.old self.now }
        requires live { IsTrue (is_live_port (config_of (record_of seat.old)) port) }
        ensures { SeatDid seat.old seat.new (Did (event.Close port)) }
    {
        seat.tables.close(port);
        steps::close::<Brand>(&self.words, &mut seat.seat, port);
    }

    /// The change opens a live port again, which ends its drained note.
    pub fn reopen(&self, seat: &mut ChangeSeat, port: u32)
        requires here { IsChangeSeatOf seat.old self.now }
        requires live { IsTrue (is_live_port (config_of (record_of seat.old)) port) }
        ensures { SeatDid seat.old seat.new (Did (event.Reopen port)) }
    {
        seat.tables.reopen(port);
        steps::reopen::<Brand>(&self.words, &mut seat.seat, port);
    }

    /// The change looks at a port that was made.
    pub fn look(&self, seat: &mut ChangeSeat, port: u32) -> Look
        requires here { IsChangeSeatOf seat.old self.now }
        requires made { port < length (config_of (record_of seat.old)).gates }
        ensures did { (word : ℕ) × SeatDid seat.old seat.new (Looked port word) × (result ≡ look_of word) }
        ensures run { IsRecord (record_of seat.new) }
    {
        let word = steps::look(&self.words, &mut seat.seat, port);
        seat.tables.look(port, word);
        Look::of(word)
    }

    /// The change links a port that leads nowhere, whose owner is settled by the record (`ChangeSeat::settled`), to a
    /// provision of a live node, where no cycle comes of it.
    pub fn link(&self, seat: &mut ChangeSeat, port: u32, node: u32, provide: u32)
        requires here { IsChangeSeatOf seat.old self.now }
        requires may { MayLink (is_noted (record_of seat.old)) (config_of (record_of seat.old)) port node provide }
        ensures { SeatDid seat.old seat.new (Did (event.Link port node provide)) }
    {
        let to = Target { node, provide };
        seat.tables.link(port, to);
        change_steps::link::<Brand>(&self.words, &mut seat.seat, port, to);
    }

    /// The change unlinks a linked port whose owner is settled by the record.
    pub fn unlink(&self, seat: &mut ChangeSeat, port: u32)
        requires here { IsChangeSeatOf seat.old self.now }
        requires may { MayUnlink (is_noted (record_of seat.old)) (config_of (record_of seat.old)) port }
        ensures { SeatDid seat.old seat.new (Did (event.Unlink port)) }
    {
        let was = seat.tables.unlink(port);
        change_steps::unlink::<Brand>(&self.words, &mut seat.seat, port, was);
    }

    /// The change removes a node that is settled by the record, that leads to none and to which none leads.
    pub fn remove(&self, seat: &mut ChangeSeat, node: u32)
        requires here { IsChangeSeatOf seat.old self.now }
        requires may { MayRemove (is_noted (record_of seat.old)) (config_of (record_of seat.old)) node }
        ensures { SeatDid seat.old seat.new (Did (event.Remove node)) }
    {
        seat.tables.remove(node);
        change_steps::remove::<Brand>(&self.words, &mut seat.seat, node);
    }
}
