//! The board over the gates and the hall.

ghost use Rattle.std.specs.Prelude.{◌≡◌, ℕ, ◌+◌, ◌<◌, ◌≤◌, ◌∷◌, ◌++◌, [], List, false, true, length, slice_set, IfOk, IsTrue, MatchOption, OnErr, OnOk};
ghost use Rattle.change_board.specs.Collecting.{Collects};
ghost use Rattle.change_board.specs.Looking.{AddsLook};
ghost use Rattle.change_board.specs.Making.{Makes};
ghost use Rattle.change_board.specs.Scans.{AddsScan};
ghost use Rattle.change_board.specs.Steps.{HasRoomToMake, less_one};
ghost use Rattle.config_graph.specs.declared.TheConstants.{MAX_NODES};
ghost use Rattle.live_board.specs.Boards.{KeepsNodes, StandsLive, taken_in};
ghost use Rattle.live_board.specs.Keeping.{is_stored, without};
ghost use Rattle.live_board.specs.Making.{AddsMake};
ghost use Rattle.live_board.specs.Scanning.{IsScan};
ghost use Rattle.live_board.specs.Standing as standing;
ghost use Rattle.live_board.specs.Turning.{ways};
ghost use Rattle.quiesce_core.specs.declared.event.Event.TheVariants as event;
ghost use Rattle.txn_gate.specs.Seats.{IsChangeSeatOf, change_in, collected_in, record_of, table_of_change};
ghost use Rattle.txn_spec.specs.Views.{is_among, nothing_done};
ghost use Rattle.txn_records.specs.Entries.{config_of};
ghost use Rattle.txn_records.specs.Records.{Adds, AreAllNoted, IsRecordCut, May};
ghost use Rattle.txn_records.specs.declared.entry.Entry.{Entry};
ghost use Rattle.txn_records.specs.declared.entry.Entry.TheVariants.{Did};

use crate::blank::Blank;
use crate::collecting::collect;
use crate::heirs::note_heir;
use crate::keeping::{await_guest, put_away};
use crate::making::make_guest;
use crate::pacing::Pace;
use crate::reserving::make_room;
use crate::scanning::scan;
use crate::signs::Signs;
use crate::stile::Turnstile;
use change_board::{Board, Collected, Scan};
use component_trait::Component;
use config_graph::{NoMemory, Node};
use live_hall::{BoxedGuest, Door, Named};
use live_hands::Hand;
use state_handover::AnyNode;
use std::alloc::{AllocError, Global};
use std::marker::Model;
use std::sync::Wait;
use txn_gate::{ChangeSeat, Gates};
use txn_records::Look;

/// The nodes of a hall, and the gates at which they take their turns, from any number of threads.
#[derive(Drop)]
pub struct LiveBoard<'g, J: Named, R: Wait + Copy, T: Turnstile> {
    rt: R,
    alloc: Global,
    gates: &'g Gates,
    seat: ChangeSeat,
    door: Door<J, R>,
    hand: Hand<R>,
    stile: &'g T,
    signs: &'g Signs,
    /// Removed nodes, by slot.
    kept: Vec<Option<BoxedGuest>>,
    /// Which node took over the state of each, by slot.
    heirs: Vec<Option<u32>>,
    /// For nodes to be made, and their pasts.
    blanks: Vec<Blank>,
    /// A node in a slot below this may be taken over from.
    sources: u32,
    /// How many earlier nodes a line may have.
    lines: u32,
    /// How long the logs were that the last scan saw, where it found all ports idle and nothing was done since.
    last: Option<Vec<Option<usize>>>,
    pace: Pace,
}

impl<'g, J: Named, R: Wait + Copy, T: Turnstile> Model for LiveBoard<'g, J, R, T> {
    ghost use Rattle.std.specs.Prelude.{◌≡◌, option_map};
    ghost use Rattle.live_board.specs.Boards.{BoardSeen};
    ghost use Rattle.live_board.specs.Keeping.{AreKept, HaveRoom, stored};
    ghost use Rattle.live_board.specs.Turning.{ways};
    ghost use Rattle.txn_gate.specs.Seats.{IsChangeSeatOf, collected_in, record_of};

    ghost Value = { BoardSeen };

    ghost view = { λ b. record {
      entries = record_of b.seat;
      nodes = collected_in b.seat;
      room = record { nodes = b.seat.spare; sources = b.sources };
      lines = b.lines;
      heirs = b.heirs.items;
      stored = stored b.kept.items;
      ways = ways b.door b.hand;
      last = option_map (λ v. v.items) b.last;
    } };

    ghost invariant = { λ b. IsChangeSeatOf b.seat b.gates.now × (J.gates ≡ b.gates.now.words.shared.table_id)
        × AreKept J.gates b.kept.items × HaveRoom b.blanks.items b.seat.spare b.lines };
}

impl<'g, J: Named, R: Wait + Copy, T: Turnstile> LiveBoard<'g, J, R, T> {
    /// The board of these gates and of the hall to which the door leads. Nothing was made. Workers set the signs.
    pub fn new(
        rt: R,
        alloc: Global,
        gates: &'g Gates,
        seat: ChangeSeat,
        door: Door<J, R>,
        hand: Hand<R>,
        stile: &'g T,
        signs: &'g Signs,
    ) -> LiveBoard<'g, J, R, T>
        requires here { IsChangeSeatOf seat gates.now }
        requires named { J.gates ≡ gates.now.words.shared.table_id }
        requires fresh { (change_in seat ≡ nothing_done) × (collected_in seat ≡ []) × (seat.spare ≡ 0) }
        ensures record { ⟦<LiveBoard<'g, J, R, T> as Board>⟧.stands_for result [] }
        ensures ways { result.ways ≡ ways door hand }
    {
        LiveBoard {
            rt,
            alloc,
            gates,
            seat,
            door,
            hand,
            stile,
            signs,
            kept: Vec::new(alloc),
            heirs: Vec::new(alloc),
            blanks: Vec::new(alloc),
            sources: 0,
            lines: 0,
            last: None,
            pace: Pace::new(),
        }
    }

    /// The change's seat, with its record and the nodes whose seats it took in.
    pub fn into_seat(self) -> ChangeSeat
        ensures here { table_of_change result ≡ J.gates }
        ensures record { record_of result ≡ self.entry.entries }
        ensures nodes { collected_in result ≡ self.entry.nodes }
    {
        self.seat
    }
}

impl<'g, J: Named, R: Wait + Copy, T: Turnstile> Board for LiveBoard<'g, J, R, T> {
    ghost stands_for = { λ b r. StandsLive b r };

    ghost room = { λ b. b.room };

    ghost taken = { λ b. taken_in b };

    ghost broke_off = { λ b r. (b.entries ≡ r) × IsRecordCut r };

    ghost alone = { false };

    fn is_alone(&self) -> bool {
        false
    }

    fn close(&mut self, port: u32)
        requires may { (r : List Entry) × StandsLive self.old r × May r (event.Close port) }
        ensures board { Adds StandsLive self.old self.new (Did (event.Close port) ∷ []) }
        ensures room { self.new.room ≡ self.old.room }
        ensures kept { KeepsNodes self.old self.new }
    {
        self.signs.tell_change(true);
        self.gates.close(&mut self.seat, port);
        self.last = None;
    }

    fn reopen(&mut self, port: u32)
        requires may { (r : List Entry) × StandsLive self.old r × May r (event.Reopen port) }
        ensures board { Adds StandsLive self.old self.new (Did (event.Reopen port) ∷ []) }
        ensures room { self.new.room ≡ self.old.room }
        ensures kept { KeepsNodes self.old self.new }
    {
        self.gates.reopen(&mut self.seat, port);
        self.last = None;
    }

    fn look(&mut self, port: u32) -> Look
        requires made { (r : List Entry) × StandsLive self.old r × (port < length (config_of r).gates) }
        ensures board { AddsLook StandsLive self.old self.new port result }
        ensures room { self.new.room ≡ self.old.room }
        ensures kept { KeepsNodes self.old self.new }
    {
        self.last = None;
        // a run looks before it scans, and so does a change that waits
        self.pace.restart();
        self.gates.look(&mut self.seat, port)
    }

    fn unlink(&mut self, port: u32)
        requires may { (r : List Entry) × StandsLive self.old r × May r (event.Unlink port) }
        ensures board { Adds StandsLive self.old self.new (Did (event.Unlink port) ∷ []) }
        ensures room { self.new.room ≡ self.old.room }
        ensures kept { KeepsNodes self.old self.new }
    {
        self.gates.unlink(&mut self.seat, port);
        self.last = None;
    }

    fn link(&mut self, port: u32, node: u32, provide: u32)
        requires may { (r : List Entry) × StandsLive self.old r × May r (event.Link port node provide) }
        ensures board { Adds StandsLive self.old self.new (Did (event.Link port node provide) ∷ []) }
        ensures room { self.new.room ≡ self.old.room }
        ensures kept { KeepsNodes self.old self.new }
    {
        self.gates.link(&mut self.seat, port, node, provide);
        self.signs.tell_link(port, node);
        self.last = None;
    }

    /// The node is kept from then on, where there is a place for it, and lies in the hall no longer.
    fn remove(&mut self, slot: u32)
        requires may { (r : List Entry) × StandsLive self.old r × May r (event.Remove slot) }
        ensures board { Adds StandsLive self.old self.new (Did (event.Remove slot) ∷ []) }
        ensures room { self.new.room ≡ self.old.room }
        ensures stored { self.new.stored ≡ slice_set self.old.stored slot true }
        ensures collected { self.new.nodes ≡ self.old.nodes }
    {
        self.gates.remove(&mut self.seat, slot);
        let guest = await_guest(&self.rt, &mut self.door, slot);
        put_away(&mut self.kept, &mut self.door, slot, guest);
        self.last = None;
    }

    /// Each node made so far, and each of these, has a place then in which it is kept once it is removed.
    fn reserve(&mut self, nodes: u32) -> Result<(), NoMemory>
        requires few { (r : List Entry) × StandsLive self.old r × (length (config_of r).slots + nodes ≤ MAX_NODES) }
        ensures nodes { OnOk result (nodes ≤ self.new.room.nodes) }
        ensures sources { OnOk result
            ((r : List Entry) → StandsLive self.old r → length (config_of r).slots ≤ self.new.room.sources) }
        ensures board { Adds StandsLive self.old self.new [] }
        ensures kept_nodes { self.old.room.nodes ≤ self.new.room.nodes }
        ensures kept_sources { self.old.room.sources ≤ self.new.room.sources }
        ensures places { OnOk result
            ((r : List Entry) → StandsLive self.old r → length (config_of r).slots + nodes ≤ length self.new.stored) }
        ensures stored { (n : ℕ) → is_stored self.new.stored n ≡ is_stored self.old.stored n }
        ensures collected { self.new.nodes ≡ self.old.nodes }
    {
        let made = self.seat.made().nodes;
        // the nodes that were made since may be the next of a line too
        let more = made > self.sources;
        let lines = if more { self.lines + 1 } else { self.lines };
        let most = nodes.max(self.seat.spare());
        self.blanks = make_room::<J>(
            self.alloc,
            &mut self.kept,
            &mut self.heirs,
            made,
            nodes,
            most,
            lines,
        )?;
        self.lines = lines;
        self.sources = made;
        self.gates.reserve(&mut self.seat, nodes)
    }

    /// The node in slot `from` is taken from its place, if it lies there, and only else from the hall.
    fn make(&mut self, node: Node, from: Option<u32>)
        requires may { (r : List Entry) × StandsLive self.old r
            × May r (event.Make (length (config_of r).slots) node from) }
        requires room { HasRoomToMake self.old.room from }
        ensures board { Makes StandsLive self.old self.new node from }
        ensures sights { AddsMake self.old.entries self.new.entries node from }
        ensures room { self.new.room ≡ less_one self.old.room }
        ensures stored { self.new.stored ≡ without self.old.stored from }
        ensures found { MatchOption from (self.new.ways ≡ self.old.ways)
            (λ k. is_stored self.old.stored k ≡ true → self.new.ways ≡ self.old.ways) }
        ensures collected { self.new.nodes ≡ self.old.nodes }
    {
        let made = self.seat.made();
        let guest = make_guest(
            &self.rt,
            self.alloc,
            self.gates,
            &mut self.seat,
            &mut self.door,
            &mut self.kept,
            &mut self.blanks,
            &node,
            from,
        );
        self.gates.learn(&mut self.seat);
        note_heir(&mut self.heirs, from, made.nodes);
        self.door.put(guest);
        self.signs
            .tell_made(made.nodes, made.ports, node.kind.requires_());
        self.last = None;
    }

    /// Of the live nodes, turns are given to those that lie in the hall, and those that lie there and are done are sighted.
    /// Where transactions may begin, it leaves the nodes to workers that move them for a while first.
    fn scan(&mut self, begins: bool) -> Result<Scan, NoMemory>
        ensures ok { IfOk result (AddsScan StandsLive false self.old self.new begins) }
        ensures room { OnOk result (self.new.room ≡ self.old.room) }
        ensures err { OnErr result
            ((r : List Entry) → StandsLive self.old r → (self.new.entries ≡ r) × IsRecordCut r) }
        ensures scanned { IfOk result (IsScan ⟦<AnyNode as Component>⟧.state J.gates self.old.entries self.new.entries
            self.old.ways self.new.ways self.old.last self.new.last begins) }
        ensures stored { self.new.stored ≡ self.old.stored }
    {
        self.signs.tell_change(!begins);
        if begins {
            self.pace.wait(&self.rt);
        }
        if self.signs.is_short() {
            return Err(AllocError);
        }
        let scanned = scan(
            self.alloc,
            self.gates,
            &mut self.seat,
            &mut self.door,
            &mut self.hand,
            self.stile,
            &self.last,
            begins,
        )?;
        self.last = scanned.lengths;
        self.pace.note(self.signs.take_move());
        Ok(scanned.scan)
    }

    /// Afterwards the seats of all nodes that were made are taken in; what was reserved beside is spare.
    fn collect(&mut self) -> Result<Collected, NoMemory>
        requires drained { (r : List Entry) × StandsLive self.old r × AreAllNoted r }
        ensures ok { IfOk result (Collects StandsLive self.old self.new (taken_in self.new)) }
        ensures err { OnErr result
            ((r : List Entry) → StandsLive self.old r → (self.new.entries ≡ r) × IsRecordCut r) }
        ensures nodes { OnErr result (self.new.nodes ≡ self.old.nodes) }
        ensures all { OnOk result ((n : ℕ) → n < length (config_of self.new.entries).slots
            → IsTrue (is_among self.new.nodes n)) }
    {
        collect(
            &self.rt,
            self.alloc,
            self.gates,
            &mut self.seat,
            &mut self.door,
            &mut self.kept,
            &self.heirs,
        )
    }

    ghost is_of_run = { λ b r h. h.of_run };

    ghost one_configuration = { λ b r q h k. standing.one_configuration b r q h k };

    ghost is_of_run_cut = { λ b r h. h.1 };
}
