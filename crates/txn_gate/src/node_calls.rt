//! The calls of nodes at the gates, of their own transactions and of the requests that they service.

ghost use Rattle.std.specs.Prelude.{◌≡◌, ◌≢◌, None, ◌+◌, ◌<◌};
ghost use Rattle.config_graph.specs.declared.TheConstants.{MAX_PORTS};
ghost use Rattle.quiesce_word.specs.Words.{FitsWord, is_message_to, unpack};
ghost use Rattle.quiesce_core.specs.declared.event.Event.TheVariants as event;
ghost use Rattle.quiesce_core.specs.Rules.{last_serial};
ghost use Rattle.node_gate.specs.Answers.{BeginSays, SeeSays, TakeSays};
ghost use Rattle.node_gate.specs.Moves as moves;
ghost use Rattle.node_gate.specs.Seats.{MayBegin, MayEnd, MayGive, MaySee, MayTake};
ghost use Rattle.txn_spec.specs.Steps.{seen_in};
ghost use Rattle.txn_spec.specs.Views.{does, node_at, reads};
ghost use Rattle.txn_spec.specs.declared.view.LoadKind.TheVariants as kinds;
ghost use Rattle.txn_gate.specs.Acts.{NodeDid, NodeMay};
ghost use Rattle.txn_gate.specs.Calls.{ByWord, ByWords, MayBeBegun, after, asked_word, exchanged_in, refused_in, taken_in};
ghost use Rattle.txn_gate.specs.Seats.{IsSeatOf, node_in, table_of_node};

use crate::answering::{exchanged, refusal, seen, taken};
use crate::gates::Gates;
use crate::node_seat::{NodeSeat, port_known, seen_or_0};
use crate::plays::Names;
use crate::steps;
use config_graph::VALUE_LIMIT;
use node_gate::{BeginAnswer, SeeAnswer, TakeAnswer, note, note_seen};
use quiesce_core::Event;
use quiesce_word::{Phase, Word, end_operand, give_operand};
use std::marker::Brand;

impl Gates {
    /// The node begins a transaction of its own at an idle port.
    pub fn begin(&self, seat: &mut NodeSeat, port: u32, value: u32) -> BeginAnswer
        requires here { IsSeatOf seat.old self.now }
        requires may { MayBegin (node_at (node_in seat.old)) seat.old.known port value }
        ensures did { NodeDid seat.old seat.new (moves.events_of_begin port value result) }
        ensures words { ByWords port value result (node_in seat.old) (node_in seat.new) }
        ensures says { BeginSays None port result }
    {
        self.begin_by_words(seat, port, value)
    }

    /// The load, and the exchange where the word that was loaded allows it.
    fn begin_by_words(&self, seat: &mut NodeSeat, port: u32, value: u32) -> BeginAnswer
        requires here { IsSeatOf seat.old self.now }
        requires may { MayBegin (node_at (node_in seat.old)) seat.old.known port value }
        ensures here { table_of_node seat.new ≡ table_of_node seat.old }
        ensures words { ByWords port value result (node_in seat.old) (node_in seat.new) }
    {
        let loaded = self.load(seat, port);
        if let Some(answer) = refusal(loaded) {
            return answer;
        }
        self.exchange(seat, port, value, loaded)
    }

    /// The node loads the word of a port of its own. Returns it.
    fn load(&self, seat: &mut NodeSeat, port: u32) -> u64
        requires here { IsSeatOf seat.old self.now }
        requires port { port < MAX_PORTS }
        ensures here { table_of_node seat.new ≡ table_of_node seat.old }
        ensures node { node_in seat.new ≡ reads (node_in seat.old) kinds.Own port result }
        ensures known { seat.new.known ≡ seat.old.known }
    {
        steps::load(&self.words, &mut seat.seat, port)
    }

    /// Begins it where the word is still the one that was loaded, at which the node may begin.
    fn exchange(&self, seat: &mut NodeSeat, port: u32, value: u32, loaded: u64) -> BeginAnswer
        requires here { IsSeatOf seat.old self.now }
        requires may { MayBegin (node_at (node_in seat.old)) seat.old.known port value }
        requires open { refused_in loaded ≡ None }
        ensures here { table_of_node seat.new ≡ table_of_node seat.old }
        ensures words { ByWord kinds.Exchange port (exchanged_in loaded) (λ a n.
            after n (moves.events_of_begin port value a)) result (node_in seat.old) (node_in seat.new) }
    {
        let word = Word::of(loaded);
        let found = self.exchange_word::<Brand>(seat, port, value, loaded, word);
        exchanged(loaded, found)
    }

    /// The exchange, and what the node knows by it. Returns the word that is found.
    fn exchange_word<E: Names>(
        &self,
        seat: &mut NodeSeat,
        port: u32,
        value: u32,
        loaded: u64,
        word: Word,
    ) -> u64
        requires event { E.event ≡ event.Begin port ((unpack loaded).serial + 1) value }
        requires here { IsSeatOf seat.old self.now }
        requires may { MayBegin (node_at (node_in seat.old)) seat.old.known port value }
        requires word { word ≡ unpack loaded }
        requires fits { FitsWord word }
        requires loaded { MayBeBegun word }
        ensures here { table_of_node seat.new ≡ table_of_node seat.old }
        ensures begun { result ≡ loaded → node_in seat.new
            ≡ does (reads (node_in seat.old) kinds.Exchange port result) E.event }
        ensures kept { result ≢ loaded → node_in seat.new ≡ reads (node_in seat.old) kinds.Exchange port result }
    {
        let asked = asked_by(word, value).pack();
        let found = steps::begin::<E>(&self.words, &mut seat.seat, port, value, loaded, asked);
        if found == loaded {
            let serial = word.serial + 1;
            note(
                &mut seat.known,
                seat.first_port,
                &Event::Begin {
                    port,
                    serial,
                    value,
                },
            );
        }
        found
    }

    /// The node takes a request up that is asked of it at another's port.
    pub fn take(&self, seat: &mut NodeSeat, port: u32) -> TakeAnswer
        requires here { IsSeatOf seat.old self.now }
        requires may { MayTake seat.old.known port }
        ensures did { NodeDid seat.old seat.new (moves.events_of_take port result) }
        ensures words { ByWord kinds.Take port (taken_in (node_in seat.old).slot) (λ a n.
            after n (moves.events_of_take port a)) result (node_in seat.old) (node_in seat.new) }
        ensures says { TakeSays None (node_at (node_in seat.old)) port result }
    {
        let found = self.take_word(seat, port);
        taken(found, seat.slot)
    }

    /// The load, and what the node knows by it. Returns the word that is found.
    fn take_word(&self, seat: &mut NodeSeat, port: u32) -> u64
        requires here { IsSeatOf seat.old self.now }
        requires may { MayTake seat.old.known port }
        ensures { NodeMay (is_message_to seat.old.slot (unpack result))
            (event.Take port (unpack result).serial (unpack result).value) kinds.Take port result seat.old seat.new }
    {
        let found = steps::take(&self.words, &mut seat.seat, port);
        let word = Word::of(found);
        if word.is_message_to(seat.slot) {
            let serial = word.serial;
            let value = word.value;
            note(
                &mut seat.known,
                seat.first_port,
                &Event::Take {
                    port,
                    serial,
                    value,
                },
            );
        }
        found
    }

    /// The node answers the request that it services.
    pub fn give(&self, seat: &mut NodeSeat, port: u32, value: u32)
        requires here { IsSeatOf seat.old self.now }
        requires may { MayGive seat.old.known port value }
        ensures here { table_of_node seat.new ≡ table_of_node seat.old }
        ensures node { node_in seat.new ≡ after (node_in seat.old) (moves.events_of_give port value seat.old.known) }
    {
        let operand = give_operand(seat.value_served(), value);
        let serial = seat.serial_served();
        steps::give::<Brand>(&self.words, &mut seat.seat, port, value, operand);
        note(
            &mut seat.known,
            seat.first_port,
            &Event::Give {
                port,
                serial,
                value,
            },
        );
    }

    /// The node looks for a reply at a port of its own that isn't idle.
    pub fn see(&self, seat: &mut NodeSeat, port: u32) -> SeeAnswer
        requires here { IsSeatOf seat.old self.now }
        requires may { MaySee (node_at (node_in seat.old)) seat.old.known port }
        ensures here { table_of_node seat.new ≡ table_of_node seat.old }
        ensures node { node_at (node_in seat.new) ≡ node_at (node_in seat.old) }
        ensures known { seat.new.known ≡ moves.with_seen (node_at (node_in seat.old)) port result seat.old.known }
        ensures words { ByWord kinds.Own port seen_in (λ a n. record n {
          known = moves.with_seen (node_at n) port a n.known;
        }) result (node_in seat.old) (node_in seat.new) }
        ensures says { SeeSays None port result }
    {
        let found = steps::see(&self.words, &mut seat.seat, port);
        let answer = seen(found);
        let require = port - seat.first_port;
        let known = port_known(seat.known, require);
        seat.known.ports[require as usize] = note_seen(known, answer);
        answer
    }

    /// The node ends a transaction whose answer it saw.
    pub fn end(&self, seat: &mut NodeSeat, port: u32)
        requires here { IsSeatOf seat.old self.now }
        requires may { MayEnd (node_at (node_in seat.old)) seat.old.known port }
        ensures here { table_of_node seat.new ≡ table_of_node seat.old }
        ensures node { node_in seat.new ≡ after (node_in seat.old)
            (moves.events_of_end (node_at (node_in seat.old)) port seat.old.known) }
    {
        let known = port_known(seat.known, port - seat.first_port);
        let serial = known.serial;
        let value = seen_or_0(known);
        let operand = end_operand(value % VALUE_LIMIT, known.consequent);
        steps::end::<Brand>(&self.words, &mut seat.seat, port, operand);
        note(
            &mut seat.known,
            seat.first_port,
            &Event::End {
                port,
                serial,
                value,
            },
        );
    }
}

/// What an idle port's word becomes where its owner asks for a value.
fn asked_by(word: Word, value: u32) -> Word
    requires unspent { word.serial < last_serial }
    ensures { result ≡ asked_word word value }
{
    Word {
        phase: Phase::Asked,
        serial: word.serial + 1,
        value,
        consequent: false,
        ..word
    }
}
