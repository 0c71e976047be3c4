//! The calls of nodes at the gates in a service of theirs: calls of other nodes, and further messages.

ghost use Rattle.std.specs.Prelude.{◌≡◌, None, ◌+◌, ◌<◌, ◌^◌, Some, false, true};
ghost use Rattle.quiesce_word.specs.Phases.{is_asked};
ghost use Rattle.quiesce_word.specs.Words as fields;
ghost use Rattle.quiesce_word.specs.Words.{unpack};
ghost use Rattle.quiesce_core.specs.declared.event.Event.TheVariants as event;
ghost use Rattle.node_gate.specs.Answers.{CallSays, HearSays};
ghost use Rattle.node_gate.specs.Moves as moves;
ghost use Rattle.node_gate.specs.Seats.{MayAsk, MayCallAt, MayHear, MaySendMore, serial_served};
ghost use Rattle.txn_spec.specs.Steps.{looks};
ghost use Rattle.txn_spec.specs.Views.{does, node_at, reads};
ghost use Rattle.txn_spec.specs.declared.view.LoadKind.TheVariants as kinds;
ghost use Rattle.txn_gate.specs.Acts.{NodeDid, NodeMay};
ghost use Rattle.txn_gate.specs.Calls.{ByWord, after, called_in, heard_in};
ghost use Rattle.txn_gate.specs.Seats.{IsSeatOf, node_in, table_of_node};

use crate::answering::{called, heard, is_missing};
use crate::gates::Gates;
use crate::node_seat::{NodeSeat, port_known, seen_or_0};
use crate::plays::Names;
use crate::steps;
use config_graph::VALUE_LIMIT;
use node_gate::{CallAnswer, HearAnswer, note};
use quiesce_core::Event;
use quiesce_word::{Word, ask_operand, call_operand, more_operand};
use std::marker::Brand;

impl Gates {
    /// The node makes a call of the service that it is in, whether the gate is closed or not.
    pub fn call(&self, seat: &mut NodeSeat, port: u32, value: u32) -> CallAnswer
        requires here { IsSeatOf seat.old self.now }
        requires may { MayCallAt (node_at (node_in seat.old)) seat.old.known port value }
        ensures did { NodeDid seat.old seat.new (moves.events_of_call port value result) }
        ensures words { ByWord kinds.Own port called_in (λ a n. after n (moves.events_of_call port value a))
            result (node_in seat.old) (node_in seat.new) }
        ensures says { CallSays None port result }
    {
        let loaded = self.call_word(seat, port, value);
        called(loaded)
    }

    /// The load, and the call where it isn't missed by that. Returns the word that was loaded.
    fn call_word(&self, seat: &mut NodeSeat, port: u32, value: u32) -> u64
        requires here { IsSeatOf seat.old self.now }
        requires may { MayCallAt (node_at (node_in seat.old)) seat.old.known port value }
        ensures here { table_of_node seat.new ≡ table_of_node seat.old }
        ensures node { node_in seat.new ≡ after (reads (node_in seat.old) kinds.Own port result)
            (moves.events_of_call port value (called_in result)) }
    {
        let loaded = self.look_to_call(seat, port, value);
        if !is_missing(loaded) {
            self.call_by::<Brand>(seat, port, value, loaded);
        }
        loaded
    }

    /// The load, and what the node knows by it where it misses the call. Returns the word that was loaded.
    fn look_to_call(&self, seat: &mut NodeSeat, port: u32, value: u32) -> u64
        requires here { IsSeatOf seat.old self.now }
        requires may { MayCallAt (node_at (node_in seat.old)) seat.old.known port value }
        ensures here { table_of_node seat.new ≡ table_of_node seat.old }
        ensures missed { fields.is_missing (unpack result) ≡ true → node_in seat.new
            ≡ does (reads (node_in seat.old) kinds.Own port result) (event.Miss port) }
        ensures found { fields.is_missing (unpack result) ≡ false
            → node_in seat.new ≡ looks (node_in seat.old) port result }
    {
        let loaded = steps::look_to_call(&self.words, &mut seat.seat, port, value);
        if is_missing(loaded) {
            note(&mut seat.known, seat.first_port, &Event::Miss { port });
        }
        loaded
    }

    /// The call by the word that was loaded.
    fn call_by<E: Names>(&self, seat: &mut NodeSeat, port: u32, value: u32, loaded: u64)
        requires event { E.event ≡ event.Call port ((unpack loaded).serial + 1) value }
        requires here { IsSeatOf seat.old self.now }
        requires may { MayCallAt (node_at (node_in seat.old)) seat.old.known port value }
        requires loaded { (node_in seat.old).loaded ≡ Some (record { port = port; word = loaded }) }
        requires found { fields.is_missing (unpack loaded) ≡ false }
        requires unspent { (unpack loaded).serial + 1 < 2 ^ 24 }
        ensures here { table_of_node seat.new ≡ table_of_node seat.old }
        ensures node { node_in seat.new ≡ does (node_in seat.old) E.event }
    {
        let word = Word::of(loaded);
        let operand = call_operand(word, value);
        let serial = word.serial + 1;
        steps::call::<E>(&self.words, &mut seat.seat, port, value, loaded, operand);
        note(
            &mut seat.known,
            seat.first_port,
            &Event::Call {
                port,
                serial,
                value,
            },
        );
    }

    /// The node sends an intermediate reply for the request that it services.
    pub fn more(&self, seat: &mut NodeSeat, port: u32, value: u32)
        requires here { IsSeatOf seat.old self.now }
        requires may { MaySendMore (node_at (node_in seat.old)) seat.old.known port value }
        ensures here { table_of_node seat.new ≡ table_of_node seat.old }
        ensures node { node_in seat.new ≡ after (node_in seat.old) (moves.events_of_more port value seat.old.known) }
    {
        let operand = more_operand(seat.value_served(), value);
        let serial = seat.serial_served();
        steps::more::<Brand>(&self.words, &mut seat.seat, port, value, operand);
        note(
            &mut seat.known,
            seat.first_port,
            &Event::More {
                port,
                serial,
                value,
            },
        );
    }

    /// The node replies to an intermediate reply that it saw.
    pub fn ask(&self, seat: &mut NodeSeat, port: u32, value: u32)
        requires here { IsSeatOf seat.old self.now }
        requires may { MayAsk (node_at (node_in seat.old)) seat.old.known port value }
        ensures here { table_of_node seat.new ≡ table_of_node seat.old }
        ensures node { node_in seat.new ≡ after (node_in seat.old)
            (moves.events_of_ask (node_at (node_in seat.old)) port value seat.old.known) }
    {
        let known = port_known(seat.known, port - seat.first_port);
        let serial = known.serial;
        let operand = ask_operand(seen_or_0(known) % VALUE_LIMIT, value);
        steps::ask::<Brand>(&self.words, &mut seat.seat, port, value, operand);
        note(
            &mut seat.known,
            seat.first_port,
            &Event::Ask {
                port,
                serial,
                value,
            },
        );
    }

    /// The node listens for the further message for which its service waits.
    pub fn hear(&self, seat: &mut NodeSeat, port: u32) -> HearAnswer
        requires here { IsSeatOf seat.old self.now }
        requires may { MayHear seat.old.known port }
        ensures did { NodeDid seat.old seat.new (moves.events_of_hear port seat.old.known result) }
        ensures words { ByWord kinds.Hear port heard_in (λ a n. after n (moves.events_of_hear port n.known a))
            result (node_in seat.old) (node_in seat.new) }
        ensures says { HearSays None port result }
    {
        let found = self.hear_word(seat, port);
        heard(found)
    }

    /// The load, and what the node knows by it. Returns the word that is found.
    fn hear_word(&self, seat: &mut NodeSeat, port: u32) -> u64
        requires here { IsSeatOf seat.old self.now }
        requires may { MayHear seat.old.known port }
        ensures { NodeMay (is_asked (unpack result).phase)
            (event.Hear port (serial_served seat.old.known) (unpack result).value) kinds.Hear port result seat.old seat.new }
    {
        let serial = seat.serial_served();
        let found = steps::hear(&self.words, &mut seat.seat, port);
        let word = Word::of(found);
        if word.phase.is_asked() {
            let value = word.value;
            note(
                &mut seat.known,
                seat.first_port,
                &Event::Hear {
                    port,
                    serial,
                    value,
                },
            );
        }
        found
    }
}
