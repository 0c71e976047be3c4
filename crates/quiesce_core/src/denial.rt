//! Which rule denies an event.

ghost use Rattle.std.specs.Prelude.{◌≡◌, true, false};
ghost use Rattle.quiesce_core.specs.Rules as rules;
ghost use Rattle.quiesce_core.specs.Doers.{is_of_owner, is_of_change};
ghost use Rattle.quiesce_core.specs.WellFormed.{IsSound};
ghost use Rattle.quiesce_core.specs.Tables.{state_of};

use crate::event::Event;
use crate::rules::{first_failing, has_its_argument, is_value, was_heard};
use crate::tables::Tables;
use config_graph::{Node, Target};

/// The rules of a make: the tables have room, the path is free, and what is taken over fits.
const ROOM: u32 = 18;

const PATH: u32 = 19;

const MOVE: u32 = 26;

impl Tables {
    /// The number of the first rule of the event that fails.
    pub fn denial(&self, event: &Event) -> Option<u32>
        requires { IsSound (state_of self.now).config }
        ensures { result ≡ rules.denial (state_of self.now) event.now }
    {
        match event {
            Event::Begin {
                port,
                serial,
                value,
            } => self.denies_begin(*port, *serial, *value),
            Event::Call {
                port,
                serial,
                value,
            } => self.denies_call(*port, *serial, *value),
            Event::Miss { port } => self.denies_miss(*port),
            Event::Ask {
                port,
                serial,
                value,
            } => self.denies_ask(*port, *serial, *value),
            Event::End {
                port,
                serial,
                value,
            } => self.denies_end(*port, *serial, *value),
            _ => self.denies_of_others(event),
        }
    }

    /// The same of what a port's owner doesn't do.
    fn denies_of_others(&self, event: &Event) -> Option<u32>
        requires sound { IsSound (state_of self.now).config }
        requires others { is_of_owner event.now ≡ false }
        ensures { result ≡ rules.denial (state_of self.now) event.now }
    {
        match event {
            Event::Take {
                port,
                serial,
                value,
            } => self.denies_take(*port, *serial, *value),
            Event::Give {
                port,
                serial,
                value,
            } => self.denies_give(*port, *serial, *value),
            Event::More {
                port,
                serial,
                value,
            } => self.denies_more(*port, *serial, *value),
            Event::Hear {
                port,
                serial,
                value,
            } => self.denies_hear(*port, *serial, *value),
            _ => self.denies_of_change(event),
        }
    }

    /// The same of what the change does.
    fn denies_of_change(&self, event: &Event) -> Option<u32>
        requires sound { IsSound (state_of self.now).config }
        requires change { is_of_change event.now ≡ true }
        ensures { result ≡ rules.denial (state_of self.now) event.now }
    {
        match event {
            Event::Close { port } | Event::Reopen { port } => first_failing(&[(
                1,
                self.links.is_live_port(*port),
            )]),
            Event::Make { slot, node, from } => self.denies_make(*slot, node, *from),
            Event::Link {
                port,
                node,
                provide,
            } => self.denies_link(*port, *node, *provide),
            Event::Unlink { port } => self.denies_unlink(*port),
            Event::Remove { node } => self.denies_remove(*node),
            _ => unreachable!(),
        }
    }

    fn denies_begin(&self, port: u32, serial: u32, value: u32) -> Option<u32>
        ensures { result ≡ rules.denial (state_of self.now) (Event.Begin port serial value) }
    {
        first_failing(&[
            (1, self.links.is_live_port(port)),
            (2, self.links.is_open(port)),
            (3, self.links.is_linked(port)),
            (4, self.exchange(port).phase.is_idle()),
            (5, self.is_next_serial(port, serial)),
            (6, is_value(value)),
        ])
    }

    fn denies_call(&self, port: u32, serial: u32, value: u32) -> Option<u32>
        ensures { result ≡ rules.denial (state_of self.now) (Event.Call port serial value) }
    {
        let owner = self.links.gate(port).owner;
        first_failing(&[
            (1, self.links.is_live_port(port)),
            (7, self.serves_through(owner, port)),
            (8, self.has_calls_left(owner)),
            (29, was_heard(self.service(owner))),
            (3, self.links.is_linked(port)),
            (4, self.exchange(port).phase.is_idle()),
            (5, self.is_next_serial(port, serial)),
            (6, is_value(value)),
        ])
    }

    fn denies_miss(&self, port: u32) -> Option<u32>
        ensures { result ≡ rules.denial (state_of self.now) (Event.Miss port) }
    {
        let owner = self.links.gate(port).owner;
        first_failing(&[
            (1, self.links.is_live_port(port)),
            (7, self.serves_through(owner, port)),
            (8, self.has_calls_left(owner)),
            (29, was_heard(self.service(owner))),
            (4, self.exchange(port).phase.is_idle()),
            (9, self.is_missing(port)),
        ])
    }

    fn denies_take(&self, port: u32, serial: u32, value: u32) -> Option<u32>
        ensures { result ≡ rules.denial (state_of self.now) (Event.Take port serial value) }
    {
        first_failing(&[
            (1, self.links.is_live_port(port)),
            (10, self.exchange(port).phase.is_asked()),
            (11, !self.is_taken(port)),
            (12, self.target_service(port).is_none()),
            (13, self.is_last_message(port, serial, value)),
        ])
    }

    fn denies_give(&self, port: u32, serial: u32, value: u32) -> Option<u32>
        requires { IsSound (state_of self.now).config }
        ensures { result ≡ rules.denial (state_of self.now) (Event.Give port serial value) }
    {
        first_failing(&[
            (1, self.links.is_live_port(port)),
            (14, self.is_taken(port)),
            (29, was_heard(self.target_service(port))),
            (15, self.is_port_serial(port, serial)),
            (16, self.calls_have_ended(port)),
            (6, is_value(value)),
        ])
    }

    fn denies_more(&self, port: u32, serial: u32, value: u32) -> Option<u32>
        requires { IsSound (state_of self.now).config }
        ensures { result ≡ rules.denial (state_of self.now) (Event.More port serial value) }
    {
        first_failing(&[
            (1, self.links.is_live_port(port)),
            (14, self.is_taken(port)),
            (29, was_heard(self.target_service(port))),
            (15, self.is_port_serial(port, serial)),
            (16, self.calls_have_ended(port)),
            (28, self.has_mores_left(port)),
            (6, is_value(value)),
        ])
    }

    fn denies_ask(&self, port: u32, serial: u32, value: u32) -> Option<u32>
        ensures { result ≡ rules.denial (state_of self.now) (Event.Ask port serial value) }
    {
        first_failing(&[
            (1, self.links.is_live_port(port)),
            (27, self.exchange(port).phase.is_in_more()),
            (15, self.is_port_serial(port, serial)),
            (6, is_value(value)),
        ])
    }

    fn denies_hear(&self, port: u32, serial: u32, value: u32) -> Option<u32>
        ensures { result ≡ rules.denial (state_of self.now) (Event.Hear port serial value) }
    {
        first_failing(&[
            (1, self.links.is_live_port(port)),
            (10, self.exchange(port).phase.is_asked()),
            (14, self.is_taken(port)),
            (30, !was_heard(self.target_service(port))),
            (13, self.is_last_message(port, serial, value)),
        ])
    }

    fn denies_end(&self, port: u32, serial: u32, value: u32) -> Option<u32>
        ensures { result ≡ rules.denial (state_of self.now) (Event.End port serial value) }
    {
        first_failing(&[
            (1, self.links.is_live_port(port)),
            (17, self.exchange(port).phase.is_answered()),
            (13, self.is_last_message(port, serial, value)),
        ])
    }

    fn denies_make(&self, slot: u32, node: &Node, from: Option<u32>) -> Option<u32>
        ensures { result ≡ rules.denial (state_of self.now) (Event.Make slot node.now from) }
    {
        let moves = match from {
            Some(old) => self.links.can_move(old, node.kind),
            None => true,
        };
        first_failing(&[
            (ROOM, self.links.has_room(slot, node)),
            (
                PATH,
                !self.links.is_path_taken(node.path.as_bytes()) && has_its_argument(node),
            ),
            (MOVE, moves),
        ])
    }

    /// Whether a link closes a cycle can be asked only of a port that was made, so the rules before are looked at first.
    fn denies_link(&self, port: u32, node: u32, provide: u32) -> Option<u32>
        requires { IsSound (state_of self.now).config }
        ensures { result ≡ rules.denial (state_of self.now) (Event.Link port node provide) }
    {
        let at_once = first_failing(&[
            (1, self.links.is_live_port(port)),
            (20, !self.links.is_linked(port)),
            (21, self.links.has_provision(node, provide)),
        ]);
        if at_once.is_some() {
            return at_once;
        }
        let owner = self.links.gate(port).owner;
        first_failing(&[
            (22, self.is_settled(owner)),
            (
                23,
                self.links
                    .stays_without_cycle(port, Target { node, provide }),
            ),
        ])
    }

    fn denies_unlink(&self, port: u32) -> Option<u32>
        requires { IsSound (state_of self.now).config }
        ensures { result ≡ rules.denial (state_of self.now) (Event.Unlink port) }
    {
        let owner = self.links.gate(port).owner;
        first_failing(&[
            (1, self.links.is_live_port(port)),
            (3, self.links.is_linked(port)),
            (22, self.is_settled(owner)),
        ])
    }

    fn denies_remove(&self, node: u32) -> Option<u32>
        requires { IsSound (state_of self.now).config }
        ensures { result ≡ rules.denial (state_of self.now) (Event.Remove node) }
    {
        first_failing(&[
            (24, self.links.is_live(node)),
            (22, self.is_settled(node)),
            (25, self.links.is_apart(node)),
        ])
    }
}
