//! One inbox, and what is counted of its answers.

ghost use Rattle.std.specs.Prelude.{◌≡◌, ◌<◌, ◌↔◌, true, IfOk, IfSome, IsOk, None, Some};
ghost use Rattle.config_graph.specs.declared.TheConstants.{MAX_PORTS};
ghost use Rattle.port_queue.specs.Inboxes.{CountsNext, CountsPost, after_next, after_post, front, has_room};
ghost use Rattle.port_queue.specs.Plain.{empty_box};

use crate::MAX_HINTS;
use crate::hints::Full;
use config_graph::NoMemory;
use std::alloc::Global;
use std::collections::VecDeque;
use std::marker::Model;

/// Hints in order, each the number of a port in the fewest bytes, since the memory of all is taken at the start; the
/// number of None and Full answers, the number of hints given, and the last one given. The counts stand still at their
/// last value.
#[derive(Drop)]
pub struct Inbox {
    ports: VecDeque<u16>,
    refused: u64,
    given: u64,
    last: Option<u32>,
}

impl Model for Inbox {
    ghost use Rattle.std.specs.VecDeque.{deque_capacity, deque_len};
    ghost use Rattle.port_queue.specs.Plain.{Box, IsWithin};

    ghost Value = { Box };

    ghost view = { λ b.
        record { held = b.ports.items; counts = record { refused = b.refused; given = b.given; last = b.last } } };

    ghost invariant = { λ b. IsWithin b.ports.items (deque_len b.ports) (deque_capacity b.ports) };
}

impl Inbox {
    /// An empty inbox with room for all hints that it may hold.
    pub fn new(alloc: Global) -> Result<Inbox, NoMemory>
        ensures { IfOk result (λ b. b ≡ empty_box) }
    {
        let ports = VecDeque::with_capacity(alloc, MAX_HINTS as usize)?;
        Ok(Inbox {
            ports,
            refused: 0,
            given: 0,
            last: None,
        })
    }

    pub fn post(&mut self, port: u32) -> Result<(), Full>
        requires { port < MAX_PORTS }
        ensures counts { CountsPost self.old.counts result self.new.counts }
        ensures full { IsOk result ↔ (has_room self.old.held ≡ true) }
        ensures posted { self.new.held ≡ after_post self.old.held port }
    {
        if self.ports.len() >= MAX_HINTS as usize {
            self.refused = self.refused.saturating_add(1);
            return Err(Full);
        }
        self.ports.push_back_reserved(port as u16);
        Ok(())
    }

    pub fn next(&mut self) -> Option<u32>
        ensures port { IfSome result (λ port. port < MAX_PORTS) }
        ensures counts { CountsNext self.old.counts result self.new.counts }
        ensures front { result ≡ front self.old.held }
        ensures taken { self.new.held ≡ after_next self.old.held }
    {
        let Some(port) = self.ports.pop_front() else {
            self.refused = self.refused.saturating_add(1);
            return None;
        };
        self.given = self.given.saturating_add(1);
        let port = port as u32;
        self.last = Some(port);
        Some(port)
    }
}
