//! A hand's way in to one inbox.

ghost use Rattle.std.specs.Prelude.{◌≡◌, ◌<◌, IfErr, MatchOption, MatchResult};
ghost use Rattle.config_graph.specs.declared.TheConstants.{MAX_PORTS};
ghost use Rattle.crossbeam_queue.specs.Fifo.{Held};
ghost use Rattle.crossbeam_queue.specs.Passes.{IsPassOf, IsSamePass, ruled_capacity, view};
ghost use Rattle.live_hands.specs.Hands.{IsRefused, seen_by, with_post, with_take};
ghost use Rattle.live_hands.specs.Inbox.{HeldFor};
ghost use Rattle.port_queue.specs.declared.TheConstants.{MAX_HINTS};

use crate::inbox;
use crate::inbox::{Inbox, Way};
use port_queue::Full;
use std::sync::Wait;

/// A way in to one inbox, and how often it was found full or empty. The count stands still at its last value.
#[derive(Drop)]
pub struct Entry {
    pub way: Way,
    pub refused: u64,
}

impl Entry {
    pub fn post<R: Wait>(&mut self, rt: &R, inbox: &Inbox, port: u32) -> Result<(), Full>
        requires way { IsPassOf inbox.now self.old.way × (ruled_capacity inbox.now ≡ MAX_HINTS) }
        requires port { port < MAX_PORTS }
        ensures way { IsSamePass self.old.way self.new.way }
        ensures seen { MatchResult result
            (λ _. seen_by self.new.way self.new.refused ≡ with_post (seen_by self.old.way self.old.refused) port)
            (λ _. IsRefused (seen_by self.old.way self.old.refused) (seen_by self.new.way self.new.refused)) }
        ensures full { IfErr result (λ _. Held MAX_HINTS (HeldFor (view self.old.way))) }
    {
        match inbox::post(rt, inbox, &mut self.way, port) {
            Ok(()) => Ok(()),
            Err(_) => {
                self.refused = self.refused.saturating_add(1);
                Err(Full)
            }
        }
    }

    pub fn next<R: Wait>(&mut self, rt: &R, inbox: &Inbox) -> Option<u32>
        requires { IsPassOf inbox.now self.old.way }
        ensures way { IsSamePass self.old.way self.new.way }
        ensures seen { MatchOption result
            (IsRefused (seen_by self.old.way self.old.refused) (seen_by self.new.way self.new.refused))
            (λ port. (port < MAX_PORTS)
            × (seen_by self.new.way self.new.refused ≡ with_take (seen_by self.old.way self.old.refused) port)) }
        ensures empty { MatchOption result (Held 0 (HeldFor (view self.old.way))) (λ _. Unit {0}) }
    {
        let found = inbox::next(rt, inbox, &mut self.way);
        if found.is_none() {
            self.refused = self.refused.saturating_add(1);
        }
        found
    }
}
