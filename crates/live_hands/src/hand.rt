//! A worker's way in to the inboxes of all nodes.

ghost use Rattle.std.specs.Prelude.{◌≡◌, ◌<◌, None, IfErr, List, MatchOption, MatchResult, length, map, slice_set};
ghost use Rattle.std.specs.Arc.{arc_value};
ghost use Rattle.config_graph.specs.declared.TheConstants.{MAX_NODES, MAX_PORTS};
ghost use Rattle.crossbeam_queue.specs.Fifo.{Held};
ghost use Rattle.live_hands.specs.Hands.{IsRefused, Seen, counts_of, of, seen_by, with_post, with_take};
ghost use Rattle.live_hands.specs.Inbox.{HeldFor};
ghost use Rattle.live_hands.specs.Opens.{Opens};
ghost use Rattle.base.specs.Paired.{Paired};
ghost use Rattle.port_queue.specs.declared.TheConstants.{MAX_HINTS};

use crate::entry::Entry;
use crate::inbox::Inbox;
use port_queue::{Full, Hints};
use std::marker::Model;
use std::sync::{Arc, Wait};

/// A worker's way in to the inboxes of all nodes, which it shares with other hands. Contracts see what it posted and
/// took of each, in order, and how often it found it full or empty.
#[derive(Drop)]
pub struct Hand<R: Wait> {
    pub(crate) rt: R,
    pub(crate) inboxes: Arc<Vec<Inbox>>,
    pub(crate) entries: Vec<Entry>,
}

impl<R: Wait> Model for Hand<R> {
    ghost Value = { List Seen };

    ghost view = { λ h. map (λ e. seen_by e.way e.refused) h.entries.items };

    ghost invariant = { λ h. (length (arc_value h.inboxes).items ≡ MAX_NODES) × (length h.entries.items ≡ MAX_NODES)
        × Paired Opens (arc_value h.inboxes).items h.entries.items };
}

impl<R: Wait> Hand<R> {
    /// Puts a hint at the end of the node's inbox. `Full` comes only where this held `MAX_HINTS` hints at that step.
    pub fn post_hint(&mut self, node: u32, port: u32) -> Result<(), Full>
        requires node { node < MAX_NODES }
        requires port { port < MAX_PORTS }
        ensures places { length self.old ≡ MAX_NODES }
        ensures seen { MatchResult result
            (λ _. self.new ≡ slice_set self.old node (with_post (of self.old node) port))
            (λ _. (s : Seen) × (self.new ≡ slice_set self.old node s) × IsRefused (of self.old node) s) }
        ensures full { IfErr result (λ _. Held MAX_HINTS (HeldFor (of self.old node).hints)) }
    {
        let at = node as usize;
        let inboxes: &Vec<Inbox> = &self.inboxes;
        let posted = self.entries[at].post(&self.rt, &inboxes[at], port);
        posted
    }

    /// Takes the hint at the front of the node's inbox. There is none only where this was empty at that step.
    pub fn next_hint(&mut self, node: u32) -> Option<u32>
        requires { node < MAX_NODES }
        ensures places { length self.old ≡ MAX_NODES }
        ensures seen { MatchOption result
            ((s : Seen) × (self.new ≡ slice_set self.old node s) × IsRefused (of self.old node) s)
            (λ port. (port < MAX_PORTS) × (self.new ≡ slice_set self.old node (with_take (of self.old node) port))) }
        ensures empty { MatchOption result (Held 0 (HeldFor (of self.old node).hints)) (λ _. Unit {0}) }
    {
        let at = node as usize;
        let inboxes: &Vec<Inbox> = &self.inboxes;
        self.entries[at].next(&self.rt, &inboxes[at])
    }
}

impl<R: Wait> Hints for Hand<R> {
    ghost counts = { λ h node. counts_of (of h node) };

    ghost tells = { λ h node. None };

    fn post(&mut self, node: u32, port: u32) -> Result<(), Full> {
        self.post_hint(node, port)
    }

    fn next(&mut self, node: u32) -> Option<u32> {
        self.next_hint(node)
    }
}
