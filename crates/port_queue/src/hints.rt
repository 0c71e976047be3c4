//! Inboxes of hints, one a node.

ghost use Rattle.std.specs.Prelude.{◌≡◌, ◌≢◌, ℕ, ◌<◌, ◌↔◌, true, List, Option, Some, IfSome, IsOk};
ghost use Rattle.config_graph.specs.declared.TheConstants.{MAX_NODES, MAX_PORTS};
ghost use Rattle.port_queue.specs.Inboxes.{Counts, CountsNext, CountsPost, after_next, after_post, front, has_room};

use thiserror::Error;

/// The inbox is full.
#[derive(Clone, Copy, Debug, PartialEq, Eq, Error)]
#[error("the inbox is full")]
pub struct Full;

/// A way into the inboxes. Each inbox is a list of ports, first in, first out. No call takes memory.
pub trait Hints {
    /// What this way counts of a node.
    ghost counts: { Self → ℕ → Counts };

    /// The inbox of a node, where the way tells it: a way that is shared with others doesn't.
    ghost tells: { Self → ℕ → Option (List ℕ) };

    /// Puts a hint at the end of the node's inbox.
    fn post(&mut self, node: u32, port: u32) -> Result<(), Full>
        requires node { node < MAX_NODES }
        requires port { port < MAX_PORTS }
        ensures counts { CountsPost (counts self.old node) result (counts self.new node) }
        ensures full { (held : List ℕ) → tells self.old node ≡ Some held → (IsOk result ↔ (has_room held ≡ true)) }
        ensures posted { (held : List ℕ) → tells self.old node ≡ Some held
            → tells self.new node ≡ Some (after_post held port) }
        ensures others { (other : ℕ) → other ≢ node → counts self.new other ≡ counts self.old other }
        ensures other_inboxes { (other : ℕ) → other ≢ node → tells self.new other ≡ tells self.old other };

    /// Takes the hint at the front of the node's inbox.
    fn next(&mut self, node: u32) -> Option<u32>
        requires node { node < MAX_NODES }
        ensures port { IfSome result (λ port. port < MAX_PORTS) }
        ensures counts { CountsNext (counts self.old node) result (counts self.new node) }
        ensures front { (held : List ℕ) → tells self.old node ≡ Some held → result ≡ front held }
        ensures taken { (held : List ℕ) → tells self.old node ≡ Some held
            → tells self.new node ≡ Some (after_next held) }
        ensures others { (other : ℕ) → other ≢ node → counts self.new other ≡ counts self.old other }
        ensures other_inboxes { (other : ℕ) → other ≢ node → tells self.new other ≡ tells self.old other };
}
