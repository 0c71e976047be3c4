//! Hints for other nodes, and those that wait because an inbox was full.

ghost use Rattle.std.specs.Prelude.{◌≡◌, ◌≢◌, ℕ, ◌+◌, ◌<◌, List, None, Some, slice_index_or};
ghost use Rattle.base.specs.Count.{Rose};
ghost use Rattle.config_graph.specs.declared.TheConstants.{MAX_NODES, MAX_PORTS};
ghost use Rattle.node_host.specs.Acts.{hinted, hinted_by};
ghost use Rattle.node_host.specs.Moves.{IsSameButWaiting};
ghost use Rattle.node_host.specs.Posting.{IsPosted, PostsWaiting, Reposted};
ghost use Rattle.node_host.specs.Trying.{IsGrown, own_box, own_post};

use crate::node::HostNode;
use component_trait::Component;
use node_gate::GateSeat;
use port_queue::Hints;

/// Posts the hint for a node at the port of one requirement; where that node's inbox is full, it waits.
pub(crate) fn post<H: Hints>(
    waiting: &mut [Option<u32>; 2],
    hints: &mut H,
    first_port: u32,
    require: u32,
    node: u32,
)
    requires require { require < 2 }
    requires port { first_port + require < MAX_PORTS }
    requires node { node < MAX_NODES }
    ensures { IsPosted first_port require node (hinted_by H.Hints hints.old waiting.old)
        (hinted_by H.Hints hints.new waiting.new) }
{
    let posted = hints.post(node, first_port + require).is_ok();
    waiting[require as usize] = if posted { None } else { Some(node) };
}

impl<C: Component + Drop, S: GateSeat + Drop> HostNode<C, S> {
    /// Posts the hint that waits at one requirement, if one does.
    fn post_at<H: Hints>(&mut self, hints: &mut H, require: u32)
        requires { require < 2 }
        ensures same { IsSameButWaiting self.old self.new }
        ensures reposted { Reposted (slice_index_or self.old.waiting require None) self.old.first_port require
            (hinted H.Hints hints.old self.old) (hinted H.Hints hints.new self.new) }
        ensures own { (held : List ℕ) → H.tells hints.old self.old.slot ≡ Some held
            → H.tells hints.new self.old.slot ≡ Some (own_post self.old.slot (self.old.first_port + require)
            (slice_index_or self.old.waiting require None) held) }
        ensures grown { (node : ℕ) → IsGrown (H.counts hints.old node) (H.counts hints.new node) }
        ensures others { (other : ℕ) → other ≢ require
            → slice_index_or self.new.waiting other None ≡ slice_index_or self.old.waiting other None }
        ensures refused { (node : ℕ) → slice_index_or self.new.waiting require None ≡ Some node
            → Rose (H.counts hints.old node).refused (H.counts hints.new node).refused }
    {
        let waiting = self.waiting[require as usize];
        match waiting {
            None => {}
            Some(node) => {
                post(&mut self.waiting, hints, self.first_port, require, node);
            }
        }
    }

    /// Posts its waiting hints, by port. Those that find a full inbox go on waiting.
    pub(crate) fn post_waiting<H: Hints>(&mut self, hints: &mut H)
        ensures same { IsSameButWaiting self.old self.new }
        ensures posted { PostsWaiting self.old.first_port
            (hinted H.Hints hints.old self.old) (hinted H.Hints hints.new self.new) }
        ensures own { (held : List ℕ) → H.tells hints.old self.old.slot ≡ Some held → H.tells hints.new self.old.slot
            ≡ Some (own_box self.old.slot self.old.first_port self.old.waiting held) }
        ensures grown { (node : ℕ) → IsGrown (H.counts hints.old node) (H.counts hints.new node) }
        ensures refused { (require node : ℕ) → require < 2 → slice_index_or self.new.waiting require None ≡ Some node
            → Rose (H.counts hints.old node).refused (H.counts hints.new node).refused }
    {
        self.post_at(hints, 0);
        self.post_at(hints, 1);
    }
}
