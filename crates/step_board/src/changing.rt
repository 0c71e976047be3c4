//! Events of the change that make no node. None takes memory.

ghost use Rattle.std.specs.Prelude.{◌≡◌, true, false};
ghost use Rattle.quiesce_core.specs.Doers.{is_make, is_of_change};
ghost use Rattle.quiesce_core.specs.declared.event.Event.TheVariants as event;
ghost use Rattle.step_board.specs.Table.{MayShowNext, ShowsNext, KeepsRoom};

use crate::table::NodeTable;
use quiesce_core::Event;

impl NodeTable {
    /// Lets an event of the change happen that makes no node.
    fn perform(&mut self, event: &Event)
        requires by_change { is_of_change event.now ≡ true }
        requires no_make { is_make event.now ≡ false }
        requires allowed { MayShowNext self.old event.now }
        ensures shows { ShowsNext self.old self.new event.now }
        ensures room { KeepsRoom self.old self.new }
    {
        self.gate.core.perform(event);
    }

    /// Lets no node begin a transaction at the port any more.
    pub fn close(&mut self, port: u32)
        requires allowed { MayShowNext self.old (event.Close port) }
        ensures shows { ShowsNext self.old self.new (event.Close port) }
        ensures room { KeepsRoom self.old self.new }
    {
        self.perform(&Event::Close { port });
    }

    pub fn reopen(&mut self, port: u32)
        requires allowed { MayShowNext self.old (event.Reopen port) }
        ensures shows { ShowsNext self.old self.new (event.Reopen port) }
        ensures room { KeepsRoom self.old self.new }
    {
        self.perform(&Event::Reopen { port });
    }

    pub fn link(&mut self, port: u32, node: u32, provide: u32)
        requires allowed { MayShowNext self.old (event.Link port node provide) }
        ensures shows { ShowsNext self.old self.new (event.Link port node provide) }
        ensures room { KeepsRoom self.old self.new }
    {
        self.perform(&Event::Link {
            port,
            node,
            provide,
        });
    }

    pub fn unlink(&mut self, port: u32)
        requires allowed { MayShowNext self.old (event.Unlink port) }
        ensures shows { ShowsNext self.old self.new (event.Unlink port) }
        ensures room { KeepsRoom self.old self.new }
    {
        self.perform(&Event::Unlink { port });
    }

    /// Removes a node. It is kept, with its log, and another may take its state over.
    pub fn remove(&mut self, slot: u32)
        requires allowed { MayShowNext self.old (event.Remove slot) }
        ensures shows { ShowsNext self.old self.new (event.Remove slot) }
        ensures room { KeepsRoom self.old self.new }
    {
        self.perform(&Event::Remove { node: slot });
    }
}
