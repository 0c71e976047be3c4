//! A list of the change's events, done on a board one after the other.

ghost use Rattle.std.specs.Prelude.{◌≡◌, List, [], ◌∷◌, Option};
ghost use Rattle.quiesce_core.specs.declared.event.Event.{Event};
ghost use Rattle.quiesce_core.specs.declared.event.Event.TheVariants as event;
ghost use Rattle.txn_records.specs.declared.entry.Entry.{Entry};
ghost use Rattle.txn_records.specs.Records.{May};
ghost use Rattle.change_board.specs.Doing.{DoesEvents};
ghost use Rattle.change_board.specs.Steps.{HasRoomForAll, HasRoomToMake, HasRoomToDo, MayDoAll, less_one, room_after};

use crate::board::Board;
use config_graph::Node;
use quiesce_core::Event;

/// Makes a node in the next slot, which is this one.
fn make_in<B: Board>(board: &mut B, slot: u32, node: Node, from: Option<u32>)
    requires may { (r : List Entry) × B.stands_for board.old r × May r (event.Make slot node from) }
    requires room { HasRoomToMake (B.room board.old) from }
    ensures board { DoesEvents B.Board board.old board.new (event.Make slot node from ∷ []) }
    ensures room { B.room board.new ≡ less_one (B.room board.old) }
{
    let _ = slot;
    board.make(node, from);
}

/// Does one event of the change.
fn do_step<B: Board>(board: &mut B, event: Event)
    requires may { (r : List Entry) × B.stands_for board.old r × May r event }
    requires room { HasRoomToDo (B.room board.old) event }
    ensures board { DoesEvents B.Board board.old board.new (event ∷ []) }
    ensures room { B.room board.new ≡ room_after (B.room board.old) event }
{
    match event {
        Event::Close { port } => board.close(port),
        Event::Reopen { port } => board.reopen(port),
        Event::Unlink { port } => board.unlink(port),
        Event::Link {
            port,
            node,
            provide,
        } => board.link(port, node, provide),
        Event::Remove { node } => board.remove(node),
        Event::Make { slot, node, from } => make_in(board, slot, node, from),
        _ => {}
    }
}

/// Does these events, in order. It can't fail, and takes no memory.
pub fn do_steps<B: Board>(board: &mut B, events: Vec<Event>)
    requires may { (r : List Entry) × B.stands_for board.old r × MayDoAll r events.items }
    requires room { HasRoomForAll (B.room board.old) events.items }
    ensures { DoesEvents B.Board board.old board.new events.items }
{
    for event in events {
        do_step(board, event);
    }
}
