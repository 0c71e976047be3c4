//! One who looks.

ghost use Rattle.std.specs.Prelude.{◌≡◌, ◌≤◌, length, max, [], IfOk};
ghost use Rattle.watch_view.specs.Known.{Reads, known_by};
ghost use Rattle.watch_lines.specs.Lists.{BeginsWith};
ghost use Rattle.watch_view.specs.Rule.{IsLast, Looks};

use crate::rule::{GraphReader, GraphReading, Looking};
use crate::{Note, Seen};
use config_graph::NoMemory;
use core::mem::replace_with;
use std::marker::Model;
use std::sync::Wait;
use std::thread;

/// Looks at the graphs that a writer publishes. Contracts see the list as it was at the last look, and the greatest
/// number of commits that was read or learned.
#[derive(Drop)]
pub struct Viewer {
    reader: GraphReader,
    seen: u32,
}

impl Model for Viewer {
    ghost use Rattle.std.specs.Prelude.{◌≤◌, length};
    ghost use Rattle.watch_view.specs.Known.{Watching, known_by};

    ghost Value = { Watching };

    ghost view = { λ v. record { list = known_by v.reader.place; seen = v.seen } };

    ghost invariant = { λ v. length (known_by v.reader.place) ≤ v.seen };
}

impl Viewer {
    pub(crate) fn over(reader: GraphReader) -> Viewer
        requires { known_by reader.place ≡ [] }
        ensures { result ≡ record { list = []; seen = 0 } }
    {
        Viewer { reader, seen: 0 }
    }

    /// The greatest number of commits that this viewer read or learned.
    pub fn seen(&self) -> u32
        ensures seen { result ≡ self.now.seen }
        ensures read { length self.now.list ≤ result }
    {
        self.seen
    }

    /// Learns what the writer told: no later read answers a smaller number.
    pub fn learn(&mut self, note: &Note)
        ensures { self.new ≡ record { list = self.old.list; seen = max self.old.seen note.now.commits } }
    {
        self.seen = self.seen.max(note.commits);
    }

    /// How many graphs were published, and the last of them. It looks again where the copies let no one in, and where
    /// the number is smaller than one that was learned. Where memory runs out, it has looked and answers nothing.
    pub fn read<R: Wait>(&mut self, rt: &R) -> Result<Seen, NoMemory>
        ensures last { IfOk result (IsLast self.new.list) }
        ensures reads { Reads self.old self.new }
    {
        let least = self.seen;
        let (commits, answer) = replace_with(&mut self.reader, rt, |reader, rt| {
            look(rt, reader, least)
        });
        self.seen = commits;
        answer
    }
}

/// Looks until at least so many graphs were published. It tells how many there were, and what is seen.
fn look<R: Wait>(
    rt: &R,
    reader: GraphReader,
    least: u32,
) -> (GraphReader, (u32, Result<Seen, NoMemory>))
    ensures last { IfOk result.1.1 (IsLast (known_by result.0.place)) }
    ensures number { (result.1.0 ≡ length (known_by result.0.place)) × (least ≤ result.1.0) }
    ensures begins { BeginsWith (known_by result.0.place) (known_by reader.place) }
{
    let reading = open(rt, reader, least);
    let commits = reading.get().commits;
    let answer = reading.get().try_clone();
    (reading.leave(), (commits, answer))
}

/// Opens what is shown, once at least so many graphs were published.
fn open<R: Wait>(rt: &R, reader: GraphReader, least: u32) -> GraphReading
    ensures looks { Looks (known_by reader.place) result.part.value (known_by result.place) }
    ensures number { least ≤ result.part.value.commits }
{
    let mut closed = reader;
    for _ in rt.forever() {
        match closed.enter_as::<Looking>() {
            Ok(reading) => {
                if reading.get().commits >= least {
                    return reading;
                }
                closed = reading.leave();
            }
            Err(reader) => closed = reader,
        }
        thread::yield_now();
    }
    unreachable!()
}
