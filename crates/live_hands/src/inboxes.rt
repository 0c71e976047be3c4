//! The inboxes of all nodes are made, with a number of hands.

ghost use Rattle.std.specs.Prelude.{◌≡◌, ◌≤◌, IfOk, length, map, replicate};
ghost use Rattle.config_graph.specs.declared.TheConstants.{MAX_NODES};
ghost use Rattle.live_hands.specs.Hands.{nothing_seen, shown, unused};
ghost use Rattle.live_hands.specs.Opens.{Opens};
ghost use Rattle.base.specs.Paired.{Paired};

use crate::entry::Entry;
use crate::hand::Hand;
use crate::inbox;
use crate::inbox::Inbox;
use config_graph::{MAX_NODES, NoMemory};
use std::alloc::Global;
use std::sync::{Arc, Wait};

/// The inboxes of all nodes that one run may make. What they hold is known by their hands alone.
pub struct Inboxes;

impl Inboxes {
    /// Empty inboxes, and so many hands to them. It takes the memory of all hints that they may hold, some 17 million
    /// bytes; the hands' calls take none.
    pub fn with_hands<R: Wait + Copy>(
        rt: R,
        alloc: Global,
        hands: u32,
    ) -> Result<Vec<Hand<R>>, NoMemory>
        requires { 1 ≤ hands }
        ensures { IfOk result (λ v. v.items ≡ replicate hands nothing_seen) }
    {
        let mut all = Vec::with_capacity(alloc, hands as usize)?;
        let mut last = first_hand(rt, alloc)?;
        for _ in 1..hands {
            let (first, second) = last.doubled(alloc)?;
            all.push(second)?;
            last = first;
        }
        all.push(last)?;
        Ok(all)
    }
}

/// The empty inboxes of all nodes, and the first way in to each.
fn first_row(alloc: Global) -> Result<(Vec<Inbox>, Vec<Entry>), NoMemory>
    ensures inboxes { IfOk result (λ r. length r.0.items ≡ MAX_NODES) }
    ensures opens { IfOk result (λ r. Paired Opens r.0.items r.1.items) }
    ensures fresh { IfOk result (λ r. map shown r.1.items ≡ nothing_seen) }
{
    let mut inboxes = Vec::with_capacity(alloc, MAX_NODES as usize)?;
    let mut entries = Vec::with_capacity(alloc, MAX_NODES as usize)?;
    for node in 0..MAX_NODES {
        let _ = node;
        let (inbox, way) = inbox::inbox(alloc)?;
        inboxes.push(inbox)?;
        entries.push(Entry { way, refused: 0 })?;
    }
    Ok((inboxes, entries))
}

/// Another way in to each.
fn another_row(
    alloc: Global,
    inboxes: &Vec<Inbox>,
    entries: &mut Vec<Entry>,
) -> Result<Vec<Entry>, NoMemory>
    requires inboxes { length inboxes.now.items ≡ MAX_NODES }
    requires entries { length entries.old.items ≡ MAX_NODES }
    requires opens { Paired Opens inboxes.now.items entries.old.items }
    ensures opens { Paired Opens inboxes.now.items entries.new.items }
    ensures kept { map shown entries.new.items ≡ map shown entries.old.items }
    ensures more { IfOk result (λ r. Paired Opens inboxes.now.items r.items × (map shown r.items ≡ nothing_seen)) }
{
    let mut more = Vec::with_capacity(alloc, MAX_NODES as usize)?;
    for at in 0..MAX_NODES as usize {
        let way = inbox::another(&inboxes[at], &mut entries[at].way);
        more.push(Entry { way, refused: 0 })?;
    }
    Ok(more)
}

fn first_hand<R: Wait + Copy>(rt: R, alloc: Global) -> Result<Hand<R>, NoMemory>
    ensures { IfOk result (λ h. h ≡ nothing_seen) }
{
    let (inboxes, entries) = first_row(alloc)?;
    let inboxes = Arc::new(alloc, inboxes)?;
    Ok(Hand {
        rt,
        inboxes,
        entries,
    })
}

impl<R: Wait + Copy> Hand<R> {
    /// This hand, and another that has done nothing.
    fn doubled(self, alloc: Global) -> Result<(Hand<R>, Hand<R>), NoMemory>
        ensures { IfOk result (λ r. (r.0 ≡ self) × (r.1 ≡ nothing_seen)) }
    {
        let Hand {
            rt,
            inboxes,
            mut entries,
        } = self;
        let more = another_row(alloc, &inboxes, &mut entries)?;
        let theirs = Arc::try_clone(&inboxes)?;
        let first = Hand {
            rt,
            inboxes,
            entries,
        };
        let second = Hand {
            rt,
            inboxes: theirs,
            entries: more,
        };
        Ok((first, second))
    }
}
