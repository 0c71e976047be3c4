//! The hall is made, with a number of doors.

ghost use Rattle.std.specs.Prelude.{◌≡◌, ◌≤◌, IfOk, length, map, replicate};
ghost use Rattle.config_graph.specs.declared.TheConstants.{MAX_NODES};
ghost use Rattle.live_hall.specs.Doors.{Opens, missed, none_missed};
ghost use Rattle.base.specs.Paired.{Paired};

use crate::cell;
use crate::cell::{Cell, Named};
use crate::door::Door;
use crate::lock::Lock;
use config_graph::{MAX_NODES, NoMemory};
use std::alloc::Global;
use std::sync::{Arc, Wait};

/// A cell with one place for each slot. What lies in them is known by what its doors take out.
pub struct Hall;

impl Hall {
    /// An empty hall, and so many doors to it. It takes the memory of all places; the doors' calls take none.
    pub fn with_doors<J: Named, R: Wait + Copy>(
        rt: R,
        alloc: Global,
        doors: u32,
    ) -> Result<Vec<Door<J, R>>, NoMemory>
        requires { 1 ≤ doors }
        ensures { IfOk result (λ v. v.items ≡ replicate doors none_missed) }
    {
        let mut all = Vec::with_capacity(alloc, doors as usize)?;
        let mut last = first_door::<J, R>(rt, alloc)?;
        for _ in 1..doors {
            let (first, second) = last.doubled(alloc)?;
            all.push(second)?;
            last = first;
        }
        all.push(last)?;
        Ok(all)
    }
}

/// The cells of all slots, and the first key to each.
fn first_row<J: Named>(alloc: Global) -> Result<(Vec<Cell<J>>, Vec<Lock>), NoMemory>
    ensures cells { IfOk result (λ r. length r.0.items ≡ MAX_NODES) }
    ensures opens { IfOk result (λ r. Paired Opens r.0.items r.1.items) }
    ensures fresh { IfOk result (λ r. map missed r.1.items ≡ none_missed) }
{
    let mut cells = Vec::with_capacity(alloc, MAX_NODES as usize)?;
    let mut locks = Vec::with_capacity(alloc, MAX_NODES as usize)?;
    for slot in 0..MAX_NODES {
        let (cell, key) = cell::cell::<J>(alloc, slot)?;
        cells.push(cell)?;
        locks.push(Lock { key, missed: 0 })?;
    }
    Ok((cells, locks))
}

/// Another key to each cell.
fn another_row<J: Named>(
    alloc: Global,
    cells: &Vec<Cell<J>>,
    locks: &mut Vec<Lock>,
) -> Result<Vec<Lock>, NoMemory>
    requires cells { length cells.now.items ≡ MAX_NODES }
    requires locks { length locks.old.items ≡ MAX_NODES }
    requires opens { Paired Opens cells.now.items locks.old.items }
    ensures locks { length locks.new.items ≡ MAX_NODES }
    ensures opens { Paired Opens cells.now.items locks.new.items }
    ensures kept { map missed locks.new.items ≡ map missed locks.old.items }
    ensures more { IfOk result (λ r. (length r.items ≡ MAX_NODES) × Paired Opens cells.now.items r.items
        × (map missed r.items ≡ none_missed)) }
{
    let mut more = Vec::with_capacity(alloc, MAX_NODES as usize)?;
    for at in 0..MAX_NODES as usize {
        let key = cell::second_key(&cells[at], &mut locks[at].key);
        more.push(Lock { key, missed: 0 })?;
    }
    Ok(more)
}

/// An empty hall, and the first door to it.
fn first_door<J: Named, R: Wait + Copy>(rt: R, alloc: Global) -> Result<Door<J, R>, NoMemory>
    ensures { IfOk result (λ d. d ≡ none_missed) }
{
    let (cells, locks) = first_row::<J>(alloc)?;
    let cells = Arc::new(alloc, cells)?;
    Ok(Door { rt, cells, locks })
}

impl<J: Named, R: Wait + Copy> Door<J, R> {
    /// This door, and another to the same hall.
    fn doubled(self, alloc: Global) -> Result<(Door<J, R>, Door<J, R>), NoMemory>
        ensures { IfOk result (λ r. (r.0 ≡ self) × (r.1 ≡ none_missed)) }
    {
        let Door {
            rt,
            cells,
            mut locks,
        } = self;
        let more = another_row(alloc, &cells, &mut locks)?;
        let theirs = Arc::try_clone(&cells)?;
        let first = Door { rt, cells, locks };
        let second = Door {
            rt,
            cells: theirs,
            locks: more,
        };
        Ok((first, second))
    }
}
