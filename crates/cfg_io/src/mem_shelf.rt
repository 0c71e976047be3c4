//! A shelf in memory.

ghost use Rattle.std.specs.Prelude.{◌≡◌, ◌≢◌, ◌≤◌, ◌+◌, ◌++◌, ◌∷◌, [], ℕ, List, Some, IfOk, OnOk, OnErr, Err, min, vec_len};
ghost use Rattle.cfg_io.specs.Shelf.{CarriesLimit, MayAnswer, failed_after};
ghost use Rattle.cfg_io.specs.Store.{FailsExactly, FailsNext, look_up};

use crate::NoMemory;
use crate::shelf::{Shelf, ShelfError};
use std::alloc::Global;
use std::collections::BTreeMap;
use std::marker::Model;

/// Files in memory. Contracts see them as pairs of a name and bytes, with the numbers of the fetches
/// that are to fail, the number of the next fetch, and the names on which it failed.
#[derive(Drop)]
pub struct MemShelf {
    alloc: Global,
    files: BTreeMap<String, Vec<u8>>,
    failing_fetches: Vec<u64>,
    next: u64,
    failed: Vec<String>,
}

impl Model for MemShelf {
    ghost use Rattle.std.specs.Prelude.{map, string_bytes};
    ghost use Rattle.cfg_io.specs.Store.{ShelfInMemory};

    ghost Value = { ShelfInMemory };

    ghost view = { λ s. record {
      files = map (λ file. (string_bytes file.0, file.1.items)) s.files.entries;
      failing_fetches = s.failing_fetches.items;
      next = s.next;
      failed = map string_bytes s.failed.items;
    } };
}

impl MemShelf {
    /// A shelf without files.
    pub fn new(alloc: Global) -> MemShelf
        ensures { result ≡ record { files = []; failing_fetches = []; next = 0; failed = [] } }
    {
        MemShelf {
            alloc,
            files: BTreeMap::new(alloc),
            failing_fetches: Vec::new(alloc),
            next: 0,
            failed: Vec::new(alloc),
        }
    }

    /// Puts a file of this name there, in place of one that had the name.
    pub fn add(&mut self, name: &str, bytes: &[u8]) -> Result<(), NoMemory>
        ensures there { OnOk result (look_up self.new.files name.now ≡ Some bytes.now) }
        ensures others { OnOk result ((other : List ℕ) → other ≢ name.now →
            look_up self.new.files other ≡ look_up self.old.files other) }
        ensures rest { self.new ≡ record self.old { files = self.new.files } }
        ensures err { OnErr result (self.new ≡ self.old) }
    {
        let name = String::from_str(self.alloc, name)?;
        let bytes = Vec::from_slice(self.alloc, bytes)?;
        self.files.insert(name, bytes)?;
        Ok(())
    }

    /// Makes the fetch of this number fail, counted from 0. One that wants memory is not counted.
    pub fn fail_at(&mut self, call: u32) -> Result<(), NoMemory>
        ensures ok { OnOk result
            (self.new ≡ record self.old { failing_fetches = self.old.failing_fetches ++ call ∷ [] }) }
        ensures err { OnErr result (self.new ≡ self.old) }
    {
        self.failing_fetches.push(u64::from(call))?;
        Ok(())
    }

    // What the next fetch answers, with memory enough.
    fn answer(&self, name: &str, limit: u32) -> Result<Vec<u8>, ShelfError>
        ensures within { IfOk result (λ bytes. vec_len bytes ≤ limit) }
        ensures carries { CarriesLimit result limit }
        ensures told { MayAnswer (look_up self.now.files name.now) limit result }
        ensures fails { FailsExactly (FailsNext self.now name.now) result }
    {
        if self.failing_fetches.contains(&self.next) {
            return Err(ShelfError::Failed);
        }
        let Some(bytes) = self.files.get(name) else {
            return Err(ShelfError::Failed);
        };
        if bytes.len() > limit as usize {
            return Err(ShelfError::TooLong { limit });
        }
        Ok(Vec::from_slice(self.alloc, bytes.as_slice())?)
    }
}

impl Shelf for MemShelf {
    ghost failed = { λ s. s.failed };

    ghost files = { λ s. Some (look_up s.files) };

    fn fetch(&mut self, name: &str, limit: u32) -> Result<Vec<u8>, ShelfError>
        ensures within { IfOk result (λ bytes. vec_len bytes ≤ limit) }
        ensures carries { CarriesLimit result limit }
        ensures told { MayAnswer (look_up self.old.files name.now) limit result }
        ensures noted { self.new.failed ≡ failed_after result name.now self.old.failed }
        ensures kept { self.new.files ≡ self.old.files }

        // But for want of memory, which changes nothing, it fails exactly where it is to fail.
        ensures fails { FailsExactly (FailsNext self.old name.now) result }
        ensures counted { result ≢ Err ShelfError.NoMemory →
            self.new.next ≡ min (self.old.next + 1) u64.MAX }
        ensures failing_kept { self.new.failing_fetches ≡ self.old.failing_fetches }
        ensures no_memory { result ≡ Err ShelfError.NoMemory → self.new ≡ self.old }
    {
        let answer = self.answer(name, limit);
        match &answer {
            Err(ShelfError::NoMemory) => return answer,
            Err(ShelfError::Failed) => {
                self.failed.push(String::from_str(self.alloc, name)?)?;
            }
            Ok(_) | Err(ShelfError::TooLong { .. }) => {}
        }
        self.next = self.next.saturating_add(1);
        answer
    }
}
