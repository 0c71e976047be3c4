//! Which instance has a path. Paths stand in the instances alone: the index has their hashes, and numbers.

ghost use Rattle.std.specs.Prelude.{◌≡◌, ◌≢◌, ℕ, ◌<◌, [], ◌∷◌, map, length, slice_get, None, Some, IfOk, OnOk, MatchOption};
ghost use Rattle.elaborator.specs.PathNumbers.{path_hash, last_of, LeadsTo, IsStart, IsEntered};
ghost use Rattle.elaborator.specs.declared.instance.Instance as shown;

use crate::instance::Instance;
use indexmap::IndexMap;
use std::alloc::{AllocError, Global};
use std::hash::{FoldHasher, Hasher};

/// Numbers by the hashes of paths. The first number, that of the top, is found by none.
#[derive(Drop)]
pub struct PathIndex {
    /// The last number of those whose paths have a hash.
    pub last: IndexMap<u64, u32>,
    /// For each number the one before it whose path has the same hash.
    pub before: Vec<Option<u32>>,
}

fn hash_of(path: &[u8]) -> u64
    ensures { result ≡ path_hash path.now }
{
    let mut hasher = FoldHasher::default();
    hasher.write(path);
    hasher.finish()
}

impl PathIndex {
    /// An index of the top alone.
    pub fn new(alloc: Global) -> Result<PathIndex, AllocError>
        ensures before { IfOk result (λ index. index.before.items ≡ None ∷ []) }
        ensures empty { IfOk result (λ index. index.last.entries ≡ []) }
    {
        let mut before = Vec::new(alloc);
        before.push(None)?;
        Ok(PathIndex {
            last: IndexMap::new(alloc),
            before,
        })
    }

    /// The last number of those whose paths have the hash of this one.
    pub fn last_like(&self, path: &[u8]) -> Option<u32>
        ensures { result ≡ last_of self.now (path_hash path.now) }
    {
        self.last.get(&hash_of(path)).copied()
    }

    /// Enters a path under the next number, and answers the last number before it of those with its hash.
    pub fn enter(&mut self, path: &[u8]) -> Result<Option<u32>, AllocError>
        requires few { length self.old.before.items < 65537 }
        ensures before { IfOk result (λ before. before ≡ last_of self.old (path_hash path.now)) }
        ensures entered { OnOk result (IsEntered self.old path.now self.new) }
    {
        let number = self.before.len() as u32;
        let before = self.last.insert(hash_of(path), number)?;
        self.before.push(before)?;
        Ok(before)
    }

    /// The number of the instance of the path among those to which this number leads.
    pub fn find_from(&self, start: Option<u32>, instances: &[Instance], path: &[u8]) -> Option<u32>
        requires { IsStart (map (λ (i : shown.Instance). i.path) instances.now) self.now.before.items start }
        ensures { MatchOption result
            ((n : ℕ) → LeadsTo self.now.before.items n start
            → slice_get (map (λ (i : shown.Instance). i.path) instances.now) n ≢ Some path.now)
            (λ n. (0 < n) × (slice_get (map (λ (i : shown.Instance). i.path) instances.now) n ≡ Some path.now)) }
    {
        let mut next = start;
        while let Some(number) = next {
            if instances[number as usize].path.as_bytes() == path {
                return Some(number);
            }
            next = self.before[number as usize];
        }
        None
    }
}
