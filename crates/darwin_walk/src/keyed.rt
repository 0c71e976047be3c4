//! An index of what has a name.

ghost use Rattle.std.specs.Prelude.{IfOk};
ghost use Rattle.darwin_walk.specs.Finds.{Finds};

use indexmap::IndexMap;
use std::alloc::{AllocError, Global};

/// What is found by its name, which outlives it.
pub(crate) trait Keyed<'a>: Copy {
    ghost use Rattle.std.specs.Prelude.{List, ℕ, ◌≡◌};

    ghost name_of: { Self → List ℕ };

    fn key(&self) -> &'a [u8]
        ensures { result.now ≡ name_of self.now };
}

/// An index of these by their names; of those with one name it has the first.
pub(crate) fn by_name<'a, T: Keyed<'a>>(
    alloc: Global,
    items: &[T],
) -> Result<IndexMap<&'a [u8], T>, AllocError>
    ensures { IfOk result (λ index. Finds T.name_of index.entries items.now) }
{
    let mut index = IndexMap::with_capacity(alloc, items.len())?;
    let mut left = items;
    // From the last on, so that the first of a name comes to stand for it.
    while let Some((item, before)) = left.split_last() {
        index.insert(item.key(), *item)?;
        left = before;
    }
    Ok(index)
}
