//! An index of names that differ.

ghost use Rattle.std.specs.Prelude.{◌≡◌, ◌++◌, [], ◌∷◌, IfOk, IfSome, ◌<◌, not, map, option_map, bytes_eq, position, take, length, ◌-◌};
ghost use Rattle.std.specs.Bool.{OnTrue, OnFalse};
ghost use Rattle.darwin_types.specs.Scope.{has};
ghost use Rattle.darwin_types.specs.Check.{Judges, repeat_fault, repeat_faults};

use crate::TypeError;
use crate::refusal::repeated;
use base::Text;
use indexmap::IndexSet;
use std::alloc::{AllocError, Global};
use std::marker::Model;

/// So many names are looked through one after another, which takes less time than a hash.
const FEW_NAMES: usize = 8;

/// Names that differ, in the order in which they were added. They are copies, since those of components are
/// kept beside their description. Contracts see the list of them.
#[derive(Drop)]
pub struct Names {
    set: IndexSet<Vec<u8>>,
}

impl Model for Names {
    ghost use Rattle.std.specs.Prelude.{List, ℕ, map};

    ghost Value = { List (List ℕ) };

    ghost view = { λ n. map (λ k. k.items) n.set.keys };
}

impl Names {
    /// No names.
    pub fn new(alloc: Global) -> Names
        ensures { result ≡ [] }
    {
        Names {
            set: IndexSet::new(alloc),
        }
    }

    /// Whether the name is one of them.
    pub fn contains(&self, name: &[u8]) -> bool
        ensures { result ≡ has self.now name.now }
    {
        self.position(name).is_some()
    }

    /// The place of the name among them.
    pub fn position(&self, name: &[u8]) -> Option<usize>
        ensures place { result ≡ position (bytes_eq name.now) self.now }
        ensures within { IfSome result (λ i. i < length self.now) }
    {
        let names = self.set.as_slice();
        if names.len() <= FEW_NAMES {
            position_among(names, name)
        } else {
            self.set.get_index_of(name)
        }
    }

    /// Adds the name at the end, and says whether it wasn't there before; if it was, nothing changes.
    pub fn add(&mut self, alloc: Global, name: &[u8]) -> Result<bool, AllocError>
        ensures added { IfOk result (λ new. OnTrue new (self.new ≡ self.old ++ name.now ∷ [])) }
        ensures kept { IfOk result (λ new. OnFalse new (self.new ≡ self.old)) }
        ensures before { IfOk result (λ new. has self.old name.now ≡ not new) }
    {
        let key = Vec::from_slice(alloc, name)?;
        Ok(self.set.insert(key)?)
    }

    /// Takes the last name away.
    pub fn remove_last(&mut self)
        ensures { self.new ≡ take (length self.old - 1) self.old }
    {
        let _ = self.set.pop();
    }
}

/// The place of the name among these.
fn position_among(names: &[Vec<u8>], name: &[u8]) -> Option<usize>
    ensures place { result ≡ position (λ k. bytes_eq name.now k.items) names.now }
    ensures within { IfSome result (λ i. i < length names.now) }
{
    names.iter().position(|known| name == known.as_slice())
}

/// What has a name.
pub trait Named {
    ghost use Rattle.std.specs.Prelude.{List, ℕ};

    ghost name_of: { Self → List ℕ };

    fn name(&self) -> &Text
        ensures { result.now ≡ name_of self.now };
}

/// Indexes names that have to differ: those of one class in a component, or else in the description.
pub fn distinct<T: Named>(
    alloc: Global,
    component: Option<&Text>,
    items: &[T],
) -> Result<Names, TypeError>
    ensures judged { Judges
        (repeat_faults (repeat_fault (option_map (λ c. c.now) component.entry)) (map T.name_of items.now))
        result }
    ensures names { IfOk result (λ index. index ≡ map T.name_of items.now) }
{
    let mut index = Names::new(alloc);
    for item in items {
        let name = item.name();
        if !index.add(alloc, name.as_bytes())? {
            return repeated(component, name);
        }
    }
    Ok(index)
}
