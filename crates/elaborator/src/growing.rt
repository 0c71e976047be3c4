//! All instances of an elaboration: each is opened in turn, and the instances that it makes are added.

ghost use Rattle.std.specs.Prelude.{◌≡◌, ◌<◌, ◌≤◌, ◌+◌, [], ◌∷◌, ◌++◌, length, slice_get, Some, IfOk};
ghost use Rattle.base.specs.Answers.{Answers};
ghost use Rattle.darwin_parser.specs.Tree.{tree_of};
ghost use Rattle.elaborator.specs.Paths.{Path};
ghost use Rattle.elaborator.specs.Instances.{Instance as PureInstance};
ghost use Rattle.elaborator.specs.Faults.{own_faults};
ghost use Rattle.elaborator.specs.Expansion.{instance_in, IsMapped};
ghost use Rattle.elaborator.specs.ExpansionFaults.{IsTop, IsWhole, GrowthFault};
ghost use Rattle.elaborator.specs.Growth.{IsGrowth, IsExtended, IsClash};
ghost use Rattle.elaborator.specs.Opening.{IsFound};
ghost use Rattle.elaborator.specs.declared.instance.Instance as shown;
ghost use Rattle.elaborator.specs.declared.error.ElabError.TheVariants.{NoMemory, TwoInstances};

use crate::ElabError;
use crate::directory::Directory;
use crate::instance::{Expansion, Instance};
use crate::opening::{Found, open_instance};
use crate::path_index::PathIndex;
use std::alloc::{AllocError, Global};

/// How many turns and entries may be counted in all.
const MAX_COUNT: u64 = 65_536;

/// The depth at which an instance is too deep.
const TOO_DEEP: u32 = 33;

/// The instances that have been made. The first of them have been opened, and so much may still be counted.
#[derive(Drop)]
pub(crate) struct Growth<'a> {
    pub expansion: Expansion<'a>,
    pub opened: u32,
    pub room: u64,
}

/// All instances of a description with this top.
pub(crate) fn expand<'a>(
    alloc: Global,
    directory: Directory<'a>,
    top: Instance<'a>,
) -> Result<Expansion<'a>, ElabError>
    requires { IsTop (tree_of directory.unit.now) top }
    ensures { Answers NoMemory (IsWhole directory.entry.unit.now top.entry)
        (GrowthFault (tree_of directory.entry.unit.now) (instance_in top.entry)) result }
{
    let mut growth = top_alone(alloc, directory, top)?;
    while (growth.opened as usize) < growth.expansion.instances.len() {
        growth.open_next(alloc)?;
    }
    Ok(growth.expansion)
}

/// The top, which isn't opened yet.
fn top_alone<'a>(
    alloc: Global,
    directory: Directory<'a>,
    top: Instance<'a>,
) -> Result<Growth<'a>, AllocError>
    requires { IsTop (tree_of directory.unit.now) top }
    ensures { IfOk result (λ growth. (growth.expansion.directory.unit ≡ directory.entry.unit)
        × IsGrowth (instance_in top.entry) growth) }
{
    let mut instances = Vec::new(alloc);
    instances.push(top)?;
    let expansion = Expansion {
        directory,
        instances,
        numbers: PathIndex::new(alloc)?,
    };
    Ok(Growth {
        expansion,
        opened: 0,
        room: MAX_COUNT,
    })
}

impl<'a> Growth<'a> {
    /// Opens the next instance, and adds those that it makes.
    fn open_next(&mut self, alloc: Global) -> Result<(), ElabError>
        requires within { self.old.opened < length self.old.expansion.instances.items }
        requires growth { (top : PureInstance) × IsGrowth top self.old }
        ensures { (top : PureInstance) → IsGrowth top self.old
            → Answers NoMemory (λ _. (self.new.expansion.directory.unit ≡ self.old.expansion.directory.unit)
            × (self.new.opened ≡ self.old.opened + 1) × IsGrowth top self.new)
            (GrowthFault (tree_of self.old.expansion.directory.unit.now) top) result }
    {
        let found = self.find_next(alloc)?;
        let next = &mut self.expansion.instances[self.opened as usize];
        next.bindings = found.bindings;
        next.port_sizes = found.port_sizes;
        self.expansion.add_all(found.made)?;
        self.room -= found.count;
        self.opened += 1;
        Ok(())
    }

    /// What the next instance shows.
    fn find_next(&self, alloc: Global) -> Result<Found<'a>, ElabError>
        requires within { self.now.opened < length self.now.expansion.instances.items }
        requires growth { (top : PureInstance) × IsGrowth top self.now }
        ensures { (top : PureInstance) (next : shown.Instance) → IsGrowth top self.now
            → slice_get self.now.expansion.instances.items self.now.opened ≡ Some next
            → Answers NoMemory (λ found. (next.depth < 33)
            × (own_faults (tree_of self.now.expansion.directory.unit.now) (instance_in next) ≡ [])
            × IsFound (tree_of self.now.expansion.directory.unit.now) (instance_in next) self.now.opened
            self.now.room found)
            (GrowthFault (tree_of self.now.expansion.directory.unit.now) top) result }
    {
        let next = &self.expansion.instances[self.opened as usize];
        if next.depth >= TOO_DEEP {
            return Err(ElabError::TooDeep(next.path.try_clone()?));
        }
        open_instance(
            alloc,
            &self.expansion.directory,
            next,
            self.opened,
            self.room,
        )
    }
}

impl<'a> Expansion<'a> {
    /// Adds instances, in order.
    fn add_all(&mut self, made: Vec<Instance<'a>>) -> Result<(), ElabError>
        requires mapped { IsMapped self.old }
        requires few { length self.old.instances.items + length made.items ≤ 65537 }
        ensures { Answers NoMemory (λ _. IsExtended self.old made.entry.items self.new)
            (λ f. (path : Path) × (f ≡ TwoInstances path)
            × IsClash (self.old.instances.items ++ made.entry.items) (length self.old.instances.items) path) result }
    {
        for instance in made {
            self.add(instance)?;
        }
        Ok(())
    }

    /// Adds an instance. No other may have its path.
    fn add(&mut self, instance: Instance<'a>) -> Result<(), ElabError>
        requires mapped { IsMapped self.old }
        requires few { length self.old.instances.items < 65537 }
        ensures { Answers NoMemory (λ _. IsExtended self.old (instance.entry ∷ []) self.new)
            (λ f. (f ≡ TwoInstances instance.entry.path) × IsClash (self.old.instances.items ++ instance.entry ∷ [])
            (length self.old.instances.items) instance.entry.path) result }
    {
        let path = instance.path.as_bytes();
        let before = self.numbers.enter(path)?;
        let same = self
            .numbers
            .find_from(before, self.instances.as_slice(), path);
        if same.is_some() {
            return Err(ElabError::TwoInstances(instance.path));
        }
        self.instances.push(instance)?;
        Ok(())
    }
}
