//! What is found in an instance when its statements are walked.

ghost use Rattle.std.specs.Prelude.{◌≡◌, ◌<◌, ◌⊎◌, true, []};
ghost use Rattle.darwin_parser.specs.Tree.{component_of, tree_of};
ghost use Rattle.darwin_walk.specs.Reached.{count};
ghost use Rattle.darwin_walk.specs.Instance.{instance_faults};
ghost use Rattle.darwin_walk.specs.Walked.{IsWalked};
ghost use Rattle.elaborator.specs.Instances.{count_in};
ghost use Rattle.elaborator.specs.Faults.{own_faults};
ghost use Rattle.darwin_types.specs.Scope.{is_primitive};
ghost use Rattle.darwin_walk.specs.Spine.{env_of};
ghost use Rattle.elaborator.specs.Expansion.{instance_in, AreSizes};
ghost use Rattle.elaborator.specs.Opening.{error_at, IsFound, JudgesAt};

use crate::ElabError;
use crate::directory::Directory;
use crate::instance::Instance;
use crate::making::make_all;
use config_graph::Text;
use darwin_walk::{Binding, Fault, WalkError, Walked, walk};
use std::alloc::Global;

/// What an instance shows: its bindings, the sizes of its ports, the instances right below it, and how many
/// turns and entries are counted in it.
#[derive(Drop)]
pub(crate) struct Found<'a> {
    pub bindings: Vec<Binding<'a>>,
    pub port_sizes: Vec<Option<i32>>,
    pub made: Vec<Instance<'a>>,
    pub count: u64,
}

/// Opens the instance of a number, where so much may still be counted. Nothing is found in a node.
pub(crate) fn open_instance<'a>(
    alloc: Global,
    directory: &Directory<'a>,
    instance: &Instance<'a>,
    number: u32,
    room: u64,
) -> Result<Found<'a>, ElabError>
    requires depth { instance.now.depth < 33 }
    requires plain { instance.now.is_primitive ≡ true → AreSizes (instance_in instance.now) [] }
    requires primitive { instance.now.is_primitive ≡ is_primitive (component_of instance.now.component.now) }
    ensures { JudgesAt instance.now.path (own_faults (tree_of directory.now.unit.now) (instance_in instance.now))
        (room < count_in (instance_in instance.now))
        (IsFound (tree_of directory.now.unit.now) (instance_in instance.now) number room) result }
{
    if instance.is_primitive {
        return Ok(Found {
            bindings: Vec::new(alloc),
            port_sizes: Vec::new(alloc),
            made: Vec::new(alloc),
            count: 0,
        });
    }
    let walked = walk_in(alloc, instance, room)?;
    let made = make_all(
        alloc,
        directory,
        instance,
        number,
        walked.children.as_slice(),
    )?;
    Ok(Found {
        bindings: walked.bindings,
        port_sizes: walked.port_sizes,
        made,
        count: walked.count,
    })
}

/// Walks the statements of an instance.
fn walk_in<'a>(alloc: Global, instance: &Instance<'a>, room: u64) -> Result<Walked<'a>, ElabError>
    ensures { JudgesAt instance.now.path
        (instance_faults (component_of instance.now.component.now) (env_of instance.now.env.items))
        (room < count (component_of instance.now.component.now) (env_of instance.now.env.items))
        (IsWalked (component_of instance.now.component.now) (env_of instance.now.env.items) room) result }
{
    match walk(alloc, instance.component, instance.env.as_slice(), room) {
        Ok(walked) => Ok(walked),
        Err(error) => Err(refusal(&instance.path, error)),
    }
}

/// An error of a walk, in the instance of the path.
fn refusal(path: &Text, error: WalkError) -> ElabError
    ensures { (result ≡ error_at path.now error) ⊎ (result ≡ ElabError.NoMemory) }
{
    let Ok(path) = path.try_clone() else {
        return ElabError::NoMemory;
    };
    match error {
        WalkError::Fault(Fault::OutOfRange(at)) => ElabError::OutOfRange(path, at),
        WalkError::Fault(Fault::ZeroDivisor(at)) => ElabError::ZeroDivisor(path, at),
        WalkError::Fault(Fault::BadIndex(at)) => ElabError::BadIndex(path, at),
        WalkError::TooMany => ElabError::TooMany,
        WalkError::NoMemory => ElabError::NoMemory,
    }
}
