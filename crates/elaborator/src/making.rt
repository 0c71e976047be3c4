//! The instances that the entries of an instance make.

ghost use Rattle.std.specs.Prelude.{◌≡◌, ◌<◌, map};
ghost use Rattle.std.specs.List.{flat_map, list_all};
ghost use Rattle.darwin_parser.specs.Tree.{tree_of};
ghost use Rattle.darwin_walk.specs.Walked.{child_of};
ghost use Rattle.elaborator.specs.Faults.{kind_argument_faults, is_kind_argument};
ghost use Rattle.elaborator.specs.Expansion.{instance_in};
ghost use Rattle.elaborator.specs.Opening.{IsMade, AreMade, JudgesAt};

use crate::ElabError;
use crate::directory::Directory;
use crate::instance::Instance;
use crate::paths::path_within;
use config_graph::Text;
use darwin_walk::{Child, parameters_of};
use std::alloc::Global;

/// The largest argument of a kind.
const MAX_KIND_ARGUMENT: i32 = 16_777_215;

/// Whether the arguments may be those of a kind.
fn are_kind_arguments(arguments: &[i32]) -> bool
    ensures { result ≡ list_all is_kind_argument arguments.now }
{
    arguments.iter().all(|z| 0 <= *z && *z <= MAX_KIND_ARGUMENT)
}

/// The instance that a child is within the instance of a number; none where its component isn't there.
fn make<'a>(
    alloc: Global,
    directory: &Directory<'a>,
    within: &Instance<'a>,
    number: u32,
    child: &Child<'a>,
) -> Result<Option<Instance<'a>>, ElabError>
    requires { within.now.depth < 33 }
    ensures { JudgesAt within.now.path (kind_argument_faults (tree_of directory.now.unit.now) (child_of child.now))
        ⊥ (IsMade (tree_of directory.now.unit.now) (instance_in within.now) number (child_of child.now)) result }
{
    let Some(entry) = directory.find(child.component.as_bytes()) else {
        return Ok(None);
    };
    if entry.is_primitive && !are_kind_arguments(child.arguments.as_slice()) {
        return Err(ElabError::OutOfRange(within.path.try_clone()?, child.at));
    }
    let path = path_within(alloc, within.path.as_bytes(), child.segment)?;
    Ok(Some(Instance {
        path: Text::of(path),
        depth: within.depth + 1,
        maker: Some(number),
        component: entry.component,
        is_primitive: entry.is_primitive,
        env: parameters_of(alloc, entry.component, child.arguments.as_slice())?,
        bindings: Vec::new(alloc),
        port_sizes: Vec::new(alloc),
    }))
}

/// The instances that children are, in order.
pub(crate) fn make_all<'a>(
    alloc: Global,
    directory: &Directory<'a>,
    within: &Instance<'a>,
    number: u32,
    children: &[Child<'a>],
) -> Result<Vec<Instance<'a>>, ElabError>
    requires { within.now.depth < 33 }
    ensures { JudgesAt within.now.path (flat_map (kind_argument_faults (tree_of directory.now.unit.now))
        (map child_of children.now)) ⊥ (AreMade (tree_of directory.now.unit.now) (instance_in within.now)
        number (map child_of children.now)) result }
{
    let mut made = Vec::with_capacity(alloc, children.len())?;
    for child in children {
        if let Some(instance) = make(alloc, directory, within, number, child)? {
            made.push(instance)?;
        }
    }
    Ok(made)
}
