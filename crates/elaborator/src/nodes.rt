//! The nodes of an elaboration: its instances of primitive components.

ghost use Rattle.std.specs.Prelude.{◌≡◌, ◌<◌, [], ◌∷◌, ◌++◌, length, map, option_map, slice_set, IfOk, OnOk, Some};
ghost use Rattle.darwin_parser.specs.Tree.{component_of};
ghost use Rattle.darwin_types.specs.Scope.{is_primitive};
ghost use Rattle.config_graph.specs.declared.node.Node.{Node as NodeValue};
ghost use Rattle.elaborator.specs.Graph.{node_of, node_with, natural};
ghost use Rattle.elaborator.specs.Expansion.{expanded_of, instance_in, IsNumbering};
ghost use Rattle.elaborator.specs.NodeOrder.{nodes_in, AreNodes, AreListed, IsInOrder};
ghost use Rattle.elaborator.specs.declared.nodes.Listed as shown;

use crate::instance::{Expansion, Instance};
use config_graph::{Kind, Node, Text, kind_of};
use std::alloc::{AllocError, Global};
use std::mem;

/// Nodes in the order of their paths, by their kinds, and which instance each of them is.
#[derive(Drop)]
pub struct Nodes {
    pub kinds: Vec<Kind>,
    /// The number of the instance that each node is.
    pub instances: Vec<u32>,
    /// The place of the node that each instance is; a composite one is none.
    pub places: Vec<Option<u32>>,
}

/// A node by its path, as it is put in order.
#[derive(Clone, Copy)]
struct Listed<'e> {
    path: &'e [u8],
    number: u32,
}

/// The nodes of an expansion.
pub fn nodes_of(alloc: Global, expansion: &Expansion) -> Result<Nodes, AllocError>
    requires { IsNumbering expansion.now }
    ensures { IfOk result (AreNodes (expanded_of expansion.now)) }
{
    let order = in_path_order(alloc, expansion)?;
    let mut nodes = Nodes {
        kinds: Vec::new(alloc),
        instances: Vec::new(alloc),
        places: vec![in alloc; None; expansion.instances.len()]?,
    };
    for number in &order {
        if let Some(kind) = node_kind(expansion.instance(*number)) {
            nodes.add(kind, *number)?;
        }
    }
    Ok(nodes)
}

/// The numbers of the nodes, in the order of their paths.
fn in_path_order(alloc: Global, expansion: &Expansion) -> Result<Vec<u32>, AllocError>
    requires { IsNumbering expansion.now }
    ensures { IfOk result (λ order. IsInOrder (expanded_of expansion.now) order.items) }
{
    let mut listed = list_nodes(alloc, expansion)?;
    listed.sort_by(|node, other| node.path.cmp(other.path))?;
    numbers_of(alloc, listed.as_slice())
}

/// The nodes, in the order of their numbers.
fn list_nodes<'e>(alloc: Global, expansion: &'e Expansion) -> Result<Vec<Listed<'e>>, AllocError>
    requires { IsNumbering expansion.now }
    ensures { IfOk result
        (λ listed. AreListed (expanded_of expansion.now) (length (expanded_of expansion.now).made) listed.items) }
{
    let mut listed = Vec::new(alloc);
    for number in 0..expansion.len() {
        let instance = expansion.instance(number);
        if instance.is_primitive {
            listed.push(Listed {
                path: instance.path.as_bytes(),
                number,
            })?;
        }
    }
    Ok(listed)
}

fn numbers_of(alloc: Global, listed: &[Listed]) -> Result<Vec<u32>, AllocError>
    ensures { IfOk result (λ numbers. numbers.items ≡ map (λ (x : shown.Listed). x.number) listed.now) }
{
    listed.iter().map(|node| node.number).collect(alloc)
}

impl Nodes {
    /// Adds the node that an instance is.
    fn add(&mut self, kind: Kind, number: u32) -> Result<(), AllocError>
        requires few { length self.old.instances.items < 65537 }
        requires within { number < length self.old.places.items }
        ensures kinds { OnOk result (self.new.kinds.items ≡ self.old.kinds.items ++ kind ∷ []) }
        ensures instances { OnOk result (self.new.instances.items ≡ self.old.instances.items ++ number ∷ []) }
        ensures places { OnOk result (self.new.places.items ≡ slice_set self.old.places.items number
            (Some (length self.old.instances.items))) }
    {
        let place = self.instances.len() as u32;
        self.kinds.push(kind)?;
        self.instances.push(number)?;
        self.places[number as usize] = Some(place);
        Ok(())
    }
}

/// The nodes of an expansion. Each takes the path of its instance, which is none after that.
pub fn take_nodes(
    alloc: Global,
    expansion: &mut Expansion,
    nodes: &Nodes,
) -> Result<Vec<Node>, AllocError>
    requires { AreNodes (expanded_of expansion.old) nodes.now }
    ensures { IfOk result (λ taken. taken.items ≡ nodes_in (expanded_of expansion.old) nodes.now.instances.items) }
{
    let mut taken = Vec::with_capacity(alloc, nodes.instances.len())?;
    for place in 0..nodes.instances.len() {
        let number = nodes.instances[place];
        let instance = &mut expansion.instances[number as usize];
        taken.push(take_node(alloc, instance, nodes.kinds[place]))?;
    }
    Ok(taken)
}

/// The node of a kind that an instance is, with the path of the instance.
fn take_node(alloc: Global, instance: &mut Instance, kind: Kind) -> Node
    ensures { result ≡ node_with (instance_in instance.old) kind }
{
    let path = mem::replace(&mut instance.path, Text::of(Vec::new(alloc)));
    let arg = match instance.env.first() {
        None => None,
        Some(variable) => Some(natural(variable.value)),
    };
    Node { path, kind, arg }
}

/// The kind of the node that an instance is; one of a composite component is none.
fn node_kind(instance: &Instance) -> Option<Kind>
    requires { instance.now.is_primitive ≡ is_primitive (component_of instance.now.component.now) }
    ensures { result ≡ option_map (λ (n : NodeValue). n.kind) (node_of (instance_in instance.now)) }
{
    if instance.is_primitive {
        kind_of(instance.component.name.as_bytes())
    } else {
        None
    }
}

/// An argument of a kind, which is 0 or more.
fn natural(value: i32) -> u32
    ensures { result ≡ natural value }
{
    u32::try_from(value).unwrap_or(0)
}
