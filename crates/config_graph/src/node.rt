//! What a graph is made of: nodes, their ports, and the links between them.

use crate::{Kind, Text};

/// A node: its path in the system of components, its kind, and its argument where the kind has one.
#[derive(Drop, PartialEq, Eq)]
pub struct Node {
    pub path: Text,
    pub kind: Kind,
    pub arg: Option<u32>,
}

/// A required service of a node, by their indexes.
#[derive(Clone, Copy, PartialEq, Eq)]
pub struct Port {
    pub node: u32,
    pub require: u32,
}

/// A provided service of a node, by their indexes.
#[derive(Clone, Copy, PartialEq, Eq)]
pub struct Target {
    pub node: u32,
    pub provide: u32,
}

/// A directed connection: the requirement of the node `from` is bound to the provision of the node `to`.
#[derive(Clone, Copy, PartialEq, Eq)]
pub struct Link {
    pub from: u32,
    pub require: u32,
    pub to: u32,
    pub provide: u32,
}

/// How many nodes and how many ports were made.
#[derive(Clone, Copy, PartialEq, Eq)]
pub struct Made {
    pub nodes: u32,
    pub ports: u32,
}

impl Node {
    ghost use Rattle.std.specs.Prelude.{◌≡◌, IfOk};

    /// Another node with the same path, kind and argument.
    pub fn try_clone(&self) -> Result<Node, crate::NoMemory>
        ensures { IfOk result (λ n. n ≡ self.now) }
    {
        let path = self.path.try_clone()?;
        Ok(Node {
            path,
            kind: self.kind,
            arg: self.arg,
        })
    }
}
