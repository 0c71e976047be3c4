//! The nodes that the lines of a history make, by slot.

ghost use Rattle.std.specs.Prelude.{◌≡◌, true, length, None, Some, option_map, slice_index_or, IfOk, OnOk, if◌then◌else◌};
ghost use Rattle.report_check.specs.Tables as tables;
ghost use Rattle.report_check.specs.Tables.{read_line, read_lines, table_in};

use config_graph::{Kind, MAX_NODES, MAX_PORTS, NoMemory, Node, VALUE_LIMIT};
use report_types::HistoryLine;
use std::alloc::Global;

/// A node that was made, as far as its log asks for it.
#[derive(Clone, Copy)]
pub(crate) struct MadeNode {
    pub kind: Kind,
    pub arg: Option<u32>,
    pub first_port: u32,
    /// The slot of the node whose state it takes over.
    pub from: Option<u32>,
    pub live: bool,
}

/// The nodes made so far, the slot to which each one's state went, and how many ports were made.
#[derive(Drop)]
pub(crate) struct Table {
    pub made: Vec<MadeNode>,
    pub heirs: Vec<Option<u32>>,
    pub ports: u32,
}

/// Whether the argument is there exactly where the kind has one, and is a value.
fn has_its_argument(node: &Node) -> bool
    ensures { result ≡ tables.has_its_argument node.now }
{
    match node.arg {
        Some(arg) => node.kind.has_arg() && arg < VALUE_LIMIT,
        None => !node.kind.has_arg(),
    }
}

impl Table {
    fn has_room(&self, slot: u32, node: &Node) -> bool
        ensures { result ≡ tables.has_room (table_in self.now) slot node.now }
    {
        slot as usize == self.made.len()
            && slot < MAX_NODES
            && self.ports as u64 + node.kind.requires_() as u64 <= MAX_PORTS as u64
    }

    /// The slot to which the state of a node went.
    pub fn heir(&self, slot: u32) -> Option<u32>
        ensures { result ≡ slice_index_or self.now.heirs.items slot None }
    {
        self.heirs.get(slot as usize).copied().flatten()
    }

    /// Whether the state of a node may go over: it was removed, and its state went to none.
    fn may_go_over(&self, slot: u32) -> bool
        ensures { result ≡ tables.may_go_over (table_in self.now) slot }
    {
        match self.made.get(slot as usize) {
            Some(node) => !node.live && self.heir(slot).is_none(),
            None => false,
        }
    }

    fn may_make(&self, slot: u32, node: &Node, from: Option<u32>) -> bool
        ensures { result ≡ tables.may_make (table_in self.now) slot node.now from }
    {
        let may_take_over = match from {
            Some(from) => self.may_go_over(from),
            None => true,
        };
        self.has_room(slot, node) && has_its_argument(node) && may_take_over
    }

    /// The state of a node goes to the node in this slot.
    fn set_heir(&mut self, from: Option<u32>, slot: u32)
        ensures { table_in self.new ≡ tables.with_heir (table_in self.old) from slot }
    {
        if let Some(from) = from {
            let place = from as usize;
            if place < self.heirs.len() {
                self.heirs[place] = Some(slot);
            }
        }
    }

    fn add(&mut self, node: &Node, from: Option<u32>) -> Result<(), NoMemory>
        requires { tables.has_room (table_in self.old) (length self.old.made.items) node.now ≡ true }
        ensures { OnOk result (table_in self.new ≡ tables.with_node (table_in self.old) node.now from) }
    {
        let made = MadeNode {
            kind: node.kind,
            arg: node.arg,
            first_port: self.ports,
            from,
            live: true,
        };
        self.made.push(made)?;
        self.heirs.push(None)?;
        self.ports += node.kind.requires_();
        Ok(())
    }

    fn make(&mut self, slot: u32, node: &Node, from: Option<u32>) -> Result<bool, NoMemory>
        ensures { IfOk result (λ b. tables.make_line (table_in self.old) slot node.now from
            ≡ (if b then Some (table_in self.new) else None)) }
    {
        if !self.may_make(slot, node, from) {
            return Ok(false);
        }
        self.set_heir(from, slot);
        self.add(node, from)?;
        Ok(true)
    }

    fn remove(&mut self, slot: u32)
        ensures { table_in self.new ≡ tables.with_removed (table_in self.old) slot }
    {
        let place = slot as usize;
        if place < self.made.len() {
            self.made[place].live = false;
        }
    }

    /// Reads a line: whether it makes no node, or one that may be made.
    fn read(&mut self, line: &HistoryLine) -> Result<bool, NoMemory>
        ensures { IfOk result (λ b. read_line (table_in self.old) line.now
            ≡ (if b then Some (table_in self.new) else None)) }
    {
        match line {
            HistoryLine::Make { slot, node, from } => self.make(*slot, node, *from),
            HistoryLine::Remove { node } => {
                self.remove(*node);
                Ok(true)
            }
            _ => Ok(true),
        }
    }

    fn read_all(&mut self, history: &[HistoryLine]) -> Result<bool, NoMemory>
        ensures { IfOk result (λ b. tables.read_on (table_in self.old) history.now
            ≡ (if b then Some (table_in self.new) else None)) }
    {
        for line in history {
            if !self.read(line)? {
                return Ok(false);
            }
        }
        Ok(true)
    }
}

/// The nodes that a history makes, where each may be made.
pub(crate) fn read_history(
    alloc: Global,
    history: &[HistoryLine],
    nodes: usize,
) -> Result<Option<Table>, NoMemory>
    ensures { IfOk result (λ o. option_map table_in o ≡ read_lines history.now) }
{
    let mut table = Table {
        made: Vec::with_capacity(alloc, nodes)?,
        heirs: Vec::with_capacity(alloc, nodes)?,
        ports: 0,
    };
    if table.read_all(history)? {
        Ok(Some(table))
    } else {
        Ok(None)
    }
}
