//! All nodes of a history led through their logs, one after the other.

ghost use Rattle.std.specs.Prelude.{◌≡◌, ℕ, None, Some, IfOk, OnOk, option_map, option_and_then, slice_index_or, All, if◌then◌else◌};
ghost use Rattle.report_check.specs.Leading as leading;
ghost use Rattle.report_check.specs.Leading.{ledger_in, read_log, states_in, state_of};
ghost use Rattle.report_check.specs.Tables.{table_in};
ghost use Rattle.report_check.specs.declared.tables.MadeNode.{MadeNode as MadeFields};
ghost use Rattle.state_handover.specs.Making.{FitsKind};

use crate::leading::{ends_so, lead_through};
use crate::opening::open;
use crate::tables::{MadeNode, Table, read_history};
use component_trait::Component;
use config_graph::NoMemory;
use report_types::{NodeLog, Report};
use state_handover::AnyNode;
use std::alloc::Global;

/// The nodes led so far by slot, but those whose state went on, and the first live one of them that isn't done.
#[derive(Drop)]
pub(crate) struct Ledger {
    pub nodes: Vec<Option<AnyNode>>,
    pub undone: Option<u32>,
}

/// A node as its log leads it, to the end that the log tells.
fn lead_on(
    first_port: u32,
    heir: Option<u32>,
    log: &NodeLog,
    node: AnyNode,
) -> Result<Option<AnyNode>, NoMemory>
    ensures { IfOk result
        (λ o. option_map state_of o ≡ leading.led_on first_port heir log.now (state_of node)) }
{
    let mut node = node;
    if lead_through(&mut node, first_port, log.events.items())? && ends_so(&node, heir, &log.last) {
        Ok(Some(node))
    } else {
        Ok(None)
    }
}

/// A node as its log leads it, from its opening on.
fn lead_log(
    alloc: Global,
    made: &MadeNode,
    heir: Option<u32>,
    log: &NodeLog,
    nodes: &mut [Option<AnyNode>],
) -> Result<Option<AnyNode>, NoMemory>
    requires fits { FitsKind made.now.kind made.now.arg }
    ensures led { IfOk result
        (λ o. option_map state_of o ≡ leading.log_of_node (states_in nodes.old) heir log.now made.now) }
    ensures rest { states_in nodes.new ≡ leading.behind_opening (states_in nodes.old) made.now }
{
    match open(alloc, made, nodes) {
        Some(node) => lead_on(made.first_port, heir, log, node),
        None => Ok(None),
    }
}

fn is_left_undone(made: &MadeNode, node: &AnyNode) -> bool
    ensures { result ≡ leading.is_left_undone made.now (state_of node.now) }
{
    made.live && !node.done()
}

impl Ledger {
    fn add(&mut self, made: &MadeNode, slot: u32, node: AnyNode) -> Result<(), NoMemory>
        ensures { OnOk result (ledger_in self.new ≡ leading.with_node (ledger_in self.old) made.now slot (state_of node)) }
    {
        if self.undone.is_none() && is_left_undone(made, &node) {
            self.undone = Some(slot);
        }
        self.nodes.push(Some(node))?;
        Ok(())
    }

    /// Reads the log of the node that was made so.
    fn read_made(
        &mut self,
        made: &MadeNode,
        heir: Option<u32>,
        log: &NodeLog,
    ) -> Result<bool, NoMemory>
        requires fits { FitsKind made.now.kind made.now.arg }
        ensures { IfOk result (λ b. leading.read_made (ledger_in self.old) heir log.now made.now
            ≡ (if b then Some (ledger_in self.new) else None)) }
    {
        let alloc = *self.nodes.allocator();
        match lead_log(alloc, made, heir, log, &mut self.nodes)? {
            Some(node) => {
                self.add(made, log.slot, node)?;
                Ok(true)
            }
            None => Ok(false),
        }
    }

    /// Reads the log of the node in the next slot.
    fn read(&mut self, table: &Table, log: &NodeLog) -> Result<bool, NoMemory>
        requires fits { All (λ (m : MadeFields). FitsKind m.kind m.arg) table.now.made.items }
        ensures { IfOk result (λ b. read_log (table_in table.now) (ledger_in self.old) log.now
            ≡ (if b then Some (ledger_in self.new) else None)) }
    {
        if log.slot as usize != self.nodes.len() {
            return Ok(false);
        }
        match table.made.get(log.slot as usize) {
            Some(made) => self.read_made(made, table.heir(log.slot), log),
            None => Ok(false),
        }
    }

    fn read_all(&mut self, table: &Table, logs: &[NodeLog]) -> Result<bool, NoMemory>
        requires fits { All (λ (m : MadeFields). FitsKind m.kind m.arg) table.now.made.items }
        ensures { IfOk result (λ b. leading.read_logs_on (table_in table.now) (ledger_in self.old) logs.now
            ≡ (if b then Some (ledger_in self.new) else None)) }
    {
        for log in logs {
            if !self.read(table, log)? {
                return Ok(false);
            }
        }
        Ok(true)
    }
}

/// The first live node that isn't done, where each node has its log, and these are right.
fn read_logs(
    alloc: Global,
    table: &Table,
    logs: &[NodeLog],
) -> Result<Option<Option<u32>>, NoMemory>
    requires fits { All (λ (m : MadeFields). FitsKind m.kind m.arg) table.now.made.items }
    ensures { IfOk result (λ o. o ≡ leading.read_logs (table_in table.now) logs.now) }
{
    let mut ledger = Ledger {
        nodes: Vec::with_capacity(alloc, logs.len())?,
        undone: None,
    };
    if ledger.read_all(table, logs)? && ledger.nodes.len() == table.made.len() {
        Ok(Some(ledger.undone))
    } else {
        Ok(None)
    }
}

/// The first live node that isn't done, where history and logs are right by themselves.
pub(crate) fn read_report(alloc: Global, report: &Report) -> Result<Option<Option<u32>>, NoMemory>
    ensures { IfOk result (λ o. o ≡ leading.read_report report.now) }
{
    match read_history(alloc, report.history.items(), report.logs.items().len())? {
        Some(table) => read_logs(alloc, &table, report.logs.items()),
        None => Ok(None),
    }
}
