//! A source that leads to a sink at the gates, and calls of the change that test what they ask. Where it
//! doesn't hold, they answer `Unfit`.

ghost use Rattle.std.specs.Prelude.{◌≡◌, ℕ, false, [], ◌∷◌, ◌++◌, ◌<◌, length, true, IfOk, IfErr, IsTrue};
ghost use Rattle.std.specs.Option.{option_map_or};
ghost use Rattle.txn_records.specs.Entries.{config_of};
ghost use Rattle.txn_records.specs.declared.entry.Entry.TheVariants.{Did};
ghost use Rattle.quiesce_core.specs.Legal.{CanMake};
ghost use Rattle.quiesce_core.specs.Rules.{can_move, is_live_port, is_path_taken};
ghost use Rattle.quiesce_core.specs.declared.event.Event.TheVariants as event;
ghost use Rattle.rows_gates.specs.Made.{DidNothing, LeadsTo, made_two, opened_two};
ghost use Rattle.txn_gate.specs.Seats.{IsChangeSeatOf, node_in, record_of, table_of_change, table_of_node};

use crate::seated::Seated;
use crate::unfit::{Unfit, Unmade};
use base::Text;
use config_graph::{Kind, MAX_NODES, MAX_PORTS, NoMemory, Node, VALUE_LIMIT};
use std::alloc::Global;
use txn_gate::{ChangeSeat, Gates};

/// A node of this path, kind and argument.
pub(crate) fn node(
    alloc: Global,
    path: &[u8],
    kind: Kind,
    arg: Option<u32>,
) -> Result<Node, NoMemory>
    ensures { IfOk result (λ n. n.kind ≡ kind) }
{
    let path = Text::from_bytes(alloc, path)?;
    Ok(Node { path, kind, arg })
}

/// Makes a node whose path no live node has, which takes over from another or from none.
pub(crate) fn make(
    gates: &Gates,
    change: &mut ChangeSeat,
    node: &Node,
    from: Option<u32>,
) -> Result<Seated, Unfit>
    requires here { IsChangeSeatOf change.old gates.now }
    requires new_path { is_path_taken (config_of (record_of change.old)) node.now.path ≡ false }
    requires moves { IsTrue (option_map_or (λ k. can_move (config_of (record_of change.old)) k
        node.now.kind) from true) }
    ensures here { table_of_change change.new ≡ table_of_change change.old }
    ensures seat { IfOk result (λ r. table_of_node r.seat ≡ table_of_change change.old) }
    ensures fresh { IfOk result (λ r. DidNothing (node_in r.seat)) }
    ensures made { IfOk result (λ _. (n : ℕ) × (record_of change.new
        ≡ record_of change.old ++ Did (event.Make n node.now from) ∷ [])) }
    ensures unfit { IfErr result
        (λ _. (0 < change.old.spare → CanMake (config_of (record_of change.old))
        (length (config_of (record_of change.old)).slots) node.now from → ⊥)
        × (change.new ≡ change.old)) }
{
    let made = change.made();
    if change.spare() == 0 || made.nodes >= MAX_NODES {
        return Err(Unfit);
    }
    if node.kind.requires_() > MAX_PORTS - made.ports {
        return Err(Unfit);
    }
    if node.arg.is_some() != node.kind.has_arg() {
        return Err(Unfit);
    }
    if node.arg.is_some_and(|arg| arg >= VALUE_LIMIT) {
        return Err(Unfit);
    }
    Ok(Seated {
        kind: node.kind,
        seat: gates.make_node(change, node, from),
    })
}

/// Makes the first two nodes.
pub(crate) fn make_two(
    gates: &Gates,
    change: &mut ChangeSeat,
    first: &Node,
    second: &Node,
) -> Result<(Seated, Seated), Unfit>
    requires here { IsChangeSeatOf change.old gates.now }
    requires fresh { record_of change.old ≡ [] }
    ensures here { table_of_change change.new ≡ table_of_change change.old }
    ensures seats { IfOk result (λ r. (table_of_node r.0.seat ≡ table_of_change change.old)
        × (table_of_node r.1.seat ≡ table_of_change change.old)) }
    ensures fresh { IfOk result (λ r. DidNothing (node_in r.0.seat)
        × DidNothing (node_in r.1.seat)) }
    ensures made { IfOk result (λ _. (n : ℕ) × (m : ℕ)
        × (record_of change.new ≡ made_two n m first.now second.now)) }
{
    if first.path == second.path {
        return Err(Unfit);
    }
    let one = make(gates, change, first, None)?;
    let two = make(gates, change, second, None)?;
    Ok((one, two))
}

/// The change opens a live port.
pub fn reopen(gates: &Gates, change: &mut ChangeSeat, port: u32) -> Result<(), Unfit>
    requires here { IsChangeSeatOf change.old gates.now }
    ensures here { table_of_change change.new ≡ table_of_change change.old }
    ensures reopened { IfOk result (λ _. record_of change.new
        ≡ record_of change.old ++ Did (event.Reopen port) ∷ []) }
    ensures unfit { IfErr result (λ _. (is_live_port (config_of (record_of change.old))
        port ≡ false) × (change.new ≡ change.old)) }
{
    if !change.is_live_port(port) {
        return Err(Unfit);
    }
    gates.reopen(change, port);
    Ok(())
}

/// The first node, in slot 0, leads to the second in slot 1.
fn link_two(gates: &Gates, change: &mut ChangeSeat, first: &Node, second: &Node)
    requires here { IsChangeSeatOf change.old gates.now }
    requires kinds { LeadsTo first.now.kind second.now.kind }
    requires made { (n : ℕ) × (m : ℕ) × (record_of change.old ≡ made_two n m first.now second.now) }
    ensures here { table_of_change change.new ≡ table_of_change change.old }
    ensures linked { (n : ℕ) × (m : ℕ) × (record_of change.new ≡ made_two n m first.now
        second.now ++ Did (event.Link 0 1 0) ∷ []) }
{
    let (_, _) = (first, second);
    gates.link(change, 0, 1, 0);
}

/// Makes two nodes of which the first leads to the second, links them and opens the port between them.
pub(crate) fn open_two(
    gates: &Gates,
    change: &mut ChangeSeat,
    first: &Node,
    second: &Node,
) -> Result<(Seated, Seated), Unfit>
    requires here { IsChangeSeatOf change.old gates.now }
    requires kinds { LeadsTo first.now.kind second.now.kind }
    requires fresh { record_of change.old ≡ [] }
    ensures here { table_of_change change.new ≡ table_of_change change.old }
    ensures seats { IfOk result (λ r. (table_of_node r.0.seat ≡ table_of_change change.old)
        × (table_of_node r.1.seat ≡ table_of_change change.old)) }
    ensures fresh { IfOk result (λ r. DidNothing (node_in r.0.seat)
        × DidNothing (node_in r.1.seat)) }
    ensures opened { IfOk result (λ _. (n : ℕ) × (m : ℕ)
        × (record_of change.new ≡ opened_two n m first.now second.now)) }
{
    let made = make_two(gates, change, first, second)?;
    link_two(gates, change, first, second);
    reopen(gates, change, 0)?;
    Ok(made)
}

/// The source in slot 0, whose port 0 is open and leads to the sink in slot 1.
pub fn pipe(
    alloc: Global,
    gates: &Gates,
    change: &mut ChangeSeat,
) -> Result<(Seated, Seated), Unmade>
    requires here { IsChangeSeatOf change.old gates.now }
    requires fresh { record_of change.old ≡ [] }
    ensures here { table_of_change change.new ≡ table_of_change change.old }
    ensures seats { IfOk result (λ r. (table_of_node r.0.seat ≡ table_of_change change.old)
        × (table_of_node r.1.seat ≡ table_of_change change.old)) }
{
    let source = node(alloc, b"s", Kind::Source, Some(9))?;
    let sink = node(alloc, b"t", Kind::Sink, None)?;
    let made = open_two(gates, change, &source, &sink)?;
    Ok(made)
}
