//! How far the lines of a script came.

ghost use Rattle.std.specs.Prelude.{◌≡◌, ◌^◌, ◌<◌, [], IfSome, IsSome, OnOk, length, string_bytes, sum_by};
ghost use Rattle.config_graph.specs.Graph.{IsGraph, requires_at};
ghost use Rattle.change_spec.specs.Scripts.{more_made, nothing_made};
ghost use Rattle.change_plan.specs.Room.{HasRoom, HasRoomFor};
ghost use Rattle.command_program.specs.Ways.{HasAdded, HasDescribed, last_graph, made_with_graph, with_start};
ghost use Rattle.change_spec.specs.Asked.{graph_behind, made_with_change};
ghost use Rattle.change_spec.specs.declared.steps.Step.TheVariants as to_do;

use change_spec::{Replacement, Start, Step};
use config_graph::{Graph, Made, NoMemory, Node};
use darwin_types::Checked;
use std::alloc::Global;

/// How far the lines of a script came.
#[derive(Drop)]
pub struct Way {
    /// The name of the file that was used last.
    pub file: String,
    /// Its description.
    pub used: Option<Checked>,
    pub start: Option<Start>,
    pub steps: Vec<Step>,
    /// How much is made if each change is committed.
    pub made: Made,
}

impl Way {
    /// Before the first line.
    pub fn new(alloc: Global) -> Way
        ensures file { string_bytes result.file ≡ [] }
        ensures used { result.used ≡ None }
        ensures start { result.start ≡ None }
        ensures steps { result.steps.items ≡ [] }
        ensures made { result.made ≡ nothing_made }
    {
        Way {
            file: String::new(alloc),
            used: None,
            start: None,
            steps: Vec::new(alloc),
            made: Made { nodes: 0, ports: 0 },
        }
    }

    /// From now on the description of this file is used.
    pub fn describe(&mut self, file: String, description: Checked)
        ensures { HasDescribed self.old (string_bytes file) description self.new }
    {
        self.file = file;
        self.used = Some(description);
    }

    /// Begins with a start.
    pub fn begin(&mut self, start: Start)
        requires { HasRoomFor self.old.made start.graph }
        ensures { self.new ≡ with_start self.old start }
    {
        self.made = with_graph(self.made, &start.graph);
        self.start = Some(start);
    }

    /// Adds a change.
    pub fn add_change(&mut self, change: Replacement) -> Result<(), NoMemory>
        requires { HasRoom self.old.made (length change.plan.create)
            (sum_by (requires_at change.graph.nodes) change.plan.create) }
        ensures added { OnOk result
            (HasAdded self.old (to_do.Change change) (made_with_change self.old.made change) self.new) }
        ensures graph { IsGraph change.graph }
    {
        self.made = with_created(self.made, &change.graph, change.plan.create.items());
        self.steps.push(Step::Change(change))?;
        Ok(())
    }

    /// Adds what the run does of itself.
    pub fn add_step(&mut self, step: Step) -> Result<(), NoMemory>
        ensures { OnOk result (HasAdded self.old step self.old.made self.new) }
    {
        self.steps.push(step)?;
        Ok(())
    }

    /// The graph that was named last.
    pub fn graph(&self) -> &Graph
        requires { IsSome self.now.start }
        ensures { IfSome self.now.start (λ s. result.now ≡ last_graph s.graph self.now.steps.items) }
    {
        match &self.start {
            Some(start) => last_graph(&start.graph, self.steps.as_slice()),
            None => unreachable!(),
        }
    }
}

/// The graph that was named last, by a step or else before the steps.
fn last_graph<'a>(start: &'a Graph, steps: &'a [Step]) -> &'a Graph
    ensures { result.now ≡ last_graph start.now steps.now }
{
    let mut graph = start;
    for step in steps {
        graph = graph_behind(graph, step);
    }
    graph
}

/// The graph that was named last, by a step or else before it.
fn graph_behind<'a>(graph: &'a Graph, step: &'a Step) -> &'a Graph
    ensures { result.now ≡ graph_behind graph.now step.now }
{
    match step {
        Step::Change(change) => &change.graph,
        Step::Run { .. } | Step::Finish { .. } | Step::Show => graph,
    }
}

/// How much is made with all of a graph.
fn with_graph(made: Made, graph: &Graph) -> Made
    requires { HasRoomFor made graph.now }
    ensures { result ≡ made_with_graph made graph.now }
{
    Made {
        nodes: made.nodes + graph.node_count(),
        ports: made.ports + graph.port_count(),
    }
}

/// How much is made with these nodes of a graph.
fn with_created(made: Made, graph: &Graph, create: &[u32]) -> Made
    requires { HasRoom made (length create.now) (sum_by (requires_at graph.now.nodes) create.now) }
    ensures made { result ≡ more_made made (length create.now) (sum_by (requires_at graph.now.nodes) create.now) }
    ensures graph { IsGraph graph.now }
{
    Made {
        nodes: made.nodes + create.len() as u32,
        ports: made.ports + count_ports(graph.nodes(), create),
    }
}

/// How many ports these of the nodes have.
fn count_ports(nodes: &[Node], places: &[u32]) -> u32
    requires { sum_by (requires_at nodes.now) places.now < 2 ^ 32 }
    ensures { result ≡ sum_by (requires_at nodes.now) places.now }
{
    let mut ports = 0;
    for place in places {
        ports += ports_at(nodes, *place);
    }
    ports
}

/// How many ports the node at this place has, or none where no node is there.
fn ports_at(nodes: &[Node], place: u32) -> u32
    ensures { result ≡ requires_at nodes.now place }
{
    match nodes.get(place as usize) {
        Some(node) => node.kind.requires_(),
        None => 0,
    }
}
