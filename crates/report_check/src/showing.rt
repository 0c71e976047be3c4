//! What a history shows.

ghost use Rattle.std.specs.Prelude.{◌≡◌, ◌↔◌, ◌++◌, ◌^◌, ◌<◌, ◌≤◌, length, IfOk, IsTrue, OnOk, filter_map, map, option_to_list};
ghost use Rattle.base.specs.Each.{Each};
ghost use Rattle.config_graph.specs.Graph.{Graph as GraphFields};
ghost use Rattle.change_spec.specs.Asked.{statement_of, statements_of};
ghost use Rattle.change_spec.specs.Lawful.{is_head};
ghost use Rattle.change_spec.specs.Statements.{graph_of};
ghost use Rattle.report_check.specs.Showing as showing;
ghost use Rattle.report_check.specs.Showing.{begun_in};

use change_spec::{Start, Step};
use config_graph::{Graph, NoMemory, same};
use report_types::HistoryLine;
use std::alloc::Global;

/// How many starts and changes were begun, and which one was the last that was committed.
#[derive(Clone, Copy)]
pub(crate) struct Begun {
    pub heads: usize,
    pub committed: Option<usize>,
}

/// The graph that a step describes, if it is a change.
fn push_graph<'a>(graphs: &mut Vec<&'a Graph>, step: &'a Step) -> Result<(), NoMemory>
    ensures { OnOk result (map (λ g. g.now) graphs.new.items
        ≡ map (λ g. g.now) graphs.old.items ++ option_to_list (graph_of (statement_of step.now))) }
{
    if let Step::Change(change) = step {
        graphs.push(&change.graph)?;
    }
    Ok(())
}

fn push_graphs<'a>(graphs: &mut Vec<&'a Graph>, steps: &'a [Step]) -> Result<(), NoMemory>
    ensures { OnOk result (map (λ g. g.now) graphs.new.items
        ≡ map (λ g. g.now) graphs.old.items ++ filter_map (λ s. graph_of (statement_of s)) steps.now) }
{
    for step in steps {
        push_graph(graphs, step)?;
    }
    Ok(())
}

/// The graphs that a start and the changes behind it describe.
fn described_graphs<'a>(
    alloc: Global,
    start: &'a Start,
    steps: &'a [Step],
) -> Result<Vec<&'a Graph>, NoMemory>
    ensures { IfOk result
        (λ graphs. map (λ g. g.now) graphs.items ≡ filter_map graph_of (statements_of start.now steps.now)) }
{
    let mut graphs = Vec::new(alloc);
    graphs.push(&start.graph)?;
    push_graphs(&mut graphs, steps)?;
    Ok(graphs)
}

impl Begun {
    /// The same behind a line.
    fn behind(self, line: &HistoryLine) -> Begun
        requires { self.heads < 2 ^ 63 }
        ensures { begun_in result ≡ showing.behind_line (begun_in self) line.now }
    {
        match line {
            HistoryLine::Start { .. } | HistoryLine::Change { .. } => Begun {
                heads: self.heads + 1,
                committed: self.committed,
            },
            HistoryLine::Commit => Begun {
                heads: self.heads,
                committed: Some(self.heads.saturating_sub(1)),
            },
            _ => self,
        }
    }

    /// Whether this is the described graph of the last commit.
    fn is_standing(self, graphs: &[&Graph], shown: &Graph) -> bool
        ensures { IsTrue result ↔ (showing.graph_at (map (λ g. g.now) graphs.now) (begun_in self) ≡ Some shown.now) }
    {
        match self.committed {
            Some(place) => match graphs.get(place) {
                Some(graph) => same(graph, shown),
                None => false,
            },
            None => false,
        }
    }

    /// Whether a line shows nothing, or the graph that stands.
    fn shows(self, graphs: &[&Graph], line: &HistoryLine) -> bool
        ensures { IsTrue result ↔ showing.Shows (map (λ g. g.now) graphs.now) (begun_in self) line.now }
    {
        match line {
            HistoryLine::Show { graph } => self.is_standing(graphs, graph),
            _ => true,
        }
    }
}

/// Whether each graph that is shown is the described one of the last commit before it.
fn are_standing(graphs: &[&Graph], history: &[HistoryLine]) -> bool
    ensures { IsTrue result ↔ Each (showing.IsShownBy (map (λ g. g.now) graphs.now)) history.now }
{
    let mut begun = Begun {
        heads: 0,
        committed: None,
    };
    for line in history {
        if !begun.shows(graphs, line) {
            return false;
        }
        begun = begun.behind(line);
    }
    true
}

/// Whether each graph that is shown is the one that stands: the described one of the last start or change that was
/// committed.
pub(crate) fn shows_stand(
    alloc: Global,
    start: &Start,
    steps: &[Step],
    history: &[HistoryLine],
) -> Result<bool, NoMemory>
    ensures { IfOk result (λ b. IsTrue b ↔ Each (showing.IsStandingShown (statements_of start.now steps.now)) history.now) }
{
    let graphs = described_graphs(alloc, start, steps)?;
    Ok(are_standing(&graphs, history))
}
