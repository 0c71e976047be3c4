//! Who hears of each commit of a run.

ghost use Rattle.std.specs.Prelude.{◌∷◌, ◌++◌, [], List, OnOk};
ghost use Rattle.config_graph.specs.Graph.{Graph};

use config_graph::{Graph, NoMemory};

/// Who hears of each commit of a run: behind the start, and behind each change that was carried out.
pub trait Listener {
    /// It heard of these graphs, in order.
    ghost heard: { Self → List Graph → Type 0 };

    /// A commit was made, behind which this graph stands.
    fn committed(&mut self, graph: &Graph) -> Result<(), NoMemory>
        requires { (graphs : List Graph) × heard self.old graphs }
        ensures { OnOk result
            ((graphs : List Graph) → heard self.old graphs → heard self.new (graphs ++ graph.now ∷ [])) };
}

/// Hears nothing.
#[derive(Clone, Copy)]
pub struct NoOne;

impl Listener for NoOne {
    ghost heard = { λ _ _. Unit {0} };

    fn committed(&mut self, _graph: &Graph) -> Result<(), NoMemory> {
        Ok(())
    }
}
