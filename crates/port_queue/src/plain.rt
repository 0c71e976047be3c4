//! The inboxes of one thread.

ghost use Rattle.std.specs.Prelude.{◌≡◌, ℕ, [], Some, IfOk, length, replicate};
ghost use Rattle.config_graph.specs.declared.TheConstants.{MAX_NODES};
ghost use Rattle.port_queue.specs.Inboxes.{no_counts};
ghost use Rattle.port_queue.specs.Plain.{box_of, empty_box};

use crate::hints::{Full, Hints};
use crate::inbox::Inbox;
use config_graph::{MAX_NODES, NoMemory};
use std::alloc::Global;

/// An inbox for each node that one run may make. It tells what they hold, so its Full and None are exact.
#[derive(Drop)]
pub struct PlainHints {
    inboxes: Vec<Inbox>,
    ghost each_node: { length inboxes.items ≡ MAX_NODES },
}

impl PlainHints {
    /// Empty inboxes. It takes the memory of all hints that they may hold, some two million bytes.
    #[tactic(auto, using(crate::proofs::Boxes::number_of_boxes))]
    pub fn new(alloc: Global) -> Result<PlainHints, NoMemory>
        ensures empty { IfOk result (λ h. (node : ℕ) → ⟦<PlainHints as Hints>⟧.tells h node ≡ Some []) }
        ensures uncounted { IfOk result (λ h. (node : ℕ) → ⟦<PlainHints as Hints>⟧.counts h node ≡ no_counts) }
    {
        let inboxes = empty_inboxes(alloc, MAX_NODES)?;
        Ok(PlainHints { inboxes })
    }
}

/// So many empty inboxes.
fn empty_inboxes(alloc: Global, count: u32) -> Result<Vec<Inbox>, NoMemory>
    ensures { IfOk result (λ v. v.items ≡ replicate count empty_box) }
{
    let mut inboxes = Vec::with_capacity(alloc, count as usize)?;
    for _ in 0..count {
        let inbox = Inbox::new(alloc)?;
        inboxes.push(inbox)?;
    }
    Ok(inboxes)
}

impl Hints for PlainHints {
    ghost counts = { λ h node. (box_of h.inboxes.items node).counts };

    ghost tells = { λ h node. Some (box_of h.inboxes.items node).held };

    fn post(&mut self, node: u32, port: u32) -> Result<(), Full> {
        self.inboxes[node as usize].post(port)
    }

    fn next(&mut self, node: u32) -> Option<u32> {
        self.inboxes[node as usize].next()
    }
}
