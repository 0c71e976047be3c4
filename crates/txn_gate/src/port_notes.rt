//! What is kept of a port besides its gate.

ghost use Rattle.std.specs.Prelude.{◌≡◌, ◌||◌, false, true, replicate, IfOk};
ghost use Rattle.txn_gate.specs.PortNotes.{fresh_note, is_noted, note_in};

use config_graph::NoMemory;
use std::alloc::Global;

/// Whether the port was ever reopened, and whether a look found it drained since it was last closed or reopened.
#[derive(Clone, Copy)]
pub struct PortNote {
    pub reopened: bool,
    pub found: bool,
}

/// What is noted of a port at which nothing was done.
const FRESH_NOTE: PortNote = PortNote {
    reopened: false,
    found: false,
};

impl PortNote {
    pub fn is_noted(self) -> bool
        ensures { result ≡ is_noted self }
    {
        !self.reopened || self.found
    }

    pub fn closed(self) -> PortNote
        ensures { result ≡ record self { found = false } }
    {
        PortNote {
            found: false,
            ..self
        }
    }

    pub fn reopened(self) -> PortNote
        ensures { result ≡ record { reopened = true; found = false } }
    {
        PortNote {
            reopened: true,
            found: false,
        }
    }

    pub fn looked(self, is_drained: bool) -> PortNote
        ensures { result ≡ record self { found = self.found || is_drained } }
    {
        let found = self.found || is_drained;
        PortNote { found, ..self }
    }
}

/// So many notes of ports at which nothing was done.
pub fn fresh_notes(alloc: Global, count: u32) -> Result<Vec<PortNote>, NoMemory>
    ensures { IfOk result (λ v. v.items ≡ replicate count fresh_note) }
{
    vec![in alloc; FRESH_NOTE; count as usize]
}

/// What is noted of a port.
pub fn note_at(notes: &[PortNote], port: u32) -> PortNote
    ensures { result ≡ note_in notes.now port }
{
    notes.get(port as usize).copied().unwrap_or(FRESH_NOTE)
}
