//! The shelf that has them.

ghost use Rattle.std.specs.Prelude.{◌≡◌, IfOk, Some};
ghost use Rattle.command_words.specs.BigFiles.{files_beside, script};

use crate::big_texts::{DESCRIPTION, SCRIPT_NAME, script_text};
use cfg_io::{NoMemory, Shelf, ShelfError};
use std::alloc::Global;
use std::marker::Model;

/// The script has its name, and the description any other: so no fetch fails. Contracts see the bytes of the script.
#[derive(Drop)]
pub struct MadeFiles {
    alloc: Global,
    script: Vec<u8>,
}

impl Model for MadeFiles {
    ghost use Rattle.std.specs.Prelude.{List, ℕ};

    ghost Value = { List ℕ };

    ghost view = { λ made. made.script.items };
}

impl MadeFiles {
    /// The files of so many lanes.
    pub fn of(alloc: Global, lanes: u32) -> Result<MadeFiles, NoMemory>
        ensures { IfOk result (λ made. made ≡ script lanes) }
    {
        let script = script_text(alloc, lanes)?;
        Ok(MadeFiles { alloc, script })
    }

    /// The bytes of the file of a name.
    fn text_of(&self, name: &str) -> &[u8]
        ensures { Some result.now ≡ files_beside self.now name.now }
    {
        if name == SCRIPT_NAME {
            self.script.as_slice()
        } else {
            DESCRIPTION.as_bytes()
        }
    }
}

impl Shelf for MadeFiles {
    ghost use Rattle.std.specs.Prelude.{Some, []};
    ghost use Rattle.command_words.specs.BigFiles.{files_beside};

    ghost failed = { λ _. [] };

    ghost files = { λ script. Some (files_beside script) };

    fn fetch(&mut self, name: &str, limit: u32) -> Result<Vec<u8>, ShelfError> {
        let text = self.text_of(name);
        if text.len() > limit as usize {
            return Err(ShelfError::TooLong { limit });
        }
        Ok(Vec::from_slice(self.alloc, text)?)
    }
}
