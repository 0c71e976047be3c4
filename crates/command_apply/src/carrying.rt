//! The command, from what its words ask for to its status.

ghost use Rattle.std.specs.Prelude.{◌≡◌, ℕ, List};
ghost use Rattle.command_spec.specs.Runs.{run_of};
ghost use Rattle.command_apply.specs.Applying.{AppliesBy};

use crate::requesting::fetch_request;
use crate::talking::talk;
use cfg_io::{Shelf, Sink};
use command_answers::Status;
use command_program::write_answer;
use command_words::SessionWords;
use std::alloc::Global;
use std::io::Read;

/// Carries out what the words of `apply` ask for: it fetches the description, plans the change, and holds a session with the
/// runtime of a system elsewhere, by the lines of the input. What is refused has its line, and then nothing is read.
pub fn carry_out<H: Shelf, I: Read + Drop, K: Sink>(
    alloc: Global,
    asked: &SessionWords<'_>,
    shelf: &mut H,
    input: I,
    out: &mut K,
) -> Status
    // The fetch, the session or the line that refuses, and what was written of it.
    ensures applies { (words : List (List ℕ)) → AppliesBy asked.now (I.remaining input)
        (run_of H.Shelf K.Sink words shelf.old shelf.new out.old out.new result) }
    // No fetch changes the files.
    ensures kept { H.files shelf.new ≡ H.files shelf.old }
{
    match fetch_request(alloc, shelf, asked) {
        Ok(request) => talk(alloc, request, input, out),
        Err(stop) => write_answer(out, Err(stop)),
    }
}
