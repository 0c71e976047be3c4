//! How an answer is written.

ghost use Rattle.std.specs.Prelude.{◌∷◌, ◌++◌, [], codes};
ghost use Rattle.command_spec.specs.Runs.{Run, Written, writing_to};
ghost use Rattle.command_program.specs.Coming.{result_status, result_text, stop_status, stop_text};

use crate::{Answer, Stop};
use cfg_io::{Sink, write_all};
use command_answers::Status;

/// Writes a text, and says how the run ends.
pub fn write_text<K: Sink>(out: &mut K, status: Status, text: &[u8]) -> Status
    ensures { (r : Run) → Written status text.now (writing_to K.Sink r out.old out.new result) }
{
    match write_all(out, text) {
        Ok(()) => status,
        Err(_stopped) => Status::WriteFault,
    }
}

/// Writes an answer, or why there is none, and says how the run ends.
pub fn write_answer<K: Sink>(out: &mut K, answer: Result<Answer, Stop>) -> Status
    ensures { (r : Run) → Written (result_status answer) (result_text answer)
        (writing_to K.Sink r out.old out.new result) }
{
    match answer {
        Ok(answer) => write_text(out, answer.status, answer.text.as_slice()),
        Err(stop) => finish_early(out, stop),
    }
}

/// Writes why there is no answer.
fn finish_early<K: Sink>(out: &mut K, stop: Stop) -> Status
    ensures { (r : Run) → Written (stop_status stop) (stop_text stop) (writing_to K.Sink r out.old out.new result) }
{
    match stop {
        Stop::Refused(answer) => write_text(out, answer.status, answer.text.as_slice()),
        Stop::NoMemory => write_no_memory(out),
    }
}

/// Writes that the words have none of the forms that the call knows.
pub fn write_usage<K: Sink>(out: &mut K) -> Status
    ensures { (r : Run) → Written Status.Usage (codes "usage" ++ 10 ∷ [])
        (writing_to K.Sink r out.old out.new result) }
{
    write_text(out, Status::Usage, b"usage\n")
}

/// Writes that memory ran out, as for a command line for whose words there is none.
pub fn write_no_memory<K: Sink>(out: &mut K) -> Status
    ensures { (r : Run) → Written Status.NoMemory (codes "no memory" ++ 10 ∷ [])
        (writing_to K.Sink r out.old out.new result) }
{
    write_text(out, Status::NoMemory, b"no memory\n")
}
