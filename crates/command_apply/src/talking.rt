//! A session over an input and a sink, and the status that it ends with.

ghost use Rattle.change_apply.specs.Sessions.{CanChange, change_in};
ghost use Rattle.command_spec.specs.Runs.{Run, writing_to};
ghost use Rattle.command_apply.specs.Applying.{Talks};
ghost use Rattle.command_apply.specs.Requests.{EndsWith};

use cfg_io::Sink;
use change_apply::{Ending, Request, apply};
use command_answers::Status;
use command_program::write_no_memory;
use std::alloc::Global;
use std::io::{BufReader, Read};

/// Holds a session by the lines that come from the input.
pub(crate) fn talk<I: Read + Drop, K: Sink>(
    alloc: Global,
    request: Request,
    input: I,
    out: &mut K,
) -> Status
    requires { CanChange (change_in request) }
    ensures { (seen : Run) → Talks request (I.remaining input) (writing_to K.Sink seen out.old out.new result) }
{
    match BufReader::new(alloc, input) {
        Ok(mut reader) => {
            let ending = apply(alloc, request, &mut reader, out);
            end_with(out, ending)
        }
        Err(_) => write_no_memory(out),
    }
}

/// The status of a session that ended so. Where memory was wanted, a line says so.
fn end_with<K: Sink>(out: &mut K, ending: Ending) -> Status
    ensures { (seen : Run) → EndsWith ending (writing_to K.Sink seen out.old out.new result) }
{
    match ending {
        Ending::Committed => Status::Ok,
        Ending::Bad => Status::Script,
        Ending::Unread => Status::ReadFault,
        Ending::Unwritten => Status::WriteFault,
        Ending::NoMemory => write_no_memory(out),
        Ending::GivenUp => Status::Pending,
        Ending::Denied => Status::Denied,
    }
}
