//! What a session is asked for, from the words and the files that they name.

ghost use Rattle.std.specs.Prelude.{◌≡◌, IfOk};
ghost use Rattle.change_apply.specs.Sessions.{CanChange, change_in};
ghost use Rattle.command_program.specs.Coming.{Comes};
ghost use Rattle.command_apply.specs.Applying.{course_to_session};
ghost use Rattle.command_apply.specs.Requests.{Asked, IsRequestFor};

use cfg_io::Shelf;
use change_apply::{Called, Request};
use command_program::{Planned, Stop, prepare_change};
use command_words::SessionWords;
use std::alloc::Global;

/// Fetches the descriptions that the words name, and plans the change that they ask for.
pub(crate) fn fetch_request<H: Shelf>(
    alloc: Global,
    shelf: &mut H,
    asked: &SessionWords<'_>,
) -> Result<Request, Stop>
    ensures comes { Comes Asked (H.files shelf.old) (course_to_session asked.now) (H.failed shelf.old)
        (H.failed shelf.new) result }
    ensures can { IfOk result (λ request. CanChange (change_in request)) }
    ensures kept { H.files shelf.new ≡ H.files shelf.old }
{
    let planned = prepare_change(alloc, shelf, &asked.change)?;
    Ok(request_of(asked.within, planned))
}

/// The request of a change that is planned.
fn request_of(within: u32, planned: Planned) -> Request
    ensures { IsRequestFor within planned result }
{
    let Planned { start, change } = planned;
    Request {
        from: Called {
            name: start.name,
            args: start.args,
            graph: start.graph,
        },
        to: Called {
            name: change.name,
            args: change.args,
            graph: change.graph,
        },
        plan: change.plan,
        within,
    }
}
