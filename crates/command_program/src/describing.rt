//! What is answered of a description.

ghost use Rattle.std.specs.Prelude.{◌≤◌, ℕ, List, [], length, IfOk, IfErr, Option};
ghost use Rattle.cfg_io.specs.Shelf.{Files};
ghost use Rattle.darwin_types.specs.Checked.{description};
ghost use Rattle.command_spec.specs.Commands.{Shown};
ghost use Rattle.command_spec.specs.Courses.{ends, judges};
ghost use Rattle.command_spec.specs.Descriptions.{IsChecked};
ghost use Rattle.command_spec.specs.Queries.{AnswersQuery, IsRefused};
ghost use Rattle.command_spec.specs.Sorts.{limit_of, of_description};
ghost use Rattle.command_spec.specs.declared.query.Query.{Query};
ghost use Rattle.command_answers.specs.DescriptionFaults.{MayRefuse};
ghost use Rattle.command_program.specs.Coming.{EndsIn, Shows};

use crate::answer::{Answer, Stop};
use crate::description::{checked_of, graph_of_call};
use crate::files::refuse_description;
use crate::replaying::replay_over;
use command_answers::{DescriptionFault, Status};
use command_spec::Query;
use command_words::TopCall;
use config_graph::graph_text;
use darwin_types::Checked;
use std::alloc::Global;

/// What is wanted of the bytes of a description, or the line that refuses it.
pub fn describe(alloc: Global, file: &str, query: &Query<'_>, text: &[u8]) -> Result<Answer, Stop>
    requires { length text.now ≤ limit_of of_description }
    ensures { (files : Option Files) → EndsIn Shows files (judges Shown of_description file.now
        (IsRefused query.now text.now) (λ s. AnswersQuery query.now text.now s.own s.text) ends) [] result }
{
    match answer_of(alloc, query, text) {
        Ok(answer) => Ok(answer),
        Err(fault) => Err(refuse_description(alloc, file, &fault)),
    }
}

/// What the bytes of a description give, or what refuses them.
fn answer_of(alloc: Global, query: &Query<'_>, text: &[u8]) -> Result<Answer, DescriptionFault>
    requires { length text.now ≤ limit_of of_description }
    ensures gives { IfOk result (λ answer. AnswersQuery query.now text.now answer.status answer.text.items) }
    ensures refused { IfErr result (MayRefuse (IsRefused query.now text.now)) }
{
    let checked = checked_of(alloc, text)?;
    use_checked(alloc, query, &checked)
}

/// What a description gives in which no name is at fault, or what refuses it.
fn use_checked(
    alloc: Global,
    query: &Query<'_>,
    checked: &Checked,
) -> Result<Answer, DescriptionFault>
    ensures gives { (text : List ℕ) → IsChecked text (description checked.now)
        → IfOk result (λ answer. AnswersQuery query.now text answer.status answer.text.items) }
    ensures refused { (text : List ℕ) → IsChecked text (description checked.now)
        → IfErr result (MayRefuse (IsRefused query.now text)) }
{
    match query {
        Query::Graph(call) => Ok(Answer {
            status: Status::Ok,
            text: graph_text_of(alloc, checked, call)?,
        }),
        Query::Replay(events) => replay_over(alloc, checked, events),
    }
}

/// The text of the graph of a component.
fn graph_text_of(
    alloc: Global,
    checked: &Checked,
    call: &TopCall<'_>,
) -> Result<Vec<u8>, DescriptionFault>
    ensures gives { (text : List ℕ) → IsChecked text (description checked.now)
        → IfOk result (λ written. AnswersQuery (Query.Graph call.now) text Status.Ok written.items) }
    ensures refused { (text : List ℕ) → IsChecked text (description checked.now)
        → IfErr result (MayRefuse (IsRefused (Query.Graph call.now) text)) }
{
    let graph = graph_of_call(alloc, checked, call)?;
    Ok(graph_text(alloc, &graph)?)
}
