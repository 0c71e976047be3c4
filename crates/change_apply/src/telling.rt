//! The lines that tell events of a change.

ghost use Rattle.std.specs.Prelude.{◌≡◌, ◌++◌, option_to_list, IfOk, OnOk};
ghost use Rattle.change_spec.specs.Members as members;
ghost use Rattle.change_spec.specs.Members.{lines_of_events};

use config_graph::NoMemory;
use quiesce_core::Event;
use report_types::HistoryLine;

/// The line of an event, if it is one of the change.
fn line_of(event: &Event) -> Result<Option<HistoryLine>, NoMemory>
    ensures { IfOk result (λ line. line ≡ members.line_of event.now) }
{
    let line = match event {
        Event::Make { slot, node, from } => HistoryLine::Make {
            slot: *slot,
            node: node.try_clone()?,
            from: *from,
        },
        Event::Link {
            port,
            node,
            provide,
        } => HistoryLine::Link {
            port: *port,
            node: *node,
            provide: *provide,
        },
        Event::Unlink { port } => HistoryLine::Unlink { port: *port },
        Event::Remove { node } => HistoryLine::Remove { node: *node },
        Event::Close { port } => HistoryLine::Close { port: *port },
        Event::Reopen { port } => HistoryLine::Reopen { port: *port },
        _ => return Ok(None),
    };
    Ok(Some(line))
}

fn push_line(lines: &mut Vec<HistoryLine>, event: &Event) -> Result<(), NoMemory>
    ensures { OnOk result (lines.new.items ≡ lines.old.items ++ option_to_list (members.line_of event.now)) }
{
    if let Some(line) = line_of(event)? {
        lines.push(line)?;
    }
    Ok(())
}

/// Appends the lines of these events.
pub(crate) fn push_lines(lines: &mut Vec<HistoryLine>, events: &[Event]) -> Result<(), NoMemory>
    ensures { OnOk result (lines.new.items ≡ lines.old.items ++ lines_of_events events.now) }
{
    for event in events {
        push_line(lines, event)?;
    }
    Ok(())
}
