//! A script on nodes of one thread, from its start to its report.

ghost use Rattle.std.specs.Prelude.{List, [], IfOk};
ghost use Rattle.change_spec.specs.Follows.{Follows};
ghost use Rattle.change_spec.specs.Lawful.{IsLawfulBy};
ghost use Rattle.change_spec.specs.Members.{Member};
ghost use Rattle.change_spec.specs.Serial.{Serial};
ghost use Rattle.report_writing.specs.Reports.{LogsAreMade};
ghost use Rattle.change_spec.specs.Asked.{CanDoAll, CanStart, after_start, statements_of};

use crate::reports_are_those_of_rounds;
use change_board::Board;
use change_runner::{NoOne, run_statements};
use change_spec::{Start, Step};
use change_transcript_laws::joined_members_make_a_report_lawful;
use config_graph::NoMemory;
use report_types::Report;
use std::alloc::Global;
use step_board::{Nodes, StepBoard};

/// Carries out a script on a board on which nothing was made, and gives its report. The history follows the script, and
/// the logs and the history are parts of one run of the machine by which the report is lawful. It is the report that
/// rounds have: its lines, its logs and its numbers.
pub fn run_in_rounds<N: Nodes + Drop>(
    alloc: Global,
    board: StepBoard<N>,
    start: Start,
    steps: Vec<Step>,
) -> Result<Report, NoMemory>
    requires start { CanStart start }
    requires steps { CanDoAll (after_start start) steps.items }
    requires board { ⟦<StepBoard<N> as Board>⟧.stands_for board [] }
    ensures follows { IfOk result (λ r. Follows (statements_of start steps.items) r.history) }
    ensures lawful { IfOk result (λ r. (members : List Member)
        × IsLawfulBy (statements_of start steps.items) r members) }
    ensures serial { IfOk result (λ r. Serial (statements_of start steps.items) r) }
    ensures logs { IfOk result LogsAreMade }
{
    joined_members_make_a_report_lawful();
    reports_are_those_of_rounds();
    let (report, board, _listener) = run_statements(alloc, board, start, steps, NoOne)?;
    board.close_down();
    Ok(report)
}
