//! What a script leaves on a board over the gates.

ghost use Rattle.std.specs.Prelude.{ℕ, ◌<◌, List, IsTrue, length};
ghost use Rattle.change_spec.specs.Statements.{Statement};
ghost use Rattle.change_runner.specs.Ran.{HasCarriedOut};
ghost use Rattle.live_board.specs.Boards.{BoardSeen};
ghost use Rattle.live_board.specs.Ended.{CarriedOutOnThreads};
ghost use Rattle.report_types.specs.declared.report.Report.{Report};
ghost use Rattle.txn_spec.specs.Views.{is_among};
ghost use Rattle.txn_records.specs.Entries.{config_of};

use crate::board::LiveBoard;
use crate::boards_carry_out_on_threads;
use crate::stile::Turnstile;
use change_board::Board;
use live_hall::Named;
use std::sync::Wait;

/// Where a script was carried out, the seat took in the seats of all nodes made, and what was carried out is so on
/// threads, by the record of the seat and the logs that it took in.
pub fn scripts_leave_all_taken_in<'g, J: Named, R: Wait + Copy, T: Turnstile + 'g>()
    ensures all { (statements : List Statement) (report : Report) (b : BoardSeen)
        → HasCarriedOut ⟦<LiveBoard<'g, J, R, T> as Board>⟧ statements report b
        → (n : ℕ) → n < length (config_of b.entries).slots → IsTrue (is_among b.nodes n) }
    ensures carried { (statements : List Statement) (report : Report) (b : BoardSeen)
        → HasCarriedOut ⟦<LiveBoard<'g, J, R, T> as Board>⟧ statements report b
        → CarriedOutOnThreads statements report b.entries b.nodes }
{
    boards_carry_out_on_threads::<LiveBoard<'g, J, R, T>>();
}
