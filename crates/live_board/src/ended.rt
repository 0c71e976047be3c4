//! What a system on threads leaves behind.

ghost use Rattle.std.specs.Prelude.{◌≡◌, ℕ, false, List, [], ◌∷◌, ◌++◌, length};
ghost use Rattle.change_spec.specs.Statements.{Statement};
ghost use Rattle.change_runner.specs.Ran.{HasCarriedOut};
ghost use Rattle.report_types.specs.declared.report.Report.{Report};
ghost use Rattle.txn_records.specs.declared.entry.Entry.{Entry};
ghost use Rattle.txn_records.specs.declared.entry.Entry.TheVariants.{Looked};
ghost use Rattle.txn_spec.specs.Merging.{AreAllAmong, MergeIntoRun};
ghost use Rattle.txn_records.specs.Entries.{config_of};
ghost use Rattle.txn_spec.specs.declared.view.NodeView.{NodeView};
ghost use Rattle.live_board.specs.Ended.{AgreesWith, CarriedOutOnThreads, collected_logs};

use change_board::Board;
use change_transcript_laws::{
    early_finishes_leave_nothing_undone, joined_members_make_a_report_lawful,
    records_and_transcripts_join, records_bear_their_reports, runs_and_finishes_end_at_rest,
};

/// Where the last look of the change's seat showed that its record and what it took in are of one run, and it took in the
/// seats of all nodes made, the report of the statements that were carried out agrees with it: it is lawful, by the list
/// which that run and the history are, the record bears it, and its logs are what was taken in.
pub fn reports_agree_with_their_seat()
    ensures agrees { (statements : List Statement) (report : Report) (r : List Entry) (p w : ℕ) (nodes : List NodeView)
        → CarriedOutOnThreads statements report r nodes → MergeIntoRun (r ++ Looked p w ∷ []) nodes
        → AreAllAmong (length (config_of r).slots) nodes
        → AgreesWith statements report r nodes }
{
    early_finishes_leave_nothing_undone();
    records_and_transcripts_join();
    records_bear_their_reports();
    joined_members_make_a_report_lawful();
    runs_and_finishes_end_at_rest();
}

/// What a runner carried out on a board that isn't alone is so, where the board stands for the record of the seat alone,
/// and took in the logs that the seat took in.
pub fn boards_carry_out_on_threads<B: Board>()
    ensures carried { (statements : List Statement) (report : Report) (board : B) (r : List Entry)
        (nodes : List NodeView) → B.alone ≡ false → ((t : List Entry) → B.stands_for board t → t ≡ r)
        → B.taken board ≡ collected_logs r nodes → HasCarriedOut B.Board statements report board
        → CarriedOutOnThreads statements report r nodes }
{}
