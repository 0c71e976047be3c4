//! The end of a script on threads: the last look of the change's seat.

ghost use Rattle.std.specs.Prelude.{◌≡◌, ◌<◌, ℕ, IsTrue, List, length};
ghost use Rattle.change_spec.specs.Statements.{Statement};
ghost use Rattle.live_board.specs.Ended.{AgreesWith};
ghost use Rattle.live_run.specs.Carried.{CarriedOut};
ghost use Rattle.report_types.specs.declared.report.Report.{Report};
ghost use Rattle.txn_gate.specs.Seats.{IsChangeSeatOf, collected_in, record_of};
ghost use Rattle.txn_spec.specs.Merging.{MergeIntoRun};
ghost use Rattle.txn_spec.specs.Views.{is_among};
ghost use Rattle.txn_records.specs.Entries.{config_of};

use live_board::reports_agree_with_their_seat;
use txn_gate::{ChangeSeat, Gates};

/// The last look of the seat, by which its record and what it took in are of one run. So the report of what was carried
/// out agrees with the seat.
pub fn look_last(gates: &Gates, seat: &mut ChangeSeat)
    requires here { IsChangeSeatOf seat.old gates.now }
    requires carried { (statements : List Statement) × (report : Report)
        × CarriedOut gates.now.words.shared.table_id statements report seat.old }
    ensures here { IsChangeSeatOf seat.new gates.now }
    ensures agrees { (statements : List Statement) (report : Report)
        → CarriedOut gates.now.words.shared.table_id statements report seat.old
        → AgreesWith statements report (record_of seat.new) (collected_in seat.new) }
    ensures merged { MergeIntoRun (record_of seat.new) (collected_in seat.new) }
    ensures all { (n : ℕ) → n < length (config_of (record_of seat.new)).slots
        → IsTrue (is_among (collected_in seat.new) n) }
{
    reports_agree_with_their_seat();
    gates.finish(seat);
}
