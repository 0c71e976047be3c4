//! A law of what a report tells.

ghost use Rattle.std.specs.Prelude.{List};
ghost use Rattle.base.specs.Each.{Each};
ghost use Rattle.change_spec.specs.Statements.{Statement};
ghost use Rattle.live_board.specs.Ended.{AgreesWith};
ghost use Rattle.live_run.specs.Telling.{IsSeenItem};
ghost use Rattle.report_types.specs.declared.report.Report.{Report};
ghost use Rattle.txn_records.specs.declared.entry.Entry.{Entry};
ghost use Rattle.txn_spec.specs.declared.view.NodeView.{NodeView};

/// Where a report agrees with its seat, it came about by a transcript of that record (`came`). At each place of it a
/// `run` line tells what the looks and scans of that run counted, a `finish` line how many of its scans were rounds, and
/// an `open` line a root that the last look of that change saw.
pub fn lines_tell_what_was_seen()
    ensures seen { (statements : List Statement) (report : Report) (r : List Entry) (nodes : List NodeView)
        (h : AgreesWith statements report r nodes) → Each IsSeenItem h.came.transcript }
{}
