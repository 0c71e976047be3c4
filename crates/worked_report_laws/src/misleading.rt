//! Worked reports that mislead: what is decided needs each wait, and a lawful report may agree with no seat.

ghost use Rattle.std.specs.Prelude.{ℕ, false, List};
ghost use Rattle.txn_records.specs.declared.entry.Entry.{Entry};
ghost use Rattle.txn_spec.specs.declared.view.NodeView.{NodeView};
ghost use Rattle.change_spec.specs.Resting.{FinishedEarly};
ghost use Rattle.live_board.specs.Ended.{AgreesWith};
ghost use Rattle.merge_laws.specs.Guards.{MisleadsOnReport, all_guards};
ghost use Rattle.worked_report_laws.specs.Filled as filled;

/// The guards by which a close, a begin, a call and an end wait for what is told are needed for reports that follow a
/// script. Without any one of them there is a lawful report from which a way goes on no more before its end: it would be
/// called unlawful, though it isn't.
pub fn lawful_reports_need_each_wait()
    ensures close_waits { MisleadsOnReport (record all_guards { close_waits = false }) }
    ensures begin_waits { MisleadsOnReport (record all_guards { begin_waits = false }) }
    ensures call_waits { MisleadsOnReport (record all_guards { call_waits = false }) }
    ensures end_waits { MisleadsOnReport (record all_guards { end_waits = false }) }
{}

/// Two scans, the one behind the other, see no rest that was at different places. So the worked report in which a finish
/// made no round, and a node is named as undone, is lawful on threads, and agrees with no seat.
pub fn rest_at_different_places_agrees_with_no_seat()
    ensures early { FinishedEarly filled.report.history }
    ensures refuted { (r : List Entry) (nodes : List NodeView) → AgreesWith filled.script filled.report r nodes → ⊥ }
{}
