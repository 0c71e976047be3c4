//! Laws of transcripts: what was done and told of each statement of a script makes a lawful report.

ghost use Rattle.std.specs.Prelude.{◌≡◌, ℕ, Bool, false, List, ◌∷◌, ◌++◌, map, length, All, None};
ghost use Rattle.std.specs.List.{range_with_len};
ghost use Rattle.base.specs.Each.{Each};
ghost use Rattle.txn_records.specs.Records as records;
ghost use Rattle.txn_records.specs.Records.{IsRecordOf, IsSo, Moment};
ghost use Rattle.txn_records.specs.declared.entry.Entry.{Entry};
ghost use Rattle.txn_records.specs.declared.entry.Entry.TheVariants.{Scanned};
ghost use Rattle.change_board.specs.Bearing.{Bears};
ghost use Rattle.change_board.specs.Scans.{IsSeenTwice};
ghost use Rattle.change_board.specs.Sights.{Sight, sight_entry};
ghost use Rattle.change_board.specs.Transcripts.{Item, entries, lines};
ghost use Rattle.change_spec.specs.Endings.{status_of};
ghost use Rattle.change_spec.specs.Follows.{Follows};
ghost use Rattle.change_spec.specs.Lawful.{CameToRest, IsDrainedAt, IsEndedAt, IsEndedOnce, IsFolded, IsGraphAt, IsLawfulBy, IsQuiescentAt, LawfulOnThreads, Merge, NumbersOnThreads, StoodOpenWhereSaid, unfinished_of};
ghost use Rattle.change_spec.specs.Members.{Member, events};
ghost use Rattle.change_spec.specs.Statements.{Statement};
ghost use Rattle.report_types.specs.declared.report.HistoryLine.{HistoryLine};
ghost use Rattle.report_types.specs.declared.report.NodeLog.{NodeLog};
ghost use Rattle.report_types.specs.declared.report.Report.{Report};
ghost use Rattle.quiesce_core.specs.declared.event.Event.{Event};
ghost use Rattle.quiesce_core.specs.Runs.{IsRun, state_after};
ghost use Rattle.change_transcript_laws.specs.Joining.{AreJoined};
ghost use Rattle.change_transcript_laws.specs.Pieces.{IsTranscript};
ghost use Rattle.change_transcript_laws.specs.Reports.{IsReportOfTranscript};
ghost use Rattle.change_spec.specs.Resting.{AreAtRest, FinishedEarly, RestedAtOnce, RestedIfShort};
ghost use Rattle.change_transcript_laws.specs.Rests.{AreCalm, AreQuiet, HaveFolds};

use change_spec::{a_show_is_of_the_last_commit, nothing_is_open_at_the_end};

/// The lines of a transcript are a history that follows the script.
pub fn transcripts_follow_their_scripts()
    ensures follows { (alone : Bool) (statements : List Statement) (t : List Item) → IsTranscript alone statements t
        → Follows statements (lines t) }
{}

/// What was told and what was done in the run of a record are joined in one list of members.
pub fn records_and_transcripts_join()
    ensures join { (t : List Item) (m : List Moment) → IsRecordOf (entries t) m
        → (members : List Member) × AreJoined t m members }
{}

/// The events of these members are a run of the machine.
pub fn joined_members_are_a_run()
    ensures runs { (alone : Bool) (statements : List Statement) (t : List Item) (m : List Moment)
        (members : List Member)
        → IsTranscript alone statements t → AreJoined t m members → IsRecordOf (entries t) m → IsRun (events members) }
{}

/// What a line tells as drained is so at its place, with the serial that is told.
pub fn what_is_told_as_drained_is_so()
    ensures drained { (alone : Bool) (statements : List Statement) (t : List Item) (m : List Moment)
        (members : List Member) → IsTranscript alone statements t → AreJoined t m members → IsRecordOf (entries t) m
        → Each IsDrainedAt members }
{}

/// The logs and the history are parts of these members, and nothing else is.
pub fn logs_and_history_merge()
    ensures merge { (alone : Bool) (statements : List Statement) (t : List Item) (m : List Moment)
        (members : List Member)
        (report : Report) → IsTranscript alone statements t → AreJoined t m members → IsRecordOf (entries t) m
        → IsReportOfTranscript t m report → Merge members report }
{}

/// The owner of a port that is linked or unlinked, and a node that is removed, is quiescent then.
pub fn what_is_touched_is_quiescent()
    ensures quiescent { (alone : Bool) (statements : List Statement) (t : List Item) (m : List Moment)
        (members : List Member) → IsTranscript alone statements t → AreJoined t m members → IsRecordOf (entries t) m
        → Each IsQuiescentAt members }
{}

/// Each transaction that was begun or called has ended once, with all that it needs.
pub fn each_transaction_ends_once()
    ensures ended_once { (alone : Bool) (statements : List Statement) (t : List Item) (m : List Moment)
        (members : List Member) (report : Report) → IsTranscript alone statements t → AreJoined t m members
        → IsRecordOf (entries t) m → IsReportOfTranscript t m report → (p k : ℕ) → IsEndedOnce (events members) p k }
{
    nothing_is_open_at_the_end();
}

/// Each log is one of its node's kind, from what the node was made with, and ends with its last state or tells to which
/// node that went.
pub fn logs_have_folds()
    ensures folds { (alone : Bool) (statements : List Statement) (t : List Item) (m : List Moment)
        (members : List Member)
        (report : Report) → IsTranscript alone statements t → AreJoined t m members → IsRecordOf (entries t) m
        → IsReportOfTranscript t m report → All (IsFolded members report.history) report.logs }
{}

/// At each commit the graph is that of the description, and at each show the one that is shown.
pub fn graphs_are_those_described()
    ensures graphs { (alone : Bool) (statements : List Statement) (t : List Item) (m : List Moment)
        (members : List Member) → IsTranscript alone statements t → AreJoined t m members → IsRecordOf (entries t) m
        → Each (IsGraphAt statements) members }
{}

/// The first live node that isn't done is named, where the script has a finish; and the status says whether a change
/// was given up or a node wasn't done.
pub fn reports_name_what_is_undone()
    ensures unfinished { (alone : Bool) (statements : List Statement) (t : List Item) (m : List Moment)
        (members : List Member) (report : Report) → IsTranscript alone statements t → AreJoined t m members
        → IsRecordOf (entries t) m → IsReportOfTranscript t m report
        → report.unfinished ≡ unfinished_of statements (events members) }
    ensures status { (t : List Item) (m : List Moment) (report : Report) → IsReportOfTranscript t m report
        → report.status ≡ status_of report.history report.unfinished }
{}

/// What a line tells as open stood open from the close of its port on to a place behind all closes of its change.
pub fn what_is_told_as_open_stood_open()
    ensures stood_open { (alone : Bool) (statements : List Statement) (t : List Item) (m : List Moment)
        (members : List Member) (report : Report) → IsTranscript alone statements t → AreJoined t m members
        → IsRecordOf (entries t) m → IsReportOfTranscript t m report → Each (StoodOpenWhereSaid members) report.history }
{}

/// All of these together: the report follows the script, and is lawful by these members, as far as that isn't a
/// matter of the numbers of `run` and `finish` lines.
pub fn joined_members_make_a_report_lawful()
    ensures follows { (alone : Bool) (statements : List Statement) (t : List Item) (m : List Moment) (report : Report)
        → IsTranscript alone statements t → IsReportOfTranscript t m report → Follows statements report.history }
    ensures lawful { (alone : Bool) (statements : List Statement) (t : List Item) (m : List Moment)
        (members : List Member)
        (report : Report) → IsTranscript alone statements t → AreJoined t m members → IsRecordOf (entries t) m
        → IsReportOfTranscript t m report → IsLawfulBy statements report members }
{
    nothing_is_open_at_the_end();
}

/// At least so many transactions as the line of a run tells ended since the line before it.
pub fn runs_ended_as_many_as_they_tell()
    ensures ended { (alone : Bool) (statements : List Statement) (t : List Item) (m : List Moment)
        (members : List Member)
        → IsTranscript alone statements t → AreJoined t m members → IsRecordOf (entries t) m → Each IsEndedAt members }
{}

/// The record bears the report's history: no event of it is left out, what is told of an entry is so at its place, and
/// ports were looked at at least as often as the lines on open roots and on a finish say.
pub fn records_bear_their_reports()
    ensures bears { (alone : Bool) (statements : List Statement) (t : List Item) (m : List Moment) (report : Report)
        → IsTranscript alone statements t → IsRecordOf (entries t) m → IsReportOfTranscript t m report
        → Bears (entries t) report.history }
{}

/// On a board that isn't alone: a run that ended with fewer transactions than it was asked for, and a finish that made
/// fewer rounds than it was allowed, came to rest since the line before, all at one place.
pub fn runs_and_finishes_end_at_rest()
    ensures numbers { (statements : List Statement) (t : List Item) (m : List Moment) (members : List Member)
        → IsTranscript false statements t → AreJoined t m members → IsRecordOf (entries t) m
        → NumbersOnThreads members }
    ensures at_once { (statements : List Statement) (t : List Item) (m : List Moment) (members : List Member)
        → IsTranscript false statements t → AreJoined t m members → IsRecordOf (entries t) m
        → Each RestedIfShort members }
{}

/// So the report of such a run is lawful on threads, by members in which all rested at one place where a run or a finish
/// fell short.
pub fn reports_of_threads_are_lawful()
    ensures lawful { (statements : List Statement) (t : List Item) (m : List Moment) (members : List Member)
        (report : Report)
        → IsTranscript false statements t → AreJoined t m members → IsRecordOf (entries t) m → IsReportOfTranscript t m report
        → (l : LawfulOnThreads statements report) × Each RestedIfShort l.lawful.members }
{
    joined_members_make_a_report_lawful();
    runs_and_finishes_end_at_rest();
}

/// Where two scans, the one behind the other, saw each live node with the same log, the first each live port idle, and
/// the second each live node done, all was at rest at one place: before the mark of the second. This is rest.
pub fn what_is_seen_twice_rests_at_once()
    ensures at_rest { (before after : List Moment) (begins moved : Bool) (now : List Sight) (later : List Entry)
        → AreQuiet later → Each IsSo (before ++ after) → IsRun (records.events (before ++ after))
        → records.entries after ≡ Scanned begins moved ∷ (map sight_entry now ++ later)
        → IsSeenTwice (records.entries before) now → AreAtRest (records.events before) }
    ensures came { (before : List Member) → RestedAtOnce before → CameToRest before }
{}

/// Behind a place at which all was at rest, where nothing follows but gates that are turned and nodes' events, no node is
/// left undone.
pub fn nothing_is_undone_behind_rest()
    ensures undone { (es later : List Event) → IsRun (es ++ later) → AreCalm later → AreAtRest es
        → HaveFolds (es ++ later) → (statements : List Statement) → unfinished_of statements (es ++ later) ≡ None }
    ensures folds { (m : List Member) (history : List HistoryLine) (logs : List NodeLog) → All (IsFolded m history) logs
        → map (λ (l : NodeLog). l.slot) logs ≡ range_with_len 0 (length (state_after (events m)).config.slots)
        → HaveFolds (events m) }
{}

/// So the report of a board that isn't alone names no node as undone, where a finish made fewer rounds than were allowed
/// and no change was committed behind it.
pub fn early_finishes_leave_nothing_undone()
    ensures undone { (statements : List Statement) (t : List Item) (m : List Moment) (report : Report)
        → IsTranscript false statements t → IsRecordOf (entries t) m → IsReportOfTranscript t m report
        → FinishedEarly report.history → report.unfinished ≡ None }
{
    a_show_is_of_the_last_commit();
}
