//! Laws of transcripts whose records are of rounds.

ghost use Rattle.std.specs.Prelude.{ℕ, ℤ, Bool, true, List, ◌++◌};
ghost use Rattle.txn_records.specs.Records.{Moment};
ghost use Rattle.change_board.specs.Transcripts.{Item, entries};
ghost use Rattle.change_spec.specs.Serial.{Serial};
ghost use Rattle.change_spec.specs.Statements.{Statement, change, finish, run, show, start};
ghost use Rattle.change_plan.specs.declared.plan_data.Move.{Move};
ghost use Rattle.report_types.specs.declared.report.Report.{Report};
ghost use Rattle.config_graph.specs.Graph.{Graph};
ghost use Rattle.change_transcript_laws.specs.Pieces.{IsDone, AreStopItems, IsTranscript};
ghost use Rattle.change_transcript_laws.specs.Reports.{IsReportOfTranscript, taken_in};
ghost use Rattle.step_runner.specs.Behind.{AreByRounds, IsPlayedBehind, StopsBehind};
ghost use Rattle.step_board.specs.Standing.{AreOfRounds};

use change_round_laws::states_are_folds_of_own_events;
use change_transcript_laws::{joined_members_make_a_report_lawful, records_and_transcripts_join};
use node_turn_laws::worlds_at_rest_stay;

/// The items of a start are those that rounds make.
pub fn starts_are_played()
    ensures start { (alone : Bool) (before t : List Item) (name : List ℕ) (args : List ℤ) (g : Graph)
        → IsDone alone before (start name args g) t → IsPlayedBehind before (start name args g) t }
{}

/// The items of a change are those that rounds make: it waits for as many rounds, finds the same ports drained, and
/// ends in the same way.
pub fn changes_are_played()
    ensures change { (alone : Bool) (before t : List Item) (name : List ℕ) (args : List ℤ) (g : Graph) (within : ℕ)
        (moves : List Move) → AreByRounds (before ++ t) → IsDone alone before (change name args g within moves) t
        → IsPlayedBehind before (change name args g within moves) t }
{}

/// The items of a show are those that rounds make.
pub fn shows_are_played()
    ensures show { (alone : Bool) (before t : List Item) → AreByRounds (before ++ t) → IsDone alone before show t
        → IsPlayedBehind before show t }
{}

/// The items of a run are those that rounds make: as many of them, and how many transactions ended.
pub fn runs_are_played()
    ensures run { (before t : List Item) (k : ℕ) → AreByRounds (before ++ t) → IsDone true before (run k) t
        → IsPlayedBehind before (run k) t }
{}

/// The items of a finish are those that rounds make: as many of them, since a scan that moves nothing where all is at
/// rest leaves all as it is.
pub fn finishes_are_played()
    ensures finish { (before t : List Item) (n : ℕ) → AreByRounds (before ++ t) → IsDone true before (finish n) t
        → IsPlayedBehind before (finish n) t }
{
    worlds_at_rest_stay();
    states_are_folds_of_own_events();
}

/// The items of the stop are those that rounds make: it waits for as many rounds, until each port that it closed is
/// drained.
pub fn stops_are_played()
    ensures stop { (before t : List Item) → AreByRounds (before ++ t) → AreStopItems before t → StopsBehind before t }
{}

/// The report is the one that rounds have, where the logs are what the rounds of the record come to.
pub fn reports_are_those_of_rounds()
    ensures serial { (statements : List Statement) (t : List Item) (m : List Moment) (report : Report)
        → IsTranscript true statements t → AreOfRounds (entries t) (taken_in report) → IsReportOfTranscript t m report
        → Serial statements report }
{
    worlds_at_rest_stay();
    joined_members_make_a_report_lawful();
    records_and_transcripts_join();
    states_are_folds_of_own_events();
}
