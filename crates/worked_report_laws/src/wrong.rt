//! Reports that are wrong in one place, each refuted by one clause, whatever list of members is chosen.

ghost use Rattle.std.specs.Prelude.{◌≡◌, List, [], take, Some, None, All};
ghost use Rattle.base.specs.Each.{Each};
ghost use Rattle.quiesce_core.specs.Runs.{IsRun};
ghost use Rattle.report_types.specs.declared.report.HistoryLine.{HistoryLine};
ghost use Rattle.change_spec.specs.Closings.{IsClosedFor};
ghost use Rattle.change_spec.specs.Follows.{Follows};
ghost use Rattle.change_spec.specs.Lawful.{IsDrainedAt, IsEndedAt, IsFewAt, IsFinishAt, IsFolded, IsGraphAt, IsRunAt, Merge, StoodOpenWhereSaid, unfinished_of};
ghost use Rattle.change_spec.specs.Members.{Member, events};
ghost use Rattle.change_spec.specs.Serial.{Serial};
ghost use Rattle.worked_report_laws.specs.Alone as alone;
ghost use Rattle.worked_report_laws.specs.FinishedTwice as finished_twice;
ghost use Rattle.worked_report_laws.specs.Ran as ran;
ghost use Rattle.worked_report_laws.specs.RunOut as run_out;
ghost use Rattle.worked_report_laws.specs.Shown as shown;
ghost use Rattle.worked_report_laws.specs.WrongChanges as changes;
ghost use Rattle.worked_report_laws.specs.WrongClosings as closings;
ghost use Rattle.worked_report_laws.specs.WrongEnds as ends;
ghost use Rattle.worked_report_laws.specs.WrongLines as wrong_lines;
ghost use Rattle.worked_report_laws.specs.WrongLogs as logs;
ghost use Rattle.worked_report_laws.specs.WrongLooks as looks;
ghost use Rattle.worked_report_laws.specs.WrongRuns as runs;
ghost use Rattle.worked_report_laws.specs.WrongSerials as serials;
ghost use Rattle.worked_report_laws.specs.WrongSights as sights;
ghost use Rattle.worked_report_laws.specs.WrongTellings as tellings;

use quiesce_laws::open_roots_are_seen;

/// A start that doesn't reopen a port; a stop that closes one and doesn't find it drained; a graph that isn't the one
/// that stands; a finish that ends early though nothing came to rest, and neither the rounds end there; one that makes
/// more rounds than were allowed; and a node that isn't done, of which nothing is said.
pub fn wrong_lines_are_refuted()
    ensures reopened { Follows wrong_lines.starting wrong_lines.never_reopened → ⊥ }
    ensures drained { Follows ran.script wrong_lines.unseen → ⊥ }
    ensures shown { (m : List Member) → Merge m wrong_lines.shown_wrongly → Each (IsGraphAt shown.script) m → ⊥ }
    ensures finished { (m : List Member) → Merge m (alone.report_of 3 (Some 0) 8) → Each IsFinishAt m → ⊥ }
    ensures finished_in_rounds { Serial alone.script (alone.report_of 3 (Some 0) 8) → ⊥ }
    ensures outrun { (m : List Member) → Merge m wrong_lines.outrun → Each IsFewAt m → ⊥ }
    ensures unfinished { (m : List Member) → Merge m (alone.report_of 5 None 0)
        → None ≡ unfinished_of alone.script (events m) → ⊥ }
{}

/// A change that is skipped though none before it was given up; one that changes nothing and closes all ports; and
/// two looks where one was allowed, the second of which finds a lower port. None of these histories follows its
/// script. None at all follows a script that moves a state from a node that stays.
pub fn wrong_changes_are_refuted()
    ensures skipped { Follows changes.keeping_sink changes.skipped_for_nothing → ⊥ }
    ensures closed { Follows changes.keeping_line changes.closed_for_nothing → ⊥ }
    ensures looked { Follows changes.looking_once changes.looked_again → ⊥ }
    ensures moved { (history : List HistoryLine) → Follows changes.moving_nowhere history → ⊥ }
{}

/// A change that commits though the port that it closed wasn't found drained, or was found so twice; one that is given
/// up though no root is left, or with other rounds than it was allowed; and ports that were found both drained and
/// open, or neither. So for the stop, which finds a port drained twice.
pub fn wrong_sights_are_refuted()
    ensures unseen { Follows sights.replacing sights.unseen → ⊥ }
    ensures twice { Follows sights.replacing sights.seen_twice → ⊥ }
    ensures idly { Follows sights.replacing sights.given_up_idly → ⊥ }
    ensures late { Follows sights.replacing sights.given_up_late → ⊥ }
    ensures both { Follows sights.replacing sights.seen_both_ways → ⊥ }
    ensures neither { Follows sights.replacing_pair sights.seen_neither_way → ⊥ }
    ensures stopped { Follows alone.script sights.stopped_twice → ⊥ }
{}

/// A line says what its statement asks for: a start with its component and arguments, a change too, a run with its
/// number and a finish with its rounds. A change behind one that was given up isn't tried, and names what its statement
/// does; and no state moves twice.
pub fn wrong_tellings_are_refuted()
    ensures renamed { Follows alone.script tellings.renamed → ⊥ }
    ensures argument { Follows alone.script tellings.of_three → ⊥ }
    ensures run { Follows logs.running_two tellings.run_of_two → ⊥ }
    ensures finish { Follows alone.script tellings.finished_within_six → ⊥ }
    ensures change { Follows sights.replacing tellings.change_to_four → ⊥ }
    ensures again { Follows tellings.trying_again tellings.tried_again → ⊥ }
    ensures skipped { Follows tellings.trying_again tellings.skipped_to_nine → ⊥ }
    ensures moved_twice { (history : List HistoryLine) → Follows tellings.moving_twice history → ⊥ }
{}

/// A `run` that ends with nothing though nothing came to rest, and neither the rounds end so; one that counts what
/// ended before the line before it; and a finish that ends early, for a rest that was before that line or that not all
/// nodes have, or as the rounds end another finish; so for a second one.
pub fn wrong_runs_are_refuted()
    ensures idle { (m : List Member) → Merge m runs.ended_idly → Each IsRunAt m → ⊥ }
    ensures idle_in_rounds { Serial run_out.script runs.ended_idly → ⊥ }
    ensures rested_before { (m : List Member) → Merge m runs.rested_before → IsRun (events m) → Each IsRunAt m
        → Each IsFinishAt m → ⊥ }
    ensures partly { (m : List Member) → Merge m runs.rested_partly → Each IsFinishAt m → ⊥ }
    ensures partly_in_rounds { Serial ran.script runs.rested_partly → ⊥ }
    ensures later { (m : List Member) → Merge m finished_twice.finished_later → Each IsFinishAt m → ⊥ }
    ensures later_in_rounds { Serial finished_twice.script finished_twice.finished_later → ⊥ }
    ensures sooner { (m : List Member) → Merge m finished_twice.finished_at_once → Each IsFinishAt m → ⊥ }
    ensures sooner_in_rounds { Serial finished_twice.script finished_twice.finished_at_once → ⊥ }
    ensures twice { (m : List Member) → Merge m runs.counted_twice → IsRun (events m) → Each IsEndedAt m → ⊥ }
{}

/// Logs of two nodes with each other's events are part of no list with the history; nor is a report in which a node has
/// no log, or two. A map that takes another value than was sent is in no run. A `run` line that says that three
/// transactions ended where two did is wrong, on threads as on one.
pub fn wrong_logs_are_refuted()
    ensures swapped { (m : List Member) → Merge m logs.swapped → ⊥ }
    ensures unlogged { (m : List Member) → Merge m runs.unlogged → ⊥ }
    ensures logged_twice { (m : List Member) → Merge m runs.logged_twice → ⊥ }
    ensures altered { (m : List Member) → Merge m logs.altered → IsRun (events m) → ⊥ }
    ensures hurried { (m : List Member) → Merge m logs.hurried → IsRun (events m) → Each IsEndedAt m → ⊥ }
{}

/// An account that was replaced has moved its state: the one that replaces it doesn't begin with 100 again, and it
/// tells no state itself, nor that its state went to another node. A source sends no value that its kind doesn't,
/// and its log tells what it did in order.
pub fn wrong_states_are_refuted()
    ensures forgotten { (m : List Member) → Merge m logs.forgetting
        → All (IsFolded m logs.forgetting.history) logs.forgetting.logs → ⊥ }
    ensures kept_back { (m : List Member) → All (IsFolded m logs.keeping_back.history) logs.keeping_back.logs → ⊥ }
    ensures misled { (m : List Member) → All (IsFolded m runs.misleading.history) runs.misleading.logs → ⊥ }
    ensures invented { (m : List Member) → Merge m tellings.invented
        → All (IsFolded m tellings.invented.history) tellings.invented.logs → ⊥ }
    ensures turned { (m : List Member) → Merge m tellings.turned
        → All (IsFolded m tellings.turned.history) tellings.turned.logs → ⊥ }
{}

/// A port isn't drained with the serial before its last, nor while its root is open, and a root that ended before the
/// change before isn't open.
pub fn wrong_looks_are_refuted()
    ensures early { (m : List Member) → Merge m looks.early → IsRun (events m) → Each IsDrainedAt m → ⊥ }
    ensures hasty { (m : List Member) → Merge m looks.hasty → IsRun (events m) → Each IsEndedAt m
        → Each IsDrainedAt m → ⊥ }
    ensures outdated { (m : List Member) → Merge m looks.outdated → IsRun (events m) → Each IsDrainedAt m
        → Each (StoodOpenWhereSaid m) looks.outdated.history → ⊥ }
{
    open_roots_are_seen();
}

/// A port isn't drained with a serial to which it hasn't come, nor is such a root open. And a root isn't open that
/// ended before the last port of its change was closed.
pub fn wrong_serials_are_refuted()
    ensures late { (m : List Member) → Merge m serials.late → IsRun (events m) → Each IsDrainedAt m → ⊥ }
    ensures ahead { (m : List Member) → Merge m serials.ahead → IsRun (events m) → Each IsDrainedAt m
        → Each (StoodOpenWhereSaid m) serials.ahead.history → ⊥ }
    ensures between { (m : List Member) → Merge m serials.between → IsRun (events m)
        → Each (StoodOpenWhereSaid m) serials.between.history → ⊥ }
{}

/// A change that commits removes what it replaces before it makes another, which takes over no state unasked, and
/// reopens what it made; one that is given up reopens what it closed, and in each of its looks the ports rise. The
/// stop closes each live port, and finds no other drained; and each statement has its lines. A port isn't closed for
/// a change that freezes nothing, nor before the change is named.
pub fn wrong_closings_are_refuted()
    ensures left { Follows sights.replacing closings.left_closed → ⊥ }
    ensures kept { Follows sights.replacing closings.kept_closed → ⊥ }
    ensures unasked { Follows sights.replacing closings.moved_unasked → ⊥ }
    ensures too_early { Follows sights.replacing closings.made_too_soon → ⊥ }
    ensures falling { Follows closings.replacing_three closings.seen_falling → ⊥ }
    ensures unclosed { Follows alone.script closings.unclosed → ⊥ }
    ensures elsewhere { Follows alone.script closings.seen_elsewhere → ⊥ }
    ensures unshown { Follows shown.script closings.unshown → ⊥ }
    ensures for_nothing { IsClosedFor changes.parts_for_nothing (take 10 changes.closed_for_nothing) 0 → ⊥ }
    ensures too_soon { IsClosedFor changes.parts_for_nothing [] 0 → ⊥ }
{}

/// A node that stays has not moved its state, a sink tells each value that it took, logs stand in the order of their
/// nodes, and of two nodes that aren't done the first is named.
pub fn wrong_ends_are_refuted()
    ensures sent_off { (m : List Member) → All (IsFolded m ends.sending_off.history) ends.sending_off.logs → ⊥ }
    ensures misheard { (m : List Member) → Merge m ends.mishearing
        → All (IsFolded m ends.mishearing.history) ends.mishearing.logs → ⊥ }
    ensures disordered { (m : List Member) → Merge m ends.disordered → ⊥ }
    ensures second { (m : List Member) → Merge m ends.second_named
        → Some 1 ≡ unfinished_of ends.finishing_at_once (events m) → ⊥ }
{}
