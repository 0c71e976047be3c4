//! Reports that are lawful.

ghost use Rattle.change_spec.specs.Lawful.{LawfulInRounds, LawfulOnThreads};
ghost use Rattle.change_spec.specs.Scripts.{StatementsOf};
ghost use Rattle.change_spec.specs.Serial.{Serial};
ghost use Rattle.worked_report_laws.specs.Alone as alone;
ghost use Rattle.worked_report_laws.specs.Aside as aside;
ghost use Rattle.worked_report_laws.specs.Emptied as emptied;
ghost use Rattle.worked_report_laws.specs.CalledLater as called_later;
ghost use Rattle.worked_report_laws.specs.EndedEarly as ended_early;
ghost use Rattle.worked_report_laws.specs.Filled as filled;
ghost use Rattle.worked_report_laws.specs.FinishedTwice as finished_twice;
ghost use Rattle.worked_report_laws.specs.GivenUp as given_up;
ghost use Rattle.worked_report_laws.specs.GivenUpLater as given_up_later;
ghost use Rattle.worked_report_laws.specs.Kept as kept;
ghost use Rattle.worked_report_laws.specs.Looped as looped;
ghost use Rattle.worked_report_laws.specs.Moved as moved;
ghost use Rattle.worked_report_laws.specs.MovedTwice as moved_twice;
ghost use Rattle.worked_report_laws.specs.OpenUnordered as open_unordered;
ghost use Rattle.worked_report_laws.specs.Ran as ran;
ghost use Rattle.worked_report_laws.specs.RunOut as run_out;
ghost use Rattle.worked_report_laws.specs.SecondLook as second_look;
ghost use Rattle.worked_report_laws.specs.Said as said;
ghost use Rattle.worked_report_laws.specs.Shown as shown;
ghost use Rattle.worked_report_laws.specs.Skipped as skipped;
ghost use Rattle.worked_report_laws.specs.Stuck as stuck;
ghost use Rattle.worked_report_laws.specs.Summed as summed;
ghost use Rattle.worked_report_laws.specs.Undone as undone;
ghost use Rattle.worked_report_laws.specs.Waited as waited;

/// One sink that is started and shown has this report. This is the report of rounds too.
pub fn a_shown_sink_is_lawful()
    ensures lawful { LawfulOnThreads shown.script shown.report }
    ensures serial { Serial shown.script shown.report }
{}

/// A source of three items that leads through a map to a sink comes to rest, and has this report.
/// This is the report of rounds too.
pub fn a_line_that_comes_to_rest_is_lawful()
    ensures lawful { LawfulOnThreads ran.script ran.report }
    ensures serial { Serial ran.script ran.report }
{}

/// A source that leads nowhere isn't done, and its first round moves nothing: the finish ends there, and the source is
/// named. This is the report of rounds, and lawful in their order.
pub fn a_lone_source_ends_after_one_round()
    ensures serial { Serial alone.script alone.report }
    ensures lawful { (serial : Serial alone.script alone.report) → LawfulInRounds alone.script alone.report serial }
{}

/// So does a run of such a source: it is lawful in rounds, though nothing came to rest.
pub fn a_run_of_a_lone_source_ends_after_one_round()
    ensures serial { Serial stuck.script stuck.report }
    ensures lawful { (serial : Serial stuck.script stuck.report) → LawfulInRounds stuck.script stuck.report serial }
{}

/// More transactions may end in a run than were asked for; and where all came to rest, it ends with fewer.
/// This is the report of rounds too.
pub fn a_run_may_end_with_more_or_fewer()
    ensures lawful { LawfulOnThreads run_out.script run_out.report }
    ensures serial { Serial run_out.script run_out.report }
{}

/// In rounds a run counts what ends behind its own line: a second run of one transaction makes rounds until one more
/// has ended.
pub fn a_second_run_counts_anew()
    ensures serial { Serial run_out.twice_script run_out.twice_report }
{}

/// In rounds a second finish makes none where the first came to rest.
pub fn a_second_finish_makes_no_round()
    ensures serial { Serial finished_twice.script finished_twice.report }
{}

/// A change to the same graph closes nothing, and commits at once.
pub fn a_change_that_changes_nothing_is_lawful()
    ensures lawful { LawfulOnThreads kept.script kept.report }
{}

/// A node that was removed before it was done isn't named: of two sources the live one is.
pub fn a_removed_node_is_not_named()
    ensures lawful { LawfulOnThreads undone.script undone.report }
{}

/// An asker asks an adder for one sum, which takes an intermediate reply and a further message: the report of a run
/// of one transaction. This is the report of rounds too.
pub fn a_sum_with_a_further_message_is_lawful()
    ensures lawful { LawfulOnThreads summed.script summed.report }
    ensures serial { Serial summed.script summed.report }
{}

/// Lawful on threads, as a report, is a finish that saw each node done at a place of its own: a buffer that was empty then
/// has an item in the end, and is named as unfinished. No two scans would see it so, and no rounds have this report.
pub fn rest_may_be_seen_at_different_places()
    ensures lawful { LawfulOnThreads filled.script filled.report }
    ensures not_in_rounds { Serial filled.script filled.report → ⊥ }
{}

/// A change that may make no round is given up: the root that the source began is still open.
/// This is the report of rounds too.
pub fn a_change_may_be_given_up()
    ensures lawful { LawfulOnThreads given_up.script given_up.report }
    ensures serial { Serial given_up.script given_up.report }
{}

/// A change may be given up after rounds in which a port was found drained. Nothing more is done then: the first of
/// the nodes that aren't done is named, and the status is that of a change that was given up.
/// This is the report of rounds too.
pub fn a_change_may_be_given_up_after_rounds()
    ensures lawful { LawfulOnThreads given_up_later.script given_up_later.report }
    ensures serial { Serial given_up_later.script given_up_later.report }
{}

/// In rounds a source that a change doesn't freeze begins nothing while the change waits, though its port is open.
pub fn what_is_not_frozen_begins_nothing_in_a_wait()
    ensures serial { Serial aside.script aside.report }
{}

/// A change waits for one round, in which that root ends, and commits.
/// This is the report of rounds too.
pub fn a_change_may_wait()
    ensures lawful { LawfulOnThreads waited.script waited.report }
    ensures serial { Serial waited.script waited.report }
{}

/// The script of that report has these statements, where the component of its file elaborates to those graphs.
pub fn a_script_says_its_statements()
    ensures said { StatementsOf said.elaborates said.script waited.script }
{}

/// After a change that was given up the next one is skipped.
pub fn a_change_after_one_that_was_given_up_is_skipped()
    ensures lawful { LawfulOnThreads skipped.script skipped.report }
{}

/// An account is replaced by one that goes on with its balance.
pub fn a_balance_goes_on()
    ensures lawful { LawfulOnThreads moved.script moved.report }
{}

/// An account is replaced twice, and its balance goes on through both.
pub fn a_balance_goes_on_twice()
    ensures lawful { LawfulOnThreads moved_twice.script moved_twice.report }
{}

/// A buffer that leads to itself is replaced by one that goes on with what it holds.
pub fn what_a_looped_buffer_holds_goes_on()
    ensures lawful { LawfulOnThreads looped.script looped.report }
{}

/// A system may have no node, and be changed to one with a node and back.
pub fn a_system_may_be_empty()
    ensures lawful { LawfulOnThreads emptied.script emptied.report }
{}

/// On threads what is still open may be named in any order.
pub fn what_is_open_may_be_named_in_any_order()
    ensures lawful { LawfulOnThreads open_unordered.script open_unordered.report }
{}

/// On threads a root may end between the look that saw it open and the line that says so.
pub fn a_root_may_end_before_it_is_said_to_be_open()
    ensures lawful { LawfulOnThreads ended_early.script ended_early.report }
{}

/// On threads a second look may find a port drained that is lower than one that the first found.
pub fn a_second_look_may_find_a_lower_port()
    ensures lawful { LawfulOnThreads second_look.script second_look.report }
{}

/// A port may be seen drained before the call that its node still makes there, in a service that was asked for before
/// the closes.
pub fn a_port_may_be_seen_drained_before_it_is_called()
    ensures lawful { LawfulOnThreads called_later.script called_later.report }
{}
