//! Stops come to an end in rounds.

ghost use Rattle.std.specs.Prelude.{List};
ghost use Rattle.change_spec.specs.Serial.{Serial};
ghost use Rattle.change_spec.specs.Statements.{Statement};
ghost use Rattle.report_types.specs.declared.report.Report.{Report};
ghost use Rattle.change_round_laws.specs.Existing.{StopsEnd};
ghost use Rattle.change_round_laws.specs.SoundStatements.{AreSound};

use crate::a_sound_script_has_a_report_where_stops_end;
use node_turn_laws::rounds_move_what_is_open;
use quiesce_laws::rest_bounds_all;

/// In every world that is reached, once all ports of live nodes are closed each of them is found drained after some
/// number of rounds in which no node begins: a round moves while a transaction is open, and what moves brings it
/// nearer to its end.
pub fn stops_come_to_an_end()
    ensures end { StopsEnd }
{
    rounds_move_what_is_open();
    rest_bounds_all();
}

/// The statements of a sound script have a report of rounds. That there is one at most is a law of change_spec.
pub fn a_sound_script_has_a_report()
    ensures exists { (statements : List Statement) → AreSound statements
        → (report : Report) × Serial statements report }
{
    stops_come_to_an_end();
    a_sound_script_has_a_report_where_stops_end();
}
