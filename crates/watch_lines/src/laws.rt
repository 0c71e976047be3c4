//! What was seen of published graphs, where these are the graphs at the commit lines of a report.

ghost use Rattle.std.specs.Prelude.{List};
ghost use Rattle.config_graph.specs.Graph.{Graph};
ghost use Rattle.report_types.specs.declared.report.HistoryLine.{HistoryLine};
ghost use Rattle.change_spec.specs.Heard.{AreCommitted};
ghost use Rattle.watch_lines.specs.Observers.{AreToldOf};
ghost use Rattle.watch_lines.specs.Sightings.{AreSightingsOf};
ghost use Rattle.watch_lines.specs.declared.sighting.Sighting.{Sighting};

/// Sightings of the graphs at the commit lines of a history, of which the last is of all, tell of that history.
pub fn what_was_seen_is_told()
    ensures { (history : List HistoryLine) (graphs : List Graph) (lines : List Sighting)
        → AreCommitted history graphs → AreSightingsOf graphs lines → AreToldOf history lines }
{}
