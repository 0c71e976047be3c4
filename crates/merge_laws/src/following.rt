//! Histories that follow a script: what they tell of closes, and that a reader has no choice.

ghost use Rattle.std.specs.Prelude.{◌≡◌, ◌≤◌, ℕ, ℤ, ◌+◌, List, [], ◌∷◌, ◌++◌, length};
ghost use Rattle.report_types.specs.declared.report.HistoryLine.{HistoryLine};
ghost use Rattle.change_spec.specs.Changes.{AreLooks, seen_in_all, IsChange, opening_lines};
ghost use Rattle.change_spec.specs.Follows.{Follows, IsRight, IsStop, lines_of};
ghost use Rattle.change_plan.specs.Moves.{MayMoveAll};
ghost use Rattle.change_plan.specs.Plans.{IsPlanOf};
ghost use Rattle.change_plan.specs.declared.plan_data.Move.{Move};
ghost use Rattle.change_plan.specs.declared.plan_data.Plan.{Plan};
ghost use Rattle.config_graph.specs.Graph.{Graph};
ghost use Rattle.change_plan_laws.specs.Commit.{commit_events, ports_to_close};
ghost use Rattle.quiesce_core.specs.Live.{IsGraphOf};
ghost use Rattle.change_spec.specs.Scene.{config_after, Seen};
ghost use Rattle.merge_laws.specs.Reading.{HasRead, IsChangeSo};
ghost use Rattle.change_spec.specs.Statements.{Statement};
ghost use Rattle.merge_laws.specs.Descents.{descents, pieces};
ghost use Rattle.merge_laws.specs.Telling.{IsTold};

/// The lines of a statement are one front of what is left, whatever stands behind them.
pub fn a_statement_has_one_front()
    ensures { (before : List HistoryLine) (s : Statement) (a b r q : List HistoryLine) → IsRight before s a
        → IsRight before s b → a ++ r ≡ b ++ q → a ≡ b }
{}

/// A history that follows a script tells of each port that it closes, before the port is reopened.
pub fn histories_tell_their_closes()
    ensures { (statements : List Statement) (history : List HistoryLine) → Follows statements history
        → IsTold history }
{}

/// The looks at closed ports are found by counting where the ports don't rise: the pieces in which they rise are the
/// fewest looks.
pub fn looks_are_found_by_descents()
    ensures there { (within : ℕ) (seen : List Seen) → descents seen ≤ within → AreLooks within (pieces seen) }
    ensures all_there { (seen : List Seen) → seen_in_all (pieces seen) ≡ seen }
    ensures row { descents (record { port = 3; serial = 1 } ∷ record { port = 5; serial = 1 }
        ∷ record { port = 4; serial = 2 } ∷ record { port = 4; serial = 2 } ∷ []) ≡ 2 }
    ensures needed { (within : ℕ) (looks : List (List Seen)) → AreLooks within looks
        → descents (seen_in_all looks) ≤ within }
{}

/// A reader has no choice: where a history follows the script, what is left behind the lines of some statements begins
/// with those of the next, and behind all it is the stop.
pub fn readers_have_no_choice()
    ensures on { (done : List Statement) (history left : List HistoryLine) (s : Statement)
        (front rest : List HistoryLine) (h : HasRead done history left)
        → IsRight (lines_of h.parts) s front → left ≡ front ++ rest → HasRead (done ++ s ∷ []) history rest }
    ensures next { (done : List Statement) (s : Statement) (more_ : List Statement)
        (history left : List HistoryLine) (h : HasRead done history left) → Follows (done ++ s ∷ more_) history
        → (front : List HistoryLine) × (rest : List HistoryLine) × IsRight (lines_of h.parts) s front
        × (left ≡ front ++ rest) }
    ensures last { (statements : List Statement) (history left : List HistoryLine)
        (h : HasRead statements history left) → Follows statements history → IsStop (lines_of h.parts) left }
    ensures all { (statements : List Statement) (history left : List HistoryLine)
        (h : HasRead statements history left) → IsStop (lines_of h.parts) left → Follows statements history }
{}

/// The lines of a change are told by what is closed and committed, by how often ports fall, and by which are seen.
pub fn changes_are_read_so()
    ensures so { (before : List HistoryLine) (name : List ℕ) (args : List ℤ) (old new : Graph) (within : ℕ)
        (moves : List Move) (plan : Plan) → IsGraphOf (config_after before) old → IsPlanOf old new moves plan
        → (lines : List HistoryLine) → IsChange before name args new within moves lines
        → IsChangeSo name args within (ports_to_close old plan (config_after before)) (commit_events old new plan
        (config_after (before ++ opening_lines name args old plan (config_after before)))) lines }
    ensures change { (before : List HistoryLine) (name : List ℕ) (args : List ℤ) (old new : Graph) (within : ℕ)
        (moves : List Move) (plan : Plan) → IsGraphOf (config_after before) old → IsPlanOf old new moves plan
        → (lines : List HistoryLine) → MayMoveAll old new moves (length moves)
        → IsChangeSo name args within (ports_to_close old plan (config_after before)) (commit_events old new plan
        (config_after (before ++ opening_lines name args old plan (config_after before)))) lines
        → IsChange before name args new within moves lines }
{}
