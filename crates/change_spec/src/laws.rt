//! Laws of lawful reports: what follows from being one run, and what from their lines.

ghost use Rattle.std.specs.Prelude.{◌≡◌, ◌<◌, ℕ, Bool, true, false, List, [], ◌∷◌, ◌++◌, filter_map, length, slice_get, All, Some, option_and_then, option_map};
ghost use Rattle.std.specs.List.{list_any};
ghost use Rattle.base.specs.Each.{Each};
ghost use Rattle.change_plan.specs.Moves.{MayMoveAll};
ghost use Rattle.change_plan.specs.Plans.{IsPlanOf};
ghost use Rattle.change_plan.specs.declared.plan_data.Move.{Move};
ghost use Rattle.change_plan.specs.declared.plan_data.Plan.{Plan};
ghost use Rattle.component_trait.specs.States.{NodeState};
ghost use Rattle.config_graph.specs.Graph.{Graph};
ghost use Rattle.quiesce_laws.specs.Steps.{is_shaping};
ghost use Rattle.quiesce_core.specs.declared.event.Event.{Event};
ghost use Rattle.quiesce_core.specs.Live.{IsGraphOf};
ghost use Rattle.quiesce_core.specs.Runs.{IsRun, done_by, is_open_after, state_after};
ghost use Rattle.quiesce_core.specs.declared.state.Slot.{Slot};
ghost use Rattle.quiesce_core.specs.State.{Configuration, slot};
ghost use Rattle.node_turn_laws.specs.Round.{FirstAt};
ghost use Rattle.report_types.specs.declared.report.HistoryLine.{HistoryLine};
ghost use Rattle.report_types.specs.declared.report.HistoryLine.TheVariants.{Close, Commit, Show};
ghost use Rattle.report_types.specs.declared.report.Report.{Report};
ghost use Rattle.change_spec.specs.Closings.{IsClosedFor};
ghost use Rattle.change_spec.specs.Follows.{Follows, lines_of};
ghost use Rattle.change_spec.specs.Consistent.{Consistent};
ghost use Rattle.change_spec.specs.Found.{IsFound, is_ended_at, is_few_at, is_finish_at, is_run_at, passes_each};
ghost use Rattle.change_spec.specs.Lawful.{IsDrainedAt, IsEndedOnce, IsLawfulBy, IsOfItsKind, IsQuiescentAt, Lawful, LawfulInRounds, LawfulOnThreads, Merge, NumbersInRounds, NumbersOnThreads, StoodOpen, described};
ghost use Rattle.change_spec.specs.Members.{Member, of_history, event_of, events, is_commit, lines, without_roots};
ghost use Rattle.change_spec.specs.Opening.{fold_at, fold_of_node, fold_within};
ghost use Rattle.change_spec.specs.Planning.{can_be_planned, planned};
ghost use Rattle.change_spec.specs.Roots.{StoodSinceClose};
ghost use Rattle.change_spec.specs.Scene.{Seen};
ghost use Rattle.change_spec.specs.Serial.{Serial};
ghost use Rattle.change_spec.specs.Standing.{is_graph_of};
ghost use Rattle.change_spec.specs.Statements.{Statement};
ghost use Rattle.change_spec.specs.Told.{Told, can_follow, history_told};

/// That nodes are linked, unlinked and removed only while quiescent follows from the events being a run: a report
/// can't fail by it alone.
pub fn changes_find_nodes_quiescent()
    ensures quiescent { (m : List Member) → IsRun (events m) → Each IsQuiescentAt m }
{}

/// A transaction of a run that isn't open at its end has ended once, with all that it needs.
pub fn transactions_end_once()
    ensures once { (es : List Event) → IsRun es → (p k : ℕ) → is_open_after es p k ≡ false → IsEndedOnce es p k }
{}

/// The stop closes each live port and finds each drained, so no transaction is open at the end, and each has ended
/// once: a report can't fail by that alone.
pub fn nothing_is_open_at_the_end()
    ensures nothing_open { (statements : List Statement) (report : Report) (m : List Member)
        → Follows statements report.history
        → Merge m report → IsRun (events m) → Each IsDrainedAt m → (p k : ℕ) → is_open_after (events m) p k ≡ false }
    ensures ended_once { (statements : List Statement) (report : Report) (m : List Member)
        → Follows statements report.history
        → Merge m report → IsRun (events m) → Each IsDrainedAt m → (p k : ℕ) → IsEndedOnce (events m) p k }
{}

/// There is one first number at which a test holds: so the numbers of rounds that a report of one thread goes by are
/// determined.
pub fn a_first_number_is_one()
    ensures one { (test : ℕ → Bool) (m n : ℕ) → FirstAt test m → FirstAt test n → m ≡ n }
{}

/// A script has one report on one thread: what `Serial` says of a report determines it, and the world in which the
/// rounds end. So does what a plan must be.
pub fn there_is_one_report_of_rounds()
    ensures report { (statements : List Statement) (r s : Report) → Serial statements r → Serial statements s → r ≡ s }
    ensures world { (statements : List Statement) (r s : Report) (a : Serial statements r) (b : Serial statements s)
        → a.world ≡ b.world }
    ensures plan { (old new : Graph) (moves : List Move) (p q : Plan) → IsPlanOf old new moves p
        → IsPlanOf old new moves q → p ≡ q }
{}

/// A configuration has one graph: so the one that a commit must leave, and the one that is shown, is determined.
pub fn a_configuration_has_one_graph()
    ensures one { (c : Configuration) (g h : Graph) → IsGraphOf c g → IsGraphOf c h → g ≡ h }
{}

/// At a `show` the graph is the described one of the last commit before it: between the two nothing is made, linked,
/// unlinked or removed. So it is behind the last commit.
pub fn a_show_is_of_the_last_commit()
    ensures shown { (statements : List Statement) (report : Report) (m : List Member)
        → Follows statements report.history
        → IsLawfulBy statements report m → (x y after : List Member) (g : Graph)
        → m ≡ x ++ of_history Commit ∷ (y ++ of_history (Show g) ∷ after) → list_any is_commit (lines y) ≡ false
        → described statements (lines x) ≡ Some g }
    ensures unshaped { (statements : List Statement) (front later : List HistoryLine)
        → Follows statements (front ++ later)
        → list_any is_commit later ≡ false → list_any is_shaping (filter_map event_of later) ≡ false }
{}

/// Each `close` before the lines of the stop is one of those with which a change begins: of the change whose line
/// stands before them, and whose plan freezes the port's node. So a node that no plan freezes isn't closed before the
/// stop.
pub fn only_frozen_nodes_are_closed_before_the_stop()
    ensures frozen { (statements : List Statement) (history : List HistoryLine) (follows : Follows statements history)
        (front back : List HistoryLine) (p : ℕ) → lines_of follows.parts ≡ front ++ Close p ∷ back
        → IsClosedFor follows.parts front p }
{}

/// A node that was made from another begins with what that one kept at last, and with its own argument, whatever
/// chain of nodes the state came through; and no chain has more nodes than are allowed for.
pub fn a_moved_state_is_the_last_one()
    ensures handed { (es : List Event) → IsRun es → (n k : ℕ) (m : Slot) → slot (state_after es).config n ≡ Some m
        → m.from ≡ Some k
        → fold_of_node es n ≡ option_and_then (fold_at m (done_by n es))
        (option_map (λ (s : NodeState). s.kept) (fold_of_node es k)) }
    ensures ends { (es : List Event) → IsRun es → (n bound : ℕ) → n < bound
        → fold_within es bound n ≡ fold_of_node es n }
{}

/// What a plan must be, that its moves may be made, and what the graph of a configuration is are found by tests that
/// can be evaluated.
pub fn plans_and_graphs_are_found_by_tests()
    ensures plan { (old new : Graph) (asked : List Move) → can_be_planned old new asked ≡ true
        → IsPlanOf old new asked (planned old new asked) }
    ensures moves { (old new : Graph) (asked : List Move) → can_be_planned old new asked ≡ true
        → MayMoveAll old new asked (length asked) }
    ensures graph { (c : Configuration) (g : Graph) → is_graph_of c g ≡ true → IsGraphOf c g }
{}

/// A history follows a script, and a report is lawful, on threads or in rounds, where tests find it so: each can be
/// evaluated.
pub fn lawful_reports_are_found_by_tests()
    ensures follows { (statements : List Statement) (ts : List Told) (seen : List Seen)
        → can_follow statements ts seen ≡ true
        → Follows statements (history_told statements ts seen) }
    ensures lawful { (statements : List Statement) (ts : List Told) (seen : List Seen) (m : List Member)
        (report : Report)
        → IsFound statements ts seen m report → Lawful statements report }
    ensures numbers { (statements : List Statement) (ts : List Told) (seen : List Seen) (m : List Member)
        (report : Report)
        → IsFound statements ts seen m report → passes_each is_ended_at [] m ≡ true
        → passes_each is_few_at [] m ≡ true
        → (lawful : Lawful statements report) × NumbersInRounds lawful.members }
    ensures on_threads { (statements : List Statement) (ts : List Told) (seen : List Seen) (m : List Member)
        (report : Report)
        → IsFound statements ts seen m report → passes_each is_run_at [] m ≡ true
        → passes_each is_finish_at [] m ≡ true → LawfulOnThreads statements report }
    ensures in_rounds { (statements : List Statement) (ts : List Told) (seen : List Seen) (m : List Member)
        (report : Report) (serial : Serial statements report)
        → IsFound statements ts seen m report → passes_each is_ended_at [] m ≡ true
        → passes_each is_few_at [] m ≡ true → events m ≡ serial.world.events
        → LawfulInRounds statements report serial }
{}

/// What a report on threads must tell of numbers is no less than what is asked of them in rounds beside `Serial`. So a
/// lawful report of either kind is consistent.
pub fn lawful_reports_are_consistent()
    ensures numbers { (m : List Member) → NumbersOnThreads m → NumbersInRounds m }
    ensures on_threads { (statements : List Statement) (report : Report) → LawfulOnThreads statements report
        → Consistent statements report }
    ensures in_rounds { (statements : List Statement) (report : Report) (serial : Serial statements report)
        → LawfulInRounds statements report serial → Consistent statements report }
{}

/// What is told in a report of rounds, the numbers of `run` and `finish` lines among it, stands at the same place in the
/// report that the rounds give.
pub fn rounds_have_each_line()
    ensures same { (statements : List Statement) (rounds report : Report) → Serial statements rounds
        → Serial statements report → (m before after : List Member) (l : HistoryLine) → Merge m report
        → m ≡ before ++ of_history l ∷ after
        → slice_get (without_roots rounds.history) (length (lines before)) ≡ Some l }
{}

/// A root that is told as open stood open from the last close of its port on: no root begins at a closed port. And one
/// that stood so is what is asked for.
pub fn open_roots_stood_since_the_close()
    ensures since { (m : List Member) (before : List HistoryLine) (p k : ℕ) → All IsOfItsKind m → IsRun (events m)
        → StoodOpen m before p k → StoodSinceClose m before p k }
    ensures enough { (m : List Member) (before : List HistoryLine) (p k : ℕ) → IsRun (events m)
        → StoodSinceClose m before p k → StoodOpen m before p k }
{}
