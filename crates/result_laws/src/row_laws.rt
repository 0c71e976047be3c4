//! What rows compute in each lawful report.

ghost use Rattle.std.specs.Prelude.{◌≡◌, ◌≢◌, ℕ, All, List, [], ◌∷◌, ◌++◌};
ghost use Rattle.config_graph.specs.declared.kind.Kind.TheVariants.{Source, Sink};
ghost use Rattle.report_types.specs.declared.report.NodeLog.{NodeLog};
ghost use Rattle.report_types.specs.declared.report.Report.{Report};
ghost use Rattle.change_spec.specs.Lawful.{Lawful};
ghost use Rattle.change_spec.specs.Members.{Member, by_node, state_at};
ghost use Rattle.change_spec.specs.Statements.{Statement};
ghost use Rattle.quiesce_core.specs.declared.event.Event.TheVariants.{Begin, End};
ghost use Rattle.change_round_laws.specs.SoundStatements.{AreSound};
ghost use Rattle.result_laws.specs.Describing.{Describes};
ghost use Rattle.result_laws.specs.Items.{HasItems, IsLogOfLive, IsOfSource};
ghost use Rattle.result_laws.specs.Keeping.{AreRows};
ghost use Rattle.result_laws.specs.Rows.{IsAlone, IsRow, through};
ghost use Rattle.result_laws.specs.Worked.{members, members_amidst, row_of_none, row_of_one, row_of_two, row_with_teller, sink_log, source_log, with_one_aside};
ghost use Rattle.result_laws.specs.WorkedBanks.{bank_beside_row};

use change_plan_laws::{commits_can_not_fail, commits_leave_the_new_graph, each_plan_may_commit};
use change_spec::{
    a_configuration_has_one_graph, a_moved_state_is_the_last_one, nothing_is_open_at_the_end,
    plans_and_graphs_are_found_by_tests,
};

/// Where each description is a row system, whatever stands beside, and each change keeps or moves the source and the sink,
/// whatever it does beside, the last sink has as many items as the last source says that it sent. Each is what became of its
/// value on the way that stood when its transaction began, also in the midst of a commit beside. There are logs of a live
/// source and of a live sink.
pub fn rows_have_their_items()
    ensures items { (statements : List Statement) (report : Report) → AreSound statements
        → AreRows statements → (l : Lawful statements report) → (source sink : NodeLog)
        → IsLogOfLive l.members report Source source → IsLogOfLive l.members report Sink sink
        → HasItems l.members source sink }
    ensures ends { (statements : List Statement) (report : Report) → AreSound statements
        → AreRows statements → (l : Lawful statements report) → (source : NodeLog) × (sink : NodeLog)
        × IsLogOfLive l.members report Source source × IsLogOfLive l.members report Sink sink }
{
    each_plan_may_commit();
    commits_can_not_fail();
    commits_leave_the_new_graph();
    nothing_is_open_at_the_end();
    a_moved_state_is_the_last_one();
}

/// In a row no transaction of a source is answered 0: its maps are linked while it is under way, and no port is spent,
/// since fewer transactions began there than the source counts.
pub fn sources_are_never_answered_0()
    ensures never { (statements : List Statement) (report : Report) → AreSound statements
        → AreRows statements → (l : Lawful statements report)
        → (before between after : List Member) (port serial value answer : ℕ)
        → l.members ≡ before ++ by_node (Begin port serial value) ∷ (between ++ by_node (End port serial answer) ∷ after)
        → IsOfSource (state_at before).config port
        → answer ≢ 0 }
{
    each_plan_may_commit();
    commits_can_not_fail();
    commits_leave_the_new_graph();
    nothing_is_open_at_the_end();
    a_moved_state_is_the_last_one();
}

/// Where each description has sources, maps and sinks alone, no other node begins a transaction. So what the laws above say
/// of a source's Begins holds of all there.
pub fn sources_alone_begin()
    ensures begins { (statements : List Statement) (report : Report) → All (Describes IsAlone) statements
        → (l : Lawful statements report) → (before after : List Member) (port serial value : ℕ)
        → l.members ≡ before ++ by_node (Begin port serial value) ∷ after → IsOfSource (state_at before).config port }
{
    a_moved_state_is_the_last_one();
}

/// The definitions on small systems: two maps in a row, and a row beside a bank. A graph in which a map stands aside is no
/// row, nor is one in which a teller leads to the sink. A value on its way; and a report whose one item is 11,
/// also where the value sets out in the midst of a commit beside: one that went through another map than the one that stood
/// is wrong.
pub fn rows_are_told_from_others()
    ensures rows { IsRow row_of_none × IsRow row_of_one × ((row : IsRow row_of_two) × (row.maps ≡ 3 ∷ 0 ∷ [])) }
    ensures passed { through row_of_two (3 ∷ 0 ∷ []) 1 ∷ through row_of_two (3 ∷ 0 ∷ []) 2
        ∷ through row_of_none [] 7 ∷ [] ≡ 10 ∷ 11 ∷ 7 ∷ [] }
    ensures beside { (row : IsRow bank_beside_row) × (through bank_beside_row row.maps 1 ≡ 6) }
    ensures aside { IsRow with_one_aside → ⊥ }
    ensures teller { IsRow row_with_teller → ⊥ }
    ensures holds { HasItems members source_log (sink_log 11) }
    ensures amidst { HasItems members_amidst source_log (sink_log 11) }
    ensures item { (item : ℕ) → HasItems members source_log (sink_log item) → item ≡ 11 }
{
    plans_and_graphs_are_found_by_tests();
    a_configuration_has_one_graph();
}
