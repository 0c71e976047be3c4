//! What philosophers have eaten.

ghost use Rattle.std.specs.Prelude.{◌≡◌, ℕ, Contains, List, [], ◌∷◌, None, Some};
ghost use Rattle.std.specs.List.{count_by};
ghost use Rattle.config_graph.specs.declared.kind.Kind.TheVariants.{Philosopher};
ghost use Rattle.quiesce_core.specs.Runs.{state_after};
ghost use Rattle.quiesce_core.specs.State.{slot};
ghost use Rattle.quiesce_core.specs.declared.state.Slot.{Slot};
ghost use Rattle.report_types.specs.declared.report.Last.TheVariants as last;
ghost use Rattle.report_types.specs.declared.report.NodeLog.{NodeLog};
ghost use Rattle.report_types.specs.declared.report.Report.{Report};
ghost use Rattle.change_spec.specs.Lawful.{Lawful};
ghost use Rattle.change_spec.specs.Members.{events};
ghost use Rattle.change_spec.specs.Statements.{Statement};
ghost use Rattle.result_laws.specs.Eating.{is_meal};

/// A philosopher that took over from none has eaten as often, at the end, as a transaction of its own was answered 1: its
/// last state is the number of these in its log.
pub fn meals_are_counted()
    ensures all { (statements : List Statement) (report : Report) → (l : Lawful statements report) → (log : NodeLog) (m : Slot)
        (xs : List ℕ) → Contains report.logs log → slot (state_after (events l.members)).config log.slot ≡ Some m
        → m.node.kind ≡ Philosopher → m.from ≡ None → log.last ≡ last.State xs
        → xs ≡ count_by is_meal log.events ∷ [] }
{}
