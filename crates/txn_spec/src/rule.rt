//! The rule that each atomic step on the gates keeps.

use crate::view::View;
use atomic_table::TableRule;

/// Between any two steps there is a trace that the words and all views show.
pub struct GateRule;

impl TableRule<(), View, ()> for GateRule {
    ghost use Rattle.std.specs.Prelude.{[]};
    ghost use Rattle.txn_spec.specs.Views.{of_change, nothing_done};
    ghost use Rattle.txn_spec.specs.Traces.{Holds};

    ghost holds = { λ _. Holds };

    ghost first = { λ _. of_change [] nothing_done };
}
