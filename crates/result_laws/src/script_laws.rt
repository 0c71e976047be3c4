//! Small scripts that meet the premises of laws of results, and some that don't.

ghost use Rattle.std.specs.Prelude.{◌≡◌, [], ◌∷◌, ◌++◌, codes};
ghost use Rattle.config_graph.specs.GraphText.{graph_text};
ghost use Rattle.change_plan_laws.specs.Systems.{bank, line};
ghost use Rattle.change_spec.specs.Statements.{start};
ghost use Rattle.result_laws.specs.Banks.{AreBanks};
ghost use Rattle.result_laws.specs.Flows.{AreApart};
ghost use Rattle.result_laws.specs.Holding.{AreTables};
ghost use Rattle.result_laws.specs.Keeping.{AreRows};
ghost use Rattle.result_laws.specs.WorkedBanks.{with_teller_at_account};
ghost use Rattle.result_laws.specs.WorkedFlows.{with_philosopher_at_fork, with_teller_at_sink};
ghost use Rattle.result_laws.specs.WorkedScripts.{bank_change, beside_another_sink, beside_change, beside_run, both_change, buffered, fan_change, line_grows, row_change, sink_change, table_change};

/// The statements of line-grows, row-change and bank-change of the examples meet the premises of the laws on flows, on rows
/// and on banks, and so do changes of a fan and of a table. `flat` writes their graphs as these texts.
///
/// A row beside a bank is one, also where an account of the bank is replaced, or the row's map with it.
///
/// A teller at a sink is no flow apart, and a philosopher at a fork no table. To a row's sink no buffer leads, and it isn't
/// replaced by one that knows nothing, whatever stands beside. A teller at an account is no bank.
pub fn scripts_are_told_from_others()
    ensures flows { AreApart line_grows × AreApart row_change × AreApart bank_change × AreApart fan_change }
    ensures table { AreTables table_change }
    ensures row { AreRows row_change }
    ensures beside { AreRows beside_run }
    ensures changed_beside { AreRows beside_change }
    ensures changed_both { AreRows both_change }
    ensures bank { AreBanks bank_change }
    ensures texts { (graph_text (buffered 2)
        ≡ codes "node b buffer(2)\nport b.next t.in\nnode s source(3)\nport s.out b.in\nnode t sink()\n")
        × (graph_text (line 10)
        ≡ codes "node m map(10)\nport m.next t.in\nnode s source(3)\nport s.out m.in\nnode t sink()\n")
        × (graph_text (bank 3 100)
        ≡ codes "node a account(100)\nnode b account(0)\nnode r branch()\nport r.from a.post\nport r.to b.post\n"
        ++ codes "node w teller(3)\nport w.move r.move\n") }
    ensures no_flow { AreApart (start [] [] with_teller_at_sink ∷ []) → ⊥ }
    ensures no_table { AreTables (start [] [] with_philosopher_at_fork ∷ []) → ⊥ }
    ensures no_row { AreRows line_grows → ⊥ }
    ensures sink { AreRows sink_change → ⊥ }
    ensures sink_beside { AreRows beside_another_sink → ⊥ }
    ensures no_bank { AreBanks (start [] [] with_teller_at_account ∷ []) → ⊥ }
{}
