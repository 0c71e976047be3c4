//! Which statements a script has.

ghost use Rattle.std.specs.Prelude.{◌≡◌, ℕ, ℤ, List, Option, Some};
ghost use Rattle.config_graph.specs.Graph.{Graph};
ghost use Rattle.change_script.specs.ScriptFiles.{IsScript};
ghost use Rattle.report_types.specs.declared.script.Script.{Script};
ghost use Rattle.change_spec.specs.Asked.{CanDoAll, CanStart, after_start, statements_of};
ghost use Rattle.change_spec.specs.Scripts.{StatementsOf};
ghost use Rattle.change_spec.specs.Statements.{Statement};
ghost use Rattle.change_spec.specs.declared.steps.Start.{Start};
ghost use Rattle.change_spec.specs.declared.steps.Step.{Step};
ghost use Rattle.change_round_laws.specs.SoundStatements.{AreSound, IsSoundGraph, elaborates_by};

/// A script has at most one list of statements, where each description elaborates to at most one graph.
pub fn a_script_has_one_list_of_statements()
    ensures one { (elab : List ℕ → List ℕ → List ℤ → Option Graph) (script : Script) (a b : List Statement)
        → StatementsOf (elaborates_by elab) script a → StatementsOf (elaborates_by elab) script b → a ≡ b }
{}

/// Where each graph to which a description elaborates is sound, the statements of a script are sound: one start stands
/// before all, and each change may be planned from the graph that was named before it.
pub fn sound_scripts_have_sound_statements()
    ensures sound { (elab : List ℕ → List ℕ → List ℤ → Option Graph)
        → ((file name : List ℕ) (args : List ℤ) (g : Graph) → elab file name args ≡ Some g → IsSoundGraph g)
        → (text : List ℕ) (script : Script) → IsScript text script → (statements : List Statement)
        → StatementsOf (elaborates_by elab) script statements → AreSound statements }
{}

/// So are those of steps, where the system may be started and each step may be asked for.
pub fn what_may_be_asked_has_sound_statements()
    ensures sound { (start : Start) (steps : List Step) → CanStart start → CanDoAll (after_start start) steps
        → AreSound (statements_of start steps) }
{}
