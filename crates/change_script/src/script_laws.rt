//! Laws of the definitions that the contract of `parse_script` cites.

ghost use Rattle.std.specs.Prelude.{◌≡◌, ◌⊎◌, ◌↔◌, ℕ, List, Ok, Err};
ghost use Rattle.change_script.specs.declared.error.LineFault.TheVariants.{Bad, Big};
ghost use Rattle.change_script.specs.declared.error.ScriptError.{ScriptError};
ghost use Rattle.report_types.specs.declared.script.Body.{Body};
ghost use Rattle.report_types.specs.declared.script.Script.{Script};
ghost use Rattle.change_script.specs.ScriptFiles.{IsScript, IsScriptFault};
ghost use Rattle.change_script.specs.ScriptForms.{HasForm};
ghost use Rattle.change_script.specs.ScriptLines.{IsTooBig, LineMeans, meaning};
ghost use Rattle.change_script.specs.ScriptWords.{Words};
ghost use Rattle.change_script.specs.StatementTexts.{CanBeStated, statement_text};

/// A line has one form at most, and what it means is said by its form alone: a line without one is bad, and one with a
/// number outside its limit is too big.
pub fn lines_mean_what_their_forms_say()
    ensures one_form { (line : List ℕ) (words others : Words) → HasForm line words → HasForm line others
        → words ≡ others }
    ensures means { (line : List ℕ) (body : Body) → (meaning line ≡ Ok body) ↔ LineMeans line body }
    ensures too_big { (line : List ℕ) → (meaning line ≡ Err Big) ↔ IsTooBig line }
    ensures bad { (line : List ℕ) → (meaning line ≡ Err Bad) ↔ ((words : Words) → HasForm line words → ⊥) }
{}

/// A text is one script, or has one first fault, and never both.
pub fn one_script_or_one_fault()
    ensures one_script { (text : List ℕ) (script other : Script) → IsScript text script → IsScript text other
        → script ≡ other }
    ensures one_fault { (text : List ℕ) (fault other : ScriptError) → IsScriptFault text fault
        → IsScriptFault text other → fault ≡ other }
    ensures never_both { (text : List ℕ) (script : Script) (fault : ScriptError) → IsScript text script
        → IsScriptFault text fault → ⊥ }
    ensures always_one { (text : List ℕ) → ((script : Script) × IsScript text script)
        ⊎ ((fault : ScriptError) × IsScriptFault text fault) }
    ensures no_want_of_memory { (text : List ℕ) → IsScriptFault text ScriptError.NoMemory → ⊥ }
{}

/// The line that writes a statement means this statement.
pub fn a_written_statement_means_itself()
    ensures { (body : Body) → CanBeStated body → meaning (statement_text body) ≡ Ok body }
{}
