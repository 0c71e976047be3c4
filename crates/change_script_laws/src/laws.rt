//! Laws of the lines of event files, each as the contract of a function that does nothing.

ghost use Rattle.std.specs.Prelude.{All, ◌≡◌, ◌≢◌, ◌↔◌, ◌+◌, ℕ, ℤ, true, false, List, [], ◌∷◌, ◌++◌, Ok, Err};
ghost use Rattle.std.specs.List.{AllByRecursion};
ghost use Rattle.config_graph.specs.Graph.{Graph};
ghost use Rattle.darwin_lexer.specs.declared.token.Token.{Token};
ghost use Rattle.darwin_lexer.specs.Tokens.{IsTokens};
ghost use Rattle.darwin_parser.specs.Grammar.{IsUnit};
ghost use Rattle.darwin_parser.specs.Tree.{Name, Tree};
ghost use Rattle.elaborator.specs.Elaboration.{ElaboratesTo, HasNoFault};
ghost use Rattle.change_script.specs.declared.error.LineFault.TheVariants.{Bad, Big};
ghost use Rattle.change_script.specs.declared.event_files.EventFile.{EventFile};
ghost use Rattle.change_script.specs.declared.event_lines.EventLine.{EventLine};
ghost use Rattle.change_script.specs.declared.event_lines.EventLine.TheVariants as statements;
ghost use Rattle.change_script.specs.EventFiles.{IsEventFile};
ghost use Rattle.change_script.specs.EventLines.{meaning};
ghost use Rattle.change_script.specs.Lines.{is_margin, statements as lines_of, statements_from};
ghost use Rattle.change_script.specs.StatementTexts.{IsInteger, IsWrittenName, IsWrittenPath};
ghost use Rattle.change_script.specs.Tokens.{tokens};
ghost use Rattle.change_script_laws.specs.EventForms.{Form, HasEventForm, IsTooBigEvent, MeansEvent};
ghost use Rattle.change_script_laws.specs.FileTexts.{CanBeFile, are_margins, file_text, is_one_line, said, start_text};

use change_script::{
    a_written_line_means_its_event, a_written_statement_means_itself,
    names_are_those_of_the_language, words_are_longest,
};
use darwin_lexer::fronts_as_spelled;
use darwin_walk::what_is_reached;
use elaborator::paths_are_words;

/// A line has one form at most, and what it means is said by its form alone: a line without one is bad, and one with a
/// number outside its limit is too big.
pub fn only_forms_mean()
    ensures one_form { (line : List ℕ) (form other : Form) → HasEventForm line form → HasEventForm line other
        → form ≡ other }
    ensures means { (line : List ℕ) (statement : EventLine)
        → (meaning (tokens line) ≡ Ok statement) ↔ MeansEvent line statement }
    ensures too_big { (line : List ℕ) → (meaning (tokens line) ≡ Err Big) ↔ IsTooBigEvent line }
    ensures bad { (line : List ℕ) → (meaning (tokens line) ≡ Err Bad) ↔ ((form : Form) → HasEventForm line form → ⊥) }
{}

/// The line that writes a start means this start.
pub fn a_written_start_means_its_start()
    ensures { (name : List ℕ) (args : List ℤ) → IsWrittenName name → AllByRecursion IsInteger args
        → meaning (tokens (start_text name args)) ≡ Ok (statements.Start name args) }
{
    words_are_longest();
    a_written_statement_means_itself();
}

/// The text that writes an event file is one of this file.
pub fn a_written_file_is_read()
    ensures { (file : EventFile) → CanBeFile file → IsEventFile (file_text file) file }
{
    a_written_start_means_its_start();
    a_written_line_means_its_event();
    names_are_those_of_the_language();
    fronts_as_spelled();
}

/// What the lines of a text say, one by one: a line counts, whatever it says, from 1 on; the last needs no line feed.
/// An empty line and a comment say nothing, and what is passed over at both ends of a line, also a carriage return
/// before the line feed, means nothing. What is left is the line itself.
pub fn lines_say_what_is_between_their_margins()
    ensures from_one { (text : List ℕ) → lines_of text ≡ statements_from 1 text }
    ensures line { (number : ℕ) (line rest : List ℕ) → is_one_line line ≡ true
        → statements_from number (line ++ (10 ∷ rest)) ≡ said number line ++ statements_from (number + 1) rest }
    ensures last { (number : ℕ) (line : List ℕ) → is_one_line line ≡ true
        → statements_from number line ≡ said number line }
    ensures margins { (number : ℕ) (left line right : List ℕ) → are_margins left ≡ true → are_margins right ≡ true
        → said number (left ++ (line ++ right)) ≡ said number line }
    ensures empty { (number : ℕ) (blanks : List ℕ) → are_margins blanks ≡ true → said number blanks ≡ [] }
    ensures comment { (number : ℕ) (left rest : List ℕ) → are_margins left ≡ true
        → said number (left ++ (35 ∷ rest)) ≡ [] }
    ensures itself { (number first last : ℕ) (more front : List ℕ) → first ∷ more ≡ front ++ (last ∷ [])
        → is_margin first ≡ false → is_margin last ≡ false → first ≢ 35
        → said number (first ∷ more) ≡ record { number = number; bytes = first ∷ more } ∷ [] }
{}

/// The path of each node of a description's graph is a path as scripts and event files have it, in one word, where the
/// arguments are integers of the language.
pub fn paths_of_nodes_are_paths()
    ensures { (text : List ℕ) (tokens : List Token) (tree : Tree) (name : Name) (arguments : List ℤ) (g : Graph)
        → IsTokens text tokens → IsUnit text tokens tree → AllByRecursion IsInteger arguments
        → HasNoFault tree name arguments → ElaboratesTo tree name arguments g
        → All (λ n. IsWrittenPath n.path) g.nodes }
{
    fronts_as_spelled();
    names_are_those_of_the_language();
    what_is_reached();
    paths_are_words();
}
