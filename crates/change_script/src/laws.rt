//! Laws of the definitions that the contract of `parse_events` cites.

ghost use Rattle.std.specs.Prelude.{◌≡◌, ◌⊎◌, ◌↔◌, ℕ, true, false, List, ◌∷◌, ◌++◌, Ok, IsTrue, codes};
ghost use Rattle.darwin_lexer.specs.Naming.{IsName};
ghost use Rattle.quiesce_core.specs.declared.event.Event.{Event};
ghost use Rattle.change_script.specs.declared.event_lines.EventLine.TheVariants as statements;
ghost use Rattle.change_script.specs.declared.event_files.EventFile.{EventFile};
ghost use Rattle.change_script.specs.declared.error.ScriptError.{ScriptError};
ghost use Rattle.change_script.specs.EventFiles.{IsEventFile, IsFirstFault};
ghost use Rattle.change_script.specs.Paths.{is_name};
ghost use Rattle.change_script.specs.EventLines.{meaning};
ghost use Rattle.report_writing.specs.Writing.{written};
ghost use Rattle.change_script.specs.Written.{CanBeWritten};
ghost use Rattle.change_script.specs.Tokens.{arrow, begins_word, is_blank, is_sign, is_word, sign, tokens, word};

/// A text is one event file, or has one first fault, and never both.
pub fn one_file_or_one_fault()
    ensures one_file { (text : List ℕ) (file other : EventFile) → IsEventFile text file → IsEventFile text other
        → file ≡ other }
    ensures one_fault { (text : List ℕ) (fault other : ScriptError) → IsFirstFault text fault
        → IsFirstFault text other → fault ≡ other }
    ensures never_both { (text : List ℕ) (file : EventFile) (fault : ScriptError) → IsEventFile text file
        → IsFirstFault text fault → ⊥ }
    ensures always_one { (text : List ℕ) → ((file : EventFile) × IsEventFile text file)
        ⊎ ((fault : ScriptError) × IsFirstFault text fault) }
    ensures no_want_of_memory { (text : List ℕ) → IsFirstFault text ScriptError.NoMemory → ⊥ }
{}

/// What the tokens of a line are, from its front on: a blank is none, a sign is one, and so are all the bytes of a
/// word, which go up to the next blank or sign.
pub fn words_are_longest()
    ensures blank { (byte : ℕ) (rest : List ℕ) → is_blank byte ≡ true → tokens (byte ∷ rest) ≡ tokens rest }
    ensures sign { (byte : ℕ) (rest : List ℕ) → is_sign byte ≡ true → tokens (byte ∷ rest) ≡ sign byte ∷ tokens rest }
    ensures arrow { (rest : List ℕ) → tokens (codes "->" ++ rest) ≡ arrow ∷ tokens rest }
    ensures word { (first : ℕ) (more rest : List ℕ) → is_word (first ∷ more) ≡ true → begins_word rest ≡ false
        → tokens ((first ∷ more) ++ rest) ≡ word (first ∷ more) ∷ tokens rest }
{}

/// A name in a script or an event file is a name of the language.
pub fn names_are_those_of_the_language()
    ensures { (bytes : List ℕ) → IsTrue (is_name bytes) ↔ IsName bytes }
{}

/// The line that writes an event means this event.
pub fn a_written_line_means_its_event()
    ensures { (event : Event) → CanBeWritten event → meaning (tokens (written event)) ≡ Ok (statements.Event event) }
{}
