//! Laws of the words of a command line.

ghost use Rattle.std.specs.Prelude.{◌≡◌, ℕ, List};
ghost use Rattle.command_words.specs.CommandLine.{Asks};
ghost use Rattle.command_words.specs.SessionWords.{AskForNoSession, AsksToApply};
ghost use Rattle.command_words.specs.declared.sessions.SessionWords.{SessionWords};
ghost use Rattle.command_words.specs.declared.words.Command.{Command};

/// A law: words ask for one command at most.
pub fn words_ask_for_one_command()
    ensures { (words : List (List ℕ)) (c d : Command) → Asks words c → Asks words d → c ≡ d }
{}

/// A law: words that ask for a command ask for no session.
pub fn words_ask_for_a_command_or_a_session()
    ensures { (words : List (List ℕ)) (c : Command) → Asks words c → AskForNoSession words }
{}

/// A law: words ask for one session at most.
pub fn words_ask_for_one_session()
    ensures { (words : List (List ℕ)) (s t : SessionWords) → AsksToApply words s → AsksToApply words t → s ≡ t }
{}
