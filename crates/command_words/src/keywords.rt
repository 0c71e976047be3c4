//! The commands that take words, with the words that name them, their forms, and what they do.

ghost use Rattle.std.specs.Prelude.{◌≡◌};
ghost use Rattle.command_words.specs.CommandLine.{IsFound};
ghost use Rattle.command_words.specs.HelpTexts.{deed_of, form_of};
ghost use Rattle.command_words.specs.Keywords.{word_of};

/// A command that takes words behind its own.
#[derive(Clone, Copy)]
pub enum Keyword {
    Flat,
    Plan,
    Parts,
    Roll,
    Apply,
    Replay,
    Step,
    Live,
    Check,
    Big,
    Upgrade,
}

/// All of them, in the order of the help.
pub const KEYWORDS: [Keyword; 11] = [
    Keyword::Flat,
    Keyword::Plan,
    Keyword::Parts,
    Keyword::Roll,
    Keyword::Apply,
    Keyword::Replay,
    Keyword::Step,
    Keyword::Live,
    Keyword::Check,
    Keyword::Big,
    Keyword::Upgrade,
];

/// The command that a word names.
pub fn keyword_of(word: &str) -> Option<Keyword>
    ensures { IsFound (λ keyword. word.now ≡ word_of keyword) result }
{
    match word {
        "flat" => Some(Keyword::Flat),
        "plan" => Some(Keyword::Plan),
        "parts" => Some(Keyword::Parts),
        "roll" => Some(Keyword::Roll),
        "apply" => Some(Keyword::Apply),
        "replay" => Some(Keyword::Replay),
        "step" => Some(Keyword::Step),
        "live" => Some(Keyword::Live),
        "check" => Some(Keyword::Check),
        "big" => Some(Keyword::Big),
        "upgrade" => Some(Keyword::Upgrade),
        _ => None,
    }
}

impl Keyword {
    /// The word that names it.
    pub fn word(self) -> &'static str
        ensures { result.now ≡ word_of self }
    {
        match self {
            Keyword::Flat => "flat",
            Keyword::Plan => "plan",
            Keyword::Parts => "parts",
            Keyword::Roll => "roll",
            Keyword::Apply => "apply",
            Keyword::Replay => "replay",
            Keyword::Step => "step",
            Keyword::Live => "live",
            Keyword::Check => "check",
            Keyword::Big => "big",
            Keyword::Upgrade => "upgrade",
        }
    }

    /// Its form, a line.
    pub fn form(self) -> &'static str
        ensures { result.now ≡ form_of self }
    {
        match self {
            Keyword::Flat => "darwin_run flat FILE NAME INT*\n",
            Keyword::Plan => "darwin_run plan FILE NAME INT* -- [FILE] NAME INT*\n",
            Keyword::Parts => "darwin_run parts FILE NAME INT* -- [FILE] NAME INT*\n",
            Keyword::Roll => "darwin_run roll FILE NUM NUM NAME INT* -- [FILE] NAME INT*\n",
            Keyword::Apply => "darwin_run apply N FILE NAME INT* -- [FILE] NAME INT*\n",
            Keyword::Replay => "darwin_run replay FILE EVENTS\n",
            Keyword::Step => "darwin_run step SCRIPT\n",
            Keyword::Live => "darwin_run live SCRIPT [--workers W [--watch N]]\n",
            Keyword::Check => "darwin_run check SCRIPT REPORT\n",
            Keyword::Big => "darwin_run big N\n",
            Keyword::Upgrade => "darwin_run upgrade FILE\n",
        }
    }

    /// What it does, a line.
    pub fn deed(self) -> &'static str
        ensures { result.now ≡ deed_of self }
    {
        match self {
            Keyword::Flat => "    write the graph of a component\n",
            Keyword::Plan => "    write the change from the first to the second\n",
            Keyword::Parts => "    write the parts into which that change is cut\n",
            Keyword::Roll => "    start the first, run it, and carry those parts out\n",
            Keyword::Apply => {
                "    carry that change out on a system elsewhere, by lines of standard input, within N rounds\n"
            }
            Keyword::Replay => "    apply events to the system that they start\n",
            Keyword::Step => "    run a script on one thread, write its report\n",
            Keyword::Live => {
                "    run a script on W worker threads (1 to 8, or 4), and write lines of N observers behind it (1 to 4)\n"
            }
            Keyword::Check => "    say whether a report is consistent with the script\n",
            Keyword::Big => "    run and change a system of N lanes (1 to 40)\n",
            Keyword::Upgrade => "    write a report in version 2\n",
        }
    }
}
