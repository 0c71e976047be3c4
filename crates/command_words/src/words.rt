//! The words of a command line, and the commands.

ghost use Rattle.std.specs.Prelude.{◌≡◌};

use crate::keywords::Keyword;
use config_graph::List;
use std::marker::Model;

/// The most worker threads that words may ask for.
pub const MAX_WORKERS: u32 = 8;

/// The worker threads of a run whose words say nothing of them.
pub const USUAL_WORKERS: u32 = 4;

/// The most observers that words may ask for.
pub const MAX_OBSERVERS: u32 = 4;

/// A word of the command line, which contracts see as its bytes.
#[derive(Drop)]
pub struct Word<'a> {
    text: &'a str,
}

impl<'a> Model for Word<'a> {
    ghost use Rattle.std.specs.Prelude.{List, ℕ};

    ghost Value = { List ℕ };

    ghost view = { λ word. word.text.now };
}

impl<'a> Word<'a> {
    pub fn of(text: &'a str) -> Word<'a>
        ensures { result ≡ text.now }
    {
        Word { text }
    }

    pub fn as_str(&self) -> &str
        ensures { result.now ≡ self.now }
    {
        self.text
    }
}

/// A component, and its arguments.
#[derive(Drop)]
pub struct TopCall<'a> {
    pub top: Word<'a>,
    pub args: List<i32>,
}

/// A change from one component to another: of the same description, or each of its own.
#[derive(Drop)]
pub struct Change<'a> {
    pub file: Word<'a>,
    pub call: TopCall<'a>,
    /// The file of the second component, where one is named.
    pub other: Option<Word<'a>>,
    pub target: TopCall<'a>,
}

/// How a change is made.
#[derive(Drop)]
pub enum Cut {
    /// By one plan, which is told.
    Whole,
    /// In parts, which are told.
    InParts,
    /// In parts, and carried out in a run: the first component is started, and this many transactions end before the
    /// parts. Each of these waits for so many rounds at most.
    Rolled { run: u32, within: u32 },
}

/// What words may ask for.
#[derive(Drop)]
pub enum Command<'a> {
    /// The forms of all commands, or those of one.
    Help {
        of: Option<Keyword>,
    },
    Version,
    /// The graph of a component of a file.
    Flat {
        file: Word<'a>,
        call: TopCall<'a>,
    },
    /// A change, made as it is cut: by the words `plan`, `parts` and `roll`.
    Change {
        cut: Cut,
        change: Change<'a>,
    },
    /// The events of a file, over a component of a description.
    Replay {
        file: Word<'a>,
        events: Word<'a>,
    },
    /// The report of a file, in the version that is written today.
    Upgrade {
        file: Word<'a>,
    },
    /// The report of a run of the script of a file.
    Step {
        script: Word<'a>,
    },
    /// The same on worker threads, from 1 to [`MAX_WORKERS`], beside observers, up to [`MAX_OBSERVERS`].
    Live {
        script: Word<'a>,
        workers: u32,
        observers: u32,
    },
    /// Whether a report is consistent with the script of a file.
    Check {
        script: Word<'a>,
        report: Word<'a>,
    },
    /// A summary of the run of a system of so many lanes, from 1 to [`MAX_LANES`], which the program makes itself.
    Big {
        lanes: u32,
    },
}
