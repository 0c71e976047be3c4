//! The first words of the lines of a history.

ghost use Rattle.std.specs.Prelude.{◌≡◌};
ghost use Rattle.report_lines.specs.Readings.{bare_bytes, bare_line, two_numbers_bytes, two_numbers_line, one_number_bytes, one_number_line, history_verb_bytes, history_verb_named};

use report_types::HistoryLine;

/// A line of one word.
#[derive(Clone, Copy)]
pub enum Bare {
    Commit,
    Abandon,
    Skipped,
    Stop,
}

/// A line with one number.
#[derive(Clone, Copy)]
pub enum OneNumber {
    Unlink,
    Remove,
    Close,
    Reopen,
    Pending,
}

/// A line with two numbers below 2^32.
#[derive(Clone, Copy)]
pub enum TwoNumbers {
    Drained,
    Root,
    Finish,
}

/// What a line of a history begins with.
#[derive(Clone, Copy)]
pub enum HistoryVerb {
    Start,
    Change,
    Make,
    Link,
    Run,
    Bare(Bare),
    OneNumber(OneNumber),
    TwoNumbers(TwoNumbers),
}

const HISTORY_VERBS: [HistoryVerb; 17] = [
    HistoryVerb::Start,
    HistoryVerb::Change,
    HistoryVerb::Make,
    HistoryVerb::Link,
    HistoryVerb::Run,
    HistoryVerb::Bare(Bare::Commit),
    HistoryVerb::Bare(Bare::Abandon),
    HistoryVerb::Bare(Bare::Skipped),
    HistoryVerb::Bare(Bare::Stop),
    HistoryVerb::OneNumber(OneNumber::Unlink),
    HistoryVerb::OneNumber(OneNumber::Remove),
    HistoryVerb::OneNumber(OneNumber::Close),
    HistoryVerb::OneNumber(OneNumber::Reopen),
    HistoryVerb::OneNumber(OneNumber::Pending),
    HistoryVerb::TwoNumbers(TwoNumbers::Drained),
    HistoryVerb::TwoNumbers(TwoNumbers::Root),
    HistoryVerb::TwoNumbers(TwoNumbers::Finish),
];

/// The verb of a line that begins with this word.
pub fn history_verb_named(name: &[u8]) -> Option<HistoryVerb>
    ensures { result ≡ history_verb_named name.now }
{
    HISTORY_VERBS
        .iter()
        .copied()
        .find(|verb| verb.bytes() == name)
}

impl HistoryVerb {
    fn bytes(self) -> &'static [u8]
        ensures { result.now ≡ history_verb_bytes self }
    {
        match self {
            HistoryVerb::Start => b"start",
            HistoryVerb::Change => b"change",
            HistoryVerb::Make => b"make",
            HistoryVerb::Link => b"link",
            HistoryVerb::Run => b"run",
            HistoryVerb::Bare(bare) => bare.bytes(),
            HistoryVerb::OneNumber(single) => single.bytes(),
            HistoryVerb::TwoNumbers(double) => double.bytes(),
        }
    }
}

impl Bare {
    fn bytes(self) -> &'static [u8]
        ensures { result.now ≡ bare_bytes self }
    {
        match self {
            Bare::Commit => b"commit",
            Bare::Abandon => b"abandon",
            Bare::Skipped => b"skipped",
            Bare::Stop => b"stop",
        }
    }

    pub fn line(self) -> HistoryLine
        ensures { result ≡ bare_line self }
    {
        match self {
            Bare::Commit => HistoryLine::Commit,
            Bare::Abandon => HistoryLine::Abandon,
            Bare::Skipped => HistoryLine::Skipped,
            Bare::Stop => HistoryLine::Stop,
        }
    }
}

impl OneNumber {
    fn bytes(self) -> &'static [u8]
        ensures { result.now ≡ one_number_bytes self }
    {
        match self {
            OneNumber::Unlink => b"unlink",
            OneNumber::Remove => b"remove",
            OneNumber::Close => b"close",
            OneNumber::Reopen => b"reopen",
            OneNumber::Pending => b"pending",
        }
    }

    pub fn line(self, number: u32) -> HistoryLine
        ensures { result ≡ one_number_line self number }
    {
        match self {
            OneNumber::Unlink => HistoryLine::Unlink { port: number },
            OneNumber::Remove => HistoryLine::Remove { node: number },
            OneNumber::Close => HistoryLine::Close { port: number },
            OneNumber::Reopen => HistoryLine::Reopen { port: number },
            OneNumber::Pending => HistoryLine::Pending { rounds: number },
        }
    }
}

impl TwoNumbers {
    fn bytes(self) -> &'static [u8]
        ensures { result.now ≡ two_numbers_bytes self }
    {
        match self {
            TwoNumbers::Drained => b"drained",
            TwoNumbers::Root => b"open",
            TwoNumbers::Finish => b"finish",
        }
    }

    pub fn line(self, first: u32, second: u32) -> HistoryLine
        ensures { result ≡ two_numbers_line self first second }
    {
        match self {
            TwoNumbers::Drained => HistoryLine::Drained {
                port: first,
                serial: second,
            },
            TwoNumbers::Root => HistoryLine::Root {
                port: first,
                serial: second,
            },
            TwoNumbers::Finish => HistoryLine::Finish {
                n: first,
                rounds: second,
            },
        }
    }
}
