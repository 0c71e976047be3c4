//! How far a port's transaction has come.

ghost use Rattle.std.specs.Prelude.{◌≡◌, ◌<◌, ◌^◌};
ghost use Rattle.quiesce_word.specs.Phases.{is_idle, is_asked, is_answered, is_in_more};
ghost use Rattle.quiesce_word.specs.Words.{phase_bits, phase_of};

/// How far a port's transaction has come.
#[derive(Clone, Copy)]
pub enum Phase {
    /// There is none.
    Idle,
    /// A message was sent to the target.
    Asked,
    /// The last reply is there.
    Answered,
    /// An intermediate reply is there.
    More,
}

impl Phase {
    /// Whether the port has no transaction.
    pub fn is_idle(self) -> bool
        ensures { result ≡ is_idle self }
    {
        matches!(self, Phase::Idle)
    }

    /// Whether the last message went to the target.
    pub fn is_asked(self) -> bool
        ensures { result ≡ is_asked self }
    {
        matches!(self, Phase::Asked)
    }

    /// Whether the last reply is there.
    pub fn is_answered(self) -> bool
        ensures { result ≡ is_answered self }
    {
        matches!(self, Phase::Answered)
    }

    /// Whether an intermediate reply is there.
    pub fn is_in_more(self) -> bool
        ensures { result ≡ is_in_more self }
    {
        matches!(self, Phase::More)
    }

    /// The number that stands for the phase in a word.
    pub fn number(self) -> u64
        ensures number { result ≡ phase_bits self }
        ensures fits { result < 2 ^ 2 }
    {
        match self {
            Phase::Idle => 0,
            Phase::Asked => 1,
            Phase::Answered => 2,
            Phase::More => 3,
        }
    }

    /// The phase for which a number stands; `More` for any above 2.
    pub fn of(number: u64) -> Phase
        ensures { result ≡ phase_of number }
    {
        match number {
            0 => Phase::Idle,
            1 => Phase::Asked,
            2 => Phase::Answered,
            _ => Phase::More,
        }
    }
}
