//! A law of the files, as the contract of a function that does nothing.

ghost use Rattle.std.specs.Prelude.{◌≡◌};
ghost use Rattle.command_words.specs.declared.big_texts.TheConstants.{MAX_LANES};

/// How many lanes a system has at most.
pub fn limit_of_lanes()
    ensures { MAX_LANES ≡ 40 }
{}
