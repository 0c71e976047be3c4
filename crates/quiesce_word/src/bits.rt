//! Bits of a number, and numbers that are one more than what they stand for, so that 0 stands for nothing.

ghost use Rattle.std.specs.Prelude.{◌≡◌, ◌+◌, ◌-◌, ◌^◌, ◌<◌, ◌≤◌, option_map};
ghost use Rattle.quiesce_word.specs.Packs.{bits as bits_of, less_one as number_before};

/// The bits from `low` to `high`, both counted.
pub fn bits(number: u64, low: u32, high: u32) -> u64
    requires ordered { low ≤ high }
    requires few { high < low + 63 }
    requires within { high < 64 }
    ensures value { result ≡ bits_of low high number }
    ensures fits { result < 2 ^ (high + 1 - low) }
{
    (number >> low) % (1 << (high + 1 - low))
}

/// The number before, where there is one.
pub fn less_one(number: u64) -> Option<u64>
    ensures { result ≡ number_before number }
{
    if number == 0 { None } else { Some(number - 1) }
}
