//! The numbers and integers that words write.

ghost use Rattle.std.specs.Prelude.{◌≡◌, ◌≤◌, IfSome, option_copied};
ghost use Rattle.report_lines.specs.Parts.{parts_left};
ghost use Rattle.report_lines.specs.Numbers.{is_plain, max32, one_in, plain, plain_integer, three_in, two_in};

use crate::parts::{Words, first_word, is_used_up};
use change_script::{has_only_digits, value_within};

/// The number that a word writes in decimal, without leading zeros, if it is at most `most`.
pub fn plain(word: &[u8], most: u64) -> Option<u64>
    ensures number { result ≡ plain most word.now }
    ensures most { IfSome result (λ number. number ≤ most) }
{
    if is_plain(word) {
        value_within(word, most)
    } else {
        None
    }
}

/// Whether a word is digits without leading zeros.
fn is_plain(word: &[u8]) -> bool
    ensures { result ≡ is_plain word.now }
{
    match word.first() {
        Some(first) => has_only_digits(word) && (*first != b'0' || word.len() == 1),
        None => false,
    }
}

/// The one number of a line, at most `most`.
pub fn single(words: Words<'_>, most: u64) -> Option<u64>
    ensures number { result ≡ one_in most (parts_left 32 (option_copied words.entry)) }
    ensures most { IfSome result (λ number. number ≤ most) }
{
    let (first, rest) = first_word(words)?;
    if is_used_up(rest) {
        plain(first, most)
    } else {
        None
    }
}

/// The number that a word writes, as a slot or a port.
pub fn index(word: &[u8]) -> Option<u32>
    ensures { result ≡ plain max32 word.now }
{
    Some(plain(word, u64::from(u32::MAX))? as u32)
}

/// The one number of a line, as a slot or a port.
pub fn one_index(words: Words<'_>) -> Option<u32>
    ensures { result ≡ one_in max32 (parts_left 32 (option_copied words.entry)) }
{
    Some(single(words, u64::from(u32::MAX))? as u32)
}

/// The two numbers of a line, the first of which is at most `u32::MAX` and the second at most `most`.
pub fn pair(words: Words<'_>, most: u64) -> Option<(u32, u64)>
    ensures numbers { result ≡ two_in most (parts_left 32 (option_copied words.entry)) }
    ensures most { IfSome result (λ numbers. numbers.1 ≤ most) }
{
    let (first, rest) = first_word(words)?;
    let first = index(first)?;
    Some((first, single(rest, most)?))
}

/// The three numbers of a line.
pub fn triple(words: Words<'_>) -> Option<(u32, u32, u32)>
    ensures { result ≡ three_in (parts_left 32 (option_copied words.entry)) }
{
    let (first, rest) = first_word(words)?;
    let first = index(first)?;
    let (second, third) = pair(rest, u64::from(u32::MAX))?;
    Some((first, second, third as u32))
}

/// The integer that a word writes in decimal, without leading zeros, and behind a `-` where it is below 0.
pub fn plain_integer(word: &[u8]) -> Option<i32>
    ensures { result ≡ plain_integer word.now }
{
    if word.first() == Some(&b'-') {
        let value = plain(&word[1..], 2_147_483_648)?;
        if value == 0 {
            return None;
        }
        Some((0 - value as i64) as i32)
    } else {
        Some(plain(word, 2_147_483_647)? as i32)
    }
}
