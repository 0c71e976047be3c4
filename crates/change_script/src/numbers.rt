//! Words that are numbers and integers, and their values.

ghost use Rattle.std.specs.Prelude.{◌≡◌, ◌≤◌, IsTrue};
ghost use Rattle.std.specs.Char.{is_ascii_digit};
ghost use Rattle.std.specs.List.{AllPass, list_all};
ghost use Rattle.std.specs.Str.Parse.{digits_value};
ghost use Rattle.std.specs.Option.{SomeIff};
ghost use Rattle.change_script.specs.Numbers as of_words;
ghost use Rattle.change_script.specs.Numbers.{integer, integer_fits, is_integer, is_negative, is_number, magnitude, number_fits, number_in};

use crate::error::LineFault;

/// The value of a number, which is one digit or more and at most 4,294,967,295.
pub fn number(word: &[u8]) -> Result<u32, LineFault>
    ensures { result ≡ number_in word.now }
{
    if !is_number(word) {
        return Err(LineFault::Bad);
    }
    match value_of(word) {
        Some(value) => Ok(value),
        None => Err(LineFault::Big),
    }
}

/// Whether `word` is one digit or more.
pub fn is_number(word: &[u8]) -> bool
    ensures { result ≡ is_number word.now }
{
    !word.is_empty() && has_only_digits(word)
}

/// Whether each byte of a word is a digit.
pub fn has_only_digits(word: &[u8]) -> bool
    ensures { result ≡ list_all is_ascii_digit word.now }
{
    word.iter().all(|byte| byte.is_ascii_digit())
}

/// Whether a number is at most 4,294,967,295.
pub fn number_fits(word: &[u8]) -> bool
    requires { IsTrue (is_number word.now) }
    ensures { result ≡ number_fits word.now }
{
    value_of(word).is_some()
}

/// The value of a number that is at most 4,294,967,295.
pub fn number_value(word: &[u8]) -> u32
    requires number { IsTrue (is_number word.now) }
    requires fits { IsTrue (number_fits word.now) }
    ensures { result ≡ of_words.number word.now }
{
    value_of(word).unwrap_or(0)
}

/// The number that decimal digits write, if it is at most `u32::MAX`.
fn value_of(digits: &[u8]) -> Option<u32>
    requires { AllPass is_ascii_digit digits.now }
    ensures { SomeIff result (digits_value 10 digits.now ≤ 4294967295) (digits_value 10 digits.now) }
{
    Some(value_within(digits, u64::from(u32::MAX))? as u32)
}

/// The number that decimal digits write, if it is at most `most`.
pub fn value_within(digits: &[u8], most: u64) -> Option<u64>
    requires { AllPass is_ascii_digit digits.now }
    ensures { SomeIff result (digits_value 10 digits.now ≤ most) (digits_value 10 digits.now) }
{
    let mut value = 0u64;
    for digit in digits {
        let more = u128::from(value) * 10 + u128::from(*digit - b'0');
        if more > u128::from(most) {
            return None;
        }
        value = more as u64;
    }
    Some(value)
}

/// Whether `word` is a number behind a `-` or none.
pub fn is_integer(word: &[u8]) -> bool
    ensures { result ≡ is_integer word.now }
{
    is_number(magnitude(word))
}

/// Whether an integer is in the range of an `i32`.
pub fn integer_fits(word: &[u8]) -> bool
    requires { IsTrue (is_integer word.now) }
    ensures { result ≡ integer_fits word.now }
{
    let most = if is_negative(word) {
        2_147_483_648
    } else {
        2_147_483_647
    };
    match value_of(magnitude(word)) {
        Some(value) => value <= most,
        None => false,
    }
}

/// The value of an integer.
pub fn integer(word: &[u8]) -> i32
    requires integer { IsTrue (is_integer word.now) }
    requires fits { IsTrue (integer_fits word.now) }
    ensures { result ≡ integer word.now }
{
    let value = i64::from(value_of(magnitude(word)).unwrap_or(0));
    if is_negative(word) {
        (0 - value) as i32
    } else {
        value as i32
    }
}

fn is_negative(word: &[u8]) -> bool
    ensures { result ≡ is_negative word.now }
{
    word.first() == Some(&b'-')
}

/// `word` without a leading `-`.
fn magnitude(word: &[u8]) -> &[u8]
    ensures { result.now ≡ magnitude word.now }
{
    if is_negative(word) { &word[1..] } else { word }
}
