//! The arguments of a component: integers, parted by commas, in parentheses.

ghost use Rattle.std.specs.Prelude.{◌≡◌, true, map, option_map, IfOk};
ghost use Rattle.std.specs.List.{list_all};
ghost use Rattle.change_script.specs.Tokens.{tokens};
ghost use Rattle.change_script.specs.Numbers as of_numbers;
ghost use Rattle.change_script.specs.Arguments.{arguments, more_arguments};

use crate::numbers::{integer, integer_fits, is_integer};
use crate::tokens::{after_sign, first_word};
use config_graph::NoMemory;
use std::alloc::Global;

/// Words of a line, and what stands behind them.
type Found<'a> = (Vec<&'a [u8]>, &'a [u8]);

/// The words between the opening parenthesis, which is behind, and the closing one, and what stands behind that.
pub fn arguments(alloc: Global, line: &[u8]) -> Result<Option<Found<'_>>, NoMemory>
    ensures { IfOk result (λ found. option_map (λ pair. (map (λ word. word.now) pair.0.items, tokens pair.1.now))
        found ≡ arguments (tokens line.now)) }
{
    match after_sign(line, b')') {
        Some(rest) => Ok(Some((Vec::new(alloc), rest))),
        None => more_arguments(alloc, line),
    }
}

fn more_arguments(alloc: Global, line: &[u8]) -> Result<Option<Found<'_>>, NoMemory>
    ensures { IfOk result (λ found. option_map (λ pair. (map (λ word. word.now) pair.0.items, tokens pair.1.now))
        found ≡ more_arguments (tokens line.now)) }
{
    let mut words = Vec::new(alloc);
    let mut rest = line;
    'arguments: loop {
        let Some((word, behind)) = first_word(rest) else {
            return Ok(None);
        };
        words.push(word)?;
        if let Some(behind) = after_sign(behind, b')') {
            return Ok(Some((words, behind)));
        }
        let Some(behind) = after_sign(behind, b',') else {
            return Ok(None);
        };
        rest = behind;
    }
}

/// Whether each word is an integer.
pub fn are_integers(words: &[&[u8]]) -> bool
    ensures { result ≡ list_all of_numbers.is_integer (map (λ word. word.now) words.now) }
{
    each_is_integer(words)
}

fn each_is_integer(words: &[&[u8]]) -> bool
    ensures { result ≡ list_all (λ word. of_numbers.is_integer word.now) words.now }
{
    words.iter().all(|word| is_integer(word))
}

/// Whether each integer is in the range of an `i32`.
pub fn integers_fit(words: &[&[u8]]) -> bool
    requires { list_all of_numbers.is_integer (map (λ word. word.now) words.now) ≡ true }
    ensures { result ≡ list_all of_numbers.integer_fits (map (λ word. word.now) words.now) }
{
    for word in words {
        if !integer_fits(word) {
            return false;
        }
    }
    true
}

/// The values of integers that are in range.
pub fn integer_values(alloc: Global, words: &[&[u8]]) -> Result<Vec<i32>, NoMemory>
    requires integers { list_all of_numbers.is_integer (map (λ word. word.now) words.now) ≡ true }
    requires fit { list_all of_numbers.integer_fits (map (λ word. word.now) words.now) ≡ true }
    ensures { IfOk result (λ values. values.items ≡ map of_numbers.integer (map (λ word. word.now) words.now)) }
{
    let mut values = Vec::new(alloc);
    for word in words {
        values.push(integer(word))?;
    }
    Ok(values)
}
