//! The lines of a text, and which of them say something.

ghost use Rattle.std.specs.Prelude.{◌≡◌, ℕ, ◌+◌, ◌^◌, ◌<◌, ◌≤◌, ◌∷◌, [], length, MatchOption};
ghost use Rattle.std.specs.List.{prefix_len, suffix_len};
ghost use Rattle.change_script.specs.Lines.{lines, is_margin, is_statement, statements_from, statements_of, trimmed, without_left_margin, without_right_margin};

use crate::cuts::cut;

/// A line that says something.
#[derive(Clone, Copy)]
pub struct NextLine<'a> {
    /// From 1, over all lines.
    pub number: u32,
    /// The line without the blanks at its ends.
    pub bytes: &'a [u8],
    /// The text behind the line.
    pub rest: &'a [u8],
}

/// The first line of `text` that says something, where `number` is that of its first line.
pub fn next_statement(text: &[u8], number: u32) -> Option<NextLine<'_>>
    requires { number + length text.now < 2 ^ 32 }
    ensures { MatchOption result (statements_from number text.now ≡ [])
        (λ found. (statements_from number text.now ≡ record { number = found.number; bytes = found.bytes.now }
        ∷ statements_from (found.number + 1) found.rest.now)
        × (number ≤ found.number) × (found.number + 1 + length found.rest.now ≤ number + length text.now)) }
{
    let mut number = number;
    let mut rest = text;
    while !rest.is_empty() {
        let (line, behind) = cut_line(rest);
        let bytes = trimmed(line);
        if is_statement(bytes) {
            return Some(NextLine {
                number,
                bytes,
                rest: behind,
            });
        }
        number += 1;
        rest = behind;
    }
    None
}

/// The first line of `text`, and what stands behind its line feed.
fn cut_line(text: &[u8]) -> (&[u8], &[u8])
    requires { 0 < length text.now }
    ensures cut { (number : ℕ)
        → statements_from number text.now ≡ statements_of number (result.0.now ∷ lines result.1.now) }
    ensures shorter { length result.1.now < length text.now }
{
    match cut(text, b'\n') {
        (line, Some(behind)) => (line, behind),
        (line, None) => (line, &text[text.len()..]),
    }
}

/// `line` without the blanks at its ends.
pub fn trimmed(line: &[u8]) -> &[u8]
    ensures { result.now ≡ trimmed line.now }
{
    without_right_margin(without_left_margin(line))
}

fn without_left_margin(line: &[u8]) -> &[u8]
    ensures { result.now ≡ without_left_margin line.now }
{
    &line[left_margin(line)..]
}

fn without_right_margin(line: &[u8]) -> &[u8]
    ensures { result.now ≡ without_right_margin line.now }
{
    &line[..line.len() - right_margin(line)]
}

/// How many bytes are passed over at the left end.
fn left_margin(line: &[u8]) -> usize
    ensures len { result ≡ prefix_len is_margin line.now }
    ensures within { result ≤ length line.now }
{
    line.iter().take_while(|byte| is_margin(**byte)).count()
}

/// How many bytes are passed over at the right end.
fn right_margin(line: &[u8]) -> usize
    ensures len { result ≡ suffix_len is_margin line.now }
    ensures within { result ≤ length line.now }
{
    line.iter()
        .rev()
        .take_while(|byte| is_margin(**byte))
        .count()
}

/// Whether `byte` is passed over at the ends of a line.
fn is_margin(byte: u8) -> bool
    ensures { result ≡ is_margin byte }
{
    byte == b' ' || byte == b'\t' || byte == b'\r'
}

/// Whether a trimmed line says something.
pub fn is_statement(line: &[u8]) -> bool
    ensures { result ≡ is_statement line.now }
{
    match line.first() {
        Some(&first) => first != b'#',
        None => false,
    }
}
