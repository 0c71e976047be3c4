//! What is left of a text, line by line.

ghost use Rattle.std.specs.Prelude.{◌≡◌, ◌<◌, ◌+◌, ◌∷◌, ◌++◌, [], length, IfSome, MatchOption};
ghost use Rattle.report_lines.specs.Parts.{is_used_up};
ghost use Rattle.report_texts.specs.Rests.{CanNumberLines, IsRestOf};
ghost use Rattle.report_texts.specs.TextLines.{lines, tail};

use change_script::cut;

/// What is left of a text, where its first line has this number.
#[derive(Clone, Copy)]
pub struct Rest<'a> {
    pub number: u32,
    pub text: &'a [u8],
}

/// The next line, without its line feed, and what is left behind it.
pub fn next_line(rest: Rest<'_>) -> Option<(&[u8], Rest<'_>)>
    requires { CanNumberLines rest }
    ensures line { MatchOption result (lines rest.entry.text.now ≡ [])
        (λ found. lines rest.entry.text.now ≡ found.0.now ∷ lines found.1.text.now) }
    ensures number { IfSome result (λ found. found.1.number ≡ rest.entry.number + 1) }
    ensures follows { IfSome result (λ found. IsRestOf found.1 rest.entry) }
    ensures shorter { IfSome result (λ found. length found.1.text.now < length rest.entry.text.now) }
{
    let (line, text) = first_line(rest.text)?;
    Some((
        line,
        Rest {
            number: rest.number + 1,
            text,
        },
    ))
}

/// The first line of a text, without its line feed, and the text behind it.
pub fn first_line(text: &[u8]) -> Option<(&[u8], &[u8])>
    ensures line { MatchOption result (lines text.now ≡ [])
        (λ found. lines text.now ≡ found.0.now ∷ lines found.1.now) }
    ensures tail { IfSome result (λ found. tail text.now ≡ tail found.1.now) }
    ensures parts { IfSome result (λ found. text.now ≡ found.0.now ++ 10 ∷ found.1.now) }
{
    let (line, behind) = cut(text, b'\n');
    match behind {
        Some(behind) => Some((line, behind)),
        None => None,
    }
}

/// Whether a text has no line.
pub fn has_no_line(text: &[u8]) -> bool
    ensures { result ≡ is_used_up (lines text.now) }
{
    match first_line(text) {
        Some(_) => false,
        None => true,
    }
}
