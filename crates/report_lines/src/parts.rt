//! Texts that a byte parts: the words of a line, and what stands in parentheses.

ghost use Rattle.std.specs.Prelude.{◌≡◌, ◌==◌, ◌<◌, [], ◌∷◌, Some, None, IfSome, MatchOption, option_copied};
ghost use Rattle.std.specs.List.{slice_split};
ghost use Rattle.report_lines.specs.Parts.{bracketed, is_used_up, length_left, parts_left, two_of};

use change_script::cut;

/// The words of a line from one on; `None` behind the last.
pub type Words<'a> = Option<&'a [u8]>;

/// The first word, and those behind it.
pub fn first_word(words: Words<'_>) -> Option<(&[u8], Words<'_>)>
    ensures first { MatchOption result (parts_left 32 (option_copied words.entry) ≡ [])
        (λ found. parts_left 32 (option_copied words.entry)
        ≡ found.0.now ∷ parts_left 32 (option_copied found.1)) }
    ensures shorter { IfSome result (λ found. length_left (option_copied found.1)
        < length_left (option_copied words.entry)) }
{
    match words {
        Some(line) => Some(cut(line, b' ')),
        None => None,
    }
}

/// Whether no word is left.
pub fn is_used_up(words: Words<'_>) -> bool
    ensures { result ≡ is_used_up (parts_left 32 (option_copied words.entry)) }
{
    words.is_none()
}

#[tactic(auto, using(crate::proofs::PartLemmas::cut_two, crate::proofs::PartLemmas::cut_one))]
/// The two parts of a text that has two.
fn two_parts(bytes: &[u8], at: u8) -> Option<(&[u8], &[u8])>
    ensures { MatchOption result (two_of (slice_split (λ byte. byte == at) bytes.now) ≡ None)
        (λ found. two_of (slice_split (λ byte. byte == at) bytes.now) ≡ Some (found.0.now, found.1.now)) }
{
    let (first, rest) = cut(bytes, at);
    let rest = rest?;
    let (second, more) = cut(rest, at);
    if more.is_none() {
        Some((first, second))
    } else {
        None
    }
}

/// Of `NAME(INSIDE)`: its name and what stands inside.
pub fn bracketed(word: &[u8]) -> Option<(&[u8], &[u8])>
    ensures { MatchOption result (bracketed word.now ≡ None)
        (λ found. bracketed word.now ≡ Some (found.0.now, found.1.now)) }
{
    let (name, rest) = two_parts(word, b'(')?;
    let (inside, behind) = two_parts(rest, b')')?;
    if behind.is_empty() {
        Some((name, inside))
    } else {
        None
    }
}
