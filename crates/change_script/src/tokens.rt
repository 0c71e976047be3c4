//! The tokens of a line, one after the other from its front.

ghost use Rattle.std.specs.Prelude.{◌≡◌, ◌<◌, ◌≤◌, false, ◌∷◌, [], ℕ, List, length, IsTrue, ◌↔◌, IfNone, IfSome};
ghost use Rattle.std.specs.List.{list_all, prefix_len};
ghost use Rattle.change_script.specs.Tokens.{ScriptToken, arrow, begins_arrow, begins_blank, begins_word, is_blank, is_sign, is_word_byte, sign, tokens, word, word_len};

/// The word that comes first in `line`, and what stands behind it; `None` where no word comes first.
pub fn first_word(line: &[u8]) -> Option<(&[u8], &[u8])>
    ensures none { IfNone result ((bytes : List ℕ) (more : List ScriptToken) → tokens line.now ≡ word bytes ∷ more
        → ⊥) }
    ensures found { IfSome result (λ found. tokens line.now ≡ word found.0.now ∷ tokens found.1.now) }
    ensures shorter { IfSome result (λ found. length found.1.now < length line.now) }
{
    let line = without_blanks(line);
    let len = word_len(line);
    if len == 0 {
        return None;
    }
    Some((&line[..len], &line[len..]))
}

/// What stands behind the sign `byte`, where it comes first in `line`.
pub fn after_sign(line: &[u8], byte: u8) -> Option<&[u8]>
    requires { IsTrue (is_sign byte) }
    ensures none { IfNone result ((more : List ScriptToken) → tokens line.now ≡ sign byte ∷ more → ⊥) }
    ensures found { IfSome result (λ rest. tokens line.now ≡ sign byte ∷ tokens rest.now) }
    ensures shorter { IfSome result (λ rest. length rest.now < length line.now) }
{
    let line = without_blanks(line);
    let Some(&first) = line.first() else {
        return None;
    };
    if first == byte {
        Some(&line[1..])
    } else {
        None
    }
}

/// What stands behind `->`, where it comes first in `line`.
pub fn after_arrow(line: &[u8]) -> Option<&[u8]>
    ensures none { IfNone result ((more : List ScriptToken) → tokens line.now ≡ arrow ∷ more → ⊥) }
    ensures found { IfSome result (λ rest. tokens line.now ≡ arrow ∷ tokens rest.now) }
    ensures shorter { IfSome result (λ rest. length rest.now < length line.now) }
{
    let line = without_blanks(line);
    if !begins_arrow(line) {
        return None;
    }
    Some(&line[2..])
}

/// Whether nothing but blanks is left.
pub fn is_end(line: &[u8]) -> bool
    ensures { IsTrue result ↔ (tokens line.now ≡ []) }
{
    is_all_blank(line)
}

fn is_all_blank(line: &[u8]) -> bool
    ensures { result ≡ list_all is_blank line.now }
{
    line.iter().all(|byte| is_blank(*byte))
}

/// `line` from its first byte on that is no blank.
fn without_blanks(line: &[u8]) -> &[u8]
    ensures tokens { tokens result.now ≡ tokens line.now }
    ensures within { length result.now ≤ length line.now }
    ensures no_blank { begins_blank result.now ≡ false }
{
    &line[blanks_len(line)..]
}

/// How many blanks stand at the front.
pub fn blanks_len(line: &[u8]) -> usize
    ensures len { result ≡ prefix_len is_blank line.now }
    ensures within { result ≤ length line.now }
{
    line.iter().take_while(|byte| is_blank(**byte)).count()
}

/// How many bytes the word at the front has.
fn word_len(line: &[u8]) -> usize
    ensures len { result ≡ word_len line.now }
    ensures within { result ≤ length line.now }
{
    let mut len = 0;
    while begins_word(&line[len..]) {
        len += 1;
    }
    len
}

/// Whether a byte of a word stands at the front: no blank, no sign, and not the first byte of `->`.
fn begins_word(line: &[u8]) -> bool
    ensures { result ≡ begins_word line.now }
{
    match line.first() {
        Some(&first) => is_word_byte(first) && !begins_arrow(line),
        None => false,
    }
}

fn begins_arrow(line: &[u8]) -> bool
    ensures { result ≡ begins_arrow line.now }
{
    line.len() >= 2 && line[0] == b'-' && line[1] == b'>'
}

/// Whether `byte` parts words.
pub fn is_blank(byte: u8) -> bool
    ensures { result ≡ is_blank byte }
{
    byte == b' ' || byte == b'\t'
}

fn is_sign(byte: u8) -> bool
    ensures { result ≡ is_sign byte }
{
    byte == b'(' || byte == b')' || byte == b','
}

fn is_word_byte(byte: u8) -> bool
    ensures { result ≡ is_word_byte byte }
{
    !(is_blank(byte) || is_sign(byte))
}
