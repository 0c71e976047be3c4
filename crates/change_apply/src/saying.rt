//! What a line says.

ghost use Rattle.std.specs.Prelude.{◌≡◌, ◌≤◌, ◌<◌, ◌∷◌, [], length, not};
ghost use Rattle.std.specs.List.{prefix_len};
ghost use Rattle.change_apply.specs.Lines as lines;

use crate::said::Said;
use change_script::{has_only_digits, is_statement, trimmed, value_within};

/// How many bytes a line has at most, without its line feed.
pub const LINE_LIMIT: usize = 4096;

/// What a line says, without its line feed.
pub(crate) fn said_by(line: &[u8]) -> Said
    ensures { result ≡ lines.said_by line.now }
{
    if line.len() > LINE_LIMIT {
        return Said::Senseless;
    }
    said_in(trimmed(line))
}

fn said_in(line: &[u8]) -> Said
    ensures { result ≡ lines.said_in line.now }
{
    if !is_statement(line) {
        return Said::Silent;
    }
    let len = word_len(line);
    said_before(&line[..len], without_blanks(&line[len..]))
}

fn is_blank(byte: u8) -> bool
    ensures { result ≡ lines.is_blank byte }
{
    byte == b' ' || byte == b'\t'
}

fn word_len(line: &[u8]) -> usize
    ensures len { result ≡ lines.word_len line.now }
    ensures within { result ≤ length line.now }
{
    line.iter().take_while(|byte| !is_blank(**byte)).count()
}

fn blank_len(bytes: &[u8]) -> usize
    ensures len { result ≡ prefix_len lines.is_blank bytes.now }
    ensures within { result ≤ length bytes.now }
{
    bytes.iter().take_while(|byte| is_blank(**byte)).count()
}

fn without_blanks(bytes: &[u8]) -> &[u8]
    ensures { result.now ≡ lines.without_blanks bytes.now }
{
    &bytes[blank_len(bytes)..]
}

/// A word, and what stands behind it.
fn said_before(word: &[u8], rest: &[u8]) -> Said
    ensures { result ≡ lines.said_before word.now rest.now }
{
    if rest.is_empty() {
        return said_alone(word);
    }
    if !has_only_digits(rest) {
        return Said::Senseless;
    }
    match value_within(rest, u64::from(u32::MAX)) {
        Some(port) => said_at(word, port as u32),
        None => Said::Senseless,
    }
}

fn said_alone(word: &[u8]) -> Said
    ensures { result ≡ lines.said_alone word.now }
{
    if word == b"round".as_slice() {
        Said::Round
    } else if word == b"stop".as_slice() {
        Said::Stop
    } else if word == b"go".as_slice() {
        Said::Go
    } else {
        Said::Senseless
    }
}

fn said_at(word: &[u8], port: u32) -> Said
    ensures { result ≡ lines.said_at word.now port }
{
    if word == b"busy".as_slice() {
        Said::Busy { port }
    } else if word == b"closed".as_slice() {
        Said::Closed { port }
    } else if word == b"idle".as_slice() {
        Said::Idle { port }
    } else {
        Said::Senseless
    }
}
