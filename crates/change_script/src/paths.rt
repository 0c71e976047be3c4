//! Words that are names of the language, and words that are paths of nodes.

ghost use Rattle.std.specs.Prelude.{◌≡◌, ◌≤◌, length};
ghost use Rattle.change_script.specs.Paths.{index_fits, index_number, is_index, is_name, is_path, is_segment, name_len, path_fits, path_in, segment_fits};

use crate::cuts::cut;
use crate::error::LineFault;
use crate::numbers::{is_number, number_fits};

/// Whether the whole word is a name of the language, and no keyword.
pub fn is_name(word: &[u8]) -> bool
    ensures { result ≡ is_name word.now }
{
    darwin_lexer::is_name(word)
}

/// Whether `path` is one, and keeps the limit of its indices.
pub fn path(path: &[u8]) -> Result<(), LineFault>
    ensures { result ≡ path_in path.now }
{
    if !is_path(path) {
        return Err(LineFault::Bad);
    }
    if !path_fits(path) {
        return Err(LineFault::Big);
    }
    Ok(())
}

/// Whether `path` is segments NAME or NAME[NUM], parted by `.`.
pub fn is_path(path: &[u8]) -> bool
    ensures { result ≡ is_path path.now }
{
    let mut rest = path;
    'segments: loop {
        let (segment, behind) = cut(rest, b'.');
        if !is_segment(segment) {
            return false;
        }
        match behind {
            Some(behind) => rest = behind,
            None => return true,
        }
    }
}

/// Whether each index of a path is at most 4,294,967,295.
pub fn path_fits(path: &[u8]) -> bool
    ensures { result ≡ path_fits path.now }
{
    let mut rest = path;
    'segments: loop {
        let (segment, behind) = cut(rest, b'.');
        if !segment_fits(segment) {
            return false;
        }
        match behind {
            Some(behind) => rest = behind,
            None => return true,
        }
    }
}

fn is_segment(segment: &[u8]) -> bool
    ensures { result ≡ is_segment segment.now }
{
    let len = name_len(segment);
    is_name(&segment[..len]) && is_index(&segment[len..])
}

fn segment_fits(segment: &[u8]) -> bool
    ensures { result ≡ segment_fits segment.now }
{
    index_fits(&segment[name_len(segment)..])
}

/// How many bytes stand before the first `[`.
fn name_len(segment: &[u8]) -> usize
    ensures len { result ≡ name_len segment.now }
    ensures within { result ≤ length segment.now }
{
    segment.iter().take_while(|byte| **byte != b'[').count()
}

/// Whether a segment ends here, or goes on with a number between brackets.
fn is_index(index: &[u8]) -> bool
    ensures { result ≡ is_index index.now }
{
    index.is_empty() || (index.last() == Some(&b']') && is_number(index_number(index)))
}

fn index_fits(index: &[u8]) -> bool
    ensures { result ≡ index_fits index.now }
{
    let word = index_number(index);
    !is_number(word) || number_fits(word)
}

/// The bytes between the first and the last.
fn index_number(index: &[u8]) -> &[u8]
    ensures { result.now ≡ index_number index.now }
{
    if index.len() < 2 {
        return &index[..0];
    }
    &index[1..index.len() - 1]
}
