//! Lines that are put from their last byte to their first, so that one line or many are one piece of text.

ghost use Rattle.std.specs.Prelude.{◌≡◌, ◌≤◌, ◌+◌, ◌++◌, codes, decimal, drop, length};
ghost use Rattle.report_writing.specs.Reports.{ended};
ghost use Rattle.report_writing.specs.Writing.{with_one, with_three};

use itoa::write_digits;

/// The most bytes of a line's end: three numbers of twenty digits, each behind a space, and the line feed.
pub const LINE_END: usize = 64;

/// The most bytes of a line of a verb of at most eight bytes and three numbers.
pub const LINE: usize = 72;

/// Puts a number behind a space before the byte at `end`, and tells where the space is.
pub fn put_number(line: &mut [u8], end: usize, number: u64) -> usize
    requires room { 21 ≤ end }
    requires within { end ≤ length line.old }
    ensures start { end ≤ result + 21 }
    ensures before { result ≤ end }
    ensures written { drop result line.new ≡ codes " " ++ decimal number ++ drop end line.old }
    ensures length { length line.new ≡ length line.old }
{
    let start = write_digits(number, line, end) - 1;
    line[start] = b' ';
    start
}

/// Puts a word before the byte at `end`, and tells where it starts. Inlined, so that a verb of known length is copied
/// as one word.
#[inline(always)]
fn put_word(line: &mut [u8], end: usize, word: &[u8]) -> usize
    requires room { length word.now ≤ end }
    requires within { end ≤ length line.old }
    ensures start { result + length word.now ≡ end }
    ensures written { drop result line.new ≡ word.now ++ drop end line.old }
    ensures length { length line.new ≡ length line.old }
{
    let start = end - word.len();
    line[start..end].copy_from_slice(word);
    start
}

/// Puts a number and the line feed before the byte at `end`, and tells where the number's space is.
fn put_last(line: &mut [u8], end: usize, number: u32) -> usize
    requires room { 22 ≤ end }
    requires within { end ≤ length line.old }
    ensures start { end ≤ result + 22 }
    ensures before { result ≤ end }
    ensures written { drop result line.new ≡ codes " " ++ decimal number ++ codes "\n" ++ drop end line.old }
    ensures length { length line.new ≡ length line.old }
{
    line[end - 1] = b'\n';
    put_number(line, end - 1, u64::from(number))
}

/// Puts three numbers and the line feed before the byte at `end`, and tells where the first one's space is.
fn put_numbers(line: &mut [u8], end: usize, first: u32, second: u32, third: u32) -> usize
    requires room { 64 ≤ end }
    requires within { end ≤ length line.old }
    ensures start { end ≤ result + 64 }
    ensures before { result ≤ end }
    ensures written { drop result line.new ≡ codes " " ++ decimal first ++ codes " " ++ decimal second ++ codes " "
        ++ decimal third ++ codes "\n" ++ drop end line.old }
    ensures length { length line.new ≡ length line.old }
{
    let start = put_last(line, end, third);
    let start = put_number(line, start, u64::from(second));
    put_number(line, start, u64::from(first))
}

/// Puts the line of a verb and three numbers before the byte at `end`, and tells where it starts.
#[inline(always)]
pub fn put_three(
    line: &mut [u8],
    end: usize,
    verb: &[u8],
    first: u32,
    second: u32,
    third: u32,
) -> usize
    requires verb { length verb.now ≤ 8 }
    requires room { 72 ≤ end }
    requires within { end ≤ length line.old }
    ensures start { end ≤ result + 72 }
    ensures before { result ≤ end }
    ensures written { drop result line.new ≡ ended (with_three verb.now first second third) ++ drop end line.old }
    ensures length { length line.new ≡ length line.old }
{
    let start = put_numbers(line, end, first, second, third);
    put_word(line, start, verb)
}

/// Puts the line of a verb and a number before the byte at `end`, and tells where it starts.
#[inline(always)]
pub fn put_one(line: &mut [u8], end: usize, verb: &[u8], number: u32) -> usize
    requires verb { length verb.now ≤ 8 }
    requires room { 72 ≤ end }
    requires within { end ≤ length line.old }
    ensures start { end ≤ result + 72 }
    ensures before { result ≤ end }
    ensures written { drop result line.new ≡ ended (with_one verb.now number) ++ drop end line.old }
    ensures length { length line.new ≡ length line.old }
{
    let start = put_last(line, end, number);
    put_word(line, start, verb)
}
