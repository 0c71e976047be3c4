//! The text that answers a line.

ghost use Rattle.std.specs.Prelude.{◌≡◌, ◌++◌, codes, decimal, flat_map, OnOk};
ghost use Rattle.change_apply.specs.Replies as replies;
ghost use Rattle.report_writing.specs.Reports.{ended, history_text, with_two};
ghost use Rattle.report_writing.specs.Writing.{with_one};

use crate::said::Answer;
use config_graph::NoMemory;
use itoa::Buffer;
use report_types::HistoryLine;
use report_writing::push_line;

/// A number behind a space.
fn push_number(text: &mut Vec<u8>, number: u64) -> Result<(), NoMemory>
    ensures { OnOk result (text.new.items ≡ text.old.items ++ (codes " " ++ decimal number)) }
{
    let mut digits = Buffer::new();
    text.extend_from_slice(b" ")?;
    text.extend_from_slice(digits.format(number).as_bytes())
}

/// `denied LINE RULE`
fn push_denied(text: &mut Vec<u8>, number: u64, rule: u32) -> Result<(), NoMemory>
    ensures { OnOk result (text.new.items ≡ text.old.items ++ ended (with_two (codes "denied") number rule)) }
{
    text.extend_from_slice(b"denied")?;
    push_number(text, number)?;
    push_number(text, u64::from(rule))?;
    text.extend_from_slice(b"\n")
}

/// `bad LINE`, and `wait N`
fn push_one(text: &mut Vec<u8>, word: &[u8], number: u64) -> Result<(), NoMemory>
    ensures { OnOk result (text.new.items ≡ text.old.items ++ ended (with_one word.now number)) }
{
    text.extend_from_slice(word)?;
    push_number(text, number)?;
    text.extend_from_slice(b"\n")
}

/// How long is waited.
pub(crate) fn push_wait(text: &mut Vec<u8>, within: u32) -> Result<(), NoMemory>
    ensures { OnOk result (text.new.items ≡ text.old.items ++ ended (with_one (codes "wait") within)) }
{
    push_one(text, b"wait", u64::from(within))
}

fn push_before(text: &mut Vec<u8>, number: u64, answer: Answer) -> Result<(), NoMemory>
    ensures { OnOk result (text.new.items ≡ text.old.items ++ replies.before_text number answer) }
{
    match answer {
        Answer::Denied { rule } => push_denied(text, number, rule),
        Answer::Bad => push_one(text, b"bad", number),
        Answer::Unread => text.extend_from_slice(b"read fault -\n"),
        _ => Ok(()),
    }
}

fn push_behind(text: &mut Vec<u8>, answer: Answer) -> Result<(), NoMemory>
    ensures { OnOk result (text.new.items ≡ text.old.items ++ replies.behind_text answer) }
{
    match answer {
        Answer::Ready => text.extend_from_slice(b"ready\n"),
        _ => Ok(()),
    }
}

/// The lines of a history.
pub(crate) fn push_history(text: &mut Vec<u8>, lines: &[HistoryLine]) -> Result<(), NoMemory>
    ensures { OnOk result (text.new.items ≡ text.old.items ++ replies.history lines.now) }
{
    for line in lines {
        push_line(text, line)?;
    }
    Ok(())
}

/// The answer to the line of this number.
pub(crate) fn push_reply(
    text: &mut Vec<u8>,
    number: u64,
    answer: Answer,
    lines: &[HistoryLine],
) -> Result<(), NoMemory>
    ensures { OnOk result (text.new.items ≡ text.old.items ++ replies.reply_text number answer lines.now) }
{
    push_before(text, number, answer)?;
    push_history(text, lines)?;
    push_behind(text, answer)
}
