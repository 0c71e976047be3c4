//! The history of a report.

ghost use Rattle.std.specs.Prelude.{◌≡◌, ◌≤◌, ◌<◌, ◌+◌, ◌^◌, [], ◌∷◌, ◌&&◌, None, Some, IfOk, MatchOption, length};
ghost use Rattle.report_writing.specs.Reports.{makes};
ghost use Rattle.report_texts.specs.declared.history.LineAbove.TheVariants as aboves;
ghost use Rattle.report_texts.specs.Limits.{line_keeps};
ghost use Rattle.report_texts.specs.Rests.{CanNumberLines, IsRestOf, leaving};
ghost use Rattle.report_texts.specs.Stages.{history_from, line_above, past_with, said_in, shown_in, stands};
ghost use Rattle.report_texts.specs.TextLines.{lines};

use crate::graphs::{have_forms, read_graph, split_graph};
use crate::limits::line_keeps;
use crate::readings::line_said;
use crate::rest::{Rest, first_line, has_no_line, next_line};
use crate::version::Version;
use config_graph::NoMemory;
use report_lines::is_graph_line;
use report_types::HistoryLine;
use std::alloc::Global;

/// What the last line of a history so far is, the one above the next.
#[derive(Clone, Copy)]
pub enum LineAbove {
    /// `pending`, or an `open` line behind it.
    Pending,
    /// `show`, or a line of its graph.
    Show,
    Other,
}

/// How many nodes were made, and what the last line is.
#[derive(Clone, Copy)]
struct Place {
    made: u32,
    above: LineAbove,
}

/// The lines of the history, as many as there are.
pub fn read_history<'a>(
    alloc: Global,
    history: &mut Vec<HistoryLine>,
    version: Version,
    rest: Rest<'a>,
) -> Result<Rest<'a>, NoMemory>
    requires room { CanNumberLines rest }
    requires empty { history.old.items ≡ [] }
    ensures read { IfOk result
        (λ found. history_from version [] aboves.Other rest.entry.number (lines rest.entry.text.now)
        ≡ leaving history.new.items found) }
    ensures follows { IfOk result (λ found. IsRestOf found rest.entry) }
{
    history.reserve_exact(count_lines(rest.text))?;
    let mut place = Place {
        made: 0,
        above: LineAbove::Other,
    };
    let mut left = rest;
    'lines: while let Some((line, behind)) = next_line(left) {
        let Some(next) = push_line(alloc, history, version, place, line, behind)? else {
            return Ok(left);
        };
        place = next;
        left = behind;
    }
    Ok(left)
}

/// How many bytes a line of a history has at least.
const SHORTEST_LINE: usize = 4;

/// How many lines may be of a history: those before the first that begins or ends all logs, or is too short, without
/// those of graphs. So what is taken for them keeps in proportion to their length, whatever they say.
fn count_lines(text: &[u8]) -> usize {
    let mut count = 0;
    let mut left = text;
    while let Some((line, behind)) = first_line(left) {
        if is_behind_history(line) {
            return count;
        }
        if !is_graph_line(line) {
            count += 1;
        }
        left = behind;
    }
    count
}

fn is_behind_history(line: &[u8]) -> bool {
    line.len() < SHORTEST_LINE || line.starts_with(b"log ") || line.starts_with(b"status ")
}

/// The next line, where it fits; `None` where it doesn't. `behind` is what is left below it.
fn push_line(
    alloc: Global,
    history: &mut Vec<HistoryLine>,
    version: Version,
    place: Place,
    line: &[u8],
    behind: Rest<'_>,
) -> Result<Option<Place>, NoMemory>
    requires made { place.made ≡ length (makes history.old.items) }
    requires room { CanNumberLines behind }
    requires few { place.made + 1 ≤ behind.number }
    ensures { IfOk result (λ found. MatchOption found
        ((past_with version history.old.items place.above line.now (lines behind.entry.text.now) ≡ None)
        × (history.new.items ≡ history.old.items))
        (λ next. (past_with version history.old.items place.above line.now (lines behind.entry.text.now)
        ≡ Some (history.new.items, next.above))
        × (next.made ≡ length (makes history.new.items)) × (next.made ≤ place.made + 1))) }
{
    if place.above == LineAbove::Show && is_graph_line(line) {
        return Ok(Some(place));
    }
    if line == b"show".as_slice() {
        push_shown(alloc, history, place.made, behind)
    } else {
        push_said(alloc, history, version, place, line)
    }
}

/// A graph that is shown. It is judged where a line stands behind its own; else each of these has a form of one.
fn push_shown(
    alloc: Global,
    history: &mut Vec<HistoryLine>,
    made: u32,
    behind: Rest<'_>,
) -> Result<Option<Place>, NoMemory>
    requires made { made ≡ length (makes history.old.items) }
    requires room { CanNumberLines behind }
    ensures { IfOk result (λ found. MatchOption found
        ((shown_in history.old.items (lines behind.entry.text.now) ≡ None) × (history.new.items ≡ history.old.items))
        (λ next. (shown_in history.old.items (lines behind.entry.text.now) ≡ Some (history.new.items, next.above))
        × (next.made ≡ length (makes history.new.items)) × (next.made ≡ made))) }
{
    let next = Place {
        made,
        above: LineAbove::Show,
    };
    let (shown, more) = split_graph(behind.text);
    if has_no_line(more) {
        let fits = have_forms(alloc, shown)?;
        return Ok(if fits { Some(next) } else { None });
    }
    let Some(graph) = read_graph(alloc, shown)? else {
        return Ok(None);
    };
    history.push(HistoryLine::Show { graph })?;
    Ok(Some(next))
}

/// A line of one form of its own.
fn push_said(
    alloc: Global,
    history: &mut Vec<HistoryLine>,
    version: Version,
    place: Place,
    line: &[u8],
) -> Result<Option<Place>, NoMemory>
    requires made { place.made ≡ length (makes history.old.items) }
    requires few { place.made + 1 < 2 ^ 32 }
    ensures { IfOk result (λ found. MatchOption found
        ((said_in version history.old.items place.above line.now ≡ None) × (history.new.items ≡ history.old.items))
        (λ next. (said_in version history.old.items place.above line.now ≡ Some (history.new.items, next.above))
        × (next.made ≡ length (makes history.new.items)) × (next.made ≤ place.made + 1))) }
{
    let Some(says) = line_said(alloc, line)? else {
        return Ok(None);
    };
    if !place.fits(version, &says) {
        return Ok(None);
    }
    let next = place.and(&says);
    history.push(says)?;
    Ok(Some(next))
}

impl Place {
    /// Whether a line keeps the limits of this version and can stand there.
    fn fits(self, version: Version, line: &HistoryLine) -> bool
        ensures { result ≡ (line_keeps version line.now && stands self.made self.above line.now) }
    {
        line_keeps(version, line) && self.stands(line)
    }

    /// Whether a line can stand there.
    fn stands(self, line: &HistoryLine) -> bool
        ensures { result ≡ stands self.made self.above line.now }
    {
        match line {
            HistoryLine::Make { slot, .. } => *slot == self.made,
            HistoryLine::Root { .. } => self.above == LineAbove::Pending,
            _ => true,
        }
    }

    /// The place behind this line.
    fn and(self, line: &HistoryLine) -> Place
        requires { self.made + 1 < 2 ^ 32 }
        ensures made { result.made ≡ self.made + length (makes (line.now ∷ [])) }
        ensures above { result.above ≡ line_above line.now }
    {
        match line {
            HistoryLine::Make { .. } => Place {
                made: self.made + 1,
                above: LineAbove::Other,
            },
            HistoryLine::Pending { .. } | HistoryLine::Root { .. } => Place {
                made: self.made,
                above: LineAbove::Pending,
            },
            _ => Place {
                made: self.made,
                above: LineAbove::Other,
            },
        }
    }
}
