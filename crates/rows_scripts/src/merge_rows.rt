//! Rows of `leads_to_the_end`: reports whose history and logs are parts of one run, and some that aren't.

ghost use Rattle.std.specs.Prelude.{◌≤◌, length};

use report_check::leads_to_the_end;
use report_texts::{MAX_REPORT, parse_report};
use std::alloc::Global;
use std::process::Abort;
use std::test::Fail;

/// A line of three items: what stands before the stop's last line, and behind it.
static LINE: (&'static str, &'static str) = (
    "report 2|start Line(3,10)|make 0 m map(10)|make 1 s source(3)|make 2 t sink()|link 0 2 0|link 1 0 0|reopen 0|reopen 1|commit|finish 100 18|stop|close 0|close 1|drained 0 3|",
    "log 0 m|take 1 1 1|call 0 1 11|end 0 1 1|give 1 1 1|take 1 2 2|call 0 2 12|end 0 2 1|give 1 2 1|take 1 3 3|call 0 3 13|end 0 3 1|give 1 3 1|state|log 1 s|begin 1 1 1|end 1 1 1|begin 1 2 2|end 1 2 1|begin 1 3 3|end 1 3 1|state 3|log 2 t|take 0 1 11|give 0 1 1|take 0 2 12|give 0 2 1|take 0 3 13|give 0 3 1|state 11 12 13|status 0|",
);

/// The last line of the stop, and whether it can be so.
static LAST: [(&'static str, bool); 4] = [
    ("drained 1 3|", true),
    ("drained 1 2|", false),
    ("drained 1 4|", false),
    ("drained 2 3|", false),
];

/// A source and a sink: the history behind what is made, the source's log, and whether it can be so.
static PAIRS: [(&'static str, &'static str, bool); 10] = [
    ("close 0|drained 0 1|", "begin 0 1 1|end 0 1 1|", true),
    ("close 0|drained 0 0|", "begin 0 1 1|end 0 1 1|", false),
    (
        "close 0|drained 0 0|reopen 0|",
        "begin 0 1 1|end 0 1 1|",
        true,
    ),
    (
        "close 0|pending 0|open 0 1|reopen 0|",
        "begin 0 1 1|end 0 1 1|",
        true,
    ),
    (
        "close 0|pending 0|open 0 2|reopen 0|",
        "begin 0 1 1|end 0 1 1|",
        false,
    ),
    (
        "close 0|pending 0|open 0 1|reopen 0|close 0|drained 0 1|",
        "begin 0 1 1|end 0 1 1|",
        true,
    ),
    ("close 0|drained 0 1|", "begin 0 1 1|", false),
    ("close 0|drained 0 1|", "end 0 1 1|begin 0 1 1|", false),
    ("close 0|drained 0 1|", "begin 0 2 1|end 0 2 1|", false),
    ("unlink 0|", "begin 0 1 1|end 0 1 1|", false),
];

/// Whether a text with `|` for each line feed is a report whose history and logs are parts of one run.
fn is_merge(rt: &impl Abort, alloc: Global, row: &str) -> Result<bool, Fail> {
    let text = row.replace(alloc, "|", "\n")?;
    let bytes = text.as_bytes();
    assert!(rt; bytes.len() <= MAX_REPORT);
    let Ok(report) = parse_report(alloc, bytes) else {
        assert!(rt; false, "{row}");
        return Ok(false);
    };
    Ok(leads_to_the_end(alloc, report.history.items(), report.logs.items())?)
}

#[test]
fn a_line_drains_with_its_last_serial(rt: HostRuntime) -> Result<(), Fail> {
    let alloc = rt.alloc();
    for (last, wanted) in &LAST {
        let row = format!(in alloc; "{}{last}{}", LINE.0, LINE.1)?;
        assert!(rt; is_merge(&rt, alloc, &row)? == *wanted, "{last}");
    }
    Ok(())
}

#[test]
fn serials_tell_on_which_side_of_a_close_a_root_began(rt: HostRuntime) -> Result<(), Fail> {
    let alloc = rt.alloc();
    for (history, log, wanted) in &PAIRS {
        let made = "report 2|make 0 s source(1)|make 1 t sink()|link 0 1 0|reopen 0|";
        let other = "log 1 t|take 0 1 1|give 0 1 1|state 1|status 0|";
        let row = format!(in alloc; "{made}{history}log 0 s|{log}state 1|{other}")?;
        assert!(rt; is_merge(&rt, alloc, &row)? == *wanted, "{history} {log}");
    }
    Ok(())
}
