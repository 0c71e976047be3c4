//! Runs the rows of `data/`, each over files in memory, and writes what comes of it. `stdout` has what must come.
#![tactic(auto)]

mod files;
mod lines;
mod running;
mod showing;

use running::run_row;
use std::{fs, io};

/// A file of rows for each subject.
const SUBJECTS: [&str; 26] = [
    "apply.txt",
    "banks.txt",
    "big.txt",
    "bindings.txt",
    "check.txt",
    "depths.txt",
    "events.txt",
    "fetches.txt",
    "flat.txt",
    "guide.txt",
    "limits.txt",
    "lines.txt",
    "long.txt",
    "names.txt",
    "parts.txt",
    "plan.txt",
    "replay.txt",
    "reports.txt",
    "rounds.txt",
    "rules.txt",
    "scripts.txt",
    "statements.txt",
    "two_files.txt",
    "upgrade.txt",
    "values.txt",
    "words.txt",
];

/// Runs the rows of a subject: its first part has files for all of them.
fn run_subject(rt: &HostRuntime, text: &str) -> io::Result<()> {
    let mut rows = text.split("\nrow ");
    let shared = rows.next().unwrap_or("");
    for row in rows {
        let shown = run_row(rt.alloc(), shared, row)?;
        print!(rt; "{}", shown.as_str())?;
    }
    Ok(())
}

fn main(rt: HostRuntime) -> io::Result<()> {
    for subject in SUBJECTS {
        let text = fs::read_to_string(&rt, subject)?;
        println!(rt; "# {subject}")?;
        run_subject(&rt, text.as_str())?;
    }
    Ok(())
}
