//! The lines of observers.

ghost use Rattle.std.specs.Prelude.{◌≡◌, ◌++◌, ◌∷◌, [], OnOk, decimal};
ghost use Rattle.report_writing.specs.Writing.{spaced};
ghost use Rattle.watch_lines.specs.WatchText.{observer_text, seen_line, watch_text};

use crate::Sighting;
use config_graph::{List, NoMemory};
use itoa::Buffer;

/// Adds the lines of all observers, numbered from 0: `seen I C K L` of each sighting.
pub fn push_watch_text(text: &mut Vec<u8>, observers: &[List<Sighting>]) -> Result<(), NoMemory>
    ensures { OnOk result (text.new.items ≡ text.old.items ++ watch_text observers.now) }
{
    for (observer, lines) in observers.iter().enumerate() {
        push_observer(text, observer, lines.items())?;
    }
    Ok(())
}

/// Adds the lines of this observer.
fn push_observer(text: &mut Vec<u8>, observer: usize, lines: &[Sighting]) -> Result<(), NoMemory>
    ensures { OnOk result (text.new.items ≡ text.old.items ++ observer_text observer lines.now) }
{
    for sighting in lines {
        push_line(text, observer, sighting)?;
    }
    Ok(())
}

fn push_line(text: &mut Vec<u8>, observer: usize, sighting: &Sighting) -> Result<(), NoMemory>
    ensures { OnOk result (text.new.items ≡ text.old.items ++ seen_line observer sighting.now) }
{
    text.extend_from_slice(b"seen")?;
    push_number(text, observer as u64)?;
    push_number(text, u64::from(sighting.commits))?;
    push_number(text, u64::from(sighting.nodes))?;
    push_number(text, sighting.links as u64)?;
    text.extend_from_slice(b"\n")
}

/// Adds a number after a space.
fn push_number(text: &mut Vec<u8>, number: u64) -> Result<(), NoMemory>
    ensures { OnOk result (text.new.items ≡ text.old.items ++ spaced (decimal number ∷ [])) }
{
    let mut digits = Buffer::new();
    text.extend_from_slice(b" ")?;
    text.extend_from_slice(digits.format(number).as_bytes())
}
