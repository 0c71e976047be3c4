//! What a run answers.

ghost use Rattle.std.specs.Prelude.{◌≡◌, ◌∷◌, [], codes, IfOk};
ghost use Rattle.command_answers.specs.Answers as values;
ghost use Rattle.command_spec.specs.Sorts.{refusal_of};
ghost use Rattle.command_program.specs.Coming.{IsOrStop, StopsFor};
ghost use Rattle.command_program.specs.Sources.{sort_of};

use crate::FileSort;
use command_answers::{Status, description_too_long_line, read_fault_line, script_too_long_line};
use config_graph::NoMemory;
use std::alloc::{AllocError, Global};

/// A text, and the status with which the run ends where the text is written.
#[derive(Drop)]
pub struct Answer {
    pub status: Status,
    pub text: Vec<u8>,
}

/// Why there is nothing to go on with.
#[derive(Drop)]
pub enum Stop {
    /// A file is refused, and this is the answer.
    Refused(Answer),
    NoMemory,
}

impl From<AllocError> for Stop {
    ghost use Rattle.std.specs.Prelude.{◌≡◌};
    ghost use Rattle.command_program.specs.declared.answer.Stop.TheVariants.{NoMemory};

    ghost from_gives = { λ _ stop. stop ≡ NoMemory };

    fn from(_error: AllocError) -> Stop {
        Stop::NoMemory
    }
}

/// The stop that a line tells, or want of memory for it.
pub fn stop_with(status: Status, line: Result<Vec<u8>, NoMemory>) -> Stop
    ensures { (why : values.Refusal) → status ≡ values.refusal_status why
        → IfOk line (λ text. text.items ≡ values.refusal_text why) → StopsFor (λ other. other ≡ why) result }
{
    match line {
        Ok(text) => Stop::Refused(Answer { status, text }),
        Err(_) => Stop::NoMemory,
    }
}

/// The line of a file that can't be read.
pub fn unreadable(alloc: Global, file: &str) -> Stop
    ensures { StopsFor (λ why. why ≡ values.read_fault file.now) result }
{
    stop_with(Status::ReadFault, read_fault_line(alloc, file))
}

/// The line of a file of a sort that is too long.
pub fn too_long(alloc: Global, sort: FileSort, file: &str) -> Stop
    ensures { StopsFor (λ why. why ≡ refusal_of (sort_of sort) file.now (codes "TooLong" ∷ [])) result }
{
    match sort {
        FileSort::Description => {
            stop_with(Status::Description, description_too_long_line(alloc, file))
        }
        FileSort::Script | FileSort::Events | FileSort::Report => {
            stop_with(Status::Script, script_too_long_line(alloc, file))
        }
    }
}

/// An answer, or want of memory for it as a stop.
pub fn or_stop(answer: Result<Answer, NoMemory>) -> Result<Answer, Stop>
    ensures { IsOrStop answer result }
{
    match answer {
        Ok(answer) => Ok(answer),
        Err(_) => Err(Stop::NoMemory),
    }
}
