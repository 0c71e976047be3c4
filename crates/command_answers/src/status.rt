//! How a run of the program ends.

ghost use Rattle.std.specs.Prelude.{◌≡◌};
ghost use Rattle.command_answers.specs.Answers.{roll_status, run_status};
ghost use Rattle.command_answers.specs.Statuses.{status_number};

/// How a run ends.
#[derive(Clone, Copy, PartialEq, Eq)]
pub enum Status {
    Ok,
    /// The words have none of the forms.
    Usage,
    /// A description, or its use, has a fault.
    Description,
    /// A script, an event file or a report has a fault.
    Script,
    /// A file can't be read.
    ReadFault,
    /// The sink failed.
    WriteFault,
    NoMemory,
    /// A change was given up.
    Pending,
    /// A node isn't done.
    Unfinished,
    /// An event isn't lawful.
    Denied,
    /// A report isn't lawful.
    Unlawful,
}

impl Status {
    /// The program's exit status, from 0 for `Ok` to 10 for `Unlawful`.
    pub fn number(self) -> u8
        ensures { result ≡ status_number self }
    {
        self as u8
    }

    /// How a run ends whose report has this number: 7 where a change was given up, 8 where a node isn't done.
    pub fn of_run(number: u8) -> Status
        ensures { result ≡ run_status number }
    {
        match number {
            7 => Status::Pending,
            8 => Status::Unfinished,
            _ => Status::Ok,
        }
    }

    /// How a roll ends of which this part was given up, if any.
    pub fn of_roll(given_up: Option<u32>) -> Status
        ensures { result ≡ roll_status given_up }
    {
        match given_up {
            None => Status::Ok,
            Some(_) => Status::Pending,
        }
    }
}
