//! The versions of the text of a report.

ghost use Rattle.std.specs.Prelude.{◌≡◌};
ghost use Rattle.report_texts.specs.Stages.{version_in};

/// A version of the text of a report.
#[derive(Clone, Copy)]
pub enum Version {
    /// The first line is `report 1`, and a log doesn't tell its node's path. Slots are below 255, ports below 1,024.
    First,
    /// The first line is `report 2`.
    Second,
}

/// The version that the first line of a report says, or `None` where it says none.
pub fn version_in(line: &[u8]) -> Option<Version>
    ensures { result ≡ version_in line.now }
{
    if line == b"report 1".as_slice() {
        return Some(Version::First);
    }
    if line == b"report 2".as_slice() {
        return Some(Version::Second);
    }
    None
}
