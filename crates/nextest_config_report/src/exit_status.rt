//! How programs end.

ghost use Rattle.std.specs.Prelude.{◌≡◌};
ghost use Rattle.nextest_config_report.specs.ExitStatus.{exit_code};

/// How a program ends.
#[derive(Clone, Copy, Debug, PartialEq, Eq)]
pub enum ExitStatus {
    /// It did what it was asked, and nothing that it checked failed.
    Success,
    /// What it checked failed.
    Failure,
    /// The words of its command line, its input or a file are refused.
    Refused,
    /// It gives no outcome: its input can't be read, its output can't be written, or memory ran
    /// out.
    NoOutcome,
}

impl ExitStatus {
    /// The number that the system is told of how the program ended.
    pub fn code(self) -> u8
        ensures { result ≡ exit_code self }
    {
        match self {
            ExitStatus::Success => 0,
            ExitStatus::Failure => 1,
            ExitStatus::Refused => 2,
            ExitStatus::NoOutcome => 3,
        }
    }
}
