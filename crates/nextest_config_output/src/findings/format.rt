//! The formats that findings are reported in.

ghost use Rattle.nextest_config_output.specs.Findings.Format.{format_reads_back, format_word, formats};

use nextest_config_values::read::Word;

/// How a finding is reported.
#[derive(Clone, Copy, Debug, PartialEq, Eq)]
pub enum Format {
    /// A line for people, and for tools that read `FILE:LINE:COLUMN:`.
    Human,
    /// The same line, and below it the line of the file where the finding begins, with marks.
    Full,
    /// As a command of a workflow of GitHub, which shows it at its line.
    Github,
    /// An object of JSON on a line of its own, for programs.
    Json,
}

impl Word for Format {
    ghost all = { formats };

    ghost word = { format_word };

    ghost reads_back = { format_reads_back };

    fn all() -> &'static [Self] {
        &[Format::Human, Format::Full, Format::Github, Format::Json]
    }

    fn words() -> &'static [&'static str] {
        &["human", "full", "github", "json"]
    }

    fn position(self) -> usize {
        self as usize
    }
}
