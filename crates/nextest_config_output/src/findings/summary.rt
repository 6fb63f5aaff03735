//! How many findings there are.

ghost use Rattle.std.specs.Prelude.{◌≡◌, Some};
ghost use Rattle.nextest_config_output.specs.Findings.Summary.{counted, plural_ending, summary_text};

use std::fmt;

/// How many findings there are, and in how many files.
#[derive(Clone, Copy, Debug, PartialEq, Eq)]
pub struct Summary {
    pub errors: usize,
    pub warnings: usize,
    pub notes: usize,
    pub files: usize,
}

impl fmt::Display for Summary {
    ghost output = { λ summary. Some (summary_text summary) };

    fn fmt<W: fmt::Write>(&self, f: &mut fmt::Formatter<W>) -> fmt::Result {
        let errors = Counted(self.errors, "error");
        let warnings = Counted(self.warnings, "warning");
        let notes = Counted(self.notes, "note");
        let files = Counted(self.files, "file");
        write!(f, "found {errors}, {warnings} and {notes} in {files}")
    }
}

/// So many of what a noun names.
#[derive(Clone, Copy)]
struct Counted<'a>(usize, &'a str);

impl fmt::Display for Counted<'_> {
    ghost output = { λ it. Some (counted it.0 it.1.now) };

    fn fmt<W: fmt::Write>(&self, f: &mut fmt::Formatter<W>) -> fmt::Result {
        let Counted(count, noun) = *self;
        write!(f, "{count} {noun}{}", plural_ending(count))
    }
}

// What makes a noun one of so many.
fn plural_ending(count: usize) -> &'static str
    ensures { result.now ≡ plural_ending count }
{
    if count == 1 { "" } else { "s" }
}
