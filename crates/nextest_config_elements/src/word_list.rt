//! Words that nextest's documentation lists, and that no reader here takes.

ghost use Rattle.std.specs.Prelude.{◌≡◌};
ghost use Rattle.nextest_config_values.specs.Read.{words_of};
ghost use Rattle.nextest_config_elements.specs.WordList.{listed_words, unlisted_words};

/// What one of some words says.
#[derive(Clone, Copy)]
pub enum WordList {
    /// From which status on tests are printed while they run.
    StatusLevel,
    /// From which status on tests are printed at the end.
    FinalStatusLevel,
    /// When the output of a test is printed.
    TestOutputDisplay,
    /// How a wrapper script goes together with a target runner.
    TargetRunner,
    /// What the path of files in an archive is relative to.
    ArchiveRelativeTo,
    /// What is done where files for an archive are missing.
    ArchiveOnMissing,
}

impl WordList {
    /// The words, as a refusal lists them.
    pub fn listed(self) -> &'static [&'static str]
        ensures { words_of result.now ≡ listed_words self }
    {
        match self {
            WordList::StatusLevel => &[
                "none", "fail", "retry", "slow", "leak", "pass", "skip", "all",
            ],
            WordList::FinalStatusLevel => &[
                "none", "fail", "flaky", "slow", "skip", "leak", "pass", "all",
            ],
            WordList::TestOutputDisplay => &["immediate", "immediate-final", "final", "never"],
            WordList::TargetRunner => &[
                "ignore",
                "overrides-wrapper",
                "within-wrapper",
                "around-wrapper",
            ],
            WordList::ArchiveRelativeTo => &["target"],
            WordList::ArchiveOnMissing => &["ignore", "warn", "error"],
        }
    }

    /// The words that are taken, too, and never listed.
    pub fn unlisted(self) -> &'static [&'static str]
        ensures { words_of result.now ≡ unlisted_words self }
    {
        match self {
            WordList::FinalStatusLevel => &["retry"],
            _ => &[],
        }
    }
}
