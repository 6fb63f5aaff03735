//! The report of skipped tests.

ghost use Rattle.std.specs.Prelude.{◌≡◌, ◌↔◌, IsTrue};
ghost use Rattle.nextest_config_elements.specs.ReportSkipPolicy.{IsIgnoreMismatch, IsReported, IsSubstantiveSkip, report_skip_policies, report_skip_reads_back, report_skip_word};

use nextest_config_values::read::Word;

/// Which skipped tests are reported.
#[derive(Clone, Copy, Debug, PartialEq, Eq)]
pub enum ReportSkipPolicy {
    /// None of them, so that reports stay as they are.
    None,
    /// Tests whose ignore status isn't the one asked for.
    Ignored,
    /// All but those that are no benchmarks where benchmarks are run. Where a run has several
    /// partitions, each reports the tests of the others as skipped.
    All,
}

impl ReportSkipPolicy {
    /// Whether a test that is skipped for this reason is reported.
    pub fn should_report(self, reason: MismatchReason) -> bool
        ensures { IsTrue result ↔ IsReported self reason }
    {
        match self {
            ReportSkipPolicy::None => false,
            ReportSkipPolicy::Ignored => reason.is_ignore_mismatch(),
            ReportSkipPolicy::All => reason.is_substantive_skip(),
        }
    }
}

impl Default for ReportSkipPolicy {
    ghost use Rattle.nextest_config_elements.specs.declared.report_skip_policy.ReportSkipPolicy.TheVariants.{None};

    ghost is_default = { λ it. it ≡ None };

    fn default() -> Self {
        ReportSkipPolicy::None
    }
}

impl Word for ReportSkipPolicy {
    ghost all = { report_skip_policies };

    ghost word = { report_skip_word };

    ghost reads_back = { report_skip_reads_back };

    fn all() -> &'static [Self] {
        &[
            ReportSkipPolicy::None,
            ReportSkipPolicy::Ignored,
            ReportSkipPolicy::All,
        ]
    }

    fn words() -> &'static [&'static str] {
        &["none", "ignored", "all"]
    }

    fn position(self) -> usize {
        self as usize
    }
}

/// Why a test is skipped.
#[derive(Clone, Copy, Debug, PartialEq, Eq)]
pub enum MismatchReason {
    /// Its ignore status isn't the one asked for.
    Ignored,
    /// The profile's default filter leaves it out.
    DefaultFilter,
    /// It is no benchmark, and benchmarks are run.
    NotBenchmark,
}

impl MismatchReason {
    /// Every reason.
    pub const ALL_VARIANTS: &'static [Self] = &[
        MismatchReason::Ignored,
        MismatchReason::DefaultFilter,
        MismatchReason::NotBenchmark,
    ];

    /// Whether the reason is the test's ignore status.
    pub fn is_ignore_mismatch(self) -> bool
        ensures { IsTrue result ↔ IsIgnoreMismatch self }
    {
        self == MismatchReason::Ignored
    }

    /// Whether the test is one that this kind of run would run.
    pub fn is_substantive_skip(self) -> bool
        ensures { IsTrue result ↔ IsSubstantiveSkip self }
    {
        self != MismatchReason::NotBenchmark
    }
}
