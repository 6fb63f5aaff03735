//! What each key is for, and a value that it may have.

/// What a key is for, by the place that it stands in.
#[derive(Clone, Copy, Debug, PartialEq, Eq)]
pub enum Purpose {
    /// Of no key.
    Unsaid,
    NextestVersion,
    Experimental,
    Profile,
    Store,
    TestGroups,
    Scripts,
    Script,
    VersionRequired,
    VersionRecommended,
    FeatureSetupScripts,
    FeatureWrapperScripts,
    FeatureBenchmarks,
    StoreDir,
    GroupMaxThreads,
    Retries,
    FlakyResult,
    ThreadsRequired,
    SlowTimeout,
    LeakTimeout,
    GlobalTimeout,
    DefaultFilter,
    RunExtraArgs,
    SuccessOutput,
    FailureOutput,
    ProfileFailFast,
    ProfileJunit,
    ProfileBench,
    ProfileOverrides,
    ProfileInherits,
    ProfileTestThreads,
    ProfileStatusLevel,
    ProfileFinalStatusLevel,
    ProfileScripts,
    ProfileArchive,
    BenchSlowTimeout,
    BenchGlobalTimeout,
    Filter,
    Platform,
    OverridePriority,
    OverrideJunit,
    OverrideTestGroup,
    OverrideBench,
    OverrideJunitStoreSuccessOutput,
    OverrideJunitStoreFailureOutput,
    OverrideJunitFlakyFailStatus,
    OverrideJunitPath,
    OverrideJunitReportName,
    OverrideJunitReportSkipped,
    PlatformHost,
    PlatformTarget,
    ScriptsSetup,
    ScriptsWrapper,
    Command,
    SetupScriptSlowTimeout,
    SetupScriptLeakTimeout,
    SetupScriptCaptureStdout,
    SetupScriptCaptureStderr,
    SetupScriptJunit,
    ScriptJunitStoreSuccessOutput,
    ScriptJunitStoreFailureOutput,
    WrapperScriptTargetRunner,
    CommandCommandLine,
    CommandEnv,
    CommandRelativeTo,
    ScriptRuleSetup,
    ScriptRuleListWrapper,
    ScriptRuleRunWrapper,
    ArchiveInclude,
    ArchiveIncludePath,
    ArchiveIncludeRelativeTo,
    ArchiveIncludeDepth,
    ArchiveIncludeOnMissing,
    RetriesBackoff,
    RetriesCount,
    RetriesDelay,
    RetriesJitter,
    RetriesMaxDelay,
    SlowTimeoutPeriod,
    SlowTimeoutTerminateAfter,
    SlowTimeoutGracePeriod,
    SlowTimeoutOnTimeout,
    LeakTimeoutPeriod,
    LeakTimeoutResult,
    FailFastMaxFail,
    FailFastTerminate,
    JunitPath,
    JunitReportName,
    JunitStoreSuccessOutput,
    JunitStoreFailureOutput,
    JunitReportSkipped,
    JunitFlakyFailStatus,
}

/// What is said of a key.
#[derive(Clone, Copy, Debug, PartialEq, Eq)]
pub struct Said {
    /// What it is for, in one sentence.
    pub sentence: &'static str,
    /// A value that it may have, as TOML writes it.
    pub example: &'static str,
}

impl Purpose {
    /// What is said of a key of this purpose.
    pub fn said(self) -> Said {
        Said {
            sentence: self.sentence(),
            example: self.example(),
        }
    }

    fn sentence(self) -> &'static str {
        match self {
            Purpose::Unsaid => "",
            Purpose::NextestVersion => "The version of nextest that the repository asks for.",
            Purpose::Experimental => "The experimental features that are enabled.",
            Purpose::Profile => "The profiles, by their names.",
            Purpose::Store => "Where nextest keeps what it writes.",
            Purpose::TestGroups => {
                "Groups of tests that share a number of threads, by their names."
            }
            Purpose::Scripts => "Scripts that set up tests or wrap them.",
            Purpose::Script => {
                "Scripts that set up tests, by their names: an older form of `scripts.setup`."
            }
            Purpose::VersionRequired => "The version without which nextest refuses to run.",
            Purpose::VersionRecommended => "The version without which nextest warns.",
            Purpose::FeatureSetupScripts => "Whether scripts that set up tests are enabled.",
            Purpose::FeatureWrapperScripts => "Whether scripts that wrap tests are enabled.",
            Purpose::FeatureBenchmarks => "Whether benchmarks can be run.",
            Purpose::StoreDir => {
                "The folder where nextest keeps what it writes, below the root of the workspace."
            }
            Purpose::GroupMaxThreads => {
                "How many threads the tests of the group take together at most."
            }
            Purpose::Retries => "How often a failed test is run again, and after which delay.",
            Purpose::FlakyResult => "What becomes of a test that passes only when it is run again.",
            Purpose::ThreadsRequired => "How many of the threads for tests each test takes.",
            Purpose::SlowTimeout => {
                "After how long a test is slow, and when a slow test is terminated."
            }
            Purpose::LeakTimeout => {
                "How long nextest waits for what a test has started, once the test itself has \
                ended."
            }
            Purpose::GlobalTimeout => "After how long a whole run is terminated.",
            Purpose::DefaultFilter => "Which tests are run where the command line doesn't say.",
            Purpose::RunExtraArgs => "Arguments that are passed to each test binary.",
            Purpose::SuccessOutput => "When the output of a test that passes is printed.",
            Purpose::FailureOutput => "When the output of a test that fails is printed.",
            Purpose::ProfileFailFast => "After how many failures a run ends.",
            Purpose::ProfileJunit => "The JUnit report of a run.",
            Purpose::ProfileBench => "Timeouts of benchmarks.",
            Purpose::ProfileOverrides => {
                "Settings for some of the tests; the first that applies and sets a key wins."
            }
            Purpose::ProfileInherits => {
                "The profile whose settings stand for those that this one doesn't have."
            }
            Purpose::ProfileTestThreads => "How many tests are run at once.",
            Purpose::ProfileStatusLevel => {
                "Which tests are printed while they run: those of this status, and of the ones \
                listed before it."
            }
            Purpose::ProfileFinalStatusLevel => {
                "Which tests are printed at the end: those of this status, and of the ones \
                listed before it."
            }
            Purpose::ProfileScripts => "Which scripts are run for which tests.",
            Purpose::ProfileArchive => "What archives of tests have besides the tests.",
            Purpose::BenchSlowTimeout => {
                "After how long a benchmark is slow, and when a slow one is terminated."
            }
            Purpose::BenchGlobalTimeout => {
                "After how long a whole run of benchmarks is terminated."
            }
            Purpose::Filter => "For which tests this is, as an expression.",
            Purpose::Platform => "For which platforms this is.",
            Purpose::OverridePriority => {
                "Tests with a greater priority, from -100 to 100, are run earlier."
            }
            Purpose::OverrideJunit => "What the JUnit report keeps of these tests.",
            Purpose::OverrideTestGroup => "The group that these tests belong to.",
            Purpose::OverrideBench => "Settings for benchmarks.",
            Purpose::OverrideJunitStoreSuccessOutput => {
                "Whether the report keeps the output of tests that pass."
            }
            Purpose::OverrideJunitStoreFailureOutput => {
                "Whether the report keeps the output of tests that fail."
            }
            Purpose::OverrideJunitFlakyFailStatus => {
                "How the report tells of a flaky test that is to fail."
            }
            Purpose::OverrideJunitPath => "Has no meaning in an override: a report has one path.",
            Purpose::OverrideJunitReportName => {
                "Has no meaning in an override: a report has one name."
            }
            Purpose::OverrideJunitReportSkipped => "Has no meaning in an override.",
            Purpose::PlatformHost => "The platform on which tests are built.",
            Purpose::PlatformTarget => "The platform on which tests are run.",
            Purpose::ScriptsSetup => "Scripts that set up tests, by their names.",
            Purpose::ScriptsWrapper => "Scripts that wrap tests, by their names.",
            Purpose::Command => "What is run.",
            Purpose::SetupScriptSlowTimeout => {
                "After how long the script is slow, and when a slow one is terminated."
            }
            Purpose::SetupScriptLeakTimeout => {
                "How long nextest waits for what the script has started, once it has ended."
            }
            Purpose::SetupScriptCaptureStdout => {
                "Whether what the script writes to standard output is captured."
            }
            Purpose::SetupScriptCaptureStderr => {
                "Whether what the script writes to standard error is captured."
            }
            Purpose::SetupScriptJunit => "What the JUnit report keeps of the script.",
            Purpose::ScriptJunitStoreSuccessOutput => {
                "Whether the report keeps the output of the script where it succeeds."
            }
            Purpose::ScriptJunitStoreFailureOutput => {
                "Whether the report keeps the output of the script where it fails."
            }
            Purpose::WrapperScriptTargetRunner => {
                "How the script goes together with a target runner."
            }
            Purpose::CommandCommandLine => "What is run: a program with its arguments.",
            Purpose::CommandEnv => {
                "Environment variables that are set for the command, by their names."
            }
            Purpose::CommandRelativeTo => "The folder that the program is looked up in.",
            Purpose::ScriptRuleSetup => "The scripts that set up these tests.",
            Purpose::ScriptRuleListWrapper => {
                "The script that wraps each binary of these tests where it is to list them."
            }
            Purpose::ScriptRuleRunWrapper => {
                "The script that wraps each of these tests where it is run."
            }
            Purpose::ArchiveInclude => "Files and folders that an archive of tests has, too.",
            Purpose::ArchiveIncludePath => {
                "The file or folder, by a path that leads upwards nowhere."
            }
            Purpose::ArchiveIncludeRelativeTo => "What the path is relative to.",
            Purpose::ArchiveIncludeDepth => "How many folders deep a folder is gone into.",
            Purpose::ArchiveIncludeOnMissing => {
                "What is done where there is no such file or folder."
            }
            Purpose::RetriesBackoff => {
                "Whether the delay stays the same or grows from retry to retry."
            }
            Purpose::RetriesCount => "How often a failed test is run again.",
            Purpose::RetriesDelay => {
                "How long nextest waits before the first retry; an exponential backoff needs one."
            }
            Purpose::RetriesJitter => "Whether the delay is varied at random.",
            Purpose::RetriesMaxDelay => "The greatest delay, however many retries there were.",
            Purpose::SlowTimeoutPeriod => {
                "After how long a test is slow; each further period counts for `terminate-after`."
            }
            Purpose::SlowTimeoutTerminateAfter => {
                "After how many periods a slow test is terminated."
            }
            Purpose::SlowTimeoutGracePeriod => {
                "How long a test that is terminated has until it is killed."
            }
            Purpose::SlowTimeoutOnTimeout => "What becomes of a slow test that is terminated.",
            Purpose::LeakTimeoutPeriod => "How long nextest waits for what a test has started.",
            Purpose::LeakTimeoutResult => "What becomes of a test that leaves something running.",
            Purpose::FailFastMaxFail => "After how many failures a run ends.",
            Purpose::FailFastTerminate => "What happens to tests that run when it ends.",
            Purpose::JunitPath => {
                "The file that the report is written to, below the folder of the profile."
            }
            Purpose::JunitReportName => "The name of the report.",
            Purpose::JunitStoreSuccessOutput => {
                "Whether the report keeps the output of tests that pass."
            }
            Purpose::JunitStoreFailureOutput => {
                "Whether the report keeps the output of tests that fail."
            }
            Purpose::JunitReportSkipped => "Which of the tests that are skipped the report has.",
            Purpose::JunitFlakyFailStatus => {
                "How the report tells of a flaky test that is to fail."
            }
        }
    }

    fn example(self) -> &'static str {
        match self {
            Purpose::Unsaid => "",
            Purpose::NextestVersion => r#""0.9.100""#,
            Purpose::Experimental => "{ setup-scripts = true }",
            Purpose::Profile => "{ ci = { retries = 2 } }",
            Purpose::Store => r#"{ dir = "target/nextest" }"#,
            Purpose::TestGroups => "{ serial = { max-threads = 1 } }",
            Purpose::Scripts => r#"{ setup = { db = { command = "start-db" } } }"#,
            Purpose::Script => r#"{ db = { command = "start-db" } }"#,
            Purpose::VersionRequired => r#""0.9.55""#,
            Purpose::VersionRecommended => r#""0.9.70""#,
            Purpose::FeatureSetupScripts => "true",
            Purpose::FeatureWrapperScripts => "true",
            Purpose::FeatureBenchmarks => "true",
            Purpose::StoreDir => r#""target/nextest""#,
            Purpose::GroupMaxThreads => "1",
            Purpose::Retries => "2",
            Purpose::FlakyResult => r#""fail""#,
            Purpose::ThreadsRequired => "2",
            Purpose::SlowTimeout => r#"{ period = "60s", terminate-after = 2 }"#,
            Purpose::LeakTimeout => r#""500ms""#,
            Purpose::GlobalTimeout => r#""2h""#,
            Purpose::DefaultFilter => r#""not test(slow)""#,
            Purpose::RunExtraArgs => r#"["--nocapture"]"#,
            Purpose::SuccessOutput => r#""final""#,
            Purpose::FailureOutput => r#""immediate-final""#,
            Purpose::ProfileFailFast => "{ max-fail = 5 }",
            Purpose::ProfileJunit => r#"{ path = "junit.xml" }"#,
            Purpose::ProfileBench => r#"{ global-timeout = "2h" }"#,
            Purpose::ProfileOverrides => "[{ filter = 'test(network)', retries = 3 }]",
            Purpose::ProfileInherits => r#""default""#,
            Purpose::ProfileTestThreads => "4",
            Purpose::ProfileStatusLevel => r#""slow""#,
            Purpose::ProfileFinalStatusLevel => r#""slow""#,
            Purpose::ProfileScripts => r#"[{ filter = 'package(db)', setup = "db" }]"#,
            Purpose::ProfileArchive => {
                r#"{ include = [{ path = "data", relative-to = "target" }] }"#
            }
            Purpose::BenchSlowTimeout => r#""10m""#,
            Purpose::BenchGlobalTimeout => r#""2h""#,
            Purpose::Filter => r#""test(network)""#,
            Purpose::Platform => r#""cfg(unix)""#,
            Purpose::OverridePriority => "50",
            Purpose::OverrideJunit => "{ store-success-output = true }",
            Purpose::OverrideTestGroup => r#""serial""#,
            Purpose::OverrideBench => "{ }",
            Purpose::OverrideJunitStoreSuccessOutput => "true",
            Purpose::OverrideJunitStoreFailureOutput => "false",
            Purpose::OverrideJunitFlakyFailStatus => r#""success""#,
            Purpose::OverrideJunitPath => r#""junit.xml""#,
            Purpose::OverrideJunitReportName => r#""nextest-run""#,
            Purpose::OverrideJunitReportSkipped => r#""none""#,
            Purpose::PlatformHost => r#""cfg(unix)""#,
            Purpose::PlatformTarget => r#""cfg(windows)""#,
            Purpose::ScriptsSetup => r#"{ db = { command = "start-db" } }"#,
            Purpose::ScriptsWrapper => r#"{ profiler = { command = "perf record" } }"#,
            Purpose::Command => r#""start-db --port 5432""#,
            Purpose::SetupScriptSlowTimeout => r#""30s""#,
            Purpose::SetupScriptLeakTimeout => r#""1s""#,
            Purpose::SetupScriptCaptureStdout => "true",
            Purpose::SetupScriptCaptureStderr => "true",
            Purpose::SetupScriptJunit => "{ store-success-output = false }",
            Purpose::ScriptJunitStoreSuccessOutput => "false",
            Purpose::ScriptJunitStoreFailureOutput => "false",
            Purpose::WrapperScriptTargetRunner => r#""within-wrapper""#,
            Purpose::CommandCommandLine => r#"["start-db", "--port", "5432"]"#,
            Purpose::CommandEnv => r#"{ PORT = "5432" }"#,
            Purpose::CommandRelativeTo => r#""workspace-root""#,
            Purpose::ScriptRuleSetup => r#"["db", "server"]"#,
            Purpose::ScriptRuleListWrapper => r#""profiler""#,
            Purpose::ScriptRuleRunWrapper => r#""profiler""#,
            Purpose::ArchiveInclude => r#"[{ path = "data", relative-to = "target" }]"#,
            Purpose::ArchiveIncludePath => r#""data""#,
            Purpose::ArchiveIncludeRelativeTo => r#""target""#,
            Purpose::ArchiveIncludeDepth => r#""infinite""#,
            Purpose::ArchiveIncludeOnMissing => r#""error""#,
            Purpose::RetriesBackoff => r#""exponential""#,
            Purpose::RetriesCount => "3",
            Purpose::RetriesDelay => r#""1s""#,
            Purpose::RetriesJitter => "true",
            Purpose::RetriesMaxDelay => r#""10s""#,
            Purpose::SlowTimeoutPeriod => r#""60s""#,
            Purpose::SlowTimeoutTerminateAfter => "3",
            Purpose::SlowTimeoutGracePeriod => r#""5s""#,
            Purpose::SlowTimeoutOnTimeout => r#""pass""#,
            Purpose::LeakTimeoutPeriod => r#""500ms""#,
            Purpose::LeakTimeoutResult => r#""fail""#,
            Purpose::FailFastMaxFail => "5",
            Purpose::FailFastTerminate => r#""immediate""#,
            Purpose::JunitPath => r#""junit.xml""#,
            Purpose::JunitReportName => r#""my-project""#,
            Purpose::JunitStoreSuccessOutput => "true",
            Purpose::JunitStoreFailureOutput => "false",
            Purpose::JunitReportSkipped => r#""all""#,
            Purpose::JunitFlakyFailStatus => r#""success""#,
        }
    }
}
