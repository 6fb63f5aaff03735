//! The keys of nextest's configuration file: what the value of each has to be, and what stands in
//! that. A key that a later nextest knows is one more row.

ghost use Rattle.std.specs.Prelude.{◌≡◌};
ghost use Rattle.nextest_config_elements.specs.Fields.{fields_view};
ghost use Rattle.nextest_config_elements.specs.Keys.{file_fields, override_fields, override_junit_fields, profile_fields};

use crate::field::Absent::{Inherited, OfProfile, Taken};
use crate::field::FaultSeverity::ErrorUnlessConverted;
use crate::field::{
    Field, Literal, Parts, Referent, Shape, TableRule, documented, field, of_profile,
};
use crate::junit::JunitImpl;
use crate::leak_timeout::LeakTimeout;
use crate::max_fail::MaxFail;
use crate::named::{NamedKind, ScriptKind};
use crate::purpose::Purpose;
use crate::retry_policy::RetryPolicy;
use crate::slow_timeout::SlowTimeout;
use crate::word_list::WordList;

// A file.
const FILE: &[Field] = &[
    field!("nextest-version": Shape::NextestVersion, NextestVersion,
        parts: Parts::Versions(VERSIONS)),
    field!("experimental": Shape::Experimental, Experimental, parts: Parts::Features(FEATURES)),
    field!("profile": Shape::Table, Profile, parts: PROFILES),
    documented!("store": Shape::Table, Store, parts: Parts::Fields(STORE)),
    documented!("test-groups": Shape::Table, TestGroups, parts: TEST_GROUPS),
    documented!("scripts": Shape::Table, Scripts, parts: Parts::Fields(SCRIPTS)),
    documented!("script": SCRIPTS_OF_SETUP, Script, parts: SETUP_SCRIPTS),
];

// The table `nextest-version`.
const VERSIONS: &[Field] = &[
    field!("required": Shape::VersionText, VersionRequired),
    field!("recommended": Shape::VersionText, VersionRecommended),
];

// The table `experimental`.
const FEATURES: &[Field] = &[
    field!("setup-scripts": Shape::Boolean, FeatureSetupScripts,
        absent: Taken(Literal::Boolean(false))),
    field!("wrapper-scripts": Shape::Boolean, FeatureWrapperScripts,
        absent: Taken(Literal::Boolean(false))),
    field!("benchmarks": Shape::Boolean, FeatureBenchmarks, absent: Taken(Literal::Boolean(false))),
];

// The table `store`.
const STORE: &[Field] = &[
    documented!("dir": Shape::Text, StoreDir, absent: Taken(Literal::Text("target/nextest"))),
];

const TEST_GROUPS: Parts = Parts::Names(
    Shape::RuledTable(TableRule::Definition(NamedKind::Group)),
    &Parts::Fields(GROUP),
);

// A test group.
const GROUP: &[Field] = &[
    documented!("max-threads": Shape::Threads, GroupMaxThreads, required: true),
];

// What the table of a profile and that of an override know alike.

const RETRIES: Field = field!("retries": Shape::Retries, Retries,
    parts: RetryPolicy::PARTS, absent: Inherited(Literal::Integer(0)));

const FLAKY_RESULT: Field = field!("flaky-result": Shape::FlakyResult, FlakyResult,
    absent: Inherited(Literal::Text("pass")));

const THREADS_REQUIRED: Field = field!("threads-required": Shape::ThreadsRequired, ThreadsRequired,
    absent: Inherited(Literal::Integer(1)));

const SLOW_TIMEOUT: Field = field!("slow-timeout": Shape::SlowTimeout, SlowTimeout,
    parts: Parts::Fields(SlowTimeout::FIELDS), absent: Inherited(Literal::Text("60s")));

const LEAK_TIMEOUT: Field = field!("leak-timeout": Shape::LeakTimeout, LeakTimeout,
    parts: Parts::Fields(LeakTimeout::FIELDS), absent: Inherited(Literal::Text("200ms")));

const GLOBAL_TIMEOUT: Field = field!("global-timeout": Shape::Duration, GlobalTimeout,
    absent: Inherited(Literal::Text("30y")));

const DEFAULT_FILTER: Field = documented!("default-filter": Shape::DefaultFilter, DefaultFilter,
    absent: Inherited(Literal::Text("all()")));

const RUN_EXTRA_ARGS: Field = documented!("run-extra-args": Shape::Texts, RunExtraArgs,
    parts: Parts::Elements(Shape::Text, &Parts::Nothing), absent: Inherited(Literal::EmptyArray));

const SUCCESS_OUTPUT: Field = documented!("success-output": TEST_OUTPUT_DISPLAY, SuccessOutput,
    absent: Inherited(Literal::Text("never")));

const FAILURE_OUTPUT: Field = documented!("failure-output": TEST_OUTPUT_DISPLAY, FailureOutput,
    absent: Inherited(Literal::Text("immediate")));

const TEST_OUTPUT_DISPLAY: Shape = Shape::Word(WordList::TestOutputDisplay);

const PROFILES: Parts = Parts::Names(
    Shape::RuledTable(TableRule::Profile),
    &Parts::Fields(PROFILE),
);

// A profile.
const PROFILE: &[Field] = &[
    RETRIES,
    FLAKY_RESULT,
    THREADS_REQUIRED,
    field!("fail-fast": Shape::FailFast, ProfileFailFast,
        parts: Parts::Fields(MaxFail::FIELDS), absent: Inherited(Literal::Boolean(true))),
    SLOW_TIMEOUT,
    LEAK_TIMEOUT,
    GLOBAL_TIMEOUT,
    field!("junit": Shape::Table, ProfileJunit,
        parts: Parts::Fields(JunitImpl::FIELDS), absent: Inherited(Literal::Nothing)),
    field!("bench": Shape::Table, ProfileBench,
        parts: Parts::Fields(BENCH), absent: Inherited(Literal::Nothing)),
    field!("overrides": Shape::Array, ProfileOverrides,
        parts: OVERRIDES, absent: Inherited(Literal::Nothing)),
    documented!("inherits": Shape::Reference(Referent::Parent), ProfileInherits,
        absent: Taken(Literal::Text("default"))),
    DEFAULT_FILTER,
    documented!("test-threads": Shape::Threads, ProfileTestThreads,
        absent: Inherited(Literal::Text("num-cpus"))),
    RUN_EXTRA_ARGS,
    documented!("status-level": Shape::Word(WordList::StatusLevel), ProfileStatusLevel,
        absent: Inherited(Literal::Text("pass"))),
    documented!("final-status-level": Shape::Word(WordList::FinalStatusLevel),
        ProfileFinalStatusLevel, absent: Inherited(Literal::Text("flaky"))),
    SUCCESS_OUTPUT,
    FAILURE_OUTPUT,
    documented!("scripts": Shape::Array, ProfileScripts,
        parts: SCRIPT_RULES, absent: Inherited(Literal::Nothing)),
    documented!("archive": Shape::Table, ProfileArchive,
        parts: Parts::Fields(ARCHIVE), absent: Inherited(Literal::Nothing)),
];

// The table `bench` of a profile.
const BENCH: &[Field] = &[
    Field {
        absent: Inherited(Literal::Text("30y")),
        purpose: Purpose::BenchSlowTimeout,
        ..SLOW_TIMEOUT
    },
    Field {
        purpose: Purpose::BenchGlobalTimeout,
        ..GLOBAL_TIMEOUT
    },
];

// What an override and a rule for scripts know alike.

const FILTER: Field = documented!("filter": Shape::Filter, Filter);

const PLATFORM: Field = documented!("platform": Shape::Platform, Platform,
    parts: Parts::Fields(PLATFORM_FIELDS));

const OVERRIDES: Parts = Parts::Elements(
    Shape::RuledTable(TableRule::Override),
    &Parts::Fields(OVERRIDE),
);

// An override.
const OVERRIDE: &[Field] = &[
    field!("priority": Shape::Priority, OverridePriority,
        severity: ErrorUnlessConverted, absent: Taken(Literal::Integer(0))),
    of_profile!(THREADS_REQUIRED),
    of_profile!(RETRIES),
    of_profile!(FLAKY_RESULT),
    of_profile!(SLOW_TIMEOUT),
    of_profile!(LEAK_TIMEOUT),
    field!("junit": Shape::Table, OverrideJunit,
        parts: Parts::Fields(OVERRIDE_JUNIT), absent: OfProfile),
    FILTER,
    PLATFORM,
    of_profile!(DEFAULT_FILTER),
    documented!("test-group": Shape::Reference(Referent::TEST_GROUP), OverrideTestGroup,
        absent: Taken(Literal::Text("@global"))),
    of_profile!(RUN_EXTRA_ARGS),
    of_profile!(SUCCESS_OUTPUT),
    of_profile!(FAILURE_OUTPUT),
    documented!("bench": Shape::Any, OverrideBench),
];

// The table `junit` of an override.
const OVERRIDE_JUNIT: &[Field] = &[
    field!("store-success-output": Shape::Boolean, OverrideJunitStoreSuccessOutput,
        severity: ErrorUnlessConverted, absent: OfProfile),
    field!("store-failure-output": Shape::Boolean, OverrideJunitStoreFailureOutput,
        severity: ErrorUnlessConverted, absent: OfProfile),
    field!("flaky-fail-status": Shape::FlakyFailStatus, OverrideJunitFlakyFailStatus,
        absent: OfProfile),
    documented!("path": Shape::Any, OverrideJunitPath),
    documented!("report-name": Shape::Any, OverrideJunitReportName),
    documented!("report-skipped": Shape::Any, OverrideJunitReportSkipped),
];

// The table `platform` of an override, or of a rule for scripts.
const PLATFORM_FIELDS: &[Field] = &[
    documented!("host": Shape::PlatformText, PlatformHost),
    documented!("target": Shape::PlatformText, PlatformTarget),
];

// The table `scripts`.
const SCRIPTS: &[Field] = &[
    documented!("setup": SCRIPTS_OF_SETUP, ScriptsSetup, parts: SETUP_SCRIPTS),
    documented!("wrapper": Shape::RuledTable(TableRule::Scripts(ScriptKind::Wrapper)),
        ScriptsWrapper, parts: WRAPPER_SCRIPTS),
];

const SCRIPTS_OF_SETUP: Shape = Shape::RuledTable(TableRule::Scripts(ScriptKind::Setup));

const SETUP_SCRIPTS: Parts = Parts::Names(
    Shape::RuledTable(TableRule::Definition(NamedKind::SETUP_SCRIPT)),
    &Parts::Fields(SETUP_SCRIPT),
);

const WRAPPER_SCRIPTS: Parts = Parts::Names(
    Shape::RuledTable(TableRule::Definition(NamedKind::WRAPPER_SCRIPT)),
    &Parts::Fields(WRAPPER_SCRIPT),
);

const COMMAND: Field = documented!("command": Shape::Command, Command,
    parts: Parts::ElementsOrFields(Shape::Scalar, COMMAND_FIELDS), required: true);

// A script that sets up tests.
const SETUP_SCRIPT: &[Field] = &[
    COMMAND,
    Field {
        absent: Taken(Literal::Nothing),
        purpose: Purpose::SetupScriptSlowTimeout,
        ..SLOW_TIMEOUT
    },
    Field {
        absent: Taken(Literal::Nothing),
        purpose: Purpose::SetupScriptLeakTimeout,
        ..LEAK_TIMEOUT
    },
    documented!("capture-stdout": Shape::Boolean, SetupScriptCaptureStdout,
        absent: Taken(Literal::Boolean(false))),
    documented!("capture-stderr": Shape::Boolean, SetupScriptCaptureStderr,
        absent: Taken(Literal::Boolean(false))),
    documented!("junit": Shape::Table, SetupScriptJunit, parts: Parts::Fields(SCRIPT_JUNIT)),
];

// The table `junit` of a script.
const SCRIPT_JUNIT: &[Field] = &[
    documented!("store-success-output": Shape::Boolean, ScriptJunitStoreSuccessOutput,
        absent: Taken(Literal::Boolean(true))),
    documented!("store-failure-output": Shape::Boolean, ScriptJunitStoreFailureOutput,
        absent: Taken(Literal::Boolean(true))),
];

// A script that wraps tests.
const WRAPPER_SCRIPT: &[Field] = &[
    COMMAND,
    documented!("target-runner": Shape::Word(WordList::TargetRunner), WrapperScriptTargetRunner,
        absent: Taken(Literal::Text("ignore"))),
];

// The command of a script, as a table.
const COMMAND_FIELDS: &[Field] = &[
    documented!("command-line": Shape::CommandLine, CommandCommandLine,
        parts: Parts::Elements(Shape::Scalar, &Parts::Nothing), required: true),
    documented!("env": Shape::Table, CommandEnv,
        parts: Parts::Names(Shape::Scalar, &Parts::Nothing)),
    documented!("relative-to": Shape::Text, CommandRelativeTo,
        absent: Taken(Literal::Text("none"))),
];

const SCRIPT_RULES: Parts = Parts::Elements(
    Shape::RuledTable(TableRule::ScriptRule),
    &Parts::Fields(SCRIPT_RULE),
);

// A rule that says for which tests scripts run.
const SCRIPT_RULE: &[Field] = &[
    FILTER,
    PLATFORM,
    documented!("setup": Shape::References(Referent::SETUP_SCRIPT), ScriptRuleSetup,
        parts: Parts::Elements(Shape::Reference(Referent::SETUP_SCRIPT), &Parts::Nothing),
        absent: Taken(Literal::EmptyArray)),
    documented!("list-wrapper": Shape::Reference(Referent::WRAPPER_SCRIPT), ScriptRuleListWrapper),
    documented!("run-wrapper": Shape::Reference(Referent::WRAPPER_SCRIPT), ScriptRuleRunWrapper),
];

// The table `archive` of a profile.
const ARCHIVE: &[Field] = &[documented!("include": Shape::Array, ArchiveInclude,
        parts: Parts::Elements(Shape::Table, &Parts::Fields(ARCHIVE_INCLUDE)),
        absent: Taken(Literal::EmptyArray))];

// Files that an archive has, too.
const ARCHIVE_INCLUDE: &[Field] = &[
    documented!("path": Shape::RelativePath, ArchiveIncludePath, required: true),
    documented!("relative-to": Shape::Word(WordList::ArchiveRelativeTo), ArchiveIncludeRelativeTo,
        required: true),
    documented!("depth": Shape::Depth, ArchiveIncludeDepth, absent: Taken(Literal::Integer(16))),
    documented!("on-missing": Shape::Word(WordList::ArchiveOnMissing), ArchiveIncludeOnMissing,
        absent: Taken(Literal::Text("warn"))),
];

/// The fields of a file.
pub fn file_fields() -> &'static [Field]
    ensures { fields_view result.now ≡ file_fields }
{
    FILE
}

/// The fields of a profile.
pub fn profile_fields() -> &'static [Field]
    ensures { fields_view result.now ≡ profile_fields }
{
    PROFILE
}

/// The fields of an override.
pub fn override_fields() -> &'static [Field]
    ensures { fields_view result.now ≡ override_fields }
{
    OVERRIDE
}

/// The fields of the table `junit` of an override.
pub fn override_junit_fields() -> &'static [Field]
    ensures { fields_view result.now ≡ override_junit_fields }
{
    OVERRIDE_JUNIT
}
