//! The JUnit report.

ghost use Rattle.std.specs.Prelude.{◌≡◌, None, IfErr, IfOk, IsOk, option_map};
ghost use Rattle.toml.specs.View.{table_view, view};
ghost use Rattle.nextest_config_values.specs.Read.{RefusesBy};
ghost use Rattle.nextest_config_elements.specs.Junit.{default_of, empty_table, flaky_fail_reads_back, flaky_fail_statuses, flaky_fail_word, HasText, IsFirstMissing, junit_of, junit_reading, junit_table, JunitTable, report_in, report_of, SaysAll, settings_of};

use crate::field::Absent::Inherited;
use crate::field::FaultSeverity::ErrorUnlessConverted;
use crate::field::{Field, Literal, Shape, field};
use crate::report_skip_policy::ReportSkipPolicy;
use nextest_config_values::helpers::join_path;
use nextest_config_values::read::{FromToml, ValueFault, Word, optional};
use std::alloc::{AllocError, Global};
use thiserror::Error;
use toml::{Table, Value};

const PATH_KEY: &str = "path";

const REPORT_NAME_KEY: &str = "report-name";

const STORE_SUCCESS_OUTPUT_KEY: &str = "store-success-output";

const STORE_FAILURE_OUTPUT_KEY: &str = "store-failure-output";

const REPORT_SKIPPED_KEY: &str = "report-skipped";

const FLAKY_FAIL_STATUS_KEY: &str = "flaky-fail-status";

/// How a flaky test that is to fail is reported.
#[derive(Clone, Copy, Debug, PartialEq, Eq)]
pub enum JunitFlakyFailStatus {
    /// As a failure.
    Failure,
    /// As a success.
    Success,
}

impl Default for JunitFlakyFailStatus {
    ghost use Rattle.nextest_config_elements.specs.declared.junit.JunitFlakyFailStatus.TheVariants.{Failure};

    ghost is_default = { λ it. it ≡ Failure };

    fn default() -> Self {
        JunitFlakyFailStatus::Failure
    }
}

impl Word for JunitFlakyFailStatus {
    ghost all = { flaky_fail_statuses };

    ghost word = { flaky_fail_word };

    ghost reads_back = { flaky_fail_reads_back };

    fn all() -> &'static [Self] {
        &[JunitFlakyFailStatus::Failure, JunitFlakyFailStatus::Success]
    }

    fn words() -> &'static [&'static str] {
        &["failure", "success"]
    }

    fn position(self) -> usize {
        self as usize
    }
}

/// The report that a profile writes.
#[derive(Debug, Drop)]
pub struct JunitConfig<'cfg> {
    path: String,
    report_name: &'cfg str,
    store_success_output: bool,
    store_failure_output: bool,
    report_skipped: ReportSkipPolicy,
    flaky_fail_status: JunitFlakyFailStatus,
}

impl<'cfg> JunitConfig<'cfg> {
    /// The report of these settings below the folder `store_dir`. `None`: they have no path.
    pub fn new(
        alloc: Global,
        store_dir: &str,
        settings: JunitSettings<'cfg>,
    ) -> Result<Option<Self>, AllocError>
        ensures value { IfOk result (λ config.
            option_map report_of config ≡ report_in store_dir.now (settings_of settings.entry)) }
        ensures none { (settings_of settings.entry).path ≡ None → IsOk result }
    {
        let Some(path) = settings.path else {
            return Ok(None);
        };
        let path = join_path(alloc, store_dir, path)?;
        Ok(Some(JunitConfig {
            path,
            report_name: settings.report_name,
            store_success_output: settings.store_success_output,
            store_failure_output: settings.store_failure_output,
            report_skipped: settings.report_skipped,
            flaky_fail_status: settings.flaky_fail_status,
        }))
    }

    pub fn clone(&self, _alloc: Global) -> Result<Self, AllocError>
        ensures { IfOk result (λ config. report_of config ≡ report_of self.now) }
    {
        let path = self.path.clone()?;
        Ok(JunitConfig { path, ..*self })
    }

    /// The path of the report: absolute where the folder or the setting is.
    pub fn path(&self) -> &str
        ensures { result.now ≡ (report_of self.now).path }
    {
        self.path.as_str()
    }

    pub fn report_name(&self) -> &'cfg str
        ensures { result.now ≡ (report_of self.now).name }
    {
        self.report_name
    }

    /// Whether the output of tests that passed is stored.
    pub fn store_success_output(&self) -> bool
        ensures { result ≡ (report_of self.now).stores_success_output }
    {
        self.store_success_output
    }

    /// Whether the output of tests that failed is stored.
    pub fn store_failure_output(&self) -> bool
        ensures { result ≡ (report_of self.now).stores_failure_output }
    {
        self.store_failure_output
    }

    /// Which skipped tests are reported.
    pub fn report_skipped(&self) -> ReportSkipPolicy
        ensures { result ≡ (report_of self.now).skipped }
    {
        self.report_skipped
    }

    /// How a flaky test that is to fail is reported.
    pub fn flaky_fail_status(&self) -> JunitFlakyFailStatus
        ensures { result ≡ (report_of self.now).flaky_fail_status }
    {
        self.flaky_fail_status
    }
}

/// What a profile and those that it inherits from say of the report.
#[derive(Clone, Debug, Drop)]
pub struct JunitSettings<'cfg> {
    /// The path of the report. `None`: no report.
    pub path: Option<&'cfg str>,
    pub report_name: &'cfg str,
    /// Whether the output of tests that passed is stored.
    pub store_success_output: bool,
    /// Whether the output of tests that failed is stored.
    pub store_failure_output: bool,
    /// Which skipped tests are reported.
    pub report_skipped: ReportSkipPolicy,
    /// How a flaky test that is to fail is reported.
    pub flaky_fail_status: JunitFlakyFailStatus,
}

/// What the default profile says of the report.
#[derive(Debug, Drop)]
pub struct DefaultJunitImpl {
    /// The path of the report. `None`: no report.
    pub path: Option<String>,
    pub report_name: String,
    /// Whether the output of tests that passed is stored.
    pub store_success_output: bool,
    /// Whether the output of tests that failed is stored.
    pub store_failure_output: bool,
    /// Which skipped tests are reported.
    pub report_skipped: ReportSkipPolicy,
    /// How a flaky test that is to fail is reported.
    pub flaky_fail_status: JunitFlakyFailStatus,
}

impl DefaultJunitImpl {
    /// What the table of the default profile says, which has to say all but the path.
    pub fn for_default_profile(junit: JunitImpl) -> Result<Self, MissingSetting>
        ensures complete { IfOk result (λ d. SaysAll (junit_of junit) (default_of d)) }
        ensures missing { IfErr result (IsFirstMissing (junit_of junit)) }
    {
        Ok(DefaultJunitImpl {
            path: junit.path,
            report_name: junit.report_name.ok_or(MissingSetting::ReportName)?,
            store_success_output: junit
                .store_success_output
                .ok_or(MissingSetting::StoreSuccessOutput)?,
            store_failure_output: junit
                .store_failure_output
                .ok_or(MissingSetting::StoreFailureOutput)?,
            report_skipped: junit.report_skipped.ok_or(MissingSetting::ReportSkipped)?,
            flaky_fail_status: junit
                .flaky_fail_status
                .ok_or(MissingSetting::FlakyFailStatus)?,
        })
    }

    pub fn clone(&self, _alloc: Global) -> Result<Self, AllocError>
        ensures { IfOk result (λ d. default_of d ≡ default_of self.now) }
    {
        let path = self.path.clone()?;
        let report_name = self.report_name.clone()?;
        Ok(DefaultJunitImpl {
            path,
            report_name,
            ..*self
        })
    }
}

/// A setting of the report that the default profile has to have.
#[derive(Clone, Copy, Debug, PartialEq, Eq, Error)]
pub enum MissingSetting {
    #[error("the default profile doesn't set junit.report-name")]
    ReportName,
    #[error("the default profile doesn't set junit.store-success-output")]
    StoreSuccessOutput,
    #[error("the default profile doesn't set junit.store-failure-output")]
    StoreFailureOutput,
    #[error("the default profile doesn't set junit.report-skipped")]
    ReportSkipped,
    #[error("the default profile doesn't set junit.flaky-fail-status")]
    FlakyFailStatus,
}

/// What the table of one profile says of the report.
#[derive(Debug, Drop)]
pub struct JunitImpl {
    pub path: Option<String>,
    pub report_name: Option<String>,
    /// Whether the output of tests that passed is stored.
    pub store_success_output: Option<bool>,
    /// Whether the output of tests that failed is stored.
    pub store_failure_output: Option<bool>,
    /// Which skipped tests are reported.
    pub report_skipped: Option<ReportSkipPolicy>,
    /// How a flaky test that is to fail is reported.
    pub flaky_fail_status: Option<JunitFlakyFailStatus>,
}

impl Default for JunitImpl {
    ghost is_default = { λ junit. junit_of junit ≡ empty_table };

    fn default() -> Self {
        JunitImpl {
            path: None,
            report_name: None,
            store_success_output: None,
            store_failure_output: None,
            report_skipped: None,
            flaky_fail_status: None,
        }
    }
}

impl JunitImpl {
    /// The fields of the table `junit`.
    pub const FIELDS: &'static [Field] = &[
        field!(PATH_KEY: Shape::Text, JunitPath,
            severity: ErrorUnlessConverted, absent: Inherited(Literal::Nothing)),
        field!(REPORT_NAME_KEY: Shape::Text, JunitReportName,
            severity: ErrorUnlessConverted, absent: Inherited(Literal::Text("nextest-run"))),
        field!(STORE_SUCCESS_OUTPUT_KEY: Shape::Boolean, JunitStoreSuccessOutput,
            severity: ErrorUnlessConverted, absent: Inherited(Literal::Boolean(false))),
        field!(STORE_FAILURE_OUTPUT_KEY: Shape::Boolean, JunitStoreFailureOutput,
            severity: ErrorUnlessConverted, absent: Inherited(Literal::Boolean(true))),
        field!(REPORT_SKIPPED_KEY: Shape::ReportSkipPolicy, JunitReportSkipped,
            absent: Inherited(Literal::Text("none"))),
        field!(FLAKY_FAIL_STATUS_KEY: Shape::FlakyFailStatus, JunitFlakyFailStatus,
            absent: Inherited(Literal::Text("failure"))),
    ];

    fn read_table(alloc: Global, table: &Table) -> Result<Self, ValueFault>
        ensures meant { IfOk result (λ junit.
            junit_table.means (table_view table.now) (junit_of junit)) }
        ensures refused { IfErr result (RefusesBy junit_table (table_view table.now)) }
    {
        let path: Option<String> = optional(alloc, table, PATH_KEY)?;
        let report_name: Option<String> = optional(alloc, table, REPORT_NAME_KEY)?;
        let store_success_output = optional(alloc, table, STORE_SUCCESS_OUTPUT_KEY)?;
        let store_failure_output = optional(alloc, table, STORE_FAILURE_OUTPUT_KEY)?;
        let report_skipped = optional(alloc, table, REPORT_SKIPPED_KEY)?;
        let flaky_fail_status = optional(alloc, table, FLAKY_FAIL_STATUS_KEY)?;
        Ok(JunitImpl {
            path,
            report_name,
            store_success_output,
            store_failure_output,
            report_skipped,
            flaky_fail_status,
        })
    }

    pub fn clone(&self, _alloc: Global) -> Result<Self, AllocError>
        ensures { IfOk result (λ junit. junit_of junit ≡ junit_of self.now) }
    {
        let path = self.path.clone()?;
        let report_name = self.report_name.clone()?;
        Ok(JunitImpl {
            path,
            report_name,
            ..*self
        })
    }
}

impl FromToml for JunitImpl {
    ghost Seen = { JunitTable };

    ghost seen = { junit_of };

    ghost reading = { junit_reading };

    /// Reads the table of a profile's `junit`. It takes memory for a path and for a name of the
    /// report.
    fn read_value(alloc: Global, value: &Value) -> Result<Self, ValueFault>
        ensures meant { IfOk result (λ junit.
            junit_reading.means (view value.now) (junit_of junit)) }
        ensures refused { IfErr result (RefusesBy junit_reading (view value.now)) }
        ensures texts { (said : JunitTable) → junit_reading.means (view value.now) said
            → ¬ HasText said → IsOk result }
    {
        match value.as_table() {
            Some(table) => JunitImpl::read_table(alloc, table),
            None => Err(ValueFault::invalid_type(alloc, value, "a table")),
        }
    }
}
