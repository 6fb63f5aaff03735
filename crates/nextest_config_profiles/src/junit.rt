//! The report of a profile.

ghost use Rattle.std.specs.Prelude.{◌≡◌, ℕ, IfErr, IfOk, List, MatchOption, Option, option_map, string_bytes};
ghost use Rattle.nextest_config_elements.specs.Junit.{Report, report_in, report_of, settings_of};
ghost use Rattle.nextest_config_profiles.specs.Junit.{GetsJunit, IsJunitFault, path_in, SaysNone, SaysReport, value_in};

use crate::effective::Effective;
use crate::profile::EffectiveProfile;
use crate::setting_key::{
    JUNIT_FLAKY_FAIL_STATUS, JUNIT_PATH, JUNIT_REPORT_NAME, JUNIT_REPORT_SKIPPED,
    JUNIT_STORE_FAILURE_OUTPUT, JUNIT_STORE_SUCCESS_OUTPUT,
};
use nextest_config_elements::junit::{JunitConfig, JunitFlakyFailStatus, JunitSettings};
use nextest_config_elements::report_skip_policy::ReportSkipPolicy;
use std::alloc::{AllocError, Global};

/// What a profile gets of the settings of its report.
#[derive(Debug, Drop)]
pub struct EffectiveJunit<'p> {
    /// The path of the report.
    pub path: Effective<'p, String>,
    pub report_name: Effective<'p, String>,
    /// Whether the output of tests that passed is stored.
    pub store_success_output: Effective<'p, bool>,
    /// Whether the output of tests that failed is stored.
    pub store_failure_output: Effective<'p, bool>,
    /// Which skipped tests are reported.
    pub report_skipped: Effective<'p, ReportSkipPolicy>,
    /// How a flaky test that is to fail is reported.
    pub flaky_fail_status: Effective<'p, JunitFlakyFailStatus>,
}

/// Why it isn't known what report a profile writes.
#[derive(Clone, Copy, Debug, PartialEq, Eq)]
pub enum JunitFault {
    /// A setting has no value that is judged. Nothing may give the path.
    NotGiven,
    Memory,
}

impl From<AllocError> for JunitFault {
    ghost use Rattle.std.specs.Prelude.{◌≡◌};
    ghost use Rattle.nextest_config_profiles.specs.declared.junit.JunitFault.TheVariants.{Memory};

    ghost from_gives = { λ _ fault. fault ≡ Memory };

    fn from(_: AllocError) -> Self {
        JunitFault::Memory
    }
}

impl EffectiveProfile<'_> {
    /// What the profile gets of the settings of its report.
    pub fn junit(&self, alloc: Global) -> Result<EffectiveJunit<'_>, AllocError>
        ensures { IfOk result (GetsJunit self.now) }
    {
        Ok(EffectiveJunit {
            path: self.get(alloc, &JUNIT_PATH)?,
            report_name: self.get(alloc, &JUNIT_REPORT_NAME)?,
            store_success_output: self.get(alloc, &JUNIT_STORE_SUCCESS_OUTPUT)?,
            store_failure_output: self.get(alloc, &JUNIT_STORE_FAILURE_OUTPUT)?,
            report_skipped: self.get(alloc, &JUNIT_REPORT_SKIPPED)?,
            flaky_fail_status: self.get(alloc, &JUNIT_FLAKY_FAIL_STATUS)?,
        })
    }
}

impl EffectiveJunit<'_> {
    /// The report below the folder `store_dir`. `None`: nothing gives it a path.
    pub fn config(
        &self,
        alloc: Global,
        store_dir: &str,
    ) -> Result<Option<JunitConfig<'_>>, JunitFault>
        ensures value { IfOk result (λ config. (report : Report (Option (List ℕ)))
            × SaysReport self.now report
            × (option_map report_of config ≡ report_in store_dir.now report)) }
        ensures fault { IfErr result (IsJunitFault self.now) }
    {
        let Some(settings) = self.settings() else {
            return Err(JunitFault::NotGiven);
        };
        let config = JunitConfig::new(alloc, store_dir, settings)?;
        Ok(config)
    }

    /// The settings of the report, if each but the path has a value.
    pub fn settings(&self) -> Option<JunitSettings<'_>>
        ensures { MatchOption result (SaysNone self.now)
            (λ settings. SaysReport self.now (settings_of settings)) }
    {
        Some(JunitSettings {
            path: path_in(&self.path)?,
            report_name: value_in(&self.report_name)?.as_str(),
            store_success_output: *value_in(&self.store_success_output)?,
            store_failure_output: *value_in(&self.store_failure_output)?,
            report_skipped: *value_in(&self.report_skipped)?,
            flaky_fail_status: *value_in(&self.flaky_fail_status)?,
        })
    }
}

// The value that is given.
fn value_in<'a, T: Drop>(given: &'a Effective<'_, T>) -> Option<&'a T>
    ensures { option_map (λ value. value.now) result ≡ value_in given.now }
{
    match given {
        Effective::Value { value, .. } => Some(value),
        _ => None,
    }
}

// The path that is given, or that nothing gives one.
fn path_in<'a>(given: &'a Effective<'_, String>) -> Option<Option<&'a str>>
    ensures { option_map (option_map (λ path. path.now)) result
        ≡ option_map (option_map string_bytes) (path_in given.now) }
{
    match given {
        Effective::Value { value, .. } => Some(Some(value.as_str())),
        Effective::Nothing => Some(None),
        _ => None,
    }
}
