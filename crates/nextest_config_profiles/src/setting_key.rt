//! The settings of profiles by their keys, each with the type of its value.

ghost use Rattle.std.specs.Prelude.{◌≡◌, map};
ghost use Rattle.nextest_config_profiles.specs.Reach.{words_of};
ghost use Rattle.nextest_config_profiles.specs.SettingKey.{setting_keys};

use nextest_config_elements::global_timeout::GlobalTimeout;
use nextest_config_elements::junit::JunitFlakyFailStatus;
use nextest_config_elements::leak_timeout::LeakTimeout;
use nextest_config_elements::max_fail::MaxFail;
use nextest_config_elements::report_skip_policy::ReportSkipPolicy;
use nextest_config_elements::retry_policy::{FlakyResult, RetryPolicy};
use nextest_config_elements::slow_timeout::SlowTimeout;
use nextest_config_elements::threads_required::ThreadsRequired;
use std::marker::PhantomData;

/// Where a setting stands in its profile: the keys that lead to it, and the type of its value.
#[derive(Debug, Drop)]
pub struct SettingKey<T>(pub(crate) &'static [&'static str], PhantomData<T>);

pub const RETRIES: SettingKey<RetryPolicy> = SettingKey(&["retries"], PhantomData);

pub const FLAKY_RESULT: SettingKey<FlakyResult> = SettingKey(&["flaky-result"], PhantomData);

pub const THREADS_REQUIRED: SettingKey<ThreadsRequired> = SettingKey(
    &["threads-required"],
    PhantomData,
);

pub const FAIL_FAST: SettingKey<MaxFail> = SettingKey(&["fail-fast"], PhantomData);

pub const SLOW_TIMEOUT: SettingKey<SlowTimeout> = SettingKey(&["slow-timeout"], PhantomData);

pub const LEAK_TIMEOUT: SettingKey<LeakTimeout> = SettingKey(&["leak-timeout"], PhantomData);

pub const GLOBAL_TIMEOUT: SettingKey<GlobalTimeout> = SettingKey(&["global-timeout"], PhantomData);

pub const JUNIT_PATH: SettingKey<String> = SettingKey(&["junit", "path"], PhantomData);

pub const JUNIT_REPORT_NAME: SettingKey<String> = SettingKey(
    &["junit", "report-name"],
    PhantomData,
);

pub const JUNIT_STORE_SUCCESS_OUTPUT: SettingKey<bool> = SettingKey(
    &["junit", "store-success-output"],
    PhantomData,
);

pub const JUNIT_STORE_FAILURE_OUTPUT: SettingKey<bool> = SettingKey(
    &["junit", "store-failure-output"],
    PhantomData,
);

pub const JUNIT_REPORT_SKIPPED: SettingKey<ReportSkipPolicy> = SettingKey(
    &["junit", "report-skipped"],
    PhantomData,
);

pub const JUNIT_FLAKY_FAIL_STATUS: SettingKey<JunitFlakyFailStatus> = SettingKey(
    &["junit", "flaky-fail-status"],
    PhantomData,
);

pub const BENCH_SLOW_TIMEOUT: SettingKey<SlowTimeout> = SettingKey(
    &["bench", "slow-timeout"],
    PhantomData,
);

pub const BENCH_GLOBAL_TIMEOUT: SettingKey<GlobalTimeout> = SettingKey(
    &["bench", "global-timeout"],
    PhantomData,
);

/// The keys of all settings of profiles.
pub fn setting_keys() -> [&'static [&'static str]; 15]
    ensures { map (λ keys. words_of keys.now) result ≡ setting_keys }
{
    [
        RETRIES.0,
        FLAKY_RESULT.0,
        THREADS_REQUIRED.0,
        FAIL_FAST.0,
        SLOW_TIMEOUT.0,
        LEAK_TIMEOUT.0,
        GLOBAL_TIMEOUT.0,
        JUNIT_PATH.0,
        JUNIT_REPORT_NAME.0,
        JUNIT_STORE_SUCCESS_OUTPUT.0,
        JUNIT_STORE_FAILURE_OUTPUT.0,
        JUNIT_REPORT_SKIPPED.0,
        JUNIT_FLAKY_FAIL_STATUS.0,
        BENCH_SLOW_TIMEOUT.0,
        BENCH_GLOBAL_TIMEOUT.0,
    ]
}
