//! What is read of a TOML value, at the path that a call names last.

use crate::answers::{done, made, text, unknown, written};
use crate::failure::Failure;
use crate::files::lists::given;
use crate::runner::Runner;
use crate::told::{Told, answered};
use crate::values::FromRow;
use nextest_config_elements::global_timeout::GlobalTimeout;
use nextest_config_elements::junit::{JunitFlakyFailStatus, JunitImpl};
use nextest_config_elements::leak_timeout::{
    LeakTimeout, LeakTimeoutResult, deserialize_leak_timeout,
};
use nextest_config_elements::max_fail::{MaxFail, TerminateMode, deserialize_fail_fast};
use nextest_config_elements::priority::TestPriority;
use nextest_config_elements::report_skip_policy::ReportSkipPolicy;
use nextest_config_elements::retry_policy::{FlakyResult, RetryPolicy, deserialize_retry_policy};
use nextest_config_elements::slow_timeout::{
    SlowTimeout, SlowTimeoutResult, deserialize_slow_timeout,
};
use nextest_config_elements::test_threads::TestThreads;
use nextest_config_elements::threads_required::ThreadsRequired;
use nextest_config_profiles::EffectiveProfile;
use nextest_config_values::helpers::deserialize_relative_path;
use nextest_config_values::identifier::{ConfigIdentifier, ToolName};
use nextest_config_values::read::{FromToml, NonZeroCount, Word};
use nextest_config_values::track_default::TrackDefault;
use std::fmt::Debug;
use std::time::Duration;
use toml::Value;

/// What the reader of a type reads.
pub fn readers(rt: &Runner, call: &str, input: &str) -> Result<String, Failure> {
    let (name, at) = call.rsplit_once(' ').unwrap_or((call, ""));
    value_of(rt, name, &Value::from_row(rt, input)?, at)
}

fn value_of(rt: &Runner, name: &str, value: &Value, at: &str) -> Result<String, Failure> {
    match name {
        "bool" => read::<bool>(rt, value, at),
        "u32" => read::<u32>(rt, value, at),
        "String" => read::<String>(rt, value, at),
        "NonZeroCount" => read::<NonZeroCount>(rt, value, at),
        "Duration" => read::<Duration>(rt, value, at),
        "TrackDefault u32" => read::<TrackDefault<u32>>(rt, value, at),
        "TrackDefault bool" => read::<TrackDefault<bool>>(rt, value, at),
        "TrackDefault String" => read::<TrackDefault<String>>(rt, value, at),
        "TrackDefault Duration" => read::<TrackDefault<Duration>>(rt, value, at),
        "ConfigIdentifier" => read::<ConfigIdentifier>(rt, value, at),
        "ToolName" => read::<ToolName>(rt, value, at),
        "relative path" => text(rt, deserialize_relative_path(rt.call(), value, at)),
        _ => setting(rt, name, value, at),
    }
}

fn read<T: FromToml + Debug + Drop>(
    rt: &Runner,
    value: &Value,
    at: &str,
) -> Result<String, Failure> {
    made(rt, T::read(rt.call(), value, at))
}

fn setting(rt: &Runner, name: &str, value: &Value, at: &str) -> Result<String, Failure> {
    match name {
        "fail-fast" => made(rt, deserialize_fail_fast(rt.call(), value, at)),
        "global-timeout" => read::<GlobalTimeout>(rt, value, at),
        "junit" => read::<JunitImpl>(rt, value, at),
        "leak-timeout" => made(rt, deserialize_leak_timeout(rt.call(), value, at)),
        "priority" => read::<TestPriority>(rt, value, at),
        "retries" => made(rt, deserialize_retry_policy(rt.call(), value, at)),
        "slow-timeout" => made(rt, deserialize_slow_timeout(rt.call(), value, at)),
        "test-threads" => read::<TestThreads>(rt, value, at),
        "threads-required" => read::<ThreadsRequired>(rt, value, at),
        "ThreadsRequired::compute" => computed(rt, value, at),
        _ => unknown(rt, name),
    }
}

// So many threads, of 1 that runs tests and 8 processors.
fn computed(rt: &Runner, value: &Value, at: &str) -> Result<String, Failure> {
    let threads = done(rt, ThreadsRequired::read(rt.alloc(), value, at))?;
    rt.begin();
    written(rt, threads.compute(1, 8))
}

/// What a profile gets for the setting at a path.
pub fn of_profile(
    rt: &Runner,
    profile: &EffectiveProfile<'_>,
    path: &str,
) -> Result<String, Failure> {
    match path {
        "retries" => given::<RetryPolicy>(rt, profile, path),
        "flaky-result" => given::<FlakyResult>(rt, profile, path),
        "threads-required" => given::<ThreadsRequired>(rt, profile, path),
        "fail-fast" => given::<MaxFail>(rt, profile, path),
        "slow-timeout" | "bench.slow-timeout" => given::<SlowTimeout>(rt, profile, path),
        "leak-timeout" => given::<LeakTimeout>(rt, profile, path),
        "global-timeout" | "bench.global-timeout" => given::<GlobalTimeout>(rt, profile, path),
        "junit.path" | "junit.report-name" => given::<String>(rt, profile, path),
        "junit.store-success-output" | "junit.store-failure-output" => {
            given::<bool>(rt, profile, path)
        }
        "junit.report-skipped" => given::<ReportSkipPolicy>(rt, profile, path),
        "junit.flaky-fail-status" => given::<JunitFlakyFailStatus>(rt, profile, path),
        _ => unknown(rt, path),
    }
}

/// What a type of words reads at `p`, with its word.
pub fn words(rt: &Runner, call: &str, input: &str) -> Result<String, Failure> {
    match call {
        "FlakyResult" => read_word::<FlakyResult>(rt, input),
        "JunitFlakyFailStatus" => read_word::<JunitFlakyFailStatus>(rt, input),
        "LeakTimeoutResult" => read_word::<LeakTimeoutResult>(rt, input),
        "ReportSkipPolicy" => read_word::<ReportSkipPolicy>(rt, input),
        "SlowTimeoutResult" => read_word::<SlowTimeoutResult>(rt, input),
        "TerminateMode" => read_word::<TerminateMode>(rt, input),
        _ => unknown(rt, call),
    }
}

// A word, which is told beside its value.
#[derive(Drop)]
struct Named<T>(T);

impl<T: Word + Debug> Told for Named<T> {
    fn told(&self, rt: &Runner, _call: &str) -> Result<String, Failure> {
        let word = self.0.as_word();
        rt.end();
        done(rt, format!(in rt.alloc(); "{:?} {word}", self.0))
    }
}

fn read_word<T: Word + Debug>(rt: &Runner, input: &str) -> Result<String, Failure> {
    let value = Value::from_row(rt, input)?;
    answered(rt, "", T::read(rt.call(), &value, "p").map(Named))
}
