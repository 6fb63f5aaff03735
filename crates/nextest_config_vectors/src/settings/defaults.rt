//! What types have at first.

use crate::answers::{unknown, written};
use crate::failure::Failure;
use crate::runner::Runner;
use nextest_config::merge::ReadPiece;
use nextest_config::nextest_version::{
    ExperimentalConfig, ExperimentalDeserialize, NextestVersionConfig, NextestVersionReq,
    VersionOnlyConfig,
};
use nextest_config_elements::junit::{JunitFlakyFailStatus, JunitImpl};
use nextest_config_elements::leak_timeout::{LeakTimeout, LeakTimeoutResult};
use nextest_config_elements::max_fail::TerminateMode;
use nextest_config_elements::priority::TestPriority;
use nextest_config_elements::report_skip_policy::ReportSkipPolicy;
use nextest_config_elements::retry_policy::FlakyResult;
use nextest_config_elements::slow_timeout::SlowTimeoutResult;
use nextest_config_values::track_default::TrackDefault;
use std::fmt::Debug;

/// The value that a type has at first.
pub fn defaults(rt: &Runner, call: &str, _input: &str) -> Result<String, Failure> {
    match call {
        "FlakyResult" => default::<FlakyResult>(rt),
        "JunitFlakyFailStatus" => default::<JunitFlakyFailStatus>(rt),
        "JunitImpl" => default::<JunitImpl>(rt),
        "LeakTimeout" => default::<LeakTimeout>(rt),
        "LeakTimeoutResult" => default::<LeakTimeoutResult>(rt),
        "ReportSkipPolicy" => default::<ReportSkipPolicy>(rt),
        "SlowTimeoutResult" => default::<SlowTimeoutResult>(rt),
        "TerminateMode" => default::<TerminateMode>(rt),
        "TestPriority" => default::<TestPriority>(rt),
        "TrackDefault u32" => default::<TrackDefault<u32>>(rt),
        "TrackDefault bool" => default::<TrackDefault<bool>>(rt),
        _ => of_sources(rt, call),
    }
}

fn of_sources(rt: &Runner, call: &str) -> Result<String, Failure> {
    match call {
        "NextestVersionReq" => default::<NextestVersionReq>(rt),
        "NextestVersionConfig" => default::<NextestVersionConfig>(rt),
        "ExperimentalDeserialize" => written(rt, ExperimentalDeserialize::new(rt.call())),
        "ExperimentalConfig" => written(rt, ExperimentalConfig::new(rt.call())),
        "VersionOnlyConfig" => written(rt, VersionOnlyConfig::new(rt.call())),
        "neutral" => written(rt, <VersionOnlyConfig as ReadPiece>::neutral(rt.call())),
        _ => unknown(rt, call),
    }
}

fn default<T: Default + Debug + Drop>(rt: &Runner) -> Result<String, Failure> {
    rt.begin();
    written(rt, T::default())
}
