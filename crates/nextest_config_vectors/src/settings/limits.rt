//! Fail limits, priorities, counts and marks, beside their settings.

use crate::answers::{done, made, shown, text, unknown, written};
use crate::failure::Failure;
use crate::runner::Runner;
use crate::values::{FromRow, both, word};
use nextest_config_elements::max_fail::{MaxFail, MaxFailParseError, TerminateMode};
use nextest_config_elements::priority::TestPriority;
use nextest_config_elements::retry_policy::RetryPolicy;
use nextest_config_elements::slow_timeout::SlowTimeout;
use nextest_config_values::read::NonZeroCount;
use nextest_config_values::track_default::TrackDefault;
use std::fmt::Debug;

/// Fail limits, priorities, counts and marks.
pub fn limits(rt: &Runner, call: &str, input: &str) -> Result<String, Failure> {
    let (call, given) = word(call);
    match call {
        "max-fail" => parsed(rt, MaxFail::from_str(rt.call(), input)),
        "mode" => parsed(rt, TerminateMode::from_str(rt.call(), input)),
        "printed" => printed(rt, MaxFail::from_str(rt.call(), input)),
        "text" => text(rt, MaxFail::from_row(rt, input)?.to_string(rt.call())),
        "reached" => reached(rt, given, MaxFail::from_row(rt, input)?),
        "priority" => priority(rt, i8::from_row(rt, input)?),
        "sorted" => sorted(rt, input),
        "count" => counted(rt, usize::from_row(rt, input)?),
        "tracked" => tracked(rt, done(rt, input.parse())?),
        _ => plain(rt, call, input),
    }
}

/// Writes the limit's text, or its number and its mode, which may be a limit that no text has.
impl FromRow for MaxFail {
    fn from_row(rt: &Runner, text: &str) -> Result<Self, Failure> {
        if !text.contains(' ') {
            return done(rt, MaxFail::from_str(rt.alloc(), text));
        }
        let (max_fail, terminate) = both(rt, text, " ")?;
        Ok(MaxFail::Count {
            max_fail,
            terminate,
        })
    }
}

impl FromRow for TerminateMode {
    fn from_row(rt: &Runner, text: &str) -> Result<Self, Failure> {
        done(rt, TerminateMode::from_str(rt.alloc(), text))
    }
}

// What a text is read as.
fn parsed<T: Debug + Drop>(
    rt: &Runner,
    answer: Result<T, MaxFailParseError>,
) -> Result<String, Failure> {
    if matches!(&answer, Err(MaxFailParseError::Memory)) {
        made(rt, answer)
    } else {
        written(rt, answer)
    }
}

fn printed(rt: &Runner, answer: Result<MaxFail, MaxFailParseError>) -> Result<String, Failure> {
    match answer {
        Ok(limit) => shown(rt, &limit),
        Err(error) => shown(rt, &error),
    }
}

fn reached(rt: &Runner, failed: &str, limit: MaxFail) -> Result<String, Failure> {
    let failed = usize::from_row(rt, failed)?;
    rt.begin();
    written(rt, limit.is_exceeded(failed))
}

fn priority(rt: &Runner, number: i8) -> Result<String, Failure> {
    rt.begin();
    let answer = TestPriority::new(number);
    let number = answer.map(TestPriority::to_i8);
    rt.end();
    let line = match number {
        Ok(number) => format!(in rt.alloc(); "{answer:?} {number}"),
        Err(error) => format!(in rt.alloc(); "{answer:?} {error}"),
    };
    done(rt, line)
}

impl FromRow for TestPriority {
    fn from_row(rt: &Runner, text: &str) -> Result<Self, Failure> {
        done(rt, TestPriority::new(i8::from_row(rt, text)?))
    }
}

fn sorted(rt: &Runner, input: &str) -> Result<String, Failure> {
    let mut priorities = Vec::new(rt.alloc());
    for number in input.split_whitespace() {
        done(rt, priorities.push(TestPriority::from_row(rt, number)?))?;
    }
    done(rt, priorities.sort())?;
    written(rt, priorities)
}

fn counted(rt: &Runner, count: usize) -> Result<String, Failure> {
    rt.begin();
    written(rt, NonZeroCount::new(count).map(NonZeroCount::get))
}

fn tracked(rt: &Runner, value: u32) -> Result<String, Failure> {
    rt.begin();
    let default = TrackDefault::with_default_value(value);
    let read = TrackDefault::with_deserialized_value(value);
    written(rt, [default, read])
}

// Values that no text writes.
fn plain(rt: &Runner, call: &str, name: &str) -> Result<String, Failure> {
    rt.begin();
    match name {
        "true" | "false" => written(rt, MaxFail::from_fail_fast(name == "true")),
        "SlowTimeout::very_large" => very_large(rt),
        "RetryPolicy::default" => policy(rt, RetryPolicy::default()),
        "RetryPolicy::new_without_delay" => policy(rt, RetryPolicy::new_without_delay(3)),
        _ => unknown(rt, call),
    }
}

fn very_large(rt: &Runner) -> Result<String, Failure> {
    let timeout = SlowTimeout::very_large();
    rt.end();
    Ok(format!(in rt.alloc(); "{timeout:?}")?)
}

fn policy(rt: &Runner, policy: RetryPolicy) -> Result<String, Failure> {
    let count = policy.count();
    rt.end();
    done(rt, format!(in rt.alloc(); "{policy:?} {count}"))
}
