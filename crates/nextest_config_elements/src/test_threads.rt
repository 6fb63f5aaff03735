//! The threads that run tests.

ghost use Rattle.nextest_config_elements.specs.Acceptance.{Acceptance};
ghost use Rattle.nextest_config_elements.specs.TestThreads.{accepted_as, test_threads_reading};

use nextest_config_values::read::{FromToml, ValueFault};
use std::alloc::Global;
use toml::Value;

const EXPECTED: &str = "an integer other than 0 or the string \"num-cpus\"";

/// A number of threads that run tests: an integer other than 0, or the word for as many as there
/// are processors. How many that is isn't read.
#[derive(Debug, Drop)]
pub struct TestThreads;

impl FromToml for TestThreads {
    ghost Seen = { Acceptance };

    ghost seen = { accepted_as };

    ghost reading = { test_threads_reading };

    fn read_value(alloc: Global, value: &Value) -> Result<Self, ValueFault> {
        match value.as_integer() {
            Some(0) => Err(ValueFault::invalid_value(alloc, value, EXPECTED)),
            Some(_) => Ok(TestThreads),
            None => match value.as_str() {
                Some("num-cpus") => Ok(TestThreads),
                Some(_) => Err(ValueFault::invalid_value(alloc, value, EXPECTED)),
                None => Err(ValueFault::invalid_type(alloc, value, EXPECTED)),
            },
        }
    }
}
