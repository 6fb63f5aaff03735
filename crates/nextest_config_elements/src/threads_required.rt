//! The threads that a test takes.

ghost use Rattle.std.specs.Prelude.{◌≡◌, ◌≢◌, ℕ, Some, MatchOption};
ghost use Rattle.nextest_config_elements.specs.ThreadsRequired.{thread_count, threads_reading, threads_text};
ghost use Rattle.nextest_config_elements.specs.declared.threads_required.ThreadsRequired.{ThreadsRequired};

use nextest_config_values::read::{FromToml, ValueFault};
use std::alloc::Global;
use toml::Value;

const EXPECTED: &str = "an integer, the string \"num-cpus\" or the string \"num-test-threads\"";

/// How many of the threads that run tests one test takes.
#[derive(Clone, Copy, Debug, PartialEq, Eq)]
pub enum ThreadsRequired {
    /// This many.
    Count(usize),
    /// As many as there are processors.
    NumCpus,
    /// As many as there are threads that run tests.
    NumTestThreads,
}

impl ThreadsRequired {
    /// The number of threads, where there are so many threads that run tests, and so many
    /// processors.
    pub fn compute(self, test_threads: usize, num_cpus: usize) -> usize
        ensures { result ≡ thread_count test_threads num_cpus self }
    {
        match self {
            ThreadsRequired::Count(threads) => threads,
            ThreadsRequired::NumCpus => num_cpus,
            ThreadsRequired::NumTestThreads => test_threads,
        }
    }
}

impl FromToml for ThreadsRequired {
    ghost Seen = { Self };

    ghost seen = { λ threads. threads };

    ghost reading = { threads_reading };

    fn read_value(alloc: Global, value: &Value) -> Result<Self, ValueFault> {
        if let Some(number) = value.as_integer() {
            return match usize::try_from(number) {
                Ok(count) if count > 0 => Ok(ThreadsRequired::Count(count)),
                _ => Err(ValueFault::invalid_value(alloc, value, EXPECTED)),
            };
        }
        match value.as_str() {
            Some(text) => match from_word(text) {
                Some(threads) => Ok(threads),
                None => Err(ValueFault::invalid_value(alloc, value, EXPECTED)),
            },
            None => Err(ValueFault::invalid_type(alloc, value, EXPECTED)),
        }
    }
}

// What the text says, if it is one of the two words.
fn from_word(text: &str) -> Option<ThreadsRequired>
    ensures { MatchOption result ((threads : ThreadsRequired) → threads_text threads
        ≢ Some text.now)
        (λ threads. threads_text threads ≡ Some text.now) }
{
    match text {
        "num-cpus" => Some(ThreadsRequired::NumCpus),
        "num-test-threads" => Some(ThreadsRequired::NumTestThreads),
        _ => None,
    }
}
