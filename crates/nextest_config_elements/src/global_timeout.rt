//! The timeout of a whole run.

ghost use Rattle.std.specs.Prelude.{ℕ};
ghost use Rattle.nextest_config_values.specs.Duration.{duration_reading};
ghost use Rattle.nextest_config_elements.specs.GlobalTimeout.{global_timeout_of};

use nextest_config_values::read::{FromToml, ValueFault};
use std::alloc::Global;
use std::time::Duration;
use toml::Value;

/// The time after which a whole run is aborted. It is read from a duration text.
#[derive(Clone, Copy, Debug, PartialEq, Eq)]
pub struct GlobalTimeout {
    /// How long the run may take.
    pub period: Duration,
}

impl FromToml for GlobalTimeout {
    ghost Seen = { ℕ };

    ghost seen = { global_timeout_of };

    ghost reading = { duration_reading };

    fn read_value(alloc: Global, value: &Value) -> Result<Self, ValueFault> {
        let period = Duration::read_value(alloc, value)?;
        Ok(GlobalTimeout { period })
    }
}
