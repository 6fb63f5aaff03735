//! What nextest sets itself, below all files.

ghost use Rattle.std.specs.Prelude.{◌≡◌, IfOk};
ghost use Rattle.toml.specs.View.{table_view};
ghost use Rattle.nextest_config_profiles.specs.Defaults.{default_values};

use std::alloc::{AllocError, Global};
use toml::Table;

/// What nextest sets itself, as a configuration file would.
pub const DEFAULTS: &str = r#"[profile.default]
retries = 0
flaky-result = "pass"
threads-required = 1
fail-fast = true
slow-timeout = { period = "60s", on-timeout = "fail" }
leak-timeout = { period = "200ms", result = "pass" }
global-timeout = "30y"
default-filter = "all()"
test-threads = "num-cpus"
run-extra-args = []
status-level = "pass"
final-status-level = "flaky"
success-output = "never"
failure-output = "immediate"

[profile.default.junit]
report-name = "nextest-run"
store-success-output = false
store-failure-output = true
report-skipped = "none"
flaky-fail-status = "failure"

[profile.default.bench]
slow-timeout = { period = "30y" }
global-timeout = "30y"
"#;

/// What nextest sets itself, as a document.
pub(crate) fn default_document(alloc: Global) -> Result<Table, AllocError>
    ensures { IfOk result (λ table. table_view table ≡ default_values) }
{
    match toml::table_from_str(alloc, DEFAULTS) {
        Ok(table) => Ok(table),
        Err(error) => {
            if error.is_memory() {
                return Err(AllocError);
            }
            unreachable!()
        }
    }
}
