//! Values that are told as they are written.

ghost use Rattle.std.specs.Prelude.{◌≡◌, ◌↔◌, IfOk, IsTrue};
ghost use Rattle.nextest_config_values.specs.Read.{only};
ghost use Rattle.toml.specs.View.{view};
ghost use Rattle.nextest_config_profiles.specs.Reach.{words_of};
ghost use Rattle.nextest_config_profiles.specs.Report.Written.{is_documented, IsDoubted, IsWrongAt};

use nextest_config_elements::field::FaultSeverity;
use nextest_config_lint::is_right_at;
use nextest_config_values::read::{FromToml, ValueFault};
use std::alloc::{AllocError, Global};
use toml::Value;

/// That there is a value, whatever it is.
#[derive(Drop)]
pub(crate) struct Written;

impl FromToml for Written {
    ghost Seen = { Unit {0} };

    ghost seen = { λ written. tt {0} };

    ghost reading = { only (tt {0}) };

    fn read_value(_: Global, _: &Value) -> Result<Self, ValueFault> {
        Ok(Written)
    }
}

/// Whether a setting is known from nextest's documentation alone, and something is wrong with the
/// value at these keys of a profile.
pub(crate) fn is_doubted(
    alloc: Global,
    severity: FaultSeverity,
    keys: &[&str],
    value: &Value,
) -> Result<bool, AllocError>
    ensures { IfOk result
        (λ doubted. IsTrue doubted ↔ IsDoubted severity (words_of keys.now) (view value.now)) }
{
    if is_documented(severity) {
        return is_wrong_at(alloc, keys, value);
    }
    Ok(false)
}

/// Whether a setting is known from nextest's documentation alone.
pub(crate) fn is_documented(severity: FaultSeverity) -> bool
    ensures { result ≡ is_documented severity }
{
    matches!(severity, FaultSeverity::Warning)
}

// Whether something is wrong with the value at a key of a profile.
fn is_wrong_at(alloc: Global, keys: &[&str], value: &Value) -> Result<bool, AllocError>
    ensures { IfOk result
        (λ wrong. IsTrue wrong ↔ IsWrongAt (words_of keys.now) (view value.now)) }
{
    match keys {
        [key, ..] => Ok(!is_right_at(alloc, key, value)?),
        [] => Ok(false),
    }
}
