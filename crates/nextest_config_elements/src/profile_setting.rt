//! The settings of profiles, as they are read from merged files.

ghost use Rattle.std.specs.Prelude.{◌≡◌, Err, IfErr, IfOk, MatchResult, Ok, Option, option_map, Some};
ghost use Rattle.toml.specs.Data.{Data};
ghost use Rattle.toml.specs.View.{view};
ghost use Rattle.nextest_config_values.specs.Read.{made_of, Reading, RefusesAt, RefusesBy};

use nextest_config_values::read::{FromToml, ReadFault, ValueFault};
use std::alloc::Global;
use toml::Value;

/// The value of a setting of profiles, which is read from a TOML value; `None` where that value
/// says that there is none.
pub trait ProfileSetting: Sized + Drop {
    // What is seen of a Self.
    ghost Seen: { Type 0 };

    ghost seen: { Self → Seen };

    // What values mean, and what is wrong with them.
    ghost reading: { Reading Data (Option Seen) };

    /// Reads the value, wherever it stands.
    fn read_setting(alloc: Global, value: &Value) -> Result<Option<Self>, ValueFault>
        ensures meant { IfOk result (λ x. reading.means (view value.now) (option_map seen x)) }
        ensures refused { IfErr result (RefusesBy reading (view value.now)) };
}

/// A type that is read by `FromToml` is a setting as it is: no value says that there is none.
impl<T: FromToml + Drop> ProfileSetting for T {
    ghost Seen = { T.FromToml.Seen };

    ghost seen = { T.FromToml.seen };

    ghost reading = { made_of Some T.FromToml.reading };

    fn read_setting(alloc: Global, value: &Value) -> Result<Option<Self>, ValueFault> {
        let value = T::read_value(alloc, value)?;
        Ok(Some(value))
    }
}

// Reads a setting, as `read_setting` does. A fault names its path, which begins with `at`.
pub(crate) fn read_at<T: ProfileSetting>(
    alloc: Global,
    value: &Value,
    at: &str,
) -> Result<Option<T>, ReadFault>
    ensures meant { IfOk result (λ x.
        T.reading.means (view value.now) (option_map T.seen x)) }
    ensures refused { IfErr result (RefusesAt T.reading (view value.now) at.now) }
{
    T::read_setting(alloc, value).map_err(|fault| fault.at(alloc, at))
}
