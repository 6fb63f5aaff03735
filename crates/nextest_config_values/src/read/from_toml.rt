//! The reading of a TOML value.

ghost use Rattle.std.specs.Prelude.{IfOk, IfErr};
ghost use Rattle.toml.specs.Data.{Data};
ghost use Rattle.toml.specs.View.{view};
ghost use Rattle.nextest_config_values.specs.Read.{Reading, RefusesAt, RefusesBy};

use super::fault::ReadFault;
use super::value_fault::ValueFault;
use std::alloc::Global;
use toml::Value;

/// A type that is read from a TOML value.
///
/// A value means at most one Self, as it is seen, has at most one fault, and never both.
/// So, unless memory runs out, `read` answers Ok exactly where a Self is meant.
pub trait FromToml: Sized {
    // What is seen of a Self.
    ghost Seen: { Type 0 };

    ghost seen: { Self → Seen };

    // What values mean, and what is wrong with them.
    ghost reading: { Reading Data Seen };

    /// Reads the value, wherever it stands.
    fn read_value(alloc: Global, value: &Value) -> Result<Self, ValueFault>
        ensures meant { IfOk result (λ x. reading.means (view value.now) (seen x)) }
        ensures refused { IfErr result (RefusesBy reading (view value.now)) };

    /// Reads the value at the path `at`; a fault names its path, which begins with that. A `Memory`
    /// has the empty path.
    fn read(alloc: Global, value: &Value, at: &str) -> Result<Self, ReadFault>
        ensures meant { IfOk result (λ x. reading.means (view value.now) (seen x)) }
        ensures refused { IfErr result (RefusesAt reading (view value.now) at.now) }
    {
        Self::read_value(alloc, value).map_err(|fault| fault.at(alloc, at))
    }
}
