//! Values that know whether they are a default.

ghost use Rattle.std.specs.Prelude.{◌≡◌, Bool, true, false};

use crate::read::{FromToml, ValueFault};
use std::alloc::{AllocError, Global};
use toml::Value;

/// A value, and whether it was read rather than taken as the default.
#[derive(Copy, Debug, PartialEq, Eq)]
pub struct TrackDefault<T> {
    pub value: T,
    pub is_deserialized: bool,
}

impl<T> TrackDefault<T> {
    pub fn with_default_value(value: T) -> Self
        ensures { result ≡ record { value = value; is_deserialized = false } }
    {
        TrackDefault {
            value,
            is_deserialized: false,
        }
    }

    pub fn with_deserialized_value(value: T) -> Self
        ensures { result ≡ record { value = value; is_deserialized = true } }
    {
        TrackDefault {
            value,
            is_deserialized: true,
        }
    }
}

impl<T: Default> Default for TrackDefault<T> {
    ghost is_default = { λ tracked. T.is_default tracked.value
        × (tracked.is_deserialized ≡ false) };

    fn default() -> Self {
        TrackDefault::with_default_value(T::default())
    }
}

impl<T: Clone> Clone for TrackDefault<T> {
    ghost is_clone = { λ tracked copy. T.is_clone tracked.value copy.value
        × (copy.is_deserialized ≡ tracked.is_deserialized) };

    ghost is_infallible = { λ tracked. T.is_infallible tracked.value };

    fn clone(&self) -> Result<Self, AllocError> {
        Ok(TrackDefault {
            value: self.value.clone()?,
            is_deserialized: self.is_deserialized,
        })
    }
}

impl<T: FromToml> FromToml for TrackDefault<T> {
    ghost use Rattle.nextest_config_values.specs.Read.{made_of};

    ghost Seen = { T.Seen × Bool };

    ghost seen = { λ tracked. (T.seen tracked.value, tracked.is_deserialized) };

    ghost reading = { made_of (λ x. (x, true)) T.reading };

    fn read_value(alloc: Global, value: &Value) -> Result<Self, ValueFault> {
        let value = T::read_value(alloc, value)?;
        Ok(TrackDefault::with_deserialized_value(value))
    }
}
