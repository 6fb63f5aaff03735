//! Times that are as long as none at all.

ghost use Rattle.std.specs.Prelude.{◌≡◌, ◌↔◌, IsTrue, option_map};
ghost use Rattle.toml.specs.View.{view};
ghost use Rattle.nextest_config_profiles.specs.Report.NoLimit.{is_period, is_time, IsNoLimit, IsVeryLong, IsVeryLongText};

use nextest_config_elements::field::Shape;
use nextest_config_elements::slow_timeout::SlowTimeout;
use nextest_config_values::duration::parse_duration;
use toml::Value;

/// Whether the value of a setting, or of a member of its table, is a time that no test reaches.
pub(crate) fn is_no_limit(shape: Shape, member: Option<&str>, value: &Value) -> bool
    ensures { IsTrue result
        ↔ IsNoLimit shape (option_map (λ key. key.now) member.entry) (view value.now) }
{
    is_time(shape) & is_period(member) & is_very_long(value)
}

// Whether a setting is a time.
fn is_time(shape: Shape) -> bool
    ensures { result ≡ is_time shape }
{
    matches!(
        shape,
        Shape::SlowTimeout | Shape::LeakTimeout | Shape::Duration
    )
}

// Whether a member, or without one the whole setting, is the time itself.
fn is_period(member: Option<&str>) -> bool
    ensures { result ≡ is_period (option_map (λ key. key.now) member.entry) }
{
    match member {
        Some(key) => key == "period",
        None => true,
    }
}

// Whether the value is a duration of about 30 years or more.
fn is_very_long(value: &Value) -> bool
    ensures { IsTrue result ↔ IsVeryLong (view value.now) }
{
    match value.as_str() {
        Some(text) => is_very_long_text(text),
        None => false,
    }
}

// Whether the text writes a duration of about 30 years or more.
fn is_very_long_text(text: &str) -> bool
    ensures { IsTrue result ↔ IsVeryLongText text.now }
{
    match parse_duration(text) {
        Ok(duration) => duration.as_nanos() >= SlowTimeout::very_large().period.as_nanos(),
        Err(_) => false,
    }
}
