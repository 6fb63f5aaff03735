//! Places in files, as JSON has them.

ghost use Rattle.std.specs.Prelude.{◌≡◌, IfOk, option_map};
ghost use Rattle.serde_json.specs.View.{view};
ghost use Rattle.nextest_config_output.specs.Profile.Location.{location_if, location_of, nowhere, number_data, seen_location, text_data};

use nextest_config_profiles::report::Source;
use serde_json::Value;
use std::alloc::{AllocError, Global};

/// A place in a file, and the profile that has something there: what is known of them.
#[derive(Clone, Copy)]
pub(crate) struct Location<'a> {
    pub profile: Option<&'a str>,
    pub path: Option<&'a str>,
    pub line: Option<usize>,
    pub column: Option<usize>,
}

impl Location<'_> {
    /// No place.
    pub fn nowhere() -> Self
        ensures { seen_location result ≡ nowhere }
    {
        Location {
            profile: None,
            path: None,
            line: None,
            column: None,
        }
    }
}

/// The place of a source; none where nextest sets a value itself.
pub(crate) fn location_of<'a>(source: Source<'a>) -> Location<'a>
    ensures { seen_location result ≡ location_of source.entry }
{
    match source.file {
        Some(file) => Location {
            profile: Some(source.profile),
            path: Some(file.path),
            line: file.place.map(|place| place.line),
            column: file.place.map(|place| place.column),
        },
        None => Location::nowhere(),
    }
}

/// The place of a source, where there is one.
pub(crate) fn location_if<'a>(source: Option<Source<'a>>) -> Location<'a>
    ensures { seen_location result ≡ location_if source.entry }
{
    match source {
        Some(source) => location_of(source),
        None => Location::nowhere(),
    }
}

/// A text, or null.
pub(crate) fn text_value(alloc: Global, text: Option<&str>) -> Result<Value, AllocError>
    ensures { IfOk result (λ value. view value ≡ text_data (option_map (λ it. it.now) text.entry)) }
{
    match text {
        Some(text) => Value::try_from_str(alloc, text),
        None => Ok(Value::Null),
    }
}

/// A number, or null.
pub(crate) fn number_value(number: Option<usize>) -> Value
    ensures { view result ≡ number_data number }
{
    match number {
        Some(number) => Value::from(number),
        None => Value::Null,
    }
}
