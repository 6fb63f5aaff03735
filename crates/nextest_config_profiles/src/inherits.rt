//! Where profiles say what they inherit from.

ghost use Rattle.std.specs.Prelude.{◌<◌, IfOk, length};
ghost use Rattle.nextest_config_profiles.specs.Inherits.{IsInheritsPlace, IsPlaceOf};
ghost use Rattle.nextest_config_profiles.specs.Reach.{words_of};

use crate::chain::INHERITS;
use crate::last_value::{LayerValue, last_above};
use crate::layer::{Layer, profiles_of_files};
use crate::profile::steps_to;
use std::alloc::{AllocError, Global};
use toml::Value;
use toml_spans::Span;

/// What a file has at `inherits` of a profile.
#[derive(Clone, Copy, Debug)]
pub struct InheritsPlace<'a> {
    pub file: &'a Layer<'a>,
    pub value: &'a Value,
    /// The range of the value, by the index of the file.
    pub span: Option<Span>,
}

/// What the last of the files that say anything of `inherits` of a profile has there, if that is a
/// value.
pub(crate) fn inherits_place<'a>(
    alloc: Global,
    layers: &'a [Layer<'a>],
    profile: &str,
) -> Result<Option<InheritsPlace<'a>>, AllocError>
    ensures { IfOk result (IsInheritsPlace layers.now profile.now) }
{
    let profiles = profiles_of_files(alloc, layers)?;
    let path = [profile, INHERITS];
    match last_above(None, 0, profiles.as_slice(), &path) {
        Some(found) => {
            let place = place_of(alloc, layers, found, &path)?;
            Ok(Some(place))
        }
        None => Ok(None),
    }
}

// The value of a file at a path below `profile`, with its range.
fn place_of<'a>(
    alloc: Global,
    layers: &'a [Layer<'a>],
    found: LayerValue<'a>,
    path: &[&str],
) -> Result<InheritsPlace<'a>, AllocError>
    requires { found.layer < length layers.now }
    ensures { IfOk result (IsPlaceOf layers.now found.entry (words_of path.now)) }
{
    let steps = steps_to(alloc, path)?;
    let file = &layers[found.layer];
    Ok(InheritsPlace {
        file,
        value: found.value,
        span: file.span(steps.as_slice()),
    })
}
