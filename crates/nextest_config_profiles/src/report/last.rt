//! Which layer says what of the keys of a profile.

ghost use Rattle.std.specs.Prelude.{IfOk};
ghost use Rattle.nextest_config_profiles.specs.Reach.{words_of};
ghost use Rattle.nextest_config_profiles.specs.Report.Rows.{IsLastAt, IsSourceOf, IsSourceOfFound};

use crate::report::keys::path_in;
use crate::report::parts::Source;
use crate::report::source::source_of;
use crate::{EffectiveProfile, LayerValue};
use std::alloc::{AllocError, Global};

/// What the last layer that says anything of these keys of a profile has there, if that is a value.
pub(crate) fn last_at<'p>(
    alloc: Global,
    effective: &'p EffectiveProfile<'_>,
    profile: &str,
    keys: &[&str],
) -> Result<Option<LayerValue<'p>>, AllocError>
    ensures { IfOk result (IsLastAt effective.now profile.now (words_of keys.now)) }
{
    let path = path_in(alloc, profile, keys)?;
    let found = effective.last_value(alloc, path.as_slice())?;
    Ok(found)
}

/// Where the last layer that says anything of these keys has them, if they have a value.
pub(crate) fn last_source<'p>(
    alloc: Global,
    effective: &'p EffectiveProfile<'_>,
    profile: &'p str,
    keys: &[&str],
) -> Result<Option<Source<'p>>, AllocError>
    ensures { IfOk result (IsSourceOf effective.now profile.now (words_of keys.now)) }
{
    let found = last_at(alloc, effective, profile, keys)?;
    found_source(alloc, effective, profile, keys, found)
}

// Where the last layer has these keys, where this is what it has there.
fn found_source<'p>(
    alloc: Global,
    effective: &'p EffectiveProfile<'_>,
    profile: &'p str,
    keys: &[&str],
    found: Option<LayerValue<'p>>,
) -> Result<Option<Source<'p>>, AllocError>
    ensures { IfOk result
        (IsSourceOfFound effective.now profile.now (words_of keys.now) found.entry) }
{
    match found {
        Some(found) => {
            let source = source_of(alloc, effective, found.layer, profile, keys)?;
            Ok(Some(source))
        }
        None => Ok(None),
    }
}
