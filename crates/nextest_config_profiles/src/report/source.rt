//! Where values stand.

ghost use Rattle.std.specs.Prelude.{◌≡◌, IfOk, option_map};
ghost use Rattle.nextest_config_profiles.specs.Profile.{file_in};
ghost use Rattle.nextest_config_profiles.specs.Reach.{words_of};
ghost use Rattle.nextest_config_profiles.specs.Report.Source.{IsPlaceIn, IsSource};

use crate::EffectiveProfile;
use crate::report::keys::path_in;
use crate::report::parts::{FilePlace, Source};
use std::alloc::{AllocError, Global};
use toml_spans::{Place, Span};

/// Where a layer has what stands at these keys of a profile.
pub(crate) fn source_of<'p>(
    alloc: Global,
    effective: &'p EffectiveProfile<'_>,
    layer: usize,
    profile: &'p str,
    keys: &[&str],
) -> Result<Source<'p>, AllocError>
    ensures { IfOk result (IsSource effective.now layer profile.now (words_of keys.now)) }
{
    if layer == 0 {
        // What nextest sets itself stands in no file.
        return Ok(Source {
            profile,
            file: None,
        });
    }
    let path = path_in(alloc, profile, keys)?;
    let span = effective.span(alloc, layer, path.as_slice())?;
    let file = file_place(effective, layer, span);
    Ok(Source { profile, file })
}

/// The file of a layer, and where this range of it begins.
pub(crate) fn file_place<'p>(
    effective: &'p EffectiveProfile<'_>,
    layer: usize,
    span: Option<Span>,
) -> Option<FilePlace<'p>>
    ensures { IsPlaceIn (file_in effective.now layer) span result }
{
    match effective.file(layer) {
        Some(file) => Some(FilePlace {
            path: file.source.path.as_str(),
            place: begin(span),
        }),
        None => None,
    }
}

// Where a range begins.
fn begin(span: Option<Span>) -> Option<Place>
    ensures { result ≡ option_map (λ span. span.begin) span }
{
    match span {
        Some(span) => Some(span.begin),
        None => None,
    }
}
