//! What values hide.

ghost use Rattle.std.specs.Prelude.{◌≡◌, IfOk, map, take};
ghost use Rattle.std.specs.List.{AllZip};
ghost use Rattle.nextest_config_profiles.specs.Reach.{words_of};
ghost use Rattle.nextest_config_profiles.specs.Report.Hidden.{AreHidden, IsHidden};
ghost use Rattle.nextest_config_profiles.specs.Report.Standing.{standing_of};

use crate::EffectiveProfile;
use crate::report::keys::copy_of;
use crate::report::parts::{Hidden, Literal};
use crate::report::rows::GivenSetting;
use crate::report::source::source_of;
use crate::report::standing::{Standing, hidden};
use std::alloc::{AllocError, Global};

/// What lies below a layer at keys of the profile that gives a setting, and what later profiles of
/// the chain have there, if that is to be shown.
pub(crate) fn hidden_rows<'p>(
    alloc: Global,
    given: GivenSetting<'_, 'p>,
    keys: &[&'p str],
    layer: usize,
) -> Result<Vec<Hidden<'p>>, AllocError>
    ensures { IfOk result (λ rows. AreHidden given.entry.effective.now given.entry.shows_hidden
        given.entry.profile.now (words_of keys.now) layer rows.items) }
{
    if !given.shows_hidden {
        return Ok(Vec::new(alloc));
    }
    let standings = hidden(alloc, given.effective, given.profile, keys, layer)?;
    hidden_each(alloc, given.effective, keys, standings.as_slice())
}

// What is told of each value that is hidden.
fn hidden_each<'p>(
    alloc: Global,
    effective: &'p EffectiveProfile<'p>,
    keys: &[&'p str],
    standings: &[Standing<'p>],
) -> Result<Vec<Hidden<'p>>, AllocError>
    ensures { IfOk result (λ rows. AllZip (IsHidden effective.now (words_of keys.now))
        (map standing_of standings.now) rows.items) }
{
    let mut rows = Vec::new(alloc);
    for standing in standings {
        rows.push(hidden_row(alloc, effective, keys, standing)?)?;
    }
    Ok(rows)
}

fn hidden_row<'p>(
    alloc: Global,
    effective: &'p EffectiveProfile<'p>,
    keys: &[&'p str],
    standing: &Standing<'p>,
) -> Result<Hidden<'p>, AllocError>
    ensures { IfOk result (IsHidden effective.now (words_of keys.now) (standing_of standing.now)) }
{
    let keys = front_of(alloc, keys, standing.reached.depth)?;
    let Standing { profile, layer, .. } = *standing;
    let source = source_of(alloc, effective, layer, profile, keys.as_slice())?;
    let literal = Literal::of(alloc, standing.reached.value.clone()?)?;
    Ok(Hidden {
        keys,
        literal,
        source,
    })
}

// The first so many keys.
fn front_of<'p>(alloc: Global, keys: &[&'p str], depth: usize) -> Result<Vec<&'p str>, AllocError>
    ensures { IfOk result (λ front. words_of front.items ≡ take depth (words_of keys.now)) }
{
    if depth < keys.len() {
        return copy_of(alloc, &keys[..depth]);
    }
    copy_of(alloc, keys)
}
