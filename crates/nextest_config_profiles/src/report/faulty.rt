//! Values that their readers refuse, as the layers are merged.

ghost use Rattle.std.specs.Prelude.{◌∷◌, [], IfOk, map, string_bytes};
ghost use Rattle.nextest_config_values.specs.Read.{fault_of};
ghost use Rattle.nextest_config_profiles.specs.Reach.{words_of};
ghost use Rattle.nextest_config_profiles.specs.Report.Rows.{AreOrWhole, ArePlacesAt, ArePlacesOf, IsBareRow, IsFaultState, IsMessage, IsPlaceOf, keys_of_member, parts_of};
ghost use Rattle.nextest_config_profiles.specs.Report.Setting.{rule_of};

use crate::report::keys::{copy_of, with_key};
use crate::report::last::{last_at, last_source};
use crate::report::parts::{FaultSource, KeyState, Row};
use crate::report::rows::bare_row;
use crate::report::setting::KnownSetting;
use crate::report::somes::push_some;
use crate::{EffectiveProfile, LayerValue};
use nextest_config_values::read::ValueFault;
use std::alloc::{AllocError, Global};

/// What is told of a setting whose reader refuses what a profile has there.
pub(crate) fn fault_row<'p>(
    alloc: Global,
    effective: &'p EffectiveProfile<'p>,
    profile: &'p str,
    setting: KnownSetting<'_>,
    fault: ValueFault,
) -> Result<Row<'p>, AllocError>
    ensures { IfOk result (IsBareRow (rule_of setting.entry).keys
        (IsFaultState effective.now profile.now (rule_of setting.entry) fault)) }
{
    let sources = places(alloc, effective, profile, setting)?;
    let message = message(alloc, fault)?;
    let state = KeyState::Fault { message, sources };
    bare_row(alloc, copy_of(alloc, setting.keys)?, state)
}

/// What is wrong with a value.
pub(crate) fn message(alloc: Global, fault: ValueFault) -> Result<String, AllocError>
    ensures { IfOk result (λ text. IsMessage (fault_of fault) (string_bytes text)) }
{
    if fault.is_memory() {
        return Err(AllocError);
    }
    let refused = fault.at(alloc, "");
    if refused.kind.is_memory() {
        return Err(AllocError);
    }
    let text = refused.to_string(alloc)?;
    Ok(text)
}

/// Where the parts of what a profile has for a setting stand.
pub(crate) fn places<'p>(
    alloc: Global,
    effective: &'p EffectiveProfile<'p>,
    profile: &'p str,
    setting: KnownSetting<'_>,
) -> Result<Vec<FaultSource<'p>>, AllocError>
    ensures { IfOk result (λ sources.
        ArePlacesOf effective.now profile.now (rule_of setting.entry) sources.items) }
{
    let found = last_at(alloc, effective, profile, setting.keys)?;
    let parts = part_places(alloc, effective, profile, setting, found)?;
    let sources = or_whole(alloc, effective, profile, setting.keys, parts)?;
    Ok(sources)
}

// Where the keys of the table stand that this is, if it is one.
fn part_places<'p>(
    alloc: Global,
    effective: &'p EffectiveProfile<'p>,
    profile: &'p str,
    setting: KnownSetting<'_>,
    found: Option<LayerValue<'p>>,
) -> Result<Vec<FaultSource<'p>>, AllocError>
    ensures { IfOk result (λ sources. ArePlacesAt effective.now profile.now
        (parts_of (rule_of setting.entry) found.entry) sources.items) }
{
    match found {
        Some(found) if found.value.is_table() => {
            member_places(alloc, effective, profile, setting)
        }
        Some(_) => Ok(Vec::new(alloc)),
        None => Ok(Vec::new(alloc)),
    }
}

// The places of parts, or where there is none that of the whole.
fn or_whole<'p>(
    alloc: Global,
    effective: &'p EffectiveProfile<'p>,
    profile: &'p str,
    keys: &[&'p str],
    parts: Vec<FaultSource<'p>>,
) -> Result<Vec<FaultSource<'p>>, AllocError>
    ensures { IfOk result (λ sources. AreOrWhole effective.now profile.now (words_of keys.now)
        parts.entry.items sources.items) }
{
    if parts.is_empty() {
        return whole_place(alloc, effective, profile, keys);
    }
    Ok(parts)
}

// Where the whole value stands.
fn whole_place<'p>(
    alloc: Global,
    effective: &'p EffectiveProfile<'p>,
    profile: &'p str,
    keys: &[&'p str],
) -> Result<Vec<FaultSource<'p>>, AllocError>
    ensures { IfOk result (λ sources. ArePlacesAt effective.now profile.now
        (words_of keys.now ∷ []) sources.items) }
{
    let mut sources = Vec::new(alloc);
    let keys = copy_of(alloc, keys)?;
    let place = place(alloc, effective, profile, keys)?;
    push_some(&mut sources, place)?;
    Ok(sources)
}

// Where the keys of a table stand.
fn member_places<'p>(
    alloc: Global,
    effective: &'p EffectiveProfile<'p>,
    profile: &'p str,
    setting: KnownSetting<'_>,
) -> Result<Vec<FaultSource<'p>>, AllocError>
    ensures { IfOk result (λ sources. ArePlacesAt effective.now profile.now
        (map (keys_of_member (rule_of setting.entry).keys) (rule_of setting.entry).members)
        sources.items) }
{
    let members = setting.members();
    let mut sources = Vec::new(alloc);
    for member in members {
        let keys = with_key(alloc, setting.keys, member.key)?;
        let place = place(alloc, effective, profile, keys)?;
        push_some(&mut sources, place)?;
    }
    Ok(sources)
}

// Where the last layer that says anything of these keys has them, if they have a value.
fn place<'p>(
    alloc: Global,
    effective: &'p EffectiveProfile<'p>,
    profile: &'p str,
    keys: Vec<&'p str>,
) -> Result<Option<FaultSource<'p>>, AllocError>
    ensures { IfOk result (IsPlaceOf effective.now profile.now (words_of keys.entry.items)) }
{
    match last_source(alloc, effective, profile, keys.as_slice())? {
        Some(source) => Ok(Some(FaultSource { keys, source })),
        None => Ok(None),
    }
}
