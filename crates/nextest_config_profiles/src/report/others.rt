//! What a profile has beside the settings that are read here.

ghost use Rattle.std.specs.Prelude.{◌≡◌, ◌∷◌, [], IfOk, MatchOption, Some};
ghost use Rattle.nextest_config_profiles.specs.Reach.{words_of};
ghost use Rattle.nextest_config_profiles.specs.Report.Others.{AreOthers, has_settings, is_other, IsOther, IsOtherOf, other_keys, PassesOther};
ghost use Rattle.nextest_config_profiles.specs.Report.Rows.{IsLastAt};
ghost use Rattle.nextest_config_profiles.specs.Report.Setting.{member_of, parts_in};

use crate::report::last::last_at;
use crate::report::parts::{Literal, OtherKey};
use crate::report::setting::{is_setting, table_fields};
use crate::report::somes::push_some;
use crate::report::source::source_of;
use crate::{EffectiveProfile, LayerValue};
use nextest_config_elements::field::Field;
use nextest_config_elements::keys::profile_fields;
use std::alloc::{AllocError, Global};

/// The keys that are known in a profile, but for those that are told elsewhere.
pub(crate) fn other_keys(alloc: Global) -> Result<Vec<&'static str>, AllocError>
    ensures { IfOk result (λ keys. words_of keys.items ≡ other_keys) }
{
    let fields = profile_fields();
    let mut keys = Vec::new(alloc);
    for field in fields {
        if is_other(field) {
            keys.push(field.key)?;
        }
    }
    Ok(keys)
}

// Whether a key of a profile is told of by itself: no setting is told at it, and the chain and the
// overrides aren't made by it.
fn is_other(field: &'static Field) -> bool
    ensures { result ≡ is_other (member_of field.now) (parts_in field.now) }
{
    !is_setting(&[], field.absent)
        && !has_settings(field)
        && field.key != "inherits"
        && field.key != "overrides"
}

// Whether settings stand in the table at a key of a profile.
fn has_settings(field: &'static Field) -> bool
    ensures { result ≡ has_settings (member_of field.now) (parts_in field.now) }
{
    table_fields(field)
        .iter()
        .any(|inner| is_setting(&[field.key], inner.absent))
}

/// What else a profile has: of each key what the first profile of the chain has that has it.
pub(crate) fn others<'p>(
    alloc: Global,
    effective: &'p EffectiveProfile<'p>,
) -> Result<Vec<OtherKey<'p>>, AllocError>
    ensures { IfOk result (λ others. AreOthers effective.now others.items) }
{
    let keys = other_keys(alloc)?;
    let mut others = Vec::new(alloc);
    for key in &keys {
        let other = other(alloc, effective, key)?;
        push_some(&mut others, other)?;
    }
    Ok(others)
}

// What the first profile of the chain has at a key that has it.
fn other<'p>(
    alloc: Global,
    effective: &'p EffectiveProfile<'p>,
    key: &'static str,
) -> Result<Option<OtherKey<'p>>, AllocError>
    ensures { IfOk result (IsOther effective.now key.now) }
{
    let chain = effective.chain();
    for profile in chain {
        if let Some(other) = other_of(alloc, effective, profile.as_str(), key)? {
            return Ok(Some(other));
        }
    }
    Ok(None)
}

// What a profile has at a key.
fn other_of<'p>(
    alloc: Global,
    effective: &'p EffectiveProfile<'p>,
    profile: &'p str,
    key: &'static str,
) -> Result<Option<OtherKey<'p>>, AllocError>
    ensures { IfOk result (λ other. MatchOption other
        (PassesOther effective.now key.now profile.now)
        (IsOtherOf effective.now key.now profile.now)) }
{
    match last_at(alloc, effective, profile, &[key])? {
        Some(found) => other_found(alloc, effective, profile, key, found),
        None => Ok(None),
    }
}

// What a profile has at a key, where this layer is the last that says anything of it.
fn other_found<'p>(
    alloc: Global,
    effective: &'p EffectiveProfile<'p>,
    profile: &'p str,
    key: &'static str,
    found: LayerValue<'p>,
) -> Result<Option<OtherKey<'p>>, AllocError>
    requires { IsLastAt effective.now profile.now (key.now ∷ []) (Some found) }
    ensures { IfOk result (λ other. MatchOption other
        (PassesOther effective.now key.now profile.now)
        (IsOtherOf effective.now key.now profile.now)) }
{
    match effective.value(alloc, &[profile, key])? {
        Some(value) => {
            let source = source_of(alloc, effective, found.layer, profile, &[key])?;
            let literal = Literal::of(alloc, value)?;
            Ok(Some(OtherKey {
                key,
                literal,
                source,
            }))
        }
        None => Ok(None),
    }
}
