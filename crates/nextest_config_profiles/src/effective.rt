//! What a chain of profiles gives a setting.

ghost use Rattle.std.specs.Prelude.{◌∷◌, [], IfOk, MatchOption, None};
ghost use Rattle.toml.specs.View.{view};
ghost use Rattle.nextest_config_values.specs.Read.{RefusesBy};
ghost use Rattle.nextest_config_profiles.specs.Effective.{IsEffective, IsGiven, IsOf, IsRead, Passes};
ghost use Rattle.nextest_config_profiles.specs.Merged.{Layers};
ghost use Rattle.nextest_config_profiles.specs.Profile.{AreLookedUp, names_of};
ghost use Rattle.nextest_config_profiles.specs.Reach.{AreReached, words_of};

use crate::merged::merged_below;
use crate::profile_alone::ProfileAlone;
use crate::reach::Reach;
use nextest_config_elements::profile_setting::ProfileSetting;
use nextest_config_lint::is_unjudged;
use nextest_config_values::read::ValueFault;
use std::alloc::{AllocError, Global};
use toml::Value;

/// What a chain of profiles gives a setting: what the first profile that has it says.
#[derive(Debug, Drop)]
pub enum Effective<'p, T: Drop> {
    /// This value, of this profile.
    Value { profile: &'p str, value: T },
    /// A value with a duration that isn't judged here.
    NotJudged { profile: &'p str },
    /// A value that its reader refuses, as the layers are merged.
    Fault { profile: &'p str, fault: ValueFault },
    /// Nothing: no profile of the chain has a value that counts.
    Nothing,
}

/// What the first of these profiles that counts gives the setting at these keys.
pub(crate) fn first_given<'p, T: ProfileSetting>(
    alloc: Global,
    profiles: &[ProfileAlone<'p>],
    keys: &[&str],
) -> Result<Effective<'p, T>, AllocError>
    ensures { IfOk result (λ given. (layers : Layers) → AreLookedUp layers profiles.now
        → IsEffective T.seen T.reading layers (words_of keys.now) (names_of profiles.now) given) }
{
    for profile in profiles {
        if let Some(given) = given_by(alloc, profile.name, profile.layers.as_slice(), keys)? {
            return Ok(given);
        }
    }
    Ok(Effective::Nothing)
}

/// What a profile gives the setting, if it counts, where its name leads there in the layers.
pub(crate) fn given_by<'p, T: ProfileSetting>(
    alloc: Global,
    profile: &'p str,
    layers: &[Reach<'_>],
    keys: &[&str],
) -> Result<Option<Effective<'p, T>>, AllocError>
    ensures { IfOk result (λ given. (all : Layers) → AreReached all (profile.now ∷ []) layers.now
        → MatchOption given
        (Passes T.seen T.reading all (words_of keys.now) profile.now)
        (IsGiven T.seen T.reading all (words_of keys.now) profile.now)) }
{
    match merged_below(layers, keys)? {
        Some(value) => {
            let given = read_value(alloc, profile, &value)?;
            Ok(given)
        }
        None => Ok(None),
    }
}

/// What a profile's value of the setting is read as.
pub(crate) fn read_value<'p, T: ProfileSetting>(
    alloc: Global,
    profile: &'p str,
    value: &Value,
) -> Result<Option<Effective<'p, T>>, AllocError>
    ensures { IfOk result (λ given. MatchOption given
        (T.reading.means (view value.now) None)
        (λ given. IsRead T.seen T.reading (view value.now) given × IsOf profile.now given)) }
{
    match T::read_setting(alloc, value) {
        Ok(Some(x)) => Ok(Some(Effective::Value { profile, value: x })),
        Ok(None) => Ok(None),
        Err(fault) => Ok(Some(refused(alloc, profile, value, fault)?)),
    }
}

// What is given where the value is refused.
fn refused<'p, T: ProfileSetting>(
    alloc: Global,
    profile: &'p str,
    value: &Value,
    fault: ValueFault,
) -> Result<Effective<'p, T>, AllocError>
    requires { RefusesBy T.reading (view value.now) fault }
    ensures { IfOk result (λ given.
        IsRead T.seen T.reading (view value.now) given × IsOf profile.now given) }
{
    if fault.is_memory() {
        return Err(AllocError);
    }
    if is_unjudged(alloc, value, &fault)? {
        return Ok(Effective::NotJudged { profile });
    }
    Ok(Effective::Fault { profile, fault })
}
