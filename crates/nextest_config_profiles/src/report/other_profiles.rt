//! Faults of settings in other profiles than the one that gives the setting.

ghost use Rattle.std.specs.Prelude.{◌≡◌, IfOk, option_map};
ghost use Rattle.nextest_config_profiles.specs.Profile.{AreLookedUp, IsLookedUp, layers_in, names_of};
ghost use Rattle.nextest_config_profiles.specs.Report.OtherProfiles.{giver_of, IsFaultIf, IsFaultOf, IsOtherProfileFault, IsGivenFault, names_judged};
ghost use Rattle.nextest_config_profiles.specs.Report.Setting.{rule_of};
ghost use Rattle.nextest_config_profiles.specs.Report.Somes.{AreSomes};

use crate::EffectiveProfile;
use crate::profile_alone::ProfileAlone;
use crate::reach::some_have;
use crate::report::faulty::{message, places};
use crate::report::given::{Given, given_for};
use crate::report::keys::copy_of;
use crate::report::parts::OtherProfileFault;
use crate::report::setting::KnownSetting;
use crate::report::somes::push_some;
use crate::report::written::is_documented;
use nextest_config_values::read::ValueFault;
use std::alloc::{AllocError, Global};
use std::slice;

/// The profile by which this is given, if anything is.
pub(crate) fn giver_of<'p>(given: &Given<'p>) -> Option<&'p str>
    ensures { option_map (λ name. name.now) result ≡ giver_of given.now }
{
    match given {
        Given::Value { profile } | Given::NotJudged { profile } => Some(*profile),
        Given::Fault { profile, .. } => Some(*profile),
        Given::Nothing => None,
    }
}

/// What is wrong with a setting of these profiles, but of the one that gives it.
pub(crate) fn faults_of<'p>(
    alloc: Global,
    effective: &'p EffectiveProfile<'p>,
    setting: KnownSetting<'_>,
    giver: Option<&str>,
    profiles: &[ProfileAlone<'p>],
) -> Result<Vec<OtherProfileFault<'p>>, AllocError>
    requires { AreLookedUp (layers_in effective.now) profiles.now }
    ensures { IfOk result (λ faults.
        AreSomes (IsFaultOf effective.now (rule_of setting.entry)
        (option_map (λ name. name.now) giver.entry))
        (names_judged (rule_of setting.entry).rule.severity (names_of profiles.now)) faults.items) }
{
    let mut faults = Vec::new(alloc);
    if is_documented(setting.field.severity) {
        // No reader reads it, so none refuses it.
        return Ok(faults);
    }
    for profile in profiles {
        let fault = fault_of(alloc, effective, setting, giver, profile)?;
        push_some(&mut faults, fault)?;
    }
    Ok(faults)
}

// What is wrong with a setting of a profile, unless it is the one that gives the setting.
fn fault_of<'p>(
    alloc: Global,
    effective: &'p EffectiveProfile<'p>,
    setting: KnownSetting<'_>,
    giver: Option<&str>,
    profile: &ProfileAlone<'p>,
) -> Result<Option<OtherProfileFault<'p>>, AllocError>
    requires { IsLookedUp (layers_in effective.now) profile.now }
    ensures { IfOk result (IsFaultOf effective.now (rule_of setting.entry)
        (option_map (λ name. name.now) giver.entry) profile.now.name.now) }
{
    if giver == Some(profile.name) {
        return Ok(None);
    }
    let fault = fault_if(alloc, effective, setting, profile)?;
    Ok(fault)
}

// What is wrong with what a profile alone has for a setting.
fn fault_if<'p>(
    alloc: Global,
    effective: &'p EffectiveProfile<'p>,
    setting: KnownSetting<'_>,
    profile: &ProfileAlone<'p>,
) -> Result<Option<OtherProfileFault<'p>>, AllocError>
    requires { IsLookedUp (layers_in effective.now) profile.now }
    ensures { IfOk result
        (IsFaultIf effective.now (rule_of setting.entry) profile.now.name.now) }
{
    if !some_have(profile.layers.as_slice(), setting.keys) {
        return Ok(None);
    }
    let given = given_for(alloc, effective, slice::from_ref(profile), setting)?;
    let fault = fault_of_given(alloc, effective, setting, profile.name, given)?;
    Ok(fault)
}

// What is told where a profile alone has this for a setting.
fn fault_of_given<'p>(
    alloc: Global,
    effective: &'p EffectiveProfile<'p>,
    setting: KnownSetting<'_>,
    profile: &'p str,
    given: Given<'p>,
) -> Result<Option<OtherProfileFault<'p>>, AllocError>
    ensures { IfOk result
        (IsGivenFault effective.now (rule_of setting.entry) profile.now given.entry) }
{
    match given {
        Given::Fault { fault, .. } => {
            let fault = other_profile_fault(alloc, effective, setting, profile, fault)?;
            Ok(Some(fault))
        }
        Given::Value { .. } | Given::NotJudged { .. } | Given::Nothing => Ok(None),
    }
}

// How a fault is told.
fn other_profile_fault<'p>(
    alloc: Global,
    effective: &'p EffectiveProfile<'p>,
    setting: KnownSetting<'_>,
    profile: &'p str,
    fault: ValueFault,
) -> Result<OtherProfileFault<'p>, AllocError>
    ensures { IfOk result
        (IsOtherProfileFault effective.now (rule_of setting.entry) profile.now fault) }
{
    Ok(OtherProfileFault {
        profile,
        keys: copy_of(alloc, setting.keys)?,
        sources: places(alloc, effective, profile, setting)?,
        message: message(alloc, fault)?,
    })
}
