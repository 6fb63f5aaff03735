//! Which profile gives a setting, and whether what it gives is a value.

ghost use Rattle.std.specs.Prelude.{◌≡◌, IfOk};
ghost use Rattle.toml.specs.View.{view};
ghost use Rattle.nextest_config_profiles.specs.Profile.{AreLookedUp, layers_in, names_of};
ghost use Rattle.nextest_config_profiles.specs.Reach.{words_of};
ghost use Rattle.nextest_config_profiles.specs.Report.Given.{given_of, IsFaultJudged, IsGivenBy, IsGivenFor, IsGivenUnread, IsReadFor, IsValueJudged, shape_read};
ghost use Rattle.nextest_config_profiles.specs.Report.Setting.{member_of, rule_of};

use crate::effective::first_given;
use crate::profile_alone::ProfileAlone;
use crate::report::converted::{read_rest, unconverted};
use crate::report::keys::path_in;
use crate::report::setting::KnownSetting;
use crate::report::written::{Written, is_documented};
use crate::{Effective, EffectiveProfile};
use nextest_config_elements::field::{Field, Shape};
use nextest_config_elements::profile_setting::ProfileSetting;
use nextest_config_elements::readers::{ReaderVisitor, visit_reader};
use nextest_config_elements::slow_timeout::SlowTimeout;
use nextest_config_lint::is_converted_at;
use nextest_config_values::read::ValueFault;
use std::alloc::{AllocError, Global};
use toml::Value;

/// What profiles give a setting, without the value itself.
#[derive(Drop)]
pub(crate) enum Given<'p> {
    /// A value, of this profile.
    Value { profile: &'p str },
    /// A value with a duration that isn't judged here.
    NotJudged { profile: &'p str },
    /// A value that its reader refuses.
    Fault { profile: &'p str, fault: ValueFault },
    Nothing,
}

/// What the first of these profiles that has a setting gives it, but for what nextest may convert
/// in it.
pub(crate) fn given_for<'p>(
    alloc: Global,
    effective: &EffectiveProfile<'_>,
    profiles: &[ProfileAlone<'p>],
    setting: KnownSetting<'_>,
) -> Result<Given<'p>, AllocError>
    requires { AreLookedUp (layers_in effective.now) profiles.now }
    ensures { IfOk result
        (IsGivenFor effective.now (names_of profiles.now) (rule_of setting.entry)) }
{
    match read_for(alloc, effective, profiles, setting)? {
        Given::Fault { profile, fault } => {
            let judged = judged_fault(alloc, effective, setting, profile, fault)?;
            Ok(judged)
        }
        Given::Value { profile } => Ok(Given::Value { profile }),
        Given::NotJudged { profile } => Ok(Given::NotJudged { profile }),
        Given::Nothing => Ok(Given::Nothing),
    }
}

// What is given for a setting, where what this profile has there has a fault.
fn judged_fault<'p>(
    alloc: Global,
    effective: &EffectiveProfile<'_>,
    setting: KnownSetting<'_>,
    name: &'p str,
    fault: ValueFault,
) -> Result<Given<'p>, AllocError>
    ensures { IfOk result (IsFaultJudged effective.now (rule_of setting.entry) name.now fault) }
{
    let path = path_in(alloc, name, setting.keys)?;
    match effective.value(alloc, path.as_slice())? {
        Some(value) => {
            let judged = judged_value(alloc, setting, name, fault, value)?;
            Ok(judged)
        }
        None => Ok(Given::Fault {
            profile: name,
            fault,
        }),
    }
}

// What is given for a setting, where the layers come to this value, which has a fault.
fn judged_value<'p>(
    alloc: Global,
    setting: KnownSetting<'_>,
    name: &'p str,
    fault: ValueFault,
    value: Value,
) -> Result<Given<'p>, AllocError>
    ensures { IfOk result
        (IsValueJudged (rule_of setting.entry).keys name.now fault (view value)) }
{
    if is_converted_at(setting.keys, &value) {
        return Ok(Given::Value { profile: name });
    }
    match unconverted(alloc, setting.keys, value)? {
        Some(rest) => {
            let judged = read_rest::<SlowTimeout>(alloc, name, &rest)?;
            Ok(judged)
        }
        None => Ok(Given::Fault {
            profile: name,
            fault,
        }),
    }
}

// What the first of these profiles that has a setting gives it, as it stands.
fn read_for<'p>(
    alloc: Global,
    effective: &EffectiveProfile<'_>,
    profiles: &[ProfileAlone<'p>],
    setting: KnownSetting<'_>,
) -> Result<Given<'p>, AllocError>
    requires { AreLookedUp (layers_in effective.now) profiles.now }
    ensures { IfOk result
        (IsReadFor effective.now (names_of profiles.now) (rule_of setting.entry)) }
{
    let shape = shape_read(setting.field);
    let asked = GivenAt {
        alloc,
        effective,
        profiles,
        keys: setting.keys,
        shape,
    };
    visit_reader(shape, asked)
}

// What profiles give at keys.
#[derive(Drop)]
struct GivenAt<'a, 'e, 'p> {
    alloc: Global,
    effective: &'a EffectiveProfile<'e>,
    profiles: &'a [ProfileAlone<'p>],
    keys: &'a [&'a str],
    shape: Shape,
}

impl<'p> ReaderVisitor for GivenAt<'_, '_, 'p> {
    type Output = Result<Given<'p>, AllocError>;

    ghost is_ready = { λ asked. AreLookedUp (layers_in asked.effective.now) asked.profiles.now };

    ghost answers = { λ X Y seen reading asked result. IfOk result
        (IsGivenBy seen reading asked.effective.now (names_of asked.profiles.now)
        (words_of asked.keys.now)) };

    ghost answers_unread = { λ asked result. IfOk result
        (IsGivenUnread asked.shape asked.effective.now (names_of asked.profiles.now)
        (words_of asked.keys.now)) };

    fn visit<T: ProfileSetting>(self) -> Result<Given<'p>, AllocError> {
        let given = first_given::<T>(self.alloc, self.profiles, self.keys)?;
        Ok(given_of(given))
    }

    fn visit_unread(self) -> Result<Given<'p>, AllocError> {
        match self.shape {
            Shape::Text => self.visit::<String>(),
            _ => self.visit::<Written>(),
        }
    }
}

// The shape by which a value is read: any, of what is known from nextest's documentation alone.
fn shape_read(field: &Field) -> Shape
    ensures { result ≡ shape_read (member_of field.now) }
{
    if is_documented(field.severity) {
        return Shape::Any;
    }
    field.shape
}

/// What is given, without the value.
pub(crate) fn given_of<'p, T: Drop>(effective: Effective<'p, T>) -> Given<'p>
    ensures { result ≡ given_of effective.entry }
{
    match effective {
        Effective::Value { profile, .. } => Given::Value { profile },
        Effective::NotJudged { profile } => Given::NotJudged { profile },
        Effective::Fault { profile, fault } => Given::Fault { profile, fault },
        Effective::Nothing => Given::Nothing,
    }
}
