//! What is found of the names of profiles, and of what they inherit from.

ghost use Rattle.std.specs.Prelude.{IfOk, map, option_map, string_bytes};
ghost use Rattle.std.specs.List.{filter};
ghost use Rattle.nextest_config_lint.specs.Found.{suggestion_of, reserved_profile, IsReportedIf, ReportsIfAny, HoldsInView};
ghost use Rattle.nextest_config_values.specs.Read.{words_of};
ghost use Rattle.nextest_config_lint.specs.References.Profiles.{AreFew, IsParentNameReported, IsParentReported, IsReserved, is_other};
ghost use Rattle.nextest_config_lint.specs.References.Names.{IsSought};
ghost use Rattle.nextest_config_lint.specs.References.JudgedFile.{HoldsInList};

use crate::defined::{DEFAULT_MIRI, DEFAULT_PROFILE, Defined};
use crate::finding::{FindingKind, Hint};
use crate::hints::nearest_hint;
use crate::references::Reported;
use crate::references::names::MOST_NAMES;
use std::alloc::{AllocError, Global};
use std::collections::BTreeSet;

/// What is found of the name of a profile.
pub(super) fn of_profile(name: &str) -> Option<FindingKind>
    ensures reported { HoldsInView (IsReportedIf (IsReserved name.now) reserved_profile) result }
    ensures reports { ReportsIfAny result }
{
    if name != DEFAULT_MIRI && name.starts_with("default-") {
        Some(FindingKind::ReservedProfile)
    } else {
        None
    }
}

/// What is found of what a profile inherits from, in the file at this position.
pub(super) fn of_parent(
    alloc: Global,
    defined: &Defined,
    position: usize,
    profile: &str,
    parent: &str,
) -> Reported
    ensures reported { IfOk result (HoldsInList defined.now
        (λ files. IsParentReported files position profile.now parent.now)) }
    ensures reports { IfOk result ReportsIfAny }
{
    if profile == DEFAULT_PROFILE {
        return Ok(Some(FindingKind::DefaultInherits));
    }
    if defined.comes_back(profile, position) {
        let profile = String::from_str(alloc, profile)?;
        return Ok(Some(FindingKind::InheritsItself { profile }));
    }
    of_parent_name(alloc, defined, profile, parent)
}

// What is found of the name of what a profile inherits from.
fn of_parent_name(alloc: Global, defined: &Defined, profile: &str, parent: &str) -> Reported
    ensures reported { IfOk result (HoldsInList defined.now
        (λ files. IsParentNameReported files profile.now parent.now)) }
    ensures reports { IfOk result ReportsIfAny }
{
    if !defined.is_undefined_profile(parent) {
        return Ok(None);
    }
    let hint = nearest_profile(alloc, &defined.profiles, profile, parent)?;
    let name = String::from_str(alloc, parent)?;
    Ok(Some(FindingKind::UndefinedProfile { name, hint }))
}

// The profile that a name may be meant for which another one has, where there are few others.
fn nearest_profile(
    alloc: Global,
    profiles: &BTreeSet<String>,
    child: &str,
    name: &str,
) -> Result<Option<Hint>, AllocError>
    ensures { IfOk result (λ hint. IsSought
        (filter (is_other child.now) (map string_bytes profiles.now.keys)) name.now
        (option_map suggestion_of hint)) }
{
    match words_but(alloc, profiles, child)? {
        Some(words) => nearest_hint(alloc, name, words.as_slice()),
        None => Ok(None),
    }
}

// The names of a set but for this one, if they are few.
fn words_but<'a>(
    alloc: Global,
    names: &'a BTreeSet<String>,
    left_out: &str,
) -> Result<Option<Vec<&'a str>>, AllocError>
    ensures { IfOk result (λ few. AreFew
        (filter (is_other left_out.now) (map string_bytes names.now.keys))
        (option_map (λ words. words_of words.items) few)) }
{
    let mut words = Vec::new(alloc);
    for name in names {
        if name.as_str() != left_out {
            if words.len() >= MOST_NAMES {
                return Ok(None);
            }
            words.push(name.as_str())?;
        }
    }
    Ok(Some(words))
}
