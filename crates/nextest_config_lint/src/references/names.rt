//! What is found of the names of test groups and scripts.

ghost use Rattle.std.specs.Prelude.{◌≡◌, IfOk, Some, map, option_and_then, option_map, string_bytes};
ghost use Rattle.nextest_config_values.specs.Identifier.{IdentifierFlaw, NameFault, identifier_fault};
ghost use Rattle.nextest_config_values.specs.Read.Fault.{identifier};
ghost use Rattle.nextest_config_lint.specs.Found.{kind_view, suggestion_of, no_name, ReportsIfAny};
ghost use Rattle.nextest_config_values.specs.Read.{words_of};
ghost use Rattle.nextest_config_lint.specs.References.Names.{IsGroupTextReported, IsKeptReported, IsMissingReported, IsNameReported, IsNearestReported, IsSought};
ghost use Rattle.nextest_config_lint.specs.References.JudgedFile.{HoldsInList};

use crate::defined::Defined;
use crate::finding::{FindingKind, Hint};
use crate::hints::nearest_hint;
use crate::references::Reported;
use nextest_config_elements::named::NamedKind;
use nextest_config_values::identifier::{ConfigIdentifier, InvalidIdentifier};
use std::alloc::{AllocError, Global};
use std::collections::BTreeSet;

/// The most names among which the nearest is sought, since each may be far from it.
pub(super) const MOST_NAMES: usize = 100;

/// What is found of the text of `test-group`.
pub(super) fn of_group_text(alloc: Global, defined: &Defined, text: &str) -> Reported
    ensures reported { IfOk result (HoldsInList defined.now
        (λ files. IsGroupTextReported files text.now)) }
    ensures reports { IfOk result ReportsIfAny }
{
    if text == "@global" {
        return Ok(None);
    }
    of_text(alloc, defined, NamedKind::Group, text)
}

/// What is found of a text that names what is defined by a name of a kind.
pub(super) fn of_text(alloc: Global, defined: &Defined, kind: NamedKind, text: &str) -> Reported
    ensures reported { IfOk result (HoldsInList defined.now
        (λ files. IsNameReported kind (IsKeptReported kind files) text.now)) }
    ensures reports { IfOk result ReportsIfAny }
{
    match ConfigIdentifier::new(alloc, text) {
        Ok(name) => of_name(alloc, defined, kind, &name),
        Err(error) => no_name(kind, error),
    }
}

// What is found of a name that is to be one of a kind.
fn of_name(alloc: Global, defined: &Defined, kind: NamedKind, name: &ConfigIdentifier) -> Reported
    ensures reported { IfOk result (HoldsInList defined.now
        (λ files. IsKeptReported kind files name.now)) }
    ensures reports { IfOk result ReportsIfAny }
{
    if defined.is_undefined(kind, name) {
        of_missing(alloc, defined, kind, name.as_str())
    } else {
        Ok(None)
    }
}

// What is found of a name of a kind that no file defines.
fn of_missing(alloc: Global, defined: &Defined, kind: NamedKind, name: &str) -> Reported
    ensures reported { IfOk result (HoldsInList defined.now
        (λ files. IsMissingReported kind files name.now)) }
    ensures reports { IfOk result ReportsIfAny }
{
    match kind {
        NamedKind::Group => of_undefined(alloc, defined, kind, name),
        NamedKind::Script(script) => {
            let other = script.other();
            if defined.defines(NamedKind::Script(other), name) {
                let name = String::from_str(alloc, name)?;
                return Ok(Some(FindingKind::OtherScript {
                    script: other,
                    name,
                }));
            }
            of_undefined(alloc, defined, NamedKind::Script(script), name)
        }
    }
}

// What is found of a name of a kind that no file defines for any.
fn of_undefined(alloc: Global, defined: &Defined, kind: NamedKind, name: &str) -> Reported
    ensures reported { IfOk result (HoldsInList defined.now
        (λ files. IsNearestReported kind files name.now)) }
    ensures reports { IfOk result ReportsIfAny }
{
    let hint = nearest_name(alloc, defined.names(kind), name)?;
    let name = String::from_str(alloc, name)?;
    Ok(Some(FindingKind::UndefinedName { kind, name, hint }))
}

/// What is found of a text that is no identifier, where a name of a kind is to stand.
pub(super) fn no_name(kind: NamedKind, error: InvalidIdentifier) -> Reported
    ensures reported { IfOk result (λ reported. (fault : NameFault IdentifierFlaw)
        × (identifier_fault error ≡ Some fault)
        × (option_and_then kind_view reported ≡ Some (no_name kind (identifier fault)))) }
    ensures reports { IfOk result ReportsIfAny }
{
    match error {
        InvalidIdentifier::Memory => Err(AllocError),
        error => Ok(Some(FindingKind::NoName { kind, error })),
    }
}

// What a name may be meant for, where there are few that are defined.
fn nearest_name(
    alloc: Global,
    names: &BTreeSet<String>,
    name: &str,
) -> Result<Option<Hint>, AllocError>
    ensures { let names = map string_bytes names.now.keys in
        IfOk result (λ hint. IsSought names name.now (option_map suggestion_of hint)) }
{
    if names.len() > MOST_NAMES {
        return Ok(None);
    }
    let words = words(alloc, names)?;
    nearest_hint(alloc, name, words.as_slice())
}

// The names of a set.
fn words<'a>(alloc: Global, names: &'a BTreeSet<String>) -> Result<Vec<&'a str>, AllocError>
    ensures { IfOk result (λ words. words_of words.items ≡ map string_bytes names.now.keys) }
{
    let mut words = Vec::new(alloc);
    for name in names {
        words.push(name.as_str())?;
    }
    Ok(words)
}
