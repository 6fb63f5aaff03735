//! The keys of a document that aren't known where they stand.

ghost use Rattle.std.specs.Prelude.{◌≡◌, ◌++◌, [], IfOk, OnOk, flat_map, map, option_map, Some};
ghost use Rattle.toml.specs.Data.{table};
ghost use Rattle.toml.specs.View.{table_view, view};
ghost use Rattle.nextest_config_elements.specs.Fields.{field_words, fields_view, parts_of};
ghost use Rattle.nextest_config_elements.specs.Keys.{file_table};
ghost use Rattle.nextest_config_lint.specs.Found.{AddsFound, AddsOne, AreFoundIn, ReportsSome, Suggests};
ghost use Rattle.nextest_config_lint.specs.Settings.{is_known, setting_view, mark_step, names_of};
ghost use Rattle.nextest_config_values.specs.Read.{words_of};
ghost use Rattle.nextest_config_lint.specs.Unknown.{is_junit_of_script, scope_of, scope_words, scopes_at, IsHintFor, IsKeyFound, key_at, keys_among, keys_below, keys_in, pieces_of, slip_of, word_with_part};

use crate::finding::{Finding, FindingKind, Hint, Scope};
use crate::hints::word_hint;
use crate::settings::{Mark, Setting, Subject, is_among, is_key, keys_of, steps_of};
use nextest_config_elements::field::{Field, Parts};
use nextest_config_elements::keys::{
    file_fields, override_fields, override_junit_fields, profile_fields,
};
use nextest_config_values::nearest_word::{is_same, nearest};
use std::alloc::{AllocError, Global};
use strsim::levenshtein;
use toml::{Table, Value};

// The tables that know keys, in the order in which a key is looked for.
const SCOPES: &[Scope] = &[Scope::Top, Scope::Profile, Scope::Override, Scope::Junit];

// The `junit` of a script lacks keys of another one, which don't belong in that.
const BESIDE_JUNIT: &[Scope] = &[Scope::Top, Scope::Profile, Scope::Override];

/// Adds the unknown keys of a value, if it is a table whose keys are judged.
pub(crate) fn add_keys_in(
    alloc: Global,
    setting: &Setting,
    findings: &mut Vec<Finding>,
) -> Result<(), AllocError>
    ensures { OnOk result (AddsFound IsKeyFound (keys_in (setting_view setting.now))
        findings.old.items findings.new.items) }
{
    match setting.subject {
        Subject::Value { parts, value, .. } => {
            add_keys_below(alloc, &parts, setting.path, value, findings)
        }
        _ => Ok(()),
    }
}

// Adds the unknown keys of a value with these parts.
fn add_keys_below(
    alloc: Global,
    parts: &Parts,
    path: &[Mark],
    value: &Value,
    findings: &mut Vec<Finding>,
) -> Result<(), AllocError>
    ensures { OnOk result (AddsFound IsKeyFound
        (keys_below (parts_of parts.now) (map mark_step path.now) (view value.now))
        findings.old.items findings.new.items) }
{
    let Some(table) = value.as_table() else {
        return Ok(());
    };
    match parts {
        Parts::Fields(fields) | Parts::Versions(fields) | Parts::ElementsOrFields(_, fields) => {
            add_beside(alloc, fields, path, table, findings)
        }
        Parts::Nothing
        | Parts::Features(_)
        | Parts::Retries { .. }
        | Parts::Names(_, _)
        | Parts::Elements(_, _) => Ok(()),
    }
}

/// Adds the keys of a table that are those of none of these fields.
pub(crate) fn add_beside(
    alloc: Global,
    fields: &[Field],
    path: &[Mark],
    table: &Table,
    findings: &mut Vec<Finding>,
) -> Result<(), AllocError>
    ensures { OnOk result (AddsFound IsKeyFound
        (keys_among (Some (field_words (fields_view fields.now))) (map mark_step path.now)
        (table_view table.now))
        findings.old.items findings.new.items) }
{
    for name in table.keys() {
        add_key(alloc, fields, path, name.as_str(), findings)?;
    }
    Ok(())
}

// Adds a key, unless it is that of one of these fields.
fn add_key(
    alloc: Global,
    fields: &[Field],
    path: &[Mark],
    name: &str,
    findings: &mut Vec<Finding>,
) -> Result<(), AllocError>
    ensures { OnOk result (AddsOne IsKeyFound
        (key_at (field_words (fields_view fields.now)) (map mark_step path.now) name.now)
        findings.old.items findings.new.items) }
{
    if is_among(fields, name) {
        return Ok(());
    }
    let known = keys_of(alloc, fields)?;
    let hint = hint_for(alloc, known.as_slice(), path, name)?;
    let path = steps_of(alloc, path)?;
    let key = String::from_str(alloc, name)?;
    let kind = FindingKind::UnknownKey { key, hint };
    findings.push(Finding { path, kind })?;
    Ok(())
}

// What an unknown key of the table at a path may be meant for.
fn hint_for(
    alloc: Global,
    known: &[&'static str],
    path: &[Mark],
    name: &str,
) -> Result<Option<Hint>, AllocError>
    ensures { IfOk result (Suggests (IsHintFor (words_of known.now) (map mark_step path.now)
        name.now)) }
{
    let near = nearest(alloc, name, known)?;
    let slip = slip_of(alloc, name, near)?;
    if slip.is_some() {
        return word_hint(alloc, slip);
    }
    if let Some(scope) = scope_of(scopes_at(path), name) {
        return Ok(Some(Hint::Belongs(scope)));
    }
    word_hint(alloc, near.or(word_with_part(known, name)))
}

// The word, if the name is the same or one edit away.
fn slip_of<'w>(
    alloc: Global,
    name: &str,
    near: Option<&'w str>,
) -> Result<Option<&'w str>, AllocError>
    ensures { IfOk result (λ slip. option_map (λ word. word.now) slip
        ≡ slip_of name.now (option_map (λ word. word.now) near.entry)) }
{
    let Some(word) = near else {
        return Ok(None);
    };
    if is_same(name, word) || levenshtein(alloc, name, word)? == 1 {
        Ok(Some(word))
    } else {
        Ok(None)
    }
}

// The tables in which a key of the table at a path may belong.
fn scopes_at(path: &[Mark]) -> &'static [Scope]
    ensures { result.now ≡ scopes_at (map mark_step path.now) }
{
    if is_junit_of_script(path) {
        BESIDE_JUNIT
    } else {
        SCOPES
    }
}

// Whether the path is that of the `junit` of a script.
fn is_junit_of_script(path: &[Mark]) -> bool
    ensures { result ≡ is_junit_of_script (map mark_step path.now) }
{
    match path {
        [top, _, last] => is_key(top, "script") & is_key(last, "junit"),
        [top, _, _, last] => is_key(top, "scripts") & is_key(last, "junit"),
        _ => false,
    }
}

// The first of these tables that knows the key.
fn scope_of(scopes: &[Scope], name: &str) -> Option<Scope>
    ensures { result ≡ scope_of scopes.now name.now }
{
    scopes
        .iter()
        .copied()
        .find(|scope| is_among(fields_of(*scope), name))
}

// The fields that a table of this kind has.
fn fields_of(scope: Scope) -> &'static [Field]
    ensures { field_words (fields_view result.now) ≡ scope_words scope }
{
    match scope {
        Scope::Top => file_fields(),
        Scope::Profile => profile_fields(),
        Scope::Override => override_fields(),
        Scope::Junit => override_junit_fields(),
    }
}

// The first word that has the name as one of its parts between dashes.
fn word_with_part<'w>(words: &[&'w str], name: &str) -> Option<&'w str>
    ensures { option_map (λ word. word.now) result ≡ word_with_part (words_of words.now) name.now }
{
    words.iter().copied().find(|word| has_part(word, name))
}

// Whether the name is one of the parts of a word between dashes.
fn has_part(word: &str, name: &str) -> bool
    ensures { result ≡ is_known (pieces_of word.now) name.now }
{
    word.split('-').any(|part| part == name)
}

/// Whether the name is one of these.
pub(crate) fn is_known(known: &[&'static str], name: &str) -> bool
    ensures { result ≡ is_known (words_of known.now) name.now }
{
    for key in known {
        if *key == name {
            return true;
        }
    }
    false
}
