//! Keys of a profile that alone are told.

ghost use Rattle.std.specs.Prelude.{◌≡◌, ◌++◌, flat_map, IfOk, map, OnOk, option_map, string_bytes};
ghost use Rattle.nextest_config_elements.specs.Fields.{fields_view};
ghost use Rattle.nextest_config_lint.specs.Settings.{seen_field};
ghost use Rattle.nextest_config_values.specs.NearestWord.{IsNearest};
ghost use Rattle.nextest_config_profiles.specs.Reach.{words_of};
ghost use Rattle.nextest_config_profiles.specs.Report.Setting.{all_settings, rule_of};
ghost use Rattle.nextest_config_profiles.specs.Said.{Path};
ghost use Rattle.nextest_config_profiles.specs.Report.Wanted.{dotted, field_at, is_known, IsKeyNamed, IsPathText, path_of, paths_of, told_paths};

use crate::report::keys::with_key;
use crate::report::others::other_keys;
use crate::report::setting::{KnownSetting, all_settings, fields_below};
use crate::texts::{copies, lent};
use nextest_config_elements::field::Field;
use nextest_config_elements::keys::profile_fields;
use nextest_config_lint::field_named;
use nextest_config_values::nearest_word::nearest;
use std::alloc::{AllocError, Global};

/// A key of a profile that is told, with all that lies below it.
#[derive(Debug, PartialEq, Eq, Drop)]
pub struct WantedKey {
    // Its path below the profile.
    keys: Vec<String>,
}

impl WantedKey {
    /// The key at a path below a profile, with dots between the keys, as `slow-timeout.period`;
    /// `None` where nextest knows no such key.
    pub fn from_path(alloc: Global, path: &str) -> Result<Option<WantedKey>, AllocError>
        ensures { IfOk result (λ wanted. IsKeyNamed path.now (option_map path_of wanted)) }
    {
        let mut keys = Vec::new(alloc);
        push_keys(path, &mut keys)?;
        if !is_known(keys.as_slice()) {
            return Ok(None);
        }
        let keys = copies(alloc, keys.as_slice())?;
        Ok(Some(WantedKey { keys }))
    }

    /// The path of a setting, of a key of its table, or of another key of a profile, that a text
    /// comes nearest to.
    pub fn nearest(alloc: Global, path: &str) -> Result<Option<String>, AllocError>
        ensures { IfOk result (λ near.
            IsNearest (map dotted told_paths) path.now (option_map string_bytes near)) }
    {
        let paths = told_paths(alloc)?;
        let words = lent(alloc, paths.as_slice())?;
        match nearest(alloc, path, words.as_slice())? {
            Some(near) => Ok(Some(String::from_str(alloc, near)?)),
            None => Ok(None),
        }
    }

    /// The path of the key, below a profile.
    pub(crate) fn keys(&self) -> &[String]
        ensures { map string_bytes result.now ≡ path_of self.now }
    {
        self.keys.as_slice()
    }
}

// Pushes the keys between the dots of a path.
fn push_keys<'t>(path: &'t str, keys: &mut Vec<&'t str>) -> Result<(), AllocError>
    ensures { OnOk result ((added : Path) × IsPathText path.now added
        × (words_of keys.new.items ≡ words_of keys.old.items ++ added)) }
{
    match path.split_once('.') {
        Some((key, rest)) => {
            keys.push(key)?;
            push_keys(rest, keys)?;
        }
        None => keys.push(path)?,
    }
    Ok(())
}

// Whether the table of keys has these below a profile.
fn is_known(keys: &[&str]) -> bool
    ensures { result ≡ is_known (words_of keys.now) }
{
    field_at(keys, profile_fields()).is_some()
}

// The field to which keys lead, one below the other, from a table with these fields.
fn field_at(keys: &[&str], fields: &'static [Field]) -> Option<&'static Field>
    ensures { option_map (λ field. seen_field field.now) result
        ≡ field_at (words_of keys.now) (fields_view fields.now) }
{
    match keys {
        [] => None,
        [key] => field_named(key, fields),
        [key, rest @ ..] => field_at(rest, fields_below(&field_named(key, fields)?.parts)),
    }
}

// The paths of all that is told, as texts.
fn told_paths(alloc: Global) -> Result<Vec<String>, AllocError>
    ensures { IfOk result (λ paths. map string_bytes paths.items ≡ map dotted told_paths) }
{
    let mut paths = setting_paths(alloc)?;
    let keys = other_keys(alloc)?;
    for key in &keys {
        paths.push(String::from_str(alloc, key)?)?;
    }
    Ok(paths)
}

// The paths of all settings.
fn setting_paths(alloc: Global) -> Result<Vec<String>, AllocError>
    ensures { IfOk result (λ paths.
        map string_bytes paths.items ≡ map dotted (flat_map paths_of all_settings)) }
{
    let settings = all_settings(alloc)?;
    let mut paths = Vec::new(alloc);
    for setting in &settings {
        push_paths(alloc, setting.lent(), &mut paths)?;
    }
    Ok(paths)
}

// Pushes the paths of a setting.
fn push_paths(
    alloc: Global,
    setting: KnownSetting<'_>,
    paths: &mut Vec<String>,
) -> Result<(), AllocError>
    ensures { OnOk result (map string_bytes paths.new.items
        ≡ map string_bytes paths.old.items ++ map dotted (paths_of (rule_of setting.entry))) }
{
    paths.push(setting.keys.join(alloc, ".")?)?;
    let members = setting.members();
    for member in members {
        let keys = with_key(alloc, setting.keys, member.key)?;
        paths.push(keys.join(alloc, ".")?)?;
    }
    Ok(())
}
