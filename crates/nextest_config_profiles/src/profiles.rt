//! The profiles that layers have.

ghost use Rattle.std.specs.Prelude.{◌≡◌, ◌↔◌, ◌⊎◌, ℕ, IfOk, IsTrue, List, OnOk, option_map};
ghost use Rattle.toml.specs.View.{table_view, view};
ghost use Rattle.nextest_config_profiles.specs.Profiles.{HasName, HasProfile, IsProfile, profiles_of, SomeOf};
ghost use Rattle.nextest_config_profiles.specs.Reach.{layers_of, lent_files};

use crate::reach::LentLayers;
use nextest_config_values::read::value_at;
use std::alloc::{AllocError, Global};
use std::collections::BTreeSet;
use toml::{Table, Value};

pub(crate) const DEFAULT: &str = "default";

pub(crate) const DEFAULT_MIRI: &str = "default-miri";

/// The set of the names of all profiles: those that some layer has, and those that nextest has
/// itself.
pub(crate) fn name_set<'a>(
    alloc: Global,
    layers: LentLayers<'_, 'a>,
) -> Result<BTreeSet<&'a str>, AllocError>
    ensures { IfOk result (λ names. (name : List ℕ)
        → HasName names.keys name ↔ IsProfile (layers_of layers.entry) name) }
{
    let files = layers.files;
    let mut names = BTreeSet::new(alloc);
    add_profiles(layers.defaults, &mut names)?;
    for file in files {
        add_profiles(*file, &mut names)?;
    }
    add_name(DEFAULT, &mut names)?;
    add_name(DEFAULT_MIRI, &mut names)?;
    Ok(names)
}

// Adds the names of the profiles that a layer has.
fn add_profiles<'a>(
    layer: Option<&'a Value>,
    names: &mut BTreeSet<&'a str>,
) -> Result<(), AllocError>
    ensures { OnOk result ((name : List ℕ) → HasName names.new.keys name
        ↔ (HasName names.old.keys name
        ⊎ HasProfile name (option_map (λ value. view value.now) layer.entry))) }
{
    let Some(profiles) = profiles_of(layer) else {
        return Ok(());
    };
    for name in profiles.keys() {
        add_name(name.as_str(), names)?;
    }
    Ok(())
}

fn add_name<'a>(name: &'a str, names: &mut BTreeSet<&'a str>) -> Result<(), AllocError>
    ensures { OnOk result ((other : List ℕ) → HasName names.new.keys other
        ↔ (HasName names.old.keys other ⊎ (name.now ≡ other))) }
{
    names.insert(name)?;
    Ok(())
}

// The profiles that a layer has.
fn profiles_of(layer: Option<&Value>) -> Option<&Table>
    ensures { option_map (λ table. table_view table.now) result
        ≡ profiles_of (option_map (λ value. view value.now) layer.entry) }
{
    match layer {
        Some(value) => value.as_table(),
        None => None,
    }
}

/// Whether this is the name of a profile.
pub(crate) fn is_profile(layers: LentLayers<'_, '_>, name: &str) -> bool
    ensures { IsTrue result ↔ IsProfile (layers_of layers.entry) name.now }
{
    (name == DEFAULT)
        | (name == DEFAULT_MIRI)
        | has_profile(layers.defaults, name)
        | some_has_profile(layers.files, name)
}

// Whether some file has a profile of this name.
fn some_has_profile(files: &[Option<&Value>], name: &str) -> bool
    ensures { IsTrue result ↔ SomeOf (HasProfile name.now) (lent_files files.now) }
{
    for file in files {
        if has_profile(*file, name) {
            return true;
        }
    }
    false
}

// Whether a layer has a profile of this name.
fn has_profile(layer: Option<&Value>, name: &str) -> bool
    ensures { IsTrue result
        ↔ HasProfile name.now (option_map (λ value. view value.now) layer.entry) }
{
    match profiles_of(layer) {
        Some(profiles) => value_at(profiles, name).is_some(),
        None => false,
    }
}
