//! The overrides that the profiles of a chain have, as they are written.

ghost use Rattle.std.specs.Prelude.{◌≡◌, ◌++◌, IfOk, map, OnOk, option_map};
ghost use Rattle.toml.specs.View.{items_view, view};
ghost use Rattle.nextest_config_profiles.specs.Profile.{chain_in, layer_at, layers_in};
ghost use Rattle.nextest_config_profiles.specs.Report.Elements.{all_elements, element_of, elements_below, numbered_if, overrides_in};

use crate::EffectiveProfile;
use crate::report::standing::of_profile;
use nextest_config_values::read::value_at;
use std::alloc::{AllocError, Global};
use toml::Value;

/// An override, as it is written.
#[derive(Clone, Copy)]
pub(crate) struct Element<'p> {
    pub profile: &'p str,
    pub layer: usize,
    /// Its position in the array.
    pub position: usize,
    pub value: &'p Value,
}

/// All overrides of the profiles of a chain: those of a profile before those of what it falls back
/// on, of a profile those of the highest file first, and of a file as written.
pub(crate) fn all_elements<'p>(
    alloc: Global,
    effective: &'p EffectiveProfile<'_>,
) -> Result<Vec<Element<'p>>, AllocError>
    ensures { IfOk result (λ elements. map element_of elements.items
        ≡ all_elements (layers_in effective.now) (chain_in effective.now)) }
{
    let layers = effective.layer_count();
    let chain = effective.chain();
    let mut elements = Vec::new(alloc);
    for profile in chain {
        push_below(effective, profile.as_str(), layers, &mut elements)?;
    }
    Ok(elements)
}

// Pushes the overrides that the first so many layers have for a profile, the highest first.
fn push_below<'p>(
    effective: &'p EffectiveProfile<'_>,
    profile: &'p str,
    layers: usize,
    elements: &mut Vec<Element<'p>>,
) -> Result<(), AllocError>
    ensures { OnOk result (map element_of elements.new.items ≡ map element_of elements.old.items
        ++ elements_below (layers_in effective.now) profile.now layers) }
{
    if layers == 0 {
        return Ok(());
    }
    let layer = layers - 1;
    let items = overrides_in(of_profile(effective, profile, layer));
    push_items(profile, layer, items, elements)?;
    push_below(effective, profile, layer, elements)?;
    Ok(())
}

// Pushes the overrides that a layer has for a profile, if it has some.
fn push_items<'p>(
    profile: &'p str,
    layer: usize,
    items: Option<&'p [Value]>,
    elements: &mut Vec<Element<'p>>,
) -> Result<(), AllocError>
    ensures { OnOk result (map element_of elements.new.items ≡ map element_of elements.old.items
        ++ numbered_if profile.now layer (option_map (λ items. items_view items.now) items.entry)) }
{
    let Some(items) = items else {
        return Ok(());
    };
    for (position, value) in items.iter().enumerate() {
        elements.push(Element {
            profile,
            layer,
            position,
            value,
        })?;
    }
    Ok(())
}

// The overrides of a profile.
fn overrides_in(profile: Option<&Value>) -> Option<&[Value]>
    ensures { option_map (λ items. items_view items.now) result
        ≡ overrides_in (option_map (λ value. view value.now) profile.entry) }
{
    let table = profile?.as_table()?;
    let items = value_at(table, "overrides")?.as_array()?;
    Some(items.as_slice())
}
