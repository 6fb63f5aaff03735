//! What is told of overrides.

ghost use Rattle.std.specs.Prelude.{◌≡◌, IfOk, map, option_map};
ghost use Rattle.std.specs.List.{AllZip};
ghost use Rattle.toml.specs.View.{view};
ghost use Rattle.toml_spans.specs.Step.{step_of};
ghost use Rattle.nextest_config_profiles.specs.Profile.{file_in};
ghost use Rattle.nextest_config_profiles.specs.Reach.{words_of};
ghost use Rattle.nextest_config_profiles.specs.Report.Elements.{element_of};
ghost use Rattle.nextest_config_profiles.specs.Report.Literal.{IsLiteralIf};
ghost use Rattle.nextest_config_profiles.specs.Report.Overrides.{AreOverrides, AreSettings, IsOverride, IsSet, IsSpanOfElement, is_told, member_at, override_keys, steps_to_element};

use crate::EffectiveProfile;
use crate::report::elements::{Element, all_elements};
use crate::report::parts::{Literal, Override, OverrideSetting, Source};
use crate::report::somes::push_some;
use crate::report::source::file_place;
use nextest_config_elements::keys::override_fields;
use nextest_config_values::read::value_at;
use std::alloc::{AllocError, Global};
use toml::Value;
use toml_spans::{Span, Step};

// The keys that are known in an override, but for those by which it selects tests.
fn override_keys(alloc: Global) -> Result<Vec<&'static str>, AllocError>
    ensures { IfOk result (λ keys. words_of keys.items ≡ override_keys) }
{
    let fields = override_fields();
    let mut keys = Vec::new(alloc);
    for field in fields {
        if is_told(field.key) {
            keys.push(field.key)?;
        }
    }
    Ok(keys)
}

// Whether a key isn't one by which an override selects tests.
fn is_told(key: &str) -> bool
    ensures { result ≡ is_told key.now }
{
    key != "filter" && key != "platform"
}

/// The overrides of the profiles of the chain, of which the first that applies and sets a key
/// counts.
pub(crate) fn overrides<'p>(
    alloc: Global,
    effective: &'p EffectiveProfile<'p>,
) -> Result<Vec<Override<'p>>, AllocError>
    ensures { IfOk result (λ overrides. AreOverrides effective.now overrides.items) }
{
    let elements = all_elements(alloc, effective)?;
    overrides_of(alloc, effective, elements.as_slice())
}

// What is told of each override.
fn overrides_of<'p>(
    alloc: Global,
    effective: &'p EffectiveProfile<'p>,
    elements: &[Element<'p>],
) -> Result<Vec<Override<'p>>, AllocError>
    ensures { IfOk result (λ overrides. AllZip (IsOverride effective.now)
        (map element_of elements.now) overrides.items) }
{
    let mut overrides = Vec::new(alloc);
    for element in elements {
        overrides.push(override_of(alloc, effective, element)?)?;
    }
    Ok(overrides)
}

// What is told of an override, and where it begins.
fn override_of<'p>(
    alloc: Global,
    effective: &'p EffectiveProfile<'p>,
    element: &Element<'p>,
) -> Result<Override<'p>, AllocError>
    ensures { IfOk result (IsOverride effective.now (element_of element.now)) }
{
    let steps = steps_to(alloc, element)?;
    let span = span_of(effective, element.layer, steps.as_slice());
    let source = Source {
        profile: element.profile,
        file: file_place(effective, element.layer, span),
    };
    Ok(Override {
        source,
        filter: literal_at(alloc, element.value, "filter")?,
        platform: literal_at(alloc, element.value, "platform")?,
        settings: settings(alloc, element.value)?,
    })
}

// The range of a path in the file of a layer, if it is one.
fn span_of(effective: &EffectiveProfile<'_>, layer: usize, steps: &[Step]) -> Option<Span>
    ensures { IsSpanOfElement (file_in effective.now layer) (map step_of steps.now) result }
{
    match effective.file(layer) {
        Some(file) => file.span(steps),
        None => None,
    }
}

// The path of an override, from the top.
fn steps_to(alloc: Global, element: &Element<'_>) -> Result<Vec<Step>, AllocError>
    ensures { IfOk result (λ steps. map step_of steps.items
        ≡ steps_to_element (element_of element.now)) }
{
    let mut steps = Vec::new(alloc);
    steps.push(Step::Key(String::from_str(alloc, "profile")?))?;
    steps.push(Step::Key(String::from_str(alloc, element.profile)?))?;
    steps.push(Step::Key(String::from_str(alloc, "overrides")?))?;
    steps.push(Step::Index(element.position))?;
    Ok(steps)
}

// The keys that an override sets.
fn settings(alloc: Global, value: &Value) -> Result<Vec<OverrideSetting>, AllocError>
    ensures { IfOk result (λ settings. AreSettings (view value.now) settings.items) }
{
    let keys = override_keys(alloc)?;
    let mut settings = Vec::new(alloc);
    for key in &keys {
        let setting = setting(alloc, value, key)?;
        push_some(&mut settings, setting)?;
    }
    Ok(settings)
}

// A key with its value, if the override has it.
fn setting(
    alloc: Global,
    value: &Value,
    key: &'static str,
) -> Result<Option<OverrideSetting>, AllocError>
    ensures { IfOk result (IsSet (view value.now) key.now) }
{
    match literal_at(alloc, value, key)? {
        Some(literal) => Ok(Some(OverrideSetting { key, literal })),
        None => Ok(None),
    }
}

// What an override has at a key.
fn literal_at(alloc: Global, value: &Value, key: &str) -> Result<Option<Literal>, AllocError>
    ensures { IfOk result (IsLiteralIf (member_at key.now (view value.now))) }
{
    match at_key(value, key) {
        Some(value) => Ok(Some(Literal::of(alloc, value.clone()?)?)),
        None => Ok(None),
    }
}

/// What a value has at a key.
pub(crate) fn at_key<'v>(value: &'v Value, key: &str) -> Option<&'v Value>
    ensures { option_map (λ value. view value.now) result ≡ member_at key.now (view value.now) }
{
    value_at(value.as_table()?, key)
}
