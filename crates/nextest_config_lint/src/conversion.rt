//! The values that nextest makes of others, before its readers see them.

ghost use Rattle.std.specs.Prelude.{◌≡◌, ◌↔◌, IsTrue, option_map};
ghost use Rattle.toml.specs.View.{view};
ghost use Rattle.nextest_config_elements.specs.Fields.{fields_in, fields_view, parts_of};
ghost use Rattle.nextest_config_lint.specs.Conversion.{field_along, field_named, IsConvertedAt, IsConvertedBy, IsIntegerText, is_boolean_text, is_one_of, MayBecome, MayBecomeBoolean, MayBecomeNumber, MayBecomeText};
ghost use Rattle.nextest_config_lint.specs.Settings.{seen_field};
ghost use Rattle.nextest_config_values.specs.Read.{words_of};

use nextest_config_elements::field::{FaultSeverity, Field, Parts, Shape};
use nextest_config_elements::keys::profile_fields;
use toml::Value;

/// Whether nextest may make of the value at these keys of a profile what is wanted there.
pub fn is_converted_at(keys: &[&str], value: &Value) -> bool
    ensures { IsTrue result ↔ IsConvertedAt (words_of keys.now) (view value.now) }
{
    match field_along(keys, profile_fields()) {
        Some(field) => is_converted_by(field, value),
        None => false,
    }
}

// The field at keys, one below the other, of a table with these fields.
fn field_along(keys: &[&str], fields: &'static [Field]) -> Option<&'static Field>
    ensures { option_map (λ field. seen_field field.now) result
        ≡ field_along (words_of keys.now) (fields_view fields.now) }
{
    match keys {
        [] => None,
        [name] => field_named(name, fields),
        [name, rest @ ..] => field_along(rest, fields_in(&field_named(name, fields)?.parts)),
    }
}

/// The field with this key.
pub fn field_named(name: &str, fields: &'static [Field]) -> Option<&'static Field>
    ensures { option_map (λ field. seen_field field.now) result
        ≡ field_named name.now (fields_view fields.now) }
{
    fields.iter().find(|field| field.key == name)
}

/// The fields of a table; none of what isn't judged field by field.
pub fn fields_in(parts: &Parts) -> &'static [Field]
    ensures { fields_view result.now ≡ fields_in (parts_of parts.now) }
{
    match parts {
        Parts::Fields(fields) => fields,
        _ => &[],
    }
}

// Whether nextest converts what a field has, and may make of the value what is wanted there.
fn is_converted_by(field: &Field, value: &Value) -> bool
    ensures { IsTrue result ↔ IsConvertedBy (seen_field field.now).0 (view value.now) }
{
    match field.severity {
        FaultSeverity::ErrorUnlessConverted => may_become(field.shape, value),
        FaultSeverity::Error | FaultSeverity::Warning => false,
    }
}

/// Whether nextest may make of the value what the shape wants.
pub(crate) fn may_become(shape: Shape, value: &Value) -> bool
    ensures { IsTrue result ↔ MayBecome shape (view value.now) }
{
    match shape {
        Shape::Text => may_become_text(value),
        Shape::Boolean => may_become_boolean(value),
        Shape::Count | Shape::Priority => may_become_number(value),
        _ => false,
    }
}

fn may_become_text(value: &Value) -> bool
    ensures { IsTrue result ↔ MayBecomeText (view value.now) }
{
    value.as_bool().is_some() | value.as_integer().is_some() | value.as_float().is_some()
}

fn may_become_number(value: &Value) -> bool
    ensures { IsTrue result ↔ MayBecomeNumber (view value.now) }
{
    if value.as_bool().is_some() | value.as_float().is_some() {
        return true;
    }
    match value.as_str() {
        Some(text) => is_integer_text(text),
        None => false,
    }
}

fn may_become_boolean(value: &Value) -> bool
    ensures { IsTrue result ↔ MayBecomeBoolean (view value.now) }
{
    if value.as_integer().is_some() {
        return true;
    }
    match value.as_str() {
        Some(text) => is_boolean_text(text),
        None => false,
    }
}

// Whether the text is an integer of 64 bits.
fn is_integer_text(text: &str) -> bool
    ensures { IsTrue result ↔ IsIntegerText text.now }
{
    match text.parse::<i64>() {
        Ok(_) => true,
        Err(_) => false,
    }
}

// Whether the text is one that stands for a boolean, whatever the case of its letters.
fn is_boolean_text(text: &str) -> bool
    ensures { result ≡ is_boolean_text text.now }
{
    is_one_of(text, "true", "yes", "on", "1") | is_one_of(text, "false", "no", "off", "0")
}

// Whether the text is one of four words, whatever the case of its letters.
fn is_one_of(text: &str, first: &str, second: &str, third: &str, last: &str) -> bool
    ensures { result ≡ is_one_of first.now second.now third.now last.now text.now }
{
    text.eq_ignore_ascii_case(first)
        | text.eq_ignore_ascii_case(second)
        | text.eq_ignore_ascii_case(third)
        | text.eq_ignore_ascii_case(last)
}
