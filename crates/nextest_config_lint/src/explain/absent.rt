//! What stands for a key that is absent, as people are told.

ghost use Rattle.std.specs.Prelude.{◌≡◌, IfOk, option_map, string_bytes};
ghost use Rattle.toml.specs.View.{view};
ghost use Rattle.nextest_config_elements.specs.Fields.{absent_of, inherited, literal_of, taken};
ghost use Rattle.nextest_config_lint.specs.Settings.{seen_field};
ghost use Rattle.nextest_config_lint.specs.Explain.Absent.{IsAbsentText, IsStandInText};

use nextest_config_elements::field::{Absent, Field, Literal};
use nextest_config_values::literal::value_text;
use std::alloc::{AllocError, Global};
use toml::Value;

/// What holds of a table without the key of a field.
pub(crate) fn absent_text(alloc: Global, field: &Field) -> Result<String, AllocError>
    ensures { IfOk result (λ text.
        IsAbsentText (seen_field field.now).0 (string_bytes text)) }
{
    if field.required {
        return String::from_str(alloc, "it is required");
    }
    let text = stand_in_text(alloc, field.absent)?;
    Ok(text)
}

fn stand_in_text(alloc: Global, absent: Absent) -> Result<String, AllocError>
    ensures { IfOk result (λ text. IsStandInText (absent_of absent) (string_bytes text)) }
{
    match absent {
        Absent::Taken(literal) => taken_text(alloc, literal),
        Absent::Inherited(literal) => inherited_text(alloc, literal),
        Absent::OfProfile => String::from_str(alloc, "what the profile has"),
    }
}

fn taken_text(alloc: Global, literal: Literal) -> Result<String, AllocError>
    ensures { IfOk result (λ text. IsStandInText (taken (literal_of literal)) (string_bytes text)) }
{
    match value_of(alloc, literal)? {
        Some(value) => value_text(alloc, &value),
        None => String::from_str(alloc, "nothing"),
    }
}

fn inherited_text(alloc: Global, literal: Literal) -> Result<String, AllocError>
    ensures { IfOk result (λ text.
        IsStandInText (inherited (literal_of literal)) (string_bytes text)) }
{
    match value_of(alloc, literal)? {
        Some(value) => {
            let literal = value_text(alloc, &value)?;
            format!(in alloc; "what the profile inherits, or else {literal}")
        }
        None => String::from_str(alloc, "what the profile inherits"),
    }
}

// The value that a literal is, if it is one.
fn value_of(alloc: Global, literal: Literal) -> Result<Option<Value>, AllocError>
    ensures { IfOk result (λ value. option_map view value ≡ literal_of literal) }
{
    match literal {
        Literal::Nothing => Ok(None),
        Literal::Boolean(truth) => Ok(Some(Value::Boolean(truth))),
        Literal::Integer(number) => Ok(Some(Value::Integer(number))),
        Literal::Text(text) => Ok(Some(Value::string(alloc, text)?)),
        Literal::EmptyArray => Ok(Some(Value::Array(Vec::new(alloc)))),
    }
}
