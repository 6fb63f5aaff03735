//! The boolean or the integer that is meant by a text.

ghost use Rattle.std.specs.Prelude.{◌≡◌, ◌↔◌, ◌⊎◌, codes, IfOk, IsTrue};
ghost use Rattle.toml.specs.Data.{as_str};
ghost use Rattle.toml.specs.View.{view};
ghost use Rattle.nextest_config_lint.specs.Found.{Suggests};
ghost use Rattle.nextest_config_lint.specs.Hints.Written.{IsHintIfTaken, IsSuggestedByText, IsWrittenHint};

use crate::finding::Hint;
use crate::right::is_accepted;
use crate::shapes::check_shape;
use nextest_config::nextest_version::Edition;
use nextest_config_elements::field::Shape;
use nextest_config_values::literal::value_text;
use std::alloc::{AllocError, Global};
use toml::Value;

/// The boolean or the integer that a text writes, if the shape takes that.
pub(crate) fn written_hint(
    alloc: Global,
    shape: Shape,
    value: &Value,
) -> Result<Option<Hint>, AllocError>
    ensures { IfOk result (Suggests (IsWrittenHint shape (as_str (view value.now)))) }
{
    match value.as_str() {
        Some(text) => hint_by_text(alloc, shape, text),
        None => Ok(None),
    }
}

fn hint_by_text(alloc: Global, shape: Shape, text: &str) -> Result<Option<Hint>, AllocError>
    ensures { IfOk result (Suggests (IsSuggestedByText shape text.now)) }
{
    match text {
        "true" => return hint_if_taken(alloc, shape, &Value::Boolean(true)),
        "false" => return hint_if_taken(alloc, shape, &Value::Boolean(false)),
        _ => {}
    }
    let Ok(number) = text.parse::<i64>() else {
        return Ok(None);
    };
    let printed = format!(in alloc; "{number}")?;
    if is_written(text, printed.as_str()) {
        return hint_if_taken(alloc, shape, &Value::Integer(number));
    }
    Ok(None)
}

// Whether a text is how an integer is printed, or `-0`.
fn is_written(text: &str, printed: &str) -> bool
    ensures { IsTrue result ↔ ((text.now ≡ printed.now) ⊎ (text.now ≡ codes "-0")) }
{
    (text == printed) | (text == "-0")
}

// A value as TOML writes it, if the shape takes it.
fn hint_if_taken(alloc: Global, shape: Shape, value: &Value) -> Result<Option<Hint>, AllocError>
    ensures { IfOk result (Suggests (IsHintIfTaken shape (view value.now))) }
{
    if is_accepted(check_shape(alloc, Edition::ArrayAllowed, shape, value))? {
        let text = value_text(alloc, value)?;
        return Ok(Some(Hint::Toml(text)));
    }
    Ok(None)
}
