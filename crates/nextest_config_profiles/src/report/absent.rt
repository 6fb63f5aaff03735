//! What stands for keys that a table doesn't have.

ghost use Rattle.std.specs.Prelude.{◌≡◌, IfOk, is_some, option_map};
ghost use Rattle.toml.specs.View.{view};
ghost use Rattle.nextest_config_elements.specs.Fields.{absent_of, literal_of};
ghost use Rattle.nextest_config_profiles.specs.Report.Literal.{IsLiteralIf};
ghost use Rattle.nextest_config_profiles.specs.Report.Rows.{value_taken};

use crate::report::parts::Literal;
use nextest_config_elements::field::{self, Absent};
use std::alloc::{AllocError, Global};
use toml::Value;

/// Whether the reader of a table takes a value for a key that is absent.
pub(crate) fn is_taken(absent: Absent) -> bool
    ensures { result ≡ is_some (value_taken (absent_of absent)) }
{
    match absent {
        Absent::Taken(literal) => !matches!(literal, field::Literal::Nothing),
        Absent::Inherited(_) | Absent::OfProfile => false,
    }
}

/// What the reader of a table takes for a key that is absent.
pub(crate) fn taken(alloc: Global, absent: Absent) -> Result<Option<Literal>, AllocError>
    ensures { IfOk result (IsLiteralIf (value_taken (absent_of absent))) }
{
    match absent {
        Absent::Taken(literal) => written(alloc, literal),
        Absent::Inherited(_) | Absent::OfProfile => Ok(None),
    }
}

// A value, if there is one, and how it is written.
fn written(alloc: Global, literal: field::Literal) -> Result<Option<Literal>, AllocError>
    ensures { IfOk result (IsLiteralIf (literal_of literal)) }
{
    match value_of(alloc, literal)? {
        Some(value) => Ok(Some(Literal::of(alloc, value)?)),
        None => Ok(None),
    }
}

fn value_of(alloc: Global, literal: field::Literal) -> Result<Option<Value>, AllocError>
    ensures { IfOk result (λ value. option_map view value ≡ literal_of literal) }
{
    Ok(match literal {
        field::Literal::Nothing => None,
        field::Literal::Boolean(truth) => Some(Value::Boolean(truth)),
        field::Literal::Integer(number) => Some(Value::Integer(number)),
        field::Literal::Text(text) => Some(Value::String(String::from_str(alloc, text)?)),
        field::Literal::EmptyArray => Some(Value::Array(Vec::new(alloc))),
    })
}
