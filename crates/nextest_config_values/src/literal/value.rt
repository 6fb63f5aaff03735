//! Values, as TOML writes them on one line.

ghost use Rattle.std.specs.Prelude.{IfOk, string_bytes};
ghost use Rattle.toml.specs.Data.{array, table};
ghost use Rattle.toml.specs.View.{array_view, table_view, view};
ghost use Rattle.toml_writer.specs.Writing.{WritesSome};
ghost use Rattle.nextest_config_values.specs.Literal.Value.{AreItemsText, AreMembersText, IsLiteral, IsMemberText};

use crate::literal::key::write_key;
use crate::literal::text::write_basic;
use std::alloc::{AllocError, Global};
use std::fmt;
use toml::{Table, Value};
use toml_writer::write_float;

/// A value as TOML writes it on one line: texts as basic strings, tables inline.
pub fn value_text(alloc: Global, value: &Value) -> Result<String, AllocError>
    ensures { IfOk result (λ text. IsLiteral (view value.now) (string_bytes text)) }
{
    let mut f = fmt::Formatter::new(String::new(alloc));
    match write_value(&mut f, value) {
        Ok(()) => Ok(f.into_inner()),
        Err(_) => Err(AllocError),
    }
}

// Writes a value.
#[cycle(write)]
fn write_value<W: fmt::Write>(f: &mut fmt::Formatter<W>, value: &Value) -> fmt::Result
    ensures { WritesSome W.write_str_gives f.old result (IsLiteral (view value.now)) f.new }
{
    match value {
        Value::String(text) => write_basic(f, text.as_str()),
        Value::Integer(number) => write!(f, "{number}"),
        Value::Float(number) => write_float(f, *number),
        Value::Boolean(truth) => write!(f, "{truth}"),
        Value::Datetime(moment) => write!(f, "{moment}"),
        Value::Array(items) => write_array(f, items),
        Value::Table(members) => write_table(f, members),
    }
}

// An array between its brackets.
#[cycle(write)]
fn write_array<W: fmt::Write>(f: &mut fmt::Formatter<W>, items: &Vec<Value>) -> fmt::Result
    ensures { WritesSome W.write_str_gives f.old result
        (IsLiteral (array (array_view items.now))) f.new }
{
    f.write_str("[")?;
    write_items(f, items)?;
    f.write_str("]")
}

// The items of an array, with commas between.
#[cycle(write)]
fn write_items<W: fmt::Write>(f: &mut fmt::Formatter<W>, items: &Vec<Value>) -> fmt::Result
    ensures { WritesSome W.write_str_gives f.old result (AreItemsText (array_view items.now)) f.new }
{
    let mut separator = "";
    for item in items {
        f.write_str(separator)?;
        write_value(f, item)?;
        separator = ", ";
    }
    Ok(())
}

// An inline table between its braces.
#[cycle(write)]
fn write_table<W: fmt::Write>(f: &mut fmt::Formatter<W>, members: &Table) -> fmt::Result
    ensures { WritesSome W.write_str_gives f.old result
        (IsLiteral (table (table_view members.now))) f.new }
{
    if members.is_empty() {
        return f.write_str("{}");
    }
    f.write_str("{ ")?;
    write_members(f, members)?;
    f.write_str(" }")
}

// The members of a table, with commas between.
#[cycle(write)]
fn write_members<W: fmt::Write>(f: &mut fmt::Formatter<W>, members: &Table) -> fmt::Result
    ensures { WritesSome W.write_str_gives f.old result
        (AreMembersText (table_view members.now)) f.new }
{
    let mut separator = "";
    for (key, value) in members {
        f.write_str(separator)?;
        write_member(f, key.as_str(), value)?;
        separator = ", ";
    }
    Ok(())
}

// A key and its value.
#[cycle(write)]
fn write_member<W: fmt::Write>(f: &mut fmt::Formatter<W>, key: &str, value: &Value) -> fmt::Result
    ensures { WritesSome W.write_str_gives f.old result (IsMemberText key.now (view value.now)) f.new }
{
    write_key(f, key)?;
    f.write_str(" = ")?;
    write_value(f, value)
}
