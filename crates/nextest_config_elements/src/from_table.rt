//! Settings that a table sets.

ghost use Rattle.std.specs.Prelude.{IfErr, IfOk, option_map};
ghost use Rattle.toml.specs.Data.{Members};
ghost use Rattle.toml.specs.View.{table_view, view};
ghost use Rattle.nextest_config_values.specs.Read.{Reading, RefusesBy};
ghost use Rattle.nextest_config_elements.specs.FromTable.{set_by_table};

use nextest_config_values::read::ValueFault;
use std::alloc::Global;
use toml::{Table, Value};

// A type that is read from a table.
pub(crate) trait FromTable: Sized {
    // What is seen of a Self.
    ghost Seen: { Type 0 };

    ghost seen: { Self → Seen };

    // What tables mean, and what is wrong with them.
    ghost reading: { Reading Members Seen };

    fn read_table(alloc: Global, table: &Table) -> Result<Self, ValueFault>
        ensures meant { IfOk result (λ x. reading.means (table_view table.now) (seen x)) }
        ensures refused { IfErr result (RefusesBy reading (table_view table.now)) };
}

// Reads a value that is to be a table; `expected` names what the setting takes.
pub(crate) fn read_set<T: FromTable>(
    alloc: Global,
    value: &Value,
    expected: &'static str,
) -> Result<Option<T>, ValueFault>
    ensures meant { IfOk result (λ x.
        (set_by_table T.reading expected.now).means (view value.now) (option_map T.seen x)) }
    ensures refused { IfErr result
        (RefusesBy (set_by_table T.reading expected.now) (view value.now)) }
{
    match value.as_table() {
        Some(table) => {
            let x = T::read_table(alloc, table)?;
            Ok(Some(x))
        }
        None => Err(ValueFault::invalid_type(alloc, value, expected)),
    }
}
