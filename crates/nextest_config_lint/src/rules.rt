//! The rules between the keys of a table, as far as the keys read.

ghost use Rattle.std.specs.Prelude.{IfErr, IsSome, OnOk};
ghost use Rattle.toml.specs.Data.{as_table};
ghost use Rattle.toml.specs.View.{view};
ghost use Rattle.nextest_config_values.specs.Read.{Always, Refuses, RefusesBy};
ghost use Rattle.nextest_config.specs.NextestVersion.{versions_reading};
ghost use Rattle.nextest_config_lint.specs.Rules.{if_table, order_check, rules_check};

use crate::settings::Rules;
use nextest_config::nextest_version::NextestVersionDeserialize;
use nextest_config_elements::retry_policy;
use nextest_config_values::read::{FromToml, ValueFault};
use std::alloc::Global;
use toml::Value;

/// Whether the rules between the keys of a value are kept, whatever else is wrong with it.
pub(crate) fn check_rules(alloc: Global, rules: Rules, value: &Value) -> Result<(), ValueFault>
    ensures meant { OnOk result ((rules_check rules).passes (view value.now)) }
    ensures refused { IfErr result (Refuses ((rules_check rules).faults (view value.now)) Always) }
{
    match rules {
        Rules::Versions => check_order(alloc, value),
        Rules::Retries => match value.as_table() {
            Some(table) => retry_policy::check_rules(alloc, table),
            None => Ok(()),
        },
    }
}

// Whether the required version of a table isn't above the recommended one.
fn check_order(alloc: Global, value: &Value) -> Result<(), ValueFault>
    ensures meant { OnOk result ((if_table order_check).passes (view value.now)) }
    ensures refused { IfErr result
        (Refuses ((if_table order_check).faults (view value.now)) Always) }
{
    if value.as_table().is_none() {
        return Ok(());
    }
    match NextestVersionDeserialize::read_value(alloc, value) {
        Ok(_) => Ok(()),
        Err(fault) => of_order(value, fault),
    }
}

// A refusal of a table, if it is for the order of its versions: those for a key stand below it.
fn of_order(value: &Value, fault: ValueFault) -> Result<(), ValueFault>
    requires of_table { IsSome (as_table (view value.now)) }
    requires refused { RefusesBy versions_reading (view value.now) fault }
    ensures meant { OnOk result ((if_table order_check).passes (view value.now)) }
    ensures refused { IfErr result
        (Refuses ((if_table order_check).faults (view value.now)) Always) }
{
    if fault.is_memory() {
        return Err(fault);
    }
    if fault.steps.is_empty() {
        return Err(fault);
    }
    Ok(())
}
