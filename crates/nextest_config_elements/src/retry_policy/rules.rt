//! The rules of a table `retries`.

ghost use Rattle.std.specs.Prelude.{◌↔◌, ℕ, true, false, IfErr, IsTrue, MatchOption, OnOk, Some};
ghost use Rattle.std.specs.Duration.{as_nanos};
ghost use Rattle.toml.specs.View.{table_view};
ghost use Rattle.nextest_config_values.specs.Duration.{duration_reading};
ghost use Rattle.nextest_config_values.specs.Read.{Always, bool_reading, or_default, Refuses};
ghost use Rattle.nextest_config_elements.specs.RetryPolicy.{delay_key, jitter_key};
ghost use Rattle.nextest_config_elements.specs.RetryRules.{HasAt, HasZeroAt, HasZeroCount, IsMaxBelowDelay, retry_rules, rules_by};
ghost use Rattle.nextest_config_elements.specs.declared.retry_policy.Backoff.TheVariants.{Exponential, Fixed};

use super::{Backoff, COUNT_KEY, DELAY_KEY, JITTER_KEY, MAX_DELAY_KEY, broken};
use nextest_config_values::read::{Rule, ValueFault, or_default, required};
use std::alloc::Global;
use std::time::Duration;
use toml::Table;

/// The rules that a table `retries` keeps: those of its backoff, and none where it names none. The
/// first that is broken is the fault, whatever else is wrong with the table: a rule is broken only
/// by keys that have no fault.
pub fn check_rules(alloc: Global, table: &Table) -> Result<(), ValueFault>
    ensures meant { OnOk result (retry_rules.passes (table_view table.now)) }
    ensures refused { IfErr result (Refuses (retry_rules.faults (table_view table.now)) Always) }
{
    match Backoff::of_table(table) {
        Some(Backoff::Fixed) => check_fixed(alloc, table),
        Some(Backoff::Exponential) => check_exponential(alloc, table),
        None => Ok(()),
    }
}

// The rule of a fixed backoff.
fn check_fixed(alloc: Global, table: &Table) -> Result<(), ValueFault>
    ensures meant { OnOk result ((rules_by (Some Fixed)).passes (table_view table.now)) }
    ensures refused { IfErr result
        (Refuses ((rules_by (Some Fixed)).faults (table_view table.now)) Always) }
{
    if has_jitter(alloc, table) && has_no_delay(alloc, table) {
        return Err(broken(alloc, Rule::JitterWithoutDelay));
    }
    Ok(())
}

// The rules of an exponential backoff, in turn.
fn check_exponential(alloc: Global, table: &Table) -> Result<(), ValueFault>
    ensures meant { OnOk result ((rules_by (Some Exponential)).passes (table_view table.now)) }
    ensures refused { IfErr result
        (Refuses ((rules_by (Some Exponential)).faults (table_view table.now)) Always) }
{
    if is_count_zero(alloc, table) {
        return Err(broken(alloc, Rule::CountZero));
    }
    if is_zero_at(alloc, table, DELAY_KEY) {
        return Err(broken(alloc, Rule::DelayZero));
    }
    if is_zero_at(alloc, table, MAX_DELAY_KEY) {
        return Err(broken(alloc, Rule::MaxDelayZero));
    }
    if is_max_below_delay(alloc, table) {
        return Err(broken(alloc, Rule::MaxDelayBelowDelay));
    }
    Ok(())
}

// Whether there is jitter.
fn has_jitter(alloc: Global, table: &Table) -> bool
    ensures { IsTrue result ↔
        (or_default jitter_key false bool_reading).means (table_view table.now) true }
{
    or_default(alloc, table, JITTER_KEY, false)
        .ok()
        .unwrap_or(false)
}

// Whether a fixed delay is zero, or not given.
fn has_no_delay(alloc: Global, table: &Table) -> bool
    ensures { IsTrue result ↔
        (or_default delay_key 0 duration_reading).means (table_view table.now) 0 }
{
    match or_default(alloc, table, DELAY_KEY, Duration::ZERO).ok() {
        Some(delay) => delay.is_zero(),
        None => false,
    }
}

// Whether the number of retries is zero.
fn is_count_zero(alloc: Global, table: &Table) -> bool
    ensures { IsTrue result ↔ HasZeroCount (table_view table.now) }
{
    let count: Option<u32> = required(alloc, table, COUNT_KEY).ok();
    match count {
        Some(count) => count == 0,
        None => false,
    }
}

// Whether the table has this key, and the duration there is zero.
fn is_zero_at(alloc: Global, table: &Table, key: &str) -> bool
    ensures { IsTrue result ↔ HasZeroAt key.now (table_view table.now) }
{
    match duration_at(alloc, table, key) {
        Some(duration) => duration.is_zero(),
        None => false,
    }
}

// Whether the maximum delay is below the first one.
fn is_max_below_delay(alloc: Global, table: &Table) -> bool
    ensures { IsTrue result ↔ IsMaxBelowDelay (table_view table.now) }
{
    let Some(max) = duration_at(alloc, table, MAX_DELAY_KEY) else {
        return false;
    };
    match duration_at(alloc, table, DELAY_KEY) {
        Some(delay) => max.as_nanos() < delay.as_nanos(),
        None => false,
    }
}

// The duration at a key of the table. `None`: the table lacks the key, or its value has a fault.
fn duration_at(alloc: Global, table: &Table, key: &str) -> Option<Duration>
    ensures { MatchOption result
        ((nanos : ℕ) → ¬ (HasAt key.now duration_reading (table_view table.now) nanos))
        (λ duration. HasAt key.now duration_reading (table_view table.now) (as_nanos duration)) }
{
    required(alloc, table, key).ok()
}
