//! Values that are merged: of two tables key by key, else the later one counts.

ghost use Rattle.std.specs.Prelude.{◌≡◌, ◌++◌, IfOk, MatchOption, None, OnOk, option_map, Some, string_bytes};
ghost use Rattle.toml.specs.Data.{table};
ghost use Rattle.toml.specs.View.{table_view, view};
ghost use Rattle.nextest_config_profiles.specs.Merged.{HasNoValue, IsMergedOver, Layers};
ghost use Rattle.nextest_config_profiles.specs.Merging.{IsOver, over, Puts, seen_at};
ghost use Rattle.nextest_config_profiles.specs.Reach.{AreReached, layers_of, said_below, words_of};
ghost use Rattle.nextest_config_profiles.specs.Said.{Path};

use crate::reach::{LentLayers, Reach, follow_on, reached_at};
use std::alloc::{AllocError, Global};
use toml::{Table, Value};

/// What the layers, the lowest first, come to at a path, where they have anything there.
pub(crate) fn merged_over(
    alloc: Global,
    layers: LentLayers<'_, '_>,
    path: &[&str],
) -> Result<Option<Value>, AllocError>
    ensures { IfOk result (λ merged. MatchOption merged
        (HasNoValue (layers_of layers.entry) (words_of path.now))
        (λ value. IsMergedOver (layers_of layers.entry) (words_of path.now) (view value))) }
{
    let reached = reached_at(alloc, layers, path)?;
    let merged = merged_below(reached.as_slice(), &[])?;
    Ok(merged)
}

/// What layers, the lowest first, come to at a path below the one that leads there in them, where
/// they have anything there.
pub(crate) fn merged_below(layers: &[Reach<'_>], path: &[&str]) -> Result<Option<Value>, AllocError>
    ensures { IfOk result (λ merged. (all : Layers) (above : Path) → AreReached all above layers.now
        → MatchOption merged (HasNoValue all (above ++ words_of path.now))
        (λ value. IsMergedOver all (above ++ words_of path.now) (view value))) }
{
    let mut merged = None;
    for layer in layers {
        merged = merge(merged, follow_on(*layer, path))?;
    }
    Ok(merged)
}

// Merges what a layer has into what lies below it.
#[inline]
fn merge(below: Option<Value>, layer: Reach<'_>) -> Result<Option<Value>, AllocError>
    ensures { IfOk result (λ merged. (path : Path) → seen_at path (option_map view merged)
        ≡ over (seen_at path (option_map view below)) (said_below path layer.entry)) }
{
    match layer {
        Reach::Nothing => Ok(below),
        Reach::Barred => Ok(None),
        Reach::Value(value) => Ok(Some(merge_member(value, below)?)),
    }
}

// Merges a value into the one below it.
#[cycle(merge_value)]
fn merge_value(value: &Value, below: Value) -> Result<Value, AllocError>
    ensures { IfOk result (λ merged. IsOver (Some (view below)) (Some (view value.now))
        (Some (view merged))) }
{
    match (value, below) {
        (Value::Table(members), Value::Table(mut table)) => {
            merge_members(members, &mut table)?;
            Ok(Value::Table(table))
        }
        (value, _) => value.clone(),
    }
}

// Merges the members of a table into those of the one below it.
#[cycle(merge_value)]
fn merge_members(members: &Table, below: &mut Table) -> Result<(), AllocError>
    ensures { OnOk result (IsOver (Some (table (table_view below.old)))
        (Some (table (table_view members.now))) (Some (table (table_view below.new)))) }
{
    for (key, value) in members {
        let merged = merge_member(value, below.remove(key.as_str()))?;
        put(below, key, merged)?;
    }
    Ok(())
}

// Merges a member into what the table below has at its key.
#[cycle(merge_value)]
fn merge_member(value: &Value, below: Option<Value>) -> Result<Value, AllocError>
    ensures { IfOk result (λ merged. IsOver (option_map view below) (Some (view value.now))
        (Some (view merged))) }
{
    match below {
        Some(below) => merge_value(value, below),
        None => value.clone(),
    }
}

// Puts a value at a key.
fn put(table: &mut Table, key: &String, value: Value) -> Result<(), AllocError>
    ensures { OnOk result (Puts (string_bytes key.now) (view value) (table_view table.old)
        (table_view table.new)) }
{
    table.insert(key.clone()?, value)?;
    Ok(())
}
