//! All that layers together have below a path, leaf by leaf, each with the layer that it comes
//! from.

ghost use Rattle.std.specs.Prelude.{◌≡◌, ◌++◌, ◌∷◌, [], IfOk, map, OnOk, Some, string_bytes};
ghost use Rattle.std.specs.List.{AllByRecursion};
ghost use Rattle.toml.specs.View.{table_view, view};
ghost use Rattle.nextest_config_profiles.specs.Merged.{IsLeaf};
ghost use Rattle.nextest_config_profiles.specs.Leaves.{Adds, AreAllLeaves, AreLeavesAt, AreLeavesIn, IsLeafBelow, IsOfLayers, placed, placed_leaf};
ghost use Rattle.nextest_config_profiles.specs.Reach.{layers_of, words_of};

use crate::last_value::last_value;
use crate::merged::merged_over;
use crate::reach::LentLayers;
use std::alloc::{AllocError, Global};
use toml::{Table, Value};

/// A value that is no table, or an empty table, that the layers together have below a path.
#[derive(Debug, Drop)]
pub struct Leaf {
    /// The keys that lead there from the path.
    pub keys: Vec<String>,
    /// The position of the layer that it comes from: what nextest sets itself has the first, 0, and
    /// then come the files.
    pub layer: usize,
    pub value: Value,
}

// A leaf of one value, without a layer.
#[derive(Drop)]
pub(crate) struct ValueLeaf {
    keys: Vec<String>,
    value: Value,
}

/// All leaves that the layers, the lowest first, have below a path.
pub(crate) fn leaves_below(
    alloc: Global,
    layers: LentLayers<'_, '_>,
    path: &[&str],
) -> Result<Vec<Leaf>, AllocError>
    ensures each { IfOk result (λ leaves. AllByRecursion
        (IsLeafBelow (layers_of layers.entry) (words_of path.now)) leaves.items) }
    ensures all { IfOk result (λ leaves. AreAllLeaves (layers_of layers.entry) (words_of path.now)
        leaves.items) }
{
    match merged_over(alloc, layers, path)? {
        Some(value) => {
            let leaves = leaves_of(alloc, &value)?;
            Ok(with_layers(alloc, layers, path, leaves)?)
        }
        None => Ok(Vec::new(alloc)),
    }
}

// The leaves of a value.
fn leaves_of(alloc: Global, value: &Value) -> Result<Vec<ValueLeaf>, AllocError>
    ensures { IfOk result (λ leaves. AreLeavesAt [] (Some (view value.now))
        (map placed_leaf leaves.items)) }
{
    let mut leaves = Vec::new(alloc);
    add_leaves(value, Vec::new(alloc), &mut leaves)?;
    Ok(leaves)
}

// Adds the leaves of a value at these keys.
#[cycle(add_leaves)]
fn add_leaves(
    value: &Value,
    keys: Vec<String>,
    leaves: &mut Vec<ValueLeaf>,
) -> Result<(), AllocError>
    ensures { OnOk result (Adds (AreLeavesAt (map string_bytes keys.items) (Some (view value.now)))
        (map placed_leaf leaves.old.items) (map placed_leaf leaves.new.items)) }
{
    match value {
        Value::Table(members) => {
            if members.is_empty() {
                return add_leaf(value, keys, leaves);
            }
            add_members(members, keys.as_slice(), leaves)?;
            Ok(())
        }
        _ => add_leaf(value, keys, leaves),
    }
}

// Adds the leaves of the members of a table at these keys.
#[cycle(add_leaves)]
fn add_members(
    members: &Table,
    keys: &[String],
    leaves: &mut Vec<ValueLeaf>,
) -> Result<(), AllocError>
    ensures { OnOk result (Adds (AreLeavesIn (map string_bytes keys.now) (table_view members.now))
        (map placed_leaf leaves.old.items) (map placed_leaf leaves.new.items)) }
{
    for (key, value) in members {
        let keys = one_key_more(*leaves.allocator(), keys, key)?;
        add_leaves(value, keys, leaves)?;
    }
    Ok(())
}

// Adds a value at these keys.
fn add_leaf(value: &Value, keys: Vec<String>, leaves: &mut Vec<ValueLeaf>) -> Result<(), AllocError>
    ensures { OnOk result (map placed_leaf leaves.new.items
        ≡ map placed_leaf leaves.old.items ++ (map string_bytes keys.items, view value.now) ∷ []) }
{
    let value = value.clone()?;
    leaves.push(ValueLeaf { keys, value })?;
    Ok(())
}

// The keys, and one more.
fn one_key_more(alloc: Global, keys: &[String], key: &String) -> Result<Vec<String>, AllocError>
    ensures { IfOk result (λ more. map string_bytes more.items
        ≡ map string_bytes keys.now ++ string_bytes key.now ∷ []) }
{
    let mut more = Vec::new(alloc);
    for one in keys {
        more.push(one.clone()?)?;
    }
    more.push(key.clone()?)?;
    Ok(more)
}

// Leaves that the layers have, each with its layer.
fn with_layers(
    alloc: Global,
    layers: LentLayers<'_, '_>,
    path: &[&str],
    leaves: Vec<ValueLeaf>,
) -> Result<Vec<Leaf>, AllocError>
    requires { AllByRecursion (λ leaf. IsOfLayers (layers_of layers) (words_of path.now)
        (placed_leaf leaf)) leaves.items }
    ensures each { IfOk result (λ found. AllByRecursion
        (IsLeafBelow (layers_of layers.entry) (words_of path.now)) found.items) }
    ensures same { IfOk result (λ found. map placed found.items ≡ map placed_leaf leaves.items) }
{
    let mut found = Vec::new(alloc);
    for leaf in leaves {
        let layer = layer_of(alloc, layers, path, &leaf)?;
        found.push(Leaf {
            keys: leaf.keys,
            layer,
            value: leaf.value,
        })?;
    }
    Ok(found)
}

// The layer that a leaf comes from.
fn layer_of(
    alloc: Global,
    layers: LentLayers<'_, '_>,
    path: &[&str],
    leaf: &ValueLeaf,
) -> Result<usize, AllocError>
    requires { IsOfLayers (layers_of layers) (words_of path.now) (placed_leaf leaf.now) }
    ensures { IfOk result (λ layer. IsLeaf (layers_of layers.entry)
        (words_of path.now ++ map string_bytes leaf.now.keys.items) layer (view leaf.now.value)) }
{
    let whole = whole_path(alloc, path, leaf.keys.as_slice())?;
    match last_value(layers, whole.as_slice()) {
        Some(last) => Ok(last.layer),
        None => unreachable!(),
    }
}

// A path and the keys below it.
fn whole_path<'a>(
    alloc: Global,
    path: &[&'a str],
    keys: &'a [String],
) -> Result<Vec<&'a str>, AllocError>
    ensures { IfOk result (λ whole. words_of whole.items
        ≡ words_of path.now ++ map string_bytes keys.now) }
{
    let mut whole = Vec::new(alloc);
    whole.extend_from_slice(path)?;
    for key in keys {
        whole.push(key.as_str())?;
    }
    Ok(whole)
}
