//! What layers have, and what one says of a path of keys.

ghost use Rattle.std.specs.Prelude.{◌≡◌, ◌++◌, IfOk, false, option_map};
ghost use Rattle.toml.specs.Data.{get_member};
ghost use Rattle.toml.specs.View.{table_view, view};
ghost use Rattle.nextest_config_profiles.specs.Said.{Path, said_at};
ghost use Rattle.nextest_config_profiles.specs.Merged.{HasNoValue, Layers};
ghost use Rattle.nextest_config_profiles.specs.Reach.{AreReached, is_value, layers_of, said_below, words_of};

use std::alloc::{AllocError, Global};
use toml::{Table, Value};

/// What layers have for profiles, the lowest first.
#[derive(Clone, Copy)]
pub(crate) struct LentLayers<'l, 'v> {
    /// What nextest sets itself, where that is one of them.
    pub defaults: Option<&'v Value>,
    pub files: &'l [Option<&'v Value>],
}

/// Where a path leads to.
#[derive(Clone, Copy)]
pub(crate) enum Reach<'a> {
    /// To nothing.
    Nothing,
    /// To nothing, since a value that is no table stands on the way.
    Barred,
    Value(&'a Value),
}

/// Where a path of keys leads to from a value.
pub(crate) fn follow<'a>(from: Option<&'a Value>, path: &[&str]) -> Reach<'a>
    ensures { (below : Path) → said_below below result
        ≡ said_at (words_of path.now ++ below) (option_map (λ value. view value.now) from.entry) }
{
    let Some(mut value) = from else {
        return Reach::Nothing;
    };
    let mut left = path;
    while let [key, rest @ ..] = left {
        let Some(table) = value.as_table() else {
            return Reach::Barred;
        };
        let Some(member) = member_at(table, key) else {
            return Reach::Nothing;
        };
        value = member;
        left = rest;
    }
    Reach::Value(value)
}

// What a table has at a key.
#[inline]
#[tactic(auto, using(toml::proofs::Views::table_get))]
fn member_at<'a>(table: &'a Table, key: &str) -> Option<&'a Value>
    ensures { option_map (λ value. view value.now) result
        ≡ get_member key.now (table_view table.now) }
{
    table.get(key)
}

/// Where a path leads on to from where another one leads.
#[inline]
pub(crate) fn follow_on<'a>(from: Reach<'a>, path: &[&str]) -> Reach<'a>
    ensures { (below : Path) → said_below below result
        ≡ said_below (words_of path.now ++ below) from.entry }
{
    match from {
        Reach::Value(value) => follow(Some(value), path),
        Reach::Nothing => Reach::Nothing,
        Reach::Barred => Reach::Barred,
    }
}

/// Where a path leads to in each layer.
pub(crate) fn reached_at<'v>(
    alloc: Global,
    layers: LentLayers<'_, 'v>,
    path: &[&str],
) -> Result<Vec<Reach<'v>>, AllocError>
    ensures { IfOk result (λ reached.
        AreReached (layers_of layers.entry) (words_of path.now) reached.items) }
{
    let files = layers.files;
    let mut reached = Vec::new(alloc);
    reached.push(follow(layers.defaults, path))?;
    for file in files {
        reached.push(follow(*file, path))?;
    }
    Ok(reached)
}

/// Whether a path below the one that leads there in layers leads to a value in any of them. Where
/// it does in none, they come to none.
pub(crate) fn some_have(layers: &[Reach<'_>], path: &[&str]) -> bool
    ensures { result ≡ false → (all : Layers) (above : Path) → AreReached all above layers.now
        → HasNoValue all (above ++ words_of path.now) }
{
    for layer in layers {
        if is_value(follow_on(*layer, path)) {
            return true;
        }
    }
    false
}

// Whether this leads to a value.
fn is_value(reach: Reach<'_>) -> bool
    ensures { result ≡ is_value reach.entry }
{
    matches!(reach, Reach::Value(_))
}
