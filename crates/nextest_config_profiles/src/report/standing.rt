//! What layers have at the keys of profiles, and on the way there.

ghost use Rattle.std.specs.Prelude.{◌≡◌, ◌≤◌, ◌++◌, IfOk, IfSome, length, map, OnOk, option_map, string_bytes};
ghost use Rattle.toml.specs.View.{view};
ghost use Rattle.nextest_config_profiles.specs.Profile.{chain_in, layer_at, layers_in};
ghost use Rattle.nextest_config_profiles.specs.Reach.{words_of};
ghost use Rattle.nextest_config_profiles.specs.Report.Standing.{behind, hidden_below, hidden_of, reached_of, standing_in, standing_of, stands, stands_there};

use crate::EffectiveProfile;
use nextest_config_values::read::value_at;
use std::alloc::{AllocError, Global};
use toml::Value;

/// What a layer has at keys of a profile, or on the way there.
#[derive(Clone, Copy)]
pub(crate) struct Standing<'p> {
    pub profile: &'p str,
    pub layer: usize,
    pub reached: Reached<'p>,
}

/// What keys lead to, and how many of them.
#[derive(Clone, Copy)]
pub(crate) struct Reached<'p> {
    pub depth: usize,
    pub value: &'p Value,
}

/// What lies below a layer at keys of a profile, or on the way there, and what those profiles have
/// that come after it in the chain; the highest first.
pub(crate) fn hidden<'p>(
    alloc: Global,
    effective: &'p EffectiveProfile<'_>,
    profile: &'p str,
    keys: &[&str],
    layer: usize,
) -> Result<Vec<Standing<'p>>, AllocError>
    ensures { IfOk result (λ hidden. map standing_of hidden.items
        ≡ hidden_of (layers_in effective.now) (chain_in effective.now) profile.now
        (words_of keys.now) layer) }
{
    let mut hidden = Vec::new(alloc);
    push_below(effective, profile, keys, layer, &mut hidden)?;
    let layers = effective.layer_count();
    let rest = behind(effective.chain(), profile);
    for other in rest {
        push_below(effective, other.as_str(), keys, layers, &mut hidden)?;
    }
    Ok(hidden)
}

// The names after this one.
fn behind<'a>(chain: &'a [String], name: &str) -> &'a [String]
    ensures { map string_bytes result.now ≡ behind name.now (map string_bytes chain.now) }
{
    match chain {
        [first, rest @ ..] if first.as_str() == name => rest,
        [_, rest @ ..] => behind(rest, name),
        [] => &[],
    }
}

// Pushes what the first so many layers have at keys of a profile, the highest first.
fn push_below<'p>(
    effective: &'p EffectiveProfile<'_>,
    profile: &'p str,
    keys: &[&str],
    layers: usize,
    standings: &mut Vec<Standing<'p>>,
) -> Result<(), AllocError>
    ensures { OnOk result (map standing_of standings.new.items
        ≡ map standing_of standings.old.items
        ++ hidden_below (layers_in effective.now) profile.now (words_of keys.now) layers) }
{
    if layers == 0 {
        return Ok(());
    }
    let layer = layers - 1;
    let reached = reach(effective, profile, keys, layer);
    push_reached(profile, layer, reached, standings)?;
    push_below(effective, profile, keys, layer, standings)?;
    Ok(())
}

// Pushes what a layer has at keys of a profile, or on the way there, if it has something.
fn push_reached<'p>(
    profile: &'p str,
    layer: usize,
    reached: Option<Reached<'p>>,
    standings: &mut Vec<Standing<'p>>,
) -> Result<(), AllocError>
    ensures { OnOk result (map standing_of standings.new.items ≡ map standing_of standings.old.items
        ++ stands_there profile.now layer (option_map reached_of reached.entry)) }
{
    if let Some(reached) = reached {
        standings.push(Standing {
            profile,
            layer,
            reached,
        })?;
    }
    Ok(())
}

// What the keys of a profile lead to in a layer.
fn reach<'p>(
    effective: &'p EffectiveProfile<'_>,
    profile: &str,
    keys: &[&str],
    layer: usize,
) -> Option<Reached<'p>>
    ensures { option_map reached_of result ≡ stands (words_of keys.now)
        (standing_in profile.now (layer_at (layers_in effective.now) layer)) }
{
    follow(of_profile(effective, profile, layer), keys)
}

/// What a layer has for a profile.
pub(crate) fn of_profile<'p>(
    effective: &'p EffectiveProfile<'_>,
    profile: &str,
    layer: usize,
) -> Option<&'p Value>
    ensures { option_map (λ value. view value.now) result
        ≡ standing_in profile.now (layer_at (layers_in effective.now) layer) }
{
    let profiles = effective.layer(layer)?.as_table()?;
    value_at(profiles, profile)
}

// What keys lead to from a value.
fn follow<'p>(from: Option<&'p Value>, keys: &[&str]) -> Option<Reached<'p>>
    ensures reached { option_map reached_of result
        ≡ stands (words_of keys.now) (option_map (λ value. view value.now) from.entry) }
    ensures within { IfSome result (λ reached. reached.depth ≤ length keys.now) }
{
    let value = from?;
    let here = Some(Reached { depth: 0, value });
    let [key, rest @ ..] = keys else {
        return here;
    };
    let Some(table) = value.as_table() else {
        return here;
    };
    let below = follow(value_at(table, key), rest)?;
    Some(Reached {
        depth: below.depth + 1,
        value: below.value,
    })
}
