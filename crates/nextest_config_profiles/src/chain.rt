//! The profiles whose settings a profile falls back on.

ghost use Rattle.std.specs.Prelude.{◌≡◌, ◌++◌, ◌∷◌, [], IfErr, IfOk, OnOk};
ghost use Rattle.nextest_config_profiles.specs.Chain.{IsChain, IsChainFault, IsNext, IsNextFault};
ghost use Rattle.nextest_config_profiles.specs.Reach.{layers_of, words_of};

use crate::last_value::last_value;
use crate::profiles::{DEFAULT, is_profile, name_set};
use crate::reach::LentLayers;
use std::alloc::{AllocError, Global};

pub(crate) const INHERITS: &str = "inherits";

/// Why a profile has no chain.
#[derive(Clone, Copy)]
pub(crate) enum ChainFault<'a> {
    /// There is no profile of the name.
    NoProfile,
    /// The way from the profile comes back to this one.
    Ring { profile: &'a str },
    /// This one inherits from what is no profile.
    NotDefined { profile: &'a str, parent: &'a str },
    /// What this one has at `inherits` is no text.
    NotText { profile: &'a str },
    Memory,
}

impl From<AllocError> for ChainFault<'_> {
    ghost use Rattle.std.specs.Prelude.{◌≡◌};
    ghost use Rattle.nextest_config_profiles.specs.declared.chain.ChainFault.TheVariants.{Memory};

    ghost from_gives = { λ _ fault. fault ≡ Memory };

    fn from(_: AllocError) -> Self {
        ChainFault::Memory
    }
}

/// The profile, what it inherits from, and so on, and at the end `default`, once.
pub(crate) fn chain_of<'a>(
    alloc: Global,
    layers: LentLayers<'_, 'a>,
    name: &'a str,
) -> Result<Vec<&'a str>, ChainFault<'a>>
    ensures chain { IfOk result (λ chain.
        IsChain (layers_of layers.entry) name.now (words_of chain.items)) }
    ensures fault { IfErr result (IsChainFault (layers_of layers.entry) name.now) }
{
    if !is_profile(layers, name) {
        return Err(ChainFault::NoProfile);
    }
    let mut left = name_set(alloc, layers)?;
    let mut chain = Vec::new(alloc);
    let mut current = name;
    while current != DEFAULT {
        if !left.remove(current) {
            return Err(ChainFault::Ring { profile: current });
        }
        push(&mut chain, current)?;
        current = next_profile(layers, current)?;
    }
    push(&mut chain, DEFAULT)?;
    Ok(chain)
}

fn push<'a>(names: &mut Vec<&'a str>, name: &'a str) -> Result<(), AllocError>
    ensures { OnOk result
        (words_of names.new.items ≡ words_of names.old.items ++ (name.now ∷ [])) }
{
    names.push(name)?;
    Ok(())
}

// What comes after a profile: what it inherits from, or else `default`.
fn next_profile<'a>(layers: LentLayers<'_, 'a>, profile: &'a str) -> Result<&'a str, ChainFault<'a>>
    ensures next { IfOk result (λ next. IsNext (layers_of layers.entry) profile.now next.now) }
    ensures fault { IfErr result (IsNextFault (layers_of layers.entry) profile.now) }
{
    let Some(inherits) = last_value(layers, &[profile, INHERITS]) else {
        return Ok(DEFAULT);
    };
    match inherits.value.as_str() {
        Some(parent) if is_profile(layers, parent) => Ok(parent),
        Some(parent) => Err(ChainFault::NotDefined { profile, parent }),
        None => Err(ChainFault::NotText { profile }),
    }
}
