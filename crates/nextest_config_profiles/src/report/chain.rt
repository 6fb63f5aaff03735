//! The profiles of a chain, each with the place where it says what it inherits from.

ghost use Rattle.std.specs.Prelude.{IfOk};
ghost use Rattle.std.specs.List.{AllZip};
ghost use Rattle.nextest_config_profiles.specs.Profile.{chain_in};
ghost use Rattle.nextest_config_profiles.specs.Report.Chain.{IsChainProfile};

use crate::EffectiveProfile;
use crate::report::last::last_source;
use crate::report::parts::ChainProfile;
use std::alloc::{AllocError, Global};

/// The profile and those that it falls back on.
pub(crate) fn chain<'p>(
    alloc: Global,
    effective: &'p EffectiveProfile<'p>,
) -> Result<Vec<ChainProfile<'p>>, AllocError>
    ensures { IfOk result (λ chain.
        AllZip (IsChainProfile effective.now) (chain_in effective.now) chain.items) }
{
    let names = effective.chain();
    let mut chain = Vec::new(alloc);
    for name in names {
        chain.push(chain_profile(alloc, effective, name.as_str())?)?;
    }
    Ok(chain)
}

// A profile of the chain, with where it stands what it inherits from.
fn chain_profile<'p>(
    alloc: Global,
    effective: &'p EffectiveProfile<'p>,
    name: &'p str,
) -> Result<ChainProfile<'p>, AllocError>
    ensures { IfOk result (IsChainProfile effective.now name.now) }
{
    let inherits = if name == "default" {
        None
    } else {
        last_source(alloc, effective, name, &["inherits"])?
    };
    Ok(ChainProfile { name, inherits })
}
