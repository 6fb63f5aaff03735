//! How many different texts there are.

ghost use Rattle.std.specs.Prelude.{◌≡◌, map, IfOk};
ghost use Rattle.nextest_config_command.specs.Distinct.{distinct};

use std::alloc::{AllocError, Global};
use std::collections::BTreeSet;

/// How many different texts there are.
#[tactic(auto, using(crate::proofs::Counts::one_key_each))]
pub(crate) fn count_distinct(alloc: Global, texts: &[&str]) -> Result<usize, AllocError>
    ensures { IfOk result (λ count. count ≡ distinct (map (λ text. text.now) texts.now)) }
{
    let different: BTreeSet<&str> = texts.iter().copied().collect(alloc)?;
    Ok(different.len())
}
