//! Paths of keys below profiles.

ghost use Rattle.std.specs.Prelude.{◌≡◌, ◌∷◌, ◌++◌, [], IfOk};
ghost use Rattle.nextest_config_profiles.specs.Reach.{words_of};

use std::alloc::{AllocError, Global};

/// The path of keys of a profile.
#[inline]
pub(crate) fn path_in<'a>(
    alloc: Global,
    profile: &'a str,
    keys: &[&'a str],
) -> Result<Vec<&'a str>, AllocError>
    ensures { IfOk result (λ path. words_of path.items ≡ profile.now ∷ words_of keys.now) }
{
    let mut path = Vec::new(alloc);
    path.push(profile)?;
    path.extend_from_slice(keys)?;
    Ok(path)
}

/// Keys, and one more.
pub(crate) fn with_key<'p>(
    alloc: Global,
    keys: &[&'p str],
    key: &'p str,
) -> Result<Vec<&'p str>, AllocError>
    ensures { IfOk result (λ all. words_of all.items ≡ words_of keys.now ++ (key.now ∷ [])) }
{
    let mut all = copy_of(alloc, keys)?;
    all.push(key)?;
    Ok(all)
}

/// A copy of keys.
pub(crate) fn copy_of<'p>(alloc: Global, keys: &[&'p str]) -> Result<Vec<&'p str>, AllocError>
    ensures { IfOk result (λ copy. words_of copy.items ≡ words_of keys.now) }
{
    let mut copy = Vec::new(alloc);
    copy.extend_from_slice(keys)?;
    Ok(copy)
}
