//! The names of all profiles of a list.

ghost use Rattle.std.specs.Prelude.{◌≡◌, IfOk};
ghost use Rattle.nextest_config_profiles.specs.Layer.{profiles_in};
ghost use Rattle.nextest_config_profiles.specs.NameList.{AreInOrder, AreNamesOf, is_own};
ghost use Rattle.nextest_config_profiles.specs.Reach.{words_of};

use crate::layer::{Layer, profiles_of_files};
use crate::profiles::{DEFAULT, DEFAULT_MIRI, name_set};
use crate::reach::LentLayers;
use std::alloc::{AllocError, Global};

/// The names of all profiles: those that some file has, and those that nextest has itself.
/// `default` and `default-miri` come first, and then the others in the order of their bytes.
pub fn profile_names<'a>(alloc: Global, layers: &[Layer<'a>]) -> Result<Vec<&'a str>, AllocError>
    ensures names { IfOk result (λ names.
        AreNamesOf (profiles_in layers.now) (words_of names.items)) }
    ensures order { IfOk result (λ names. AreInOrder (words_of names.items)) }
{
    let profiles = profiles_of_files(alloc, layers)?;
    let files = LentLayers {
        defaults: None,
        files: profiles.as_slice(),
    };
    let all = name_set(alloc, files)?;
    let mut names = Vec::new(alloc);
    names.push(DEFAULT)?;
    names.push(DEFAULT_MIRI)?;
    for name in &all {
        if !is_own(name) {
            names.push(*name)?;
        }
    }
    Ok(names)
}

// Whether nextest has the profile itself.
fn is_own(name: &str) -> bool
    ensures { result ≡ is_own name.now }
{
    name == DEFAULT || name == DEFAULT_MIRI
}
