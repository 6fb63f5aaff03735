//! What each layer has for one profile, looked up once.

ghost use Rattle.std.specs.Prelude.{◌≡◌, IfOk, IsTrue};
ghost use Rattle.nextest_config_profiles.specs.Profile.{AreLookedUp, chain_in, layers_in, names_of};
ghost use Rattle.nextest_config_profiles.specs.Reach.{words_of};

use crate::profile::EffectiveProfile;
use crate::reach::{Reach, reached_at};
use crate::texts::lent;
use std::alloc::{AllocError, Global};

/// A profile, with what each layer has for it, the lowest first.
#[derive(Drop)]
pub(crate) struct ProfileAlone<'p> {
    pub name: &'p str,
    pub layers: Vec<Reach<'p>>,
}

/// A profile, those of its chain, and all profiles, each by itself.
#[derive(Clone, Copy)]
pub(crate) struct Profiles<'l, 'p> {
    pub effective: &'p EffectiveProfile<'p>,
    pub chain: &'l [ProfileAlone<'p>],
    pub all: &'l [ProfileAlone<'p>],
}

impl EffectiveProfile<'_> {
    /// The profiles of these names, each by itself.
    pub(crate) fn each_alone<'p>(
        &'p self,
        alloc: Global,
        names: &[&'p str],
    ) -> Result<Vec<ProfileAlone<'p>>, AllocError>
        ensures looked_up { IfOk result (λ profiles.
            AreLookedUp (layers_in self.now) profiles.items) }
        ensures names { IfOk result (λ profiles. names_of profiles.items ≡ words_of names.now) }
    {
        let mut profiles = Vec::new(alloc);
        for name in names {
            let layers = reached_at(alloc, self.lent(), &[*name])?;
            profiles.push(ProfileAlone { name, layers })?;
        }
        Ok(profiles)
    }

    /// The profiles of its chain, each by itself.
    pub(crate) fn chain_alone(&self, alloc: Global) -> Result<Vec<ProfileAlone<'_>>, AllocError>
        ensures looked_up { IfOk result (λ profiles.
            AreLookedUp (layers_in self.now) profiles.items) }
        ensures names { IfOk result (λ profiles. names_of profiles.items ≡ chain_in self.now) }
    {
        let names = lent(alloc, self.chain())?;
        let profiles = self.each_alone(alloc, names.as_slice())?;
        Ok(profiles)
    }
}
