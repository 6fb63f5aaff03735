//! A profile with what it falls back on.

ghost use Rattle.std.specs.Prelude.{◌≡◌, ◌∷◌, [], IfErr, IfOk, length, map, MatchOption, None, option_map, string_bytes};
ghost use Rattle.std.specs.List.{AllByRecursion};
ghost use Rattle.toml.specs.View.{view};
ghost use Rattle.toml_spans.specs.Step.{step_of};
ghost use Rattle.nextest_config_profiles.specs.Effective.{IsEffective};
ghost use Rattle.nextest_config_profiles.specs.Chain.{chain_wrong, IsChain};
ghost use Rattle.nextest_config_profiles.specs.Inherits.{HasPlace, IsPlacedFault};
ghost use Rattle.nextest_config_profiles.specs.Layer.{all_layers};
ghost use Rattle.nextest_config_profiles.specs.Merged.{HasNoValue, IsMergedOver};
ghost use Rattle.nextest_config_profiles.specs.Profile.{chain_in, file_in, files_in, Gets, IsProfileFault, IsSpanIn, layer_at, layers_in, profile_wrong, steps_to};
ghost use Rattle.nextest_config_profiles.specs.SettingKey.{keys_of};
ghost use Rattle.nextest_config_profiles.specs.LastValue.{IsLastValue};
ghost use Rattle.nextest_config_profiles.specs.Leaves.{AreAllLeaves, IsLeafBelow};
ghost use Rattle.nextest_config_profiles.specs.Reach.{layers_of, words_of};
ghost use Rattle.nextest_config_profiles.specs.Said.{said_at};

use crate::chain::{ChainFault, chain_of};
use crate::defaults::default_document;
use crate::effective::{Effective, first_given, given_by};
use crate::inherits::{InheritsPlace, inherits_place};
use crate::last_value::{LayerValue, last_value};
use crate::layer::{Layer, lent_layers, profiles_at, profiles_of_files};
use crate::leaves::{Leaf, leaves_below};
use crate::merged::merged_over;
use crate::reach::{LentLayers, reached_at};
use crate::setting_key::SettingKey;
use crate::texts::copies;
use nextest_config_elements::profile_setting::ProfileSetting;
use std::alloc::{AllocError, Global};
use toml::{Table, Value};
use toml_spans::{Span, Step};

/// A profile of the layers of a list, with those whose settings it falls back on.
#[derive(Drop)]
pub struct EffectiveProfile<'a> {
    defaults: Table,
    layers: &'a [Layer<'a>],
    // What the files have for profiles.
    profiles: Vec<Option<&'a Value>>,
    chain: Vec<String>,
}

/// Why a profile has no effective settings. The place is where a file says what the profile
/// inherits from: the last that says anything of that. There always is one.
#[derive(Debug, Drop)]
pub enum ProfileFault<'a> {
    /// There is no profile of the name.
    NoProfile,
    /// What the profile inherits from comes back to this one.
    Ring {
        profile: String,
        place: Option<InheritsPlace<'a>>,
    },
    /// This one inherits from what is no profile.
    NotDefined {
        profile: String,
        parent: String,
        place: Option<InheritsPlace<'a>>,
    },
    /// What this one has at `inherits` is no text.
    NotText {
        profile: String,
        place: Option<InheritsPlace<'a>>,
    },
    Memory,
}

impl<'a> EffectiveProfile<'a> {
    /// The profile of this name, by layers that have no error, the lowest first.
    pub fn of(alloc: Global, layers: &'a [Layer<'a>], name: &str) -> Result<Self, ProfileFault<'a>>
        ensures files { IfOk result (λ profile. files_in profile ≡ layers.now) }
        ensures layers { IfOk result (λ profile. layers_in profile ≡ all_layers layers.now) }
        ensures chain { IfOk result (λ profile.
            IsChain (all_layers layers.now) name.now (chain_in profile)) }
        ensures fault { IfErr result (IsProfileFault (all_layers layers.now) name.now) }
        ensures place { IfErr result (IsPlacedFault layers.now) }
        ensures in_a_file { IfErr result HasPlace }
    {
        let defaults = default_document(alloc)?;
        let profiles = profiles_of_files(alloc, layers)?;
        match owned_chain(
            alloc,
            lent_layers(&defaults, profiles.as_slice()),
            layers,
            name,
        ) {
            Ok(chain) => Ok(EffectiveProfile {
                defaults,
                layers,
                profiles,
                chain,
            }),
            Err(fault) => Err(fault),
        }
    }

    /// The names of the profile and of those that it falls back on, `default` last.
    pub fn chain(&self) -> &[String]
        ensures { map string_bytes result.now ≡ chain_in self.now }
    {
        self.chain.as_slice()
    }

    /// What its layers have for profiles.
    pub(crate) fn lent(&self) -> LentLayers<'_, '_>
        ensures { layers_of result ≡ layers_in self.now }
    {
        lent_layers(&self.defaults, self.profiles.as_slice())
    }

    /// What the profile gets for the setting at these keys.
    pub fn setting<T: ProfileSetting>(
        &self,
        alloc: Global,
        keys: &[&str],
    ) -> Result<Effective<'_, T>, AllocError>
        ensures { IfOk result (IsEffective T.seen T.reading (layers_in self.now)
            (words_of keys.now) (chain_in self.now)) }
    {
        let chain = self.chain_alone(alloc)?;
        let given = first_given(alloc, chain.as_slice(), keys)?;
        Ok(given)
    }

    /// What the profile gets for the setting of this key.
    pub fn get<T: ProfileSetting>(
        &self,
        alloc: Global,
        key: &SettingKey<T>,
    ) -> Result<Effective<'_, T>, AllocError>
        ensures { IfOk result (Gets T.seen T.reading self.now (keys_of key.now)) }
    {
        let given = self.setting(alloc, key.0)?;
        Ok(given)
    }

    /// What a profile of this name alone gives the setting at these keys, whatever it falls back
    /// on.
    pub fn setting_of<'n, T: ProfileSetting>(
        &self,
        alloc: Global,
        name: &'n str,
        keys: &[&str],
    ) -> Result<Effective<'n, T>, AllocError>
        ensures { IfOk result (IsEffective T.seen T.reading (layers_in self.now)
            (words_of keys.now) (name.now ∷ [])) }
    {
        let layers = reached_at(alloc, self.lent(), &[name])?;
        match given_by(alloc, name, layers.as_slice(), keys)? {
            Some(given) => Ok(given),
            None => Ok(Effective::Nothing),
        }
    }

    /// What the last of the layers that say anything of a path below `profile` has there, if that
    /// is a value. Where it is no table, it is what the profile gets, and this layer is its source.
    pub fn last_value(
        &self,
        alloc: Global,
        path: &[&str],
    ) -> Result<Option<LayerValue<'_>>, AllocError>
        ensures { IfOk result
            (IsLastValue (map (said_at (words_of path.now)) (layers_in self.now))) }
    {
        Ok(last_value(self.lent(), path))
    }

    /// Where the value, or without one the key, of a path below `profile` stands in the file of a
    /// layer; `None` for what nextest sets itself, and where the path leads to nothing.
    pub fn span(
        &self,
        alloc: Global,
        layer: usize,
        path: &[&str],
    ) -> Result<Option<Span>, AllocError>
        ensures { IfOk result (IsSpanIn self.now layer (words_of path.now)) }
    {
        let steps = steps_to(alloc, path)?;
        match self.file(layer) {
            Some(file) => Ok(file.span(steps.as_slice())),
            None => Ok(None),
        }
    }

    /// The files by which the profile is told, the lowest first.
    pub fn files(&self) -> &'a [Layer<'a>]
        ensures { result.now ≡ files_in self.now }
    {
        self.layers
    }

    /// How many layers there are: what nextest sets itself, and the files.
    pub fn layer_count(&self) -> usize
        ensures { result ≡ length (layers_in self.now) }
    {
        self.profiles.len() + 1
    }

    /// What a layer alone has for profiles.
    pub fn layer(&self, layer: usize) -> Option<&Value>
        ensures { option_map (λ value. view value.now) result
            ≡ layer_at (layers_in self.now) layer }
    {
        match layer {
            0 => profiles_at(&self.defaults),
            layer => *self.profiles.as_slice().get(layer - 1)?,
        }
    }

    /// The file of a layer; `None` for what nextest sets itself.
    pub fn file(&self, layer: usize) -> Option<&Layer<'a>>
        ensures { option_map (λ file. file.now) result ≡ file_in self.now layer }
    {
        match layer {
            0 => None,
            layer => self.layers.get(layer - 1),
        }
    }

    /// What the merged layers have at a path below `profile`.
    pub fn value(&self, alloc: Global, path: &[&str]) -> Result<Option<Value>, AllocError>
        ensures { IfOk result (λ value. MatchOption value
            (HasNoValue (layers_in self.now) (words_of path.now))
            (λ value. IsMergedOver (layers_in self.now) (words_of path.now) (view value))) }
    {
        let value = merged_over(alloc, self.lent(), path)?;
        Ok(value)
    }

    /// The leaves of what the merged layers have at a path below `profile`, each
    /// with the layer that it comes from.
    pub fn leaves(&self, alloc: Global, path: &[&str]) -> Result<Vec<Leaf>, AllocError>
        ensures each { IfOk result (λ leaves. AllByRecursion
            (IsLeafBelow (layers_in self.now) (words_of path.now)) leaves.items) }
        ensures all { IfOk result (λ leaves.
            AreAllLeaves (layers_in self.now) (words_of path.now) leaves.items) }
    {
        let leaves = leaves_below(alloc, self.lent(), path)?;
        Ok(leaves)
    }
}

impl From<AllocError> for ProfileFault<'_> {
    ghost use Rattle.std.specs.Prelude.{◌≡◌};
    ghost use Rattle.nextest_config_profiles.specs.declared.profile.ProfileFault.TheVariants.{Memory};

    ghost from_gives = { λ _ fault. fault ≡ Memory };

    fn from(_: AllocError) -> Self {
        ProfileFault::Memory
    }
}

/// The steps of a path below `profile`, from the top.
pub(crate) fn steps_to(alloc: Global, path: &[&str]) -> Result<Vec<Step>, AllocError>
    ensures { IfOk result (λ steps. map step_of steps.items ≡ steps_to (words_of path.now)) }
{
    let mut steps = Vec::new(alloc);
    steps.push(Step::Key(String::from_str(alloc, "profile")?))?;
    for key in path {
        steps.push(Step::Key(String::from_str(alloc, key)?))?;
    }
    Ok(steps)
}

// The chain of a profile, by what the layers of these files have for profiles.
fn owned_chain<'a>(
    alloc: Global,
    lent: LentLayers<'_, '_>,
    layers: &'a [Layer<'a>],
    name: &str,
) -> Result<Vec<String>, ProfileFault<'a>>
    ensures chain { IfOk result (λ chain.
        IsChain (layers_of lent.entry) name.now (map string_bytes chain.items)) }
    ensures fault { IfErr result (IsProfileFault (layers_of lent.entry) name.now) }
    ensures place { IfErr result (IsPlacedFault layers.now) }
{
    match chain_of(alloc, lent, name) {
        Ok(chain) => {
            let chain = copies(alloc, chain.as_slice())?;
            Ok(chain)
        }
        Err(fault) => Err(placed(alloc, layers, fault)?),
    }
}

// The fault with texts of its own, and its place.
fn placed<'a>(
    alloc: Global,
    layers: &'a [Layer<'a>],
    fault: ChainFault<'_>,
) -> Result<ProfileFault<'a>, AllocError>
    ensures fault { IfOk result (λ placed. profile_wrong placed ≡ chain_wrong fault.entry) }
    ensures place { IfOk result (IsPlacedFault layers.now) }
{
    Ok(match fault {
        ChainFault::NoProfile => ProfileFault::NoProfile,
        ChainFault::Ring { profile } => ProfileFault::Ring {
            profile: String::from_str(alloc, profile)?,
            place: inherits_place(alloc, layers, profile)?,
        },
        ChainFault::NotDefined { profile, parent } => ProfileFault::NotDefined {
            profile: String::from_str(alloc, profile)?,
            parent: String::from_str(alloc, parent)?,
            place: inherits_place(alloc, layers, profile)?,
        },
        ChainFault::NotText { profile } => ProfileFault::NotText {
            profile: String::from_str(alloc, profile)?,
            place: inherits_place(alloc, layers, profile)?,
        },
        ChainFault::Memory => ProfileFault::Memory,
    })
}
