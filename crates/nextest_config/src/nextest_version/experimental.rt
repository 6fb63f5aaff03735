//! The experimental features that a configuration can enable.

ghost use Rattle.std.specs.Prelude.{◌≡◌, ◌↔◌, Contains, Some, IfOk, IsTrue, OnErr, OnOk, option_map};
ghost use Rattle.std.specs.Iterator.{YieldsFirst, item_count};
ghost use Rattle.nextest_config.specs.NextestVersion.{all_features, feature_reads_back, features_left, FeaturesInOrder, HasOneMore, IsEnabled, IsUnknown, variable_of, word_of};

use nextest_config_values::read::Word;
use std::alloc::{AllocError, Global};
use std::collections::{BTreeMap, BTreeSet};
use std::fmt;
use std::slice::Iter;

/// A feature that is still tried out, which a configuration has to enable.
#[derive(Copy, Clone, Debug, PartialEq, Eq, PartialOrd, Ord, Hash)]
pub enum ConfigExperimental {
    /// Scripts that run before tests.
    SetupScripts,
    /// Scripts that tests are run by.
    WrapperScripts,
    /// Support for benchmarks.
    Benchmarks,
}

impl ConfigExperimental {
    /// The feature with this word.
    ///
    /// # Errors
    ///
    /// The text is no feature's word.
    pub fn from_str(text: &str) -> Result<Self, ()>
        ensures known { IfOk result (λ feature. word_of feature ≡ text.now) }
        ensures refused { OnErr result (IsUnknown text.now) }
    {
        for feature in ConfigExperimental::all() {
            if feature.as_word() == text {
                return Ok(*feature);
            }
        }
        Err(())
    }

    /// The feature's name in a configuration.
    pub fn as_word(self) -> &'static str
        ensures { result.now ≡ word_of self }
    {
        Word::as_word(self)
    }

    /// All features, in order.
    pub fn known_features() -> KnownFeatures
        ensures { features_left result ≡ all_features }
    {
        KnownFeatures {
            features: ConfigExperimental::all().iter(),
        }
    }

    /// The environment variable that enables the feature, if any.
    pub fn env_var(self) -> Option<&'static str>
        ensures { option_map (λ name. name.now) result ≡ variable_of self }
    {
        match self {
            ConfigExperimental::SetupScripts | ConfigExperimental::WrapperScripts => None,
            ConfigExperimental::Benchmarks => Some("NEXTEST_EXPERIMENTAL_BENCHMARKS"),
        }
    }

    /// The features that environment variables enable: those whose variable is `1`.
    ///
    /// # Errors
    ///
    /// A request for memory was refused.
    pub fn from_env(
        alloc: Global,
        variables: &BTreeMap<String, String>,
    ) -> Result<BTreeSet<Self>, AllocError>
        ensures { IfOk result (λ features. (feature : ConfigExperimental)
            → Contains features.keys feature ↔ IsEnabled variables.now feature) }
    {
        let mut features = BTreeSet::new(alloc);
        for feature in ConfigExperimental::known_features() {
            if feature.is_enabled(variables) {
                add_feature(&mut features, feature)?;
            }
        }
        Ok(features)
    }

    // Whether the feature's variable enables it.
    fn is_enabled(self, variables: &BTreeMap<String, String>) -> bool
        ensures { IsTrue result ↔ IsEnabled variables.now self }
    {
        let Some(name) = self.env_var() else {
            return false;
        };
        match variables.get(name) {
            Some(value) => value.as_str() == "1",
            None => false,
        }
    }
}

impl Word for ConfigExperimental {
    ghost all = { all_features };

    ghost word = { word_of };

    ghost reads_back = { feature_reads_back };

    fn all() -> &'static [Self] {
        &[
            ConfigExperimental::SetupScripts,
            ConfigExperimental::WrapperScripts,
            ConfigExperimental::Benchmarks,
        ]
    }

    fn words() -> &'static [&'static str] {
        &["setup-scripts", "wrapper-scripts", "benchmarks"]
    }

    fn position(self) -> usize {
        self as usize
    }
}

// Adds a feature to a set.
#[tactic(auto, using(crate::proofs::SourceOrders::features_in_order))]
pub(crate) fn add_feature(
    features: &mut BTreeSet<ConfigExperimental>,
    feature: ConfigExperimental,
) -> Result<(), AllocError>
    ensures added { OnOk result (HasOneMore features.old.keys feature features.new.keys) }
    ensures in_order { FeaturesInOrder features.new.keys }
{
    features.insert(feature)?;
    Ok(())
}

impl fmt::Display for ConfigExperimental {
    ghost output = { λ feature. Some (word_of feature) };

    ghost styled_output = { λ feature _. Some (word_of feature) };

    fn fmt<W: fmt::Write>(&self, f: &mut fmt::Formatter<W>) -> fmt::Result {
        f.write_str(self.as_word())
    }
}

/// Iterates over all features in order. Made by [`ConfigExperimental::known_features`].
#[derive(Clone, Debug, Drop)]
pub struct KnownFeatures {
    features: Iter<'static, ConfigExperimental>,
}

impl Iterator for KnownFeatures {
    type Item = ConfigExperimental;

    ghost next_gives = { YieldsFirst features_left };

    ghost remaining = { item_count features_left };

    fn next(&mut self) -> Option<ConfigExperimental> {
        self.features.next().copied()
    }
}
