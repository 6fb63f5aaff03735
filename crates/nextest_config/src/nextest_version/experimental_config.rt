//! The experimental features that all sources name.

ghost use Rattle.std.specs.Prelude.{◌≡◌, ◌++◌, IfOk, map, OnOk, string_bytes};
ghost use Rattle.std.proofs.Props.{props};
ghost use Rattle.std.specs.Iterator.{YieldsFirstBy, item_count};
ghost use Rattle.nextest_config.specs.NextestVersion.Experimental.{FeaturesInOrder};

use crate::merge::Merge;
use crate::nextest_version::{ConfigExperimental, ConfigSource, ExperimentalDeserialize};
use std::alloc::{AllocError, Global};
use std::collections::BTreeSet;
use std::slice;

/// The experimental features of all sources read so far. Unknown feature names are kept
/// with the source that has them, since a later version may know them: the version is judged first.
#[derive(Debug, PartialEq, Eq, Drop)]
pub struct ExperimentalConfig {
    known: BTreeSet<ConfigExperimental>,
    unknown: Vec<UnknownFeatures>,
    array_sources: Vec<ConfigSource>,
    ghost known_in_order: { FeaturesInOrder known.keys } by { Prim.hlevel props },
}

// The unknown feature names in a source.
#[derive(Debug, PartialEq, Eq, Drop)]
struct UnknownFeatures {
    source: ConfigSource,
    names: BTreeSet<String>,
}

impl ExperimentalConfig {
    ghost use Rattle.nextest_config.specs.NextestVersion.ExperimentalConfig.{AddsFeatures, array_at, arrays_left, errors_left, experimental_of, no_experimental};
    ghost use Rattle.nextest_config.specs.NextestVersion.ExperimentalDeserialize.{feature_setting_of};
    ghost use Rattle.nextest_config.specs.NextestVersion.Source.{place_of};

    /// The features of no source.
    pub fn new(alloc: Global) -> Self
        ensures { experimental_of result ≡ no_experimental }
    {
        ExperimentalConfig {
            known: BTreeSet::new(alloc),
            unknown: Vec::new(alloc),
            array_sources: Vec::new(alloc),
        }
    }

    pub fn clone(&self, alloc: Global) -> Result<Self, AllocError>
        ensures { IfOk result (λ config. experimental_of config ≡ experimental_of self.now) }
    {
        let known = self.known.clone()?;
        let unknown = UnknownFeatures::copies(alloc, &self.unknown)?;
        let array_sources = ConfigSource::copies(alloc, &self.array_sources)?;
        Ok(ExperimentalConfig {
            known,
            unknown,
            array_sources,
        })
    }

    /// The features that some source enables.
    pub fn known(&self) -> &BTreeSet<ConfigExperimental>
        ensures value { result.now.keys ≡ (experimental_of self.now).known }
        ensures in_order { FeaturesInOrder result.now.keys }
    {
        &self.known
    }

    /// Each source that has unknown feature names, with these names, in the order of the sources.
    pub fn source_errors(&self) -> SourceErrors<'_>
        ensures { errors_left result ≡ (experimental_of self.now).unknown }
    {
        SourceErrors {
            unknown: self.unknown.iter(),
        }
    }

    /// Each source that names its features in an array, which is deprecated, in the order of the
    /// sources.
    pub fn array_sources(&self) -> ArraySources<'_>
        ensures { arrays_left result ≡ (experimental_of self.now).arrays }
    {
        ArraySources {
            sources: self.array_sources.iter(),
        }
    }

    // Takes in what a later source names.
    pub(crate) fn accumulate(
        &mut self,
        alloc: Global,
        named: ExperimentalDeserialize,
        source: &ConfigSource,
    ) -> Result<(), AllocError>
        ensures { OnOk result (AddsFeatures (place_of source.now) (feature_setting_of named)
            (experimental_of self.old) (experimental_of self.new)) }
    {
        let ExperimentalDeserialize {
            mut known,
            unknown,
            array,
        } = named;
        self.known.append(&mut known)?;
        UnknownFeatures::push(alloc, &mut self.unknown, source, unknown)?;
        ExperimentalConfig::push_array(alloc, &mut self.array_sources, source, array)?;
        Ok(())
    }

    // Adds a source, if it names its features in an array.
    fn push_array(
        alloc: Global,
        sources: &mut Vec<ConfigSource>,
        source: &ConfigSource,
        array: bool,
    ) -> Result<(), AllocError>
        ensures { OnOk result (map place_of sources.new.items ≡ map place_of sources.old.items
            ++ array_at (place_of source.now) array) }
    {
        if array {
            sources.push(source.clone(alloc)?)?;
        }
        Ok(())
    }
}

impl Merge for ExperimentalConfig {
    ghost use Rattle.nextest_config.specs.NextestVersion.ExperimentalConfig.{experimental_of, join_features, no_features_seen, seen_features, SeenFeatures};
    ghost use Rattle.nextest_config.specs.NextestVersion.ExperimentalConfigLaws.{features_join};

    ghost Seen = { SeenFeatures };

    ghost seen = { λ config. seen_features (experimental_of config) };

    ghost join = { join_features };

    ghost neutral = { no_features_seen };

    /// Joins with the features that later sources name: those that either side enables, and the
    /// unknown names and the arrays of the later ones after those of the earlier ones.
    fn merge(&mut self, later: &mut Self) -> Result<(), AllocError> {
        let known = (&self.known | &later.known)?;
        self.array_sources.reserve(later.array_sources.len())?;
        self.unknown.append(&mut later.unknown)?;
        // It has its room.
        self.array_sources.append(&mut later.array_sources)?;
        self.known = known;
        later.known.clear();
        Ok(())
    }

    ghost laws = { features_join };
}

impl UnknownFeatures {
    ghost use Rattle.nextest_config.specs.NextestVersion.ExperimentalConfig.{entry_at, unknown_of};
    ghost use Rattle.nextest_config.specs.NextestVersion.Source.{place_of};

    // A copy of the names and of their source.
    #[tactic(auto, using(crate::proofs::Lists::zip_same_images))]
    fn clone(&self, alloc: Global) -> Result<Self, AllocError>
        ensures { IfOk result (λ entry. unknown_of entry ≡ unknown_of self.now) }
    {
        let source = self.source.clone(alloc)?;
        let names = self.names.clone()?;
        Ok(UnknownFeatures { source, names })
    }

    // Copies of the entries.
    fn copies(
        alloc: Global,
        entries: &[UnknownFeatures],
    ) -> Result<Vec<UnknownFeatures>, AllocError>
        ensures { IfOk result (λ copies. map unknown_of copies.items ≡ map unknown_of entries.now) }
    {
        let mut copies = Vec::new(alloc);
        for entry in entries {
            copies.push(entry.clone(alloc)?)?;
        }
        Ok(copies)
    }

    // Adds the entry of a source with these names, unless there are none.
    fn push(
        alloc: Global,
        entries: &mut Vec<UnknownFeatures>,
        source: &ConfigSource,
        names: BTreeSet<String>,
    ) -> Result<(), AllocError>
        ensures { OnOk result (map unknown_of entries.new.items ≡ map unknown_of entries.old.items
            ++ entry_at (place_of source.now) (map string_bytes names.keys)) }
    {
        if names.is_empty() {
            return Ok(());
        }
        let source = source.clone(alloc)?;
        entries.push(UnknownFeatures { source, names })?;
        Ok(())
    }
}

/// The sources that have unknown feature names, each with these names. From
/// [`ExperimentalConfig::source_errors`].
#[derive(Clone, Debug, Drop)]
pub struct SourceErrors<'a> {
    unknown: slice::Iter<'a, UnknownFeatures>,
}

impl<'a> Iterator for SourceErrors<'a> {
    ghost use Rattle.nextest_config.specs.NextestVersion.ExperimentalConfig.{errors_left, told_by};

    type Item = (&'a ConfigSource, &'a BTreeSet<String>);

    ghost next_gives = { YieldsFirstBy told_by errors_left };

    ghost remaining = { item_count errors_left };

    fn next(&mut self) -> Option<(&'a ConfigSource, &'a BTreeSet<String>)> {
        let entry = self.unknown.next()?;
        Some((&entry.source, &entry.names))
    }
}

/// The sources that name their features in an array. From [`ExperimentalConfig::array_sources`].
#[derive(Clone, Debug, Drop)]
pub struct ArraySources<'a> {
    sources: slice::Iter<'a, ConfigSource>,
}

impl<'a> Iterator for ArraySources<'a> {
    ghost use Rattle.nextest_config.specs.NextestVersion.ExperimentalConfig.{arrays_left};
    ghost use Rattle.nextest_config.specs.NextestVersion.Source.{place_of};

    type Item = &'a ConfigSource;

    ghost next_gives = { YieldsFirstBy (λ source. place_of source.now) arrays_left };

    ghost remaining = { item_count arrays_left };

    fn next(&mut self) -> Option<&'a ConfigSource> {
        self.sources.next()
    }
}
