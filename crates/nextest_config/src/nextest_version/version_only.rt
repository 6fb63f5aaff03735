//! The configuration of a list of sources.

ghost use Rattle.std.specs.Prelude.{◌≡◌, IfOk, IfErr, IsTrue, List, [], ◌∷◌, map, option_map, string_bytes};
ghost use Rattle.nextest_config.specs.Merge.{IsRefusalOfOne};
ghost use Rattle.nextest_config.specs.NextestVersion.{given_at, nothing, source_of, source_under, TextAsks, under, AreDocumentsOf, configuration_of, experimental_of, IsConfigurationOf, IsErrorOf, IsErrorOfDocument, IsErrorOfReading, IsRefusedReading, neutral, refusal_of, roles_of, source_ask, sources_of, sources_under, StandsForAsks, StandsForDocument, StandsForOne};
ghost use Rattle.nextest_config.specs.NextestVersion.Source.{Given};
ghost use Rattle.nextest_config.specs.declared.nextest_version.edition.Edition.{Edition};
ghost use Rattle.nextest_config.specs.declared.nextest_version.source.ConfigSourceKind.{ConfigSourceKind};

use super::borrowed_source::BorrowedSource;
use super::document::SourceDocument;
use super::error::{ConfigParseError, ListRefusal};
use super::experimental_config::ExperimentalConfig;
use super::kept_versions::NextestVersionConfig;
use crate::merge::{Merge, PieceRefusal, ReadPiece, read_halves};
use crate::nextest_version::{
    ConfigSource, Edition, RepositoryText, SourceText, ToolText, VersionOnlyDeserialize,
};
use std::alloc::{AllocError, Global};

/// The part of the configuration that is read before any other: which nextest version it needs, and
/// which experimental features it names.
#[derive(Debug, PartialEq, Eq, Drop)]
pub struct VersionOnlyConfig {
    nextest_version: NextestVersionConfig,
    experimental: ExperimentalConfig,
}

impl VersionOnlyConfig {
    /// The configuration of no source, which asks nothing.
    pub fn new(alloc: Global) -> Self
        ensures { configuration_of result ≡ neutral }
    {
        VersionOnlyConfig {
            nextest_version: NextestVersionConfig::default(),
            experimental: ExperimentalConfig::new(alloc),
        }
    }

    pub fn clone(&self, alloc: Global) -> Result<Self, AllocError>
        ensures { IfOk result (λ config. configuration_of config ≡ configuration_of self.now) }
    {
        let nextest_version = self.nextest_version.clone(alloc)?;
        let experimental = self.experimental.clone(alloc)?;
        Ok(VersionOnlyConfig {
            nextest_version,
            experimental,
        })
    }

    /// Reads the sources, lowest priority first, up to the first one that is refused.
    pub fn from_list(alloc: Global, sources: &[SourceText]) -> Result<Self, ListRefusal>
        ensures read { IfOk result (λ config.
            IsConfigurationOf (map source_of sources.now) (configuration_of config)) }
        ensures refused { IfErr result (IsRefusedReading (map source_of sources.now)) }
    {
        VersionOnlyConfig::from_list_with(alloc, Edition::ArrayAllowed, sources)
    }

    /// Reads the sources under the edition, lowest priority first, up to the first one that is
    /// refused.
    pub fn from_list_with(
        alloc: Global,
        edition: Edition,
        sources: &[SourceText],
    ) -> Result<Self, ListRefusal>
        ensures read { IfOk result (λ config.
            IsConfigurationOf (map (source_under edition) sources.now) (configuration_of config)) }
        ensures refused { IfErr result (IsRefusedReading (map (source_under edition) sources.now)) }
    {
        read_halves::<VersionOnlyConfig>(alloc, &edition, sources)
    }

    /// Reads the tools' files, the last one first, and then the repository's, up to the first one
    /// that is refused: a tool that is named earlier has the higher priority, and the repository
    /// has the highest.
    pub fn from_sources(
        alloc: Global,
        repository: &RepositoryText,
        tools: &[ToolText],
    ) -> Result<Self, ConfigParseError>
        ensures read { IfOk result (λ config.
            IsConfigurationOf (sources_of repository.now tools.now) (configuration_of config)) }
        ensures refused { IfErr result (IsErrorOfReading (sources_of repository.now tools.now)) }
    {
        VersionOnlyConfig::from_sources_with(alloc, Edition::ArrayAllowed, repository, tools)
    }

    /// Reads the tools' files, the last one first, and then the repository's, under the edition, up
    /// to the first one that is refused.
    pub fn from_sources_with(
        alloc: Global,
        edition: Edition,
        repository: &RepositoryText,
        tools: &[ToolText],
    ) -> Result<Self, ConfigParseError>
        ensures read { IfOk result (λ config. IsConfigurationOf
            (sources_under edition repository.now tools.now) (configuration_of config)) }
        ensures refused { IfErr result
            (IsErrorOfReading (sources_under edition repository.now tools.now)) }
    {
        let files = BorrowedSource::of_files(alloc, repository, tools)?;
        match BorrowedSource::read_all(alloc, edition, files.as_slice()) {
            Ok(config) => Ok(config),
            Err(refusal) => Err(ConfigParseError::of_list(refusal)),
        }
    }

    /// Reads the sources of documents that are at hand under the edition, lowest priority first, up
    /// to the first one that is refused: as [`VersionOnlyConfig::from_list_with`] reads texts of
    /// which `toml` reads these documents.
    pub fn from_documents(
        alloc: Global,
        edition: Edition,
        documents: &[SourceDocument<'_>],
    ) -> Result<Self, ListRefusal>
        ensures read { IfOk result (λ config. (givens : List Given)
            → AreDocumentsOf givens documents.now
            → IsConfigurationOf (map (under edition) givens) (configuration_of config)) }
        ensures refused { IfErr result (λ refusal. (givens : List Given)
            → AreDocumentsOf givens documents.now
            → IsRefusedReading (map (under edition) givens) refusal) }
    {
        let sources = BorrowedSource::of_documents(alloc, documents)?;
        BorrowedSource::read_all(alloc, edition, sources.as_slice())
    }

    /// The versions that are kept.
    pub fn nextest_version(&self) -> &NextestVersionConfig
        ensures { roles_of result.now ≡ (configuration_of self.now).roles }
    {
        &self.nextest_version
    }

    /// The experimental features that the sources name.
    pub fn experimental(&self) -> &ExperimentalConfig
        ensures { experimental_of result.now ≡ (configuration_of self.now).experimental }
    {
        &self.experimental
    }

    // The configuration of one source with these contents.
    #[tactic(auto, using(crate::proofs::Readings::refusal_of_one, crate::proofs::Standing::stands_for_read))]
    pub(super) fn of_source(
        alloc: Global,
        edition: Edition,
        source: &ConfigSource,
        contents: &Option<String>,
    ) -> Result<Self, PieceRefusal<ConfigParseError>>
        ensures stands { IfOk result (λ config. StandsForOne
            (under edition (given_at source.now contents.now)) (configuration_of config)) }
        ensures refused { IfErr result (IsRefusalOfOne refusal_of IsErrorOf
            (under edition (given_at source.now contents.now))) }
    {
        match VersionOnlyDeserialize::read(alloc, edition, &source.kind, contents) {
            Ok(asked) => Ok(VersionOnlyConfig::of_ask(alloc, source, asked)?),
            Err(kind) => Err(ConfigParseError::of_source(alloc, source, kind)),
        }
    }

    // The configuration of the source of a document.
    #[tactic(auto, using(crate::proofs::Readings::refusal_of_document))]
    pub(super) fn of_document(
        alloc: Global,
        edition: Edition,
        document: SourceDocument<'_>,
    ) -> Result<Self, PieceRefusal<ConfigParseError>>
        ensures stands { IfOk result (λ config.
            StandsForDocument edition document.entry (configuration_of config)) }
        ensures refused { IfErr result
            (IsRefusalOfOne refusal_of (IsErrorOfDocument edition) document.entry) }
    {
        let kind = &document.source.kind;
        match VersionOnlyDeserialize::of_table(alloc, edition, kind, document.document) {
            Ok(asked) => Ok(VersionOnlyConfig::of_ask(alloc, document.source, asked)?),
            Err(kind) => Err(ConfigParseError::of_source(alloc, document.source, kind)),
        }
    }

    // The configuration of one source that asks this.
    fn of_ask(
        alloc: Global,
        source: &ConfigSource,
        asked: VersionOnlyDeserialize,
    ) -> Result<Self, AllocError>
        ensures { IfOk result (λ config.
            StandsForAsks (source_ask source.now asked ∷ []) (configuration_of config)) }
    {
        let VersionOnlyDeserialize {
            nextest_version,
            experimental,
        } = asked;
        let mut config = VersionOnlyConfig::new(alloc);
        config
            .nextest_version
            .accumulate(alloc, nextest_version, source)?;
        config.experimental.accumulate(alloc, experimental, source)?;
        Ok(config)
    }
}

// Whether there is no file, or an empty one.
pub(super) fn asks_nothing(contents: &Option<String>) -> bool
    ensures { IsTrue result → (edition : Edition) (kind : ConfigSourceKind)
        → TextAsks edition kind (option_map string_bytes contents.now) nothing }
{
    match contents {
        Some(text) => text.is_empty(),
        None => true,
    }
}

impl Merge for VersionOnlyConfig {
    ghost use Rattle.nextest_config.specs.NextestVersion.VersionOnly.{configuration_of, join_configurations, neutral_seen, seen_configuration, SeenConfiguration};
    ghost use Rattle.nextest_config.specs.NextestVersion.VersionOnlyLaws.{configurations_join};

    ghost Seen = { SeenConfiguration };

    ghost seen = { λ config. seen_configuration (configuration_of config) };

    ghost join = { join_configurations };

    ghost neutral = { neutral_seen };

    /// Joins with the configuration of later sources: the versions and the features of both.
    fn merge(&mut self, later: &mut Self) -> Result<(), AllocError> {
        self.experimental.merge(&mut later.experimental)?;
        self.nextest_version.merge(&mut later.nextest_version)
    }

    ghost laws = { configurations_join };
}

impl ReadPiece for VersionOnlyConfig {
    ghost use Rattle.std.specs.Prelude.{Option};
    ghost use Rattle.std.proofs.Common.{arith};
    ghost use Rattle.nextest_config.specs.NextestVersion.Error.{Refusal, refusal_of};
    ghost use Rattle.nextest_config.specs.NextestVersion.Source.{source_under};
    ghost use Rattle.nextest_config.specs.NextestVersion.VersionOnly.{configuration_of, IsErrorOf, StandsForOne};
    ghost use Rattle.nextest_config.specs.NextestVersion.VersionOnlyLaws.{one_read};

    type Source = SourceText;

    type Error = ConfigParseError;

    type Context = Edition;

    ghost Told = { Option Refusal };

    ghost told = { refusal_of };

    ghost piece = { λ edition source config.
        StandsForOne (source_under edition source) (configuration_of config) };

    ghost wrong = { λ edition source told. IsErrorOf (source_under edition source) told };

    fn neutral(alloc: Global) -> Self {
        VersionOnlyConfig::new(alloc)
    }

    /// What one source asks under the edition, or what is wrong with it.
    fn read_one(
        alloc: Global,
        edition: &Edition,
        source: &SourceText,
    ) -> Result<Self, PieceRefusal<ConfigParseError>> {
        if asks_nothing(&source.contents) {
            return Ok(VersionOnlyConfig::new(alloc));
        }
        VersionOnlyConfig::of_source(alloc, *edition, &source.source, &source.contents)
    }

    ghost reads_one = { λ edition. one_read (source_under edition) configuration_of };

    ghost size_in_range = { Prim.omega arith };
}
