//! Sources that are borrowed to be read as one list.

ghost use Rattle.std.specs.Prelude.{◌≡◌, IfErr, IfOk, List, map};
ghost use Rattle.nextest_config.specs.NextestVersion.{under, AreGivenAs, configuration_of, givens_of, IsConfigurationOf, IsRefusedReading};
ghost use Rattle.nextest_config.specs.NextestVersion.Source.{Given};
ghost use Rattle.nextest_config.specs.declared.nextest_version.borrowed_source.BorrowedSource.TheVariants.{Document};

use super::document::SourceDocument;
use super::error::{ConfigParseError, ListRefusal};
use super::file::File;
use super::version_only::VersionOnlyConfig;
use crate::merge::{Merge, PieceRefusal, ReadPiece, read_halves};
use crate::nextest_version::{Edition, RepositoryText, ToolText};
use std::alloc::{AllocError, Global};
use std::marker::PhantomData;

/// A source that is borrowed to be read.
#[derive(Clone, Copy)]
pub(super) enum BorrowedSource<'a> {
    File(File<'a>),
    Document(SourceDocument<'a>),
}

impl<'a> BorrowedSource<'a> {
    /// Files in the order in which they are read: the tools', the last one first, and then the
    /// repository's.
    pub(super) fn of_files(
        alloc: Global,
        repository: &'a RepositoryText,
        tools: &'a [ToolText],
    ) -> Result<Vec<BorrowedSource<'a>>, AllocError>
        ensures { IfOk result
            (λ files. AreGivenAs (givens_of repository.now tools.now) files.items) }
    {
        let mut files = Vec::new(alloc);
        for tool in tools.iter().rev() {
            files.push(BorrowedSource::File(File::Tool(tool)))?;
        }
        files.push(BorrowedSource::File(File::Repository(repository)))?;
        Ok(files)
    }

    pub(super) fn of_documents(
        alloc: Global,
        documents: &'a [SourceDocument<'a>],
    ) -> Result<Vec<BorrowedSource<'a>>, AllocError>
        ensures { IfOk result (λ sources. sources.items ≡ map Document documents.now) }
    {
        let mut sources = Vec::new(alloc);
        for document in documents {
            sources.push(BorrowedSource::Document(*document))?;
        }
        Ok(sources)
    }

    /// Reads the sources under the edition, lowest priority first, up to the first one that is
    /// refused.
    pub(super) fn read_all(
        alloc: Global,
        edition: Edition,
        sources: &[BorrowedSource<'a>],
    ) -> Result<VersionOnlyConfig, ListRefusal>
        ensures read { IfOk result (λ config. (givens : List Given) → AreGivenAs givens sources.now
            → IsConfigurationOf (map (under edition) givens) (configuration_of config)) }
        ensures refused { IfErr result (λ refusal. (givens : List Given)
            → AreGivenAs givens sources.now
            → IsRefusedReading (map (under edition) givens) refusal) }
    {
        let read = read_halves::<SourcesConfig>(alloc, &edition, sources)?;
        Ok(read.into_config())
    }
}

/// The configuration of borrowed sources.
#[derive(Drop)]
pub(super) struct SourcesConfig<'a> {
    config: VersionOnlyConfig,
    sources: PhantomData<BorrowedSource<'a>>,
}

impl<'a> SourcesConfig<'a> {
    ghost use Rattle.nextest_config.specs.NextestVersion.VersionOnly.{configuration_of};

    fn new(config: VersionOnlyConfig) -> Self
        ensures { configuration_of result.config ≡ configuration_of config }
    {
        SourcesConfig {
            config,
            sources: PhantomData,
        }
    }

    fn into_config(self) -> VersionOnlyConfig
        ensures { configuration_of result ≡ configuration_of self.entry.config }
    {
        let SourcesConfig { config, sources: _ } = self;
        config
    }
}

impl<'a> Merge for SourcesConfig<'a> {
    ghost use Rattle.nextest_config.specs.NextestVersion.VersionOnly.{configuration_of, join_configurations, neutral_seen, seen_configuration, SeenConfiguration};
    ghost use Rattle.nextest_config.specs.NextestVersion.VersionOnlyLaws.{configurations_join};

    ghost Seen = { SeenConfiguration };

    ghost seen = { λ it. seen_configuration (configuration_of it.config) };

    ghost join = { join_configurations };

    ghost neutral = { neutral_seen };

    fn merge(&mut self, later: &mut Self) -> Result<(), AllocError> {
        self.config.merge(&mut later.config)
    }

    ghost laws = { configurations_join };
}

impl<'a> ReadPiece for SourcesConfig<'a> {
    ghost use Rattle.std.specs.Prelude.{Option};
    ghost use Rattle.std.proofs.Common.{arith};
    ghost use Rattle.nextest_config.specs.NextestVersion.BorrowedSource.{IsErrorOfBorrowed, StandsForBorrowed};
    ghost use Rattle.nextest_config.specs.NextestVersion.BorrowedSourceLaws.{one_borrowed};
    ghost use Rattle.nextest_config.specs.NextestVersion.Error.{Refusal, refusal_of};
    ghost use Rattle.nextest_config.specs.NextestVersion.VersionOnly.{configuration_of};

    type Source = BorrowedSource<'a>;

    type Error = ConfigParseError;

    type Context = Edition;

    ghost Told = { Option Refusal };

    ghost told = { refusal_of };

    ghost piece = { λ edition source it.
        StandsForBorrowed edition source (configuration_of it.config) };

    ghost wrong = { IsErrorOfBorrowed };

    fn neutral(alloc: Global) -> Self {
        SourcesConfig::new(VersionOnlyConfig::new(alloc))
    }

    fn read_one(
        alloc: Global,
        edition: &Edition,
        source: &BorrowedSource<'a>,
    ) -> Result<Self, PieceRefusal<ConfigParseError>> {
        let config = match source {
            BorrowedSource::File(file) => file.read(alloc, *edition)?,
            BorrowedSource::Document(document) => {
                VersionOnlyConfig::of_document(alloc, *edition, *document)?
            }
        };
        Ok(SourcesConfig::new(config))
    }

    ghost reads_one = { λ edition. one_borrowed edition (λ it. configuration_of it.config) };

    ghost size_in_range = { Prim.omega arith };
}
