//! The files of tools and of a repository.

ghost use Rattle.std.specs.Prelude.{◌≡◌, IfErr, IfOk, option_map, string_bytes};
ghost use Rattle.nextest_config.specs.Merge.{IsRefusalOfOne};
ghost use Rattle.nextest_config.specs.NextestVersion.{place_of, under, configuration_of, file_given, IsErrorOf, refusal_of, StandsForOne};

use super::error::ConfigParseError;
use super::version_only::{VersionOnlyConfig, asks_nothing};
use crate::merge::PieceRefusal;
use crate::nextest_version::{ConfigSource, Edition, RepositoryText, ToolText};
use std::alloc::{AllocError, Global};

/// A file that is read as a source: a tool's or a repository's.
#[derive(Clone, Copy)]
pub(super) enum File<'a> {
    Tool(&'a ToolText),
    Repository(&'a RepositoryText),
}

impl<'a> File<'a> {
    /// The configuration of the file alone, read under the edition.
    pub(super) fn read(
        &self,
        alloc: Global,
        edition: Edition,
    ) -> Result<VersionOnlyConfig, PieceRefusal<ConfigParseError>>
        ensures stands { IfOk result (λ config.
            StandsForOne (under edition (file_given self.now)) (configuration_of config)) }
        ensures refused { IfErr result
            (IsRefusalOfOne refusal_of IsErrorOf (under edition (file_given self.now))) }
    {
        if asks_nothing(self.contents()) {
            return Ok(VersionOnlyConfig::new(alloc));
        }
        let source = self.source(alloc)?;
        VersionOnlyConfig::of_source(alloc, edition, &source, self.contents())
    }

    // Where the file comes from.
    fn source(&self, alloc: Global) -> Result<ConfigSource, AllocError>
        ensures { IfOk result (λ source. place_of source ≡ (file_given self.now).place) }
    {
        match self {
            File::Tool(tool) => tool.source(alloc),
            File::Repository(repository) => repository.source(alloc),
        }
    }

    fn contents(&self) -> &'a Option<String>
        ensures { option_map string_bytes result.now ≡ (file_given self.now).contents }
    {
        match self {
            File::Tool(tool) => &tool.contents,
            File::Repository(repository) => &repository.contents,
        }
    }
}
