//! Why a source, or a list of sources, was refused.

ghost use Rattle.std.specs.Prelude.{◌≡◌, ◌↔◌, IsNone, Some, None, option_map, is_none, false};
ghost use Rattle.nextest_config.specs.NextestVersion.ErrorKind.{is_memory, wrong_of};
ghost use Rattle.nextest_config.specs.declared.nextest_version.error_kind.ConfigParseErrorKind.TheVariants.{Memory};

use crate::merge::PieceRefusal;
use crate::nextest_version::{ConfigParseErrorKind, ConfigSource};
use std::alloc::{AllocError, Global};
use std::error::Error;
use std::fmt;

/// Why a configuration source was refused, and which.
#[derive(Debug, PartialEq, Eq, Drop)]
pub struct ConfigParseError {
    kind: ConfigParseErrorKind,
    source: Option<ConfigSource>,
    ghost source_unless_memory: { is_none source ≡ is_memory kind },
}

impl ConfigParseError {
    ghost use Rattle.std.specs.Prelude.{List};
    ghost use Rattle.nextest_config.specs.NextestVersion.Error.{IsKindOf, kind_of, refusal_at, refusal_of, source_place};
    ghost use Rattle.nextest_config.specs.NextestVersion.VersionOnly.{IsErrorOfReading, IsRefusedReading};
    ghost use Rattle.nextest_config.specs.NextestVersion.Source.{place_of, Source};

    // The error that says nothing of any source.
    fn memory() -> Self
        ensures { kind_of result ≡ Memory }
    {
        ConfigParseError {
            kind: ConfigParseErrorKind::Memory,
            source: None,
        }
    }

    // The error of a source that was judged.
    fn new(source: ConfigSource, kind: ConfigParseErrorKind) -> Self
        requires { is_memory kind ≡ false }
        ensures { refusal_of result ≡ option_map (refusal_at (place_of source)) (wrong_of kind) }
    {
        ConfigParseError {
            kind,
            source: Some(source),
        }
    }

    // The refusal of the one source with which this is wrong.
    pub(crate) fn of_source(
        alloc: Global,
        source: &ConfigSource,
        kind: ConfigParseErrorKind,
    ) -> PieceRefusal<Self>
        ensures { IsKindOf (place_of source.now) kind result }
    {
        if kind.is_memory() {
            return PieceRefusal::Memory;
        }
        match source.clone(alloc) {
            Ok(source) => PieceRefusal::Refused {
                position: 0,
                error: ConfigParseError::new(source, kind),
            },
            Err(AllocError) => PieceRefusal::Memory,
        }
    }

    // The error of the source that is refused, without its position.
    pub(crate) fn of_list(refusal: ListRefusal) -> Self
        ensures { (sources : List Source) → IsRefusedReading sources refusal
            → IsErrorOfReading sources result }
    {
        match refusal {
            PieceRefusal::Refused { position: _, error } => error,
            PieceRefusal::Memory => ConfigParseError::memory(),
        }
    }

    /// What is wrong with the source, or that a request for memory was refused.
    pub fn kind(&self) -> &ConfigParseErrorKind
        ensures { result.now ≡ kind_of self.now }
    {
        &self.kind
    }

    /// The source that is refused. `None`: a request for memory was refused.
    pub fn source(&self) -> Option<&ConfigSource>
        ensures place { option_map (λ source. place_of source.now) result ≡ source_place self.now }
        ensures none { IsNone result ↔ (kind_of self.now ≡ Memory) }
    {
        self.source.as_ref()
    }
}

impl From<AllocError> for ConfigParseError {
    ghost use Rattle.nextest_config.specs.NextestVersion.Error.{kind_of};

    ghost from_gives = { λ _ error. kind_of error ≡ Memory };

    fn from(_error: AllocError) -> ConfigParseError {
        ConfigParseError::memory()
    }
}

impl fmt::Display for ConfigParseError {
    ghost use Rattle.nextest_config.specs.NextestVersion.Error.{error_text};

    ghost output = { λ error. Some (error_text error) };

    fn fmt<W: fmt::Write>(&self, f: &mut fmt::Formatter<W>) -> fmt::Result {
        if let Some(source) = &self.source {
            write!(f, "{source}: ")?;
        }
        write!(f, "{}", self.kind)
    }
}

impl Error for ConfigParseError {}

/// Why a list of sources was refused.
pub type ListRefusal = PieceRefusal<ConfigParseError>;
