//! Where a configuration comes from.

ghost use Rattle.std.specs.Prelude.{◌≡◌, Some, IfOk, map};

use nextest_config_values::identifier::ToolName;
use nextest_config_values::tool_config::ToolConfigFile;
use std::alloc::{AllocError, Global};
use std::fmt;

/// Whose a configuration source is.
#[derive(Debug, PartialEq, Eq, Drop)]
pub enum ConfigSourceKind {
    /// The configuration file that a tool hands in.
    Tool(ToolName),
    /// A repository's configuration file that the user named.
    ExplicitRepository,
    /// A repository's configuration file, found at its usual path.
    DiscoveredRepository,
}

/// Where a configuration comes from.
#[derive(Debug, PartialEq, Eq, Drop)]
pub struct ConfigSource {
    pub kind: ConfigSourceKind,
    pub path: String,
}

/// A configuration source and its contents.
#[derive(Debug, PartialEq, Eq, Drop)]
pub struct SourceText {
    pub source: ConfigSource,
    /// `None`: there is no file.
    pub contents: Option<String>,
}

/// A tool's configuration file and its contents.
#[derive(Debug, PartialEq, Eq, Drop)]
pub struct ToolText {
    pub file: ToolConfigFile,
    /// `None`: there is no file.
    pub contents: Option<String>,
}

/// A repository's configuration file and its contents.
#[derive(Debug, PartialEq, Eq, Drop)]
pub struct RepositoryText {
    /// Whether the user named the file, rather than that it was found at its usual path.
    pub explicit: bool,
    pub path: String,
    /// `None`: there is no file.
    pub contents: Option<String>,
}

impl ConfigSourceKind {
    pub fn clone(&self, alloc: Global) -> Result<Self, AllocError>
        ensures { IfOk result (λ kind. kind ≡ self.now) }
    {
        match self {
            ConfigSourceKind::Tool(tool) => Ok(ConfigSourceKind::Tool(tool.clone(alloc)?)),
            ConfigSourceKind::ExplicitRepository => Ok(ConfigSourceKind::ExplicitRepository),
            ConfigSourceKind::DiscoveredRepository => Ok(ConfigSourceKind::DiscoveredRepository),
        }
    }
}

impl ToolText {
    ghost use Rattle.nextest_config.specs.NextestVersion.Source.{place_of, tool_given};

    /// Where the tool's file comes from.
    pub fn source(&self, alloc: Global) -> Result<ConfigSource, AllocError>
        ensures { IfOk result (λ source. place_of source ≡ (tool_given self.now).place) }
    {
        ConfigSource::of_tool(alloc, &self.file)
    }
}

impl RepositoryText {
    ghost use Rattle.nextest_config.specs.NextestVersion.Source.{place_of, repository_given};

    /// Where the repository's file comes from.
    pub fn source(&self, alloc: Global) -> Result<ConfigSource, AllocError>
        ensures { IfOk result (λ source. place_of source ≡ (repository_given self.now).place) }
    {
        ConfigSource::of_repository(alloc, self.explicit, self.path.as_str())
    }
}

impl ConfigSource {
    ghost use Rattle.nextest_config.specs.NextestVersion.Source.{place_of, repository_place, tool_place};

    /// Where a tool's file comes from.
    pub fn of_tool(alloc: Global, file: &ToolConfigFile) -> Result<Self, AllocError>
        ensures { IfOk result (λ source. place_of source ≡ tool_place file.now) }
    {
        Ok(ConfigSource {
            kind: ConfigSourceKind::Tool(file.tool.clone(alloc)?),
            path: String::from_str(alloc, file.config_file.as_str())?,
        })
    }

    /// Where a repository's file comes from.
    pub fn of_repository(alloc: Global, explicit: bool, path: &str) -> Result<Self, AllocError>
        ensures { IfOk result (λ source. place_of source ≡ repository_place explicit path.now) }
    {
        let kind = if explicit {
            ConfigSourceKind::ExplicitRepository
        } else {
            ConfigSourceKind::DiscoveredRepository
        };
        let path = String::from_str(alloc, path)?;
        Ok(ConfigSource { kind, path })
    }

    pub fn clone(&self, alloc: Global) -> Result<Self, AllocError>
        ensures { IfOk result (λ source. place_of source ≡ place_of self.now) }
    {
        Ok(ConfigSource {
            kind: self.kind.clone(alloc)?,
            path: String::from_str(alloc, self.path.as_str())?,
        })
    }

    pub fn copies(alloc: Global, sources: &[ConfigSource]) -> Result<Vec<ConfigSource>, AllocError>
        ensures { IfOk result (λ copies. map place_of copies.items ≡ map place_of sources.now) }
    {
        let mut copies = Vec::new(alloc);
        for source in sources {
            copies.push(source.clone(alloc)?)?;
        }
        Ok(copies)
    }
}

impl fmt::Display for ConfigSource {
    ghost use Rattle.nextest_config.specs.NextestVersion.Source.{place_of, place_text};

    ghost output = { λ source. Some (place_text (place_of source)) };

    fn fmt<W: fmt::Write>(&self, f: &mut fmt::Formatter<W>) -> fmt::Result {
        match &self.kind {
            ConfigSourceKind::Tool(tool) => write!(f, "tool {tool} ({})", self.path),
            ConfigSourceKind::ExplicitRepository => write!(f, "explicit {}", self.path),
            ConfigSourceKind::DiscoveredRepository => write!(f, "repository {}", self.path),
        }
    }
}
