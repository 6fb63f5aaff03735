//! Lists of sources that ask nothing.

use nextest_config::nextest_version::{
    ConfigSource, ConfigSourceKind, RepositoryText, SourceText, ToolText, VersionOnlyConfig,
};
use nextest_config_values::identifier::ToolName;
use nextest_config_values::tool_config::ToolConfigFile;
use std::alloc::{AllocError, Global};

/// Makes so many sources, or a repository and so many tools, and reads them where that is wanted.
pub(crate) fn run(alloc: Global, what: &str, of: &str, given: &str, size: usize) -> Option<()> {
    let is_read = match what {
        "make" => false,
        "read" => true,
        _ => return None,
    };
    let contents = match given {
        "absent" => None,
        "empty" => Some(""),
        _ => return None,
    };
    match of {
        "sources" => list(alloc, contents, size, is_read),
        "tools" => files(alloc, contents, size, is_read),
        _ => None,
    }
}

fn list(alloc: Global, contents: Option<&str>, size: usize, is_read: bool) -> Option<()> {
    let mut sources = Vec::new(alloc);
    for _number in 0..size {
        sources.push(source(alloc, contents).ok()?).ok()?;
    }
    if is_read {
        VersionOnlyConfig::from_list(alloc, &sources).ok()?;
    }
    Some(())
}

fn files(alloc: Global, contents: Option<&str>, size: usize, is_read: bool) -> Option<()> {
    let repository = RepositoryText {
        explicit: false,
        path: String::new(alloc),
        contents: None,
    };
    let mut tools = Vec::new(alloc);
    for _number in 0..size {
        tools.push(tool(alloc, contents)?).ok()?;
    }
    if is_read {
        VersionOnlyConfig::from_sources(alloc, &repository, &tools).ok()?;
    }
    Some(())
}

fn source(alloc: Global, contents: Option<&str>) -> Result<SourceText, AllocError> {
    Ok(SourceText {
        source: ConfigSource {
            kind: ConfigSourceKind::DiscoveredRepository,
            path: String::from_str(alloc, ".config/nextest.toml")?,
        },
        contents: copied(alloc, contents)?,
    })
}

fn tool(alloc: Global, contents: Option<&str>) -> Option<ToolText> {
    let file = ToolConfigFile {
        tool: ToolName::new(alloc, "my-tool").ok()?,
        config_file: String::from_str(alloc, "/opt/my-tool/nextest.toml").ok()?,
    };
    let contents = copied(alloc, contents).ok()?;
    Some(ToolText { file, contents })
}

fn copied(alloc: Global, contents: Option<&str>) -> Result<Option<String>, AllocError> {
    match contents {
        Some(text) => Ok(Some(String::from_str(alloc, text)?)),
        None => Ok(None),
    }
}
