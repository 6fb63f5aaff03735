//! How the input is laid out: source lines, each with the contents of its source below it. A source
//! line is `=== tool NAME:PATH`, `=== explicit PATH` or `=== repository PATH`.

ghost use Rattle.std.specs.Prelude.{◌≡◌, ◌+◌, ◌-◌, ◌<◌, ◌≤◌, ◌++◌, ℕ, List, codes, length, map, take, IfOk, IfErr, MatchOption};
ghost use Rattle.toml_spans.specs.Line.{line_after};
ghost use Rattle.nextest_config.specs.NextestVersion.{given_of};
ghost use Rattle.nextest_config_check.specs.Layout.{AreBlocks, IsBlock, IsBlockCut, IsFaultyBlock, IsFaultyInput, IsFirstLine, IsSourceIfAny, IsSourceLine, HasNoMarkedLineBelow, IsWordAndPath, NamesPlace, trimmed};

use nextest_config::nextest_version::{ConfigSource, ConfigSourceKind, SourceText};
use nextest_config_values::tool_config::{ToolConfigFile, ToolConfigFileParseError};
use std::alloc::{AllocError, Global};
use toml_spans::line_after;

// What a source line begins with.
const MARK: &str = "=== ";

/// Why the input is no list of sources.
#[derive(Clone, Copy)]
pub(crate) enum LayoutFault {
    /// The line with this number, counted from 1, is the first that is no source line where one has
    /// to be.
    Line(usize),
    /// A request for memory was refused.
    Memory,
}

impl From<AllocError> for LayoutFault {
    ghost use Rattle.nextest_config_check.specs.declared.layout.LayoutFault.TheVariants.{Memory};

    ghost from_gives = { λ _ fault. fault ≡ Memory };

    fn from(_error: AllocError) -> Self {
        LayoutFault::Memory
    }
}

/// The sources of the input, in its order.
pub(crate) fn sources(alloc: Global, input: &str) -> Result<Vec<SourceText>, LayoutFault>
    ensures blocks { IfOk result (λ sources. AreBlocks (map given_of sources.items) input.now) }
    ensures faulty { IfErr result (IsFaultyInput input.now) }
{
    let mut sources = Vec::new(alloc);
    let mut rest = input;
    while !rest.is_empty() {
        let (block, after) = split_block(rest);
        match source(alloc, block)? {
            Some(source) => sources.push(source).map_err(AllocError::from)?,
            None => return Err(LayoutFault::Line(line_number(input, rest.len()))),
        }
        rest = after;
    }
    Ok(sources)
}

// The text up to the next line that begins with the mark, the first line aside, and the rest.
fn split_block(text: &str) -> (&str, &str)
    ensures { IsBlockCut text.now result.0.now result.1.now }
{
    match text.find("\n=== ") {
        Some(at) => text.split_at(at + 1),
        None => (text, ""),
    }
}

// The number of the line that begins where `left` bytes are left of the input.
fn line_number(input: &str, left: usize) -> usize
    requires some { 0 < left }
    requires within { left ≤ length input.now }
    ensures { result ≡ line_after (take (length input.now - left) input.now) }
{
    line_after(&input.as_bytes()[..input.len() - left])
}

// The source of a block, if the block begins with a source line.
fn source(alloc: Global, block: &str) -> Result<Option<SourceText>, AllocError>
    requires { HasNoMarkedLineBelow block.now }
    ensures { IfOk result (λ source. MatchOption source (IsFaultyBlock block.now)
        (λ source. IsBlock block.now (given_of source))) }
{
    let (line, contents) = split_line(block);
    let Some(source) = source_line(alloc, line)? else {
        return Ok(None);
    };
    let contents = Some(String::from_str(alloc, contents)?);
    Ok(Some(SourceText { source, contents }))
}

// The first line of the text, without its end, and what follows it.
fn split_line(text: &str) -> (&str, &str)
    ensures { IsFirstLine text.now result.0.now result.1.now }
{
    match text.split_once('\n') {
        Some((line, rest)) => (trimmed(line), rest),
        None => (text, ""),
    }
}

// The line without one carriage return at its end.
fn trimmed(line: &str) -> &str
    ensures { result.now ≡ trimmed line.now }
{
    line.strip_suffix('\r').unwrap_or(line)
}

// The source that the line names, if it is a source line.
fn source_line(alloc: Global, line: &str) -> Result<Option<ConfigSource>, AllocError>
    ensures { IfOk result (IsSourceIfAny (IsSourceLine line.now)) }
{
    match line.strip_prefix(MARK) {
        Some(named) => named_source(alloc, named),
        None => Ok(None),
    }
}

// The source that a text after the mark names, if it names one.
fn named_source(alloc: Global, named: &str) -> Result<Option<ConfigSource>, AllocError>
    ensures { IfOk result (IsSourceIfAny (NamesPlace named.now)) }
{
    if let Some(argument) = named.strip_prefix("tool ") {
        return tool_source(alloc, argument);
    }
    let (kind, path) = if let Some(path) = path_after(named, "explicit ") {
        (ConfigSourceKind::ExplicitRepository, path)
    } else if let Some(path) = path_after(named, "repository ") {
        (ConfigSourceKind::DiscoveredRepository, path)
    } else {
        return Ok(None);
    };
    let path = String::from_str(alloc, path)?;
    Ok(Some(ConfigSource { kind, path }))
}

// The source that a tool's argument names, if the text is one.
fn tool_source(alloc: Global, argument: &str) -> Result<Option<ConfigSource>, AllocError>
    ensures { IfOk result (IsSourceIfAny (NamesPlace (codes "tool " ++ argument.now))) }
{
    match ToolConfigFile::from_str(alloc, argument) {
        Ok(file) => Ok(Some(ConfigSource {
            kind: ConfigSourceKind::Tool(file.tool),
            path: file.config_file,
        })),
        Err(ToolConfigFileParseError::Memory) => Err(AllocError),
        Err(_) => Ok(None),
    }
}

// The path after the word that the text begins with, if it does and the path isn't empty.
fn path_after<'a>(named: &'a str, word: &str) -> Option<&'a str>
    ensures { MatchOption result ((path : List ℕ) → ¬ IsWordAndPath word.now named.now path)
        (λ path. IsWordAndPath word.now named.now path.now) }
{
    let path = named.strip_prefix(word)?;
    if path.is_empty() {
        return None;
    }
    Some(path)
}
