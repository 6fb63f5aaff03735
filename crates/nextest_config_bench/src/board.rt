//! Sources of one version each, read as a list, or put on a board and changed there.

use nextest_config::board::ConfigBoard;
use nextest_config::nextest_version::{
    ConfigSource, ConfigSourceKind, NextestVersionEval, SourceText, VersionOnlyConfig,
};
use semver::Version;
use std::alloc::{AllocError, Global};

pub(crate) fn run(alloc: Global, what: &str, size: usize, changes: usize) -> Option<()> {
    let sources = sources(alloc, size).ok()?;
    match what {
        "sources" => Some(()),
        "list" => read(alloc, &sources),
        "board" => change(alloc, &sources, changes),
        _ => None,
    }
}

fn sources(alloc: Global, size: usize) -> Result<Vec<SourceText>, AllocError> {
    let mut sources = Vec::new(alloc);
    for number in 0..size {
        sources.push(source(alloc, number + 1)?)?;
    }
    Ok(sources)
}

// A source that asks for a version with this number.
fn source(alloc: Global, number: usize) -> Result<SourceText, AllocError> {
    Ok(SourceText {
        source: ConfigSource {
            kind: ConfigSourceKind::ExplicitRepository,
            path: format!(in alloc; "{number}.toml")?,
        },
        contents: Some(format!(in alloc; "nextest-version = \"0.9.{number}\"")?),
    })
}

fn read(alloc: Global, sources: &[SourceText]) -> Option<()> {
    let config = VersionOnlyConfig::from_list(alloc, sources).ok()?;
    let verdict = config
        .nextest_version()
        .eval(alloc, &Version::new(0, 9, 0), false)
        .ok()?;
    asked(&verdict, sources.len())
}

fn change(alloc: Global, sources: &[SourceText], changes: usize) -> Option<()> {
    let mut board = ConfigBoard::new(alloc, sources.len()).ok()?;
    for (slot, source) in sources.iter().enumerate() {
        board.put(slot, source).ok()?;
    }
    for number in 0..changes {
        let greatest = sources.len().checked_add(number)?.checked_add(1)?;
        put(alloc, &mut board, number, greatest)?;
    }
    Some(())
}

// Puts a source that asks for the greatest version, and has the verdict.
fn put(alloc: Global, board: &mut ConfigBoard, slot: usize, greatest: usize) -> Option<()> {
    board.put(slot, &source(alloc, greatest).ok()?).ok()?;
    let verdict = board.eval(alloc, &Version::new(0, 9, 0), false).ok()?;
    asked(&verdict, greatest)
}

// Whether the verdict is an error that names the version with this number.
fn asked(verdict: &NextestVersionEval, number: usize) -> Option<()> {
    match verdict {
        NextestVersionEval::Error { required, .. } if required.patch == number as u64 => {
            Some(())
        }
        _ => None,
    }
}
