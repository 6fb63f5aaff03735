//! Bytes, judged as the configuration file of a repository.

use nextest_config::nextest_version::{ConfigSourceKind, Edition};
use nextest_config_lint::{Defined, FileContents, findings};
use std::alloc::{AllocError, Global};
use std::str;

/// Prints how much is found, in the document alone or in the file with its lines.
pub(crate) fn judge(rt: &HostRuntime, what: &str, contents: &[u8]) -> Option<()> {
    let count = match what {
        "findings" => in_document(rt.alloc(), contents)?,
        "located" => in_file(rt.alloc(), contents).ok()?,
        _ => return None,
    };
    println!(rt; "{count}").ok()
}

fn in_document(alloc: Global, contents: &[u8]) -> Option<usize> {
    let text = str::from_utf8(contents).ok()?;
    let document = toml::table_from_str(alloc, text).ok()?;
    let source = ConfigSourceKind::DiscoveredRepository;
    let defined = Defined::of_one(alloc, &source, Some(&document)).ok()?;
    let edition = Edition::ArrayAllowed;
    let found = findings(alloc, &source, edition, &document, &defined, 0).ok()?;
    Some(found.len())
}

fn in_file(alloc: Global, contents: &[u8]) -> Result<usize, AllocError> {
    let source = ConfigSourceKind::DiscoveredRepository;
    let read = FileContents::of(alloc, contents)?;
    let defined = Defined::of_one(alloc, &source, read.document())?;
    let edition = Edition::ArrayAllowed;
    let found = read.located(alloc, &source, edition, &defined, 0)?;
    Ok(found.len())
}
