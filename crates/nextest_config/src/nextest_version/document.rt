//! Documents that are at hand.

use crate::nextest_version::ConfigSource;
use toml::Table;

/// A configuration source and its document, as `toml` read it.
#[derive(Clone, Copy, Debug)]
pub struct SourceDocument<'a> {
    pub source: &'a ConfigSource,
    pub document: &'a Table,
}
