//! The file that is judged.

use crate::defined::Defined;
use nextest_config::nextest_version::{ConfigSourceKind, Edition};
use std::collections::BTreeSet;

/// A file at a position of a list, judged under an edition.
#[derive(Clone, Copy)]
pub(crate) struct JudgedFile<'a> {
    pub edition: Edition,
    pub source: &'a ConfigSourceKind,
    /// What the list defines.
    pub defined: &'a Defined,
    /// The setup scripts that the file defines itself, as their names are kept.
    pub setup_scripts: &'a BTreeSet<String>,
    pub position: usize,
}
