//! What configuration sources ask before all else, the nextest version and the experimental
//! features: reading the sources, keeping what stands for them all, and judging the current version
//! by it.
#![tactic(auto)]

pub mod board;
pub mod choice;
pub mod laws;
pub mod merge;
pub mod nextest_version;
