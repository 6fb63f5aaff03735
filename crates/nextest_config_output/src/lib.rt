//! How findings and what is reported of a profile are printed, for people and for programs.
#![tactic(auto)]

pub mod findings;
pub mod profile;
