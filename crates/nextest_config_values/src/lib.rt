//! The values of nextest's configuration: how TOML values are read, how a refusal says why, and how
//! values are written.
#![tactic(auto)]

pub mod duration;
pub mod helpers;
pub mod identifier;
pub mod laws;
pub mod literal;
pub mod nearest_word;
pub mod read;
pub mod tool_config;
pub mod track_default;
