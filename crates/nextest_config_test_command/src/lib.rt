//! The command's engine from outside, over files and streams in memory.
#![tactic(auto)]

pub mod kept;
pub mod memory;
