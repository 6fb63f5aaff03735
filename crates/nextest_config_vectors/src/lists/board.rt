//! Boards.

pub mod changes;
pub mod commands;
