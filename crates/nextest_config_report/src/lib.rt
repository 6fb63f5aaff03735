//! The lines of a report on configuration sources, what is shown of what they ask, how texts and
//! complaints are written to streams, and the statuses that programs end with.
#![tactic(auto)]

pub mod exit_status;
pub mod laws;
pub mod lines;
pub mod names;
pub mod show;
pub mod source;
pub mod streams;
