//! What is wrong with texts of nextest's configuration that have a syntax of their own.
#![tactic(auto)]

mod escape;
mod fault;
mod filter;
mod front;
pub mod laws;
mod pieces;
mod platform;
mod text;

pub use fault::{Expected, FilterFlaw, TextFault, TextFaultCode, TextFaultKind};
pub use filter::{FilterPlace, Predicate, filter_fault};
pub use platform::{PlatformFlaw, platform_fault};
