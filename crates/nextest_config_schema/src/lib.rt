//! A JSON Schema of nextest's configuration file, made of the table of its keys.
#![tactic(auto)]

mod defaults;
mod fields;
mod file;
mod kinds;
mod patterns;
mod schema_place;
mod values;

pub use file::{schema, schema_text};
