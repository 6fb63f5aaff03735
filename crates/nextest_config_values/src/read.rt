//! Readings of TOML values.

mod fault;
mod field;
mod from_toml;
mod plain;
mod text;
mod value_fault;
mod word;

pub use fault::{FaultKind, ReadFault, Rule};
pub use field::{
    field_or, optional, optional_field, or_default, required, required_field, value_at,
};
pub use from_toml::FromToml;
pub use plain::NonZeroCount;
pub(crate) use plain::held_text;
pub use text::{QuotedTexts, found_text};
pub use toml_spans::{QuotedText, Step, quoted};
pub use value_fault::{FaultCause, ValueFault};
pub use word::Word;
