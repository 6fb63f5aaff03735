//! Where keys and values stand in a document of TOML.
#![tactic(auto)]

mod document;
mod entry;
mod front;
mod index;
mod key;
pub mod laws;
mod line;
mod place;
mod quoted_text;
mod refusal;
mod step;
mod table;
mod value;

pub use front::place_after;
pub use index::Index;
pub use line::line_after;
pub use place::{Place, Span};
pub use quoted_text::{QuotedText, letter_escape, quoted, write_quoted, write_visible};
pub use step::{NameText, PathText, Step, is_bare_key};
