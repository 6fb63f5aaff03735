//! What is wrong in a whole configuration file, and where; and what the codes of findings mean.
#![tactic(auto)]

mod code;
mod conversion;
mod defined;
mod document;
pub mod explain;
mod faults;
mod features;
mod file;
mod finding;
mod hints;
mod inheritance;
pub mod laws;
mod list_features;
mod mistake;
mod references;
mod right;
mod ring_profiles;
mod rules;
mod settings;
mod severity;
mod shapes;
mod text_range;
mod texts;
mod traversal;
mod unknown;
mod values;

pub use code::FindingCode;
pub use conversion::{field_named, fields_in, is_converted_at};
pub use defined::{Defined, ListedFile};
pub use document::findings;
pub use faults::is_unjudged;
pub use file::{FileContents, LocatedFinding, located, value_or_key};
pub use finding::{Finding, FindingKind, FindingSeverity, Hint, Mistake, Scope};
pub use nextest_config_elements::named::{NamedKind, ScriptKind};
pub use right::is_right_at;
pub use toml_spans::{PathText, Place, Span, Step};
