//! How findings are reported.

mod diagnostic;
mod escapes;
mod excerpt;
mod format;
mod github;
mod human;
mod json_line;
pub mod laws;
mod summary;

pub use diagnostic::{Diagnostic, push_finding};
pub use escapes::{Escaped, Escapes};
pub use format::Format;
pub use json_line::json_text;
pub use summary::Summary;
