//! How values of TOML are written on one line, what stands for them in JSON, and how texts are
//! shown to people.

mod json;
mod key;
mod shown;
mod text;
mod value;

pub use json::json_value;
pub use key::KeyText;
pub use shown::{Shown, ShownLines, is_printable, is_unprintable, shown_lines, write_shown};
pub use value::value_text;
