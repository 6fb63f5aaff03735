//! Texts as they are printed.

ghost use Rattle.std.specs.Prelude.{◌≡◌, IfOk, string_bytes};
ghost use Rattle.nextest_config_command.specs.Printed.{in_format, in_show_format, printed, text_of};

use nextest_config_output::findings::Format;
use nextest_config_report::show::ShowFormat;
use nextest_config_values::literal::shown_lines;
use std::alloc::{AllocError, Global};

/// A text that is printed.
#[derive(Drop)]
pub(crate) enum Printed {
    /// Lines for people, who see no control characters.
    ForPeople(String),
    /// JSON, which has rules of its own.
    Json(String),
}

impl Printed {
    /// A text in a format.
    pub fn in_format(format: Format, text: String) -> Self
        ensures { text_of result ≡ in_format format (string_bytes text) }
    {
        match format {
            Format::Human | Format::Full | Format::Github => Printed::ForPeople(text),
            Format::Json => Printed::Json(text),
        }
    }

    /// A text in a format of what is shown.
    pub fn in_show_format(format: ShowFormat, text: String) -> Self
        ensures { text_of result ≡ in_show_format format (string_bytes text) }
    {
        match format {
            ShowFormat::Human => Printed::ForPeople(text),
            ShowFormat::Json => Printed::Json(text),
        }
    }

    /// The text as it is printed.
    pub fn text(self, alloc: Global) -> Result<String, AllocError>
        ensures { IfOk result (λ text. string_bytes text ≡ printed (text_of self)) }
    {
        match self {
            Printed::ForPeople(text) => shown_lines(alloc, text),
            Printed::Json(text) => Ok(text),
        }
    }
}
