//! How sources print in a report.

ghost use Rattle.std.specs.Prelude.{◌≡◌, IfOk, string_bytes};
ghost use Rattle.nextest_config.specs.NextestVersion.{place_of};
ghost use Rattle.nextest_config_report.specs.Source.{source_text};

use nextest_config::nextest_version::ConfigSource;
use nextest_config_values::literal::Shown;
use std::alloc::{AllocError, Global};

/// How sources print.
#[derive(Clone, Copy, Debug, PartialEq, Eq)]
pub enum SourceStyle {
    /// With paths as they are: who gives them sees to it that they stand within a line.
    AsWritten,
    /// In a line, with what is never shown escaped.
    InLine,
}

/// How a source prints in this style.
pub(crate) fn source_text(
    alloc: Global,
    style: SourceStyle,
    source: &ConfigSource,
) -> Result<String, AllocError>
    ensures { IfOk result (λ text. string_bytes text ≡ source_text style (place_of source.now)) }
{
    let text = source.to_string(alloc)?;
    match style {
        SourceStyle::AsWritten => Ok(text),
        SourceStyle::InLine => Shown(text.as_str()).to_string(alloc),
    }
}
