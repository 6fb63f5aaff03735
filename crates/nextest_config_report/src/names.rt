//! Names of profiles in a line.

ghost use Rattle.std.specs.Prelude.{◌≡◌, ◌++◌, OnOk, string_bytes};
ghost use Rattle.nextest_config_report.specs.Names.{names_text, texts_of};

use std::alloc::AllocError;
use std::fmt::Write;
use toml_spans::NameText;

/// Pushes names, each as a key prints in a path, with a comma and a space between. Where memory is
/// refused, some of them may have been pushed.
pub fn push_names(text: &mut String, names: &[&str]) -> Result<(), AllocError>
    ensures { OnOk result (string_bytes text.new
        ≡ string_bytes text.old ++ names_text (texts_of names.now)) }
{
    let mut separator = "";
    for name in names {
        text.push_str(separator)?;
        write!(text, "{}", NameText(name))?;
        separator = ", ";
    }
    Ok(())
}
