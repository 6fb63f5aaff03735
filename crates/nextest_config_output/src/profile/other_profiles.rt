//! Lines of what is wrong with settings of other profiles than the one that gives the setting.

ghost use Rattle.std.specs.Prelude.{◌≡◌, ◌++◌, flat_map, IfOk, OnOk, string_bytes};
ghost use Rattle.nextest_config_output.specs.Profile.OtherProfiles.{fault_line, other_profiles_text};

use crate::findings::{Escaped, Escapes};
use crate::profile::key_path::KeyPath;
use crate::profile::source::FilesText;
use nextest_config_profiles::report::{OtherProfileFault, ProfileReport};
use std::alloc::{AllocError, Global};
use std::fmt::Write;
use toml_spans::NameText;

/// A line for each setting that is refused in a profile other than the one that gives the setting,
/// in the chain or outside of it: the files that have it, the profile, the key, and what is wrong.
pub fn other_profiles_text(alloc: Global, report: &ProfileReport<'_>) -> Result<String, AllocError>
    ensures { IfOk result (λ text. string_bytes text ≡ other_profiles_text report.now) }
{
    let mut text = String::new(alloc);
    for fault in &report.other_profiles {
        push_fault(&mut text, fault)?;
    }
    Ok(text)
}

// Pushes the line of a setting.
fn push_fault(text: &mut String, fault: &OtherProfileFault<'_>) -> Result<(), AllocError>
    ensures { OnOk result
        (string_bytes text.new ≡ string_bytes text.old ++ fault_line fault.now) }
{
    let files = FilesText(fault.sources.as_slice());
    let profile = NameText(fault.profile);
    let key = KeyPath(fault.keys.as_slice());
    let message = Escaped(Escapes::InLine, fault.message.as_str());
    writeln!(text, "{files}: profile.{profile}.{key}: {message}")
}
