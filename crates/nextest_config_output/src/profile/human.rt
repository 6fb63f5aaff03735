//! A profile as people read it.

ghost use Rattle.std.specs.Prelude.{◌≡◌, ◌++◌, IfOk, map, OnOk, string_bytes};
ghost use Rattle.nextest_config_output.specs.Profile.Human.{human_text, others_text};
ghost use Rattle.nextest_config_output.specs.Profile.SourcedLine.{line_of};

use crate::profile::chain::{ChainText, name_of};
use crate::profile::columns::{push_lines, source_column};
use crate::profile::overrides::push_overrides;
use crate::profile::setting_lines::{lines_of, setting_lines};
use crate::profile::sourced_line::SourcedLine;
use nextest_config_profiles::report::ProfileReport;
use std::alloc::{AllocError, Global};
use std::fmt::Write;
use toml_spans::NameText;

/// The lines that people read.
pub(crate) fn human_text(alloc: Global, report: &ProfileReport<'_>) -> Result<String, AllocError>
    ensures { IfOk result (λ text. string_bytes text ≡ human_text report.now) }
{
    let chain = report.chain.as_slice();
    let name = name_of(chain);
    let settings = setting_lines(alloc, name, report.settings.as_slice())?;
    let others = lines_of(alloc, name, report.others.as_slice())?;
    let column = source_column(settings.as_slice(), others.as_slice());
    let chain = ChainText(chain);
    let mut text = format!(in alloc; "profile {}: {chain}\n", NameText(name))?;
    push_lines(alloc, &mut text, column, settings.as_slice())?;
    push_others(alloc, &mut text, column, others.as_slice())?;
    push_overrides(&mut text, name, report.overrides.as_slice())?;
    Ok(text)
}

// Pushes the lines of other keys, below an empty one; nothing where there is none.
fn push_others(
    alloc: Global,
    text: &mut String,
    column: usize,
    others: &[SourcedLine],
) -> Result<(), AllocError>
    ensures { OnOk result (string_bytes text.new
        ≡ string_bytes text.old ++ others_text column (map line_of others.now)) }
{
    match others {
        [] => Ok(()),
        [_, ..] => {
            text.push_str("\n")?;
            push_lines(alloc, text, column, others)
        }
    }
}
