//! Lines of overrides.

ghost use Rattle.std.specs.Prelude.{◌≡◌, ◌++◌, codes, flat_map, OnOk, Some, string_bytes};
ghost use Rattle.std.specs.Fmt.{WritesOnOk};
ghost use Rattle.nextest_config_output.specs.Profile.Overrides.{conditions_text, divider, lead_text, override_line, overrides_text, pair_text, pairs_text};

use crate::profile::source::FileText;
use nextest_config_profiles::report::{Literal, Override, OverrideSetting, Source};
use nextest_config_values::literal::KeyText;
use std::alloc::AllocError;
use std::fmt::{self, Write};
use toml_spans::NameText;

/// Pushes the lines of overrides, below an empty line and what they are; nothing where there is
/// none.
pub(crate) fn push_overrides(
    text: &mut String,
    name: &str,
    overrides: &[Override<'_>],
) -> Result<(), AllocError>
    ensures { OnOk result (string_bytes text.new
        ≡ string_bytes text.old ++ overrides_text name.now overrides.now) }
{
    match overrides {
        [] => Ok(()),
        [_, ..] => {
            text.push_str("\noverrides, the first that applies and sets a key wins:\n")?;
            push_override_lines(text, name, overrides)
        }
    }
}

fn push_override_lines(
    text: &mut String,
    name: &str,
    overrides: &[Override<'_>],
) -> Result<(), AllocError>
    ensures { OnOk result (string_bytes text.new
        ≡ string_bytes text.old ++ flat_map (override_line name.now) overrides.now) }
{
    for one in overrides {
        push_override(text, name, one)?;
    }
    Ok(())
}

// Pushes the line of an override.
fn push_override(text: &mut String, name: &str, one: &Override<'_>) -> Result<(), AllocError>
    ensures { OnOk result
        (string_bytes text.new ≡ string_bytes text.old ++ override_line name.now one.now) }
{
    let lead = Lead(name, one.source);
    let conditions = Conditions(&one.filter, &one.platform);
    let divider = divider(one);
    let settings = Pairs(one.settings.as_slice());
    writeln!(text, "{lead}{conditions}{divider}{settings}")
}

/// Where an override begins, and the profile that has it, unless it is the one that is asked for.
#[derive(Clone, Copy)]
struct Lead<'a, 'b>(&'a str, Source<'b>);

impl fmt::Display for Lead<'_, '_> {
    ghost output = { λ lead. Some (lead_text lead.0.now lead.1) };

    fn fmt<W: fmt::Write>(&self, f: &mut fmt::Formatter<W>) -> fmt::Result {
        let file = FileText(self.1.file);
        if self.0 == self.1.profile {
            write!(f, "{file}: ")
        } else {
            write!(f, "{file}: [profile.{}] ", NameText(self.1.profile))
        }
    }
}

/// What an override asks of a test and of a platform.
#[derive(Clone, Copy)]
struct Conditions<'a>(&'a Option<Literal>, &'a Option<Literal>);

impl fmt::Display for Conditions<'_> {
    ghost output = { λ conditions. Some (conditions_text conditions.0.now conditions.1.now) };

    fn fmt<W: fmt::Write>(&self, f: &mut fmt::Formatter<W>) -> fmt::Result {
        match (self.0, self.1) {
            (Some(filter), Some(platform)) => {
                write!(f, "filter = {}, platform = {}", filter.text, platform.text)
            }
            (Some(filter), None) => write!(f, "filter = {}", filter.text),
            (None, Some(platform)) => write!(f, "platform = {}", platform.text),
            (None, None) => f.write_str("every test"),
        }
    }
}

// What stands before what an override sets, if that is anything.
fn divider(one: &Override<'_>) -> &'static str
    ensures { result.now ≡ divider one.now }
{
    if one.settings.is_empty() { "" } else { "; " }
}

/// What an override sets, with commas between.
#[derive(Clone, Copy)]
struct Pairs<'a>(&'a [OverrideSetting]);

impl fmt::Display for Pairs<'_> {
    ghost output = { λ pairs. Some (pairs_text pairs.0.now) };

    fn fmt<W: fmt::Write>(&self, f: &mut fmt::Formatter<W>) -> fmt::Result {
        match self.0 {
            [] => Ok(()),
            [first, rest @ ..] => {
                write_pair(f, first)?;
                write_pairs(f, rest)
            }
        }
    }
}

// Writes the keys that come after the first one, each behind a comma.
fn write_pairs<W: fmt::Write>(
    f: &mut fmt::Formatter<W>,
    settings: &[OverrideSetting],
) -> fmt::Result
    ensures { WritesOnOk W.write_str_gives f.old result
        (flat_map (λ setting. codes ", " ++ pair_text setting) settings.now) f.new }
{
    for setting in settings {
        f.write_str(", ")?;
        write_pair(f, setting)?;
    }
    Ok(())
}

// A key and its value.
fn write_pair<W: fmt::Write>(f: &mut fmt::Formatter<W>, setting: &OverrideSetting) -> fmt::Result
    ensures { WritesOnOk W.write_str_gives f.old result (pair_text setting.now) f.new }
{
    write!(f, "{} = {}", KeyText(setting.key), setting.literal.text)
}
