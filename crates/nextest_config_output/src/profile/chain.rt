//! The profiles of a chain, as they print.

ghost use Rattle.std.specs.Prelude.{◌≡◌, ◌++◌, codes, flat_map, Some};
ghost use Rattle.std.specs.Fmt.{WritesOnOk};
ghost use Rattle.nextest_config_output.specs.Profile.Chain.{chain_text, name_of, place_mark, profile_text};

use crate::profile::source::FileText;
use nextest_config_profiles::report::{ChainProfile, Source};
use std::fmt;
use toml_spans::NameText;

/// The profiles of a chain with commas between, each with the place where it inherits.
#[derive(Clone, Copy)]
pub(crate) struct ChainText<'a>(pub &'a [ChainProfile<'a>]);

impl fmt::Display for ChainText<'_> {
    ghost output = { λ chain. Some (chain_text chain.0.now) };

    fn fmt<W: fmt::Write>(&self, f: &mut fmt::Formatter<W>) -> fmt::Result {
        match self.0 {
            [] => Ok(()),
            [first, rest @ ..] => {
                write_profile(f, first)?;
                write_profiles(f, rest)
            }
        }
    }
}

// Writes the profiles that come after the first one, each behind a comma.
fn write_profiles<W: fmt::Write>(
    f: &mut fmt::Formatter<W>,
    profiles: &[ChainProfile<'_>],
) -> fmt::Result
    ensures { WritesOnOk W.write_str_gives f.old result
        (flat_map (λ profile. codes ", " ++ profile_text profile) profiles.now) f.new }
{
    for profile in profiles {
        f.write_str(", ")?;
        write_profile(f, profile)?;
    }
    Ok(())
}

// Writes a profile.
fn write_profile<W: fmt::Write>(
    f: &mut fmt::Formatter<W>,
    profile: &ChainProfile<'_>,
) -> fmt::Result
    ensures { WritesOnOk W.write_str_gives f.old result (profile_text profile.now) f.new }
{
    let name = NameText(profile.name);
    write!(f, "{name}{}", PlaceMark(profile.inherits))
}

/// Where a profile inherits, behind its name; nothing where no file says so.
#[derive(Clone, Copy)]
struct PlaceMark<'a>(Option<Source<'a>>);

impl fmt::Display for PlaceMark<'_> {
    ghost output = { λ mark. Some (place_mark mark.0) };

    fn fmt<W: fmt::Write>(&self, f: &mut fmt::Formatter<W>) -> fmt::Result {
        match self.0 {
            Some(source) => write!(f, " ({})", FileText(source.file)),
            None => Ok(()),
        }
    }
}

/// The name of the profile that is asked for, the first of a chain.
pub(crate) fn name_of<'a>(chain: &[ChainProfile<'a>]) -> &'a str
    ensures { result.now ≡ name_of chain.now }
{
    match chain {
        [] => "",
        [profile, ..] => profile.name,
    }
}
