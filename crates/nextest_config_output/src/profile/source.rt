//! Where something stands, as it prints.

ghost use Rattle.std.specs.Prelude.{◌++◌, codes, flat_map, Some};
ghost use Rattle.std.specs.Fmt.{WritesOnOk};
ghost use Rattle.nextest_config_output.specs.Profile.Source.{file_text, files_text, place_text, profile_mark, source_text, sources_text};

use crate::findings::{Escaped, Escapes};
use nextest_config_profiles::report::{FaultSource, FilePlace, Source};
use std::fmt;
use toml_spans::NameText;

/// What stands for a file where nextest sets a value itself.
pub(crate) const OWN_DEFAULT: &str = "nextest's default";

/// A file, with the line where something begins in it, if there is one.
#[derive(Clone, Copy)]
pub(crate) struct PlaceText<'a>(pub FilePlace<'a>);

impl fmt::Display for PlaceText<'_> {
    ghost output = { λ text. Some (place_text text.0) };

    fn fmt<W: fmt::Write>(&self, f: &mut fmt::Formatter<W>) -> fmt::Result {
        let path = Escaped(Escapes::InLine, self.0.path);
        match self.0.place {
            Some(place) => write!(f, "{path}:{}", place.line),
            None => write!(f, "{path}"),
        }
    }
}

/// A file, with the line where something begins in it, or that nextest sets a value itself.
#[derive(Clone, Copy)]
pub(crate) struct FileText<'a>(pub Option<FilePlace<'a>>);

impl fmt::Display for FileText<'_> {
    ghost output = { λ text. Some (file_text text.0) };

    fn fmt<W: fmt::Write>(&self, f: &mut fmt::Formatter<W>) -> fmt::Result {
        match self.0 {
            Some(file) => write!(f, "{}", PlaceText(file)),
            None => f.write_str(OWN_DEFAULT),
        }
    }
}

/// The profile that has something, behind a blank; nothing for the one that is asked for, which has
/// the first name.
#[derive(Clone, Copy)]
pub(crate) struct ProfileMark<'a, 'b>(pub &'a str, pub &'b str);

impl fmt::Display for ProfileMark<'_, '_> {
    ghost output = { λ mark. Some (profile_mark mark.0.now mark.1.now) };

    fn fmt<W: fmt::Write>(&self, f: &mut fmt::Formatter<W>) -> fmt::Result {
        if self.0 == self.1 {
            return Ok(());
        }
        write!(f, " [profile.{}]", NameText(self.1))
    }
}

/// Where a value stands, for the profile with this name.
#[derive(Clone, Copy)]
pub(crate) struct ValueSource<'a, 'b>(pub &'a str, pub Source<'b>);

impl fmt::Display for ValueSource<'_, '_> {
    ghost output = { λ text. Some (source_text text.0.now text.1) };

    fn fmt<W: fmt::Write>(&self, f: &mut fmt::Formatter<W>) -> fmt::Result {
        match self.1.file {
            Some(file) => write!(
                f,
                "{}{}",
                PlaceText(file),
                ProfileMark(self.0, self.1.profile)
            ),
            None => f.write_str(OWN_DEFAULT),
        }
    }
}

/// Where the parts of a value stand, for the profile with this name, with commas between.
#[derive(Clone, Copy)]
pub(crate) struct ValueSources<'a, 'b>(pub &'a str, pub &'b [FaultSource<'b>]);

impl fmt::Display for ValueSources<'_, '_> {
    ghost output = { λ text. Some (sources_text text.0.now text.1.now) };

    fn fmt<W: fmt::Write>(&self, f: &mut fmt::Formatter<W>) -> fmt::Result {
        match self.1 {
            [] => Ok(()),
            [first, rest @ ..] => {
                write!(f, "{}", ValueSource(self.0, first.source))?;
                write_sources(f, self.0, rest)
            }
        }
    }
}

// Writes where the parts stand that come after the first one, each behind a comma.
fn write_sources<W: fmt::Write>(
    f: &mut fmt::Formatter<W>,
    name: &str,
    sources: &[FaultSource<'_>],
) -> fmt::Result
    ensures { WritesOnOk W.write_str_gives f.old result
        (flat_map (λ part. codes ", " ++ source_text name.now part.source) sources.now) f.new }
{
    for part in sources {
        write!(f, ", {}", ValueSource(name, part.source))?;
    }
    Ok(())
}

/// The files of the parts of a value, with their lines and with commas between.
#[derive(Clone, Copy)]
pub(crate) struct FilesText<'a>(pub &'a [FaultSource<'a>]);

impl fmt::Display for FilesText<'_> {
    ghost output = { λ text. Some (files_text text.0.now) };

    fn fmt<W: fmt::Write>(&self, f: &mut fmt::Formatter<W>) -> fmt::Result {
        match self.0 {
            [] => Ok(()),
            [first, rest @ ..] => {
                write!(f, "{}", FileText(first.source.file))?;
                write_files(f, rest)
            }
        }
    }
}

// Writes the files of the parts that come after the first one, each behind a comma.
fn write_files<W: fmt::Write>(f: &mut fmt::Formatter<W>, sources: &[FaultSource<'_>]) -> fmt::Result
    ensures { WritesOnOk W.write_str_gives f.old result
        (flat_map (λ part. codes ", " ++ file_text part.source.file) sources.now) f.new }
{
    for part in sources {
        write!(f, ", {}", FileText(part.source.file))?;
    }
    Ok(())
}
