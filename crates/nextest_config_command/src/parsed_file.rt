//! Files, each parsed once.

ghost use Rattle.std.specs.Prelude.{◌≡◌, ◌++◌, IfOk, List, map, MatchOption, OnOk, option_map, Some, string_bytes};
ghost use Rattle.toml.specs.Parse.{parse_document};
ghost use Rattle.toml.specs.View.{table_view};
ghost use Rattle.nextest_config.specs.NextestVersion.{place_of, IsDocumentOf};
ghost use Rattle.nextest_config_lint.specs.Defined.{IsDefinedBy, ListFile};
ghost use Rattle.nextest_config_lint.specs.File.{AreLocated, IsReadOf, IsTextOf};
ghost use Rattle.nextest_config_command.specs.FileList.{given_file, IsDocumentFile};
ghost use Rattle.nextest_config_command.specs.Files.{File, file_of};
ghost use Rattle.nextest_config_command.specs.Found.{files_of, hint, list_of, notice, outcome_of, with_outcome};
ghost use Rattle.nextest_config_command.specs.FileFindings.{AreListed, IsListed};

use crate::files::SourceFile;
use crate::found::Found;
use nextest_config::nextest_version::{ConfigSource, Edition, SourceDocument};
use nextest_config_lint::{Defined, FileContents, ListedFile, LocatedFinding};
use nextest_config_values::literal::Shown;
use std::alloc::{AllocError, Global};
use std::fmt::Write;
use std::marker::Model;
use toml::Table;

/// A file that was read, whose bytes are judged as UTF-8 and parsed. It is seen as the file.
#[derive(Drop)]
pub(crate) struct ParsedFile<'a> {
    file: &'a SourceFile,
    contents: FileContents<'a>,
}

impl<'a> Model for ParsedFile<'a> {
    ghost use Rattle.nextest_config_lint.specs.File.{IsReadOf};
    ghost use Rattle.nextest_config_command.specs.Files.{File, file_of};

    ghost Value = { File };

    ghost view = { λ parsed. file_of parsed.file.now };

    ghost invariant = { λ parsed. IsReadOf parsed.file.now.contents.items parsed.contents };
}

impl<'a> ParsedFile<'a> {
    /// Judges and parses the bytes of a file.
    pub fn of(alloc: Global, file: &'a SourceFile) -> Result<Self, AllocError>
        ensures { IfOk result (λ parsed. parsed ≡ file_of file.now) }
    {
        let contents = FileContents::of(alloc, file.contents.as_slice())?;
        Ok(ParsedFile { file, contents })
    }

    /// The path of the file, as it prints.
    pub fn path(&self) -> &str
        ensures { result.now ≡ self.now.place.path }
    {
        self.file.source.path.as_str()
    }

    /// The bytes of the file, UTF-8 or not.
    pub fn contents(&self) -> &[u8]
        ensures { result.now ≡ self.now.contents }
    {
        self.file.contents.as_slice()
    }

    /// Where the file comes from.
    pub fn source(&self) -> &ConfigSource
        ensures { place_of result.now ≡ self.now.place }
    {
        &self.file.source
    }

    /// The text of the file, and the document that it is, if it is one.
    pub fn text(&self) -> Option<(&str, &Table)>
        ensures { MatchOption result (¬ IsDocumentFile self.now)
            (λ text. IsTextOf self.now.contents text.0.now
            × (parse_document self.now.contents ≡ Some (table_view text.1.now))) }
    {
        match &self.contents {
            FileContents::Document { text, document } => Some((text, document)),
            FileContents::NotUtf8 { .. } | FileContents::NotToml { .. } => None,
        }
    }

    /// The file as a source, if it is a document.
    pub fn document(&self) -> Option<SourceDocument<'_>>
        ensures { MatchOption result (¬ IsDocumentFile self.now)
            (λ document. IsDocumentFile self.now × IsDocumentOf (given_file self.now) document) }
    {
        let document = self.contents.document()?;
        let source = &self.file.source;
        Some(SourceDocument { source, document })
    }

    /// The file in a list.
    pub fn listed(&self) -> ListedFile<'_>
        ensures { IsListed self.now result }
    {
        ListedFile {
            source: &self.file.source.kind,
            document: self.contents.document(),
        }
    }

    /// What is found in the file, at this position of a list that defines this, by its lines.
    pub fn located(
        &self,
        alloc: Global,
        edition: Edition,
        defined: &Defined,
        position: usize,
    ) -> Result<Vec<LocatedFinding>, AllocError>
        requires { (list : List ListFile) × IsDefinedBy list defined.now }
        ensures { IfOk result (λ located. (list : List ListFile) → IsDefinedBy list defined.now
            → AreLocated edition self.now.place.kind list position self.now.contents
            located.items) }
    {
        let source = &self.file.source.kind;
        self.contents
            .located(alloc, source, edition, defined, position)
    }
}

/// The files that were read, each parsed.
#[derive(Drop)]
pub(crate) struct ParsedFiles<'a> {
    pub tools: Vec<ParsedFile<'a>>,
    pub repository: Vec<ParsedFile<'a>>,
    /// A line for each file that is looked for and missing, or can't be read.
    pub notices: String,
    /// Whether there is one that can't be read.
    pub is_partial: bool,
}

impl<'a> ParsedFiles<'a> {
    /// Judges and parses the files of tools, and what was found of the repository's.
    pub fn of(
        alloc: Global,
        tools: &'a [SourceFile],
        found: &'a [Found],
    ) -> Result<Self, AllocError>
        ensures { IfOk result (λ parsed. files_of parsed
            ≡ list_of (map file_of tools.now) (map outcome_of found.now)) }
    {
        let mut parsed = ParsedFiles {
            tools: parse_files(alloc, tools)?,
            repository: Vec::new(alloc),
            notices: String::new(alloc),
            is_partial: false,
        };
        for outcome in found {
            parsed.add(alloc, outcome)?;
        }
        Ok(parsed)
    }

    // Adds what was found of one of the repository's files.
    fn add(&mut self, alloc: Global, outcome: &'a Found) -> Result<(), AllocError>
        ensures { OnOk result
            (files_of self.new ≡ with_outcome (files_of self.old) (outcome_of outcome.now)) }
    {
        match outcome {
            Found::File(file) => self.repository.push(ParsedFile::of(alloc, file)?)?,
            Found::Missing { path, folder } => {
                push_notice(&mut self.notices, path.as_str(), folder)?;
            }
            Found::Unread(said) => {
                writeln!(self.notices, "{said}")?;
                self.is_partial = true;
            }
        }
        Ok(())
    }
}

// Pushes that no file is at this path, with the folder that may be meant.
fn push_notice(notices: &mut String, path: &str, folder: &Option<String>) -> Result<(), AllocError>
    ensures { OnOk result (string_bytes notices.new ≡ string_bytes notices.old
        ++ notice path.now (option_map string_bytes folder.now)) }
{
    write!(
        notices,
        "no configuration file: {} isn't there",
        Shown(path)
    )?;
    push_hint(notices, folder)?;
    notices.push_str("\n")?;
    Ok(())
}

// Pushes the folder that may be meant, if there is one.
fn push_hint(notices: &mut String, folder: &Option<String>) -> Result<(), AllocError>
    ensures { OnOk result (string_bytes notices.new ≡ string_bytes notices.old
        ++ hint (option_map string_bytes folder.now)) }
{
    match folder {
        Some(folder) => push_meant(notices, folder.as_str()),
        None => Ok(()),
    }
}

fn push_meant(notices: &mut String, folder: &str) -> Result<(), AllocError>
    ensures { OnOk result
        (string_bytes notices.new ≡ string_bytes notices.old ++ hint (Some folder.now)) }
{
    write!(notices, ", did you mean {}", Shown(folder))
}

// The files, each parsed.
fn parse_files(alloc: Global, files: &[SourceFile]) -> Result<Vec<ParsedFile<'_>>, AllocError>
    ensures { IfOk result (λ parsed. parsed.items ≡ map file_of files.now) }
{
    let mut parsed = Vec::new(alloc);
    for file in files {
        parsed.push(ParsedFile::of(alloc, file)?)?;
    }
    Ok(parsed)
}

/// The files as a list.
pub(crate) fn list_files<'f>(
    alloc: Global,
    files: &'f [ParsedFile<'_>],
) -> Result<Vec<ListedFile<'f>>, AllocError>
    ensures { IfOk result (λ list. AreListed files.now list.items) }
{
    let mut list = Vec::new(alloc);
    for file in files {
        list.push(file.listed())?;
    }
    Ok(list)
}
