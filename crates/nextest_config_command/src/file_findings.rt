//! What is found in files that were read.

ghost use Rattle.std.specs.Prelude.{◌≡◌, ◌++◌, IfOk, List, OnOk, filter, length, map};
ghost use Rattle.std.specs.List.{AllZip};
ghost use Rattle.nextest_config.specs.declared.nextest_version.source.ConfigSourceKind.TheVariants.{DiscoveredRepository};
ghost use Rattle.nextest_config_lint.specs.Defined.{file_of, IsDefinedBy, ListFile};
ghost use Rattle.toml_spans.specs.Step.{step_of};
ghost use Rattle.nextest_config_command.specs.FileFindings.{AreFound, AreFoundInTools, found_of, is_allowed, judging_of, is_of_source, is_source_key, is_reported, IsFoundAfter, IsFoundIn, refuses, tells, unread_files};
ghost use Rattle.nextest_config_command.specs.Found.{files_of};
ghost use Rattle.nextest_config_command.specs.Positions.{AllZipFrom};

use crate::parsed_file::{ParsedFile, ParsedFiles, list_files};
use nextest_config::nextest_version::{ConfigSourceKind, Edition};
use nextest_config_lint::{
    Defined, Finding, FindingCode, FindingSeverity, ListedFile, LocatedFinding, Step,
};
use nextest_config_values::read::Word;
use std::alloc::{AllocError, Global};

/// How files are judged, and which of their findings are reported.
#[derive(Clone, Copy)]
pub(crate) struct LintRules<'a> {
    pub edition: Edition,
    /// The codes of findings that are left out.
    pub allowed: &'a [FindingCode],
    /// Whether a finding for which the list is refused is reported in any case.
    pub tells_refusals: bool,
}

/// What is found and reported of a file.
#[derive(Drop)]
pub(crate) struct FileFindings<'f> {
    /// The path of the file, as it prints.
    pub path: &'f str,
    pub contents: &'f [u8],
    pub located: Vec<LocatedFinding>,
}

/// Files, and how they are judged.
#[derive(Clone, Copy)]
pub(crate) struct Judged<'f> {
    pub alloc: Global,
    pub rules: LintRules<'f>,
    pub files: &'f ParsedFiles<'f>,
}

impl<'f> Judged<'f> {
    /// What is found in the files: in those of tools, in the list of all; and in each of the
    /// repository's, in a list with those of tools.
    pub fn findings(&self) -> Result<Vec<FileFindings<'f>>, AllocError>
        ensures { IfOk result (λ found. AreFound (judging_of self.now.rules)
            (files_of self.now.files.now) (map found_of found.items)) }
    {
        let mut found = self.in_tools()?;
        let mut rest = self.in_repository()?;
        found.append(&mut rest)?;
        Ok(found)
    }

    // What is found in the files of tools.
    fn in_tools(&self) -> Result<Vec<FileFindings<'f>>, AllocError>
        ensures { IfOk result (λ found. AreFoundInTools (judging_of self.now.rules)
            (files_of self.now.files.now) (map found_of found.items)) }
    {
        if self.files.tools.is_empty() {
            // Then it doesn't matter what the list defines.
            return Ok(Vec::new(self.alloc));
        }
        let unread = ConfigSourceKind::DiscoveredRepository;
        let mut list = list_files(self.alloc, self.files.tools.as_slice())?;
        let mut rest = list_files(self.alloc, self.files.repository.as_slice())?;
        list.append(&mut rest)?;
        push_unread(&mut list, self.files.is_partial, &unread)?;
        let defined = Defined::of(self.alloc, list.as_slice())?;
        let tools = self.files.tools.as_slice();
        in_list(self.alloc, self.rules, &defined, tools)
    }

    // What is found in each of the repository's files, in a list with those of tools.
    fn in_repository(&self) -> Result<Vec<FileFindings<'f>>, AllocError>
        ensures { IfOk result (λ found. AllZip
            (IsFoundAfter (judging_of self.now.rules) (files_of self.now.files.now))
            (files_of self.now.files.now).repository (map found_of found.items)) }
    {
        let mut found = Vec::new(self.alloc);
        for file in &self.files.repository {
            found.push(self.after_tools(file)?)?;
        }
        Ok(found)
    }

    // What is found in a file, in a list with those of tools.
    fn after_tools(&self, file: &'f ParsedFile<'f>) -> Result<FileFindings<'f>, AllocError>
        ensures { IfOk result (λ found. IsFoundAfter (judging_of self.now.rules)
            (files_of self.now.files.now) file.now (found_of found)) }
    {
        let unread = ConfigSourceKind::DiscoveredRepository;
        let tools = self.files.tools.as_slice();
        let mut list = list_files(self.alloc, tools)?;
        list.push(file.listed())?;
        push_unread(&mut list, self.files.is_partial, &unread)?;
        let defined = Defined::of(self.alloc, list.as_slice())?;
        in_file(self.alloc, self.rules, &defined, tools.len(), file)
    }
}

// What is found in the first files of a list that defines this.
fn in_list<'f>(
    alloc: Global,
    rules: LintRules<'_>,
    defined: &Defined,
    files: &'f [ParsedFile<'_>],
) -> Result<Vec<FileFindings<'f>>, AllocError>
    requires { (list : List ListFile) × IsDefinedBy list defined.now }
    ensures { IfOk result (λ found. (list : List ListFile) → IsDefinedBy list defined.now
        → AllZipFrom (IsFoundIn (judging_of rules.entry) list) 0 files.now
        (map found_of found.items)) }
{
    let mut found = Vec::new(alloc);
    for (position, file) in files.iter().enumerate() {
        found.push(in_file(alloc, rules, defined, position, file)?)?;
    }
    Ok(found)
}

// Pushes a repository's file that couldn't be read, if there is one: none that is known to be a
// document, so it may define any name.
fn push_unread<'f>(
    list: &mut Vec<ListedFile<'f>>,
    is_partial: bool,
    source: &'f ConfigSourceKind,
) -> Result<(), AllocError>
    requires { source.now ≡ DiscoveredRepository }
    ensures { OnOk result (map file_of list.new.items
        ≡ map file_of list.old.items ++ unread_files is_partial) }
{
    if is_partial {
        list.push(ListedFile {
            source,
            document: None,
        })?;
    }
    Ok(())
}

// What is found in the file at this position of a list that defines this.
fn in_file<'f>(
    alloc: Global,
    rules: LintRules<'_>,
    defined: &Defined,
    position: usize,
    file: &'f ParsedFile<'_>,
) -> Result<FileFindings<'f>, AllocError>
    requires { (list : List ListFile) × IsDefinedBy list defined.now }
    ensures { IfOk result (λ found. (list : List ListFile) → IsDefinedBy list defined.now
        → IsFoundIn (judging_of rules.entry) list position file.now (found_of found)) }
{
    let all = file.located(alloc, rules.edition, defined, position)?;
    let located = rules.reported(alloc, all)?;
    Ok(FileFindings {
        path: file.path(),
        contents: file.contents(),
        located,
    })
}

impl LintRules<'_> {
    // The findings that are reported, of all of a file.
    fn reported(
        &self,
        alloc: Global,
        all: Vec<LocatedFinding>,
    ) -> Result<Vec<LocatedFinding>, AllocError>
        ensures { IfOk result (λ reported.
            reported.items ≡ filter (tells (judging_of self.now)) all.items) }
    {
        if self.allowed.is_empty() {
            return Ok(all);
        }
        let mut reported = Vec::new(alloc);
        for located in all {
            if self.tells(&located.finding) {
                reported.push(located)?;
            }
        }
        Ok(reported)
    }

    // Whether a finding is reported.
    fn tells(&self, finding: &Finding) -> bool
        ensures { result ≡ is_reported self.now.allowed.now self.now.tells_refusals finding.now }
    {
        !self.allows(finding) || self.tells_refusals && refuses(finding)
    }

    // Whether findings of this code are left out.
    fn allows(&self, finding: &Finding) -> bool
        ensures { result ≡ is_allowed self.now.allowed.now finding.now.kind }
    {
        let word = finding.code().as_word();
        self.allowed.iter().any(|code| code.as_word() == word)
    }
}

// Whether a list is refused for the finding.
fn refuses(finding: &Finding) -> bool
    ensures { result ≡ refuses finding.now }
{
    matches!(finding.severity(), FindingSeverity::Error) && is_of_source(finding.path.as_slice())
}

// Whether the path is that of the whole file, or begins with a key by which it asks for something.
fn is_of_source(path: &[Step]) -> bool
    ensures { result ≡ is_of_source (map step_of path.now) }
{
    match path {
        [] => true,
        [Step::Key(key), ..] => is_source_key(key.as_str()),
        [Step::Index(_), ..] => false,
    }
}

// Whether a file asks for something by this key.
fn is_source_key(key: &str) -> bool
    ensures { result ≡ is_source_key key.now }
{
    key == "nextest-version" || key == "experimental"
}
