//! What is reported of the findings of files.

ghost use Rattle.std.specs.Prelude.{◌≡◌, ◌++◌, IfOk, OnOk, count_by, flat_map, map, string_bytes};
ghost use Rattle.std.specs.Str.Lines.{lines};
ghost use Rattle.nextest_config_command.specs.FileFindings.{found_of, is_error, judging_of};
ghost use Rattle.nextest_config_command.specs.Found.{files_of};
ghost use Rattle.nextest_config_command.specs.Lint.{AreTextsOf, fails_by, file_text, is_note, IsLint, is_warning, lint_status, lint_text, located_text, path_if, paths_in, severities_of, severity_of, contents_shown, summary_line, summary_of, diagnostic_of};
ghost use Rattle.nextest_config_output.specs.Findings.Diagnostic.{diagnostic_text};

use crate::distinct::count_distinct;
use crate::file_findings::{FileFindings, Judged, LintRules};
use crate::parsed_file::ParsedFiles;
use nextest_config_lint::{Finding, FindingSeverity, LocatedFinding, PathText};
use nextest_config_output::findings::{Diagnostic, Format, Summary, push_finding};
use nextest_config_report::exit_status::ExitStatus;
use nextest_config_values::read::Word;
use std::alloc::{AllocError, Global};
use std::fmt::Write;

/// What is reported of files: their findings, and how many there are.
#[derive(Drop)]
pub(crate) struct Lint {
    pub text: String,
    pub summary: Summary,
}

impl Lint {
    /// What is reported of the files, judged by these rules, in a format.
    pub fn of(
        alloc: Global,
        rules: LintRules<'_>,
        format: Format,
        files: &ParsedFiles<'_>,
    ) -> Result<Self, AllocError>
        ensures { IfOk result (IsLint (judging_of rules.entry) format (files_of files.now)) }
    {
        let judged = Judged {
            alloc,
            rules,
            files,
        };
        let found = judged.findings()?;
        let lint = lint_of(alloc, format, found.as_slice())?;
        Ok(lint)
    }

    /// How a check of the files ends: an error fails it, and so does a warning where it is strict.
    pub fn status(&self, strict: bool) -> ExitStatus
        ensures { result ≡ lint_status strict self.now.summary }
    {
        if self.fails(strict) {
            return ExitStatus::Failure;
        }
        ExitStatus::Success
    }

    /// Whether a check of the files fails.
    pub fn fails(&self, strict: bool) -> bool
        ensures { result ≡ fails_by strict self.now.summary }
    {
        self.summary.errors > 0 || strict && self.summary.warnings > 0
    }
}

// What is reported of findings.
fn lint_of(alloc: Global, format: Format, found: &[FileFindings<'_>]) -> Result<Lint, AllocError>
    ensures text { IfOk result (λ lint.
        string_bytes lint.text ≡ lint_text format (map found_of found.now)) }
    ensures summary { IfOk result (λ lint. lint.summary ≡ summary_of (map found_of found.now)) }
{
    let summary = summary_of(alloc, found)?;
    let mut text = String::new(alloc);
    push_files(alloc, &mut text, format, found)?;
    push_summary(&mut text, format, &summary)?;
    Ok(Lint { text, summary })
}

// How many findings there are in files.
fn summary_of(alloc: Global, found: &[FileFindings<'_>]) -> Result<Summary, AllocError>
    ensures { IfOk result (λ summary. summary ≡ summary_of (map found_of found.now)) }
{
    let severities = severities(alloc, found)?;
    let paths = paths(alloc, found)?;
    let files = count_distinct(alloc, paths.as_slice())?;
    Ok(summary_with(severities.as_slice(), files))
}

// How many findings there are of each severity, in so many files.
fn summary_with(severities: &[FindingSeverity], files: usize) -> Summary
    ensures errors { result.errors ≡ count_by is_error severities.now }
    ensures warnings { result.warnings ≡ count_by is_warning severities.now }
    ensures notes { result.notes ≡ count_by is_note severities.now }
    ensures files { result.files ≡ files }
{
    Summary {
        errors: severities.iter().filter(|it| is_error(**it)).count(),
        warnings: severities.iter().filter(|it| is_warning(**it)).count(),
        notes: severities.iter().filter(|it| is_note(**it)).count(),
        files,
    }
}

fn is_error(severity: FindingSeverity) -> bool
    ensures { result ≡ is_error severity }
{
    matches!(severity, FindingSeverity::Error)
}

fn is_warning(severity: FindingSeverity) -> bool
    ensures { result ≡ is_warning severity }
{
    matches!(severity, FindingSeverity::Warning)
}

fn is_note(severity: FindingSeverity) -> bool
    ensures { result ≡ is_note severity }
{
    matches!(severity, FindingSeverity::Note)
}

// How grave each finding is.
fn severities(alloc: Global, found: &[FileFindings<'_>]) -> Result<Vec<FindingSeverity>, AllocError>
    ensures { IfOk result (λ severities.
        severities.items ≡ severities_of (map found_of found.now)) }
{
    let mut severities = Vec::new(alloc);
    for file in found {
        push_severities(&mut severities, file.located.as_slice())?;
    }
    Ok(severities)
}

fn push_severities(
    severities: &mut Vec<FindingSeverity>,
    located: &[LocatedFinding],
) -> Result<(), AllocError>
    ensures { OnOk result (severities.new.items
        ≡ severities.old.items ++ map severity_of located.now) }
{
    for one in located {
        severities.push(one.finding.severity())?;
    }
    Ok(())
}

// The paths of the files in which something is found.
fn paths<'f>(alloc: Global, found: &[FileFindings<'f>]) -> Result<Vec<&'f str>, AllocError>
    ensures { IfOk result (λ paths.
        map (λ path. path.now) paths.items ≡ paths_in (map found_of found.now)) }
{
    let mut paths = Vec::new(alloc);
    for file in found {
        push_path(&mut paths, file.path, file.located.as_slice())?;
    }
    Ok(paths)
}

// Pushes the path of a file, if something is found in it.
fn push_path<'f>(
    paths: &mut Vec<&'f str>,
    path: &'f str,
    located: &[LocatedFinding],
) -> Result<(), AllocError>
    ensures { OnOk result (map (λ path. path.now) paths.new.items
        ≡ map (λ path. path.now) paths.old.items ++ path_if path.now located.now) }
{
    match located {
        [] => Ok(()),
        [_, ..] => {
            paths.push(path)?;
            Ok(())
        }
    }
}

// Pushes how many findings there are, where there are any, if the format tells so.
fn push_summary(text: &mut String, format: Format, summary: &Summary) -> Result<(), AllocError>
    ensures { OnOk result
        (string_bytes text.new ≡ string_bytes text.old ++ summary_line format summary.now) }
{
    match format {
        Format::Full if summary.files > 0 => writeln!(text, "{summary}"),
        _ => Ok(()),
    }
}

// Pushes the findings of files.
fn push_files(
    alloc: Global,
    text: &mut String,
    format: Format,
    found: &[FileFindings<'_>],
) -> Result<(), AllocError>
    ensures { OnOk result (string_bytes text.new
        ≡ string_bytes text.old ++ flat_map (file_text format) (map found_of found.now)) }
{
    for file in found {
        push_file(alloc, text, format, file)?;
    }
    Ok(())
}

// Pushes the findings of a file.
fn push_file(
    alloc: Global,
    text: &mut String,
    format: Format,
    found: &FileFindings<'_>,
) -> Result<(), AllocError>
    ensures { OnOk result (string_bytes text.new
        ≡ string_bytes text.old ++ file_text format (found_of found.now)) }
{
    if found.located.is_empty() {
        return Ok(());
    }
    let shown = contents_shown(alloc, format, found.contents)?;
    let lines = lines(alloc, shown.as_str())?;
    push_located(
        alloc,
        text,
        format,
        found.path,
        lines.as_slice(),
        found.located.as_slice(),
    )?;
    Ok(())
}

// What is shown of a file, where the format shows its lines.
fn contents_shown(alloc: Global, format: Format, contents: &[u8]) -> Result<String, AllocError>
    ensures { IfOk result (λ shown. string_bytes shown ≡ contents_shown format contents.now) }
{
    match format {
        Format::Full => String::from_utf8_lossy(alloc, contents),
        Format::Human | Format::Github | Format::Json => Ok(String::new(alloc)),
    }
}

fn lines(alloc: Global, text: &str) -> Result<Vec<&str>, AllocError>
    ensures { IfOk result (λ found. map (λ line. line.now) found.items ≡ lines text.now) }
{
    text.lines().collect(alloc)
}

// Pushes findings of the file at a path, with these lines.
fn push_located(
    alloc: Global,
    text: &mut String,
    format: Format,
    path: &str,
    lines: &[&str],
    located: &[LocatedFinding],
) -> Result<(), AllocError>
    ensures { OnOk result (string_bytes text.new ≡ string_bytes text.old
        ++ located_text format path.now (map (λ line. line.now) lines.now) located.now) }
{
    let mut texts = FindingTexts {
        key: String::new(alloc),
        message: String::new(alloc),
    };
    for one in located {
        texts.rewrite(&one.finding)?;
        push_one(alloc, text, format, path, lines, one, &texts)?;
    }
    Ok(())
}

// What is reported of a finding in texts that are written anew for each, and so keep their memory.
#[derive(Drop)]
struct FindingTexts {
    key: String,
    message: String,
}

impl FindingTexts {
    // Writes the texts of a finding.
    fn rewrite(&mut self, finding: &Finding) -> Result<(), AllocError>
        ensures { OnOk result (AreTextsOf finding.now self.new) }
    {
        self.key.clear();
        write!(self.key, "{}", PathText(finding.path.as_slice()))?;
        self.message.clear();
        write!(self.message, "{}", &finding.kind)
    }
}

// Pushes a finding of the file at a path, with these lines; its texts are written already.
fn push_one(
    alloc: Global,
    text: &mut String,
    format: Format,
    path: &str,
    lines: &[&str],
    located: &LocatedFinding,
    texts: &FindingTexts,
) -> Result<(), AllocError>
    requires { AreTextsOf located.now.finding texts.now }
    ensures { OnOk result (string_bytes text.new ≡ string_bytes text.old
        ++ diagnostic_text format (diagnostic_of path.now located.now)
        (map (λ line. line.now) lines.now)) }
{
    let LocatedFinding { span, finding } = located;
    let diagnostic = Diagnostic {
        file: path,
        span: *span,
        severity: finding.severity(),
        code: finding.code().as_word(),
        key: texts.key.as_str(),
        message: texts.message.as_str(),
    };
    push_finding(alloc, text, format, &diagnostic, lines)?;
    Ok(())
}
