//! All that is found in a file, and where each finding stands.

ghost use Rattle.std.specs.Prelude.{◌≡◌, ℕ, [], ◌∷◌, ◌++◌, IfOk, List, OnOk, Some, false, map, option_map, take, true};
ghost use Rattle.std.specs.List.{AllByRecursion, AllZip};
ghost use Rattle.toml.specs.Errors.{IsMemory, IsWithin};
ghost use Rattle.toml.specs.Parse.{parse_document};
ghost use Rattle.toml.specs.View.{table_view};
ghost use Rattle.toml_spans.specs.Index.{IsIndexOf, IsSpanOf, ranges_in};
ghost use Rattle.toml_spans.specs.Step.{key, step_of};
ghost use Rattle.nextest_config_values.specs.Read.{broken_rule, Reason, reason_of};
ghost use Rattle.nextest_config_lint.specs.Defined.{IsDefinedBy, ListFile};
ghost use Rattle.nextest_config_lint.specs.File.{AreLocated, AreLocatedIn, AreSorted, HasRange, IsAlone, IsDocument, IsIn, IsLocated, IsReadOf, IsReportedBy, is_definition, is_key_refused, is_of_key, key_in, located_view, range_at, range_for, range_of, reason_key, rule_key, reported_range};
ghost use Rattle.nextest_config_lint.specs.Found.{Found, found_at, FoundKind, found_of, kind_view, not_utf8};
ghost use Rattle.nextest_config_lint.specs.TextRange.{IsIndexed};

use crate::defined::{Defined, GROUPS_KEY, SCRIPT_KEY, SCRIPTS_KEY};
use crate::document::findings;
use crate::finding::{Finding, FindingKind};
use crate::mistake::mistake;
use crate::text_range::{IndexedDocument, plain_span};
use nextest_config::nextest_version::{ConfigSourceKind, Edition};
use nextest_config_values::read::{FaultKind, Rule};
use std::alloc::{AllocError, Global};
use toml::Table;
use toml::de::Error;
use toml_spans::{Index, Span, Step, place_after};

/// What is found in a file, and where: a range of the text, in lines and columns from 1.
#[derive(Debug, PartialEq, Eq, Drop)]
pub struct LocatedFinding {
    pub span: Span,
    pub finding: Finding,
}

/// The bytes of a file, judged as UTF-8 and read by `toml`, each once.
#[derive(Debug, Drop)]
pub enum FileContents<'a> {
    /// The bytes aren't UTF-8 after this front.
    NotUtf8 { front: &'a [u8] },
    /// The text isn't a document, with what `toml` says of it.
    NotToml { text: &'a str, error: Error },
    /// The text is this document.
    Document { text: &'a str, document: Table },
}

impl<'a> FileContents<'a> {
    /// Judges and reads the bytes of a file.
    pub fn of(alloc: Global, contents: &'a [u8]) -> Result<Self, AllocError>
        ensures { IfOk result (IsReadOf contents.now) }
    {
        match str::from_utf8(contents) {
            Ok(text) => FileContents::of_text(alloc, text),
            Err(error) => Ok(FileContents::NotUtf8 {
                front: &contents[..error.valid_up_to()],
            }),
        }
    }

    // Reads a text.
    fn of_text(alloc: Global, text: &'a str) -> Result<Self, AllocError>
        ensures { IfOk result (IsReadOf text.now) }
    {
        match toml::table_from_str(alloc, text) {
            Ok(document) => Ok(FileContents::Document { text, document }),
            Err(error) if error.is_memory() => Err(AllocError),
            Err(error) => Ok(FileContents::NotToml { text, error }),
        }
    }

    /// The document that the bytes are, if they are one.
    pub fn document(&self) -> Option<&Table>
        ensures { (contents : List ℕ) → IsReadOf contents self.now
            → IsDocument contents (option_map (λ table. table_view table.now) result) }
    {
        match self {
            FileContents::Document { document, .. } => Some(document),
            FileContents::NotUtf8 { .. } | FileContents::NotToml { .. } => None,
        }
    }

    /// All that is found in the file of a source of this kind, as the function `located` says it of
    /// the bytes.
    pub fn located(
        &self,
        alloc: Global,
        source: &ConfigSourceKind,
        edition: Edition,
        defined: &Defined,
        position: usize,
    ) -> Result<Vec<LocatedFinding>, AllocError>
        requires read { (contents : List ℕ) × IsReadOf contents self.now }
        requires defined { (files : List ListFile) × IsDefinedBy files defined.now }
        ensures { IfOk result (λ located. (contents : List ℕ) (files : List ListFile)
            → IsReadOf contents self.now → IsDefinedBy files defined.now
            → AreLocated edition source.now files position contents located.items) }
    {
        match self {
            FileContents::NotUtf8 { front } => not_utf8(alloc, front),
            FileContents::NotToml { text, error } => not_toml(alloc, text.as_bytes(), error),
            FileContents::Document { text, document } => {
                located_in_document(alloc, source, edition, text, document, defined, position)
            }
        }
    }
}

/// All that is found in the file of a source of this kind, at this position of a list that defines
/// this, sorted by where it begins; what begins at one place stands in the order of `findings`. A
/// file that isn't UTF-8 or no TOML document has one error, and nothing else is judged.
pub fn located(
    alloc: Global,
    source: &ConfigSourceKind,
    edition: Edition,
    contents: &[u8],
    defined: &Defined,
    position: usize,
) -> Result<Vec<LocatedFinding>, AllocError>
    requires { (files : List ListFile) × IsDefinedBy files defined.now }
    ensures { IfOk result (λ located. (files : List ListFile) → IsDefinedBy files defined.now
        → AreLocated edition source.now files position contents.now located.items) }
{
    let read = FileContents::of(alloc, contents)?;
    read.located(alloc, source, edition, defined, position)
}

// The file isn't UTF-8 after this front.
fn not_utf8(alloc: Global, front: &[u8]) -> Result<Vec<LocatedFinding>, AllocError>
    ensures { IfOk result (λ located. IsAlone front.now front.now not_utf8 located.items) }
{
    let place = place_after(front);
    let span = Span {
        begin: place,
        end: place,
    };
    alone(alloc, span, FindingKind::NotUtf8)
}

// The text isn't a document.
fn not_toml(alloc: Global, text: &[u8], error: &Error) -> Result<Vec<LocatedFinding>, AllocError>
    requires { IsWithin text.now error.now }
    ensures memory { OnOk result (¬ IsMemory error.now) }
    ensures reported { IfOk result (λ located. IsReportedBy text.now error.now located.items) }
{
    let Some(range) = error.span() else {
        return Err(AllocError);
    };
    let before = &text[..range.start];
    let front = &text[..range.end];
    let span = Span {
        begin: place_after(before),
        end: place_after(front),
    };
    let (_, refused) = front.split_at(range.start);
    let mistake = mistake(alloc, before, refused)?;
    let message = String::from_str(alloc, error.message())?;
    alone(alloc, span, FindingKind::NotToml { message, mistake })
}

// A finding of the whole file, and no other.
fn alone(alloc: Global, span: Span, kind: FindingKind) -> Result<Vec<LocatedFinding>, AllocError>
    ensures { IfOk result (λ located. map located_view located.items
        ≡ (span, option_map (found_at []) (kind_view kind)) ∷ []) }
{
    let path = Vec::new(alloc);
    let finding = Finding { path, kind };
    let mut located = Vec::new(alloc);
    located.push(LocatedFinding { span, finding })?;
    Ok(located)
}

// What is found in a document, sorted by where it begins.
fn located_in_document(
    alloc: Global,
    source: &ConfigSourceKind,
    edition: Edition,
    text: &str,
    document: &Table,
    defined: &Defined,
    position: usize,
) -> Result<Vec<LocatedFinding>, AllocError>
    requires read { parse_document text.now ≡ Some (table_view document.now) }
    requires defined { (files : List ListFile) × IsDefinedBy files defined.now }
    ensures { IfOk result (λ located. (files : List ListFile) → IsDefinedBy files defined.now
        → AreLocatedIn edition source.now files position text.now (table_view document.now)
        located.items) }
{
    let findings = findings(alloc, source, edition, document, defined, position)?;
    let mut located = locate_all(alloc, text, document, findings)?;
    sort_by_place(&mut located)?;
    Ok(located)
}

// Sorts findings by where they begin; those that begin at one place stay as they were.
fn sort_by_place(located: &mut Vec<LocatedFinding>) -> Result<(), AllocError>
    ensures { OnOk result (AreSorted located.old.items located.new.items) }
{
    located.sort_by_key(|one| one.span.begin)?;
    Ok(())
}

// Where each finding stands in the document. Where nothing was found, no index is made.
fn locate_all(
    alloc: Global,
    text: &str,
    document: &Table,
    findings: Vec<Finding>,
) -> Result<Vec<LocatedFinding>, AllocError>
    requires read { parse_document text.now ≡ Some (table_view document.now) }
    requires here { AllByRecursion (IsIn (table_view document.now)) findings.items }
    ensures { IfOk result
        (λ located. AllZip (IsLocated text.now) findings.items located.items) }
{
    if findings.is_empty() {
        return Ok(Vec::new(alloc));
    }
    match Index::of(alloc, text)? {
        Some(index) => {
            let index = &index;
            let file = IndexedDocument {
                text,
                document,
                index,
            };
            let located = locate_all_by(alloc, file, findings)?;
            Ok(located)
        }
        None => unreachable!(),
    }
}

// Where each finding stands in the document, by the index of its text.
fn locate_all_by(
    alloc: Global,
    file: IndexedDocument<'_>,
    findings: Vec<Finding>,
) -> Result<Vec<LocatedFinding>, AllocError>
    requires file { IsIndexed file }
    requires ranges { AllByRecursion (HasRange file.index.now) findings.items }
    ensures { IfOk result
        (λ located. AllZip (IsLocated file.entry.text.now) findings.items located.items) }
{
    let mut located = Vec::new(alloc);
    for finding in findings {
        let span = span_of(alloc, file, &finding)?;
        located.push(LocatedFinding { span, finding })?;
    }
    Ok(located)
}

// The range of a finding, which has one.
fn span_of(alloc: Global, file: IndexedDocument<'_>, finding: &Finding) -> Result<Span, AllocError>
    requires file { IsIndexed file }
    requires range { HasRange file.index.now finding.now }
    ensures { IfOk result (λ span. (found : Found) → found_of finding.now ≡ Some found
        → IsSpanOf file.entry.text.now (range_for file.entry.text.now
        (ranges_in file.entry.index.now) found)
        (Some span)) }
{
    match reported_span(file, finding) {
        Some(reported) => Ok(reported),
        None => match range_in(alloc, file.index, finding)? {
            Some(span) => Ok(span),
            None => unreachable!(),
        },
    }
}

// The range of the bytes of a text that a finding reports.
fn reported_span(file: IndexedDocument<'_>, finding: &Finding) -> Option<Span>
    requires { IsIndexed file }
    ensures { (found : Found) → found_of finding.now ≡ Some found → IsSpanOf file.entry.text.now
        (reported_range file.entry.text.now (ranges_in file.entry.index.now) found.path found.kind)
        result }
{
    match &finding.kind {
        FindingKind::Text(fault) => plain_span(file, finding.path.as_slice(), fault),
        _ => None,
    }
}

// The range of what a finding is of, if the text has one, at a key of its table where it stands
// there. Other paths are looked up as they are, and not copied.
fn range_in(alloc: Global, index: &Index, finding: &Finding) -> Result<Option<Span>, AllocError>
    ensures { IfOk result (λ span. (text : List ℕ) (found : Found) → IsIndexOf text index.now
        → found_of finding.now ≡ Some found
        → IsSpanOf text (range_of (ranges_in index.now) found) span) }
{
    let of_key = is_of_key(finding);
    match key_in(&finding.kind) {
        Some(name) => {
            let path = path_of_key(alloc, finding.path.as_slice(), name)?;
            Ok(span_at(index, path.as_slice(), of_key))
        }
        None => Ok(span_at(index, finding.path.as_slice(), of_key)),
    }
}

// The range at a path, by whether its key is wrong.
fn span_at(index: &Index, path: &[Step], of_key: bool) -> Option<Span>
    ensures { (text : List ℕ) → IsIndexOf text index.now
        → IsSpanOf text (range_at of_key (ranges_in index.now) (map step_of path.now)) result }
{
    if of_key {
        key_or_value(index, path)
    } else {
        value_or_key(index, path)
    }
}

/// The range of the value of a path, or without one that of its key.
pub fn value_or_key(index: &Index, path: &[Step]) -> Option<Span>
    ensures { (text : List ℕ) → IsIndexOf text index.now
        → IsSpanOf text (range_at false (ranges_in index.now) (map step_of path.now)) result }
{
    match index.value(path) {
        Some(span) => Some(span),
        None => index.key(path),
    }
}

// The range of the key of a path, or without one that of its value.
fn key_or_value(index: &Index, path: &[Step]) -> Option<Span>
    ensures { (text : List ℕ) → IsIndexOf text index.now
        → IsSpanOf text (range_at true (ranges_in index.now) (map step_of path.now)) result }
{
    match index.key(path) {
        Some(span) => Some(span),
        None => index.value(path),
    }
}

// Whether a key is wrong, and not its value.
fn is_of_key(finding: &Finding) -> bool
    ensures { (found : Found) → found_of finding.now ≡ Some found → result ≡ is_of_key found }
{
    match &finding.kind {
        FindingKind::Fault { fault, .. } => is_unknown_field(fault),
        FindingKind::UnknownFeature { .. }
        | FindingKind::UnknownKey { .. }
        | FindingKind::ReservedProfile
        | FindingKind::OutsideTool { .. }
        | FindingKind::NameOfTool(_)
        | FindingKind::SetupScriptToo { .. }
        | FindingKind::FeatureNotEnabled(_) => true,
        FindingKind::NoName { .. } => is_definition(finding.path.as_slice()),
        _ => false,
    }
}

// Whether a key is refused.
fn is_unknown_field(fault: &FaultKind) -> bool
    ensures { (reason : Reason) → reason_of fault.now ≡ Some reason
        → result ≡ is_key_refused reason }
{
    matches!(fault, FaultKind::UnknownField { .. })
}

// Whether the path is that of a name that the file defines: of a test group or a script.
fn is_definition(path: &[Step]) -> bool
    ensures { result ≡ is_definition (map step_of path.now) }
{
    match path {
        [Step::Key(table), Step::Key(_)] => {
            (table.as_str() == GROUPS_KEY) | (table.as_str() == SCRIPT_KEY)
        }
        [Step::Key(table), Step::Key(_), Step::Key(_)] => table.as_str() == SCRIPTS_KEY,
        _ => false,
    }
}

// The key of a table at which what is found of the table stands.
fn key_in(kind: &FindingKind) -> Option<&str>
    ensures { (reported : FoundKind) → kind_view kind.now ≡ Some reported
        → option_map (λ name. name.now) result ≡ key_in reported }
{
    match kind {
        FindingKind::UnknownKey { key, .. } => Some(key.as_str()),
        FindingKind::Fault { fault, .. } => reason_key(fault),
        _ => None,
    }
}

// The key of a table at which a reason of its refusal stands.
fn reason_key(fault: &FaultKind) -> Option<&str>
    ensures { (reason : Reason) → reason_of fault.now ≡ Some reason
        → option_map (λ name. name.now) result ≡ reason_key reason }
{
    match fault {
        FaultKind::UnknownField { found, .. } => Some(found.as_str()),
        FaultKind::Custom(rule) => rule_key(rule),
        _ => None,
    }
}

// The key whose value breaks a rule between the keys of a table.
fn rule_key(rule: &Rule) -> Option<&'static str>
    ensures { option_map (λ name. name.now) result ≡ rule_key (broken_rule rule.now) }
{
    match rule {
        Rule::RequiredAboveRecommended { .. } => Some("recommended"),
        Rule::JitterWithoutDelay => Some("jitter"),
        Rule::CountZero => Some("count"),
        Rule::DelayZero => Some("delay"),
        Rule::MaxDelayZero | Rule::MaxDelayBelowDelay => Some("max-delay"),
        Rule::PreRelease
        | Rule::BuildMetadata
        | Rule::NotVersion { .. }
        | Rule::ArrayForm
        | Rule::Priority { .. } => None,
    }
}

// The path of a key of the table at a path.
fn path_of_key(alloc: Global, path: &[Step], name: &str) -> Result<Vec<Step>, AllocError>
    ensures { IfOk result
        (λ whole. map step_of whole.items ≡ map step_of path.now ++ (key name.now ∷ [])) }
{
    let mut whole = copy_of(alloc, path)?;
    whole.push(Step::Key(String::from_str(alloc, name)?))?;
    Ok(whole)
}

// A copy of a path.
fn copy_of(alloc: Global, path: &[Step]) -> Result<Vec<Step>, AllocError>
    ensures { IfOk result (λ copy. map step_of copy.items ≡ map step_of path.now) }
{
    let mut copy = Vec::new(alloc);
    for step in path {
        copy.push(copy_of_step(alloc, step)?)?;
    }
    Ok(copy)
}

// A copy of a step.
fn copy_of_step(alloc: Global, step: &Step) -> Result<Step, AllocError>
    ensures { IfOk result (λ copy. step_of copy ≡ step_of step.now) }
{
    match step {
        Step::Key(key) => Ok(Step::Key(String::from_str(alloc, key.as_str())?)),
        Step::Index(index) => Ok(Step::Index(*index)),
    }
}
