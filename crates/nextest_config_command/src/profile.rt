//! What the command answers about a profile.

ghost use Rattle.std.specs.Prelude.{◌≡◌, ◌==◌, ◌++◌, codes, IfOk, map, MatchOption, Some, string_bytes};
ghost use Rattle.std.specs.List.{list_any};
ghost use Rattle.nextest_config_profiles.specs.Inherits.{IsPlacedFault};
ghost use Rattle.nextest_config_profiles.specs.Profile.{profile_wrong};
ghost use Rattle.nextest_config_profiles.specs.Report.Wanted.{path_of};
ghost use Rattle.nextest_config_command.specs.Answer.{answer_of, says};
ghost use Rattle.nextest_config_command.specs.FileList.{AreDocuments};
ghost use Rattle.nextest_config_command.specs.Found.{all_files, files_of};
ghost use Rattle.nextest_config_command.specs.Profile.{front_text, IsAnsweredBy, IsNarrowedIf, IsNoProfileReported, IsProfiled, IsProfileIn, IsReported, IsReportWritten, IsWantedReport, IsWrongReported, line_text, is_like_path, lint_format, no_text, path_hint, ring_text, status_reported, undefined_text};
ghost use Rattle.nextest_config_command.specs.Printed.{for_people};
ghost use Rattle.nextest_config_command.specs.Request.{slash};
ghost use Rattle.nextest_config_report.specs.declared.exit_status.ExitStatus.TheVariants.{Refused};

use crate::answer::Answer;
use crate::file_findings::LintRules;
use crate::layers::{indexed_files, layers};
use crate::lint::Lint;
use crate::parsed_file::ParsedFiles;
use crate::printed::Printed;
use crate::request::ProfileTask;
use nextest_config::nextest_version::Edition;
use nextest_config_output::findings::{Escaped, Escapes, Format};
use nextest_config_output::profile::{other_profiles_text, profile_text};
use nextest_config_profiles::report::{ProfileReport, WantedKey};
use nextest_config_profiles::{
    EffectiveProfile, InheritsPlace, Layer, ProfileFault, profile_names,
};
use nextest_config_report::exit_status::ExitStatus;
use nextest_config_report::names::push_names;
use nextest_config_report::show::ShowFormat;
use nextest_config_values::read::{QuotedText, found_text};
use std::alloc::{AllocError, Global};
use std::fmt;
use toml_spans::Span;

/// What the profile gets for its settings by these files, or why it gets nothing.
pub(crate) fn profile(
    alloc: Global,
    edition: Edition,
    task: &ProfileTask,
    files: &ParsedFiles<'_>,
) -> Result<Answer, AllocError>
    ensures { IfOk result (λ answer.
        IsProfiled edition (files_of files.now) task.now (answer_of answer)) }
{
    let rules = LintRules {
        edition,
        allowed: &[],
        tells_refusals: false,
    };
    let lint = Lint::of(alloc, rules, lint_format(task.format), files)?;
    if lint.summary.errors > 0 {
        let said = Printed::in_show_format(task.format, lint.text);
        return Ok(Answer::says(alloc, said, ExitStatus::Refused));
    }
    let answer = profile_in(alloc, task, files)?;
    Ok(answer)
}

// How what is wrong with the files is reported.
fn lint_format(format: ShowFormat) -> Format
    ensures { result ≡ lint_format format }
{
    match format {
        ShowFormat::Human => Format::Human,
        ShowFormat::Json => Format::Json,
    }
}

// What the profile gets for its settings by files each of which is a document, or why it gets
// nothing.
fn profile_in(
    alloc: Global,
    task: &ProfileTask,
    files: &ParsedFiles<'_>,
) -> Result<Answer, AllocError>
    requires { AreDocuments (all_files (files_of files.now)) }
    ensures { IfOk result (λ answer.
        IsProfileIn (all_files (files_of files.now)) task.now (answer_of answer)) }
{
    let indexed = indexed_files(alloc, files)?;
    let layers = layers(alloc, indexed.as_slice())?;
    let answer = profile_by(alloc, task, layers.as_slice())?;
    Ok(answer)
}

// What the profile gets for its settings by layers, or why it gets nothing.
fn profile_by<'a>(
    alloc: Global,
    task: &ProfileTask,
    layers: &'a [Layer<'a>],
) -> Result<Answer, AllocError>
    ensures { IfOk result (λ answer. IsAnsweredBy layers.now task.now (answer_of answer)) }
{
    match EffectiveProfile::of(alloc, layers, task.name.as_str()) {
        Ok(profile) => {
            let answer = report_of(alloc, task, &profile)?;
            Ok(answer)
        }
        Err(fault) => {
            let said = fault_text(alloc, layers, task.name.as_str(), &fault)?;
            let answer = fault_answer(alloc, said)?;
            Ok(answer)
        }
    }
}

// What the profile gets.
fn report_of(
    alloc: Global,
    task: &ProfileTask,
    profile: &EffectiveProfile<'_>,
) -> Result<Answer, AllocError>
    ensures { IfOk result (λ answer. IsReported profile.now task.now (answer_of answer)) }
{
    let report = wanted_report(alloc, task, profile)?;
    let answer = report_answer(alloc, task.format, &report)?;
    Ok(answer)
}

// What is reported of a profile: of all keys, or of those alone that are asked for.
fn wanted_report<'p>(
    alloc: Global,
    task: &ProfileTask,
    profile: &'p EffectiveProfile<'p>,
) -> Result<ProfileReport<'p>, AllocError>
    ensures { IfOk result (IsWantedReport profile.now task.now) }
{
    let mut report = ProfileReport::of(alloc, profile, task.all)?;
    narrow(&mut report, task.keys.as_slice());
    Ok(report)
}

// Keeps of a report what is wanted, if anything is.
fn narrow(report: &mut ProfileReport<'_>, wanted: &[WantedKey])
    ensures { IsNarrowedIf (map path_of wanted.now) report.old report.new }
{
    match wanted {
        [] => {}
        [_, ..] => report.keep_only(wanted),
    }
}

// What is reported of a profile, as an answer.
fn report_answer(
    alloc: Global,
    format: ShowFormat,
    report: &ProfileReport<'_>,
) -> Result<Answer, AllocError>
    ensures { IfOk result (λ answer. IsReportWritten format report.now (answer_of answer)) }
{
    let text = Printed::in_show_format(format, profile_text(alloc, format, report)?);
    let said = Printed::ForPeople(other_profiles_text(alloc, report)?);
    let status = status_of(report);
    Ok(Answer { text, said, status })
}

// How the command ends: what nextest would refuse fails it.
fn status_of(report: &ProfileReport<'_>) -> ExitStatus
    ensures { result ≡ status_reported report.now }
{
    if report.has_fault() {
        return ExitStatus::Failure;
    }
    ExitStatus::Success
}

// The answer that says why the profile has no settings.
fn fault_answer(alloc: Global, fault: String) -> Result<Answer, AllocError>
    ensures { IfOk result (λ answer. answer_of answer
        ≡ says (for_people (string_bytes fault ++ codes "\n")) Refused) }
{
    let mut said = fault;
    said.push_str("\n")?;
    Ok(Answer::says(alloc, Printed::ForPeople(said), ExitStatus::Refused))
}

// Why the profile has no settings.
fn fault_text<'a>(
    alloc: Global,
    layers: &'a [Layer<'a>],
    name: &str,
    fault: &ProfileFault<'a>,
) -> Result<String, AllocError>
    requires { IsPlacedFault layers.now fault.now }
    ensures { IfOk result (λ text. MatchOption (profile_wrong fault.now) ⊥
        (λ wrong. IsWrongReported layers.now name.now wrong (string_bytes text))) }
{
    match fault {
        ProfileFault::NoProfile => no_profile_text(alloc, layers, name),
        ProfileFault::Ring { profile, place } => ring_text(alloc, place, profile.as_str()),
        ProfileFault::NotDefined { parent, place, .. } => {
            undefined_text(alloc, place, parent.as_str())
        }
        ProfileFault::NotText { place, .. } => {
            let said = no_text(alloc, place)?;
            format!(in alloc; "{}{said}", Front(place))
        }
        ProfileFault::Memory => Err(AllocError),
    }
}

// That there is no profile of the name, and which there are.
fn no_profile_text(alloc: Global, layers: &[Layer<'_>], name: &str) -> Result<String, AllocError>
    ensures { IfOk result (λ text. IsNoProfileReported layers.now name.now (string_bytes text)) }
{
    let names = profile_names(alloc, layers)?;
    let mut text = format!(in alloc; "no profile {}, there are ", QuotedText(name))?;
    push_names(&mut text, names.as_slice())?;
    text.push_str(path_hint(name))?;
    Ok(text)
}

// What is said of a name that is rather a path.
fn path_hint(name: &str) -> &'static str
    ensures { result.now ≡ path_hint name.now }
{
    if is_like_path(name) {
        "; NAME stands before PATH"
    } else {
        ""
    }
}

// Whether a name has a slash, or is that of a folder itself or of the one above.
fn is_like_path(name: &str) -> bool
    ensures { result ≡ is_like_path name.now }
{
    has_slash(name) || name == "." || name == ".."
}

fn has_slash(name: &str) -> bool
    ensures { result ≡ list_any (λ byte. byte == slash) name.now }
{
    name.bytes().any(|byte| byte == b'/')
}

// That a profile inherits from itself, where it does.
fn ring_text(
    alloc: Global,
    place: &Option<InheritsPlace<'_>>,
    profile: &str,
) -> Result<String, AllocError>
    ensures { IfOk result (λ text.
        string_bytes text ≡ front_text place.now ++ ring_text profile.now) }
{
    let (front, profile) = (Front(place), QuotedText(profile));
    format!(in alloc; "{front}the profile {profile} inherits from itself")
}

// That a profile inherits from one that there isn't, where it does.
fn undefined_text(
    alloc: Global,
    place: &Option<InheritsPlace<'_>>,
    parent: &str,
) -> Result<String, AllocError>
    ensures { IfOk result (λ text.
        string_bytes text ≡ front_text place.now ++ undefined_text parent.now) }
{
    let (front, parent) = (Front(place), QuotedText(parent));
    format!(in alloc; "{front}no file defines the profile {parent}")
}

// That what a profile has at `inherits` is no text.
fn no_text(alloc: Global, place: &Option<InheritsPlace<'_>>) -> Result<String, AllocError>
    ensures { IfOk result (λ text. string_bytes text ≡ no_text place.now) }
{
    match place {
        Some(place) => {
            let found = found_text(alloc, place.value)?;
            format!(in alloc; "invalid type: {found}, expected a string")
        }
        None => String::from_str(alloc, "expected a string"),
    }
}

/// Where it stands what a profile inherits from, before what is said of it; nothing where it stands
/// nowhere.
#[derive(Clone, Copy)]
struct Front<'a>(&'a Option<InheritsPlace<'a>>);

impl fmt::Display for Front<'_> {
    ghost output = { λ front. Some (front_text front.0.now) };

    fn fmt<W: fmt::Write>(&self, f: &mut fmt::Formatter<W>) -> fmt::Result {
        match self.0 {
            Some(place) => {
                let path = Escaped(Escapes::InLine, place.file.source.path.as_str());
                write!(f, "{path}{}: ", LineMark(place.span))
            }
            None => Ok(()),
        }
    }
}

/// The line where a range begins, behind a path.
#[derive(Clone, Copy)]
struct LineMark(Option<Span>);

impl fmt::Display for LineMark {
    ghost output = { λ mark. Some (line_text mark.0) };

    fn fmt<W: fmt::Write>(&self, f: &mut fmt::Formatter<W>) -> fmt::Result {
        match self.0 {
            Some(span) => write!(f, ":{}", span.begin.line),
            None => Ok(()),
        }
    }
}
