//! What the command answers about files that were read.

ghost use Rattle.std.specs.Prelude.{◌≡◌, IfOk, string_bytes};
ghost use Rattle.nextest_config.specs.NextestVersion.{configuration_of, verdict_of};
ghost use Rattle.nextest_config_command.specs.Answer.{answer_of, check_judging, fails, IsChecked, IsCheckWith, IsLinted, IsShown, IsTextShown, says, shown_refusal, status_checked, status_found, warns, writes};
ghost use Rattle.nextest_config_command.specs.Done.{IsAnswer};
ghost use Rattle.nextest_config_command.specs.FileList.{AreDocuments, IsListedAs};
ghost use Rattle.nextest_config_command.specs.Found.{all_files, files_of};
ghost use Rattle.nextest_config_command.specs.Lint.{IsLint};
ghost use Rattle.nextest_config_command.specs.Printed.{text_of};

use crate::file_findings::LintRules;
use crate::file_list::configuration_of_files;
use crate::layers::{indexed_files, layers};
use crate::lint::Lint;
use crate::parsed_file::ParsedFiles;
use crate::printed::Printed;
use crate::profile::profile;
use crate::request::{CheckTask, LintOptions, Task};
use crate::verdict::verdict_text;
use nextest_config::nextest_version::{Edition, NextestVersionEval, VersionOnlyConfig};
use nextest_config_output::findings::Format;
use nextest_config_profiles::profile_names;
use nextest_config_report::exit_status::ExitStatus;
use nextest_config_report::show::{ShowFormat, show_text};
use std::alloc::{AllocError, Global};

/// What the command answers: what it writes, what it says on the second stream, and the status that
/// it ends with.
#[derive(Drop)]
pub(crate) struct Answer {
    pub text: Printed,
    pub said: Printed,
    pub status: ExitStatus,
}

impl Answer {
    // The answer that writes this, and says nothing.
    fn writes(alloc: Global, text: Printed, status: ExitStatus) -> Self
        ensures { answer_of result ≡ writes (text_of text) status }
    {
        let said = Printed::ForPeople(String::new(alloc));
        Answer { text, said, status }
    }

    /// The answer that says this, and writes nothing.
    pub fn says(alloc: Global, said: Printed, status: ExitStatus) -> Self
        ensures { answer_of result ≡ says (text_of said) status }
    {
        let text = Printed::ForPeople(String::new(alloc));
        Answer { text, said, status }
    }
}

/// What does a task: with these files, read under the edition.
#[derive(Clone, Copy)]
pub(crate) struct Engine<'a> {
    pub alloc: Global,
    pub edition: Edition,
    pub files: &'a ParsedFiles<'a>,
}

impl Engine<'_> {
    /// The answer to the task.
    pub fn answer_to(&self, task: &Task) -> Result<Answer, AllocError>
        ensures { IfOk result (IsAnswer self.now.edition task.now (files_of self.now.files.now)) }
    {
        match task {
            Task::Check(task) => self.check(task),
            Task::Lint(options) => self.lint(options),
            Task::Profile(task) => profile(self.alloc, self.edition, task, self.files),
            Task::Show(format) => self.show(*format),
        }
    }

    // What is found in the files.
    fn lint(&self, options: &LintOptions) -> Result<Answer, AllocError>
        ensures { IfOk result (λ answer. IsLinted self.now.edition options.now
            (files_of self.now.files.now) (answer_of answer)) }
    {
        let rules = LintRules {
            edition: self.edition,
            allowed: options.allowed.as_slice(),
            tells_refusals: false,
        };
        let lint = Lint::of(self.alloc, rules, options.format, self.files)?;
        let status = status_found(options.strict, self.files, lint.status(options.strict));
        let text = Printed::in_format(options.format, lint.text);
        Ok(Answer::writes(self.alloc, text, status))
    }

    // The current version, checked against what the files ask.
    fn check(&self, check: &CheckTask) -> Result<Answer, AllocError>
        ensures { IfOk result (λ answer. IsChecked self.now.edition
            (files_of self.now.files.now) check.now (answer_of answer)) }
    {
        match configuration_of_files(self.alloc, self.edition, self.files)? {
            Some(config) => self.check_listed(check, &config),
            None => {
                let lint = self.check_lint(&check.lint)?;
                let text = Printed::in_format(check.lint.format, lint.text);
                Ok(Answer::writes(self.alloc, text, ExitStatus::Refused))
            }
        }
    }

    // What is reported of files that are checked.
    fn check_lint(&self, options: &LintOptions) -> Result<Lint, AllocError>
        ensures { IfOk result (IsLint (check_judging self.now.edition options.now)
            options.now.format (files_of self.now.files.now)) }
    {
        let rules = LintRules {
            edition: self.edition,
            allowed: options.allowed.as_slice(),
            tells_refusals: true,
        };
        let lint = Lint::of(self.alloc, rules, options.format, self.files)?;
        Ok(lint)
    }

    // The current version, checked against the configuration that stands for the files.
    fn check_listed(
        &self,
        check: &CheckTask,
        config: &VersionOnlyConfig,
    ) -> Result<Answer, AllocError>
        requires { IsListedAs self.now.edition (all_files (files_of self.now.files.now))
            (configuration_of config.now) }
        ensures { IfOk result (λ answer. IsChecked self.now.edition
            (files_of self.now.files.now) check.now (answer_of answer)) }
    {
        let kept = config.nextest_version();
        let eval = kept.eval(self.alloc, &check.current, check.override_version_check)?;
        let front = verdict_text(self.alloc, check, self.files, &eval, config.experimental())?;
        self.check_with(check, &eval, front)
    }

    // The verdict, and what is found in the files, unless the verdict is an error.
    fn check_with(
        &self,
        check: &CheckTask,
        eval: &NextestVersionEval,
        front: String,
    ) -> Result<Answer, AllocError>
        ensures { IfOk result (IsCheckWith self.now.edition (files_of self.now.files.now) check.now
            (verdict_of eval.now) (string_bytes front)) }
    {
        let format = check.lint.format;
        if fails(eval) {
            let text = Printed::in_format(format, front);
            return Ok(Answer::writes(self.alloc, text, ExitStatus::Failure));
        }
        let lint = self.check_lint(&check.lint)?;
        let mut text = front;
        text.push_str(lint.text.as_str())?;
        let strict = check.lint.strict;
        let status = status_found(strict, self.files, status_checked(strict, eval, &lint));
        Ok(Answer::writes(self.alloc, Printed::in_format(format, text), status))
    }

    // What the files ask.
    fn show(&self, format: ShowFormat) -> Result<Answer, AllocError>
        ensures { IfOk result (λ answer. IsShown self.now.edition
            (files_of self.now.files.now) format (answer_of answer)) }
    {
        match configuration_of_files(self.alloc, self.edition, self.files)? {
            Some(config) => {
                let text = self.shown_text(format, &config)?;
                let text = Printed::in_show_format(format, text);
                Ok(Answer::writes(self.alloc, text, ExitStatus::Success))
            }
            None => {
                let rules = LintRules {
                    edition: self.edition,
                    allowed: &[],
                    tells_refusals: true,
                };
                let lint = Lint::of(self.alloc, rules, Format::Human, self.files)?;
                Ok(show_refusal(self.alloc, format, lint.text))
            }
        }
    }

    // What is shown of files, each of which is a document, and for which this configuration stands.
    fn shown_text(
        &self,
        format: ShowFormat,
        config: &VersionOnlyConfig,
    ) -> Result<String, AllocError>
        requires { AreDocuments (all_files (files_of self.now.files.now)) }
        ensures { IfOk result (λ text. IsTextShown format (all_files (files_of self.now.files.now))
            (configuration_of config.now) (string_bytes text)) }
    {
        let indexed = indexed_files(self.alloc, self.files)?;
        let layers = layers(self.alloc, indexed.as_slice())?;
        let profiles = profile_names(self.alloc, layers.as_slice())?;
        let text = show_text(self.alloc, format, config, profiles.as_slice())?;
        Ok(text)
    }
}

// The status of what is found in files: there is none where one can't be read, and a strict check
// of what passes fails where a file that is looked for is missing.
fn status_found(strict: bool, files: &ParsedFiles<'_>, status: ExitStatus) -> ExitStatus
    ensures { result ≡ status_found strict (files_of files.now) status }
{
    if files.is_partial {
        return ExitStatus::NoOutcome;
    }
    match status {
        ExitStatus::Success if strict && !files.notices.is_empty() => ExitStatus::Failure,
        status => status,
    }
}

// How a check ends whose verdict doesn't fail.
fn status_checked(strict: bool, eval: &NextestVersionEval, lint: &Lint) -> ExitStatus
    ensures { result ≡ status_checked strict (verdict_of eval.now) lint.now.summary }
{
    if strict && warns(eval) {
        return ExitStatus::Failure;
    }
    lint.status(strict)
}

// Whether the verdict is an error, and the check isn't overridden.
fn fails(eval: &NextestVersionEval) -> bool
    ensures { result ≡ fails (verdict_of eval.now) }
{
    matches!(eval, NextestVersionEval::Error { .. })
}

// Whether the verdict is a warning, and the check isn't overridden.
fn warns(eval: &NextestVersionEval) -> bool
    ensures { result ≡ warns (verdict_of eval.now) }
{
    matches!(eval, NextestVersionEval::Warn { .. })
}

// What is reported of the files of a list that is refused: on the second stream, where JSON is
// wanted.
fn show_refusal(alloc: Global, format: ShowFormat, text: String) -> Answer
    ensures { answer_of result ≡ shown_refusal format (string_bytes text) }
{
    match format {
        ShowFormat::Human => Answer::writes(alloc, Printed::ForPeople(text), ExitStatus::Refused),
        ShowFormat::Json => Answer::says(alloc, Printed::ForPeople(text), ExitStatus::Refused),
    }
}
