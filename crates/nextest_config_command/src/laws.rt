//! Laws of the definitions, for every value. They call nothing.

ghost use Rattle.std.specs.Prelude.{◌≡◌, ◌↔◌, [], false};
ghost use Rattle.std.specs.List.{AllByRecursion};
ghost use Rattle.nextest_config.specs.declared.nextest_version.edition.Edition.{Edition};
ghost use Rattle.nextest_config_command.specs.Answer.{AnswerView, IsLinted};
ghost use Rattle.nextest_config_command.specs.FileFindings.{HasNoError};
ghost use Rattle.nextest_config_command.specs.Found.{all_files, FilesRead};
ghost use Rattle.nextest_config_command.specs.declared.request.LintOptions.{LintOptions};
ghost use Rattle.nextest_config_report.specs.ExitStatus.{exit_code};

/// A lint of files that isn't strict, and leaves no code out, ends with the number 0 exactly where
/// each of them could be read, is UTF-8 and is a document without an error.
pub fn law_lint_status()
    ensures { (edition : Edition) (options : LintOptions) (files : FilesRead) (answer : AnswerView)
        → options.strict ≡ false → options.allowed.items ≡ []
        → IsLinted edition options files answer
        → (exit_code answer.status ≡ 0) ↔ ((files.is_partial ≡ false)
        × AllByRecursion (HasNoError edition) (all_files files)) }
{}
