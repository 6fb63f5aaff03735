//! Explanations, and how they print.

ghost use Rattle.std.specs.Prelude.{◌≡◌, Some};
ghost use Rattle.std.specs.Fmt.{WritesOnOk};
ghost use Rattle.nextest_config_lint.specs.Explain.Explanation.{explanation_text, file_text, indented_text};

use crate::FindingCode;
use crate::explain::topic::Topic;
use crate::explain::{features, files, filters, references, retries, settings, versions};
use std::fmt;

/// What a topic means, with an example and that example mended.
#[derive(Clone, Copy, Debug, PartialEq, Eq)]
pub struct Explanation {
    /// What is explained.
    pub topic: Topic,
    /// What it means and why it matters, in lines of up to 80 characters.
    pub meaning: &'static str,
    /// Which file the example is.
    pub file: ExampleFile,
    /// The contents of a file in which this is found, and nothing else.
    pub example: &'static str,
    /// The contents of the example, changed so that nothing is found in them.
    pub mended: &'static str,
}

/// Which file an example is, and how it is read.
#[derive(Clone, Copy, Debug, PartialEq, Eq)]
pub enum ExampleFile {
    /// The repository's file.
    Repository,
    /// The repository's file, with each character in one byte; the mended one is UTF-8.
    RepositoryInLatin1,
    /// The repository's file, where only a table of experimental features is taken.
    RepositoryTableOnly,
    /// The repository's file, by which version 0.9.50 of nextest is judged.
    RepositoryChecked,
    /// The file of the tool `my-tool`.
    Tool,
}

impl Explanation {
    /// The explanation of a topic.
    pub fn of(topic: Topic) -> &'static Explanation
        ensures { result.now.topic ≡ topic }
    {
        match topic {
            Topic::Finding(code) => of_code(code),
            Topic::NextestVersion => &versions::NEXTEST_VERSION,
        }
    }
}

// The explanation of a code.
fn of_code(code: FindingCode) -> &'static Explanation
    ensures { result.now.topic ≡ Topic.Finding code }
{
    match code {
        FindingCode::NotUtf8 => &files::NOT_UTF8,
        FindingCode::NotToml => &files::NOT_TOML,
        FindingCode::InvalidType => &settings::INVALID_TYPE,
        FindingCode::InvalidValue => &settings::INVALID_VALUE,
        FindingCode::UnknownVariant => &settings::UNKNOWN_VARIANT,
        FindingCode::UnknownField => &retries::UNKNOWN_FIELD,
        FindingCode::MissingField => &settings::MISSING_FIELD,
        FindingCode::PreRelease => &versions::PRE_RELEASE,
        FindingCode::BuildMetadata => &versions::BUILD_METADATA,
        FindingCode::NotVersion => &versions::NOT_VERSION,
        FindingCode::RequiredAboveRecommended => &versions::REQUIRED_ABOVE_RECOMMENDED,
        FindingCode::JitterWithoutDelay => &retries::JITTER_WITHOUT_DELAY,
        FindingCode::CountZero => &retries::COUNT_ZERO,
        FindingCode::DelayZero => &retries::DELAY_ZERO,
        FindingCode::MaxDelayZero => &retries::MAX_DELAY_ZERO,
        FindingCode::MaxDelayBelowDelay => &retries::MAX_DELAY_BELOW_DELAY,
        FindingCode::Priority => &settings::PRIORITY,
        FindingCode::ArrayForm => &features::ARRAY_FORM,
        FindingCode::ToolFeatures => &features::TOOL_FEATURES,
        FindingCode::UnknownFeature => &features::UNKNOWN_FEATURE,
        FindingCode::UnknownKey => &files::UNKNOWN_KEY,
        FindingCode::UndefinedGroup => &references::UNDEFINED_GROUP,
        FindingCode::UndefinedProfile => &references::UNDEFINED_PROFILE,
        FindingCode::DefaultInherits => &references::DEFAULT_INHERITS,
        FindingCode::InheritsItself => &references::INHERITS_ITSELF,
        FindingCode::OverrideOfAll => &references::OVERRIDE_OF_ALL,
        FindingCode::ReservedProfile => &references::RESERVED_PROFILE,
        FindingCode::GroupName => &references::GROUP_NAME,
        FindingCode::UndefinedScript => &references::UNDEFINED_SCRIPT,
        FindingCode::ScriptName => &references::SCRIPT_NAME,
        FindingCode::FeatureNotEnabled => &references::FEATURE_NOT_ENABLED,
        FindingCode::OverrideDefaultFilter => &references::OVERRIDE_DEFAULT_FILTER,
        FindingCode::FilterSyntax => &filters::FILTER_SYNTAX,
        FindingCode::UnknownPredicate => &filters::UNKNOWN_PREDICATE,
        FindingCode::BannedPredicate => &filters::BANNED_PREDICATE,
        FindingCode::FilterArgument => &filters::FILTER_ARGUMENT,
        FindingCode::PlatformSyntax => &filters::PLATFORM_SYNTAX,
        FindingCode::PlatformWord => &filters::PLATFORM_WORD,
        FindingCode::UnjudgedDuration => &settings::UNJUDGED_DURATION,
        FindingCode::DeprecatedArray => &features::DEPRECATED_ARRAY,
    }
}

/// Prints lines for a terminal, the last with its line feed.
impl fmt::Display for Explanation {
    ghost output = { λ explanation. Some (explanation_text explanation) };

    fn fmt<W: fmt::Write>(&self, f: &mut fmt::Formatter<W>) -> fmt::Result {
        write!(
            f,
            "{}\n\nExample: {}\n\n{}\nMended:\n\n{}",
            self.meaning,
            self.file,
            Indented(self.example),
            Indented(self.mended)
        )
    }
}

/// Prints where the file is, and the option that the example needs.
impl fmt::Display for ExampleFile {
    ghost output = { λ file. Some (file_text file) };

    fn fmt<W: fmt::Write>(&self, f: &mut fmt::Formatter<W>) -> fmt::Result {
        f.write_str(match self {
            ExampleFile::Repository => ".config/nextest.toml",
            ExampleFile::RepositoryInLatin1 => {
                ".config/nextest.toml, saved as Latin-1, and mended as UTF-8"
            }
            ExampleFile::RepositoryTableOnly => ".config/nextest.toml, with --table-only",
            ExampleFile::RepositoryChecked => ".config/nextest.toml, with check --current 0.9.50",
            ExampleFile::Tool => "/path/tool.toml of the tool my-tool",
        })
    }
}

// A text whose lines print indented, each with its line feed.
#[derive(Clone, Copy)]
struct Indented<'a>(&'a str);

impl fmt::Display for Indented<'_> {
    ghost output = { λ text. Some (indented_text text.0.now) };

    fn fmt<W: fmt::Write>(&self, f: &mut fmt::Formatter<W>) -> fmt::Result {
        write_indented(f, self.0)
    }
}

fn write_indented<W: fmt::Write>(f: &mut fmt::Formatter<W>, text: &str) -> fmt::Result
    ensures { WritesOnOk W.write_str_gives f.old result (indented_text text.now) f.new }
{
    for line in text.lines() {
        writeln!(f, "    {line}")?;
    }
    Ok(())
}
