//! What is found in a configuration file.

ghost use Rattle.std.specs.Prelude.{◌≡◌, Some};
ghost use Rattle.std.specs.Fmt.{WritesOnOk};
ghost use Rattle.nextest_config_lint.specs.Code.{reported_code};
ghost use Rattle.nextest_config_lint.specs.Found.{kind_view};
ghost use Rattle.nextest_config_lint.specs.Finding.{finding_kind_text, finding_severity, finding_text, hint_text, scope_text, mistake_text, name_text};

use crate::code::{FindingCode, code_of_fault, code_of_name, code_of_text, code_of_undefined};
use crate::list_features::feature_of;
use nextest_config_elements::named::{NamedKind, ScriptKind};
use nextest_config_filters::TextFault;
use nextest_config_values::identifier::InvalidIdentifier;
use nextest_config_values::read::{FaultKind, QuotedText, QuotedTexts};
use std::collections::BTreeSet;
use std::fmt::{self, Display};
use toml_spans::{PathText, Step};

/// What is found at a path; the empty path is that of the whole file.
#[derive(Debug, PartialEq, Eq, Drop)]
pub struct Finding {
    pub path: Vec<Step>,
    pub kind: FindingKind,
}

/// What is found.
#[derive(Debug, PartialEq, Eq, Drop)]
pub enum FindingKind {
    /// The value of a setting is refused by its reader.
    Fault {
        fault: FaultKind,
        severity: FindingSeverity,
        hint: Option<Hint>,
    },
    /// A text breaks the syntax of its own that it has.
    Text(TextFault),
    /// The file of a tool names experimental features.
    ToolFeatures {
        features: BTreeSet<String>,
    },
    /// No experimental feature has this name.
    UnknownFeature {
        name: String,
        hint: Option<Hint>,
    },
    /// A table has a key that isn't known there.
    UnknownKey {
        key: String,
        hint: Option<Hint>,
    },
    /// No file of the list defines this test group or script.
    UndefinedName {
        kind: NamedKind,
        name: String,
        hint: Option<Hint>,
    },
    /// This is the name of a script of this kind, where one of the other kind is named.
    OtherScript {
        script: ScriptKind,
        name: String,
    },
    /// No file of the list defines this profile.
    UndefinedProfile {
        name: String,
        hint: Option<Hint>,
    },
    /// The profile `default` names one that it inherits from.
    DefaultInherits,
    /// The profile comes back to itself by what it inherits from.
    InheritsItself {
        profile: String,
    },
    /// An override doesn't say which tests it is for.
    OverrideOfAll,
    /// What a profile says of scripts doesn't say which tests it is for.
    ScriptOfAll,
    /// An override has a default filter beside a filter.
    DefaultFilterBeside,
    /// An override has a default filter and no platform.
    DefaultFilterAlone,
    /// The name of a profile is kept for nextest's own.
    ReservedProfile,
    /// The name of a test group or script is no identifier.
    NoName {
        kind: NamedKind,
        error: InvalidIdentifier,
    },
    /// The name of a test group or script in a tool's file lacks this mark of the tool.
    OutsideTool {
        kind: NamedKind,
        mark: String,
    },
    /// The name of a test group or script is marked as a tool's, in a file that isn't one's.
    NameOfTool(NamedKind),
    /// The file has a setup script of the same name as a wrapper script.
    SetupScriptToo {
        name: String,
    },
    /// No file enables the experimental feature that scripts of this kind need.
    FeatureNotEnabled(ScriptKind),
    /// A text is no duration here, and may be one for nextest.
    UnjudgedDuration,
    /// Features stand in an array; the table that enables those of them that are known.
    DeprecatedArray {
        table: String,
    },
    /// The file isn't UTF-8.
    NotUtf8,
    /// The file isn't a TOML document, with what `toml` says of it, and a mistake that is known.
    NotToml {
        message: String,
        mistake: Option<Mistake>,
    },
}

/// What may be meant by what stands at a path.
#[derive(Debug, PartialEq, Eq, Drop)]
pub enum Hint {
    /// A word, which prints in quotes.
    Word(String),
    /// A text that prints as TOML writes it.
    Toml(String),
    /// The key of the same name in another table.
    Belongs(Scope),
}

/// A mistake in a text that isn't a TOML document.
#[derive(Debug, PartialEq, Eq, Drop)]
pub enum Mistake {
    /// This key stands on this line already.
    Repeated { key: String, line: usize },
    /// A value may be meant for this word of TOML.
    Misspelt(String),
    /// A value may lack its quotes.
    Unquoted,
}

/// A table of a configuration file that knows keys.
#[derive(Clone, Copy, Debug, PartialEq, Eq)]
pub enum Scope {
    /// The whole file.
    Top,
    Profile,
    Override,
    /// `junit` of a profile or of an override.
    Junit,
}

/// How grave a finding is.
#[derive(Clone, Copy, Debug, PartialEq, Eq, PartialOrd, Ord)]
pub enum FindingSeverity {
    /// Something isn't judged here, or is to change one day.
    Note,
    /// A later nextest may know or take what isn't known or taken here.
    Warning,
    /// The file is refused.
    Error,
}

impl Finding {
    /// How grave the finding is.
    pub fn severity(&self) -> FindingSeverity
        ensures { result ≡ finding_severity self.now.kind }
    {
        match &self.kind {
            FindingKind::Fault { fault, .. } if fault.is_memory() => FindingSeverity::Error,
            FindingKind::Fault { severity, .. } => *severity,
            FindingKind::NoName {
                error: InvalidIdentifier::Memory,
                ..
            }
            | FindingKind::ToolFeatures { .. }
            | FindingKind::NotUtf8
            | FindingKind::NotToml { .. } => FindingSeverity::Error,
            FindingKind::Text(_)
            | FindingKind::UnknownFeature { .. }
            | FindingKind::UnknownKey { .. }
            | FindingKind::UndefinedName { .. }
            | FindingKind::OtherScript { .. }
            | FindingKind::UndefinedProfile { .. }
            | FindingKind::DefaultInherits
            | FindingKind::InheritsItself { .. }
            | FindingKind::OverrideOfAll
            | FindingKind::ScriptOfAll
            | FindingKind::DefaultFilterBeside
            | FindingKind::DefaultFilterAlone
            | FindingKind::ReservedProfile
            | FindingKind::NoName { .. }
            | FindingKind::OutsideTool { .. }
            | FindingKind::NameOfTool(_)
            | FindingKind::SetupScriptToo { .. }
            | FindingKind::FeatureNotEnabled(_) => FindingSeverity::Warning,
            FindingKind::UnjudgedDuration | FindingKind::DeprecatedArray { .. } => {
                FindingSeverity::Note
            }
        }
    }

    /// What kind of finding it is.
    pub fn code(&self) -> FindingCode
        ensures { result ≡ reported_code (kind_view self.now.kind) }
    {
        match &self.kind {
            FindingKind::Fault { fault, .. } => code_of_fault(fault),
            FindingKind::Text(fault) => code_of_text(fault.code()),
            FindingKind::ToolFeatures { .. } => FindingCode::ToolFeatures,
            FindingKind::UnknownFeature { .. } => FindingCode::UnknownFeature,
            FindingKind::UnknownKey { .. } => FindingCode::UnknownKey,
            FindingKind::UndefinedName { kind, .. } => code_of_undefined(*kind),
            FindingKind::OtherScript { .. } => FindingCode::UndefinedScript,
            FindingKind::UndefinedProfile { .. } => FindingCode::UndefinedProfile,
            FindingKind::DefaultInherits => FindingCode::DefaultInherits,
            FindingKind::InheritsItself { .. } => FindingCode::InheritsItself,
            FindingKind::OverrideOfAll | FindingKind::ScriptOfAll => FindingCode::OverrideOfAll,
            FindingKind::DefaultFilterBeside | FindingKind::DefaultFilterAlone => {
                FindingCode::OverrideDefaultFilter
            }
            FindingKind::ReservedProfile => FindingCode::ReservedProfile,
            FindingKind::NoName {
                error: InvalidIdentifier::Memory,
                ..
            } => FindingCode::InvalidValue,
            FindingKind::NoName { kind, .. }
            | FindingKind::OutsideTool { kind, .. }
            | FindingKind::NameOfTool(kind) => code_of_name(*kind),
            FindingKind::SetupScriptToo { .. } => FindingCode::ScriptName,
            FindingKind::FeatureNotEnabled(_) => FindingCode::FeatureNotEnabled,
            FindingKind::UnjudgedDuration => FindingCode::UnjudgedDuration,
            FindingKind::DeprecatedArray { .. } => FindingCode::DeprecatedArray,
            FindingKind::NotUtf8 => FindingCode::NotUtf8,
            FindingKind::NotToml { .. } => FindingCode::NotToml,
        }
    }
}

impl fmt::Display for Finding {
    ghost output = { λ finding. Some (finding_text finding) };

    fn fmt<W: fmt::Write>(&self, f: &mut fmt::Formatter<W>) -> fmt::Result {
        if !self.path.is_empty() {
            write!(f, "{}: ", PathText(self.path.as_slice()))?;
        }
        self.kind.fmt(f)
    }
}

impl fmt::Display for FindingKind {
    ghost output = { λ kind. Some (finding_kind_text kind) };

    fn fmt<W: fmt::Write>(&self, f: &mut fmt::Formatter<W>) -> fmt::Result {
        match self {
            FindingKind::Fault { fault, hint, .. } => {
                fault.fmt(f)?;
                write_hint(f, hint)
            }
            FindingKind::Text(fault) => fault.fmt(f),
            FindingKind::UnknownFeature { name, hint } => {
                write_name(f, "unknown feature ", name.as_str(), hint)
            }
            FindingKind::UnknownKey { key, hint } => {
                write_name(f, "unknown key ", key.as_str(), hint)
            }
            FindingKind::UndefinedName { kind, name, hint } => {
                write!(f, "no file defines the {}", kind.as_words())?;
                write_name(f, " ", name.as_str(), hint)
            }
            FindingKind::UndefinedProfile { name, hint } => {
                write_name(f, "no file defines the profile ", name.as_str(), hint)
            }
            FindingKind::NotToml { message, mistake } => {
                f.write_str(message.as_str())?;
                write_mistake(f, mistake)
            }
            FindingKind::DefaultInherits => f.write_str("the profile \"default\" can't inherit"),
            FindingKind::InheritsItself { profile } => write!(
                f,
                "the profile {} inherits from itself",
                QuotedText(profile.as_str())
            ),
            FindingKind::OverrideOfAll => {
                f.write_str("an override needs a \"filter\" or a \"platform\"")
            }
            FindingKind::ScriptOfAll => {
                f.write_str("a script needs a \"filter\" or a \"platform\"")
            }
            FindingKind::DefaultFilterBeside => f.write_str(
                "an override has a \"filter\" or a \"default-filter\", and not both",
            ),
            FindingKind::DefaultFilterAlone => {
                f.write_str("a \"default-filter\" needs a \"platform\"")
            }
            FindingKind::ReservedProfile => {
                f.write_str("profile names that begin with \"default-\" are reserved")
            }
            FindingKind::OtherScript { script, name } => {
                write!(
                    f,
                    "{} is a {}",
                    QuotedText(name.as_str()),
                    script.as_words()
                )
            }
            FindingKind::NoName { error, .. } => error.fmt(f),
            FindingKind::OutsideTool { kind, mark } => write!(
                f,
                "a tool's {} begin with {}",
                kind.as_plural(),
                QuotedText(mark.as_str())
            ),
            FindingKind::NameOfTool(kind) => {
                write!(f, "only a tool's {} begin with \"@\"", kind.as_plural())
            }
            FindingKind::SetupScriptToo { name } => {
                write!(f, "{} is a setup script, too", QuotedText(name.as_str()))
            }
            FindingKind::FeatureNotEnabled(script) => write!(
                f,
                "{}s need the experimental feature {}",
                script.as_words(),
                QuotedText(feature_of(*script).as_word())
            ),
            FindingKind::ToolFeatures { features } => write!(
                f,
                "experimental features in a tool configuration: {}",
                QuotedTexts(features)
            ),
            FindingKind::UnjudgedDuration => f.write_str(
                "not judged here: a duration other than whole numbers, each with a unit",
            ),
            FindingKind::DeprecatedArray { table } => {
                write!(f, "the array form is deprecated, use a table: {table}")
            }
            FindingKind::NotUtf8 => f.write_str("not UTF-8"),
        }
    }
}

// What is said of a name, and what it may be meant for.
fn write_name<W: fmt::Write>(
    f: &mut fmt::Formatter<W>,
    said: &str,
    name: &str,
    hint: &Option<Hint>,
) -> fmt::Result
    ensures { WritesOnOk W.write_str_gives f.old result (name_text said.now name.now hint.now)
        f.new }
{
    write!(f, "{said}{}", QuotedText(name))?;
    write_hint(f, hint)
}

// What may be meant.
fn write_hint<W: fmt::Write>(f: &mut fmt::Formatter<W>, hint: &Option<Hint>) -> fmt::Result
    ensures { WritesOnOk W.write_str_gives f.old result (hint_text hint.now) f.new }
{
    match hint {
        Some(Hint::Word(word)) => write!(f, ", did you mean {}", QuotedText(word.as_str())),
        Some(Hint::Toml(text)) => write!(f, ", did you mean {text}"),
        Some(Hint::Belongs(scope)) => write!(f, ", which belongs {}", scope.as_words()),
        None => Ok(()),
    }
}

// What is wrong in a text that isn't a document.
fn write_mistake<W: fmt::Write>(f: &mut fmt::Formatter<W>, mistake: &Option<Mistake>) -> fmt::Result
    ensures { WritesOnOk W.write_str_gives f.old result (mistake_text mistake.now) f.new }
{
    match mistake {
        Some(Mistake::Repeated { key, line }) => write!(
            f,
            ", {} stands on line {line} already",
            QuotedText(key.as_str())
        ),
        Some(Mistake::Misspelt(word)) => write!(f, ", did you mean {word}"),
        Some(Mistake::Unquoted) => f.write_str(", quotes missing?"),
        None => Ok(()),
    }
}

impl Scope {
    // Where that is, in words.
    fn as_words(self) -> &'static str
        ensures { result.now ≡ scope_text self }
    {
        match self {
            Scope::Top => "at the top of the file",
            Scope::Profile => "in a profile",
            Scope::Override => "in an override",
            Scope::Junit => "in junit",
        }
    }
}
