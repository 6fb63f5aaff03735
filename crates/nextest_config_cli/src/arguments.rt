//! What the words of a command line ask for, once `clap` has taken them.

ghost use Rattle.std.specs.Prelude.{◌≡◌, ◌≢◌, IfErr, IfOk, map, MatchOption, MatchResult, Some};
ghost use Rattle.std.specs.List.{AllZip};
ghost use Rattle.nextest_config_command.specs.Words.{text};
ghost use Rattle.nextest_config_lint.specs.Code.{code_word};
ghost use Rattle.nextest_config_cli.specs.Arguments.{Asks, AsksCheck, AsksExplained, AsksLint, AsksProfile, AsksTask, edition_of, IsExplainedRefused, IsKey, IsKeyAsked, IsNoKeyAsked, IsRefused, IsTool, RefusesKey, texts};

use crate::command_line::{CHECK, LINT, PROFILE, SHOW};
use crate::usage_error::UsageError;
use nextest_config::nextest_version::Edition;
use nextest_config_command::{
    CheckTask, FindingCode, LintOptions, ProfileTask, Request, Task, Words,
};
use nextest_config_lint::explain::{KeyExplanation, Topic, nearest_topic_or_key};
use nextest_config_profiles::report::WantedKey;
use nextest_config_values::read::Word;
use nextest_config_values::tool_config::ToolConfigFile;
use semver::Version;
use std::alloc::{AllocError, Global};

/// What `clap` took of a subcommand that reads files, and of its words. What it takes of other
/// subcommands alone is absent, or false.
#[derive(Clone, Copy)]
pub(crate) struct Arguments<'m, 'a> {
    pub subcommand: &'a str,
    pub current: Option<&'a str>,
    pub overridden: bool,
    pub strict: bool,
    pub allowed: &'m [&'a str],
    pub format: Option<&'a str>,
    pub profile: Option<&'a str>,
    pub all: bool,
    pub keys: &'m [&'a str],
    pub table_only: bool,
    pub tools: &'m [&'a str],
    pub files: Words<'m>,
}

/// The request that is asked for, or why there is none.
pub(crate) fn request<'a>(
    alloc: Global,
    arguments: &Arguments<'_, 'a>,
) -> Result<Request, UsageError<'a>>
    ensures asked { IfOk result (Asks arguments.now) }
    ensures refused { IfErr result (IsRefused (Asks arguments.now) arguments.now) }
{
    let task = task(alloc, arguments)?;
    let tools = tools(alloc, arguments)?;
    if let Some(misuse) = arguments.files.misuse() {
        return Err(UsageError::Words(misuse.as_str()));
    }
    let repository = arguments.files.repository_files(alloc)?;
    Ok(Request {
        tools,
        repository,
        edition: edition(arguments.table_only),
        task,
    })
}

// Which form `experimental` may have.
fn edition(table_only: bool) -> Edition
    ensures { result ≡ edition_of table_only }
{
    if table_only {
        Edition::TableOnly
    } else {
        Edition::ArrayAllowed
    }
}

// What is done with the files.
fn task<'a>(alloc: Global, arguments: &Arguments<'_, 'a>) -> Result<Task, UsageError<'a>>
    ensures asked { IfOk result (AsksTask arguments.now) }
    ensures refused { IfErr result (IsRefused (AsksTask arguments.now) arguments.now) }
{
    match arguments.subcommand {
        CHECK => Ok(Task::Check(check(alloc, arguments)?)),
        LINT => Ok(Task::Lint(lint_options(alloc, arguments)?)),
        PROFILE => Ok(Task::Profile(profile(alloc, arguments)?)),
        SHOW => match value_of(arguments.format) {
            Some(format) => Ok(Task::Show(format)),
            None => Err(UsageError::Words("no format is named")),
        },
        _ => Err(UsageError::Words("the subcommand isn't known")),
    }
}

fn check<'a>(alloc: Global, arguments: &Arguments<'_, 'a>) -> Result<CheckTask, UsageError<'a>>
    ensures asked { IfOk result (AsksCheck arguments.now) }
    ensures refused { IfErr result (IsRefused (AsksCheck arguments.now) arguments.now) }
{
    let lint = lint_options(alloc, arguments)?;
    let Some(word) = arguments.current else {
        return Err(UsageError::Words("no current version is given"));
    };
    match Version::parse(alloc, word) {
        Ok(current) => Ok(CheckTask {
            current,
            override_version_check: arguments.overridden,
            lint,
        }),
        Err(error) if error == semver::Error::from(AllocError) => Err(UsageError::Memory),
        Err(_) => Err(UsageError::NotVersion(word)),
    }
}

// How findings are reported, and which count.
fn lint_options<'a>(
    alloc: Global,
    arguments: &Arguments<'_, 'a>,
) -> Result<LintOptions, UsageError<'a>>
    ensures asked { IfOk result (AsksLint arguments.now) }
    ensures refused { IfErr result (IsRefused (AsksLint arguments.now) arguments.now) }
{
    let Some(format) = value_of(arguments.format) else {
        return Err(UsageError::Words("no format is named"));
    };
    Ok(LintOptions {
        format,
        strict: arguments.strict,
        allowed: codes(alloc, arguments)?,
    })
}

// The codes of findings that are left out.
fn codes<'a>(
    alloc: Global,
    arguments: &Arguments<'_, 'a>,
) -> Result<Vec<FindingCode>, UsageError<'a>>
    ensures codes { IfOk result (λ codes.
        map code_word codes.items ≡ texts arguments.now.allowed.now) }
    ensures refused { IfErr result (IsRefused (AsksLint arguments.now) arguments.now) }
{
    let mut codes = Vec::new(alloc);
    for &word in arguments.allowed {
        let Some(code) = value_of(Some(word)) else {
            return Err(UsageError::NotCode(word));
        };
        let Ok(()) = codes.push(code) else {
            return Err(UsageError::Memory);
        };
    }
    Ok(codes)
}

fn profile<'a>(alloc: Global, arguments: &Arguments<'_, 'a>) -> Result<ProfileTask, UsageError<'a>>
    ensures asked { IfOk result (AsksProfile arguments.now) }
    ensures refused { IfErr result (IsRefused (AsksProfile arguments.now) arguments.now) }
{
    let Some(format) = value_of(arguments.format) else {
        return Err(UsageError::Words("no format is named"));
    };
    let Some(name) = arguments.profile else {
        return Err(UsageError::Words("no profile is named"));
    };
    Ok(ProfileTask {
        name: String::from_str(alloc, name)?,
        all: arguments.all,
        keys: wanted_keys(alloc, arguments)?,
        format,
    })
}

// The keys of a profile that alone are reported.
fn wanted_keys<'a>(
    alloc: Global,
    arguments: &Arguments<'_, 'a>,
) -> Result<Vec<WantedKey>, UsageError<'a>>
    ensures keys { IfOk result (λ keys. AllZip IsKey (texts arguments.now.keys.now) keys.items) }
    ensures refused { IfErr result (IsRefused (AsksProfile arguments.now) arguments.now) }
{
    let mut keys = Vec::new(alloc);
    for word in arguments.keys {
        let key = wanted_key(alloc, word)?;
        let Ok(()) = keys.push(key) else {
            return Err(UsageError::Memory);
        };
    }
    Ok(keys)
}

// The key that a word names, or that there is none.
fn wanted_key<'a>(alloc: Global, word: &'a str) -> Result<WantedKey, UsageError<'a>>
    ensures { MatchResult result (IsKey word.now) (RefusesKey word.now) }
{
    match WantedKey::from_path(alloc, word)? {
        Some(key) => Ok(key),
        None => Err(UsageError::NotKey(word, WantedKey::nearest(alloc, word)?)),
    }
}

// The files of tools.
fn tools<'a>(
    alloc: Global,
    arguments: &Arguments<'_, 'a>,
) -> Result<Vec<ToolConfigFile>, UsageError<'a>>
    ensures tools { IfOk result (λ tools.
        AllZip IsTool (texts arguments.now.tools.now) tools.items) }
    ensures refused { IfErr result (IsRefused (Asks arguments.now) arguments.now) }
{
    let mut tools = Vec::new(alloc);
    for word in arguments.tools {
        let tool = ToolConfigFile::from_str(alloc, word)?;
        let Ok(()) = tools.push(tool) else {
            return Err(UsageError::Memory);
        };
    }
    Ok(tools)
}

// The value of a word, if there is a word and it has one.
fn value_of<T: Word>(word: Option<&str>) -> Option<T>
    ensures { MatchOption result ((x : T) → text word.entry ≢ Some (T.word x))
        (λ x. text word.entry ≡ Some (T.word x)) }
{
    match word {
        Some(word) => value_with(word),
        None => None,
    }
}

fn value_with<T: Word>(word: &str) -> Option<T>
    ensures { MatchOption result ((x : T) → T.word x ≢ word.now) (λ x. T.word x ≡ word.now) }
{
    T::all()
        .iter()
        .copied()
        .find(|value| value.as_word() == word)
}

/// What is explained.
#[derive(Clone, Copy)]
pub(crate) enum Explained {
    /// All topics, in a list.
    All,
    Topic(Topic),
    Key(KeyExplanation),
}

/// What an explanation is asked of, or why it is of nothing.
pub(crate) fn explained_by<'a>(
    alloc: Global,
    word: Option<&'a str>,
) -> Result<Explained, UsageError<'a>>
    ensures { MatchResult result (AsksExplained (text word.entry))
        (IsExplainedRefused (text word.entry)) }
{
    let Some(word) = word else {
        return Ok(Explained::All);
    };
    match Topic::from_word(word) {
        Some(topic) => Ok(Explained::Topic(topic)),
        None => explained_key(alloc, word),
    }
}

// The key to which a word leads that is no topic, or that there is none.
fn explained_key<'a>(alloc: Global, word: &'a str) -> Result<Explained, UsageError<'a>>
    ensures { MatchResult result (IsKeyAsked word.now) (IsNoKeyAsked word.now) }
{
    match KeyExplanation::of(alloc, word)? {
        Some(key) => Ok(Explained::Key(key)),
        None => Err(UsageError::NotTopic(word, nearest_topic_or_key(alloc, word)?)),
    }
}
