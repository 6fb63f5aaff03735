//! The words of the command line.

ghost use Rattle.std.specs.Prelude.{◌≡◌, ◌↔◌, ◌≢◌, ◌++◌, [], ◌∷◌, map, MatchResult, string_bytes};
ghost use Rattle.std.specs.IoError.{error_kind};
ghost use Rattle.semver.specs.Parse.{version_parts};
ghost use Rattle.nextest_config_check.specs.CommandLine.{AsksCheck, IsWordsFault, command_line_of, check_of, flags_of, words_fault_text, words_status};
ghost use Rattle.nextest_config_check.specs.declared.command_line.WordsFault.TheVariants.{Memory, Usage};

use nextest_config::nextest_version::Edition;
use nextest_config_report::exit_status::ExitStatus;
use nextest_config_report::streams::{NOT_VERSION, OUT_OF_MEMORY};
use semver::Version;
use std::alloc::{AllocError, Global};
use std::io::{self, ErrorKind};

const USAGE: &str = "usage: nextest_config_check CURRENT [--override] [--table-only]";

const OVERRIDE: &str = "--override";

const TABLE_ONLY: &str = "--table-only";

/// The check that the words of the command line ask for.
#[derive(Drop)]
pub(crate) struct Check {
    pub current: Version,
    pub override_version_check: bool,
    pub edition: Edition,
}

/// Why the words of the command line ask for no check.
#[derive(Clone, Copy)]
pub(crate) enum WordsFault<'a> {
    /// They aren't one word and flags in their order, or one of them is no text.
    Usage,
    /// This word is no version.
    NotVersion(&'a str),
    /// A request for memory was refused.
    Memory,
}

impl<'a> WordsFault<'a> {
    /// Why the words can't be read.
    pub fn of_read(error: &io::Error) -> Self
        ensures memory { (result ≡ Memory) ↔ (error_kind error.now ≡ ErrorKind.OutOfMemory) }
        ensures usage { result ≢ Memory → result ≡ Usage }
    {
        match error.kind() {
            ErrorKind::OutOfMemory => WordsFault::Memory,
            _ => WordsFault::Usage,
        }
    }

    /// What the program says of it, and the word that it is about: empty where it is about none.
    pub fn text(self) -> (&'static str, &'a str)
        ensures { result.0.now ++ result.1.now ≡ words_fault_text self.entry }
    {
        match self {
            WordsFault::Usage => (USAGE, ""),
            WordsFault::NotVersion(word) => (NOT_VERSION, word),
            WordsFault::Memory => (OUT_OF_MEMORY, ""),
        }
    }

    /// How the program ends after such a fault.
    pub fn status(self) -> ExitStatus
        ensures { result ≡ words_status self.entry }
    {
        match self {
            WordsFault::Usage | WordsFault::NotVersion(_) => ExitStatus::Refused,
            WordsFault::Memory => ExitStatus::NoOutcome,
        }
    }
}

/// The check that the words ask for.
pub(crate) fn parse_words<'a>(alloc: Global, words: &'a [String]) -> Result<Check, WordsFault<'a>>
    ensures { MatchResult result (AsksCheck (command_line_of words.now))
        (IsWordsFault (command_line_of words.now)) }
{
    let [current, flags @ ..] = words else {
        return Err(WordsFault::Usage);
    };
    match parse_flags(flags) {
        Some((override_version_check, edition)) => {
            parse_check(alloc, current, override_version_check, edition)
        }
        None => Err(WordsFault::Usage),
    }
}

// Whether the flags override the check, and the edition that they ask for.
fn parse_flags(flags: &[String]) -> Option<(bool, Edition)>
    ensures { result ≡ flags_of (map string_bytes flags.now) }
{
    match flags {
        [] => Some((false, Edition::ArrayAllowed)),
        [flag] => parse_flag(flag),
        [first, second] => {
            if first.as_str() == OVERRIDE && second.as_str() == TABLE_ONLY {
                Some((true, Edition::TableOnly))
            } else {
                None
            }
        }
        _ => None,
    }
}

// What a flag that stands alone asks for.
fn parse_flag(flag: &str) -> Option<(bool, Edition)>
    ensures { result ≡ flags_of (flag.now ∷ []) }
{
    match flag {
        OVERRIDE => Some((true, Edition::ArrayAllowed)),
        TABLE_ONLY => Some((false, Edition::TableOnly)),
        _ => None,
    }
}

// The check of the version that the word spells.
fn parse_check<'a>(
    alloc: Global,
    word: &'a str,
    override_version_check: bool,
    edition: Edition,
) -> Result<Check, WordsFault<'a>>
    ensures { let line = check_of word.now override_version_check edition
        (version_parts word.now) in
        MatchResult result (AsksCheck line) (IsWordsFault line) }
{
    match Version::parse(alloc, word) {
        Ok(current) => Ok(Check {
            current,
            override_version_check,
            edition,
        }),
        Err(error) if error == semver::Error::from(AllocError) => Err(WordsFault::Memory),
        Err(_) => Err(WordsFault::NotVersion(word)),
    }
}
