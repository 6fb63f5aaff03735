//! What the words of the command line ask for.

ghost use Rattle.std.specs.Prelude.{IfOk};
ghost use Rattle.clap.specs.Matches.{found_of};
ghost use Rattle.nextest_config_cli.specs.Matches.{AreArguments, IsAskedBy};

use crate::arguments::{Arguments, Explained, explained_by, request};
use crate::command_line::{
    ALL, ALLOW, CONFIG_FILE, CURRENT, DEFAULT_PATH, EXPLAIN, FORMAT, KEY, NAME, OVERRIDE, PATH,
    SCHEMA, STDIN_PATH, STRICT, TABLE_ONLY, TOOL_CONFIG_FILE, TOPIC, command,
};
use crate::file_system::current_folder;
use crate::usage_error::UsageError;
use clap::ArgMatches;
use nextest_config_command::{Request, Words};
use nextest_config_values::literal::Shown;
use std::alloc::{AllocError, Global};
use std::io;

/// What the words ask for.
#[derive(Drop)]
pub(crate) enum Usage {
    Request(Request),
    Explanation(Explained),
    /// The schema of a configuration file.
    Schema,
}

/// What the words ask for, the first of which is the program's name.
pub(crate) fn parse<'a>(rt: &HostRuntime, words: &'a [String]) -> Result<Usage, UsageError<'a>> {
    let matches = matches(rt.alloc(), words)?;
    match matches.subcommand() {
        Some((EXPLAIN, matches)) => {
            let explained = explained_by(rt.alloc(), matches.get_str(TOPIC))?;
            Ok(Usage::Explanation(explained))
        }
        Some((SCHEMA, _)) => Ok(Usage::Schema),
        Some((name, matches)) => Ok(Usage::Request(request_of(rt, name, matches)?)),
        None => Err(UsageError::Words("no subcommand is named")),
    }
}

// What `clap` takes of the words. It repeats words as they are, so where it refuses them, what it
// says of them as they are shown counts.
fn matches<'a>(alloc: Global, words: &'a [String]) -> Result<ArgMatches<'a>, UsageError<'a>> {
    match command(alloc)?.try_get_matches_from(words) {
        Ok(matches) => Ok(matches),
        Err(error) => {
            let shown = shown(alloc, words)?;
            command(alloc)?.try_get_matches_from(shown.as_slice())?;
            Err(UsageError::from(error))
        }
    }
}

// The words, each as it is shown.
fn shown(alloc: Global, words: &[String]) -> Result<Vec<String>, AllocError> {
    let mut shown = Vec::new(alloc);
    for word in words {
        shown.push(Shown(word.as_str()).to_string(alloc)?)?;
    }
    Ok(shown)
}

// The request of a subcommand's words. Words that are wrong come before a current folder that isn't
// there.
fn request_of<'a>(
    rt: &HostRuntime,
    subcommand: &'a str,
    matches: &ArgMatches<'a>,
) -> Result<Request, UsageError<'a>>
    ensures { IfOk result (IsAskedBy subcommand.now (found_of matches.now)) }
{
    match start(rt, matches) {
        Ok(folder) => request(
            rt.alloc(),
            &arguments_of(subcommand, matches, folder.as_str()),
        ),
        Err(error) => match request(rt.alloc(), &arguments_of(subcommand, matches, "")) {
            Ok(_) => Err(UsageError::of_current_folder(error)),
            Err(refusal) => Err(refusal),
        },
    }
}

// What `clap` took of a subcommand's words.
fn arguments_of<'m, 'a>(
    subcommand: &'a str,
    matches: &'m ArgMatches<'a>,
    current_folder: &'m str,
) -> Arguments<'m, 'a>
    ensures { AreArguments subcommand.now (found_of matches.now) result }
{
    Arguments {
        subcommand,
        current: matches.get_str(CURRENT),
        overridden: matches.get_flag(OVERRIDE),
        strict: matches.get_flag(STRICT),
        allowed: matches.get_strs(ALLOW).unwrap_or(&[]),
        format: matches.get_str(FORMAT),
        profile: matches.get_str(NAME),
        all: matches.get_flag(ALL),
        keys: matches.get_strs(KEY).unwrap_or(&[]),
        table_only: matches.get_flag(TABLE_ONLY),
        tools: matches.get_strs(TOOL_CONFIG_FILE).unwrap_or(&[]),
        files: Words {
            config_file: matches.get_str(CONFIG_FILE),
            paths: matches.get_strs(PATH).unwrap_or(&[]),
            stdin_path: matches.get_str(STDIN_PATH),
            default_path: matches.get_str(DEFAULT_PATH),
            current_folder,
        },
    }
}

// Where the search for the nearest file starts. The system is asked only where the words leave it
// to a search.
fn start(rt: &HostRuntime, matches: &ArgMatches<'_>) -> io::Result<String> {
    let names_file = [CONFIG_FILE, PATH, DEFAULT_PATH]
        .iter()
        .any(|id| matches.contains_id(id));
    if names_file {
        return Ok(String::new(rt.alloc()));
    }
    current_folder(rt)
}
