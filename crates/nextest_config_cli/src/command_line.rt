//! The command line that `clap` reads.

use clap::{Arg, ArgAction, Command};
use nextest_config_command::{FindingCode, Format, ShowFormat};
use nextest_config_values::read::Word;
use std::alloc::{AllocError, Global};

// The version of this project, and that of the crate that is ported.
const VERSION: &str = "0.1.0 (nextest-runner 0.129.0)";

// The subcommands, and the names of what they take.
pub(crate) const CHECK: &str = "check";

pub(crate) const LINT: &str = "lint";

pub(crate) const SHOW: &str = "show";

pub(crate) const PROFILE: &str = "profile";

pub(crate) const EXPLAIN: &str = "explain";

pub(crate) const SCHEMA: &str = "schema";

pub(crate) const CURRENT: &str = "current";

pub(crate) const OVERRIDE: &str = "override";

pub(crate) const STRICT: &str = "strict";

pub(crate) const ALLOW: &str = "allow";

pub(crate) const FORMAT: &str = "format";

pub(crate) const ALL: &str = "all";

pub(crate) const KEY: &str = "key";

pub(crate) const TABLE_ONLY: &str = "table-only";

pub(crate) const CONFIG_FILE: &str = "config-file";

pub(crate) const TOOL_CONFIG_FILE: &str = "tool-config-file";

pub(crate) const STDIN_PATH: &str = "stdin-path";

pub(crate) const DEFAULT_PATH: &str = "default-path";

pub(crate) const NAME: &str = "NAME";

pub(crate) const PATH: &str = "PATH";

pub(crate) const TOPIC: &str = "TOPIC";

/// The command with its subcommands.
pub(crate) fn command<'a>(alloc: Global) -> Result<Command<'a>, AllocError> {
    Command::new(alloc, "nextest-config")
        .about("Says what configuration files of nextest ask, and what is wrong in them")
        .version(VERSION)
        .subcommand_required(true)
        .arg_required_else_help(true)
        .subcommand(check_command(alloc)?)?
        .subcommand(lint_command(alloc)?)?
        .subcommand(show_command(alloc)?)?
        .subcommand(profile_command(alloc)?)?
        .subcommand(explain_command(alloc)?)?
        .subcommand(schema_command(alloc)?)
}

fn check_command<'a>(alloc: Global) -> Result<Command<'a>, AllocError> {
    let current = value(alloc, CURRENT, "VERSION", "The current version of nextest").required(true);
    let command = Command::new(alloc, CHECK)
        .about("Says whether the current version is enough, and what is wrong in the files")
        .arg(current)?
        .arg(flag(alloc, OVERRIDE, "Pass where the version isn't enough, too")?)?;
    with_list(alloc, with_lint(alloc, command)?, path(alloc))
}

fn lint_command<'a>(alloc: Global) -> Result<Command<'a>, AllocError> {
    let command = Command::new(alloc, LINT).about(
        "Tells all that is wrong in the files, each with its place",
    );
    let command = with_lint(alloc, command)?;
    with_list(alloc, command, path(alloc).action(ArgAction::Append))
}

fn show_command<'a>(alloc: Global) -> Result<Command<'a>, AllocError> {
    let about = "Shows which versions and which experimental features the files ask for, and which \
         profiles there are";
    let command = Command::new(alloc, SHOW)
        .about(about)
        .arg(show_format(alloc))?;
    with_list(alloc, command, path(alloc))
}

fn profile_command<'a>(alloc: Global) -> Result<Command<'a>, AllocError> {
    let name = Arg::new(alloc, NAME)
        .help("The profile")
        .default_value("default");
    let key = value(
        alloc,
        KEY,
        "KEY",
        "Show this key alone, by its path below the profile",
    )
    .action(ArgAction::Append);
    let command = Command::new(alloc, PROFILE)
        .about("Shows what a profile gets for its settings, and which file says so")
        .arg(name)?
        .arg(flag(alloc, ALL, "Show what each value hides, too")?)?
        .arg(key)?
        .arg(show_format(alloc))?;
    with_list(alloc, command, path(alloc))
}

fn explain_command<'a>(alloc: Global) -> Result<Command<'a>, AllocError> {
    let topic = Arg::new(alloc, TOPIC).help(
        "The code of a finding, as it stands at the end of its line, or nextest-version; \
         or the path of a key, as a finding has it; else all codes are listed",
    );
    Command::new(alloc, EXPLAIN)
        .about("Says what a code means, with an example, or what a key is for and may have")
        .arg(topic)
}

fn schema_command<'a>(alloc: Global) -> Result<Command<'a>, AllocError> {
    let about = "Prints a JSON Schema of a repository's configuration file, for editors";
    Ok(Command::new(alloc, SCHEMA).about(about))
}

// The command with what says how findings are reported, and which count.
fn with_lint<'a>(alloc: Global, command: Command<'a>) -> Result<Command<'a>, AllocError> {
    let strict = "Fail at a warning, too, and where no .config/nextest.toml is found";
    let allow = "Leave out the findings of a code; a check tells those for which it refuses";
    let help = "How findings are told: as lines, with the lines of the file, as commands of a \
         workflow of GitHub, or as lines of JSON";
    let allow = value(alloc, ALLOW, "CODE", allow)
        .value_parser(FindingCode::words())
        .action(ArgAction::Append);
    let format = format(alloc, help, Format::Human);
    command
        .arg(flag(alloc, STRICT, strict)?)?
        .arg(allow)?
        .arg(format)
}

// The flag that names how something is shown.
fn show_format<'a>(alloc: Global) -> Arg<'a> {
    let help = "How it is shown: as lines, or as a JSON object";
    format(alloc, help, ShowFormat::Human)
}

// The flag that names a format, by its word.
fn format<'a, T: Word>(alloc: Global, help: &'a str, default: T) -> Arg<'a> {
    value(alloc, FORMAT, "FORMAT", help)
        .value_parser(T::words())
        .default_value(default.as_word())
}

// The command with what says which files are read, and how; `path` names the repository's.
fn with_list<'a>(
    alloc: Global,
    command: Command<'a>,
    path: Arg<'a>,
) -> Result<Command<'a>, AllocError> {
    let table_only = "Refuse a file whose `experimental` is an array, the deprecated form";
    let config_file = "The repository's file, as an explicit one; no PATH may stand beside it";
    let tool_file = "A tool's file, by its absolute path; the first one has the highest priority";
    let stdin_path = "What the PATH `-` is called; else <stdin>";
    let default_path = "The folder that counts where neither PATH nor --config-file is given";
    command
        .arg(flag(alloc, TABLE_ONLY, table_only)?)?
        .arg(value(alloc, CONFIG_FILE, "FILE", config_file))?
        .arg(value(alloc, TOOL_CONFIG_FILE, "NAME:FILE", tool_file).action(ArgAction::Append))?
        .arg(value(alloc, STDIN_PATH, "PATH", stdin_path))?
        .arg(value(alloc, DEFAULT_PATH, "FOLDER", default_path))?
        .arg(path)
}

// What the repository's files are named by.
fn path<'a>(alloc: Global) -> Arg<'a> {
    Arg::new(alloc, PATH).help(
        "A file, `-` for standard input, or a folder, whose .config/nextest.toml is read; \
         else the nearest folder that has one, from the current one upwards",
    )
}

// A flag without a value, which may stand more than once.
fn flag<'a>(alloc: Global, name: &'a str, help: &'a str) -> Result<Arg<'a>, AllocError> {
    Arg::new(alloc, name)
        .long(name)
        .action(ArgAction::SetTrue)
        .help(help)
        .overrides_with(name)
}

// A flag with a value.
fn value<'a>(alloc: Global, name: &'a str, value_name: &'a str, help: &'a str) -> Arg<'a> {
    Arg::new(alloc, name)
        .long(name)
        .value_name(value_name)
        .help(help)
}
