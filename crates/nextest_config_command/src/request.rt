//! What the command is asked for.

use nextest_config::nextest_version::Edition;
use nextest_config_lint::FindingCode;
use nextest_config_output::findings::Format;
use nextest_config_profiles::report::WantedKey;
use nextest_config_report::show::ShowFormat;
use nextest_config_values::tool_config::ToolConfigFile;
use semver::Version;

/// What the command is asked for: which files it reads, and what it does with them.
#[derive(Debug, Drop)]
pub struct Request {
    /// The files of tools, of which the first has the highest priority.
    pub tools: Vec<ToolConfigFile>,
    /// The repository's files, above those of tools. Each is judged with those of tools as a list
    /// of its own.
    pub repository: Vec<RepositoryFile>,
    pub edition: Edition,
    pub task: Task,
}

/// Which file is read as a repository's.
#[derive(Debug, PartialEq, Eq, Drop)]
pub enum RepositoryFile {
    /// The file that the user names as the configuration.
    Explicit(String),
    /// The file at a path, or the usual one in the folder there.
    At(String),
    /// Standard input, called by this name.
    Input(String),
    /// The usual one in a folder.
    In(String),
    /// The nearest one: in the current folder, which is named by its absolute path with a slash at
    /// its end, or in those above it.
    Nearest(String),
}

/// What is done with the files.
#[derive(Debug, PartialEq, Eq, Drop)]
pub enum Task {
    /// The current version is checked against what the files ask, and what is found in them is
    /// reported.
    Check(CheckTask),
    /// What is found in the files is reported.
    Lint(LintOptions),
    /// What a profile gets for its settings is reported, and which file says so.
    Profile(ProfileTask),
    /// What the files ask is reported, and which profiles they have.
    Show(ShowFormat),
}

/// A check of the current version.
#[derive(Debug, PartialEq, Eq, Drop)]
pub struct CheckTask {
    pub current: Version,
    pub override_version_check: bool,
    /// How what is found is reported. Where it is strict, a version that is recommended and not
    /// reached fails the check, too.
    pub lint: LintOptions,
}

/// How what is found in files is reported.
#[derive(Debug, PartialEq, Eq, Drop)]
pub struct LintOptions {
    pub format: Format,
    /// Whether a warning counts, and a file that is looked for and missing.
    pub strict: bool,
    /// The codes of findings that are left out. A finding for which a check refuses the files is
    /// reported in any case.
    pub allowed: Vec<FindingCode>,
}

/// A profile that is reported.
#[derive(Debug, PartialEq, Eq, Drop)]
pub struct ProfileTask {
    pub name: String,
    /// Whether what each value hides is reported, too.
    pub all: bool,
    /// The keys that alone are reported; without any, all are.
    pub keys: Vec<WantedKey>,
    pub format: ShowFormat,
}
