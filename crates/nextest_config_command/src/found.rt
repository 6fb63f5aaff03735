//! What is read of the files that are asked for.

ghost use Rattle.std.specs.Prelude.{◌≡◌, ◌++◌, ◌∷◌, [], IfErr, IfOk, map, MatchOption, OnOk, option_map, Some, string_bytes};
ghost use Rattle.std.specs.List.{AllZip};
ghost use Rattle.nextest_config.specs.NextestVersion.{place_of};
ghost use Rattle.nextest_config_command.specs.Files.{file_of, IsFirstFailure, IsThere, IsUnreadAt, path_state_of, UnlessMemory};
ghost use Rattle.nextest_config_command.specs.Found.{AreAllFound, AreToolsRead, found_file, has_bytes, IsConfigOf, IsFirstUnreadFile, IsFirstUnreadTool, IsFound, IsFoundIn, IsFoundThere, is_lint, IsMeant, IsMeantBy, IsMetAt, IsMissing, IsNearest, IsOutcome, IsPassedAt, is_path, IsStopped, IsUnread, IsUnreadAbove, IsUnreadIn, IsUnreadOnWalk, IsUnreadThere, outcome_of, passes_over};
ghost use Rattle.nextest_config_command.specs.Request.{at_path, folders_above, in_folder, input, named, tool_places, wanted_of};

use crate::files::{FileRead, Files, SourceFile, Unanswered, read_source};
use crate::request::{RepositoryFile, Request, Task};
use nextest_config::nextest_version::ConfigSource;
use nextest_config_values::helpers::join_path;
use std::alloc::{AllocError, Global};

// Where a repository's file is looked for in a folder.
const USUAL_PATH: &str = ".config/nextest.toml";

/// What is read of a file that is asked for.
#[derive(Drop)]
pub(crate) enum Found {
    File(SourceFile),
    /// There is no file at this path, where one is looked for.
    Missing {
        path: String,
        /// The folder that may be meant in place of its `.config`.
        folder: Option<String>,
    },
    /// A PATH of a lint can't be read, as this says: the others are reported all the same.
    Unread(String),
}

/// Where files are looked for.
#[derive(Clone, Copy)]
pub(crate) struct Search<'a, F: Files> {
    pub alloc: Global,
    pub files: &'a F,
}

impl<F: Files> Search<'_, F> {
    /// Reads the files of the tools in turn, those of a lower priority first, up to the first one
    /// that can't be read.
    pub fn read_tools(&self, request: &Request) -> Result<Vec<SourceFile>, Unanswered>
        ensures read { IfOk result (λ read.
            AreToolsRead (F.holds self.now.files.now) request.now (map file_of read.items)) }
        ensures unread { IfErr result
            (UnlessMemory (IsFirstUnreadTool (F.holds self.now.files.now) request.now)) }
    {
        let sources = tool_sources(self.alloc, request)?;
        self.read_sources(sources.as_slice())
    }

    // Reads the files of the sources in turn, up to the first one that can't be read.
    fn read_sources(&self, sources: &[ConfigSource]) -> Result<Vec<SourceFile>, Unanswered>
        ensures read { IfOk result (λ read. AllZip (IsThere (F.holds self.now.files.now))
            (map place_of sources.now) (map file_of read.items)) }
        ensures unread { IfErr result (UnlessMemory (IsFirstFailure
            (IsThere (F.holds self.now.files.now))
            (λ place. IsUnreadAt (F.holds self.now.files.now) place.path)
            (map place_of sources.now))) }
    {
        let mut read = Vec::new(self.alloc);
        for source in sources {
            let file = read_source(self.alloc, self.files, source)?;
            push(&mut read, file)?;
        }
        Ok(read)
    }

    /// Looks for the repository's files in turn, up to the first one that can't be read; a lint
    /// passes over a PATH that can't.
    pub fn find_all(&self, request: &Request) -> Result<Vec<Found>, Unanswered>
        ensures read { IfOk result (λ found.
            AreAllFound (F.holds self.now.files.now) request.now (map outcome_of found.items)) }
        ensures unread { IfErr result
            (UnlessMemory (IsFirstUnreadFile (F.holds self.now.files.now) request.now)) }
    {
        let mut found = Vec::new(self.alloc);
        for file in &request.repository {
            let file = self.find_or_pass(&request.task, file)?;
            push(&mut found, file)?;
        }
        Ok(found)
    }

    // Looks for a repository's file, which a lint passes over where it is a PATH that can't be
    // read.
    fn find_or_pass(&self, task: &Task, file: &RepositoryFile) -> Result<Found, Unanswered>
        ensures read { IfOk result (λ found. IsOutcome (F.holds self.now.files.now) task.now
            (wanted_of file.now) (outcome_of found)) }
        ensures unread { IfErr result
            (UnlessMemory (IsStopped (F.holds self.now.files.now) task.now (wanted_of file.now))) }
    {
        match self.find(file) {
            Err(Unanswered::Unread(said)) if passes_over(task, file) => Ok(Found::Unread(said)),
            found => found,
        }
    }

    // Looks for a repository's file.
    fn find(&self, file: &RepositoryFile) -> Result<Found, Unanswered>
        ensures read { IfOk result (λ found.
            IsFound (F.holds self.now.files.now) (wanted_of file.now) (outcome_of found)) }
        ensures unread { IfErr result
            (UnlessMemory (IsUnread (F.holds self.now.files.now) (wanted_of file.now))) }
    {
        match file {
            RepositoryFile::Explicit(path) => self.find_named(path.as_str()),
            RepositoryFile::At(path) => self.find_at(path.as_str()),
            RepositoryFile::Input(name) => self.find_input(name.as_str()),
            RepositoryFile::In(path) => self.find_in_folder(path.as_str()),
            RepositoryFile::Nearest(path) => { self.find_nearest(folders_above(path.as_str())) }
        }
    }

    // The file that the user names.
    fn find_named(&self, path: &str) -> Result<Found, Unanswered>
        ensures read { IfOk result (λ found.
            IsFound (F.holds self.now.files.now) (named path.now) (outcome_of found)) }
        ensures unread { IfErr result
            (UnlessMemory (IsUnread (F.holds self.now.files.now) (named path.now))) }
    {
        let source = ConfigSource::of_repository(self.alloc, true, path)?;
        let file = read_source(self.alloc, self.files, &source)?;
        Ok(Found::File(file))
    }

    // What is at a path, or in the folder there.
    fn find_at(&self, path: &str) -> Result<Found, Unanswered>
        ensures read { IfOk result (λ found.
            IsFound (F.holds self.now.files.now) (at_path path.now) (outcome_of found)) }
        ensures unread { IfErr result
            (UnlessMemory (IsUnread (F.holds self.now.files.now) (at_path path.now))) }
    {
        match self.files.read(self.alloc, path)? {
            FileRead::Contents(contents) => {
                let file = found_file(self.alloc, path, contents)?;
                Ok(file)
            }
            FileRead::Folder(_) => self.find_in(path),
            FileRead::Absent(reason) | FileRead::Unreadable(reason) => {
                Err(Unanswered::unread(self.alloc, path, reason.as_str()))
            }
        }
    }

    // Standard input, called so.
    fn find_input(&self, name: &str) -> Result<Found, Unanswered>
        ensures read { IfOk result (λ found.
            IsFound (F.holds self.now.files.now) (input name.now) (outcome_of found)) }
        ensures unread { IfErr result
            (UnlessMemory (IsUnread (F.holds self.now.files.now) (input name.now))) }
    {
        match self.files.read_input(self.alloc)? {
            FileRead::Folder(reason) | FileRead::Absent(reason) | FileRead::Unreadable(reason) => {
                Err(Unanswered::unread(self.alloc, name, reason.as_str()))
            }
            FileRead::Contents(contents) => {
                let file = found_file(self.alloc, name, contents)?;
                Ok(file)
            }
        }
    }

    // The file in what has to be a folder.
    fn find_in_folder(&self, path: &str) -> Result<Found, Unanswered>
        ensures read { IfOk result (λ found.
            IsFound (F.holds self.now.files.now) (in_folder path.now) (outcome_of found)) }
        ensures unread { IfErr result
            (UnlessMemory (IsUnread (F.holds self.now.files.now) (in_folder path.now))) }
    {
        let read = self.files.read(self.alloc, path)?;
        match read {
            FileRead::Contents(_) => Err(Unanswered::unread(self.alloc, path, "not a folder")),
            FileRead::Folder(_) => self.find_in(path),
            FileRead::Absent(reason) | FileRead::Unreadable(reason) => {
                Err(Unanswered::unread(self.alloc, path, reason.as_str()))
            }
        }
    }

    // The file in a folder, which may be missing.
    fn find_in(&self, folder: &str) -> Result<Found, Unanswered>
        ensures read { IfOk result (λ found.
            IsFoundIn (F.holds self.now.files.now) folder.now (outcome_of found)) }
        ensures unread { IfErr result
            (UnlessMemory (IsUnreadIn (F.holds self.now.files.now) folder.now)) }
    {
        let path = join_path(self.alloc, folder, USUAL_PATH)?;
        self.look_for(folder, path.as_str())
    }

    // The file of a folder at its path, where one is looked for.
    fn look_for(&self, folder: &str, path: &str) -> Result<Found, Unanswered>
        ensures read { IfOk result (λ found.
            IsFoundThere (F.holds self.now.files.now) folder.now path.now (outcome_of found)) }
        ensures unread { IfErr result
            (UnlessMemory (IsUnreadThere (F.holds self.now.files.now) path.now)) }
    {
        match self.files.read(self.alloc, path)? {
            FileRead::Contents(contents) => {
                let file = found_file(self.alloc, path, contents)?;
                Ok(file)
            }
            FileRead::Absent(_) => {
                let found = self.missing(folder, path)?;
                Ok(found)
            }
            FileRead::Folder(reason) | FileRead::Unreadable(reason) => {
                Err(Unanswered::unread(self.alloc, path, reason.as_str()))
            }
        }
    }

    // That a folder has no file at its path.
    fn missing(&self, folder: &str, path: &str) -> Result<Found, AllocError>
        ensures { IfOk result (λ found.
            IsMissing (F.holds self.now.files.now) folder.now path.now (outcome_of found)) }
    {
        let folder = self.folder_meant(folder)?;
        let path = String::from_str(self.alloc, path)?;
        Ok(Found::Missing { path, folder })
    }

    // The folder that may be meant by a path: the one of which it is the `.config`, if that has the
    // file.
    fn folder_meant(&self, path: &str) -> Result<Option<String>, AllocError>
        ensures { IfOk result (λ meant.
            IsMeant (F.holds self.now.files.now) path.now (option_map string_bytes meant)) }
    {
        match folder_of_config(path) {
            Some(folder) => {
                let meant = self.meant_by(path, folder)?;
                Ok(meant)
            }
            None => Ok(None),
        }
    }

    // The folder of a `.config`, if that has the file.
    fn meant_by(&self, path: &str, folder: &str) -> Result<Option<String>, AllocError>
        ensures { IfOk result (λ meant. IsMeantBy (F.holds self.now.files.now) path.now
            (Some folder.now) (option_map string_bytes meant)) }
    {
        let file = join_path(self.alloc, path, "nextest.toml")?;
        let read = self.files.read(self.alloc, file.as_str())?;
        if !has_contents(&read) {
            return Ok(None);
        }
        let folder = String::from_str(self.alloc, folder)?;
        Ok(Some(folder))
    }

    // The first file in so many folders, from the current one upwards.
    fn find_nearest(&self, many: usize) -> Result<Found, Unanswered>
        ensures read { IfOk result (λ found.
            IsNearest (F.holds self.now.files.now) many (outcome_of found)) }
        ensures unread { IfErr result
            (UnlessMemory (IsUnreadAbove (F.holds self.now.files.now) many)) }
    {
        let mut path = String::from_str(self.alloc, USUAL_PATH)?;
        for _level in 0..many {
            if let Some(found) = self.meet(path.as_str())? {
                return Ok(found);
            }
            path = format!(in self.alloc; "../{path}")?;
        }
        let path = String::from_str(self.alloc, USUAL_PATH)?;
        Ok(Found::Missing { path, folder: None })
    }

    // The file at a path, or that the walk passes it.
    fn meet(&self, path: &str) -> Result<Option<Found>, Unanswered>
        ensures read { IfOk result (λ met. MatchOption met
            (IsPassedAt (F.holds self.now.files.now) path.now)
            (λ found. IsMetAt (F.holds self.now.files.now) path.now (outcome_of found))) }
        ensures unread { IfErr result
            (UnlessMemory (IsUnreadOnWalk (F.holds self.now.files.now) path.now)) }
    {
        match self.files.read(self.alloc, path)? {
            FileRead::Contents(contents) => {
                let file = found_file(self.alloc, path, contents)?;
                Ok(Some(file))
            }
            FileRead::Folder(_) | FileRead::Absent(_) => Ok(None),
            FileRead::Unreadable(reason) => {
                Err(Unanswered::unread(self.alloc, path, reason.as_str()))
            }
        }
    }
}

// Where the files of the tools come from, those of a lower priority first.
fn tool_sources(alloc: Global, request: &Request) -> Result<Vec<ConfigSource>, AllocError>
    ensures { IfOk result (λ sources. map place_of sources.items ≡ tool_places request.now) }
{
    let mut sources = Vec::new(alloc);
    for tool in request.tools.iter().rev() {
        sources.push(ConfigSource::of_tool(alloc, tool)?)?;
    }
    Ok(sources)
}

// Whether a file that can't be read leaves the others as they are.
fn passes_over(task: &Task, file: &RepositoryFile) -> bool
    ensures { result ≡ passes_over task.now (wanted_of file.now) }
{
    is_lint(task) && is_path(file)
}

fn is_lint(task: &Task) -> bool
    ensures { result ≡ is_lint task.now }
{
    matches!(task, Task::Lint(_))
}

fn is_path(file: &RepositoryFile) -> bool
    ensures { result ≡ is_path (wanted_of file.now) }
{
    matches!(file, RepositoryFile::At(_) | RepositoryFile::Input(_))
}

fn push<T: Drop>(items: &mut Vec<T>, item: T) -> Result<(), AllocError>
    ensures { OnOk result (items.new.items ≡ items.old.items ++ (item ∷ [])) }
{
    items.push(item)?;
    Ok(())
}

fn has_contents(read: &FileRead) -> bool
    ensures { result ≡ has_bytes (path_state_of read.now) }
{
    matches!(read, FileRead::Contents(_))
}

// The folder of which this is the `.config`.
fn folder_of_config(path: &str) -> Option<&str>
    ensures { IsConfigOf path.now (option_map (λ folder. folder.now) result) }
{
    if path == ".config" {
        return Some(".");
    }
    match path.strip_suffix("/.config") {
        Some("") => Some("/"),
        folder => folder,
    }
}

// How many folders there are from one upwards, by its absolute path, with a slash at its end.
fn folders_above(path: &str) -> usize
    ensures { result ≡ folders_above path.now }
{
    path.bytes().filter(|byte| *byte == b'/').count()
}

// A repository's file that isn't named.
fn found_file(alloc: Global, path: &str, contents: Vec<u8>) -> Result<Found, AllocError>
    ensures { IfOk result (λ found. outcome_of found ≡ found_file path.now contents.items) }
{
    let source = ConfigSource::of_repository(alloc, false, path)?;
    Ok(Found::File(SourceFile { source, contents }))
}
