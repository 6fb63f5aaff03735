//! Which of the repository's files the words of a command line ask for.

ghost use Rattle.std.specs.Prelude.{◌≡◌, IfOk, map};
ghost use Rattle.nextest_config_command.specs.Request.{wanted_of};
ghost use Rattle.nextest_config_command.specs.Words.{inputs, misuse_in, misuse_text, name_of_input, paths_of, text, wanted_at, wanted_in, wanted_without};

use crate::request::RepositoryFile;
use std::alloc::{AllocError, Global};

// The word for standard input.
const INPUT: &str = "-";

/// What the words say of the repository's files, as they were taken.
#[derive(Clone, Copy, Debug)]
pub struct Words<'a> {
    /// The file that is named as the configuration.
    pub config_file: Option<&'a str>,
    /// Files and folders, and `-` for standard input.
    pub paths: &'a [&'a str],
    /// What standard input is called.
    pub stdin_path: Option<&'a str>,
    /// The folder in which the file is looked for where none is named.
    pub default_path: Option<&'a str>,
    /// The current folder, by its absolute path, with a slash at its end.
    pub current_folder: &'a str,
}

/// Why words ask for no file.
#[derive(Clone, Copy, Debug, PartialEq, Eq)]
pub enum Misuse {
    /// A PATH stands beside a file that is named.
    PathBesideFile,
    /// Standard input is asked for more than once.
    InputTwice,
    /// Standard input has a name, and isn't asked for.
    NameWithoutInput,
}

impl Misuse {
    /// What is said of words that ask for no file.
    pub fn as_str(self) -> &'static str
        ensures { result.now ≡ misuse_text self }
    {
        match self {
            Misuse::PathBesideFile => "a PATH can't stand beside --config-file",
            Misuse::InputTwice => "standard input can be read only once",
            Misuse::NameWithoutInput => "--stdin-path names standard input, which is the PATH `-`",
        }
    }
}

impl Words<'_> {
    /// What is wrong with the words, if anything is.
    pub fn misuse(&self) -> Option<Misuse>
        ensures { result ≡ misuse_in self.now }
    {
        if self.config_file.is_some() && !self.paths.is_empty() {
            return Some(Misuse::PathBesideFile);
        }
        match (inputs(self.paths), self.stdin_path) {
            (0, Some(_)) => Some(Misuse::NameWithoutInput),
            (0 | 1, _) => None,
            _ => Some(Misuse::InputTwice),
        }
    }

    /// The repository's files that the words ask for, in the order of the words.
    pub fn repository_files(&self, alloc: Global) -> Result<Vec<RepositoryFile>, AllocError>
        ensures { IfOk result (λ files. map wanted_of files.items ≡ wanted_in self.now) }
    {
        if let Some(file) = self.config_file {
            let mut files = Vec::new(alloc);
            files.push(RepositoryFile::Explicit(String::from_str(alloc, file)?))?;
            return Ok(files);
        }
        let mut files = self.files_at(alloc)?;
        if files.is_empty() {
            files.push(self.file_without_path(alloc)?)?;
        }
        Ok(files)
    }

    // What the PATHs ask for.
    fn files_at(&self, alloc: Global) -> Result<Vec<RepositoryFile>, AllocError>
        ensures { IfOk result (λ files. map wanted_of files.items
            ≡ map (wanted_at (name_of_input (text self.now.stdin_path))) (paths_of self.now)) }
    {
        let mut files = Vec::new(alloc);
        for path in self.paths {
            files.push(self.file_at(alloc, path)?)?;
        }
        Ok(files)
    }

    // What a PATH asks for.
    fn file_at(&self, alloc: Global, path: &str) -> Result<RepositoryFile, AllocError>
        ensures { IfOk result (λ file.
            wanted_of file ≡ wanted_at (name_of_input (text self.now.stdin_path)) path.now) }
    {
        if path == INPUT {
            let name = self.stdin_path.unwrap_or("<stdin>");
            return Ok(RepositoryFile::Input(String::from_str(alloc, name)?));
        }
        Ok(RepositoryFile::At(String::from_str(alloc, path)?))
    }

    // What is asked for without a PATH or a file.
    fn file_without_path(&self, alloc: Global) -> Result<RepositoryFile, AllocError>
        ensures { IfOk result (λ file. wanted_of file
            ≡ wanted_without (text self.now.default_path) self.now.current_folder.now) }
    {
        match self.default_path {
            Some(folder) => Ok(RepositoryFile::In(String::from_str(alloc, folder)?)),
            None => Ok(RepositoryFile::Nearest(String::from_str(alloc, self.current_folder)?)),
        }
    }
}

// How often standard input is asked for.
fn inputs(paths: &[&str]) -> usize
    ensures { result ≡ inputs paths.now }
{
    paths.iter().filter(|path| **path == INPUT).count()
}
