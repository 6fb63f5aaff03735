//! The engine of the command `nextest-config`: what is checked, linted or shown of the files that
//! it is asked for, or of a profile that they have, over any place that files are read from.
#![tactic(auto)]

mod answer;
mod asked;
mod distinct;
mod file_findings;
mod file_list;
mod files;
mod found;
pub mod laws;
mod layers;
mod lint;
mod parsed_file;
mod printed;
mod profile;
mod request;
mod streams;
mod verdict;
mod words;

pub use files::{FileRead, Files};
pub use nextest_config_lint::FindingCode;
pub use nextest_config_output::findings::Format;
pub use nextest_config_report::show::ShowFormat;
pub use request::{CheckTask, LintOptions, ProfileTask, RepositoryFile, Request, Task};
pub use streams::serve;
pub use words::{Misuse, Words};
