//! Lists of sources, and boards.

pub mod asked;
pub mod board;
pub mod configurations;
pub mod features;
pub mod joins;
pub mod library;
pub mod pieces;
pub mod sources;
pub mod told;
pub mod tree;

use crate::failure::Failure;
use crate::files;
use crate::runner::Runner;

/// What a call of a subject answers: of those here, or of those that files have.
pub fn answer(rt: &Runner, subject: &str, call: &str, input: &str) -> Result<String, Failure> {
    match subject {
        "asks" => asked::asks(rt, call, input),
        "boards" => board::commands::boards(rt, call, input),
        "board-changes" => board::changes::changes(rt, call, input),
        "cuts" => joins::cuts(rt, call, input),
        "features" => features::features(rt, call, input),
        "files" => asked::files(rt, call, input),
        "joins" => joins::joins(rt, call, input),
        "library" => library::library(rt, call, input),
        "lists" => asked::lists(rt, call, input),
        "pieces" => joins::pieces(rt, call, input),
        "tree" => tree::tree(rt, call, input),
        "verdicts" => asked::verdicts(rt, call, input),
        "versions" => asked::versions(rt, call, input),
        _ => files::answer(rt, subject, call, input),
    }
}
