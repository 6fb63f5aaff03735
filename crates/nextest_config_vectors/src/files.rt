//! Files, places, profiles and streams.

pub mod documents;
pub mod lists;
pub mod positions;
pub mod streams;

use crate::answers::unknown;
use crate::failure::Failure;
use crate::runner::Runner;

/// What a call of a subject answers.
pub fn answer(rt: &Runner, subject: &str, call: &str, input: &str) -> Result<String, Failure> {
    match subject {
        "explained" => documents::explained(rt, call, input),
        "found" => documents::found(rt, call, input),
        "place" => positions::places(rt, call, input),
        "profiles" => lists::lists(rt, call, input),
        "streams" => streams::streams(rt, call, input),
        _ => unknown(rt, subject),
    }
}
