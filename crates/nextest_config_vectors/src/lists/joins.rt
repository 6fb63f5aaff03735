//! Values that are joined, and lists that are cut into pieces, which are read and joined in order. A
//! call leaves what it is lent as it was where memory is refused.

use crate::answers::{copied, cut, done, unknown, written};
use crate::failure::Failure;
use crate::lists::pieces::eval_in_pieces;
use crate::lists::sources::listed;
use crate::runner::Runner;
use crate::told::{Told, answered};
use crate::values::{FromRow, both};
use nextest_config::merge::{Merge, merge_all};
use nextest_config::nextest_version::{
    Edition, ExperimentalConfig, NextestVersionConfig, NextestVersionReq, SourceText,
    VersionOnlyConfig,
};
use semver::Version;
use std::fmt::Debug;

/// The join of two values of a type.
pub fn joins(rt: &Runner, call: &str, input: &str) -> Result<String, Failure> {
    match call {
        "ExperimentalConfig" => join::<ExperimentalConfig>(rt, input),
        "NextestVersionConfig" => join::<NextestVersionConfig>(rt, input),
        "NextestVersionReq" => join::<NextestVersionReq>(rt, input),
        "VersionOnlyConfig" => join::<VersionOnlyConfig>(rt, input),
        _ => unknown(rt, call),
    }
}

fn join<T: Merge + FromRow + Told + Debug + Drop>(
    rt: &Runner,
    input: &str,
) -> Result<String, Failure> {
    let (mut into, mut later): (T, T) = both(rt, input, " // ")?;
    let before = format!(in rt.alloc(); "{into:?} {later:?}")?;
    rt.begin();
    let joined = into.merge(&mut later);
    let answer = changed(rt, "all", joined, &into)?;
    let now = format!(in rt.alloc(); "{into:?} {later:?}")?;
    as_it_was(rt, answer, before.as_str(), now.as_str())
}

/// What pieces of a list ask together.
pub fn pieces(rt: &Runner, call: &str, input: &str) -> Result<String, Failure> {
    let wanted = of_whole_list(rt, input)?;
    let mut pieces = read_pieces(rt, input)?;
    join_all(rt, call, &mut pieces, wanted.as_str())
}

// What is read of the list that isn't cut.
fn of_whole_list(rt: &Runner, input: &str) -> Result<String, Failure> {
    let list = done(rt, input.replace(rt.alloc(), " // ", " && "))?;
    written(rt, VersionOnlyConfig::from_row(rt, list.as_str())?)
}

fn read_pieces(rt: &Runner, input: &str) -> Result<Vec<VersionOnlyConfig>, Failure> {
    let mut pieces = Vec::new(rt.alloc());
    for piece in input.split(" // ") {
        done(rt, pieces.push(VersionOnlyConfig::from_row(rt, piece)?))?;
    }
    Ok(pieces)
}

// A join that is refused memory goes on where it stopped, and is what is wanted then.
fn join_all(
    rt: &Runner,
    call: &str,
    pieces: &mut [VersionOnlyConfig],
    wanted: &str,
) -> Result<String, Failure> {
    let mut whole = VersionOnlyConfig::new(rt.alloc());
    rt.begin();
    let joined = merge_all(&mut whole, pieces);
    let answer = changed(rt, call, joined, &whole)?;
    done(rt, merge_all(&mut whole, pieces))?;
    let now = written(rt, &whole)?;
    as_it_was(rt, answer, wanted, now.as_str())
}

/// What a list that is cut into pieces tells a current version.
pub fn cuts(rt: &Runner, call: &str, input: &str) -> Result<String, Failure> {
    let (lengths, current) = cut(call, ": ")?;
    let mut pieces = Vec::new(rt.alloc());
    for length in lengths.split_whitespace() {
        done(rt, pieces.push(usize::from_row(rt, length)?))?;
    }
    let sources: Vec<SourceText> = listed(rt, input)?;
    let current = Version::from_row(rt, current)?;
    let edition = Edition::ArrayAllowed;
    let answer = eval_in_pieces(rt.call(), edition, &sources, &pieces, &current, false);
    rt.end();
    answered(rt, "", answer)
}

/// What is told of a value that a call changed, or why the call refused.
pub fn changed<T: Told, E: Told + Drop>(
    rt: &Runner,
    call: &str,
    changed: Result<(), E>,
    value: &T,
) -> Result<String, Failure> {
    rt.end();
    match changed {
        Ok(()) => value.told(rt, call),
        Err(error) => error.told(rt, call),
    }
}

/// The answer of a call, unless memory was refused and what it was lent isn't written now as it was
/// before.
pub fn as_it_was(rt: &Runner, answer: String, before: &str, now: &str) -> Result<String, Failure> {
    if is_refusal(answer.as_str()) && now != before {
        copied(rt, "what was lent was changed")
    } else {
        Ok(answer)
    }
}

/// Whether an answer is that memory was refused.
pub fn is_refusal(answer: &str) -> bool {
    answer == "out of memory" || answer == "memory allocation failed"
}
