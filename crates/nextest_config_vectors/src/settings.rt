//! Settings and what they are read from.

pub mod arguments;
pub mod defaults;
pub mod faults;
pub mod fields;
pub mod identifiers;
pub mod junit;
pub mod limits;
pub mod readers;
pub mod texts;

use crate::failure::Failure;
use crate::runner::Runner;
use crate::{compared, filters, lists};

/// What a call of a subject answers: of those here, or of those that lists have.
pub fn answer(rt: &Runner, subject: &str, call: &str, input: &str) -> Result<String, Failure> {
    match subject {
        "arguments" => arguments::arguments(rt, call, input),
        "copies" => compared::copies(rt, call, input),
        "defaults" => defaults::defaults(rt, call, input),
        "durations" => texts::durations(rt, call, input),
        "equality" => compared::equality(rt, call, input),
        "faults" => faults::faults(rt, call, input),
        "fields" => fields::fields(rt, call, input),
        "filters" => filters::filters(rt, call, input),
        "identifiers" => identifiers::identifiers(rt, call, input),
        "limits" => limits::limits(rt, call, input),
        "readers" => readers::readers(rt, call, input),
        "reports" => junit::reports(rt, call, input),
        "skipped" => junit::skipped(rt, call, input),
        "texts" => texts::texts(rt, call, input),
        "words" => readers::words(rt, call, input),
        _ => lists::answer(rt, subject, call, input),
    }
}
