//! What a value of a shape may be, but for what stands in it.

ghost use Rattle.std.specs.Prelude.{◌≡◌, IfOk, map, option_map};
ghost use Rattle.serde_json.specs.View.{view};
ghost use Rattle.nextest_config_schema.specs.Kinds.{backoff_words, list_words, may_be_empty, plain_kind, schema_with, word_kind};
ghost use Rattle.nextest_config_schema.specs.Patterns.{duration_pattern};
ghost use Rattle.nextest_config_schema.specs.Values.{matching, one_of};

use crate::patterns::{DURATION, RELATIVE_PATH, VERSION};
use crate::schema_place::SchemaPlace;
use crate::values::{
    any_of, anything, at_least, between, enum_of, matching, nonzero, of_type, one_of, push_some,
    push_words, scalar, some_text,
};
use nextest_config_elements::field::Shape;
use nextest_config_elements::junit::JunitFlakyFailStatus;
use nextest_config_elements::leak_timeout::LeakTimeoutResult;
use nextest_config_elements::max_fail::TerminateMode;
use nextest_config_elements::report_skip_policy::ReportSkipPolicy;
use nextest_config_elements::retry_policy::{Backoff, FlakyResult};
use nextest_config_elements::slow_timeout::SlowTimeoutResult;
use nextest_config_elements::word_list::WordList;
use nextest_config_values::read::Word;
use serde_json::Value;
use std::alloc::{AllocError, Global};

/// The schema of a value of a shape, with those of the tables and arrays that it may be.
pub(crate) fn schema_with(
    alloc: Global,
    place: SchemaPlace,
    shape: Shape,
    mut kinds: Vec<Value>,
) -> Result<Value, AllocError>
    ensures { IfOk result (λ schema. view schema
        ≡ schema_with place shape (map view kinds.items)) }
{
    let mut schemas = Vec::new(alloc);
    push_some(&mut schemas, plain_kind(alloc, shape)?)?;
    push_some(&mut schemas, word_kind(alloc, place, shape)?)?;
    schemas.append(&mut kinds)?;
    any_of(alloc, schemas)
}

// The schema of the texts, numbers and booleans of a shape, but for its words.
fn plain_kind(alloc: Global, shape: Shape) -> Result<Option<Value>, AllocError>
    ensures { IfOk result (λ kind. option_map view kind ≡ plain_kind shape) }
{
    let schema = match shape {
        Shape::Any => anything(alloc),
        Shape::Scalar => scalar(alloc)?,
        Shape::Boolean | Shape::FailFast => of_type(alloc, "boolean")?,
        Shape::FeatureName | Shape::Text => of_type(alloc, "string")?,
        Shape::Reference(_) | Shape::References(_) => of_type(alloc, "string")?,
        Shape::Filter | Shape::DefaultFilter => of_type(alloc, "string")?,
        Shape::Platform | Shape::PlatformText => of_type(alloc, "string")?,
        Shape::Command | Shape::CommandLine => some_text(alloc)?,
        Shape::NextestVersion | Shape::VersionText => matching(alloc, VERSION)?,
        Shape::Duration | Shape::ShortDuration | Shape::SlowTimeout | Shape::LeakTimeout => {
            duration(alloc)?
        }
        Shape::RelativePath => matching(alloc, RELATIVE_PATH)?,
        Shape::Retries | Shape::U32 => between(alloc, 0, i64::from(u32::MAX))?,
        Shape::Priority => between(alloc, -100, 100)?,
        Shape::Count | Shape::MaxFail | Shape::ThreadsRequired => at_least(alloc, 1)?,
        Shape::Depth => at_least(alloc, 0)?,
        Shape::Threads => nonzero(alloc)?,
        _ => return Ok(None),
    };
    Ok(Some(schema))
}

// The schema of durations.
fn duration(alloc: Global) -> Result<Value, AllocError>
    ensures { IfOk result (λ schema. view schema ≡ matching duration_pattern) }
{
    let schema = matching(alloc, DURATION)?;
    Ok(schema)
}

// The schema of the words of a shape.
fn word_kind(alloc: Global, place: SchemaPlace, shape: Shape) -> Result<Option<Value>, AllocError>
    ensures { IfOk result (λ kind. option_map view kind ≡ word_kind place shape) }
{
    let schema = match shape {
        Shape::SlowTimeout => one_of(alloc, &[""])?,
        Shape::MaxFail => one_of(alloc, &["all"])?,
        Shape::ThreadsRequired => one_of(alloc, &["num-cpus", "num-test-threads"])?,
        Shape::Threads => one_of(alloc, &["num-cpus"])?,
        Shape::Depth => one_of(alloc, &["infinite"])?,
        Shape::Backoff => backoff_words(alloc, place)?,
        Shape::FlakyResult => one_of(alloc, FlakyResult::words())?,
        Shape::TerminateMode => one_of(alloc, TerminateMode::words())?,
        Shape::SlowTimeoutResult => one_of(alloc, SlowTimeoutResult::words())?,
        Shape::LeakTimeoutResult => one_of(alloc, LeakTimeoutResult::words())?,
        Shape::ReportSkipPolicy => one_of(alloc, ReportSkipPolicy::words())?,
        Shape::FlakyFailStatus => one_of(alloc, JunitFlakyFailStatus::words())?,
        Shape::Word(list) => list_words(alloc, list)?,
        _ => return Ok(None),
    };
    Ok(Some(schema))
}

// The schema of the words of backoffs: in a table of retries with a backoff its own alone.
fn backoff_words(alloc: Global, place: SchemaPlace) -> Result<Value, AllocError>
    ensures { IfOk result (λ schema. view schema ≡ one_of (backoff_words place)) }
{
    match place {
        SchemaPlace::Retries(backoff) => one_of(alloc, &[backoff.as_word()]),
        _ => one_of(alloc, Backoff::words()),
    }
}

// The schema of the words of a list, those that are never listed among them.
fn list_words(alloc: Global, list: WordList) -> Result<Value, AllocError>
    ensures { IfOk result (λ schema. view schema ≡ one_of (list_words list)) }
{
    let mut values = Vec::new(alloc);
    push_words(alloc, list.listed(), &mut values)?;
    push_words(alloc, list.unlisted(), &mut values)?;
    enum_of(alloc, values)
}

/// Whether an array of a shape may be without elements.
pub(crate) fn may_be_empty(shape: Shape) -> bool
    ensures { result ≡ may_be_empty shape }
{
    !matches!(shape, Shape::Command | Shape::CommandLine)
}
