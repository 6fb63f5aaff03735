//! Documents, and what is found in them, in the order in which it is found.

use crate::answers::{done, push, shown};
use crate::failure::Failure;
use crate::runner::Runner;
use crate::values::FromRow;
use nextest_config::nextest_version::{ConfigSourceKind, Edition};
use nextest_config_lint::explain::{Explanation, Topic};
use nextest_config_lint::{Defined, Finding, FindingSeverity, findings};
use std::alloc::{AllocError, Global};
use toml::Table;

/// What is found in the document, which is its whole list, each as `SEVERITY: FINDING`. The call is
/// the kind of its source.
pub fn found(rt: &Runner, call: &str, input: &str) -> Result<String, Failure> {
    let source = ConfigSourceKind::from_row(rt, call)?;
    let document = document(rt, input)?;
    let found = found_in(rt.call(), &source, &document);
    rt.end();
    match found {
        Ok(found) => told_each(rt, found.as_slice()),
        Err(error) => shown(rt, &error),
    }
}

fn found_in(
    alloc: Global,
    source: &ConfigSourceKind,
    document: &Table,
) -> Result<Vec<Finding>, AllocError> {
    let defined = Defined::of_one(alloc, source, Some(document))?;
    findings(alloc, source, Edition::ArrayAllowed, document, &defined, 0)
}

fn told_each(rt: &Runner, found: &[Finding]) -> Result<String, Failure> {
    let mut told = String::new(rt.alloc());
    for finding in found {
        let severity = match finding.severity() {
            FindingSeverity::Error => "error",
            FindingSeverity::Warning => "warning",
            FindingSeverity::Note => "note",
        };
        let text = shown(rt, finding)?;
        let mark = if told.is_empty() { "" } else { " && " };
        push(&mut told, mark)?;
        done(rt, write!(told, "{severity}: {text}"))?;
    }
    Ok(told)
}

/// The explanation of a code.
pub fn explained(rt: &Runner, _call: &str, input: &str) -> Result<String, Failure> {
    let topic = Topic::from_word(input).ok_or(Failure::Unreadable("no code has this word"))?;
    shown(rt, Explanation::of(topic))
}

/// The document that a text is.
pub fn document(rt: &Runner, text: &str) -> Result<Table, Failure> {
    done(rt, toml::table_from_str(rt.alloc(), text))
}
