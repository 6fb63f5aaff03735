//! Places of keys and values in documents.

use crate::answers::{copied, done, shown};
use crate::failure::Failure;
use crate::runner::Runner;
use toml_spans::{Index, Span, Step};

/// Where the key and the value of each of some paths stand, `KEY = VALUE`.
pub fn places(rt: &Runner, call: &str, input: &str) -> Result<String, Failure> {
    let index = Index::of(rt.call(), input);
    rt.end();
    match index {
        Ok(Some(index)) => spans(rt, &index, call),
        Ok(None) => copied(rt, "no document"),
        Err(error) => shown(rt, &error),
    }
}

fn spans(rt: &Runner, index: &Index, paths: &str) -> Result<String, Failure> {
    let mut told = String::new(rt.alloc());
    for path in paths.split(", ") {
        let path = steps(rt, path)?;
        let key = span_text(rt, index.key(path.as_slice()))?;
        let value = span_text(rt, index.value(path.as_slice()))?;
        let mark = if told.is_empty() { "" } else { " && " };
        done(rt, write!(told, "{mark}{key} = {value}"))?;
    }
    Ok(told)
}

// The line and the column of the beginning and of the place after the end.
fn span_text(rt: &Runner, span: Option<Span>) -> Result<String, Failure> {
    let Some(Span { begin, end }) = span else {
        return copied(rt, "none");
    };
    let text = format!(in rt.alloc();
        "{}:{}-{}:{}",
        begin.line, begin.column, end.line, end.column
    );
    done(rt, text)
}

// The steps that are parted by ` / `: a number is an index.
fn steps(rt: &Runner, path: &str) -> Result<Vec<Step>, Failure> {
    let mut steps = Vec::new(rt.alloc());
    if path == "whole" {
        return Ok(steps);
    }
    for word in path.split(" / ") {
        let step = match word.parse() {
            Ok(index) => Step::Index(index),
            Err(_) => Step::Key(copied(rt, word)?),
        };
        done(rt, steps.push(step))?;
    }
    Ok(steps)
}
