//! Where the keys and the values of documents stand.

use std::alloc::{AllocError, Global};
use toml::{Table, Value};
use toml_spans::{Index, Span, Step};

// The document that is asked, what is known of it, and the runtime.
#[derive(Drop)]
struct Asked<'t> {
    rt: &'t HostRuntime,
    text: &'t str,
    index: &'t Index,
}

pub(crate) fn run(rt: &HostRuntime, what: &str, text: &str) -> Option<()> {
    match what {
        "text" => Some(()),
        "document" => toml::table_from_str(rt.alloc(), text).ok().map(|_| ()),
        "index" => Index::of(rt.alloc(), text).ok()?.map(|_| ()),
        "places" => print_documents(rt, text),
        _ => None,
    }
}

fn print_documents(rt: &HostRuntime, text: &str) -> Option<()> {
    for document in text.split('\0') {
        print_document(rt, document)?;
        println!(rt; "").ok()?;
    }
    Some(())
}

fn print_document(rt: &HostRuntime, text: &str) -> Option<()> {
    let index = Index::of(rt.alloc(), text).ok()?;
    let table = toml::table_from_str(rt.alloc(), text).ok();
    match (&index, &table) {
        (Some(index), Some(table)) => print_paths(&Asked { rt, text, index }, table),
        (None, None) => println!(rt; "no document").ok(),
        (Some(_), None) => println!(rt; "a document for the index alone").ok(),
        (None, Some(_)) => println!(rt; "a document for toml alone").ok(),
    }
}

// Prints what is known of each path to a value.
fn print_paths(asked: &Asked<'_>, table: &Table) -> Option<()> {
    let alloc = asked.rt.alloc();
    print_path(asked, &[])?;
    print_beyond(asked, &[], table.len())?;
    println!(asked.rt; "").ok()?;
    let mut waiting = Vec::new(alloc);
    push_members(alloc, &mut waiting, &[], table).ok()?;
    for _turn in 0..usize::MAX {
        let Some((path, value)) = waiting.pop() else {
            return Some(());
        };
        print_path(asked, &path)?;
        print_beyond(asked, &path, size(value))?;
        print_value(asked, &path, value)?;
        push_below(alloc, &mut waiting, &path, value).ok()?;
    }
    None
}

// The paths to what a value holds, each with what it leads to.
fn push_below<'v>(
    alloc: Global,
    waiting: &mut Vec<(Vec<Step>, &'v Value)>,
    path: &[Step],
    value: &'v Value,
) -> Result<(), AllocError> {
    match value {
        Value::Table(members) => push_members(alloc, waiting, path, members),
        Value::Array(elements) => push_elements(alloc, waiting, path, elements),
        _ => Ok(()),
    }
}

fn push_members<'v>(
    alloc: Global,
    waiting: &mut Vec<(Vec<Step>, &'v Value)>,
    path: &[Step],
    members: &'v Table,
) -> Result<(), AllocError> {
    for (key, value) in members {
        waiting.push((longer(alloc, path, Step::Key(key.clone()?))?, value))?;
    }
    Ok(())
}

fn push_elements<'v>(
    alloc: Global,
    waiting: &mut Vec<(Vec<Step>, &'v Value)>,
    path: &[Step],
    elements: &'v Vec<Value>,
) -> Result<(), AllocError> {
    for (index, value) in elements.iter().enumerate() {
        waiting.push((longer(alloc, path, Step::Index(index))?, value))?;
    }
    Ok(())
}

// A path with one more step.
fn longer(alloc: Global, path: &[Step], last: Step) -> Result<Vec<Step>, AllocError> {
    let mut steps = Vec::new(alloc);
    for step in path {
        steps.push(copy_of(step)?)?;
    }
    steps.push(last)?;
    Ok(steps)
}

fn copy_of(step: &Step) -> Result<Step, AllocError> {
    match step {
        Step::Key(key) => Ok(Step::Key(key.clone()?)),
        Step::Index(index) => Ok(Step::Index(*index)),
    }
}

// How much a value holds.
fn size(value: &Value) -> usize {
    match value {
        Value::Table(members) => members.len(),
        Value::Array(elements) => elements.len(),
        _ => 0,
    }
}

// Prints a path, and the places of its key and of its value.
fn print_path(asked: &Asked<'_>, path: &[Step]) -> Option<()> {
    let rt = asked.rt;
    print_steps(rt, path)?;
    print_span(rt, asked.index.key(path))?;
    print_span(rt, asked.index.value(path))
}

// Keys by the bytes of their text, and indexes.
fn print_steps(rt: &HostRuntime, path: &[Step]) -> Option<()> {
    for step in path {
        match step {
            Step::Key(key) => print_key(rt, "/k", key.as_str())?,
            Step::Index(index) => print!(rt; "/{index}").ok()?,
        }
    }
    Some(())
}

/// Prints a mark, and behind it the bytes of a key.
pub(crate) fn print_key(rt: &HostRuntime, mark: &str, key: &str) -> Option<()> {
    print!(rt; "{mark}").ok()?;
    for byte in key.bytes() {
        print!(rt; "{byte:02x}").ok()?;
    }
    Some(())
}

fn print_span(rt: &HostRuntime, span: Option<Span>) -> Option<()> {
    match span {
        Some(Span { begin, end }) => {
            print!(rt;
                " {}:{}-{}:{}",
                begin.line, begin.column, end.line, end.column
            )
            .ok()
        }
        None => print!(rt; " none").ok(),
    }
}

// Prints a word unless what leads on from a path to no value has no place.
fn print_beyond(asked: &Asked<'_>, path: &[Step], size: usize) -> Option<()> {
    let alloc = asked.rt.alloc();
    let key = String::from_str(alloc, "beyond").ok()?;
    for last in [Step::Index(size), Step::Key(key)] {
        let path = longer(alloc, path, last).ok()?;
        if has_place(asked.index, &path) {
            print!(asked.rt; " beyond").ok()?;
        }
    }
    Some(())
}

// Whether the index knows the path.
fn has_place(index: &Index, path: &[Step]) -> bool {
    index.key(path).is_some() || index.value(path).is_some()
}

// Ends the line, with a word before unless the bytes of a value are read as the value.
fn print_value(asked: &Asked<'_>, path: &[Step], value: &Value) -> Option<()> {
    let rt = asked.rt;
    if let Some(bytes) = asked.index.value_bytes(path) {
        if !is_read_as(rt.alloc(), asked.text.get(bytes)?, value)? {
            print!(rt; " another value").ok()?;
        }
    }
    println!(rt; "").ok()
}

// Whether a text reads as this value, which its text says: no NaN equals itself.
fn is_read_as(alloc: Global, text: &str, value: &Value) -> Option<bool> {
    match Value::from_str(alloc, text) {
        Ok(read) => {
            let read = format!(in alloc; "{read:?}").ok()?;
            let value = format!(in alloc; "{value:?}").ok()?;
            Some(read == value)
        }
        Err(_) => Some(false),
    }
}
