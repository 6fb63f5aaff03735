//! What profiles get of lists of files.

use crate::positions::print_key;
use nextest_config::nextest_version::{ConfigSource, ConfigSourceKind};
use nextest_config_profiles::setting_key::setting_keys;
use nextest_config_profiles::{EffectiveProfile, Layer, LayerValue};
use std::alloc::{AllocError, Global};
use toml::{Table, Value};
use toml_spans::{Index, Span};

// A document with the index of its places.
#[derive(Drop)]
struct File {
    source: ConfigSource,
    document: Table,
    index: Index,
}

pub(crate) fn run(rt: &HostRuntime, what: &str, text: &str) -> Option<()> {
    match what {
        "documents" => documents(rt.alloc(), text).map(|_| ()),
        "indexes" => files(rt.alloc(), text).map(|_| ()),
        "profile" => ask(rt.alloc(), text),
        "leaves" => print_lists(rt, text),
        _ => None,
    }
}

fn documents(alloc: Global, list: &str) -> Option<Vec<Table>> {
    let mut documents = Vec::new(alloc);
    for text in list.split('\0') {
        documents
            .push(toml::table_from_str(alloc, text).ok()?)
            .ok()?;
    }
    Some(documents)
}

// The documents with their indexes.
fn files(alloc: Global, list: &str) -> Option<Vec<File>> {
    let documents = documents(alloc, list)?;
    let mut texts = list.split('\0');
    let mut files = Vec::new(alloc);
    for document in documents {
        let text = texts.next()?;
        files.push(file_of(alloc, text, document)?).ok()?;
    }
    Some(files)
}

fn file_of(alloc: Global, text: &str, document: Table) -> Option<File> {
    Some(File {
        source: source(alloc).ok()?,
        document,
        index: Index::of(alloc, text).ok()??,
    })
}

fn source(alloc: Global) -> Result<ConfigSource, AllocError> {
    Ok(ConfigSource {
        kind: ConfigSourceKind::DiscoveredRepository,
        path: String::from_str(alloc, ".config/nextest.toml")?,
    })
}

fn layers(alloc: Global, files: &[File]) -> Result<Vec<Layer<'_>>, AllocError> {
    let mut layers = Vec::new(alloc);
    for file in files {
        layers.push(Layer {
            source: &file.source,
            document: &file.document,
            index: &file.index,
        })?;
    }
    Ok(layers)
}

// Asks what the profile `ci` gets of a list.
fn ask(alloc: Global, list: &str) -> Option<()> {
    let files = files(alloc, list)?;
    let layers = layers(alloc, files.as_slice()).ok()?;
    let profile = EffectiveProfile::of(alloc, layers.as_slice(), "ci").ok()?;
    ask_profiles(alloc, &profile).ok()
}

fn ask_profiles(alloc: Global, profile: &EffectiveProfile<'_>) -> Result<(), AllocError> {
    for name in profile.chain() {
        ask_settings(alloc, profile, name.as_str())?;
    }
    Ok(())
}

fn ask_settings(
    alloc: Global,
    profile: &EffectiveProfile<'_>,
    name: &str,
) -> Result<(), AllocError> {
    for keys in &setting_keys() {
        let mut path = Vec::new(alloc);
        path.push(name)?;
        path.extend_from_slice(keys)?;
        ask_setting(alloc, profile, path.as_slice())?;
    }
    Ok(())
}

fn ask_setting(
    alloc: Global,
    profile: &EffectiveProfile<'_>,
    path: &[&str],
) -> Result<(), AllocError> {
    match profile.last_value(alloc, path)? {
        Some(last) => {
            profile.span(alloc, last.layer, path)?;
            Ok(())
        }
        None => Ok(()),
    }
}

fn print_lists(rt: &HostRuntime, text: &str) -> Option<()> {
    for list in text.split('\u{1}') {
        print_list(rt, list)?;
        println!(rt; "").ok()?;
    }
    Some(())
}

// Prints what a list has below `profile`.
fn print_list(rt: &HostRuntime, list: &str) -> Option<()> {
    let alloc = rt.alloc();
    let files = files(alloc, list)?;
    let layers = layers(alloc, files.as_slice()).ok()?;
    let profile = EffectiveProfile::of(alloc, layers.as_slice(), "default").ok()?;
    let all = profile.value(alloc, &[]).ok()??;
    print_leaves(rt, &profile, &all)
}

// Prints each value that is no table, and each empty table.
fn print_leaves(rt: &HostRuntime, profile: &EffectiveProfile<'_>, all: &Value) -> Option<()> {
    let alloc = rt.alloc();
    let mut waiting = Vec::new(alloc);
    waiting.push((Vec::new(alloc), all)).ok()?;
    for _turn in 0..usize::MAX {
        let Some((path, value)) = waiting.pop() else {
            return Some(());
        };
        match members(value) {
            Some(members) => push_members(alloc, &mut waiting, &path, members).ok()?,
            None => print_leaf(rt, profile, &path, value)?,
        }
    }
    None
}

// What a table holds that isn't empty.
fn members(value: &Value) -> Option<&Table> {
    let table = value.as_table()?;
    if table.is_empty() { None } else { Some(table) }
}

fn push_members<'v>(
    alloc: Global,
    waiting: &mut Vec<(Vec<&'v str>, &'v Value)>,
    path: &[&'v str],
    members: &'v Table,
) -> Result<(), AllocError> {
    for (key, value) in members {
        waiting.push((longer(alloc, path, key.as_str())?, value))?;
    }
    Ok(())
}

// A path with one more key.
fn longer<'v>(alloc: Global, path: &[&'v str], last: &'v str) -> Result<Vec<&'v str>, AllocError> {
    let mut keys = Vec::new(alloc);
    keys.extend_from_slice(path)?;
    keys.push(last)?;
    Ok(keys)
}

// Prints a path, the layer that it comes from, where that has it, and its value, with a word after
// where it isn't the layer's, or not what the profile has at the path.
fn print_leaf(
    rt: &HostRuntime,
    profile: &EffectiveProfile<'_>,
    path: &[&str],
    value: &Value,
) -> Option<()> {
    let alloc = rt.alloc();
    print_keys(rt, path)?;
    let shown = format!(in alloc; "{value:?}").ok()?;
    print_source(rt, profile, path, shown.as_str())?;
    if !is_at(alloc, profile, path, shown.as_str())? {
        print!(rt; " another at the path").ok()?;
    }
    println!(rt; "").ok()
}

// Keys by the bytes of their text.
fn print_keys(rt: &HostRuntime, path: &[&str]) -> Option<()> {
    for key in path {
        print_key(rt, "/", key)?;
    }
    Some(())
}

fn print_source(
    rt: &HostRuntime,
    profile: &EffectiveProfile<'_>,
    path: &[&str],
    shown: &str,
) -> Option<()> {
    let alloc = rt.alloc();
    let Some(LayerValue { layer, value }) = profile.last_value(alloc, path).ok()? else {
        return print!(rt; " none none {shown}").ok();
    };
    print!(rt; " {layer}").ok()?;
    print_place(rt, profile.span(alloc, layer, path).ok()?)?;
    print!(rt; " {shown}").ok()?;
    if is_shown(alloc, value, shown)? {
        Some(())
    } else {
        print!(rt; " another in the layer").ok()
    }
}

fn print_place(rt: &HostRuntime, span: Option<Span>) -> Option<()> {
    match span {
        Some(Span { begin, .. }) => print!(rt; " {}:{}", begin.line, begin.column).ok(),
        None => print!(rt; " none").ok(),
    }
}

// Whether this is the text of what the profile has at a path.
fn is_at(
    alloc: Global,
    profile: &EffectiveProfile<'_>,
    path: &[&str],
    shown: &str,
) -> Option<bool> {
    match profile.value(alloc, path).ok()? {
        Some(value) => is_shown(alloc, &value, shown),
        None => Some(false),
    }
}

fn is_shown(alloc: Global, value: &Value, shown: &str) -> Option<bool> {
    let text = format!(in alloc; "{value:?}").ok()?;
    Some(text.as_str() == shown)
}
