//! Lists of files, and what profiles get of them. A block has the files in reading order, and a line
//! `> PROFILE ASKED: ANSWER` for each answer. Its call is `list`.
//!
//! A file is a line `--- SOURCE` and its lines. SOURCE is `repository`, `explicit` or `tool NAME`.
//! What is asked is one of these, all of which tell why the profile has none, where that is so:
//!
//! - `chain`: the profile and those whose settings it falls back on;
//! - `junit FOLDER`: the report that is written below the folder;
//! - the keys of a setting: its value and the profile of which it is, or `nothing`.

use crate::answers::{copied, cut, done, push, unknown, written};
use crate::failure::Failure;
use crate::files::documents::document;
use crate::runner::Runner;
use crate::settings::readers::of_profile;
use crate::told::{self, Told, answered};
use crate::values::{FromRow, word};
use nextest_config::nextest_version::{ConfigSource, ConfigSourceKind};
use nextest_config_elements::profile_setting::ProfileSetting;
use nextest_config_profiles::{Effective, EffectiveProfile, InheritsPlace, Layer, ProfileFault};
use std::fmt::Debug;
use toml::Table;
use toml_spans::Index;

// A file of a list.
#[derive(Drop)]
struct File {
    source: ConfigSource,
    document: Table,
    index: Index,
}

/// What each line of a block asks of its files.
pub fn lists(rt: &Runner, call: &str, input: &str) -> Result<String, Failure> {
    if call != "list" {
        return unknown(rt, call);
    }
    let block = done(rt, format!(in rt.alloc(); "\n{input}"))?;
    let (files, asked) = cut(block.as_str(), "\n> ")?;
    let files = read_files(rt, files)?;
    let layers = layers(rt, files.as_slice())?;
    let mut told = String::new(rt.alloc());
    for line in asked.split("\n> ") {
        tell(rt, &mut told, layers.as_slice(), line)?;
    }
    Ok(told)
}

fn read_files(rt: &Runner, block: &str) -> Result<Vec<File>, Failure> {
    let mut files = Vec::new(rt.alloc());
    for part in block.split("\n--- ").skip(1) {
        let (source, text) = part.split_once('\n').unwrap_or((part, ""));
        done(rt, files.push(read_file(rt, source, text)?))?;
    }
    Ok(files)
}

fn read_file(rt: &Runner, source: &str, text: &str) -> Result<File, Failure> {
    let document = document(rt, text)?;
    let Some(index) = done(rt, Index::of(rt.alloc(), text))? else {
        return Err(Failure::Unreadable("a document has no index"));
    };
    Ok(File {
        source: ConfigSource {
            kind: ConfigSourceKind::from_row(rt, source)?,
            path: copied(rt, source)?,
        },
        document,
        index,
    })
}

fn layers<'f>(rt: &Runner, files: &'f [File]) -> Result<Vec<Layer<'f>>, Failure> {
    let mut layers = Vec::new(rt.alloc());
    for file in files {
        let layer = Layer {
            source: &file.source,
            document: &file.document,
            index: &file.index,
        };
        done(rt, layers.push(layer))?;
    }
    Ok(layers)
}

// Adds what is to stand in a line.
fn tell(rt: &Runner, told: &mut String, layers: &[Layer<'_>], line: &str) -> Result<(), Failure> {
    let (call, _) = line.split_once(": ").unwrap_or((line, ""));
    let (name, _) = word(call);
    let answer = answered(rt, call, EffectiveProfile::of(rt.alloc(), layers, name))?;
    if !told.is_empty() {
        push(told, " && ")?;
    }
    done(rt, write!(told, "{call}: {answer}"))
}

impl Told for ProfileFault<'_> {
    fn told(&self, rt: &Runner, _call: &str) -> Result<String, Failure> {
        match self {
            ProfileFault::NoProfile => copied(rt, "NoProfile"),
            ProfileFault::Ring { profile, .. } => {
                done(
                    rt,
                    format!(in rt.alloc(); "Ring {{ profile: {profile:?} }}"),
                )
            }
            ProfileFault::NotDefined {
                profile,
                parent,
                ..
            } => done(
                rt,
                format!(in rt.alloc(); "NotDefined {{ profile: {profile:?}, parent: {parent:?} }}"),
            ),
            ProfileFault::NotText { profile, .. } => {
                done(
                    rt,
                    format!(in rt.alloc(); "NotText {{ profile: {profile:?} }}"),
                )
            }
            ProfileFault::Memory => copied(rt, "Memory"),
        }
    }
}

impl Told for EffectiveProfile<'_> {
    fn told(&self, rt: &Runner, call: &str) -> Result<String, Failure> {
        let (_, asked) = word(call);
        match word(asked) {
            ("chain", _) => done(rt, self.chain().join(rt.alloc(), ", ")),
            ("junit", folder) => report(rt, self, folder),
            _ => of_profile(rt, self, asked),
        }
    }
}

// The report below a folder, or why it isn't known.
fn report(rt: &Runner, profile: &EffectiveProfile<'_>, folder: &str) -> Result<String, Failure> {
    let junit = done(rt, profile.junit(rt.alloc()))?;
    match junit.config(rt.alloc(), folder) {
        Ok(Some(config)) => written(rt, config),
        Ok(None) => copied(rt, "nothing"),
        Err(fault) => written(rt, fault),
    }
}

/// What a profile gets for the setting of a type at a path.
pub fn given<T: ProfileSetting + Debug>(
    rt: &Runner,
    profile: &EffectiveProfile<'_>,
    path: &str,
) -> Result<String, Failure> {
    let keys: Vec<&str> = done(rt, path.split('.').collect(rt.alloc()))?;
    let effective = profile.setting::<T>(rt.alloc(), keys.as_slice())?;
    effective_text(rt, effective)
}

fn effective_text<T: ProfileSetting + Debug>(
    rt: &Runner,
    effective: Effective<'_, T>,
) -> Result<String, Failure> {
    match effective {
        Effective::Value { profile, value } => told_of(rt, written(rt, value)?, profile),
        Effective::NotJudged { profile } => told_of(rt, copied(rt, "not judged")?, profile),
        Effective::Fault { profile, fault } => {
            told_of(rt, told::tell(rt, "", fault.at(rt.alloc(), ""))?, profile)
        }
        Effective::Nothing => copied(rt, "nothing"),
    }
}

fn told_of(rt: &Runner, text: String, profile: &str) -> Result<String, Failure> {
    done(rt, format!(in rt.alloc(); "{text} ({profile})"))
}
