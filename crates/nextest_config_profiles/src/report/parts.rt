//! The parts of a report on a profile: its settings, what else it has, and what overrides may
//! change.

use std::time::Duration;
use toml::Value;
use toml_spans::Place;

/// A profile of a chain.
#[derive(Clone, Copy)]
pub struct ChainProfile<'a> {
    pub name: &'a str,
    /// Where a file says what it inherits from. What `default` has there doesn't count.
    pub inherits: Option<Source<'a>>,
}

/// A value, and how TOML writes it on one line.
#[derive(Drop)]
pub struct Literal {
    pub value: Value,
    pub text: String,
}

/// Where a value stands: a profile has it, in a file or as nextest sets it itself.
#[derive(Clone, Copy)]
pub struct Source<'a> {
    pub profile: &'a str,
    /// `None`: nextest sets it itself.
    pub file: Option<FilePlace<'a>>,
}

/// A file, and where something begins in it.
#[derive(Clone, Copy)]
pub struct FilePlace<'a> {
    pub path: &'a str,
    /// `None` where the index of the file is that of another text, which has no such path.
    pub place: Option<Place>,
}

/// What is told of a key of a setting.
#[derive(Drop)]
pub struct Row<'a> {
    /// The path of the key, below the profile.
    pub keys: Vec<&'a str>,
    pub state: KeyState<'a>,
    /// What this hides, the highest first.
    pub hidden: Vec<Hidden<'a>>,
}

/// What a key of a setting has.
#[derive(Drop)]
pub enum KeyState<'a> {
    /// This value, from there.
    Value {
        literal: Literal,
        source: Source<'a>,
        remark: Remark,
    },
    /// This value, from there, of a setting with a duration that isn't judged here; or one that
    /// nextest may convert, or with which something is wrong by its documentation alone.
    NotJudged {
        literal: Literal,
        source: Source<'a>,
    },
    /// What the reader of the table takes where the key is absent.
    Default(Literal),
    /// What the reader of a table takes for a key, where a text or a number stands for the table.
    Implied(Literal),
    /// Nothing gives it.
    Unset,
    /// The empty text there takes away what nextest sets itself.
    NoValue(Source<'a>),
    /// The reader refuses what the merged files have there.
    Fault {
        /// What is wrong.
        message: String,
        /// Where the parts of the value stand.
        sources: Vec<FaultSource<'a>>,
    },
}

/// What is remarked of a value.
#[derive(Clone, Copy)]
pub enum Remark {
    Nothing,
    /// It is a time as long as none at all.
    NoLimit,
    /// It is the number of periods after which a slow test is terminated: after so long.
    TerminatedAfter(Duration),
}

/// Where a part of a value that is refused stands.
#[derive(Drop)]
pub struct FaultSource<'a> {
    /// The path of its key, below the profile.
    pub keys: Vec<&'a str>,
    pub source: Source<'a>,
}

/// A value that doesn't count, since another one lies above it.
#[derive(Drop)]
pub struct Hidden<'a> {
    /// The path of its key, below the profile.
    pub keys: Vec<&'a str>,
    pub literal: Literal,
    pub source: Source<'a>,
}

/// What a profile has at a key that no setting here reads.
#[derive(Drop)]
pub struct OtherKey<'a> {
    pub key: &'static str,
    pub literal: Literal,
    pub source: Source<'a>,
}

/// An override, which sets keys for the tests that it selects.
#[derive(Drop)]
pub struct Override<'a> {
    /// Where it begins.
    pub source: Source<'a>,
    pub filter: Option<Literal>,
    pub platform: Option<Literal>,
    /// The other keys that it has.
    pub settings: Vec<OverrideSetting>,
}

/// A key that an override sets.
#[derive(Drop)]
pub struct OverrideSetting {
    pub key: &'static str,
    pub literal: Literal,
}

/// What is wrong with a setting of a profile that doesn't give it to the one that is asked for.
#[derive(Drop)]
pub struct OtherProfileFault<'a> {
    pub profile: &'a str,
    /// The path of the setting, below the profile.
    pub keys: Vec<&'a str>,
    /// What is wrong.
    pub message: String,
    /// Where the parts of the value stand.
    pub sources: Vec<FaultSource<'a>>,
}
