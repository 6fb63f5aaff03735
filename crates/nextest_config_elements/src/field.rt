//! What a key is: what its value has to be, and what stands in it.

ghost use Rattle.std.specs.Prelude.{◌≡◌};
ghost use Rattle.nextest_config_elements.specs.Fields.{within};

use crate::named::{NamedKind, ScriptKind};
use crate::purpose::Purpose;
use crate::word_list::WordList;

/// A key that is known in a table.
#[cycle(fields)]
#[derive(Clone, Copy)]
pub struct Field {
    pub key: &'static str,
    /// What its value has to be.
    pub shape: Shape,
    /// What stands in its value.
    pub parts: Parts,
    /// How grave a fault of its value is.
    pub severity: FaultSeverity,
    /// Whether a table has to have the key.
    pub required: bool,
    /// What stands for it where it is absent. Of a key that a table has to have, what stands for it
    /// where a value of another kind stands in the place of the table.
    pub absent: Absent,
    /// What it is for.
    pub purpose: Purpose,
}

impl Field {
    /// A key whose value a reader of nextest's takes, so that a fault of it is an error. What a row
    /// doesn't say, it has from here.
    pub const READ: Field = Field {
        key: "",
        shape: Shape::Any,
        parts: Parts::Nothing,
        severity: FaultSeverity::Error,
        required: false,
        absent: Absent::Taken(Literal::Nothing),
        purpose: Purpose::Unsaid,
    };

    /// A key that is known from nextest's documentation alone.
    pub const DOCUMENTED: Field = Field {
        severity: FaultSeverity::Warning,
        ..Field::READ
    };
}

// A row: its key, its shape, its purpose, what it says besides, and what has the rest.
macro_rules! row {
    ($key:tt: $shape:expr, $purpose:ident $(, $name:ident: $value:expr)*; $rest:ident) => {
        $crate::field::Field {
            key: $key,
            shape: $shape,
            purpose: $crate::purpose::Purpose::$purpose,
            $($name: $value,)*
            ..$crate::field::Field::$rest
        }
    };
}

// The row of a key whose value a reader of nextest's takes.
macro_rules! field {
    ($($row:tt)*) => { $crate::field::row!($($row)*; READ) };
}

// The row of a key that is known from nextest's documentation alone.
macro_rules! documented {
    ($($row:tt)*) => { $crate::field::row!($($row)*; DOCUMENTED) };
}

// The row of profiles in an override: where its key is absent, what the profile has stands for it.
macro_rules! of_profile {
    ($field:ident) => {
        $crate::field::Field {
            absent: $crate::field::Absent::OfProfile,
            ..$field
        }
    };
}

pub(crate) use documented;
pub(crate) use field;
pub(crate) use of_profile;
pub(crate) use row;

/// How grave a fault is.
#[derive(Clone, Copy, Debug, PartialEq, Eq)]
pub enum FaultSeverity {
    /// nextest refuses the value.
    Error,
    /// nextest refuses the value, unless it can make the wanted kind of it.
    ErrorUnlessConverted,
    /// The value breaks a rule that is known from nextest's documentation alone.
    Warning,
}

/// What stands for a key that is absent.
#[derive(Clone, Copy)]
pub enum Absent {
    /// Its default, which the reader of its table takes.
    Taken(Literal),
    /// What the profile inherits, or else this, which nextest sets itself.
    Inherited(Literal),
    /// In an override, what its profile has.
    OfProfile,
}

/// A value, or none.
#[derive(Clone, Copy)]
pub enum Literal {
    Nothing,
    Boolean(bool),
    Integer(i64),
    Text(&'static str),
    /// An array without elements.
    EmptyArray,
}

/// What a value has to be, but for what stands in it.
#[derive(Clone, Copy)]
pub enum Shape {
    /// Anything.
    Any,
    /// A table.
    Table,
    /// A table (one for which there is a rule beyond those of its keys).
    RuledTable(TableRule),
    /// An array.
    Array,
    /// The value of `nextest-version`: a version text, or a table.
    NextestVersion,
    /// A version text.
    VersionText,
    /// The value of `experimental`: a table of features, or an array of their names.
    Experimental,
    /// The name of an experimental feature.
    FeatureName,
    /// The value of `retries`: a number of retries, or a table.
    Retries,
    /// The kind of backoff, by its word.
    Backoff,
    /// What becomes of a flaky test, by its word.
    FlakyResult,
    /// How many threads a test takes: an integer, or a word.
    ThreadsRequired,
    /// The value of `fail-fast`: a boolean, or a table.
    FailFast,
    /// The number of failures that a run may have: an integer, or a word.
    MaxFail,
    /// What happens to running tests once that number is reached, by its word.
    TerminateMode,
    /// The value of `slow-timeout`: a text, or a table.
    SlowTimeout,
    /// What becomes of a slow test that is terminated, by its word.
    SlowTimeoutResult,
    /// The value of `leak-timeout`: a text, or a table.
    LeakTimeout,
    /// What becomes of a leaky test, by its word.
    LeakTimeoutResult,
    /// A duration text.
    Duration,
    /// A duration text, usually below a second.
    ShortDuration,
    /// The priority of a test.
    Priority,
    /// A boolean.
    Boolean,
    /// An integer that fits a `u32`.
    U32,
    /// A positive integer that fits a `usize`.
    Count,
    /// Which skipped tests are reported, by its word.
    ReportSkipPolicy,
    /// How a flaky test that is to fail is reported, by its word.
    FlakyFailStatus,
    /// A text.
    Text,
    /// A text (one that names something else of the file).
    Reference(Referent),
    /// A filter.
    Filter,
    /// A filter, which may not ask for the default one.
    DefaultFilter,
    /// An array of texts.
    Texts,
    /// A number of threads: an integer, or a word.
    Threads,
    /// A platform: a text, or a table of two.
    Platform,
    /// The name of a target, or a `cfg(..)`.
    PlatformText,
    /// One of these words.
    Word(WordList),
    /// A text, boolean, integer or float, of which a text is made.
    Scalar,
    /// A text, or an array of texts (each names something else of the file).
    References(Referent),
    /// A command: a command line, or a table that has one.
    Command,
    /// A command line: a text, or an array.
    CommandLine,
    /// A relative path.
    RelativePath,
    /// How deep a folder is gone into: an integer, or a word.
    Depth,
}

/// A rule for a table, beyond those of its keys.
#[derive(Clone, Copy)]
pub enum TableRule {
    /// Of a profile, at its name.
    Profile,
    /// Of an override.
    Override,
    /// Of what a profile says of scripts.
    ScriptRule,
    /// Of what the file defines by a name, at that.
    Definition(NamedKind),
    /// Of the scripts of a kind that the file defines, by their names.
    Scripts(ScriptKind),
}

/// What a text names.
#[derive(Clone, Copy)]
pub enum Referent {
    /// The profile that another one inherits from.
    Parent,
    /// What the file defines by a name.
    Definition(NamedKind),
}

impl Referent {
    pub const TEST_GROUP: Referent = Referent::Definition(NamedKind::Group);

    pub const SETUP_SCRIPT: Referent = Referent::Definition(NamedKind::SETUP_SCRIPT);

    pub const WRAPPER_SCRIPT: Referent = Referent::Definition(NamedKind::WRAPPER_SCRIPT);
}

/// What stands in a value, where it is judged by itself.
#[cycle(fields)]
#[derive(Clone, Copy)]
pub enum Parts {
    /// Nothing is said of it.
    Nothing,
    /// The fields of a table, in the order in which they are judged; other keys are unknown.
    Fields(&'static [Field]),
    /// The fields of `nextest-version`, and the rule between them.
    Versions(&'static [Field]),
    /// Of `experimental`: the fields of a table, whose other keys are names of no feature, or the
    /// texts of an array.
    Features(&'static [Field]),
    /// Of `retries`: the fields of a table by its backoff. A table refuses other keys.
    Retries {
        /// The fields with a fixed backoff.
        fixed: &'static [Field],
        /// The fields with an exponential backoff.
        exponential: &'static [Field],
        /// The fields where there is no backoff.
        open: &'static [Field],
    },
    /// Each key of a table is a name: what its value has to be, and what stands in that.
    Names(Shape, &'static Parts),
    /// Each element of an array: what it has to be, and what stands in it.
    Elements(Shape, &'static Parts),
    /// What each element of an array has to be, or the fields of a table.
    ElementsOrFields(Shape, &'static [Field]),
}

impl FaultSeverity {
    /// How grave a fault is in a value whose own faults are as grave as the outer one: in what
    /// nextest's documentation alone tells of, nothing is graver than that.
    pub fn within(self, outer: FaultSeverity) -> FaultSeverity
        ensures { result ≡ within outer self }
    {
        match outer {
            FaultSeverity::Warning => FaultSeverity::Warning,
            FaultSeverity::Error | FaultSeverity::ErrorUnlessConverted => self,
        }
    }
}
