//! What is wrong with a TOML value, wherever the value stands.

ghost use Rattle.std.specs.Prelude.{◌≡◌, ◌++◌, [], IfOk, IfSome, is_none, map, OnOk, string_bytes};
ghost use Rattle.toml.specs.View.{view};
ghost use Rattle.nextest_config_values.specs.Read.{cause_of, fault_below, fault_here, fault_of, FaultOrMemory, found_text, index, IsMemory, key, missing, no_duration, path_along, path_by, path_of, reason_at, reason_of, RefusesAs, RefusesKind, step_of, TellsAs, TellsMemory, read_fault_at, read_fault_with, unknown_key, unknown_word, words_of, wrong_type, wrong_value};
ghost use Rattle.nextest_config_values.specs.declared.read.fault.FaultKind.TheVariants.{Memory};
ghost use Rattle.nextest_config_values.specs.declared.read.value_fault.FaultCause.TheVariants as causes;

use super::fault::{FaultKind, ReadFault};
use super::text::found_text;
use std::alloc::{AllocError, Global};
use std::fmt::Write;
use toml::Value;
use toml_spans::Step;

/// What is wrong with a value that a reader refuses, for readers that are made of others: a reader
/// of a table adds the key of the value that it refuses. [`ValueFault::at`] gives what is told.
#[derive(Debug, PartialEq, Eq, Drop)]
pub struct ValueFault {
    /// The steps from the value to what is wrong.
    pub steps: Vec<Step>,
    pub cause: FaultCause,
}

/// Why a value is refused. What is told of the first two differs from place to place, or is asked
/// for: whether a duration was expected, and which key is missing.
#[derive(Debug, PartialEq, Eq, Drop)]
pub enum FaultCause {
    /// The text is no duration.
    NoDuration { found: String },
    /// The table lacks this key.
    Missing { key: String },
    /// The value is refused for this reason, wherever it stands.
    Kind(FaultKind),
}

impl ValueFault {
    // The value itself is refused.
    fn here(alloc: Global, cause: FaultCause) -> ValueFault
        ensures steps { result.steps.items ≡ [] }
        ensures cause { result.cause ≡ cause }
    {
        ValueFault {
            steps: Vec::new(alloc),
            cause,
        }
    }

    /// A value that is refused for this reason.
    pub fn new(alloc: Global, kind: FaultKind) -> ValueFault
        ensures { RefusesKind kind result }
    {
        if kind.is_memory() {
            return ValueFault::memory(alloc);
        }
        ValueFault::here(alloc, FaultCause::Kind(kind))
    }

    /// A value whose kind the setting doesn't take.
    pub fn invalid_type(alloc: Global, value: &Value, expected: &'static str) -> ValueFault
        ensures { RefusesAs (wrong_type (view value.now) expected.now) result }
    {
        match found_text(alloc, value) {
            Ok(found) => ValueFault::new(alloc, FaultKind::InvalidType { found, expected }),
            Err(AllocError) => ValueFault::memory(alloc),
        }
    }

    /// A value of the right kind, outside of what the setting takes.
    pub fn invalid_value(alloc: Global, value: &Value, expected: &'static str) -> ValueFault
        ensures { RefusesAs (wrong_value (view value.now) expected.now) result }
    {
        match found_text(alloc, value) {
            Ok(found) => ValueFault::new(alloc, FaultKind::InvalidValue { found, expected }),
            Err(AllocError) => ValueFault::memory(alloc),
        }
    }

    /// A text that is no duration.
    pub fn no_duration(alloc: Global, value: &Value) -> ValueFault
        ensures { RefusesAs (fault_here (no_duration (found_text (view value.now)))) result }
    {
        match found_text(alloc, value) {
            Ok(found) => ValueFault::here(alloc, FaultCause::NoDuration { found }),
            Err(AllocError) => ValueFault::memory(alloc),
        }
    }

    /// A text that is none of the setting's words, which are these.
    pub fn unknown_variant(
        alloc: Global,
        text: &str,
        expected: &'static [&'static str],
    ) -> ValueFault
        ensures { RefusesAs (unknown_word text.now (words_of expected.now)) result }
    {
        match String::from_str(alloc, text) {
            Ok(found) => ValueFault::new(alloc, FaultKind::UnknownVariant { found, expected }),
            Err(AllocError) => ValueFault::memory(alloc),
        }
    }

    /// A table with a key that is none of those that the setting knows.
    pub fn unknown_field(alloc: Global, key: &str, expected: &'static [&'static str]) -> ValueFault
        ensures { RefusesAs (unknown_key key.now (words_of expected.now)) result }
    {
        match String::from_str(alloc, key) {
            Ok(found) => ValueFault::new(alloc, FaultKind::UnknownField { found, expected }),
            Err(AllocError) => ValueFault::memory(alloc),
        }
    }

    /// A table that lacks this key.
    pub fn missing_field(alloc: Global, key: &str) -> ValueFault
        ensures { RefusesAs (missing key.now) result }
    {
        match String::from_str(alloc, key) {
            Ok(key) => ValueFault::here(alloc, FaultCause::Missing { key }),
            Err(AllocError) => ValueFault::memory(alloc),
        }
    }

    /// A value whose reading was refused memory: nothing is said of it.
    pub fn memory(alloc: Global) -> ValueFault
        ensures { IsMemory result }
    {
        ValueFault::here(alloc, FaultCause::Kind(FaultKind::Memory))
    }

    /// Whether a request for memory was refused.
    pub fn is_memory(&self) -> bool
        ensures { result ≡ is_none (fault_of self.now) }
    {
        match &self.cause {
            FaultCause::Kind(kind) => kind.is_memory(),
            FaultCause::NoDuration { .. } | FaultCause::Missing { .. } => false,
        }
    }

    /// The fault of what stands at a key, as one of the table.
    pub fn below_key(self, alloc: Global, name: &str) -> ValueFault
        ensures memory { IsMemory self → IsMemory result }
        ensures fault { IfSome (fault_of self)
            (λ fault. RefusesAs (fault_below (key name.now) fault) result) }
    {
        match String::from_str(alloc, name) {
            Ok(key) => self.below(alloc, Step::Key(key)),
            Err(AllocError) => ValueFault::memory(alloc),
        }
    }

    /// The fault of the element at an index, as one of the array.
    pub fn below_index(self, alloc: Global, place: usize) -> ValueFault
        ensures memory { IsMemory self → IsMemory result }
        ensures fault { IfSome (fault_of self)
            (λ fault. RefusesAs (fault_below (index place) fault) result) }
    {
        self.below(alloc, Step::Index(place))
    }

    // The fault of what stands at a step.
    fn below(mut self, alloc: Global, step: Step) -> ValueFault
        ensures memory { IsMemory self → IsMemory result }
        ensures fault { IfSome (fault_of self)
            (λ fault. RefusesAs (fault_below (step_of step) fault) result) }
    {
        match self.steps.insert(0, step) {
            Ok(()) => self,
            Err(_) => ValueFault::memory(alloc),
        }
    }

    /// What is told of the fault of a value at this path.
    pub fn at(self, alloc: Global, at: &str) -> ReadFault
        ensures memory { IsMemory self → TellsMemory result }
        ensures told { IfSome (fault_of self)
            (λ fault. TellsAs (read_fault_at at.now fault) result) }
    {
        match path_along(alloc, at, self.steps.as_slice()) {
            Ok(path) => {
                let kind = self.cause.kind_at(alloc, path.as_str());
                fault_with(alloc, path, kind)
            }
            Err(AllocError) => ReadFault::memory(alloc),
        }
    }
}

impl FaultCause {
    /// What is told of the cause at this path.
    pub fn kind_at(self, alloc: Global, path: &str) -> FaultKind
        ensures memory { self ≡ causes.Kind Memory → result ≡ Memory }
        ensures kind { IfSome (cause_of self) (λ cause. FaultOrMemory (reason_of result)
            (result ≡ Memory) (λ reason. reason ≡ reason_at path.now cause)) }
    {
        match self {
            FaultCause::NoDuration { found } => FaultKind::InvalidValue {
                found,
                expected: "a duration",
            },
            FaultCause::Missing { key } => match path_of(alloc, path, key.as_str()) {
                Ok(key) => FaultKind::MissingField { key },
                Err(AllocError) => FaultKind::Memory,
            },
            FaultCause::Kind(kind) => kind,
        }
    }
}

// A fault of this kind at a path; a refusal of memory has none.
fn fault_with(alloc: Global, path: String, kind: FaultKind) -> ReadFault
    ensures { FaultOrMemory (reason_of kind) (TellsMemory result)
        (λ reason. TellsAs (read_fault_with (string_bytes path) reason) result) }
{
    if kind.is_memory() {
        return ReadFault::memory(alloc);
    }
    ReadFault { path, kind }
}

// The path of what these steps lead to from the value at a path.
fn path_along(alloc: Global, at: &str, steps: &[Step]) -> Result<String, AllocError>
    ensures { IfOk result (λ path. string_bytes path ≡ path_along at.now (map step_of steps.now)) }
{
    let mut path = String::from_str(alloc, at)?;
    for step in steps {
        push_step(&mut path, step)?;
    }
    Ok(path)
}

// The path of a key in the table at a path.
fn path_of(alloc: Global, at: &str, key: &str) -> Result<String, AllocError>
    ensures { IfOk result (λ path. string_bytes path ≡ path_of at.now key.now) }
{
    let mut path = String::from_str(alloc, at)?;
    push_key(&mut path, key)?;
    Ok(path)
}

fn push_step(path: &mut String, step: &Step) -> Result<(), AllocError>
    ensures { OnOk result
        (string_bytes path.new ≡ path_by (string_bytes path.old) (step_of step.now)) }
{
    match step {
        Step::Key(key) => push_key(path, key.as_str()),
        Step::Index(index) => write!(path, "[{index}]"),
    }
}

fn push_key(path: &mut String, key: &str) -> Result<(), AllocError>
    ensures { OnOk result (string_bytes path.new ≡ path_of (string_bytes path.old) key.now) }
{
    if !path.is_empty() {
        path.push_str(".")?;
    }
    path.push_str(key)
}
