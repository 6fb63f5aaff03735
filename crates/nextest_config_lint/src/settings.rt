//! What is judged in a document, each with its path.

ghost use Rattle.std.specs.Prelude.{◌≡◌, IfOk, map};
ghost use Rattle.nextest_config_values.specs.Read.{words_of};
ghost use Rattle.toml_spans.specs.Step.{step_of};
ghost use Rattle.nextest_config_elements.specs.Fields.{field_words, fields_view};
ghost use Rattle.nextest_config_lint.specs.Settings.{is_key, is_known, mark_step, setting_view};

use nextest_config_elements::field::{FaultSeverity, Field, Parts, Shape};
use std::alloc::{AllocError, Global};
use toml::Value;
use toml_spans::Step;

/// A step of the path to a value, as it lies in the document.
#[derive(Clone, Copy)]
pub(crate) enum Mark<'a> {
    Key(&'a str),
    Index(usize),
}

/// The rules between the keys of a table.
#[derive(Clone, Copy)]
pub(crate) enum Rules {
    Versions,
    Retries,
}

/// What is judged at a path.
#[derive(Clone, Copy)]
pub(crate) enum Subject<'a> {
    /// The value there; what stands in it is judged by itself.
    Value {
        shape: Shape,
        parts: Parts,
        value: &'a Value,
    },
    /// A key that the table there has to have, and lacks.
    AbsentKey(&'static str),
    /// A key that the table there refuses: the words that it says it expects, and the keys that it
    /// may have.
    RefusedKey {
        name: &'a str,
        expected: &'static [&'static str],
        known: &'static [Field],
    },
    /// The rules between the keys of the value there, which is a table.
    Between(Rules, &'a Value),
    /// The features that the value there names.
    Features(&'a Value),
}

/// What is judged at a path, and how grave a fault of it is.
#[derive(Clone, Copy)]
pub(crate) struct Setting<'p, 'a> {
    pub severity: FaultSeverity,
    pub path: &'p [Mark<'a>],
    pub subject: Subject<'a>,
}

impl Setting<'_, '_> {
    /// The steps of the path.
    pub(crate) fn steps(&self, alloc: Global) -> Result<Vec<Step>, AllocError>
        ensures { IfOk result (λ steps. map step_of steps.items ≡ (setting_view self.now).path) }
    {
        steps_of(alloc, self.path)
    }
}

/// Whether a step is this key.
pub(crate) fn is_key(step: &Mark, key: &str) -> bool
    ensures { result ≡ is_key key.now (mark_step step.now) }
{
    match step {
        Mark::Key(text) => *text == key,
        Mark::Index(_) => false,
    }
}

/// Whether the key is that of one of these fields.
pub(crate) fn is_among(fields: &[Field], name: &str) -> bool
    ensures { result ≡ is_known (field_words (fields_view fields.now)) name.now }
{
    fields.iter().any(|field| field.key == name)
}

/// The keys of fields, in their order.
pub(crate) fn keys_of(alloc: Global, fields: &[Field]) -> Result<Vec<&'static str>, AllocError>
    ensures { IfOk result (λ keys. words_of keys.items ≡ field_words (fields_view fields.now)) }
{
    let mut keys = Vec::new(alloc);
    for field in fields {
        keys.push(field.key)?;
    }
    Ok(keys)
}

/// The steps of a path.
pub(crate) fn steps_of(alloc: Global, path: &[Mark]) -> Result<Vec<Step>, AllocError>
    ensures { IfOk result (λ steps. map step_of steps.items ≡ map mark_step path.now) }
{
    let mut steps = Vec::new(alloc);
    for mark in path {
        steps.push(mark.step(alloc)?)?;
    }
    Ok(steps)
}

impl Mark<'_> {
    pub(crate) fn step(self, alloc: Global) -> Result<Step, AllocError>
        ensures { IfOk result (λ step. step_of step ≡ mark_step self.entry) }
    {
        match self {
            Mark::Key(key) => Ok(Step::Key(String::from_str(alloc, key)?)),
            Mark::Index(index) => Ok(Step::Index(index)),
        }
    }
}
