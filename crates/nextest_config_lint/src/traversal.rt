//! The way through all that is judged in a value, depth-first.

ghost use Rattle.std.specs.Prelude.{◌≡◌, ◌++◌, ◌∷◌, [], flat_map, IfOk, List, map, OnOk, option_and_then};
ghost use Rattle.toml.specs.Data.{as_table};
ghost use Rattle.toml.specs.View.{array_view, table_view, view};
ghost use Rattle.nextest_config_values.specs.Read.{words_of};
ghost use Rattle.toml_spans.specs.Step.{index as place};
ghost use Rattle.nextest_config_elements.specs.Fields.{elements_or_fields, features, field_words, fields_view, parts_of, versions};
ghost use Rattle.nextest_config_elements.specs.RetryRules.{backoff_in};
ghost use Rattle.nextest_config_lint.specs.Settings.{at_items, at_names, expected_by, has_default_period, in_retries, in_table, is_wanted, mark_step, names_of, of_absent, of_field, of_name, plain_element, plain_elements, seen_field, setting_at, setting_view, settings_below, settings_in, settings_of, settings_of_fields, SettingView, subject_view};
ghost use Rattle.nextest_config_lint.specs.Traversal.{IsBack, Shows, Visits};

use crate::settings::{Mark, Rules, Setting, Subject, is_among, is_key};
use nextest_config_elements::field::{FaultSeverity, Field, Parts, Shape};
use nextest_config_elements::keys::file_fields;
use nextest_config_elements::retry_policy::Backoff;
use std::alloc::{AllocError, Global};
use toml::value::Array;
use toml::{Table, Value};

/// Who is shown all that is judged, one after the other.
pub(crate) trait Visitor: Drop {
    /// One that began so was shown these, and is so now.
    ghost has_visited: { Self → List SettingView → Self → Type 0 };

    /// Takes one more.
    fn visit(&mut self, alloc: Global, setting: &Setting) -> Result<(), AllocError>
        ensures { OnOk result
            (Visits has_visited (setting_view setting.now ∷ []) self.old self.new) };
}

/// Shows all that is judged in a document: what stands at the keys of a table in the order in which
/// its place knows them, profiles by their names, overrides by index.
pub(crate) fn visit_document<V: Visitor>(
    alloc: Global,
    document: &Table,
    visitor: V,
) -> Result<V, AllocError>
    ensures { IfOk result (λ after. Visits V.has_visited (settings_of (table_view document.now))
        visitor after) }
{
    let mut traversal = Traversal::new(alloc, visitor);
    traversal.visit_fields(file_fields(), FaultSeverity::Error, document)?;
    let Traversal { visitor, .. } = traversal;
    Ok(visitor)
}

/// Shows a value of a field, and what is judged in it. Paths begin at the value.
pub(crate) fn visit_value<V: Visitor>(
    alloc: Global,
    field: &Field,
    value: &Value,
    visitor: V,
) -> Result<V, AllocError>
    ensures { let (rule, parts) = seen_field field.now in IfOk result (λ after.
        Visits V.has_visited (settings_in rule.shape rule.severity parts [] (view value.now))
        visitor after) }
{
    let mut traversal = Traversal::new(alloc, visitor);
    traversal.visit_value(field.shape, field.severity, &field.parts, value)?;
    let Traversal { visitor, .. } = traversal;
    Ok(visitor)
}

// Where the way has come to, and who is shown what.
#[derive(Drop)]
struct Traversal<'a, V> {
    alloc: Global,
    path: Vec<Mark<'a>>,
    visitor: V,
}

impl<'a, V: Visitor> Traversal<'a, V> {
    fn new(alloc: Global, visitor: V) -> Traversal<'a, V>
        ensures path { result.path.items ≡ [] }
        ensures visited { result.visitor ≡ visitor }
    {
        Traversal {
            alloc,
            path: Vec::new(alloc),
            visitor,
        }
    }

    // Shows what is judged at the path.
    fn show(&mut self, severity: FaultSeverity, subject: Subject<'a>) -> Result<(), AllocError>
        ensures path { IsBack self.old self.new }
        ensures visited { OnOk result (Shows V.has_visited (λ path.
            setting_at severity path (subject_view subject.entry) ∷ []) self.old self.new) }
    {
        let setting = Setting {
            severity,
            path: self.path.as_slice(),
            subject,
        };
        self.visitor.visit(self.alloc, &setting)
    }

    // Shows a table by its fields, where its own faults are as grave as this.
    #[cycle(visit)]
    fn visit_fields(
        &mut self,
        fields: &[Field],
        severity: FaultSeverity,
        table: &'a Table,
    ) -> Result<(), AllocError>
        ensures path { OnOk result (IsBack self.old self.new) }
        ensures visited { OnOk result (Shows V.has_visited (λ path.
            settings_of_fields (fields_view fields.now) severity path (table_view table.now))
            self.old self.new) }
    {
        for field in fields {
            self.visit_field(field, severity, table)?;
        }
        Ok(())
    }

    // Shows what stands at a key of a table, or that the table lacks it.
    #[cycle(visit)]
    fn visit_field(
        &mut self,
        field: &Field,
        severity: FaultSeverity,
        table: &'a Table,
    ) -> Result<(), AllocError>
        ensures path { OnOk result (IsBack self.old self.new) }
        ensures visited { OnOk result (Shows V.has_visited (λ path.
            of_field severity (seen_field field.now) path (table_view table.now))
            self.old self.new) }
    {
        let severity = field.severity.within(severity);
        match table.get(field.key) {
            Some(value) => {
                let key = Mark::Key(field.key);
                self.visit_below(key, field.shape, severity, &field.parts, value)
            }
            None => self.show_absent(field, severity),
        }
    }

    // Shows a value one step on, and what is judged in it.
    #[cycle(visit)]
    fn visit_below(
        &mut self,
        step: Mark<'a>,
        shape: Shape,
        severity: FaultSeverity,
        parts: &Parts,
        value: &'a Value,
    ) -> Result<(), AllocError>
        ensures path { OnOk result (IsBack self.old self.new) }
        ensures visited { OnOk result (Shows V.has_visited (λ path.
            settings_in shape severity (parts_of parts.now) (path ++ (mark_step step.entry ∷ []))
            (view value.now)) self.old self.new) }
    {
        self.path.push(step)?;
        self.visit_value(shape, severity, parts, value)?;
        let _last = self.path.pop();
        Ok(())
    }

    // Shows the value at the path, and what is judged in it.
    #[cycle(visit)]
    fn visit_value(
        &mut self,
        shape: Shape,
        severity: FaultSeverity,
        parts: &Parts,
        value: &'a Value,
    ) -> Result<(), AllocError>
        ensures path { OnOk result (IsBack self.old self.new) }
        ensures visited { OnOk result (Shows V.has_visited (λ path.
            settings_in shape severity (parts_of parts.now) path (view value.now))
            self.old self.new) }
    {
        let subject = Subject::Value {
            shape,
            parts: *parts,
            value,
        };
        self.show(severity, subject)?;
        self.visit_parts(severity, parts, value)
    }

    // Shows what is judged in the value at the path.
    #[cycle(visit)]
    fn visit_parts(
        &mut self,
        severity: FaultSeverity,
        parts: &Parts,
        value: &'a Value,
    ) -> Result<(), AllocError>
        ensures path { OnOk result (IsBack self.old self.new) }
        ensures visited { OnOk result (Shows V.has_visited (λ path.
            settings_below (parts_of parts.now) severity path (view value.now)) self.old self.new) }
    {
        match parts {
            Parts::Nothing => Ok(()),
            Parts::Fields(fields) => match value.as_table() {
                Some(table) => self.visit_fields(fields, severity, table),
                None => Ok(()),
            },
            Parts::Versions(fields) => self.visit_versions(severity, fields, value),
            Parts::Features(fields) => self.visit_features(severity, fields, value),
            Parts::Retries {
                fixed,
                exponential,
                open,
            } => match backoff_of(value) {
                Some(Backoff::Fixed) => self.visit_retries(severity, fixed, value),
                Some(Backoff::Exponential) => self.visit_retries(severity, exponential, value),
                None => self.visit_retries(severity, open, value),
            },
            Parts::Names(shape, each) => match value.as_table() {
                Some(table) => self.visit_names(*shape, severity, each, table),
                None => Ok(()),
            },
            Parts::Elements(shape, each) => match value.as_array() {
                Some(array) => self.visit_elements(*shape, severity, each, array),
                None => Ok(()),
            },
            Parts::ElementsOrFields(shape, fields) => {
                self.visit_either(*shape, severity, fields, value)
            }
        }
    }

    // Shows what is judged in a value of `nextest-version`, if it is a table.
    #[cycle(visit)]
    fn visit_versions(
        &mut self,
        severity: FaultSeverity,
        fields: &[Field],
        value: &'a Value,
    ) -> Result<(), AllocError>
        ensures path { OnOk result (IsBack self.old self.new) }
        ensures visited { OnOk result (Shows V.has_visited (λ path.
            settings_below (versions (fields_view fields.now)) severity path (view value.now))
            self.old self.new) }
    {
        let Some(table) = value.as_table() else {
            return Ok(());
        };
        self.visit_fields(fields, severity, table)?;
        self.show(severity, Subject::Between(Rules::Versions, value))
    }

    // Shows what is judged in a value of `experimental`.
    #[cycle(visit)]
    fn visit_features(
        &mut self,
        severity: FaultSeverity,
        fields: &[Field],
        value: &'a Value,
    ) -> Result<(), AllocError>
        ensures path { OnOk result (IsBack self.old self.new) }
        ensures visited { OnOk result (Shows V.has_visited (λ path.
            settings_below (features (fields_view fields.now)) severity path (view value.now))
            self.old self.new) }
    {
        self.visit_either(Shape::FeatureName, severity, fields, value)?;
        self.show(severity, Subject::Features(value))
    }

    // Shows the fields of a value that is a table, or the elements of an array.
    #[cycle(visit)]
    fn visit_either(
        &mut self,
        shape: Shape,
        severity: FaultSeverity,
        fields: &[Field],
        value: &'a Value,
    ) -> Result<(), AllocError>
        ensures path { OnOk result (IsBack self.old self.new) }
        ensures visited { OnOk result (Shows V.has_visited (λ path.
            settings_below (elements_or_fields shape (fields_view fields.now)) severity path (view
            value.now)) self.old self.new) }
    {
        match value.as_table() {
            Some(table) => self.visit_fields(fields, severity, table),
            None => match value.as_array() {
                Some(array) => self.show_elements(shape, severity, array),
                None => Ok(()),
            },
        }
    }

    // Shows what is judged in a value of `retries` that may have these keys, if it is a table.
    #[cycle(visit)]
    fn visit_retries(
        &mut self,
        severity: FaultSeverity,
        known: &'static [Field],
        value: &'a Value,
    ) -> Result<(), AllocError>
        ensures path { OnOk result (IsBack self.old self.new) }
        ensures visited { OnOk result (Shows V.has_visited (λ path.
            in_table (in_retries severity (fields_view known.now)) path (view value.now))
            self.old self.new) }
    {
        let Some(table) = value.as_table() else {
            return Ok(());
        };
        self.visit_fields(known, severity, table)?;
        let expected = expected_by(Backoff::of_table(table));
        self.show_refused(severity, known, expected, table)?;
        self.show(severity, Subject::Between(Rules::Retries, value))
    }

    // Shows what is judged in a table whose keys are names.
    #[cycle(visit)]
    fn visit_names(
        &mut self,
        shape: Shape,
        severity: FaultSeverity,
        parts: &Parts,
        table: &'a Table,
    ) -> Result<(), AllocError>
        ensures path { OnOk result (IsBack self.old self.new) }
        ensures visited { OnOk result (Shows V.has_visited (λ path.
            at_names (settings_in shape severity (parts_of parts.now)) path (table_view table.now))
            self.old self.new) }
    {
        for (name, value) in table {
            self.visit_below(Mark::Key(name.as_str()), shape, severity, parts, value)?;
        }
        Ok(())
    }

    // Shows what is judged in an array.
    #[cycle(visit)]
    fn visit_elements(
        &mut self,
        shape: Shape,
        severity: FaultSeverity,
        parts: &Parts,
        array: &'a Array,
    ) -> Result<(), AllocError>
        ensures path { OnOk result (IsBack self.old self.new) }
        ensures visited { OnOk result (Shows V.has_visited (λ path.
            at_items (settings_in shape severity (parts_of parts.now)) path 0
            (array_view array.now))
            self.old self.new) }
    {
        for (index, value) in array.iter().enumerate() {
            self.visit_below(Mark::Index(index), shape, severity, parts, value)?;
        }
        Ok(())
    }

    // Shows the elements of an array, in which nothing is judged by itself.
    fn show_elements(
        &mut self,
        shape: Shape,
        severity: FaultSeverity,
        array: &'a Array,
    ) -> Result<(), AllocError>
        ensures path { OnOk result (IsBack self.old self.new) }
        ensures visited { OnOk result (Shows V.has_visited (λ path.
            plain_elements shape severity path (array_view array.now)) self.old self.new) }
    {
        for (index, value) in array.iter().enumerate() {
            self.show_element(shape, severity, index, value)?;
        }
        Ok(())
    }

    // Shows an element of an array.
    fn show_element(
        &mut self,
        shape: Shape,
        severity: FaultSeverity,
        index: usize,
        value: &'a Value,
    ) -> Result<(), AllocError>
        ensures path { OnOk result (IsBack self.old self.new) }
        ensures visited { OnOk result (Shows V.has_visited (λ path.
            plain_element shape severity (path ++ (place index ∷ [])) (view value.now))
            self.old self.new) }
    {
        let parts = Parts::Nothing;
        self.path.push(Mark::Index(index))?;
        self.show(
            severity,
            Subject::Value {
                shape,
                parts,
                value,
            },
        )?;
        let _last = self.path.pop();
        Ok(())
    }

    // Shows that a table lacks a key, if it has to have it.
    fn show_absent(&mut self, field: &Field, severity: FaultSeverity) -> Result<(), AllocError>
        ensures path { IsBack self.old self.new }
        ensures visited { OnOk result (Shows V.has_visited (λ path.
            of_absent severity (seen_field field.now).0 path) self.old self.new) }
    {
        if is_wanted(field, self.path.as_slice()) {
            self.show(severity, Subject::AbsentKey(field.key))
        } else {
            Ok(())
        }
    }

    // Shows the keys of a table that it refuses.
    fn show_refused(
        &mut self,
        severity: FaultSeverity,
        known: &'static [Field],
        expected: &'static [&'static str],
        table: &'a Table,
    ) -> Result<(), AllocError>
        ensures path { OnOk result (IsBack self.old self.new) }
        ensures visited { OnOk result (Shows V.has_visited (λ path.
            flat_map (of_name severity (words_of expected.now) (field_words (fields_view known.now))
            path) (names_of (table_view table.now))) self.old self.new) }
    {
        for name in table.keys() {
            self.show_unknown(severity, known, expected, name.as_str())?;
        }
        Ok(())
    }

    // Shows a key of a table, if the table refuses it.
    fn show_unknown(
        &mut self,
        severity: FaultSeverity,
        known: &'static [Field],
        expected: &'static [&'static str],
        name: &'a str,
    ) -> Result<(), AllocError>
        ensures path { IsBack self.old self.new }
        ensures visited { OnOk result (Shows V.has_visited (λ path.
            of_name severity (words_of expected.now) (field_words (fields_view known.now)) path
            name.now) self.old self.new) }
    {
        if is_among(known, name) {
            return Ok(());
        }
        let subject = Subject::RefusedKey {
            name,
            expected,
            known,
        };
        self.show(severity, subject)
    }
}

// The backoff that a value names, if it is a table that names one.
fn backoff_of(value: &Value) -> Option<Backoff>
    ensures { result ≡ option_and_then backoff_in (as_table (view value.now)) }
{
    Backoff::of_table(value.as_table()?)
}

// The words that a table of retries says it expects.
fn expected_by(backoff: Option<Backoff>) -> &'static [&'static str]
    ensures { words_of result.now ≡ expected_by backoff }
{
    backoff.unwrap_or(Backoff::Exponential).keys()
}

// Whether a table has to have a key, which nextest's own configuration doesn't supply.
fn is_wanted(field: &Field, path: &[Mark]) -> bool
    ensures { result ≡ is_wanted (seen_field field.now).0 (map mark_step path.now) }
{
    field.required & !((field.key == "period") & has_default_period(path))
}

// Whether nextest's own configuration has a period at the path.
fn has_default_period(path: &[Mark]) -> bool
    ensures { result ≡ has_default_period (map mark_step path.now) }
{
    match path {
        [top, name, timeout] => {
            is_key(top, "profile")
                & (is_key(name, "default")
                    & (is_key(timeout, "slow-timeout") | is_key(timeout, "leak-timeout")))
        }
        [top, name, bench, timeout] => {
            is_key(top, "profile")
                & (is_key(name, "default")
                    & (is_key(bench, "bench") & is_key(timeout, "slow-timeout")))
        }
        _ => false,
    }
}
