//! What a value has to be, but for what stands in it.

ghost use Rattle.std.specs.Prelude.{◌≡◌, codes, Err, IfErr, IsOk, MatchResult, OnOk};
ghost use Rattle.toml.specs.Data.{as_array, as_table};
ghost use Rattle.toml.specs.View.{view};
ghost use Rattle.nextest_config_values.specs.Read.{Always, meaning, Refuses};
ghost use Rattle.nextest_config.specs.NextestVersion.{version_reading};
ghost use Rattle.nextest_config_lint.specs.Shapes.{feature_name_check, features_check, form_check, is_by_key, IsChecked, kind_check, shape_check};

mod forms;

use crate::shapes::forms::{
    check_command, check_command_line, check_depth, check_platform, check_relative_path,
    check_scalar, check_text, check_text_or_texts, check_word,
};
use nextest_config::nextest_version::{
    Edition, ExperimentalDeserialize, NextestVersionDeserialize,
};
use nextest_config_elements::field::Shape;
use nextest_config_elements::profile_setting::ProfileSetting;
use nextest_config_elements::readers::{ReaderVisitor, visit_reader};
use nextest_config_values::read::{FromToml, ValueFault};
use std::alloc::Global;
use toml::Value;

/// Whether the value has the shape, whatever stands in it.
pub(crate) fn check_shape(
    alloc: Global,
    edition: Edition,
    shape: Shape,
    value: &Value,
) -> Result<(), ValueFault>
    ensures meant { OnOk result ((shape_check edition shape).passes (view value.now)) }
    ensures refused { IfErr result
        (Refuses ((shape_check edition shape).faults (view value.now)) Always) }
{
    if is_by_key(shape) && value.is_table() {
        return Ok(());
    }
    let check = CheckValue {
        alloc,
        edition,
        shape,
        value,
    };
    visit_reader(shape, check)
}

// Whether tables of the shape are judged key by key.
fn is_by_key(shape: Shape) -> bool
    ensures { result ≡ is_by_key shape }
{
    matches!(
        shape,
        Shape::NextestVersion
            | Shape::Retries
            | Shape::FailFast
            | Shape::SlowTimeout
            | Shape::LeakTimeout
    )
}

// Checks a value by the type that reads its shape, or by its form.
#[derive(Drop)]
struct CheckValue<'a> {
    alloc: Global,
    edition: Edition,
    shape: Shape,
    value: &'a Value,
}

impl ReaderVisitor for CheckValue<'_> {
    type Output = Result<(), ValueFault>;

    ghost is_ready = { λ check. Unit {0} };

    ghost answers = { λ X Y seen reading check result.
        IsChecked (meaning reading) (view check.value.now) result };

    ghost answers_unread = { λ check result.
        IsChecked (form_check check.edition check.shape) (view check.value.now) result };

    fn visit<T: ProfileSetting>(self) -> Result<(), ValueFault> {
        accepted(T::read_setting(self.alloc, self.value))
    }

    fn visit_unread(self) -> Result<(), ValueFault> {
        let CheckValue {
            alloc,
            edition,
            shape,
            value,
        } = self;
        match shape {
            Shape::Table | Shape::RuledTable(_) => check_table(alloc, value),
            Shape::Array => check_array(alloc, value, "an array"),
            Shape::NextestVersion => accepted(NextestVersionDeserialize::read_value(alloc, value)),
            Shape::VersionText => check_version(alloc, value),
            Shape::Experimental => check_features(alloc, edition, value),
            Shape::FeatureName => check_feature_name(alloc, edition, value),
            Shape::Text | Shape::Reference(_) => check_text(alloc, value),
            Shape::Filter | Shape::DefaultFilter => check_text(alloc, value),
            Shape::Texts => check_array(alloc, value, "an array of strings"),
            Shape::Platform => check_platform(alloc, value),
            Shape::PlatformText => check_text(alloc, value),
            Shape::Word(list) => check_word(alloc, list, value),
            Shape::Scalar => check_scalar(alloc, value),
            Shape::References(_) => check_text_or_texts(alloc, value),
            Shape::Command => check_command(alloc, value),
            Shape::CommandLine => check_command_line(alloc, value),
            Shape::RelativePath => check_relative_path(alloc, value),
            Shape::Depth => check_depth(alloc, value),
            _ => Ok(()),
        }
    }
}

// Whether a value was read.
fn accepted<T: Drop>(read: Result<T, ValueFault>) -> Result<(), ValueFault>
    ensures { MatchResult read (λ _. IsOk result) (λ fault. result ≡ Err fault) }
{
    match read {
        Ok(_) => Ok(()),
        Err(fault) => Err(fault),
    }
}

fn check_table(alloc: Global, value: &Value) -> Result<(), ValueFault>
    ensures meant { OnOk result ((kind_check as_table (codes "a table")).passes (view value.now)) }
    ensures refused { IfErr result
        (Refuses ((kind_check as_table (codes "a table")).faults (view value.now)) Always) }
{
    match value.as_table() {
        Some(_) => Ok(()),
        None => Err(ValueFault::invalid_type(alloc, value, "a table")),
    }
}

fn check_array(alloc: Global, value: &Value, expected: &'static str) -> Result<(), ValueFault>
    ensures meant { OnOk result ((kind_check as_array expected.now).passes (view value.now)) }
    ensures refused { IfErr result
        (Refuses ((kind_check as_array expected.now).faults (view value.now)) Always) }
{
    match value.as_array() {
        Some(_) => Ok(()),
        None => Err(ValueFault::invalid_type(alloc, value, expected)),
    }
}

// Whether the value is a version text, which `nextest-version` takes, too.
fn check_version(alloc: Global, value: &Value) -> Result<(), ValueFault>
    ensures meant { OnOk result ((meaning version_reading).passes (view value.now)) }
    ensures refused { IfErr result (Refuses (version_reading.faults (view value.now)) Always) }
{
    match value.as_str() {
        Some(_) => accepted(NextestVersionDeserialize::read_value(alloc, value)),
        None => Err(ValueFault::invalid_type(alloc, value, "a string")),
    }
}

// Whether a value names features in a form that the edition takes; what stands in a table or an
// array is judged by itself.
fn check_features(alloc: Global, edition: Edition, value: &Value) -> Result<(), ValueFault>
    ensures meant { OnOk result ((features_check edition).passes (view value.now)) }
    ensures refused { IfErr result
        (Refuses ((features_check edition).faults (view value.now)) Always) }
{
    if value.is_table() {
        return Ok(());
    }
    if value.is_array() && edition == Edition::ArrayAllowed {
        return Ok(());
    }
    accepted(ExperimentalDeserialize::read_under(alloc, edition, value))
}

// Whether an element of `experimental` is a text; under an edition that refuses the array, nothing
// is asked of it.
fn check_feature_name(alloc: Global, edition: Edition, value: &Value) -> Result<(), ValueFault>
    ensures meant { OnOk result ((feature_name_check edition).passes (view value.now)) }
    ensures refused { IfErr result
        (Refuses ((feature_name_check edition).faults (view value.now)) Always) }
{
    match edition {
        Edition::ArrayAllowed => check_text(alloc, value),
        Edition::TableOnly => Ok(()),
    }
}
