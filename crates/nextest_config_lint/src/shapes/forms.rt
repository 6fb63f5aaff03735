//! Forms of values of which only the faults count: the checks of shapes without a reader.

ghost use Rattle.std.specs.Prelude.{IfErr, OnOk};
ghost use Rattle.toml.specs.View.{view};
ghost use Rattle.nextest_config_values.specs.Read.{Always, meaning, Refuses, text_reading};
ghost use Rattle.nextest_config_values.specs.Helpers.PathsLaws.{relative_path_reading};
ghost use Rattle.nextest_config_elements.specs.Acceptance.{one_word};
ghost use Rattle.nextest_config_lint.specs.Shapes.Forms.{command_form, command_line_form, depth_form, line_form, platform_form, scalar_form, texts_form, word_form};

use crate::unknown::is_known;
use nextest_config_elements::word_list::WordList;
use nextest_config_values::helpers::is_relative_path;
use nextest_config_values::read::ValueFault;
use std::alloc::Global;
use toml::Value;

const TEXT: &str = "a string";

const DEPTH: &str = "a non-negative integer or the string \"infinite\"";

const TEXT_OR_TEXTS: &str = "a string or an array of strings";

const COMMAND: &str = "a string, an array of strings or a table ({ command-line = \"..\" })";

const A_COMMAND: &str = "a command";

const RELATIVE_PATH: &str = "a relative path with no parent components";

const PLATFORM: &str = "a string or a table ({ host = \"..\", target = \"..\" })";

pub(crate) fn check_text(alloc: Global, value: &Value) -> Result<(), ValueFault>
    ensures meant { OnOk result ((meaning text_reading).passes (view value.now)) }
    ensures refused { IfErr result (Refuses (text_reading.faults (view value.now)) Always) }
{
    match value.as_str() {
        Some(_) => Ok(()),
        None => Err(ValueFault::invalid_type(alloc, value, TEXT)),
    }
}

/// A text, or a table; what stands in the table is read by itself.
pub(crate) fn check_platform(alloc: Global, value: &Value) -> Result<(), ValueFault>
    ensures meant { OnOk result ((meaning platform_form).passes (view value.now)) }
    ensures refused { IfErr result (Refuses (platform_form.faults (view value.now)) Always) }
{
    if value.is_str() || value.is_table() {
        return Ok(());
    }
    Err(ValueFault::invalid_type(alloc, value, PLATFORM))
}

/// One of the words of a list.
pub(crate) fn check_word(alloc: Global, list: WordList, value: &Value) -> Result<(), ValueFault>
    ensures meant { OnOk result ((meaning (word_form list)).passes (view value.now)) }
    ensures refused { IfErr result (Refuses ((word_form list).faults (view value.now)) Always) }
{
    let Some(text) = value.as_str() else {
        return Err(ValueFault::invalid_type(alloc, value, TEXT));
    };
    if is_known(list.listed(), text) | is_known(list.unlisted(), text) {
        return Ok(());
    }
    Err(ValueFault::unknown_variant(alloc, text, list.listed()))
}

/// An integer from 0 on, or the word for any depth.
pub(crate) fn check_depth(alloc: Global, value: &Value) -> Result<(), ValueFault>
    ensures meant { OnOk result ((meaning depth_form).passes (view value.now)) }
    ensures refused { IfErr result (Refuses (depth_form.faults (view value.now)) Always) }
{
    match value.as_integer() {
        Some(number) if number < 0 => Err(ValueFault::invalid_value(alloc, value, DEPTH)),
        Some(_) => Ok(()),
        None => check_one_word(alloc, value, "infinite", DEPTH),
    }
}

// This word alone.
fn check_one_word(
    alloc: Global,
    value: &Value,
    word: &str,
    expected: &'static str,
) -> Result<(), ValueFault>
    ensures meant { OnOk result
        ((meaning (one_word word.now expected.now)).passes (view value.now)) }
    ensures refused { IfErr result
        (Refuses ((one_word word.now expected.now).faults (view value.now)) Always) }
{
    match value.as_str() {
        Some(text) if text == word => Ok(()),
        Some(_) => Err(ValueFault::invalid_value(alloc, value, expected)),
        None => Err(ValueFault::invalid_type(alloc, value, expected)),
    }
}

/// A text, or what nextest makes one of.
pub(crate) fn check_scalar(alloc: Global, value: &Value) -> Result<(), ValueFault>
    ensures meant { OnOk result ((meaning scalar_form).passes (view value.now)) }
    ensures refused { IfErr result (Refuses (scalar_form.faults (view value.now)) Always) }
{
    if value.is_str() || value.is_bool() || value.is_integer() || value.is_float() {
        return Ok(());
    }
    Err(ValueFault::invalid_type(alloc, value, TEXT))
}

/// A text, or an array, whose elements are read by themselves.
pub(crate) fn check_text_or_texts(alloc: Global, value: &Value) -> Result<(), ValueFault>
    ensures meant { OnOk result ((meaning texts_form).passes (view value.now)) }
    ensures refused { IfErr result (Refuses (texts_form.faults (view value.now)) Always) }
{
    if value.is_str() || value.is_array() {
        return Ok(());
    }
    Err(ValueFault::invalid_type(alloc, value, TEXT_OR_TEXTS))
}

/// A command line, or a table; what stands in the table is read by itself.
pub(crate) fn check_command(alloc: Global, value: &Value) -> Result<(), ValueFault>
    ensures meant { OnOk result ((meaning command_form).passes (view value.now)) }
    ensures refused { IfErr result (Refuses (command_form.faults (view value.now)) Always) }
{
    if value.is_table() {
        return Ok(());
    }
    check_line(alloc, value, COMMAND)
}

/// A command line.
pub(crate) fn check_command_line(alloc: Global, value: &Value) -> Result<(), ValueFault>
    ensures meant { OnOk result ((meaning command_line_form).passes (view value.now)) }
    ensures refused { IfErr result (Refuses (command_line_form.faults (view value.now)) Always) }
{
    check_line(alloc, value, TEXT_OR_TEXTS)
}

// A text that isn't empty, or an array that isn't, whose elements are read by themselves.
fn check_line(alloc: Global, value: &Value, expected: &'static str) -> Result<(), ValueFault>
    ensures meant { OnOk result ((meaning (line_form expected.now)).passes (view value.now)) }
    ensures refused { IfErr result
        (Refuses ((line_form expected.now).faults (view value.now)) Always) }
{
    match value.as_str() {
        Some("") => return Err(ValueFault::invalid_value(alloc, value, A_COMMAND)),
        Some(_) => return Ok(()),
        None => {}
    }
    let Some(array) = value.as_array() else {
        return Err(ValueFault::invalid_type(alloc, value, expected));
    };
    match array.as_slice() {
        [] => Err(ValueFault::invalid_value(alloc, value, A_COMMAND)),
        [_, ..] => Ok(()),
    }
}

/// A path that doesn't begin with `/`, and of which no segment between slashes is `..`.
pub(crate) fn check_relative_path(alloc: Global, value: &Value) -> Result<(), ValueFault>
    ensures meant { OnOk result ((meaning relative_path_reading).passes (view value.now)) }
    ensures refused { IfErr result (Refuses (relative_path_reading.faults (view value.now))
        Always) }
{
    match value.as_str() {
        Some(path) if is_relative_path(path) => Ok(()),
        Some(_) => Err(ValueFault::invalid_value(alloc, value, RELATIVE_PATH)),
        None => Err(ValueFault::invalid_type(alloc, value, TEXT)),
    }
}
