//! Whether a value of a profile is right.

ghost use Rattle.std.specs.Prelude.{◌≡◌, ◌↔◌, false, IfOk, IsSome, IsTrue, map, MatchResult, Some};
ghost use Rattle.toml.specs.View.{view};
ghost use Rattle.nextest_config_values.specs.Read.{fault_of};
ghost use Rattle.nextest_config.specs.declared.nextest_version.edition.Edition.TheVariants.{TableOnly};
ghost use Rattle.nextest_config_lint.specs.FindingsLaws.{HasNoFault};
ghost use Rattle.nextest_config_lint.specs.Right.{AreRight, IsRightAt, IsRightBy};
ghost use Rattle.nextest_config_lint.specs.Settings.{seen_field, setting_view};

use crate::conversion::field_named;
use crate::rules::check_rules;
use crate::settings::{Setting, Subject};
use crate::shapes::check_shape;
use crate::traversal::{Visitor, visit_value};
use nextest_config::nextest_version::Edition;
use nextest_config_elements::field::Field;
use nextest_config_elements::keys::profile_fields;
use nextest_config_values::read::ValueFault;
use std::alloc::{AllocError, Global};
use toml::Value;

/// Whether nothing is wrong with the value at a key of a profile, and with what stands in it. Of a
/// key that isn't known nothing is. The syntax of a text isn't asked, so what a profile gets is
/// told as it is written.
pub fn is_right_at(alloc: Global, key: &str, value: &Value) -> Result<bool, AllocError>
    ensures { IfOk result (λ right. IsTrue right ↔ IsRightAt key.now (view value.now)) }
{
    match field_named(key, profile_fields()) {
        Some(field) => is_right_by(alloc, field, value),
        None => Ok(true),
    }
}

// Whether nothing is wrong with a value of a field, and with what stands in it.
fn is_right_by(alloc: Global, field: &Field, value: &Value) -> Result<bool, AllocError>
    ensures { IfOk result (λ right.
        IsTrue right ↔ IsRightBy (Some (seen_field field.now)) (view value.now)) }
{
    let rightness = Rightness { is_right: true };
    let Rightness { is_right } = visit_value(alloc, field, value, rightness)?;
    Ok(is_right)
}

// Whether nothing was wrong so far.
#[derive(Drop)]
struct Rightness {
    is_right: bool,
}

impl Visitor for Rightness {
    ghost has_visited = { AreRight };

    fn visit(&mut self, alloc: Global, setting: &Setting) -> Result<(), AllocError> {
        let right = is_right(alloc, setting)?;
        self.is_right = self.is_right & right;
        Ok(())
    }
}

// Whether nothing is wrong with what is judged.
fn is_right(alloc: Global, setting: &Setting) -> Result<bool, AllocError>
    ensures { IfOk result (λ right. IsTrue right ↔ HasNoFault TableOnly
        (setting_view setting.now)) }
{
    match setting.subject {
        Subject::Value { shape, value, .. } => {
            is_accepted(check_shape(alloc, Edition::TableOnly, shape, value))
        }
        Subject::AbsentKey(_) | Subject::RefusedKey { .. } => Ok(false),
        Subject::Between(rules, value) => is_accepted(check_rules(alloc, rules, value)),
        Subject::Features(_) => Ok(true),
    }
}

/// Whether nothing was found, unless memory was refused.
pub(crate) fn is_accepted(checked: Result<(), ValueFault>) -> Result<bool, AllocError>
    ensures { IfOk result (λ right. MatchResult checked (λ _. IsTrue right)
        (λ fault. IsSome (fault_of fault) × (right ≡ false))) }
{
    match checked {
        Ok(()) => Ok(true),
        Err(fault) if fault.is_memory() => Err(AllocError),
        Err(_) => Ok(false),
    }
}
