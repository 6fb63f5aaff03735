//! What is told of a setting, key by key.

ghost use Rattle.std.specs.Prelude.{◌≡◌, ◌∷◌, ◌↔◌, [], filter, IfOk, IsTrue, option_map};
ghost use Rattle.std.specs.List.{AllZip};
ghost use Rattle.toml.specs.View.{view};
ghost use Rattle.nextest_config_elements.specs.Fields.{absent_of};
ghost use Rattle.nextest_config_profiles.specs.Reach.{words_of};
ghost use Rattle.nextest_config_profiles.specs.Report.Rows.{AreImplied, AreRowsFor, AreRowsOf, AreValueRows, AreWholeRows, at, at_of, has_parts, IsAbsentRow, IsGivenRow, IsGivenState, IsImpliedRow, IsMemberRow, IsFoundMember, is_implied, IsNothingRow, IsSure, IsTakenAway, stands_for_table};
ghost use Rattle.nextest_config_profiles.specs.Report.Setting.{member_of, rule_of};

use crate::report::absent::{is_taken, taken};
use crate::report::faulty::fault_row;
use crate::report::given::Given;
use crate::report::hidden::hidden_rows;
use crate::report::keys::{copy_of, with_key};
use crate::report::last::last_at;
use crate::report::parts::{KeyState, Literal, Row};
use crate::report::remark::remark_of;
use crate::report::setting::KnownSetting;
use crate::report::source::source_of;
use crate::report::written::is_doubted;
use crate::{EffectiveProfile, LayerValue};
use nextest_config_elements::field::{Absent, Field};
use nextest_config_lint::is_converted_at;
use std::alloc::{AllocError, Global};
use toml::Value;

/// A setting, as a profile of a chain gives it.
#[derive(Clone, Copy)]
pub(crate) struct GivenSetting<'s, 'p> {
    pub effective: &'p EffectiveProfile<'p>,
    pub profile: &'p str,
    pub setting: KnownSetting<'s>,
    pub is_judged: bool,
    pub shows_hidden: bool,
}

/// The rows of a setting for which this is given.
pub(crate) fn rows_of<'p>(
    alloc: Global,
    effective: &'p EffectiveProfile<'p>,
    setting: KnownSetting<'_>,
    shows_hidden: bool,
    given: Given<'p>,
) -> Result<Vec<Row<'p>>, AllocError>
    ensures { IfOk result (λ rows.
        AreRowsFor effective.now shows_hidden (rule_of setting.entry) given.entry rows.items) }
{
    match given {
        Given::Value { profile } => {
            value_rows(alloc, effective, setting, shows_hidden, profile, true)
        }
        Given::NotJudged { profile } => {
            value_rows(alloc, effective, setting, shows_hidden, profile, false)
        }
        Given::Fault { profile, fault } => {
            let row = fault_row(alloc, effective, profile, setting, fault)?;
            alone(alloc, row)
        }
        Given::Nothing => {
            let row = nothing_row(alloc, effective, setting)?;
            alone(alloc, row)
        }
    }
}

// A list of one row.
fn alone<'p>(alloc: Global, row: Row<'p>) -> Result<Vec<Row<'p>>, AllocError>
    ensures { IfOk result (λ rows. rows.items ≡ row.entry ∷ []) }
{
    let mut rows = Vec::new(alloc);
    rows.push(row)?;
    Ok(rows)
}

// The row of a setting that no profile gives: the empty text in `default` takes it away, or nothing
// gives it.
fn nothing_row<'p>(
    alloc: Global,
    effective: &'p EffectiveProfile<'p>,
    setting: KnownSetting<'_>,
) -> Result<Row<'p>, AllocError>
    ensures { IfOk result (IsNothingRow effective.now (rule_of setting.entry)) }
{
    let found = last_at(alloc, effective, "default", setting.keys)?;
    let state = taken_away(alloc, effective, setting, found)?;
    bare_row(alloc, copy_of(alloc, setting.keys)?, state)
}

// What is told where this is what the last layer has for `default`.
fn taken_away<'p>(
    alloc: Global,
    effective: &'p EffectiveProfile<'p>,
    setting: KnownSetting<'_>,
    found: Option<LayerValue<'p>>,
) -> Result<KeyState<'p>, AllocError>
    ensures { IfOk result (IsTakenAway effective.now (rule_of setting.entry) found.entry) }
{
    match found {
        Some(found) => {
            let source = source_of(alloc, effective, found.layer, "default", setting.keys)?;
            Ok(KeyState::NoValue(source))
        }
        None => Ok(KeyState::Unset),
    }
}

/// A row that hides nothing.
pub(crate) fn bare_row<'p>(
    alloc: Global,
    keys: Vec<&'p str>,
    state: KeyState<'p>,
) -> Result<Row<'p>, AllocError>
    ensures { IfOk result (λ row.
        (row.keys ≡ keys.entry) × (row.state ≡ state.entry) × (row.hidden.items ≡ [])) }
{
    let hidden = Vec::new(alloc);
    Ok(Row {
        keys,
        state,
        hidden,
    })
}

// The rows of what a profile gives a setting, judged or not: of a table key by key.
fn value_rows<'p>(
    alloc: Global,
    effective: &'p EffectiveProfile<'p>,
    setting: KnownSetting<'_>,
    shows_hidden: bool,
    profile: &'p str,
    is_judged: bool,
) -> Result<Vec<Row<'p>>, AllocError>
    ensures { IfOk result (λ rows. AreValueRows
        (at effective.now shows_hidden (rule_of setting.entry) profile.now is_judged) rows.items) }
{
    let found = last_at(alloc, effective, profile, setting.keys)?;
    let given = GivenSetting {
        effective,
        profile,
        setting,
        is_judged,
        shows_hidden,
    };
    found_rows(alloc, given, found)
}

// The rows of a setting, where this is what the last layer has for it.
fn found_rows<'p>(
    alloc: Global,
    given: GivenSetting<'_, 'p>,
    found: Option<LayerValue<'p>>,
) -> Result<Vec<Row<'p>>, AllocError>
    ensures { IfOk result (λ rows. AreRowsOf (at_of given.entry) found.entry rows.items) }
{
    match found {
        Some(found) if has_parts(given.setting, found.value) => member_rows(alloc, given),
        Some(found) => whole_rows(alloc, given, found),
        None => {
            let keys = copy_of(alloc, given.setting.keys)?;
            let row = bare_row(alloc, keys, KeyState::Unset)?;
            alone(alloc, row)
        }
    }
}

// Whether a value is a table whose keys are told one by one.
fn has_parts(setting: KnownSetting<'_>, value: &Value) -> bool
    ensures { result ≡ has_parts (rule_of setting.entry) (view value.now) }
{
    value.is_table() && !setting.members().is_empty()
}

// The rows of the keys of a table.
fn member_rows<'p>(alloc: Global, given: GivenSetting<'_, 'p>) -> Result<Vec<Row<'p>>, AllocError>
    ensures { IfOk result (λ rows. AllZip (IsMemberRow (at_of given.entry))
        (rule_of given.entry.setting).members rows.items) }
{
    let members = given.setting.members();
    let mut rows = Vec::new(alloc);
    for member in members {
        rows.push(member_row(alloc, given, member)?)?;
    }
    Ok(rows)
}

// The row of a key of a table.
fn member_row<'p>(
    alloc: Global,
    given: GivenSetting<'_, 'p>,
    member: &'static Field,
) -> Result<Row<'p>, AllocError>
    ensures { IfOk result (IsMemberRow (at_of given.entry) (member_of member.now)) }
{
    let keys = with_key(alloc, given.setting.keys, member.key)?;
    let found = last_at(alloc, given.effective, given.profile, keys.as_slice())?;
    let row = found_member(alloc, given, member, keys, found)?;
    Ok(row)
}

// The row of a key of a table, where this is what the last layer has there.
fn found_member<'p>(
    alloc: Global,
    given: GivenSetting<'_, 'p>,
    member: &'static Field,
    keys: Vec<&'p str>,
    found: Option<LayerValue<'p>>,
) -> Result<Row<'p>, AllocError>
    ensures { IfOk result (IsFoundMember (at_of given.entry) (member_of member.now)
        (words_of keys.entry.items) found.entry) }
{
    match found {
        Some(found) => given_row(alloc, given, Some(member.key), keys, found),
        None => absent_row(alloc, given, keys, member.absent),
    }
}

// The row of a value that stands in a layer.
fn given_row<'p>(
    alloc: Global,
    given: GivenSetting<'_, 'p>,
    member: Option<&str>,
    keys: Vec<&'p str>,
    found: LayerValue<'p>,
) -> Result<Row<'p>, AllocError>
    ensures { IfOk result (IsGivenRow (at_of given.entry) (option_map (λ key. key.now) member.entry)
        (words_of keys.entry.items) found.entry) }
{
    let state = given_state(alloc, given, member, keys.as_slice(), found)?;
    let hidden = hidden_rows(alloc, given, keys.as_slice(), found.layer)?;
    Ok(Row {
        keys,
        state,
        hidden,
    })
}

fn given_state<'p>(
    alloc: Global,
    given: GivenSetting<'_, 'p>,
    member: Option<&str>,
    keys: &[&str],
    found: LayerValue<'p>,
) -> Result<KeyState<'p>, AllocError>
    ensures { IfOk result (IsGivenState (at_of given.entry)
        (option_map (λ key. key.now) member.entry) (words_of keys.now) found.entry) }
{
    let source = source_of(alloc, given.effective, found.layer, given.profile, keys)?;
    let remark = remark_of(alloc, given, member, found.value)?;
    let literal = Literal::of(alloc, found.value.clone()?)?;
    if is_sure(alloc, given, keys, found.value)? {
        return Ok(KeyState::Value {
            literal,
            source,
            remark,
        });
    }
    Ok(KeyState::NotJudged { literal, source })
}

// Whether a value is sure: its setting is judged, nextest doesn't convert it, and nothing is wrong
// with it by the documentation.
fn is_sure(
    alloc: Global,
    given: GivenSetting<'_, '_>,
    keys: &[&str],
    value: &Value,
) -> Result<bool, AllocError>
    ensures { IfOk result (λ sure.
        IsTrue sure ↔ IsSure (at_of given.entry) (words_of keys.now) (view value.now)) }
{
    if !given.is_judged || is_converted_at(keys, value) {
        return Ok(false);
    }
    Ok(!is_doubted(alloc, given.setting.field.severity, keys, value)?)
}

// The row of a key that no layer has.
fn absent_row<'p>(
    alloc: Global,
    given: GivenSetting<'_, 'p>,
    keys: Vec<&'p str>,
    absent: Absent,
) -> Result<Row<'p>, AllocError>
    ensures { IfOk result
        (IsAbsentRow (at_of given.entry) (words_of keys.entry.items) (absent_of absent)) }
{
    let state = match taken(alloc, absent)? {
        Some(literal) => KeyState::Default(literal),
        None => KeyState::Unset,
    };
    let layers = given.effective.layer_count();
    let hidden = hidden_rows(alloc, given, keys.as_slice(), layers)?;
    Ok(Row {
        keys,
        state,
        hidden,
    })
}

// The rows of a value that is no table: where a text or a number stands for a table, also those of
// its other keys.
fn whole_rows<'p>(
    alloc: Global,
    given: GivenSetting<'_, 'p>,
    found: LayerValue<'p>,
) -> Result<Vec<Row<'p>>, AllocError>
    ensures { IfOk result (λ rows. AreWholeRows (at_of given.entry) found.entry rows.items) }
{
    let keys = copy_of(alloc, given.setting.keys)?;
    let first = given_row(alloc, given, None, keys, found)?;
    let mut rows = rest_of_table(alloc, given.setting, found.value)?;
    rows.insert(0, first)?;
    Ok(rows)
}

// What a value says of the other keys of the table for which it stands, if it does.
fn rest_of_table<'p>(
    alloc: Global,
    setting: KnownSetting<'_>,
    value: &Value,
) -> Result<Vec<Row<'p>>, AllocError>
    ensures { IfOk result (λ rows.
        AreImplied (stands_for_table (view value.now)) (rule_of setting.entry) rows.items) }
{
    if stands_for_table(value) {
        return implied_rows(alloc, setting);
    }
    Ok(Vec::new(alloc))
}

// Whether the value is a text or a number.
fn stands_for_table(value: &Value) -> bool
    ensures { result ≡ stands_for_table (view value.now) }
{
    matches!(value, Value::String(_) | Value::Integer(_))
}

// The rows of the other keys of a table for which a text or a number stands.
fn implied_rows<'p>(alloc: Global, setting: KnownSetting<'_>) -> Result<Vec<Row<'p>>, AllocError>
    ensures { IfOk result (λ rows. AllZip (IsImpliedRow (rule_of setting.entry).keys)
        (filter is_implied (rule_of setting.entry).members) rows.items) }
{
    let members = setting.members();
    let mut rows = Vec::new(alloc);
    for member in members {
        if is_implied(member) {
            rows.push(implied_row(alloc, setting, member)?)?;
        }
    }
    Ok(rows)
}

// Whether the value in the place of a table says nothing of this key.
fn is_implied(member: &Field) -> bool
    ensures { result ≡ is_implied (member_of member.now) }
{
    !member.required || is_taken(member.absent)
}

// The row of a key of a table for which a text or a number stands.
fn implied_row<'p>(
    alloc: Global,
    setting: KnownSetting<'_>,
    member: &'static Field,
) -> Result<Row<'p>, AllocError>
    ensures { IfOk result (IsImpliedRow (rule_of setting.entry).keys (member_of member.now)) }
{
    let keys = with_key(alloc, setting.keys, member.key)?;
    let state = match taken(alloc, member.absent)? {
        Some(literal) => KeyState::Implied(literal),
        None => KeyState::Unset,
    };
    bare_row(alloc, keys, state)
}
