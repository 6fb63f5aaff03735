//! The settings that are told, as the table of keys has them.

ghost use Rattle.std.specs.Prelude.{◌≡◌, ◌++◌, IfOk, map, OnOk};
ghost use Rattle.nextest_config_elements.specs.Fields.{absent_of, fields_view, parts_of};
ghost use Rattle.nextest_config_profiles.specs.Reach.{words_of};
ghost use Rattle.nextest_config_profiles.specs.Report.Setting.{all_settings, fields_below, is_setting, member_of, parts_in, rule_of, rule_owned, settings_at, table_fields};

use crate::report::keys::with_key;
use nextest_config_elements::field::{Absent, Field, Literal, Parts, Shape};
use nextest_config_elements::keys::profile_fields;
use nextest_config_lint::fields_in;
use std::alloc::{AllocError, Global};

/// A setting: its path below a profile, and its row in the table of keys.
#[derive(Clone, Copy)]
pub(crate) struct KnownSetting<'s> {
    pub keys: &'s [&'static str],
    pub field: &'static Field,
}

impl KnownSetting<'_> {
    /// The fields of its own table, if it may have one.
    pub(crate) fn members(self) -> &'static [Field]
        ensures { map member_of result.now ≡ (rule_of self.entry).members }
    {
        fields_below(&self.field.parts)
    }
}

/// A setting that owns its path.
#[derive(Drop)]
pub(crate) struct OwnedSetting {
    keys: Vec<&'static str>,
    field: &'static Field,
}

impl OwnedSetting {
    /// The setting, as it is lent.
    pub(crate) fn lent(&self) -> KnownSetting<'_>
        ensures { rule_of result ≡ rule_owned self.now }
    {
        KnownSetting {
            keys: self.keys.as_slice(),
            field: self.field,
        }
    }
}

/// All settings: first those of a profile itself, then those in its tables.
pub(crate) fn all_settings(alloc: Global) -> Result<Vec<OwnedSetting>, AllocError>
    ensures { IfOk result (λ settings. map rule_owned settings.items ≡ all_settings) }
{
    let fields = profile_fields();
    let mut settings = Vec::new(alloc);
    push_settings(alloc, &[], fields, &mut settings)?;
    for field in fields {
        let inner = table_fields(field);
        if !inner.is_empty() {
            push_settings(alloc, &[field.key], inner, &mut settings)?;
        }
    }
    Ok(settings)
}

// Pushes the settings among the fields of the table at these keys of a profile.
fn push_settings(
    alloc: Global,
    above: &[&'static str],
    fields: &'static [Field],
    settings: &mut Vec<OwnedSetting>,
) -> Result<(), AllocError>
    ensures { OnOk result (map rule_owned settings.new.items ≡ map rule_owned settings.old.items
        ++ settings_at (words_of above.now) (fields_view fields.now)) }
{
    for field in fields {
        if is_setting(above, field.absent) {
            let keys = with_key(alloc, above, field.key)?;
            settings.push(OwnedSetting { keys, field })?;
        }
    }
    Ok(())
}

/// Whether a field of the table at these keys of a profile is a setting, where this stands for it:
/// the profile inherits it, and of the profile itself nextest sets a value, too.
pub(crate) fn is_setting(above: &[&str], absent: Absent) -> bool
    ensures { result ≡ is_setting (words_of above.now) (absent_of absent) }
{
    match absent {
        Absent::Inherited(Literal::Nothing) => !above.is_empty(),
        Absent::Inherited(_) => true,
        Absent::Taken(_) | Absent::OfProfile => false,
    }
}

/// The fields of a plain table.
pub(crate) fn table_fields(field: &Field) -> &'static [Field]
    ensures { fields_view result.now
        ≡ table_fields (member_of field.now).shape (parts_in field.now) }
{
    match field.shape {
        Shape::Table => fields_in(&field.parts),
        _ => &[],
    }
}

/// The fields of a table, or of the tables in an array; of `retries` those without a backoff.
pub(crate) fn fields_below(parts: &Parts) -> &'static [Field]
    ensures { fields_view result.now ≡ fields_below (parts_of parts.now) }
{
    match parts {
        Parts::Fields(fields) => fields,
        Parts::Retries { open, .. } => open,
        Parts::Elements(_, each) => fields_in(each),
        _ => &[],
    }
}
