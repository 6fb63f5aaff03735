//! Of what is reported of a profile that of wanted keys alone.

ghost use Rattle.std.specs.Prelude.{◌≡◌, ◌&&◌, ◌∷◌, [], map, option_map, string_bytes};
ghost use Rattle.std.specs.List.{list_any};
ghost use Rattle.toml.specs.View.{view};
ghost use Rattle.nextest_config_profiles.specs.Reach.{words_of};
ghost use Rattle.nextest_config_profiles.specs.Report.Narrowed.{are_related, has_rows, has_value, is_named, is_named_by, is_override_wanted, is_related, others_wanted, overrides_wanted, rows_wanted, sets_at, sets_key, sets_keys, sets_wanted, settings_wanted, value_below};
ghost use Rattle.nextest_config_profiles.specs.Report.ProfileReport.{settings_in};
ghost use Rattle.nextest_config_profiles.specs.Report.Setting.{is_setting, member_of, parts_in, settings_at, table_fields};
ghost use Rattle.nextest_config_profiles.specs.Report.Wanted.{path_of};

use crate::report::overrides::at_key;
use crate::report::parts::{OtherKey, Override, OverrideSetting, Row};
use crate::report::profile_report::ProfileReport;
use crate::report::setting::{is_setting, table_fields};
use crate::report::wanted::WantedKey;
use nextest_config_elements::field::Field;
use nextest_config_elements::keys::profile_fields;
use toml::Value;

impl ProfileReport<'_> {
    /// Keeps of the settings and of the other keys what is wanted, lies below a wanted key, or has
    /// one in it, as a text in the place of a table has; and those overrides that set something of
    /// it: which have a value at the keys of a setting that is a wanted key, or lies above or below
    /// one, or to which a wanted path leads by `overrides`. The profiles of the chain stay, and so
    /// does what is wrong in other profiles.
    pub fn keep_only(&mut self, wanted: &[WantedKey])
        ensures settings { settings_in self.new
            ≡ settings_wanted (map path_of wanted.now) (settings_in self.old) }
        ensures others { self.new.others.items
            ≡ others_wanted (map path_of wanted.now) self.old.others.items }
        ensures overrides { self.new.overrides.items
            ≡ overrides_wanted (map path_of wanted.now) self.old.overrides.items }
        ensures chain { self.new.chain ≡ self.old.chain }
        ensures other_profiles { self.new.other_profiles ≡ self.old.other_profiles }
    {
        keep_settings(&mut self.settings, wanted);
        keep_others(&mut self.others, wanted);
        keep_overrides(&mut self.overrides, wanted);
    }
}

// Keeps the rows that are wanted, of the settings that have one.
fn keep_settings(settings: &mut Vec<Vec<Row<'_>>>, wanted: &[WantedKey])
    ensures { map (λ rows. rows.items) settings.new.items
        ≡ settings_wanted (map path_of wanted.now) (map (λ rows. rows.items) settings.old.items) }
{
    settings.retain_mut(|rows| keep_rows(rows, wanted));
}

// Keeps the rows of a setting that are wanted, and tells whether there are any.
fn keep_rows(rows: &mut Vec<Row<'_>>, wanted: &[WantedKey]) -> bool
    ensures left { rows.new.items ≡ rows_wanted (map path_of wanted.now) rows.old.items }
    ensures some { result ≡ has_rows rows.new.items }
{
    rows.retain(|row| is_related(row.keys.as_slice(), wanted));
    !rows.is_empty()
}

fn keep_others(others: &mut Vec<OtherKey<'_>>, wanted: &[WantedKey])
    ensures { others.new.items ≡ others_wanted (map path_of wanted.now) others.old.items }
{
    others.retain(|other| is_related(&[other.key], wanted));
}

fn keep_overrides(overrides: &mut Vec<Override<'_>>, wanted: &[WantedKey])
    ensures { overrides.new.items ≡ overrides_wanted (map path_of wanted.now) overrides.old.items }
{
    overrides.retain(|shown| is_override_wanted(shown, wanted));
}

// Whether an override sets something of a setting that is wanted, or a wanted path names it.
fn is_override_wanted(shown: &Override<'_>, wanted: &[WantedKey]) -> bool
    ensures { result ≡ is_override_wanted (map path_of wanted.now) shown.now }
{
    is_named(shown, wanted) || sets_wanted(shown, wanted)
}

// Whether a wanted path names an override.
fn is_named(shown: &Override<'_>, wanted: &[WantedKey]) -> bool
    ensures { result ≡ is_named (map path_of wanted.now) shown.now }
{
    wanted.iter().any(|key| is_named_by(shown, key.keys()))
}

// Whether an override has a value at the keys of a setting that is a wanted key, or lies above or
// below one.
fn sets_wanted(shown: &Override<'_>, wanted: &[WantedKey]) -> bool
    ensures { result ≡ sets_wanted (map path_of wanted.now) shown.now }
{
    let fields = profile_fields();
    fields.iter().any(|field| sets_itself(shown, wanted, field))
        || fields
            .iter()
            .any(|field| sets_in_table(shown, wanted, field))
}

// Whether a key of a profile is a setting that is wanted, and an override has a value there.
fn sets_itself(shown: &Override<'_>, wanted: &[WantedKey], field: &'static Field) -> bool
    ensures { result ≡ (is_setting [] (member_of field.now).absent
        && sets_keys (map path_of wanted.now) shown.now ((member_of field.now).key ∷ [])) }
{
    is_setting(&[], field.absent) && sets_keys(shown, wanted, &[field.key])
}

// Whether some setting in the table at a key of a profile is wanted, and an override has a value
// there.
fn sets_in_table(shown: &Override<'_>, wanted: &[WantedKey], table: &'static Field) -> bool
    ensures { result ≡ list_any
        (λ setting. sets_keys (map path_of wanted.now) shown.now setting.keys)
        (settings_at ((member_of table.now).key ∷ [])
        (table_fields (member_of table.now).shape (parts_in table.now))) }
{
    table_fields(table)
        .iter()
        .any(|field| sets_below(shown, wanted, table.key, field))
}

// Whether a key of the table at a key of a profile is such a setting.
fn sets_below(
    shown: &Override<'_>,
    wanted: &[WantedKey],
    table: &'static str,
    field: &'static Field,
) -> bool
    ensures { result ≡ (is_setting (table.now ∷ []) (member_of field.now).absent
        && sets_keys (map path_of wanted.now) shown.now
        (table.now ∷ (member_of field.now).key ∷ [])) }
{
    is_setting(&[table], field.absent) && sets_keys(shown, wanted, &[table, field.key])
}

// Whether keys are a wanted path, or lie above or below one, and an override has a value there.
fn sets_keys(shown: &Override<'_>, wanted: &[WantedKey], keys: &[&str]) -> bool
    ensures { result ≡ sets_keys (map path_of wanted.now) shown.now (words_of keys.now) }
{
    is_related(keys, wanted) && has_value(shown, keys)
}

// Whether a path is `overrides`, or leads on from there to a key that the override sets.
fn is_named_by(shown: &Override<'_>, keys: &[String]) -> bool
    ensures { result ≡ is_named_by shown.now (map string_bytes keys.now) }
{
    match keys {
        [] => false,
        [first] => first.as_str() == "overrides",
        [first, key, ..] => first.as_str() == "overrides" && sets_key(shown, key.as_str()),
    }
}

fn sets_key(shown: &Override<'_>, key: &str) -> bool
    ensures { result ≡ sets_key shown.now key.now }
{
    shown.settings.iter().any(|set| set.key == key)
}

// Whether keys are a wanted path, or lie above or below one.
fn is_related(keys: &[&str], wanted: &[WantedKey]) -> bool
    ensures { result ≡ is_related (map path_of wanted.now) (words_of keys.now) }
{
    wanted.iter().any(|key| are_related(keys, key.keys()))
}

// Whether one of two paths begins with the other.
fn are_related(keys: &[&str], other: &[String]) -> bool
    ensures { result ≡ are_related (words_of keys.now) (map string_bytes other.now) }
{
    let [key, keys @ ..] = keys else {
        return true;
    };
    match other {
        [] => true,
        [first, other @ ..] => *key == first.as_str() && are_related(keys, other),
    }
}

// Whether an override has a value at keys.
fn has_value(shown: &Override<'_>, keys: &[&str]) -> bool
    ensures { result ≡ has_value (words_of keys.now) shown.now }
{
    match keys {
        [] => false,
        [key, keys @ ..] => some_sets(shown.settings.as_slice(), key, keys),
    }
}

fn some_sets(settings: &[OverrideSetting], key: &str, keys: &[&str]) -> bool
    ensures { result ≡ list_any (sets_at key.now (words_of keys.now)) settings.now }
{
    settings.iter().any(|set| sets_at(set, key, keys))
}

// Whether a key that is set is this one, and its value has one at the other keys.
fn sets_at(set: &OverrideSetting, key: &str, keys: &[&str]) -> bool
    ensures { result ≡ sets_at key.now (words_of keys.now) set.now }
{
    set.key == key && value_below(&set.literal.value, keys).is_some()
}

// What keys lead to in a value.
fn value_below<'v>(value: &'v Value, keys: &[&str]) -> Option<&'v Value>
    ensures { option_map (λ value. view value.now) result
        ≡ value_below (words_of keys.now) (view value.now) }
{
    match keys {
        [] => Some(value),
        [key, keys @ ..] => value_below(at_key(value, key)?, keys),
    }
}
