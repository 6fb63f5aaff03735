//! The experimental features that one source names.

ghost use Rattle.std.specs.Prelude.{◌≡◌, ◌↔◌, ℕ, Bool, List, Contains, true, false, IfOk, IfErr, IsTrue, OnOk, map, string_bytes};
ghost use Rattle.toml.specs.View.{array_view, table_view, view};
ghost use Rattle.nextest_config_values.specs.Read.{Always, fault_below, index, made_of, Refuses, RefusesAs, RefusesBy, text_expected, wrong_type};
ghost use Rattle.nextest_config.specs.NextestVersion.{AddsItem, AddsText, AreNames, feature_array, feature_setting_of, feature_table, features_of, features_of_table, features_reading, FeatureSetting, FeaturesInOrder, features_under, HasOneMore, in_form, IsUnknownFeatureKey, IsWordAmong, ItemFaults, no_feature_setting, no_features, switch, TextsInOrder};

use super::edition::Edition;
use super::experimental::{ConfigExperimental, add_feature};
use nextest_config_values::read::{FaultKind, FromToml, Rule, ValueFault, or_default};
use std::alloc::{AllocError, Global};
use std::collections::BTreeSet;
use toml::value::Array;
use toml::{Table, Value};

const EXPECTED: &str =
    "a table ({ setup-scripts = true, benchmarks = true }) or an array ([\"setup-scripts\", \"benchmarks\"])";

/// The experimental features that one source names.
#[derive(Debug, PartialEq, Eq, Drop)]
pub struct ExperimentalDeserialize {
    /// The features that the source enables.
    pub known: BTreeSet<ConfigExperimental>,
    /// The unknown feature names.
    pub unknown: BTreeSet<String>,
    /// Whether the source names them in an array, which is deprecated.
    pub array: bool,
}

impl ExperimentalDeserialize {
    /// What a missing setting says: it names no feature, and is no array.
    pub fn new(alloc: Global) -> Self
        ensures { feature_setting_of result ≡ no_feature_setting }
    {
        ExperimentalDeserialize {
            known: BTreeSet::new(alloc),
            unknown: BTreeSet::new(alloc),
            array: false,
        }
    }

    pub fn clone(&self, _alloc: Global) -> Result<Self, AllocError>
        ensures { IfOk result (λ d. feature_setting_of d ≡ feature_setting_of self.now) }
    {
        let known = self.known.clone()?;
        let unknown = self.unknown.clone()?;
        Ok(ExperimentalDeserialize {
            known,
            unknown,
            array: self.array,
        })
    }

    /// Whether no feature is named.
    pub fn is_empty(&self) -> bool
        ensures { IsTrue result ↔ (features_of self.now ≡ no_features) }
    {
        self.known.is_empty() && self.unknown.is_empty()
    }

    /// The names of the known features and of the unknown ones.
    pub fn feature_names(&self, alloc: Global) -> Result<BTreeSet<String>, AllocError>
        ensures { IfOk result
            (λ names. AreNames (features_of self.now) (map string_bytes names.keys)) }
    {
        let mut names = known_words(alloc, &self.known)?;
        for name in &self.unknown {
            add_text(alloc, &mut names, name.as_str())?;
        }
        Ok(names)
    }

    /// The features that a value of `experimental` names, in a form that the edition takes.
    pub fn read_under(alloc: Global, edition: Edition, value: &Value) -> Result<Self, ValueFault>
        ensures meant { IfOk result (λ d.
            (features_under edition).means (view value.now) (feature_setting_of d)) }
        ensures refused { IfErr result (RefusesBy (features_under edition) (view value.now)) }
    {
        match edition {
            Edition::ArrayAllowed => ExperimentalDeserialize::read_value(alloc, value),
            Edition::TableOnly => match value.as_array() {
                Some(_) => Err(ValueFault::new(alloc, FaultKind::Custom(Rule::ArrayForm))),
                None => ExperimentalDeserialize::read_table_form(alloc, value),
            },
        }
    }

    // The features that a value names, which is no array.
    fn read_table_form(alloc: Global, value: &Value) -> Result<Self, ValueFault>
        ensures meant { IfOk result (λ d.
            features_of_table.means (view value.now) (feature_setting_of d)) }
        ensures refused { IfErr result (RefusesBy features_of_table (view value.now)) }
    {
        match value.as_table() {
            Some(table) => ExperimentalDeserialize::read_table(alloc, table),
            None => Err(ValueFault::invalid_type(alloc, value, EXPECTED)),
        }
    }

    // The features that an array names.
    fn read_array(alloc: Global, array: &Array) -> Result<Self, ValueFault>
        ensures meant { IfOk result (λ d. (made_of (in_form true) feature_array).means
            (array_view array.now) (feature_setting_of d)) }
        ensures refused { IfErr result
            (RefusesBy (made_of (in_form true) feature_array) (array_view array.now)) }
    {
        let mut features = ExperimentalDeserialize::new(alloc);
        for (index, value) in array.iter().enumerate() {
            features.read_item(alloc, value, index)?;
        }
        features.array = true;
        Ok(features)
    }

    // Adds what the element at an index names.
    fn read_item(&mut self, alloc: Global, value: &Value, index: usize) -> Result<(), ValueFault>
        ensures added { OnOk result
            (AddsItem (features_of self.old) (view value.now) (features_of self.new)) }
        ensures form { self.new.array ≡ self.old.array }
        ensures refused { IfErr result (Refuses (ItemFaults (view value.now) index) Always) }
    {
        let Some(text) = value.as_str() else {
            let fault = ValueFault::invalid_type(alloc, value, "a string");
            return Err(fault.below_index(alloc, index));
        };
        match self.add(alloc, text) {
            Ok(()) => Ok(()),
            Err(AllocError) => Err(ValueFault::memory(alloc)),
        }
    }

    // The features that a table names.
    fn read_table(alloc: Global, table: &Table) -> Result<Self, ValueFault>
        ensures meant { IfOk result (λ d. (made_of (in_form false) feature_table).means
            (table_view table.now) (feature_setting_of d)) }
        ensures refused { IfErr result
            (RefusesBy (made_of (in_form false) feature_table) (table_view table.now)) }
    {
        let known = read_switches(alloc, table)?;
        match unknown_keys(alloc, table) {
            Ok(unknown) => Ok(ExperimentalDeserialize {
                known,
                unknown,
                array: false,
            }),
            Err(AllocError) => Err(ValueFault::memory(alloc)),
        }
    }

    // Adds a name: a feature where it is a feature's word, and else an unknown name.
    fn add(&mut self, alloc: Global, text: &str) -> Result<(), AllocError>
        ensures added { OnOk result
            (AddsText (features_of self.old) text.now (features_of self.new)) }
        ensures form { self.new.array ≡ self.old.array }
    {
        match ConfigExperimental::from_str(text) {
            Ok(feature) => {
                add_feature(&mut self.known, feature)?;
                Ok(())
            }
            Err(()) => {
                add_text(alloc, &mut self.unknown, text)?;
                Ok(())
            }
        }
    }
}

impl FromToml for ExperimentalDeserialize {
    ghost Seen = { FeatureSetting };

    ghost seen = { feature_setting_of };

    ghost reading = { features_reading };

    fn read_value(alloc: Global, value: &Value) -> Result<Self, ValueFault> {
        match value.as_array() {
            Some(array) => ExperimentalDeserialize::read_array(alloc, array),
            None => ExperimentalDeserialize::read_table_form(alloc, value),
        }
    }
}

// The words of features.
fn known_words(
    alloc: Global,
    known: &BTreeSet<ConfigExperimental>,
) -> Result<BTreeSet<String>, AllocError>
    ensures words { IfOk result (λ words. (text : List ℕ)
        → Contains (map string_bytes words.keys) text ↔ IsWordAmong known.now.keys text) }
    ensures in_order { IfOk result (λ words. TextsInOrder (map string_bytes words.keys)) }
{
    let mut words = BTreeSet::new(alloc);
    for feature in known {
        add_text(alloc, &mut words, feature.as_word())?;
    }
    Ok(words)
}

// The features whose keys are true, where none has a value that is no boolean.
fn read_switches(alloc: Global, table: &Table) -> Result<BTreeSet<ConfigExperimental>, ValueFault>
    ensures switches { OnOk result ((feature : ConfigExperimental)
        → (on : Bool) × (switch feature).means (table_view table.now) on) }
    ensures on { IfOk result (λ known. (feature : ConfigExperimental)
        → Contains known.keys feature ↔ (switch feature).means (table_view table.now) true) }
    ensures in_order { IfOk result (λ known. FeaturesInOrder known.keys) }
    ensures refused { IfErr result (RefusesBy feature_table (table_view table.now)) }
{
    let mut known = BTreeSet::new(alloc);
    for feature in ConfigExperimental::known_features() {
        if !read_switch(alloc, table, feature)? {
            continue;
        }
        let Ok(()) = add_feature(&mut known, feature) else {
            return Err(ValueFault::memory(alloc));
        };
    }
    Ok(known)
}

// Whether the key of a feature is true; a missing key is false.
fn read_switch(
    alloc: Global,
    table: &Table,
    feature: ConfigExperimental,
) -> Result<bool, ValueFault>
    ensures meant { IfOk result ((switch feature).means (table_view table.now)) }
    ensures refused { IfErr result (RefusesBy (switch feature) (table_view table.now)) }
{
    or_default(alloc, table, feature.as_word(), false)
}

// The keys of a table that are no feature's word.
fn unknown_keys(alloc: Global, table: &Table) -> Result<BTreeSet<String>, AllocError>
    ensures unknown { IfOk result (λ unknown. (text : List ℕ)
        → Contains (map string_bytes unknown.keys) text ↔ IsUnknownFeatureKey (table_view table.now)
        text) }
    ensures in_order { IfOk result (λ unknown. TextsInOrder (map string_bytes unknown.keys)) }
{
    let mut unknown = BTreeSet::new(alloc);
    for key in table.keys() {
        match ConfigExperimental::from_str(key.as_str()) {
            Ok(_) => {}
            Err(()) => add_text(alloc, &mut unknown, key.as_str())?,
        }
    }
    Ok(unknown)
}

// Adds a text to a set.
fn add_text(alloc: Global, texts: &mut BTreeSet<String>, text: &str) -> Result<(), AllocError>
    ensures added { OnOk result (HasOneMore (map string_bytes texts.old.keys) text.now
        (map string_bytes texts.new.keys)) }
    ensures in_order { OnOk result (TextsInOrder (map string_bytes texts.new.keys)) }
{
    let text = String::from_str(alloc, text)?;
    texts.insert(text)?;
    Ok(())
}
