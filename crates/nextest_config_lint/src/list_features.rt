//! What the files of a list say of the experimental features that scripts need.

ghost use Rattle.std.specs.Prelude.{◌≡◌, ◌++◌, ◌∷◌, [], ◌↔◌, IfOk, IsSome, IsTrue, List, MatchOption, map};
ghost use Rattle.toml.specs.Data.{Data};
ghost use Rattle.toml.specs.View.{view};
ghost use Rattle.nextest_config_values.specs.Read.{fault_of};
ghost use Rattle.nextest_config_lint.specs.Defined.{AreFeaturesOf, EnablesFeature, HasExperimental, HasRefusedFeatures, ListFile, SomeOf, feature_of, features_refused, file_of};

use crate::defined::ListedFile;
use nextest_config::nextest_version::{
    ConfigExperimental, ConfigSourceKind, Edition, ExperimentalDeserialize,
};
use nextest_config_elements::named::ScriptKind;
use nextest_config_values::read::{ValueFault, value_at};
use std::alloc::{AllocError, Global};
use toml::Value;

/// What the files of a list that are no tools' say of the experimental features of scripts.
#[derive(Clone, Copy)]
pub(crate) struct ListFeatures {
    /// Whether one enables setup scripts.
    pub(crate) setup_scripts: bool,
    /// Whether one enables wrapper scripts.
    pub(crate) wrapper_scripts: bool,
    /// Whether `experimental` of one is refused where arrays are taken.
    pub(crate) refused: bool,
    /// Whether `experimental` of one is refused where tables alone are taken.
    pub(crate) no_table: bool,
}

impl ListFeatures {
    /// What the files of a list say.
    pub(crate) fn of(alloc: Global, files: &[ListedFile]) -> Result<ListFeatures, AllocError>
        ensures { IfOk result (AreFeaturesOf (map file_of files.now)) }
    {
        let mut features = ListFeatures::none();
        for file in files {
            features = features.or(ListFeatures::of_file(alloc, file)?);
        }
        Ok(features)
    }

    /// Whether `experimental` of some file is refused under the edition.
    pub(crate) fn are_refused(&self, edition: Edition) -> bool
        ensures { (files : List ListFile) → AreFeaturesOf files self.now
            → IsTrue result ↔ SomeOf (HasRefusedFeatures edition) files }
    {
        match edition {
            Edition::ArrayAllowed => self.refused,
            Edition::TableOnly => self.no_table,
        }
    }

    /// Whether some file enables what scripts of a kind need.
    pub(crate) fn enable(&self, script: ScriptKind) -> bool
        ensures { (files : List ListFile) → AreFeaturesOf files self.now
            → IsTrue result ↔ SomeOf (EnablesFeature (feature_of script)) files }
    {
        match script {
            ScriptKind::Setup => self.setup_scripts,
            ScriptKind::Wrapper => self.wrapper_scripts,
        }
    }

    // What no file says.
    fn none() -> ListFeatures
        ensures { AreFeaturesOf [] result }
    {
        ListFeatures {
            setup_scripts: false,
            wrapper_scripts: false,
            refused: false,
            no_table: false,
        }
    }

    // What is said by some files or others.
    fn or(self, other: ListFeatures) -> ListFeatures
        ensures { (files others : List ListFile) → AreFeaturesOf files self
            → AreFeaturesOf others other → AreFeaturesOf (files ++ others) result }
    {
        ListFeatures {
            setup_scripts: self.setup_scripts | other.setup_scripts,
            wrapper_scripts: self.wrapper_scripts | other.wrapper_scripts,
            refused: self.refused | other.refused,
            no_table: self.no_table | other.no_table,
        }
    }

    // What a file says.
    fn of_file(alloc: Global, file: &ListedFile) -> Result<ListFeatures, AllocError>
        ensures { IfOk result (AreFeaturesOf (file_of file.now ∷ [])) }
    {
        match experimental_in(file) {
            Some(value) => ListFeatures::of_value(alloc, value),
            None => Ok(ListFeatures::none()),
        }
    }

    // What a file says whose value of `experimental` this is.
    fn of_value(alloc: Global, value: &Value) -> Result<ListFeatures, AllocError>
        ensures { IfOk result (λ features. (file : ListFile)
            → HasExperimental file (view value.now) → AreFeaturesOf (file ∷ []) features) }
    {
        match ExperimentalDeserialize::read_under(alloc, Edition::ArrayAllowed, value) {
            Ok(named) => Ok(ListFeatures {
                setup_scripts: named.known.contains(&ConfigExperimental::SetupScripts),
                wrapper_scripts: named.known.contains(&ConfigExperimental::WrapperScripts),
                refused: false,
                no_table: value.is_array(),
            }),
            Err(fault) => ListFeatures::of_fault(fault),
        }
    }

    // What a file says whose value of `experimental` has a fault.
    fn of_fault(fault: ValueFault) -> Result<ListFeatures, AllocError>
        ensures { IfOk result (λ features. (features ≡ features_refused)
            × IsSome (fault_of fault)) }
    {
        if fault.is_memory() {
            return Err(AllocError);
        }
        Ok(ListFeatures {
            setup_scripts: false,
            wrapper_scripts: false,
            refused: true,
            no_table: true,
        })
    }
}

/// The experimental feature that scripts of a kind need.
pub(crate) fn feature_of(script: ScriptKind) -> ConfigExperimental
    ensures { result ≡ feature_of script }
{
    match script {
        ScriptKind::Setup => ConfigExperimental::SetupScripts,
        ScriptKind::Wrapper => ConfigExperimental::WrapperScripts,
    }
}

// The value of `experimental` of a file that is no tool's.
fn experimental_in<'a>(file: &ListedFile<'a>) -> Option<&'a Value>
    ensures { MatchOption result ((value : Data) → HasExperimental (file_of file.now) value → ⊥)
        (λ value. HasExperimental (file_of file.now) (view value.now)) }
{
    match file.source {
        ConfigSourceKind::Tool(_) => None,
        ConfigSourceKind::ExplicitRepository | ConfigSourceKind::DiscoveredRepository => {
            match file.document {
                Some(document) => value_at(document, "experimental"),
                None => None,
            }
        }
    }
}
