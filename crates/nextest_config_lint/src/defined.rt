//! What a list of files defines: test groups, scripts, profiles, what these inherit from, and which
//! features are enabled.

ghost use Rattle.std.specs.Prelude.{◌≡◌, ◌↔◌, ◌∷◌, [], ℕ, Contains, IfOk, IsSome, IsTrue, List, MatchOption, None, OnOk, map, option_map, string_bytes};
ghost use Rattle.toml.specs.View.{table_view};
ghost use Rattle.nextest_config_values.specs.Identifier.{IsIdentifier, identifier_fault};
ghost use Rattle.nextest_config_lint.specs.Defined.{AddsNames, AreDocuments, AreNamesOf, ComesBackAt, DefinesNamed, DefinesProfile, HasName, HasNamed, IsDefinedBy, IsFeatureMissing, IsNameIn, KeepsName, ListFile, SomeOf, feature_of, file_of, file_with, table_below, table_of};
ghost use Rattle.nextest_config_lint.specs.Settings.{names_of};
ghost use Rattle.nextest_config_lint.specs.References.Names.{IsUndefined};
ghost use Rattle.nextest_config_lint.specs.References.Profiles.{IsUndefinedProfile};

use crate::list_features::ListFeatures;
use crate::ring_profiles::find_ring_profiles;
use nextest_config::nextest_version::{ConfigSourceKind, Edition};
use nextest_config_elements::named::{NamedKind, ScriptKind};
use nextest_config_values::identifier::{ConfigIdentifier, InvalidIdentifier};
use nextest_config_values::read::value_at;
use std::alloc::{AllocError, Global};
use std::collections::{BTreeMap, BTreeSet};
use toml::Table;

pub(crate) const GROUPS_KEY: &str = "test-groups";

pub(crate) const SCRIPTS_KEY: &str = "scripts";

const SETUP_KEY: &str = "setup";

const WRAPPER_KEY: &str = "wrapper";

pub(crate) const SCRIPT_KEY: &str = "script";

pub(crate) const PROFILES_KEY: &str = "profile";

pub(crate) const INHERITS_KEY: &str = "inherits";

pub(crate) const DEFAULT_PROFILE: &str = "default";

pub(crate) const DEFAULT_MIRI: &str = "default-miri";

/// A file of a list, with its document, if it is one.
#[derive(Clone, Copy)]
pub struct ListedFile<'a> {
    pub source: &'a ConfigSourceKind,
    pub document: Option<&'a Table>,
}

/// What a list of files defines.
#[derive(Drop)]
pub struct Defined {
    /// The test groups, as their names are kept.
    pub(crate) groups: BTreeSet<String>,
    /// The setup scripts, as their names are kept.
    pub(crate) setup_scripts: BTreeSet<String>,
    /// The wrapper scripts, as their names are kept.
    pub(crate) wrapper_scripts: BTreeSet<String>,
    /// The profiles, with those that nextest has itself.
    pub(crate) profiles: BTreeSet<String>,
    /// The tools whose files stand in the list.
    pub(crate) tools: BTreeSet<String>,
    /// Whether each file is a document; another may define what isn't found.
    pub(crate) all_read: bool,
    /// What the files say of the experimental features of scripts.
    pub(crate) features: ListFeatures,
    /// The profiles that come back to themselves by what they inherit from, each with the position
    /// of the file whose value counts.
    pub(crate) rings: BTreeMap<String, usize>,
}

// A kind of names that a file has.
#[derive(Clone, Copy)]
enum NameKind {
    /// Those that its test groups or scripts are kept as.
    Named(NamedKind),
    /// Those of its profiles.
    Profile,
    /// That of the tool whose file it is.
    Tool,
}

impl Defined {
    /// What the files of a list define, in reading order.
    pub fn of(alloc: Global, files: &[ListedFile]) -> Result<Defined, AllocError>
        ensures { IfOk result (IsDefinedBy (map file_of files.now)) }
    {
        Ok(Defined {
            groups: names_in(alloc, NameKind::Named(NamedKind::Group), files)?,
            setup_scripts: names_in(alloc, NameKind::Named(NamedKind::SETUP_SCRIPT), files)?,
            wrapper_scripts: names_in(alloc, NameKind::Named(NamedKind::WRAPPER_SCRIPT), files)?,
            profiles: profile_names(alloc, files)?,
            tools: names_in(alloc, NameKind::Tool, files)?,
            all_read: are_documents(files),
            features: ListFeatures::of(alloc, files)?,
            rings: find_ring_profiles(alloc, files)?,
        })
    }

    /// What a file defines that is its whole list.
    pub fn of_one(
        alloc: Global,
        source: &ConfigSourceKind,
        document: Option<&Table>,
    ) -> Result<Defined, AllocError>
        ensures { IfOk result (IsDefinedBy (file_with source.now
            (option_map (λ document. table_view document.now) document.entry) ∷ [])) }
    {
        Defined::of(alloc, &[ListedFile { source, document }])
    }
}

impl<'a> ListedFile<'a> {
    /// The table at a key of the top of the file.
    pub(crate) fn table(&self, key: &str) -> Option<&'a Table>
        ensures { option_map (λ table. table_view table.now) result
            ≡ table_of key.now (file_of self.now) }
    {
        match self.document {
            Some(document) => match value_at(document, key) {
                Some(value) => value.as_table(),
                None => None,
            },
            None => None,
        }
    }

    // The table at a key of a table of the top of the file.
    fn table_below(&self, top: &str, key: &str) -> Option<&'a Table>
        ensures { option_map (λ table. table_view table.now) result
            ≡ table_below top.now key.now (file_of self.now) }
    {
        match self.table(top) {
            Some(table) => match value_at(table, key) {
                Some(value) => value.as_table(),
                None => None,
            },
            None => None,
        }
    }
}

/// The names of a kind that a file defines, as they are kept.
pub(crate) fn names_of_file(
    alloc: Global,
    kind: NamedKind,
    file: &ListedFile,
) -> Result<BTreeSet<String>, AllocError>
    ensures { IfOk result (λ names.
        AreNamesOf (HasNamed kind (file_of file.now)) (map string_bytes names.keys)) }
{
    let mut names = BTreeSet::new(alloc);
    add_names(alloc, NameKind::Named(kind), file, &mut names)?;
    Ok(names)
}

// The names of a kind that the files have.
fn names_in(
    alloc: Global,
    kind: NameKind,
    files: &[ListedFile],
) -> Result<BTreeSet<String>, AllocError>
    ensures { IfOk result (λ names.
        AreNamesOf (IsNameIn kind (map file_of files.now)) (map string_bytes names.keys)) }
{
    let mut names = BTreeSet::new(alloc);
    for file in files {
        add_names(alloc, kind, file, &mut names)?;
    }
    Ok(names)
}

// The profiles that the files define, with those that nextest has itself.
fn profile_names(alloc: Global, files: &[ListedFile]) -> Result<BTreeSet<String>, AllocError>
    ensures { IfOk result (λ names.
        AreNamesOf (DefinesProfile (map file_of files.now)) (map string_bytes names.keys)) }
{
    let mut names = names_in(alloc, NameKind::Profile, files)?;
    add_name(alloc, DEFAULT_MIRI, &mut names)?;
    add_name(alloc, DEFAULT_PROFILE, &mut names)?;
    Ok(names)
}

// Whether each file is a document.
fn are_documents(files: &[ListedFile]) -> bool
    ensures { IsTrue result ↔ AreDocuments (map file_of files.now) }
{
    for file in files {
        if file.document.is_none() {
            return false;
        }
    }
    true
}

// Adds the names of a kind that a file has, as they are kept.
fn add_names(
    alloc: Global,
    kind: NameKind,
    file: &ListedFile,
    names: &mut BTreeSet<String>,
) -> Result<(), AllocError>
    ensures { OnOk result (AddsNames (HasName kind (file_of file.now))
        (map string_bytes names.old.keys) (map string_bytes names.new.keys)) }
{
    match kind {
        NameKind::Named(kind) => match kind {
            NamedKind::Group => add_kept(alloc, file.table(GROUPS_KEY), names),
            NamedKind::Script(ScriptKind::Setup) => {
                add_kept(alloc, file.table_below(SCRIPTS_KEY, SETUP_KEY), names)?;
                add_kept(alloc, file.table(SCRIPT_KEY), names)
            }
            NamedKind::Script(ScriptKind::Wrapper) => {
                add_kept(alloc, file.table_below(SCRIPTS_KEY, WRAPPER_KEY), names)
            }
        },
        NameKind::Profile => match file.table(PROFILES_KEY) {
            Some(profiles) => add_keys(alloc, profiles, names),
            None => Ok(()),
        },
        NameKind::Tool => match file.source {
            ConfigSourceKind::Tool(tool) => add_name(alloc, tool.as_str(), names),
            ConfigSourceKind::ExplicitRepository | ConfigSourceKind::DiscoveredRepository => Ok(()),
        },
    }
}

// Adds what the keys of a table are kept as, if there is one.
fn add_kept(
    alloc: Global,
    found: Option<&Table>,
    names: &mut BTreeSet<String>,
) -> Result<(), AllocError>
    ensures { OnOk result (AddsNames
        (KeepsName (option_map (λ table. table_view table.now) found.entry))
        (map string_bytes names.old.keys) (map string_bytes names.new.keys)) }
{
    match found {
        Some(table) => add_kept_of(alloc, table, names),
        None => Ok(()),
    }
}

// Adds what the keys of a table are kept as.
fn add_kept_of(alloc: Global, table: &Table, names: &mut BTreeSet<String>) -> Result<(), AllocError>
    ensures { OnOk result (AddsNames
        (λ name. SomeOf (λ key. IsIdentifier key name) (names_of (table_view table.now)))
        (map string_bytes names.old.keys) (map string_bytes names.new.keys)) }
{
    for key in table.keys() {
        add_kept_key(alloc, key.as_str(), names)?;
    }
    Ok(())
}

// Adds the keys of a table. They come in order, so that a set is made of them faster than it grows.
fn add_keys(alloc: Global, table: &Table, names: &mut BTreeSet<String>) -> Result<(), AllocError>
    ensures { OnOk result (AddsNames
        (λ name. SomeOf (λ key. key ≡ name) (names_of (table_view table.now)))
        (map string_bytes names.old.keys) (map string_bytes names.new.keys)) }
{
    let mut keys = key_set(alloc, table)?;
    names.append(&mut keys)?;
    Ok(())
}

// The keys of a table as a set.
fn key_set(alloc: Global, table: &Table) -> Result<BTreeSet<String>, AllocError>
    ensures { IfOk result (λ set. (name : List ℕ) → Contains (map string_bytes set.keys) name
        ↔ Contains (names_of (table_view table.now)) name) }
{
    let keys = copies_of_keys(alloc, table)?;
    keys.into_iter().collect(alloc)
}

// Copies of the keys of a table, in their order.
fn copies_of_keys(alloc: Global, table: &Table) -> Result<Vec<String>, AllocError>
    ensures { IfOk result
        (λ copies. map string_bytes copies.items ≡ names_of (table_view table.now)) }
{
    let mut copies = Vec::new(alloc);
    for key in table.keys() {
        copies.push(String::from_str(alloc, key.as_str())?)?;
    }
    Ok(copies)
}

// Adds what the key is kept as, if it is an identifier.
fn add_kept_key(alloc: Global, key: &str, names: &mut BTreeSet<String>) -> Result<(), AllocError>
    ensures { OnOk result (AddsNames (IsIdentifier key.now)
        (map string_bytes names.old.keys) (map string_bytes names.new.keys)) }
{
    match kept_name(alloc, key)? {
        Some(name) => {
            add_name(alloc, name.as_str(), names)?;
            Ok(())
        }
        None => Ok(()),
    }
}

// What the key is kept as, if it is an identifier.
fn kept_name(alloc: Global, key: &str) -> Result<Option<ConfigIdentifier>, AllocError>
    ensures { IfOk result (λ kept. MatchOption kept
        ((name : List ℕ) → IsIdentifier key.now name → ⊥) (IsIdentifier key.now)) }
{
    match ConfigIdentifier::new(alloc, key) {
        Ok(name) => Ok(Some(name)),
        Err(error) => none_kept(error),
    }
}

// Nothing is kept of a text that is no identifier.
fn none_kept(error: InvalidIdentifier) -> Result<Option<ConfigIdentifier>, AllocError>
    ensures { IfOk result (λ kept. (kept ≡ None) × IsSome (identifier_fault error)) }
{
    match error {
        InvalidIdentifier::Memory => Err(AllocError),
        InvalidIdentifier::Empty
        | InvalidIdentifier::InvalidXid(_)
        | InvalidIdentifier::ToolIdentifierInvalidFormat(_)
        | InvalidIdentifier::ToolComponentEmpty(_)
        | InvalidIdentifier::ToolIdentifierInvalidXid(_) => Ok(None),
    }
}

// Adds a name to a set.
fn add_name(alloc: Global, name: &str, names: &mut BTreeSet<String>) -> Result<(), AllocError>
    ensures { OnOk result (AddsNames (λ other. name.now ≡ other)
        (map string_bytes names.old.keys) (map string_bytes names.new.keys)) }
{
    let name = String::from_str(alloc, name)?;
    names.insert(name)?;
    Ok(())
}

impl Defined {
    /// Whether the profile comes back to itself by what it inherits from, where the value that
    /// counts stands in the file at this position.
    pub(crate) fn comes_back(&self, profile: &str, position: usize) -> bool
        ensures { (files : List ListFile) → IsDefinedBy files self.now
            → IsTrue result ↔ ComesBackAt files profile.now position }
    {
        match self.rings.get(profile) {
            Some(counting) => *counting == position,
            None => false,
        }
    }

    /// Whether no file defines the profile, and none that isn't read may define it.
    pub(crate) fn is_undefined_profile(&self, name: &str) -> bool
        ensures { (files : List ListFile) → IsDefinedBy files self.now
            → IsTrue result ↔ IsUndefinedProfile files name.now }
    {
        self.all_read & !has_name(&self.profiles, name)
    }

    /// The names of a kind, as they are kept.
    pub(crate) fn names(&self, kind: NamedKind) -> &BTreeSet<String>
        ensures { (files : List ListFile) → IsDefinedBy files self.now
            → AreNamesOf (DefinesNamed kind files) (map string_bytes result.now.keys) }
    {
        match kind {
            NamedKind::Group => &self.groups,
            NamedKind::Script(ScriptKind::Setup) => &self.setup_scripts,
            NamedKind::Script(ScriptKind::Wrapper) => &self.wrapper_scripts,
        }
    }

    /// Whether some file defines this name of a kind.
    pub(crate) fn defines(&self, kind: NamedKind, name: &str) -> bool
        ensures { (files : List ListFile) → IsDefinedBy files self.now
            → IsTrue result ↔ DefinesNamed kind files name.now }
    {
        has_name(self.names(kind), name)
    }

    /// Whether no file enables the feature of scripts of a kind, and none may that isn't read, or
    /// of which `experimental` is refused under the edition.
    pub(crate) fn lacks_feature(&self, edition: Edition, script: ScriptKind) -> bool
        ensures { (files : List ListFile) → IsDefinedBy files self.now
            → IsTrue result ↔ IsFeatureMissing edition files (feature_of script) }
    {
        self.all_read & !(self.features.are_refused(edition) | self.features.enable(script))
    }

    /// Whether no file defines the name of a kind, and none that isn't read or there may define it.
    pub(crate) fn is_undefined(&self, kind: NamedKind, name: &ConfigIdentifier) -> bool
        ensures { (files : List ListFile) → IsDefinedBy files self.now
            → IsTrue result ↔ IsUndefined kind files name.now }
    {
        if !self.all_read | self.defines(kind, name.as_str()) {
            return false;
        }
        match name.tool_components() {
            Some((tool, _)) => has_name(&self.tools, tool),
            None => true,
        }
    }
}

/// Whether a set has this name.
pub(crate) fn has_name(names: &BTreeSet<String>, name: &str) -> bool
    ensures { IsTrue result ↔ Contains (map string_bytes names.now.keys) name.now }
{
    names.contains(name)
}
