//! Where a file asks the version that a verdict names.

ghost use Rattle.std.specs.Prelude.{◌≡◌, ◌↔◌, ℕ, IfOk, IfSome, IsSome, IsTrue, List, map, MatchOption};
ghost use Rattle.toml.specs.View.{table_view};
ghost use Rattle.nextest_config.specs.NextestVersion.{place_of};
ghost use Rattle.toml_spans.specs.Index.{OfDocument};
ghost use Rattle.toml_spans.specs.Line.{found_in};
ghost use Rattle.toml_spans.specs.Step.{step_of};
ghost use Rattle.nextest_config_command.specs.Asked.{asked_of, AsksAt, has_version_table, IsAskedBy, IsAskedIn, IsRangeAt, NoneAsks, role_key, SomeAsks, version_path};
ghost use Rattle.nextest_config_command.specs.Found.{all_files, files_of};

use crate::parsed_file::{ParsedFile, ParsedFiles};
use nextest_config::nextest_version::{ConfigSource, VersionRole};
use nextest_config_lint::value_or_key;
use nextest_config_values::read::value_at;
use std::alloc::{AllocError, Global};
use toml::Table;
use toml_spans::{Index, Span, Step};

const VERSION_KEY: &str = "nextest-version";

const REQUIRED_KEY: &str = "required";

const RECOMMENDED_KEY: &str = "recommended";

/// Where a file asks a version: the path of the version, and the range of what stands there.
#[derive(Drop)]
pub(crate) struct Asked {
    pub path: Vec<Step>,
    pub span: Span,
}

/// Where the version is asked that a verdict names with this role and source: by a file of the
/// source, at the key of the role or at `nextest-version` itself. Of several such files it is the
/// last one.
pub(crate) fn asked_version(
    alloc: Global,
    files: &ParsedFiles<'_>,
    role: VersionRole,
    source: &ConfigSource,
) -> Result<Asked, AllocError>
    requires { SomeAsks (all_files (files_of files.now)) role (place_of source.now) }
    ensures { IfOk result (λ asked. IsAskedIn (all_files (files_of files.now)) role
        (place_of source.now) (asked_of asked)) }
{
    if let Some(asked) = asked_in(alloc, files.repository.as_slice(), role, source)? {
        return Ok(asked);
    }
    match asked_in(alloc, files.tools.as_slice(), role, source)? {
        Some(asked) => Ok(asked),
        None => unreachable!(),
    }
}

// Where the last of the files that come from the source and ask a version in the role asks it.
fn asked_in(
    alloc: Global,
    files: &[ParsedFile<'_>],
    role: VersionRole,
    source: &ConfigSource,
) -> Result<Option<Asked>, AllocError>
    ensures { IfOk result (λ asked. MatchOption asked
        (NoneAsks files.now role (place_of source.now))
        (λ asked. IsAskedIn files.now role (place_of source.now) (asked_of asked))) }
{
    for file in files.iter().rev() {
        if let Some(asked) = asked_by(alloc, file, role, source)? {
            return Ok(Some(asked));
        }
    }
    Ok(None)
}

// Where the file asks a version in the role, if it comes from the source and asks one.
fn asked_by(
    alloc: Global,
    file: &ParsedFile<'_>,
    role: VersionRole,
    source: &ConfigSource,
) -> Result<Option<Asked>, AllocError>
    ensures { IfOk result (λ asked. MatchOption asked
        (¬ AsksAt role (place_of source.now) file.now)
        (λ asked. IsAskedBy role (place_of source.now) (asked_of asked) file.now)) }
{
    if !is_same_place(file.source(), source) {
        return Ok(None);
    }
    let Some((text, document)) = file.text() else {
        return Ok(None);
    };
    let path = version_path(alloc, document, role)?;
    match range_at(alloc, text, path.as_slice())? {
        Some(span) => Ok(Some(Asked { path, span })),
        None => Ok(None),
    }
}

// Whether two sources are at one place.
fn is_same_place(one: &ConfigSource, other: &ConfigSource) -> bool
    ensures { IsTrue result ↔ (place_of one.now ≡ place_of other.now) }
{
    one.kind == other.kind && one.path == other.path
}

// The path of the version that a document asks in a role.
fn version_path(alloc: Global, document: &Table, role: VersionRole) -> Result<Vec<Step>, AllocError>
    ensures { IfOk result
        (λ path. map step_of path.items ≡ version_path role (table_view document.now)) }
{
    let mut path = Vec::new(alloc);
    path.push(Step::Key(String::from_str(alloc, VERSION_KEY)?))?;
    if has_version_table(document) {
        path.push(Step::Key(String::from_str(alloc, role_key(role))?))?;
    }
    Ok(path)
}

// Whether the document has a table of versions.
fn has_version_table(document: &Table) -> bool
    ensures { result ≡ has_version_table (table_view document.now) }
{
    match value_at(document, VERSION_KEY) {
        Some(value) => value.as_table().is_some(),
        None => false,
    }
}

// The key of a role in a table of versions.
fn role_key(role: VersionRole) -> &'static str
    ensures { result.now ≡ role_key role }
{
    match role {
        VersionRole::Required => REQUIRED_KEY,
        VersionRole::Recommended => RECOMMENDED_KEY,
    }
}

// The range of what a path leads to in the document that a text is. `None` where it leads to no
// value.
fn range_at(alloc: Global, text: &str, path: &[Step]) -> Result<Option<Span>, AllocError>
    ensures there { IfOk result (λ span. OfDocument text.now
        (λ members. IsSome span ↔ IsSome (found_in members (map step_of path.now)))) }
    ensures range { IfOk result
        (λ span. IfSome span (IsRangeAt text.now (map step_of path.now))) }
{
    match Index::of(alloc, text)? {
        Some(index) => Ok(value_or_key(&index, path)),
        None => Ok(None),
    }
}
