//! What is found of the test groups and scripts that a file defines.

ghost use Rattle.std.specs.Prelude.{◌≡◌, ◌≢◌, ◌↔◌, IfOk, IsTrue, Some, codes, map, not, option_and_then, string_bytes};
ghost use Rattle.toml.specs.Data.{as_table, Members, no_members};
ghost use Rattle.toml.specs.View.{view};
ghost use Rattle.nextest_config_lint.specs.Defined.{AreNamesOf, HasNamed, IsNoTools, ListFile};
ghost use Rattle.nextest_config_lint.specs.Found.{feature_not_enabled, kind_view, name_of_tool, outside_tool, setup_script_too, IsReportedIf, ReportsIfAny, HoldsInView};
ghost use Rattle.nextest_config_lint.specs.References.Definitions.{BeginsWith, IsDefinitionReported, IsMarkReported, IsSetupToo, LacksFeature, tool_mark_of};
ghost use Rattle.nextest_config_lint.specs.References.Names.{IsNameReported};
ghost use Rattle.nextest_config_elements.specs.declared.named.NamedKind.TheVariants.{Script};
ghost use Rattle.nextest_config_elements.specs.declared.named.ScriptKind.TheVariants.{Setup};
ghost use Rattle.nextest_config_lint.specs.References.JudgedFile.{HoldsInFile};

use crate::defined::has_name;
use crate::finding::FindingKind;
use crate::references::Reported;
use crate::references::judged_file::JudgedFile;
use crate::references::names::no_name;
use nextest_config::nextest_version::ConfigSourceKind;
use nextest_config_elements::named::{NamedKind, ScriptKind};
use nextest_config_values::identifier::{ConfigIdentifier, ToolName};
use std::alloc::{AllocError, Global};
use std::collections::BTreeSet;
use toml::Value;

/// What is found of a name of a kind that a file defines.
pub(super) fn of_definition(
    alloc: Global,
    file: &JudgedFile,
    kind: NamedKind,
    name: &str,
) -> Reported
    ensures reported { IfOk result (HoldsInFile file.now
        (λ at. IsNameReported kind (IsDefinitionReported at.file kind) name.now)) }
    ensures reports { IfOk result ReportsIfAny }
{
    match ConfigIdentifier::new(alloc, name) {
        Ok(name) => of_kept(alloc, file, kind, name.as_str()),
        Err(error) => no_name(kind, error),
    }
}

// What is found of a name of a kind that a file defines, as it is kept.
fn of_kept(alloc: Global, file: &JudgedFile, kind: NamedKind, name: &str) -> Reported
    ensures reported { IfOk result (HoldsInFile file.now
        (λ at. IsDefinitionReported at.file kind name.now)) }
    ensures reports { IfOk result ReportsIfAny }
{
    match of_mark(alloc, file.source, kind, name)? {
        Some(reported) => Ok(Some(reported)),
        None => of_two_kinds(alloc, file.setup_scripts, kind, name),
    }
}

// What is found of how a name of a kind begins that a file of this source defines.
fn of_mark(alloc: Global, source: &ConfigSourceKind, kind: NamedKind, name: &str) -> Reported
    ensures reported { IfOk result (HoldsInView (IsMarkReported source.now kind name.now)) }
    ensures reports { IfOk result ReportsIfAny }
{
    match source {
        ConfigSourceKind::Tool(tool) => of_tools_name(alloc, tool, kind, name),
        ConfigSourceKind::ExplicitRepository | ConfigSourceKind::DiscoveredRepository => {
            Ok(of_own_name(kind, name))
        }
    }
}

// What is found of how a name of a kind begins that this tool's file defines.
fn of_tools_name(alloc: Global, tool: &ToolName, kind: NamedKind, name: &str) -> Reported
    ensures reported { IfOk result (HoldsInView
        (IsReportedIf (BeginsWith (tool_mark_of tool.now) name.now → ⊥)
        (outside_tool kind (tool_mark_of tool.now)))) }
    ensures reports { IfOk result ReportsIfAny }
{
    let mark = tool_mark(alloc, tool)?;
    if name.starts_with(mark.as_str()) {
        return Ok(None);
    }
    Ok(Some(FindingKind::OutsideTool { kind, mark }))
}

// What the names begin with that a tool's file defines.
fn tool_mark(alloc: Global, tool: &ToolName) -> Result<String, AllocError>
    ensures { IfOk result (λ mark. string_bytes mark ≡ tool_mark_of tool.now) }
{
    format!(in alloc; "@tool:{}:", tool.as_str())
}

// What is found of how a name of a kind begins that a file defines which is no tool's.
fn of_own_name(kind: NamedKind, name: &str) -> Option<FindingKind>
    ensures reported { HoldsInView (IsReportedIf (BeginsWith (codes "@") name.now)
        (name_of_tool kind)) result }
    ensures reports { ReportsIfAny result }
{
    if name.starts_with("@") {
        Some(FindingKind::NameOfTool(kind))
    } else {
        None
    }
}

// What is found of a name of a kind in a file that defines these setup scripts.
fn of_two_kinds(
    alloc: Global,
    setup_scripts: &BTreeSet<String>,
    kind: NamedKind,
    name: &str,
) -> Reported
    ensures reported { IfOk result (λ reported. (file : ListFile)
        → AreNamesOf (HasNamed (Script Setup) file) (map string_bytes setup_scripts.now.keys)
        → IsReportedIf (IsSetupToo file kind name.now) (setup_script_too name.now)
        (option_and_then kind_view reported)) }
    ensures reports { IfOk result ReportsIfAny }
{
    match kind {
        NamedKind::Script(ScriptKind::Wrapper) => {
            if !has_name(setup_scripts, name) {
                return Ok(None);
            }
            let name = String::from_str(alloc, name)?;
            Ok(Some(FindingKind::SetupScriptToo { name }))
        }
        NamedKind::Group | NamedKind::Script(ScriptKind::Setup) => Ok(None),
    }
}

/// What is found of the scripts of a kind that a file defines.
pub(super) fn of_scripts(
    file: &JudgedFile,
    script: ScriptKind,
    value: &Value,
) -> Option<FindingKind>
    ensures reported { HoldsInFile file.now (λ at.
        IsReportedIf (LacksFeature at script (view value.now)) (feature_not_enabled script))
        result }
    ensures reports { ReportsIfAny result }
{
    if !is_tools(file.source)
        & has_members(value)
        & file.defined.lacks_feature(file.edition, script)
    {
        Some(FindingKind::FeatureNotEnabled(script))
    } else {
        None
    }
}

// Whether a file of this source is a tool's.
fn is_tools(source: &ConfigSourceKind) -> bool
    ensures { IsTrue (not result) ↔ IsNoTools source.now }
{
    match source {
        ConfigSourceKind::Tool(_) => true,
        ConfigSourceKind::ExplicitRepository | ConfigSourceKind::DiscoveredRepository => false,
    }
}

// Whether a value is a table with a key.
fn has_members(value: &Value) -> bool
    ensures { IsTrue result ↔ ((members : Members) × (as_table (view value.now) ≡ Some members)
        × (members ≢ no_members)) }
{
    match value.as_table() {
        Some(table) => !table.is_empty(),
        None => false,
    }
}
