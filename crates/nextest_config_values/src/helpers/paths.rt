//! Relative paths, and the join of two paths.

ghost use Rattle.std.specs.Prelude.{◌≡◌, ◌↔◌, IfErr, IfOk, IsTrue, string_bytes};
ghost use Rattle.toml.specs.View.{view};
ghost use Rattle.nextest_config_values.specs.Helpers.Paths.{IsRelativePath, joined_path};
ghost use Rattle.nextest_config_values.specs.Helpers.PathsLaws.{relative_path_reading};
ghost use Rattle.nextest_config_values.specs.Read.{RefusesAt, RefusesBy};

use crate::read::{FromToml, ReadFault, ValueFault};
use std::alloc::{AllocError, Global};
use std::path::Path;
use toml::Value;

/// Reads a relative path (`is_relative_path`), which is kept as it is written.
pub fn deserialize_relative_path(
    alloc: Global,
    value: &Value,
    at: &str,
) -> Result<String, ReadFault>
    ensures meant { IfOk result (λ path.
        relative_path_reading.means (view value.now) (string_bytes path)) }
    ensures refused { IfErr result (RefusesAt relative_path_reading (view value.now) at.now) }
{
    match read_relative_path(alloc, value) {
        Ok(path) => Ok(path),
        Err(fault) => Err(fault.at(alloc, at)),
    }
}

fn read_relative_path(alloc: Global, value: &Value) -> Result<String, ValueFault>
    ensures meant { IfOk result (λ path.
        relative_path_reading.means (view value.now) (string_bytes path)) }
    ensures refused { IfErr result (RefusesBy relative_path_reading (view value.now)) }
{
    let path = String::read_value(alloc, value)?;
    if is_relative_path(path.as_str()) {
        Ok(path)
    } else {
        let expected = "a relative path with no parent components";
        Err(ValueFault::invalid_value(alloc, value, expected))
    }
}

/// Whether a path doesn't begin with `/`, and none of its segments between slashes is `..`.
pub fn is_relative_path(path: &str) -> bool
    ensures { IsTrue result ↔ IsRelativePath path.now }
{
    !path.starts_with('/') && path.split('/').all(|piece| piece != "..")
}

/// The path that `path` names beside the folder `base`, by the rules of Unix: a path that begins
/// with `/` stays as it is.
#[tactic(auto, using(crate::proofs::Paths::joins))]
pub fn join_path(alloc: Global, base: &str, path: &str) -> Result<String, AllocError>
    ensures { IfOk result (λ joined. string_bytes joined ≡ joined_path base.now path.now) }
{
    let joined = Path::new(base).join(alloc, path)?;
    Ok(joined.into_string())
}
