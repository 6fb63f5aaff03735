//! The files of a list, as layers.

ghost use Rattle.std.specs.Prelude.{◌≡◌, ◌∷◌, IfOk, map, option_map};
ghost use Rattle.toml.specs.View.{table_view, view};
ghost use Rattle.toml_spans.specs.Step.{step_of};
ghost use Rattle.nextest_config_profiles.specs.Layer.{IsSpanAt, profiles_at, profiles_in};
ghost use Rattle.nextest_config_profiles.specs.Reach.{layers_of, lent_files};

use crate::reach::LentLayers;
use nextest_config::nextest_version::ConfigSource;
use nextest_config_lint::value_or_key;
use nextest_config_values::read::value_at;
use std::alloc::{AllocError, Global};
use toml::{Table, Value};
use toml_spans::{Index, Span, Step};

/// A file of a list, with its document and the index of its places.
#[derive(Clone, Copy, Debug)]
pub struct Layer<'a> {
    pub source: &'a ConfigSource,
    pub document: &'a Table,
    pub index: &'a Index,
}

impl Layer<'_> {
    /// The range of the value of a path from the top, or without one that of its key; `None` where
    /// the path leads to nothing.
    pub fn span(&self, path: &[Step]) -> Option<Span>
        ensures { IsSpanAt self.now (map step_of path.now) result }
    {
        value_or_key(self.index, path)
    }
}

/// What a document has for profiles.
pub(crate) fn profiles_at(document: &Table) -> Option<&Value>
    ensures { option_map (λ value. view value.now) result
        ≡ profiles_at (table_view document.now) }
{
    value_at(document, "profile")
}

/// What the files have for profiles.
pub(crate) fn profiles_of_files<'a>(
    alloc: Global,
    layers: &[Layer<'a>],
) -> Result<Vec<Option<&'a Value>>, AllocError>
    ensures { IfOk result (λ profiles. lent_files profiles.items ≡ profiles_in layers.now) }
{
    let mut profiles = Vec::new(alloc);
    for layer in layers {
        profiles.push(profiles_at(layer.document))?;
    }
    Ok(profiles)
}

/// What layers have for profiles: this document, and above it the files.
pub(crate) fn lent_layers<'l, 'v>(
    defaults: &'v Table,
    files: &'l [Option<&'v Value>],
) -> LentLayers<'l, 'v>
    ensures { layers_of result ≡ profiles_at (table_view defaults.now) ∷ lent_files files.now }
{
    LentLayers {
        defaults: profiles_at(defaults),
        files,
    }
}
