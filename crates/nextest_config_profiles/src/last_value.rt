//! Which layer decides a path.

ghost use Rattle.std.specs.Prelude.{◌≡◌, ◌≤◌, ◌++◌, ◌∷◌, [], List, length, map};
ghost use Rattle.nextest_config_profiles.specs.LastValue.{IsLastValue};
ghost use Rattle.nextest_config_profiles.specs.Reach.{layers_of, lent_files, said_below, words_of};
ghost use Rattle.nextest_config_profiles.specs.Said.{Said, said_at};

use crate::reach::{LentLayers, Reach, follow};
use toml::Value;

/// A value of a layer.
#[derive(Clone, Copy)]
pub struct LayerValue<'a> {
    /// The position of the layer: what nextest sets itself has the first, 0, and then come the
    /// files.
    pub layer: usize,
    pub value: &'a Value,
}

/// What the last of the layers that say anything of a path has there, if that is a value.
pub(crate) fn last_value<'a>(layers: LentLayers<'_, 'a>, path: &[&str]) -> Option<LayerValue<'a>>
    ensures { IsLastValue (map (said_at (words_of path.now)) (layers_of layers.entry)) result }
{
    let lowest = later(None, 0, follow(layers.defaults, path));
    last_above(lowest, 1, layers.files, path)
}

/// What the last of the files that say anything of a path has there, or else the last of the layers
/// below them, of which there are so many.
#[inline]
pub(crate) fn last_above<'a>(
    below: Option<LayerValue<'a>>,
    count: usize,
    files: &[Option<&'a Value>],
    path: &[&str],
) -> Option<LayerValue<'a>>
    requires { count ≤ 1 }
    ensures { (all : List Said) → length all ≡ count → IsLastValue all below.entry
        → IsLastValue (all ++ map (said_at (words_of path.now)) (lent_files files.now)) result }
{
    let mut last = below;
    for (position, file) in files.iter().enumerate() {
        last = later(last, count + position, follow(*file, path));
    }
    last
}

// What the last layer has once one more lies above them, in which the path leads to this.
fn later<'a>(last: Option<LayerValue<'a>>, layer: usize, reach: Reach<'a>) -> Option<LayerValue<'a>>
    ensures { (all : List Said) → length all ≡ layer → IsLastValue all last.entry
        → IsLastValue (all ++ said_below [] reach.entry ∷ []) result }
{
    match reach {
        Reach::Nothing => last,
        Reach::Barred => None,
        Reach::Value(value) => Some(LayerValue { layer, value }),
    }
}
