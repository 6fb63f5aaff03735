//! The topic or the key that a word may be meant for.

ghost use Rattle.std.specs.Prelude.{◌≡◌, ◌++◌, ◌==◌, [], IfOk, OnOk, map, option_map, string_bytes};
ghost use Rattle.std.specs.List.{before_first};
ghost use Rattle.toml_spans.specs.Characters.{dot};
ghost use Rattle.nextest_config_elements.specs.Fields.{fields_view};
ghost use Rattle.nextest_config_elements.specs.Keys.{file_fields, profile_fields};
ghost use Rattle.nextest_config_values.specs.NearestWord.{IsNearest};
ghost use Rattle.nextest_config_values.specs.Read.{words_of};
ghost use Rattle.nextest_config_lint.specs.Explain.KnownKey.{known_key, path_of};
ghost use Rattle.nextest_config_lint.specs.Explain.Nearest.{behind_dot, below_profile, explained_words, paths_from};
ghost use Rattle.nextest_config_lint.specs.Explain.Places.{path_text};
ghost use Rattle.nextest_config_lint.specs.Explain.Topic.{topic_word, topics};

use crate::explain::known_key::KnownKey;
use crate::explain::places::path_text;
use crate::explain::topic::Topic;
use nextest_config_elements::field::Field;
use nextest_config_elements::keys::{file_fields, profile_fields};
use nextest_config_values::nearest_word::nearest;
use std::alloc::{AllocError, Global};

/// The word of a topic, or the path of a key, that another word comes nearest to. Of a path that
/// begins with a profile only what stands below its name counts. In the answer `NAME` stands for
/// any name, and `N` for any index.
pub fn nearest_topic_or_key(alloc: Global, word: &str) -> Result<Option<String>, AllocError>
    ensures { IfOk result (λ near.
        IsNearest explained_words (below_profile word.now) (option_map string_bytes near)) }
{
    let paths = key_paths(alloc)?;
    let words = words(alloc, paths.as_slice())?;
    let near = nearest(alloc, below_profile(word), words.as_slice())?;
    let near = owned(alloc, near)?;
    Ok(near)
}

fn owned(alloc: Global, word: Option<&str>) -> Result<Option<String>, AllocError>
    ensures { IfOk result (λ owned.
        option_map string_bytes owned ≡ option_map (λ word. word.now) word.entry) }
{
    match word {
        Some(word) => Ok(Some(String::from_str(alloc, word)?)),
        None => Ok(None),
    }
}

// The words of all topics, and then these.
fn words<'w>(alloc: Global, paths: &'w [String]) -> Result<Vec<&'w str>, AllocError>
    ensures { IfOk result (λ words.
        words_of words.items ≡ map topic_word topics ++ map string_bytes paths.now) }
{
    let mut words = Topic::words(alloc)?;
    for path in paths {
        words.push(path.as_str())?;
    }
    Ok(words)
}

// The paths of keys below a profile, and then from the top of a file.
fn key_paths(alloc: Global) -> Result<Vec<String>, AllocError>
    ensures { IfOk result (λ paths. map string_bytes paths.items
        ≡ paths_from profile_fields ++ paths_from file_fields) }
{
    let mut paths = Vec::new(alloc);
    push_paths(alloc, &mut paths, profile_fields())?;
    push_paths(alloc, &mut paths, file_fields())?;
    Ok(paths)
}

// Adds the paths of all keys that stand in a table with these fields.
fn push_paths(
    alloc: Global,
    paths: &mut Vec<String>,
    fields: &'static [Field],
) -> Result<(), AllocError>
    ensures { OnOk result (map string_bytes paths.new.items
        ≡ map string_bytes paths.old.items ++ paths_from (fields_view fields.now)) }
{
    let known = KnownKey::all(alloc, fields)?;
    push_all(alloc, paths, known.as_slice())
}

fn push_all(alloc: Global, paths: &mut Vec<String>, known: &[KnownKey]) -> Result<(), AllocError>
    ensures { OnOk result (map string_bytes paths.new.items ≡ map string_bytes paths.old.items
        ++ map (λ key. path_text (path_of key)) (map known_key known.now)) }
{
    for key in known {
        paths.push(path_of(alloc, key)?)?;
    }
    Ok(())
}

// How the path of a key prints.
fn path_of(alloc: Global, key: &KnownKey) -> Result<String, AllocError>
    ensures { IfOk result (λ text. string_bytes text
        ≡ path_text (path_of (known_key key.now))) }
{
    let path = key.path(alloc)?;
    let text = path_text(alloc, path.as_slice())?;
    Ok(text)
}

// What a path has below the name of a profile, if it begins there; else all of it.
fn below_profile(path: &str) -> &str
    ensures { result.now ≡ below_profile path.now }
{
    let below = behind_dot(behind_dot(path));
    if (before_dot(path) == "profile") & !below.is_empty() {
        below
    } else {
        path
    }
}

fn before_dot(path: &str) -> &str
    ensures { result.now ≡ before_first (λ b. b == dot) path.now }
{
    match path.split_once('.') {
        Some((front, _)) => front,
        None => path,
    }
}

fn behind_dot(path: &str) -> &str
    ensures { result.now ≡ behind_dot path.now }
{
    match path.split_once('.') {
        Some((_, behind)) => behind,
        None => "",
    }
}
