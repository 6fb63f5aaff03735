//! What each profile inherits from, by the value that counts.

ghost use Rattle.std.specs.Prelude.{◌≡◌, ℕ, IfOk, List, OnOk, cond, map, option_and_then};
ghost use Rattle.std.specs.Str.{bytes_eq};
ghost use Rattle.toml.specs.Data.{as_table, get_member};
ghost use Rattle.toml.specs.View.{table_view, view};
ghost use Rattle.nextest_config_lint.specs.Defined.{file_of, inherits_in, inherits_key};
ghost use Rattle.nextest_config_lint.specs.Inheritance.{AreLinksOf, inherits_among, link_in, link_over};

use crate::defined::{DEFAULT_PROFILE, INHERITS_KEY, ListedFile, PROFILES_KEY};
use nextest_config_values::read::value_at;
use std::alloc::{AllocError, Global};
use std::collections::BTreeMap;
use toml::{Table, Value};

/// What a profile inherits from, and the position of the file that says so.
#[derive(Clone, Copy)]
pub(crate) struct Link<'a> {
    pub(crate) position: usize,
    pub(crate) parent: &'a str,
}

/// For each profile but `default` what it inherits from, if the value that counts is a text.
pub(crate) fn links_of<'a>(
    alloc: Global,
    files: &[ListedFile<'a>],
) -> Result<BTreeMap<&'a str, Link<'a>>, AllocError>
    ensures { IfOk result (λ links. AreLinksOf (map file_of files.now) (link_in links)) }
{
    let mut links = BTreeMap::new(alloc);
    for (position, file) in files.iter().enumerate() {
        add_links(position, file, &mut links)?;
    }
    links.remove(DEFAULT_PROFILE);
    Ok(links)
}

// Adds the links of a file, in place of earlier ones.
fn add_links<'a>(
    position: usize,
    file: &ListedFile<'a>,
    links: &mut BTreeMap<&'a str, Link<'a>>,
) -> Result<(), AllocError>
    ensures { OnOk result ((profile : List ℕ) → link_in links.new profile
        ≡ link_over position (inherits_in profile (file_of file.now)) (link_in links.old profile)) }
{
    match file.table(PROFILES_KEY) {
        Some(profiles) => add_links_among(position, profiles, links),
        None => Ok(()),
    }
}

// Adds the links of a table of profiles.
fn add_links_among<'a>(
    position: usize,
    profiles: &'a Table,
    links: &mut BTreeMap<&'a str, Link<'a>>,
) -> Result<(), AllocError>
    ensures { OnOk result ((profile : List ℕ) → link_in links.new profile
        ≡ link_over position (inherits_among profile (table_view profiles.now))
        (link_in links.old profile)) }
{
    for (name, profile) in profiles {
        add_link(position, name.as_str(), profile, links)?;
    }
    Ok(())
}

// Adds the link of a profile, if it has `inherits`.
fn add_link<'a>(
    position: usize,
    name: &'a str,
    profile: &'a Value,
    links: &mut BTreeMap<&'a str, Link<'a>>,
) -> Result<(), AllocError>
    ensures { OnOk result ((other : List ℕ) → link_in links.new other
        ≡ cond (bytes_eq name.now other)
        (link_over position (option_and_then (get_member inherits_key)
        (as_table (view profile.now)))
        (link_in links.old other))
        (link_in links.old other)) }
{
    let Some(table) = profile.as_table() else {
        return Ok(());
    };
    let Some(value) = value_at(table, INHERITS_KEY) else {
        return Ok(());
    };
    match value.as_str() {
        Some(parent) => {
            links.insert(name, Link { position, parent })?;
        }
        None => {
            links.remove(name);
        }
    }
    Ok(())
}
