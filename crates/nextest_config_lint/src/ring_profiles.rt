//! The profiles that come back to themselves by what they inherit from.

ghost use Rattle.std.specs.Prelude.{◌≡◌, ◌↔◌, ◌<◌, ◌≤◌, ℕ, IfOk, IsSome, List, None, OnOk, Some, map};
ghost use Rattle.std.specs.BTreeMap.{btree_map_len, get_by_text};
ghost use Rattle.nextest_config_lint.specs.Defined.{ComesBackAt, ListFile, file_of};
ghost use Rattle.nextest_config_lint.specs.Inheritance.{AreLinks, link_in};
ghost use Rattle.nextest_config_lint.specs.RingProfiles.{IsWalk, position_of, same_link};

use crate::defined::ListedFile;
use crate::inheritance::{Link, links_of};
use std::alloc::{AllocError, Global};
use std::collections::BTreeMap;

/// The profiles that come back to themselves by what they inherit from, each with the position of
/// the file whose value counts.
pub(crate) fn find_ring_profiles(
    alloc: Global,
    files: &[ListedFile],
) -> Result<BTreeMap<String, usize>, AllocError>
    ensures { IfOk result (λ rings. (profile : List ℕ) (position : ℕ)
        → (get_by_text rings profile ≡ Some position)
        ↔ ComesBackAt (map file_of files.now) profile position) }
{
    let mut left = links_of(alloc, files)?;
    let mut rings = BTreeMap::new(alloc);
    while let Some((profile, _)) = left.first_key_value() {
        let profile = *profile;
        let mut trail = BTreeMap::new(alloc);
        let end = walk(profile, &mut left, &mut trail)?;
        // Where the walk has ended on its own trail, the ring is what it passes from there on.
        add_ring(alloc, end, &mut trail, &mut rings)?;
    }
    Ok(rings)
}

// Walks from a profile as far as profiles are left, and keeps what it passes. Where it ends.
fn walk<'a>(
    from: &'a str,
    left: &mut BTreeMap<&'a str, Link<'a>>,
    trail: &mut BTreeMap<&'a str, Link<'a>>,
) -> Result<&'a str, AllocError>
    ensures walk { IfOk result (λ end. (files : List ListFile) → AreLinks files (link_in left.old)
        → IsWalk files same_link from.now end.now
        (link_in left.old) (link_in left.new) (link_in trail.old) (link_in trail.new)) }
    ensures ended { IfOk result (λ end. link_in left.new end.now ≡ None) }
    ensures fewer { OnOk result (IsSome (link_in left.old from.now)
        → btree_map_len left.new < btree_map_len left.old) }
{
    let mut current = from;
    while let Some(link) = left.remove(current) {
        trail.insert(current, link)?;
        current = link.parent;
    }
    Ok(current)
}

// Walks from a profile as far as the trail goes, and adds what it passes to the rings.
fn add_ring<'a>(
    alloc: Global,
    from: &'a str,
    trail: &mut BTreeMap<&'a str, Link<'a>>,
    rings: &mut BTreeMap<String, usize>,
) -> Result<(), AllocError>
    ensures { OnOk result ((files : List ListFile) → AreLinks files (link_in trail.old)
        → (end : List ℕ) × (link_in trail.new end ≡ None)
        × IsWalk files position_of from.now end
        (link_in trail.old) (link_in trail.new) (get_by_text rings.old) (get_by_text rings.new)) }
{
    let mut current = from;
    while let Some(link) = trail.remove(current) {
        rings.insert(String::from_str(alloc, current)?, link.position)?;
        current = link.parent;
    }
    Ok(())
}
