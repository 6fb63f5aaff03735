//! A tree that keeps the choice of each half of its leaves.

ghost use Rattle.std.specs.Prelude.{◌≡◌, ◌+◌, ◌<◌, ◌≤◌, List, IfOk, length, replicate, slice_set};
ghost use Rattle.nextest_config.specs.Choice.{halvings, HoldsChoices};
ghost use Rattle.nextest_config.specs.Merge.{total};

use super::choose::Choose;
use std::alloc::{AllocError, Global};
use std::marker::Model;

/// Leaves in order, with the choice over all of them. The tree knows nothing of them but how to
/// choose.
#[derive(Debug, Drop)]
pub struct ChoiceTree<K: Choose> {
    leaves: Vec<K>,
    nodes: Vec<K>,
}

impl<K: Choose> Model for ChoiceTree<K> {
    ghost Value = { List K };

    ghost view = { λ tree. tree.leaves.items };

    ghost invariant = { λ tree. (length tree.leaves.items ≤ length tree.nodes.items + 1)
        × HoldsChoices K.choice K.nothing tree.leaves.items tree.nodes.items };
}

impl<K: Choose> ChoiceTree<K> {
    /// A tree with so many leaves, of which nothing is chosen.
    pub fn new(alloc: Global, n: usize) -> Result<Self, AllocError>
        ensures { IfOk result (λ tree. tree ≡ replicate n K.nothing) }
    {
        Ok(ChoiceTree {
            leaves: nothing_chosen(alloc, n)?,
            nodes: nothing_chosen(alloc, n)?,
        })
    }

    /// Replaces the leaf at the slot, and counts the choices that this takes: one for each time
    /// that the leaves are halved until that slot is left.
    pub fn set(&mut self, slot: usize, leaf: K, count: &mut K::Count)
        requires slot_within { slot < length self.old }
        requires countable { K.number count.old + halvings (length self.old) slot ≤ usize.MAX }
        ensures replaced { self.new ≡ slice_set self.old slot leaf }
        ensures counted { K.number count.new
            ≡ K.number count.old + halvings (length self.old) slot }
    {
        set_within(&mut self.leaves, &mut self.nodes, slot, leaf, count);
    }

    /// The choice over all leaves.
    pub fn whole(&self) -> K
        ensures { result ≡ total K.choice K.nothing self.now }
    {
        whole_of(&self.leaves, &self.nodes)
    }
}

// So many times the choice of nothing.
fn nothing_chosen<K: Choose>(alloc: Global, n: usize) -> Result<Vec<K>, AllocError>
    ensures { IfOk result (λ chosen. chosen.items ≡ replicate n K.nothing) }
{
    let mut chosen = Vec::with_capacity(alloc, n)?;
    for _slot in 0..n {
        chosen.push(K::none())?;
    }
    Ok(chosen)
}

// Puts the leaf at the slot, chooses anew in each range that has the slot, and gives the choice
// over all leaves. The nodes of a range are those of its first half, its own, and those of its
// second half.
fn set_within<K: Choose>(
    leaves: &mut [K],
    nodes: &mut [K],
    slot: usize,
    leaf: K,
    count: &mut K::Count,
) -> K
    requires slot_within { slot < length leaves.old }
    requires enough_nodes { length leaves.old ≤ length nodes.old + 1 }
    requires choices { HoldsChoices K.choice K.nothing leaves.old nodes.old }
    requires countable { K.number count.old + halvings (length leaves.old) slot ≤ usize.MAX }
    ensures replaced { leaves.new ≡ slice_set leaves.old slot leaf }
    ensures holds { HoldsChoices K.choice K.nothing leaves.new nodes.new }
    ensures whole { result ≡ total K.choice K.nothing leaves.new }
    ensures counted { K.number count.new ≡ K.number count.old + halvings (length leaves.old) slot }
{
    let half = leaves.len() / 2;
    if half == 0 {
        leaves[slot] = leaf;
        return leaf;
    }
    let (first, second) = leaves.split_at_mut(half);
    let (first_nodes, rest) = nodes.split_at_mut(half - 1);
    let (node, second_nodes) = rest.split_at_mut(1);
    let (first_whole, second_whole) = if slot < half {
        (
            set_within(first, first_nodes, slot, leaf, count),
            whole_of(second, second_nodes),
        )
    } else {
        (
            whole_of(first, first_nodes),
            set_within(second, second_nodes, slot - half, leaf, count),
        )
    };
    let chosen = K::choose(first_whole, second_whole, count);
    node[0] = chosen;
    chosen
}

// The choice over all leaves.
fn whole_of<K: Choose>(leaves: &[K], nodes: &[K]) -> K
    requires enough_nodes { length leaves.now ≤ length nodes.now + 1 }
    requires choices { HoldsChoices K.choice K.nothing leaves.now nodes.now }
    ensures { result ≡ total K.choice K.nothing leaves.now }
{
    match leaves {
        [] => K::none(),
        [leaf] => *leaf,
        _ => nodes[leaves.len() / 2 - 1],
    }
}
