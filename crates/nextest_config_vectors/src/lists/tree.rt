//! A tree of choices over leaves of our own, and what each change of it costs.

ghost use Rattle.std.specs.Prelude.{◌≡◌, ◌<◌, ◌≤◌, length, slice_set};
ghost use Rattle.nextest_config.specs.Choice.{halvings};
ghost use Rattle.nextest_config_vectors.specs.Tree.{ends_join, join_ends};
ghost use Rattle.nextest_config_vectors.specs.declared.lists.tree.Ends.TheVariants.{Nothing};

use crate::answers::{cut, done, shown, unknown};
use crate::failure::Failure;
use crate::runner::Runner;
use crate::values::FromRow;
use nextest_config::board::{ChoiceTree, Choose};

/// The first and the last number of leaves in a row, if one of them has a number.
#[derive(Clone, Copy)]
pub enum Ends {
    Nothing,
    Between { first: usize, last: usize },
}

/// How many choices were made.
#[derive(Drop)]
pub struct Choices {
    number: usize,
}

impl Choose for Ends {
    type Count = Choices;

    ghost number = { λ count. count.number };

    ghost choice = { join_ends };

    ghost nothing = { Nothing };

    fn none() -> Ends {
        Ends::Nothing
    }

    fn choose(left: Ends, right: Ends, count: &mut Choices) -> Ends {
        count.number += 1;
        match (left, right) {
            (Ends::Nothing, ends) | (ends, Ends::Nothing) => ends,
            (Ends::Between { first, .. }, Ends::Between { last, .. }) => {
                Ends::Between { first, last }
            }
        }
    }

    ghost laws = { ends_join };
}

/// The ends of a tree, when it is made and after each of its changes.
pub fn tree(rt: &Runner, _call: &str, input: &str) -> Result<String, Failure> {
    let (leaves, changes) = cut(input, ":")?;
    let leaves = usize::from_row(rt, leaves)?;
    if leaves > 9 {
        return unknown(rt, input);
    }
    after_each(rt, leaves, changes)
}

fn after_each(rt: &Runner, leaves: usize, changes: &str) -> Result<String, Failure>
    requires { leaves ≤ 9 }
{
    let mut tree = match ChoiceTree::<Ends>::new(rt.call(), leaves) {
        Ok(tree) => tree,
        Err(error) => return shown(rt, &error),
    };
    rt.end();
    let mut text = String::new(rt.alloc());
    tell_ends(rt, &mut text, tree.whole())?;
    for change in changes.split_whitespace() {
        let (slot, leaf) = cut(change, "=")?;
        let slot = usize::from_row(rt, slot)?;
        if slot >= leaves {
            return unknown(rt, change);
        }
        let choices = set(&mut tree, slot, leaf_of(rt, leaf)?);
        done(rt, text.push_str(" "))?;
        tell_ends(rt, &mut text, tree.whole())?;
        done(rt, write!(text, "({choices})"))?;
    }
    Ok(text)
}

// Replaces the leaf, and gives the number of choices.
fn set(tree: &mut ChoiceTree<Ends>, slot: usize, leaf: Ends) -> usize
    requires within { slot < length tree.old }
    requires small { length tree.old ≤ 9 }
    ensures replaced { tree.new ≡ slice_set tree.old slot leaf }
    ensures counted { result ≡ halvings (length tree.old) slot }
{
    let mut choices = Choices { number: 0 };
    tree.set(slot, leaf, &mut choices);
    choices.number
}

fn leaf_of(rt: &Runner, leaf: &str) -> Result<Ends, Failure> {
    if leaf == "-" {
        return Ok(Ends::Nothing);
    }
    let number = usize::from_row(rt, leaf)?;
    Ok(Ends::Between {
        first: number,
        last: number,
    })
}

fn tell_ends(rt: &Runner, text: &mut String, ends: Ends) -> Result<(), Failure> {
    match ends {
        Ends::Nothing => done(rt, text.push_str("-")),
        Ends::Between { first, last } => done(rt, write!(text, "{first}..{last}")),
    }
}
