//! The choice over all of a list, kept in a tree, so that a change costs a few choices.

mod choose;
mod tree;

pub use choose::Choose;
pub use tree::ChoiceTree;
