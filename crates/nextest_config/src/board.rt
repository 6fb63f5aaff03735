//! A board of sources that are replaced and withdrawn, with the verdict of the sources as they are.

mod config_board;
mod refusal;
mod role_pair;

pub use crate::choice::{ChoiceTree, Choose};
pub use config_board::ConfigBoard;
pub use refusal::BoardRefusal;
