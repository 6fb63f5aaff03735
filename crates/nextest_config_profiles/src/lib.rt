//! What a profile gets of its settings, which file says so, and what is told of it.
#![tactic(auto)]

mod chain;
mod defaults;
mod effective;
mod inherits;
mod junit;
mod last_value;
pub mod laws;
mod layer;
mod leaves;
mod merged;
mod name_list;
mod profile;
mod profile_alone;
mod profiles;
mod reach;
pub mod report;
pub mod setting_key;
mod texts;

pub use defaults::DEFAULTS;
pub use effective::Effective;
pub use inherits::InheritsPlace;
pub use junit::{EffectiveJunit, JunitFault};
pub use last_value::LayerValue;
pub use layer::Layer;
pub use leaves::Leaf;
pub use name_list::profile_names;
pub use profile::{EffectiveProfile, ProfileFault};
