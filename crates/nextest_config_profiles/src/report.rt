//! What is told of a profile: each setting with the file that says so, what that hides, what else
//! the profile has, and what overrides may change.

mod absent;
mod chain;
mod converted;
mod elements;
mod faulty;
mod given;
mod hidden;
mod keys;
mod last;
mod literal;
mod narrowed;
mod no_limit;
mod other_profiles;
mod others;
mod overrides;
mod parts;
mod profile_report;
mod remark;
mod rows;
mod setting;
mod somes;
mod source;
mod standing;
mod wanted;
mod written;

pub use parts::{
    ChainProfile, FaultSource, FilePlace, Hidden, KeyState, Literal, OtherKey, OtherProfileFault,
    Override, OverrideSetting, Remark, Row, Source,
};
pub use profile_report::ProfileReport;
pub use wanted::WantedKey;
