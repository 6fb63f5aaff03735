//! How what is reported of a profile is printed, for people and for programs.

mod as_json;
mod chain;
mod columns;
mod format;
mod human;
mod key_path;
mod location;
mod object;
mod other_profiles;
mod overrides;
mod setting_lines;
mod source;
mod sourced_line;
mod time;
mod to_json;

pub use format::profile_text;
pub use other_profiles::other_profiles_text;
