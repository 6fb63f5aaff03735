//! The settings of nextest's profiles.
#![tactic(auto)]

pub mod field;
mod from_table;
pub mod global_timeout;
pub mod junit;
pub mod keys;
pub mod laws;
pub mod leak_timeout;
pub mod max_fail;
pub mod named;
pub mod priority;
pub mod profile_setting;
pub mod purpose;
pub mod readers;
pub mod report_skip_policy;
pub mod retry_policy;
pub mod slow_timeout;
pub mod test_threads;
pub mod threads_required;
pub mod word_list;
