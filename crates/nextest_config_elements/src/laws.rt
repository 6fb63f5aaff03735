//! Laws of the definitions, for every value. They call nothing.

ghost use Rattle.std.specs.Prelude.{◌≡◌, ◌↔◌, ℕ, ◌<◌, ◌≤◌, ◌^◌, ℤ, ◌<ℤ◌, IsTrue};
ghost use Rattle.std.specs.Ordering.{MatchOrdering};
ghost use Rattle.toml.specs.Data.{Members};
ghost use Rattle.nextest_config_values.specs.Equality.{IsCopy, IsEquality, IsEqualityBy};
ghost use Rattle.nextest_config_values.specs.Helpers.PathsLaws.{relative_path_reading};
ghost use Rattle.nextest_config_values.specs.Once.{HasOneMeaningOrFault};
ghost use Rattle.nextest_config_values.specs.Read.{IsReading};
ghost use Rattle.nextest_config_elements.specs.Junit.{HasText, junit_table, JunitTable};
ghost use Rattle.nextest_config_elements.specs.MaxFail.{IsLimitFault, IsLimitText, IsReached, limit_fault, limit_text, LimitFault};
ghost use Rattle.nextest_config_elements.specs.declared.max_fail.MaxFail.{MaxFail};
ghost use Rattle.nextest_config_elements.specs.declared.max_fail.MaxFail.TheVariants.{All, Count};
ghost use Rattle.nextest_config_elements.specs.declared.max_fail.TerminateMode.{TerminateMode};

use crate::field::{FaultSeverity, Field, Parts, Shape};
use crate::global_timeout::GlobalTimeout;
use crate::junit::{JunitFlakyFailStatus, JunitImpl, MissingSetting};
use crate::leak_timeout::{LeakTimeout, LeakTimeoutResult};
use crate::max_fail::{CountFault, MaxFail, MaxFailCount, MaxFailParseError, TerminateMode};
use crate::priority::{TestPriority, TestPriorityOutOfRange};
use crate::profile_setting::ProfileSetting;
use crate::report_skip_policy::{MismatchReason, ReportSkipPolicy};
use crate::retry_policy::{Backoff, FlakyResult, RetryPolicy};
use crate::slow_timeout::{SlowTimeout, SlowTimeoutResult};
use crate::threads_required::ThreadsRequired;
use crate::word_list::WordList;

/// A text has one fail limit and no fault as one, or it has no limit and one fault.
#[tactic(auto, using(crate::proofs::Limits::one_limit_or_fault))]
pub fn law_limit_once()
    ensures { HasOneMeaningOrFault IsLimitText IsLimitFault }
{}

/// The printed text of a limit has that limit, where there is none and for a count from 1 to
/// `isize::MAX`.
#[tactic(auto, using(crate::proofs::Printed::limit_printed))]
pub fn law_printed_limit_reads_back()
    ensures all { IsLimitText (limit_text All) All }
    ensures count { (max_fail : ℕ) (mode : TerminateMode) → 0 < max_fail → max_fail < 2 ^ 63
        → IsLimitText (limit_text (Count max_fail mode)) (Count max_fail mode) }
{}

/// A limit that is reached stays reached at every greater number of failures, with the same mode.
pub fn law_reached_limit_stays()
    ensures stays { (limit : MaxFail) (failed more : ℕ) (mode : TerminateMode) → failed ≤ more
        → IsReached limit failed mode → IsReached limit more mode }
    ensures same_mode { (limit : MaxFail) (failed more : ℕ) (mode other : TerminateMode)
        → IsReached limit failed mode → IsReached limit more other → mode ≡ other }
{}

/// Of two priorities the one with the greater number comes first, and those that are equal have the
/// same number.
pub fn law_priority_order()
    ensures order { (a b : ℤ)
        → MatchOrdering (⟦<TestPriority as Ord>⟧.cmp a b) (b <ℤ a) (a ≡ b) (a <ℤ b) }
    ensures equality { (a b : ℤ) → IsTrue (⟦<TestPriority as PartialEq>⟧.eq a b) ↔ (a ≡ b) }
{}

/// As any setting, and as a relative path, a value means one thing and has no fault, or it means
/// nothing and has one fault.
pub fn law_setting_once<T: ProfileSetting>()
    ensures setting { IsReading T.reading.means T.reading.faults }
    ensures relative_path { IsReading relative_path_reading.means relative_path_reading.faults }
{}

/// What is kept of the table of a report takes memory only for its texts.
pub fn law_report_memory()
    ensures { (members : Members) (said : JunitTable) → junit_table.means members said
        → junit_table.takes_memory members → HasText said }
{}

/// Values are equal exactly where they are the same; refusals of a fail limit where they tell the
/// same.
pub fn law_equality()
    ensures fault_severity { IsEquality ⟦<FaultSeverity as PartialEq>⟧.eq }
    ensures retry_policy { IsEquality ⟦<RetryPolicy as PartialEq>⟧.eq }
    ensures backoff { IsEquality ⟦<Backoff as PartialEq>⟧.eq }
    ensures flaky_result { IsEquality ⟦<FlakyResult as PartialEq>⟧.eq }
    ensures leak_timeout { IsEquality ⟦<LeakTimeout as PartialEq>⟧.eq }
    ensures leak_timeout_result { IsEquality ⟦<LeakTimeoutResult as PartialEq>⟧.eq }
    ensures flaky_fail_status { IsEquality ⟦<JunitFlakyFailStatus as PartialEq>⟧.eq }
    ensures missing_setting { IsEquality ⟦<MissingSetting as PartialEq>⟧.eq }
    ensures priority_out_of_range { IsEquality ⟦<TestPriorityOutOfRange as PartialEq>⟧.eq }
    ensures skip_policy { IsEquality ⟦<ReportSkipPolicy as PartialEq>⟧.eq }
    ensures mismatch { IsEquality ⟦<MismatchReason as PartialEq>⟧.eq }
    ensures global_timeout { IsEquality ⟦<GlobalTimeout as PartialEq>⟧.eq }
    ensures fail_limit { IsEquality ⟦<MaxFail as PartialEq>⟧.eq }
    ensures terminate_mode { IsEquality ⟦<TerminateMode as PartialEq>⟧.eq }
    ensures count_fault { IsEquality ⟦<CountFault as PartialEq>⟧.eq }
    ensures slow_timeout { IsEquality ⟦<SlowTimeout as PartialEq>⟧.eq }
    ensures slow_timeout_result { IsEquality ⟦<SlowTimeoutResult as PartialEq>⟧.eq }
    ensures threads { IsEquality ⟦<ThreadsRequired as PartialEq>⟧.eq }
    ensures fail_limit_refusal { IsEqualityBy limit_fault ⟦<MaxFailParseError as PartialEq>⟧.eq }
{}

/// A copy is the value that it is made of.
pub fn law_copies()
    ensures field { IsCopy ⟦<Field as Clone>⟧.is_clone }
    ensures parts { IsCopy ⟦<Parts as Clone>⟧.is_clone }
    ensures shape { IsCopy ⟦<Shape as Clone>⟧.is_clone }
    ensures word_list { IsCopy ⟦<WordList as Clone>⟧.is_clone }
    ensures fault_severity { IsCopy ⟦<FaultSeverity as Clone>⟧.is_clone }
    ensures retry_policy { IsCopy ⟦<RetryPolicy as Clone>⟧.is_clone }
    ensures backoff { IsCopy ⟦<Backoff as Clone>⟧.is_clone }
    ensures flaky_result { IsCopy ⟦<FlakyResult as Clone>⟧.is_clone }
    ensures leak_timeout { IsCopy ⟦<LeakTimeout as Clone>⟧.is_clone }
    ensures leak_timeout_result { IsCopy ⟦<LeakTimeoutResult as Clone>⟧.is_clone }
    ensures flaky_fail_status { IsCopy ⟦<JunitFlakyFailStatus as Clone>⟧.is_clone }
    ensures missing_setting { IsCopy ⟦<MissingSetting as Clone>⟧.is_clone }
    ensures priority_out_of_range { IsCopy ⟦<TestPriorityOutOfRange as Clone>⟧.is_clone }
    ensures skip_policy { IsCopy ⟦<ReportSkipPolicy as Clone>⟧.is_clone }
    ensures mismatch { IsCopy ⟦<MismatchReason as Clone>⟧.is_clone }
    ensures global_timeout { IsCopy ⟦<GlobalTimeout as Clone>⟧.is_clone }
    ensures fail_limit { IsCopy ⟦<MaxFail as Clone>⟧.is_clone }
    ensures fail_count { IsCopy ⟦<MaxFailCount as Clone>⟧.is_clone }
    ensures terminate_mode { IsCopy ⟦<TerminateMode as Clone>⟧.is_clone }
    ensures count_fault { IsCopy ⟦<CountFault as Clone>⟧.is_clone }
    ensures slow_timeout { IsCopy ⟦<SlowTimeout as Clone>⟧.is_clone }
    ensures slow_timeout_result { IsCopy ⟦<SlowTimeoutResult as Clone>⟧.is_clone }
    ensures threads { IsCopy ⟦<ThreadsRequired as Clone>⟧.is_clone }
    ensures priority { IsCopy ⟦<TestPriority as Clone>⟧.is_clone }
{}
