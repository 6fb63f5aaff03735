//! What is wrong with a filter.

mod argument;
mod expression;
mod hint;
mod predicate;
mod reading;
mod regex;
mod walk;

ghost use Rattle.std.specs.Prelude.{◌≡◌, ◌++◌, IfOk, IsOk, MatchOption, chars, encode_utf8_all};
ghost use Rattle.nextest_config_filters.specs.Fault.{Fault, fault_of, found_of};
ghost use Rattle.nextest_config_filters.specs.Filter.Fault.{IsFaultOf, IsFilterFault, IsReported};
ghost use Rattle.nextest_config_filters.specs.Filter.Reading.{fault_view, FaultAt as FaultAtOf};
ghost use Rattle.nextest_config_filters.specs.Filter.Walk.{HasNoRegex};
ghost use Rattle.nextest_config_filters.specs.Front.{IsRest};

use crate::fault::{FilterFlaw, TextFault, TextFaultKind};
use crate::front::behind_spaces;
use crate::text::size;
use hint::hint_of;
pub use predicate::Predicate;
use reading::{FaultAt, fault_at};
use std::alloc::{AllocError, Global};
use walk::reported_in;

/// Where a filter stands.
#[derive(Clone, Copy, Debug, PartialEq, Eq)]
pub enum FilterPlace {
    /// In an override.
    Filter,
    /// What runs where no filter is asked for.
    DefaultFilter,
}

/// The first fault of a filter; none of one that passes, or that isn't judged from a place on.
pub fn filter_fault(
    alloc: Global,
    text: &str,
    place: FilterPlace,
) -> Result<Option<TextFault>, AllocError>
    // The fault is reported that the filter has, and none where it has none.
    ensures found { IfOk result (λ found.
        MatchOption found ((fault : Fault) → ¬ IsFilterFault place text.now fault)
        (λ own. IsFilterFault place text.now (fault_of own))) }
    // Where nothing is reported and no regular expression stands, no memory is asked for.
    ensures no_memory { ((reported : FaultAtOf) → ¬ IsReported place (chars text.now) reported)
        → HasNoRegex place (chars text.now) → IsOk result }
{
    let reported = reported(alloc, place, text)?;
    match reported {
        Some(fault) => Ok(Some(hinted(alloc, text, &fault)?)),
        None => Ok(None),
    }
}

// The first fault of a text, before its hint.
fn reported(
    alloc: Global,
    place: FilterPlace,
    text: &str,
) -> Result<Option<FaultAt<'_>>, AllocError>
    ensures reported { IfOk result (λ found.
        MatchOption found ((reported : FaultAtOf) → ¬ IsReported place (chars text.now) reported)
        (λ own. IsReported place (chars text.now) (fault_view own))) }
    ensures no_memory { HasNoRegex place (chars text.now) → IsOk result }
{
    if behind_spaces(text).is_empty() {
        return Ok(Some(fault_at(text, "", FilterFlaw::Empty)));
    }
    let found = reported_in(alloc, place, text)?;
    Ok(found)
}

// A fault of a text, with what may be meant.
fn hinted(alloc: Global, text: &str, fault: &FaultAt<'_>) -> Result<TextFault, AllocError>
    requires { IsRest (chars text.now)
        (chars fault.now.what.now ++ chars fault.now.behind.now) }
    ensures { IfOk result (λ own. IsFaultOf text.now (fault_view fault.now) (fault_of own)) }
{
    let hint = hint_of(alloc, text, fault.flaw, fault.found)?;
    let found = String::from_str(alloc, found_text(fault))?;
    let end = size(text) - size(fault.behind);
    let begin = end - size(fault.what);
    Ok(TextFault {
        begin,
        end,
        kind: TextFaultKind::Filter {
            flaw: fault.flaw,
            found,
            hint,
        },
    })
}

// What is found, or in which words a regular expression is refused.
fn found_text<'a>(fault: &FaultAt<'a>) -> &'a str
    ensures { found_of fault.now.flaw (encode_utf8_all (chars result.now))
        ≡ found_of fault.now.flaw (encode_utf8_all (chars fault.now.found.now)) }
{
    match fault.flaw {
        FilterFlaw::InvalidRegex => fault.words,
        _ => fault.found,
    }
}
