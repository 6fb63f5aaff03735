//! What is wrong with a platform.

mod flaw;
mod hint;
mod key;
mod member;
mod near;
mod outcome;
mod reading;
mod walk;

ghost use Rattle.std.specs.Prelude.{IfOk, IsOk, MatchOption, chars};
ghost use Rattle.std.specs.Str.{skip_leading_whitespace as behind_spaces};
ghost use Rattle.nextest_config_filters.specs.Fault.{Fault, fault_of};
ghost use Rattle.nextest_config_filters.specs.Front.{bytes_of};
ghost use Rattle.nextest_config_filters.specs.Platform.Fault.{AreBytesOf, IsPlatformFault, IsPlatformFaultOf, IsPlatformReported};
ghost use Rattle.nextest_config_filters.specs.Platform.Outcome.{IsShallow};
ghost use Rattle.nextest_config_filters.specs.Platform.Reading.{fault_view, FaultAt as FaultAtOf};

use crate::fault::{TextFault, TextFaultKind};
use crate::front::behind_spaces;
use crate::text::size;
pub use flaw::PlatformFlaw;
pub(crate) use flaw::write_platform_flaw;
use hint::hint_of;
use outcome::{Outcome, judged};
use reading::FaultAt;
use std::alloc::{AllocError, Global};

/// The first fault of a platform; none of one that passes, or that isn't judged from a place on.
pub fn platform_fault(alloc: Global, text: &str) -> Result<Option<TextFault>, AllocError>
    // The fault is reported that the platform has, and none where it has none.
    ensures found { IfOk result (λ found.
        MatchOption found ((fault : Fault) → ¬ IsPlatformFault text.now fault)
        (λ own. IsPlatformFault text.now (fault_of own))) }
    // Where nothing is reported, memory is asked for only if more than eight groups are open.
    ensures no_memory { ((reported : FaultAtOf) → ¬ IsPlatformReported (chars text.now) reported)
        → IsShallow (behind_spaces (chars text.now)) → IsOk result }
{
    match judged(alloc, behind_spaces(text))? {
        Outcome::Wrong(found) => {
            let fault = hinted(alloc, text, &found)?;
            Ok(Some(fault))
        }
        Outcome::Passes => Ok(None),
        Outcome::Unjudged => Ok(None),
    }
}

// A fault of a text, with what may be meant.
#[tactic(auto, using(crate::proofs::Characters::utf8_of_chars))]
fn hinted(alloc: Global, text: &str, fault: &FaultAt<'_>) -> Result<TextFault, AllocError>
    requires { AreBytesOf (fault_view fault.now) (bytes_of (chars text.now)) }
    ensures { IfOk result (λ own.
        IsPlatformFaultOf text.now (fault_view fault.now) (fault_of own)) }
{
    let found = String::from_str(alloc, fault.found)?;
    let hint = hint_of(alloc, fault.flaw, found.as_str())?;
    Ok(TextFault {
        begin: size(text) - fault.from,
        end: size(text) - fault.behind,
        kind: TextFaultKind::Platform {
            flaw: fault.flaw,
            found,
            hint,
        },
    })
}
