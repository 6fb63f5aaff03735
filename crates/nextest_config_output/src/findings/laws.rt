//! Laws of the definitions, for every value. They call nothing.

ghost use Rattle.nextest_config_values.specs.Equality.{IsCopy, IsEquality};

use crate::findings::format::Format;
use crate::findings::summary::Summary;

/// Formats are equal exactly where they are the same, and so are summaries.
pub fn law_equality()
    ensures format { IsEquality ⟦<Format as PartialEq>⟧.eq }
    ensures summary { IsEquality ⟦<Summary as PartialEq>⟧.eq }
{}

/// A copy is what it is made of.
pub fn law_copies()
    ensures format { IsCopy ⟦<Format as Clone>⟧.is_clone }
    ensures summary { IsCopy ⟦<Summary as Clone>⟧.is_clone }
{}
