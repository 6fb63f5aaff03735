//! Laws of the definitions, for every value. They call nothing.

ghost use Rattle.nextest_config_values.specs.Equality.{IsCopy, IsEquality};

use crate::exit_status::ExitStatus;
use crate::show::ShowFormat;

/// Statuses and formats are equal exactly where they are the same, and a copy is what it is made
/// of.
pub fn law_equality()
    ensures status { IsEquality ⟦<ExitStatus as PartialEq>⟧.eq }
    ensures status_copies { IsCopy ⟦<ExitStatus as Clone>⟧.is_clone }
    ensures format { IsEquality ⟦<ShowFormat as PartialEq>⟧.eq }
    ensures format_copies { IsCopy ⟦<ShowFormat as Clone>⟧.is_clone }
{}
