//! Laws of the definitions, for every value. They call nothing.

ghost use Rattle.std.specs.Prelude.{◌≡◌, ℕ, Bool, List};
ghost use Rattle.semver.specs.Parse.{Parts};
ghost use Rattle.nextest_config_values.specs.Equality.{IsCopy, IsEquality};
ghost use Rattle.nextest_config.specs.NextestVersion.Source.{Given};
ghost use Rattle.nextest_config.specs.declared.nextest_version.edition.Edition.{Edition};
ghost use Rattle.nextest_config_check.specs.Layout.{AreBlocks, IsFaultyLine};
ghost use Rattle.nextest_config_check.specs.Report.{IsReport};

use crate::report::Outcome;
use crate::streams::RunFault;

/// An input is laid out in at most one way, has at most one faulty line, and never both.
pub fn law_layout_once()
    ensures sources { (input : List ℕ) (a b : List Given)
        → AreBlocks a input → AreBlocks b input → a ≡ b }
    ensures line { (input : List ℕ) (m n : ℕ)
        → IsFaultyLine input m → IsFaultyLine input n → m ≡ n }
    ensures never_both { (input : List ℕ) (sources : List Given) (n : ℕ)
        → AreBlocks sources input → IsFaultyLine input n → ⊥ }
{}

/// For a current version, the flag and an edition, an input has at most one report, with one
/// outcome.
#[tactic(auto, using(crate::proofs::OneReport::report_once))]
pub fn law_report_once()
    ensures { (input : List ℕ) (current : Parts) (overridden : Bool) (edition : Edition)
        (text other : List ℕ) (outcome another : Outcome)
        → IsReport input current overridden edition text outcome
        → IsReport input current overridden edition other another
        → (text ≡ other) × (outcome ≡ another) }
{}

/// Outcomes and faults of a run are equal exactly where they are the same, and a copy is what it is
/// made of.
pub fn law_equality()
    ensures outcome { IsEquality ⟦<Outcome as PartialEq>⟧.eq }
    ensures fault { IsEquality ⟦<RunFault as PartialEq>⟧.eq }
    ensures outcome_copies { IsCopy ⟦<Outcome as Clone>⟧.is_clone }
    ensures fault_copies { IsCopy ⟦<RunFault as Clone>⟧.is_clone }
{}
