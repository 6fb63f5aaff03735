//! Laws of the definitions, for every value. They call nothing.

ghost use Rattle.std.specs.Prelude.{◌≡◌, ◌↔◌, ℕ, codes, IsTrue, List, Option};
ghost use Rattle.std.specs.Cmp.Lexicographic.{slice_cmp};
ghost use Rattle.std.specs.Hash as fed;
ghost use Rattle.std.specs.Ordering.{nat_cmp};
ghost use Rattle.toml.specs.Data.{Data};
ghost use Rattle.nextest_config_values.specs.Duration.{IsDuration, IsDurationFault, Item, Spells, without_fractions, without_gaps};
ghost use Rattle.nextest_config_values.specs.declared.duration.DurationFault.{DurationFault};
ghost use Rattle.nextest_config_values.specs.Equality.{IsCopy, IsEquality, IsEqualityBy, IsEqualityOfTold};
ghost use Rattle.nextest_config_values.specs.Identifier.{identifier_fault, IdentifierFlaw, IsIdentifier, IsIdentifierFault, IsToolName, IsToolNameFault, NameFault, normal_chars, SameAnswers, tool_name_fault, ToolNameFlaw};
ghost use Rattle.nextest_config_values.specs.NearestWord.{IsNearest};
ghost use Rattle.nextest_config_values.specs.Once.{HasOneMeaningOrFault};
ghost use Rattle.nextest_config_values.specs.Read.{broken_rule, cause_of, fault_of, faults_at, IsReading, reason_of, step_of, read_fault_view, ReadFaultView};
ghost use Rattle.nextest_config_values.specs.ToolConfig.{Argument, argument_fault, argument_of, ArgumentFault, IsArgumentFault, IsToolArgument};
ghost use Rattle.nextest_config_values.specs.declared.track_default.TrackDefault.{TrackDefault};

use crate::duration::DurationFault;
use crate::helpers::InvalidIdentifierKind;
use crate::identifier::{ConfigIdentifier, InvalidIdentifier, InvalidToolName, ToolName};
use crate::read::{
    FaultCause, FaultKind, FromToml, NonZeroCount, ReadFault, Rule, Step, ValueFault,
};
use crate::tool_config::{ToolConfigFile, ToolConfigFileParseError};
use crate::track_default::TrackDefault;
use std::hash::Hash;

/// To each reader a value means one thing and has no fault, or it means nothing and has one fault;
/// and no value has two faults that are told at one path.
pub fn law_value_once<T: FromToml>()
    ensures once { IsReading T.reading.means T.reading.faults }
    ensures told_once { (value : Data) (at : List ℕ) (told other : ReadFaultView)
        → faults_at T.reading value at told → faults_at T.reading value at other → told ≡ other }
{}

/// A text is one identifier and has no fault as one, or it is none and has one fault.
#[tactic(auto, using(crate::specs::Identifier::Laws::one_identifier_or_fault))]
pub fn law_identifier_once()
    ensures { HasOneMeaningOrFault IsIdentifier IsIdentifierFault }
{}

/// A text is one tool name and has no fault as one, or it is none and has one fault.
#[tactic(auto, using(crate::specs::Identifier::Laws::one_tool_name_or_fault))]
pub fn law_tool_name_once()
    ensures { HasOneMeaningOrFault IsToolName IsToolNameFault }
{}

/// A text is one tool argument and has no fault as one, or it is none and has one fault.
#[tactic(auto, using(crate::proofs::Arguments::one_argument_or_fault))]
pub fn law_argument_once()
    ensures { HasOneMeaningOrFault IsToolArgument IsArgumentFault }
{}

/// Identifiers and tool names are ordered, compared and hashed as their texts are.
pub fn law_name_order()
    ensures identifier_order { (a b : List ℕ) → ⟦<ConfigIdentifier as Ord>⟧.cmp a b
        ≡ slice_cmp nat_cmp a b }
    ensures identifier_equality { (a b : List ℕ) → IsTrue (⟦<ConfigIdentifier as PartialEq>⟧.eq a b)
        ↔ (a ≡ b) }
    ensures identifier_hash { (a : List ℕ) → ⟦<ConfigIdentifier as Hash>⟧.hash_input a ≡ fed.str a }
    ensures tool_name_order { (a b : List ℕ) → ⟦<ToolName as Ord>⟧.cmp a b ≡ slice_cmp nat_cmp a b }
    ensures tool_name_equality { (a b : List ℕ) → IsTrue (⟦<ToolName as PartialEq>⟧.eq a b)
        ↔ (a ≡ b) }
    ensures tool_name_hash { (a : List ℕ) → ⟦<ToolName as Hash>⟧.hash_input a ≡ fed.str a }
{}

/// Texts with the same Normalization Form C are the same identifier, or have the same fault as one,
/// and so for tool names.
pub fn law_same_normal_form()
    ensures identifiers { (s t : List ℕ) → normal_chars s ≡ normal_chars t
        → SameAnswers (IsIdentifier s) (IsIdentifier t)
        × SameAnswers (IsIdentifierFault s) (IsIdentifierFault t) }
    ensures tool_names { (s t : List ℕ) → normal_chars s ≡ normal_chars t
        → SameAnswers (IsToolName s) (IsToolName t)
        × SameAnswers (IsToolNameFault s) (IsToolNameFault t) }
{}

/// No text is spelled by two lists of items, wherever white space stands; a text is one duration
/// and has no fault as one, or it is none and has one fault.
#[tactic(auto, using(crate::specs::Duration::Laws::one_spelling, crate::specs::Duration::Fronts::one_duration_or_fault))]
pub fn law_duration_once()
    ensures one_spelling { (text : List ℕ) (items others : List Item)
        → Spells items text → Spells others text → items ≡ others }
    ensures once { HasOneMeaningOrFault IsDuration IsDurationFault }
{}

/// What is left out of texts before it is judged whether they may be durations, by examples.
pub fn law_left_out()
    ensures fraction { without_fractions (codes "1.5h") ≡ codes "1h" }
    ensures fractions_in_a_row { without_fractions (codes "1.2.3s") ≡ codes "1s" }
    ensures dot_before_no_digit { without_fractions (codes "1.h") ≡ codes "1.h" }
    ensures dot_after_no_digit { without_fractions (codes ".5h") ≡ codes ".5h" }
    ensures gap { without_gaps (codes "1 2s") ≡ codes "12s" }
    ensures space_between_items { without_gaps (codes "1h 2m") ≡ codes "1h 2m" }
    ensures space_around_a_number { without_gaps (codes " 5 s") ≡ codes " 5 s" }
{}

/// A name has one nearest word, or none.
#[tactic(auto, using(crate::specs::NearestWord::nearest_once))]
pub fn law_nearest_once()
    ensures { (words : List (List ℕ)) (name : List ℕ) (a b : Option (List ℕ))
        → IsNearest words name a → IsNearest words name b → a ≡ b }
{}

/// Values are equal exactly where they say the same. Of refusals that may hold one of a name this
/// is said where they tell a fault.
#[tactic(auto, using(crate::proofs::Equalities::same_rule, crate::proofs::Equalities::same_kind, crate::proofs::Equalities::same_fault, crate::proofs::Equalities::same_step, crate::proofs::Equalities::same_cause, crate::proofs::Equalities::same_value_fault))]
pub fn law_equality()
    ensures duration_fault { IsEquality ⟦<DurationFault as PartialEq>⟧.eq }
    ensures identifier_kind { IsEquality ⟦<InvalidIdentifierKind as PartialEq>⟧.eq }
    ensures identifier_refusal { IsEqualityBy identifier_fault ⟦<InvalidIdentifier as PartialEq>⟧.eq }
    ensures tool_name_refusal { IsEqualityBy tool_name_fault ⟦<InvalidToolName as PartialEq>⟧.eq }
    ensures argument { IsEqualityBy argument_of ⟦<ToolConfigFile as PartialEq>⟧.eq }
    ensures argument_refusal { IsEqualityOfTold argument_fault ⟦<ToolConfigFileParseError as PartialEq>⟧.eq }
    ensures count { IsEquality ⟦<NonZeroCount as PartialEq>⟧.eq }
    ensures rule { IsEqualityBy broken_rule ⟦<Rule as PartialEq>⟧.eq }
    ensures kind { IsEqualityOfTold reason_of ⟦<FaultKind as PartialEq>⟧.eq }
    ensures fault { IsEqualityOfTold read_fault_view ⟦<ReadFault as PartialEq>⟧.eq }
    ensures step { IsEqualityBy step_of ⟦<Step as PartialEq>⟧.eq }
    ensures cause { IsEqualityOfTold cause_of ⟦<FaultCause as PartialEq>⟧.eq }
    ensures value_fault { IsEqualityOfTold fault_of ⟦<ValueFault as PartialEq>⟧.eq }
{}

/// A copy is the value that it is made of.
pub fn law_copies()
    ensures duration_fault { IsCopy ⟦<DurationFault as Clone>⟧.is_clone }
    ensures identifier_kind { IsCopy ⟦<InvalidIdentifierKind as Clone>⟧.is_clone }
    ensures count { IsCopy ⟦<NonZeroCount as Clone>⟧.is_clone }
{}

/// Marked values are equal where the values and the marks are.
pub fn law_tracked_equality<T: PartialEq>()
    ensures { (a b : TrackDefault T) → IsTrue (⟦<TrackDefault<T> as PartialEq>⟧.eq a b)
        ↔ (IsTrue (T.eq a.value b.value) × (a.is_deserialized ≡ b.is_deserialized)) }
{}
