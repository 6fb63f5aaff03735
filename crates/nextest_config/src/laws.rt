//! Laws of the definitions, for every value. They call nothing.

ghost use Rattle.std.specs.Prelude.{◌≡◌, ◌≢◌, ◌↔◌, ◌⊎◌, ◌+◌, ◌<◌, ◌++◌, [], ◌∷◌, ℕ, List, Bool, true, false, get_or, length, map, None, replicate, Some, ◌-◌, ◌/◌, ◌^◌, ◌≤◌};
ghost use Rattle.std.specs.List.{AllByRecursion, AllZip};
ghost use Rattle.std.specs.Ordering.{nat_cmp};
ghost use Rattle.semver.specs.Parse.{Parts};
ghost use Rattle.nextest_config.specs.Choice.{halvings};
ghost use Rattle.nextest_config.specs.Board.Commands.{BoardCommand, ChangesInTurn, empty_board, HoldsLast, present, slot_in, sources_after};
ghost use Rattle.nextest_config.specs.Board.Slots.{board_list, BoardState};
ghost use Rattle.nextest_config.specs.Merge.{IsCut, IsMonoid, IsReordering};
ghost use Rattle.nextest_config.specs.NextestVersion.Verdict.{Verdict};
ghost use Rattle.nextest_config_values.specs.Equality.{IsCopy, IsEquality, IsEqualityBy};
ghost use Rattle.nextest_config.specs.NextestVersion.{FeaturesInOrder, IsBelow, Agree, alone, Configuration, configuration_of, IsFirstRefused, IsFirstRefusedAmong, IsFromSource, IsJoinOf, IsNoGraver, IsOverriding, IsSatisfied, IsSelected, IsSelectedFor, join_configurations, join_features, join_kept, join_roles, Kept, neutral_seen, no_features_seen, no_roles, rank, Reads, Refusal, Roles, satisfied, SelectsFor, Shortfall, SourceAsk, StandsFor, verdict, warn, given_of, IsEnough, IsEnoughByNumbers, features_reading, features_under, HasVersion, IsVersionFault, IsWrong, Numbers, place_of, plain, TextAsks, version_table_keys, versions_reading};
ghost use Rattle.nextest_config.specs.NextestVersion.Source.{Source, repository_given, tool_given};
ghost use Rattle.nextest_config.specs.declared.nextest_version.verdict.Severity.{Severity};
ghost use Rattle.nextest_config.specs.declared.nextest_version.version_only.VersionOnlyConfig.{VersionOnlyConfig};
ghost use Rattle.nextest_config.specs.declared.nextest_version.edition.Edition.{Edition};
ghost use Rattle.nextest_config.specs.declared.nextest_version.source.ConfigSourceKind.{ConfigSourceKind};
ghost use Rattle.nextest_config_values.specs.Once.{HasOneMeaningOrFault};
ghost use Rattle.nextest_config_values.specs.Read.{IsReading};

use crate::nextest_version::{
    ConfigExperimental, ConfigSource, ConfigSourceKind, Edition, NextestVersionDeserialize,
    RepositoryText, Severity, SourceText, ToolText,
};

/// A place among up to one isn't halved away. Of more places the first half has half of them,
/// rounded down, and the place is halved once, and then within the half that holds it. So it is
/// halved at most as often as their number has binary digits.
pub fn law_halvings()
    ensures alone { (n i : ℕ) → n ≤ 1 → halvings n i ≡ 0 }
    ensures first { (n i : ℕ) → 2 ≤ n → i < n / 2 → halvings n i ≡ 1 + halvings (n / 2) i }
    ensures second { (n i : ℕ) → 2 ≤ n → n / 2 ≤ i
        → halvings n i ≡ 1 + halvings (n - n / 2) (i - n / 2) }
    ensures digits { (n i digits : ℕ) → n < 2 ^ digits → halvings n i ≤ digits }
{}

/// Each text has one version and breaks no rule, or has none and breaks one.
#[tactic(auto, using(crate::specs::NextestVersion::VersionTextLaws::one_version_or_fault))]
pub fn law_version_once()
    ensures { HasOneMeaningOrFault HasVersion IsVersionFault }
{}

/// Each value of `nextest-version` and of `experimental` means one thing and has no fault, or means
/// nothing and has one fault; that of `experimental` under either edition, too.
pub fn law_setting_once()
    ensures versions { IsReading versions_reading.means versions_reading.faults }
    ensures features { IsReading features_reading.means features_reading.faults }
    ensures of_edition { (edition : Edition)
        → IsReading (features_under edition).means (features_under edition).faults }
{}

/// The keys that a type tells are those of the table that it is read from, in their order.
pub fn law_keys()
    ensures { map (λ key. key.now) NextestVersionDeserialize.KEYS.now ≡ version_table_keys }
{}

/// Under either edition each source asks one thing and nothing is wrong with it, or asks nothing
/// and one thing is wrong with it.
pub fn law_source_once()
    ensures { (edition : Edition) (kind : ConfigSourceKind)
        → HasOneMeaningOrFault (TextAsks edition kind) (IsWrong edition kind) }
{}

/// A current version is enough for the version of a text where its numbers are greater in order, or
/// are the same and it has no pre-release.
#[tactic(auto, using(crate::proofs::Enough::enough_by_numbers))]
pub fn law_enough()
    ensures { (current : Parts) (asked : Numbers)
        → IsEnough current (plain asked) ↔ IsEnoughByNumbers current asked }
{}

/// Features, editions and sources are equal exactly where they say the same.
pub fn law_equality()
    ensures feature { IsEquality ⟦<ConfigExperimental as PartialEq>⟧.eq }
    ensures edition { IsEquality ⟦<Edition as PartialEq>⟧.eq }
    ensures source_kind { IsEquality ⟦<ConfigSourceKind as PartialEq>⟧.eq }
    ensures source { IsEqualityBy place_of ⟦<ConfigSource as PartialEq>⟧.eq }
    ensures text { IsEqualityBy given_of ⟦<SourceText as PartialEq>⟧.eq }
    ensures tool { IsEqualityBy tool_given ⟦<ToolText as PartialEq>⟧.eq }
    ensures repository { IsEqualityBy repository_given ⟦<RepositoryText as PartialEq>⟧.eq }
{}

/// A copy is the value that it is made of.
pub fn law_copies()
    ensures feature { IsCopy ⟦<ConfigExperimental as Clone>⟧.is_clone }
    ensures edition { IsCopy ⟦<Edition as Clone>⟧.is_clone }
{}

/// The rank of severities that the laws of verdicts speak of is the order of `Severity`.
#[tactic(auto, using(crate::proofs::Orders::by_rank))]
pub fn law_severity_order()
    ensures order { (a b : Severity) → ⟦<Severity as Ord>⟧.cmp a b ≡ nat_cmp (rank a) (rank b) }
    ensures equality { IsEquality ⟦<Severity as PartialEq>⟧.eq }
    ensures copies { IsCopy ⟦<Severity as Clone>⟧.is_clone }
{}

/// The override turns an error into an overridden error and a warning into an overridden warning,
/// with the same contents, and does nothing else.
pub fn law_override()
    ensures { (roles : Roles) (current : Parts)
        → IsOverriding (verdict roles current false) (verdict roles current true) }
{}

/// A list of sources reads, or has one first refused position, with one error, and never both.
pub fn law_refusal_once()
    ensures read_or_refused { (sources : List Source)
        → Reads sources ⊎ ((position : ℕ) × (refusal : Refusal)
        × IsFirstRefused sources position refusal) }
    ensures never_both { (sources : List Source) (position : ℕ) (refusal : Refusal)
        → Reads sources → IsFirstRefused sources position refusal → ⊥ }
    ensures one_refusal { (sources : List Source) (i k : ℕ) (refusal other : Refusal)
        → IsFirstRefused sources i refusal → IsFirstRefused sources k other
        → (i ≡ k) × (refusal ≡ other) }
{}

/// No list of sources has two configurations that stand for it.
pub fn law_configuration_once()
    ensures { (sources : List Source) (configuration other : Configuration)
        → StandsFor sources configuration → StandsFor sources other → configuration ≡ other }
{}

/// What stands for a list selects for it: on each current version, overridden or not, its verdict
/// is the one selected from those of the sources alone.
#[tactic(auto, using(crate::proofs::Selection::selects_for))]
pub fn law_selected()
    ensures { (sources : List Source) (configuration : Configuration)
        → StandsFor sources configuration → SelectsFor sources configuration.roles }
{}

/// The features that a configuration knows stand in their order, each once.
pub fn law_known_in_order()
    ensures { (config : VersionOnlyConfig)
        → FeaturesInOrder (configuration_of config).experimental.known }
{}

/// The join is associative, and what asks nothing changes nothing on either side: of the versions
/// that are kept in a role, of both roles, of features and of configurations, built by hand or not.
pub fn law_join()
    ensures role { IsMonoid join_kept None }
    ensures roles { IsMonoid join_roles no_roles }
    ensures features { IsMonoid join_features no_features_seen }
    ensures configurations { IsMonoid join_configurations neutral_seen }
{}

/// Reading is the same however a list is cut. It reads exactly where each part does; its first
/// refused position is that of the first refused part, counted from the list's beginning; and a
/// configuration stands for it exactly where it is the join, in order, of those that stand for the
/// parts.
pub fn law_cut()
    ensures reads { (sources : List Source) (parts : List (List Source)) → IsCut sources parts
        → Reads sources ↔ AllByRecursion Reads parts }
    ensures refused { (sources : List Source) (parts : List (List Source)) (position : ℕ)
        (refusal : Refusal) → IsCut sources parts
        → IsFirstRefused sources position refusal ↔ IsFirstRefusedAmong parts position refusal }
    ensures stands { (sources : List Source) (parts : List (List Source))
        (configurations : List Configuration) (whole : Configuration) → IsCut sources parts
        → AllZip StandsFor parts configurations
        → StandsFor sources whole ↔ IsJoinOf configurations whole }
{}

/// Of a list that reads, each reordering reads. What stands for the two keeps the same versions,
/// knows the same features and has the same entries of unknown names, in some order; and on each
/// current version, overridden or not, both verdicts are of one kind and name one version. Where
/// several sources ask that version, the verdicts may name different ones of them.
pub fn law_reorder()
    ensures reads { (sources reordered : List Source) → IsReordering sources reordered
        → Reads sources → Reads reordered }
    ensures agree { (sources reordered : List Source) (configuration other : Configuration)
        → IsReordering sources reordered → StandsFor sources configuration
        → StandsFor reordered other → Agree configuration other }
{}

/// No list of sources has two selected verdicts.
pub fn law_verdict_once()
    ensures { (sources : List Source) (current : Parts) (overridden : Bool) (v w : Verdict)
        → IsSelectedFor sources current overridden v → IsSelectedFor sources current overridden w
        → v ≡ w }
{}

/// A verdict comes from a source: where the selected one isn't satisfied, some source whose place
/// it names gives it, read alone. It is satisfied exactly where that of each source alone is.
pub fn law_verdict_from_source()
    ensures source { (asked : List SourceAsk) (current : Parts) (overridden : Bool) (v : Verdict)
        → IsSelected (map (alone current overridden) asked) v → v ≢ satisfied
        → IsFromSource current overridden asked v }
    ensures satisfied { (asked : List SourceAsk) (current : Parts) (overridden : Bool) (v : Verdict)
        → IsSelected (map (alone current overridden) asked) v
        → (v ≡ satisfied) ↔ AllByRecursion IsSatisfied (map (alone current overridden) asked) }
{}

/// Where both roles stand and the recommended version isn't greater than the required one, the
/// verdict is never a warning.
pub fn law_lower_recommendation()
    ensures { (required recommended : Kept) (current : Parts) (overridden : Bool) (s : Shortfall)
        → ¬ IsBelow required.version recommended.version
        → verdict (record { required = Some required; recommended = Some recommended }) current
        overridden
        ≢ warn s }
{}

/// Of two current versions, the one that isn't below the other is never told the worse verdict, by
/// two roles and by a list of asks.
pub fn law_greater_current()
    ensures roles { (roles : Roles) (lesser greater : Parts) (overridden : Bool)
        → ¬ IsBelow greater lesser
        → IsNoGraver (verdict roles lesser overridden) (verdict roles greater overridden) }
    ensures list { (asked : List SourceAsk) (lesser greater : Parts) (overridden : Bool)
        (v w : Verdict)
        → ¬ IsBelow greater lesser → IsSelected (map (alone lesser overridden) asked) v
        → IsSelected (map (alone greater overridden) asked) w → IsNoGraver v w }
{}

/// A source that reads, added at any position, never lowers the severity of the selected verdict.
pub fn law_added_source()
    ensures { (before after : List Source) (added : Source) (current : Parts) (overridden : Bool)
        (v w : Verdict) → IsSelectedFor (before ++ after) current overridden v
        → IsSelectedFor (before ++ (added ∷ after)) current overridden w → IsNoGraver w v }
{}

/// A board of n slots, however it was changed, has n slots; each holds the versions of the source
/// that was put into it last, or none where it was left empty since or never changed; and the
/// choices that are counted are those of the last change.
pub fn law_board_follows()
    ensures slots { (n : ℕ) (commands : List BoardCommand) (board : BoardState)
        → ChangesInTurn commands (empty_board n) board → length board.slots ≡ n }
    ensures holds { (n : ℕ) (commands : List BoardCommand) (board : BoardState)
        → ChangesInTurn commands (empty_board n) board
        → (slot : ℕ) → HoldsLast commands slot (get_or board.slots slot None) }
    ensures selections { (n : ℕ) (commands : List BoardCommand) (last : BoardCommand)
        (board : BoardState)
        → ChangesInTurn (commands ++ (last ∷ [])) (empty_board n) board
        → board.selections ≡ halvings n (slot_in last) }
{}

/// The verdict of a board is that of the sources that its slots hold, read as one list in the order
/// of the slots.
pub fn law_board_verdict()
    ensures { (n : ℕ) (commands : List BoardCommand) (board : BoardState) (current : Parts)
        (overridden : Bool) (v : Verdict) → ChangesInTurn commands (empty_board n) board
        → IsSelected (map (alone current overridden) (board_list board.slots)) v
        ↔ IsSelectedFor (present (sources_after commands (replicate n None))) current overridden v }
{}
