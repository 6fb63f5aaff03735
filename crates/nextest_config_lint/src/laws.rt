//! Laws of the definitions, for every document. They call nothing.

ghost use Rattle.std.specs.Prelude.{◌≡◌, ◌↔◌, ◌-◌, ℕ, drop, List, Some, take};
ghost use Rattle.std.specs.List.{AllByRecursion};
ghost use Rattle.std.specs.Ordering.{nat_cmp};
ghost use Rattle.toml.specs.Data.{Data, Members};
ghost use Rattle.toml.specs.Parse.{parse_document};
ghost use Rattle.nextest_config_values.specs.Equality.{IsCopy, IsEquality};
ghost use Rattle.nextest_config_values.specs.Literal.Value.{IsLiteral};
ghost use Rattle.toml_spans.specs.Ranges.{IsAt, Range, Ranges};
ghost use Rattle.toml_spans.specs.Step.{PathStep};
ghost use Rattle.nextest_config_filters.specs.Fault.{Fault as TextFault};
ghost use Rattle.nextest_config.specs.NextestVersion.{Ask, TextAsks};
ghost use Rattle.nextest_config.specs.declared.nextest_version.edition.Edition.{Edition};
ghost use Rattle.nextest_config.specs.declared.nextest_version.source.ConfigSourceKind.{ConfigSourceKind};
ghost use Rattle.nextest_config_elements.specs.declared.field.Shape.{Shape};
ghost use Rattle.nextest_config_lint.specs.Defined.{ListFile};
ghost use Rattle.nextest_config_lint.specs.Document.{AreFindings};
ghost use Rattle.nextest_config_lint.specs.File.{AreLocated};
ghost use Rattle.nextest_config_lint.specs.Finding.{rank};
ghost use Rattle.nextest_config_lint.specs.FindingsLaws.{FindsItsFault, IsFileWithoutError, IsNoLocatedError, IsNoError, IsTakenWhole, IsWithoutError, LeadsToValue, own_findings, versions_setting, features_setting, retries_setting, slow_timeout_setting, leak_timeout_setting, fail_fast_setting, junit_setting};
ghost use Rattle.nextest_config_lint.specs.Found.{Found, Suggestion, the_toml};
ghost use Rattle.nextest_config_lint.specs.Hints.Written.{IsSuggestedByText, Writes};
ghost use Rattle.nextest_config_lint.specs.Shapes.{shape_check};
ghost use Rattle.nextest_config_lint.specs.TextRange.{plain_range, text_at};
ghost use Rattle.nextest_config_lint.specs.declared.file.LocatedFinding.{LocatedFinding};
ghost use Rattle.nextest_config_lint.specs.declared.finding.FindingSeverity.{FindingSeverity};

use crate::finding::FindingSeverity;

/// A note is below a warning, and that below an error.
pub fn law_severity_order()
    ensures order { (a b : FindingSeverity)
        → ⟦<FindingSeverity as Ord>⟧.cmp a b ≡ nat_cmp (rank a) (rank b) }
    ensures equality { IsEquality ⟦<FindingSeverity as PartialEq>⟧.eq }
    ensures copies { IsCopy ⟦<FindingSeverity as Clone>⟧.is_clone }
{}

/// No document has two lists of findings under one edition, as a source of one kind.
pub fn law_findings_once()
    ensures { (edition : Edition) (kind : ConfigSourceKind) (files : List ListFile)
        (position : ℕ) (members : Members) (a b : List Found)
        → AreFindings edition kind files position members a
        → AreFindings edition kind files position members b → a ≡ b }
{}

/// Where a fault of a text stands at bytes of its own, the file has there what it tells of the
/// text.
pub fn law_text_range()
    ensures { (contents : List ℕ) (ranges : Ranges) (path : List PathStep) (fault : TextFault)
        (range : Range) → plain_range contents ranges path fault ≡ Some range
        → (text : List ℕ) × (text_at contents path ≡ Some text)
        × IsAt contents range (take (fault.end - fault.begin) (drop fault.begin text)) }
{}

/// What is found in a document beside references and rules between keys depends on no other file:
/// it is the same in every list, at every position.
pub fn law_own_findings()
    ensures { (edition : Edition) (kind : ConfigSourceKind) (files others : List ListFile)
        (position place : ℕ) (members : Members) (a b : List Found)
        → AreFindings edition kind files position members a
        → AreFindings edition kind others place members b
        → own_findings a ≡ own_findings b }
{}

/// No finding of a document is an error exactly where nothing that is judged in it has a fault that
/// is one, and no feature is named if the file is a tool's.
pub fn law_no_error()
    ensures { (edition : Edition) (kind : ConfigSourceKind) (files : List ListFile)
        (position : ℕ) (members : Members)
        (all_found : List Found) → AreFindings edition kind files position members all_found
        → AllByRecursion IsNoError all_found ↔ IsWithoutError edition kind members }
{}

/// No finding of a file is an error exactly where the file is UTF-8 and a document, of which no
/// finding is one.
pub fn law_no_error_in_file()
    ensures { (edition : Edition) (kind : ConfigSourceKind) (files : List ListFile)
        (position : ℕ) (contents : List ℕ)
        (located : List LocatedFinding) → AreLocated edition kind files position contents located
        → AllByRecursion IsNoLocatedError located ↔ IsFileWithoutError edition kind contents }
{}

/// Each finding of a document stands at a value of it: its path leads to one, and for an unknown
/// key the path with that key.
pub fn law_findings_lead()
    ensures { (edition : Edition) (kind : ConfigSourceKind) (files : List ListFile)
        (position : ℕ) (members : Members)
        (all_found : List Found) → AreFindings edition kind files position members all_found
        → AllByRecursion (LeadsToValue members) all_found }
{}

/// A text that is a document, of which no error is found, is read as a source: it asks something.
pub fn law_no_error_reads()
    ensures { (edition : Edition) (kind : ConfigSourceKind) (files : List ListFile)
        (position : ℕ) (text : List ℕ) (members : Members)
        (all_found : List Found) → parse_document text ≡ Some members
        → AreFindings edition kind files position members all_found
        → AllByRecursion IsNoError all_found
        → (ask : Ask) × TextAsks edition kind (Some text) ask }
{}

/// A boolean or an integer that is hinted at is one that the text writes, and that the shape takes
/// under each edition.
pub fn law_hint_taken()
    ensures { (edition : Edition) (shape : Shape) (text : List ℕ) (suggestion : Suggestion)
        → IsSuggestedByText shape text (Some suggestion) → (value : Data) × Writes text value
        × (shape_check edition shape).passes value
        × ((written : List ℕ) × IsLiteral value written × (suggestion ≡ the_toml written)) }
{}

/// Key by key, nothing is wrong with a value of a setting exactly where its reader takes it whole:
/// of a timeout, where nextest's own configuration doesn't supply the period.
pub fn law_taken_key_by_key()
    ensures versions { IsTakenWhole versions_setting }
    ensures features { IsTakenWhole features_setting }
    ensures retries { IsTakenWhole retries_setting }
    ensures slow_timeout { IsTakenWhole slow_timeout_setting }
    ensures leak_timeout { IsTakenWhole leak_timeout_setting }
    ensures fail_fast { IsTakenWhole fail_fast_setting }
    ensures junit { IsTakenWhole junit_setting }
{}

/// Key by key, the one fault that the reader of a setting finds in a value is found, too: at the
/// same place, for the same cause.
pub fn law_reader_fault_found()
    ensures versions { FindsItsFault versions_setting }
    ensures features { FindsItsFault features_setting }
    ensures retries { FindsItsFault retries_setting }
    ensures slow_timeout { FindsItsFault slow_timeout_setting }
    ensures leak_timeout { FindsItsFault leak_timeout_setting }
    ensures fail_fast { FindsItsFault fail_fast_setting }
    ensures junit { FindsItsFault junit_setting }
{}
