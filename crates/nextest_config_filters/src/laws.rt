//! Laws of the definitions, for every text. They call nothing.

ghost use Rattle.std.specs.Prelude.{◌≡◌, ℕ, List, chars};
ghost use Rattle.std.specs.Str.{IsUtf8};
ghost use Rattle.nextest_config_filters.specs.Fault.{Fault, IsRangeIn};
ghost use Rattle.nextest_config_filters.specs.Filter.Fault.{IsFilterFault};
ghost use Rattle.nextest_config_filters.specs.Filter.Grammar.{IsDocumentedFilter};
ghost use Rattle.nextest_config_filters.specs.Platform.Fault.{IsPlatformFault};
ghost use Rattle.nextest_config_filters.specs.Platform.Grammar.{IsDocumentedPlatform};
ghost use Rattle.nextest_config_filters.specs.declared.filter.FilterPlace.{FilterPlace};

/// No filter has two faults.
pub fn law_filter_once()
    ensures { (place : FilterPlace) (text : List ℕ) (one other : Fault)
        → IsFilterFault place text one → IsFilterFault place text other → one ≡ other }
{}

/// The range of a fault lies in the text, and its ends at borders of characters.
pub fn law_filter_range()
    ensures { (place : FilterPlace) (text : List ℕ) (fault : Fault)
        → IsUtf8 text → IsFilterFault place text fault → IsRangeIn text fault.begin fault.end }
{}

/// Nothing is reported of a filter that nextest documents.
pub fn law_documented_filter()
    ensures { (place : FilterPlace) (text : List ℕ) (fault : Fault)
        → IsDocumentedFilter place (chars text) → ¬ IsFilterFault place text fault }
{}

/// No platform has two faults.
pub fn law_platform_once()
    ensures { (text : List ℕ) (one other : Fault)
        → IsPlatformFault text one → IsPlatformFault text other → one ≡ other }
{}

/// The range of a fault lies in the text, and its ends at borders of characters.
pub fn law_platform_range()
    ensures { (text : List ℕ) (fault : Fault)
        → IsUtf8 text → IsPlatformFault text fault → IsRangeIn text fault.begin fault.end }
{}

/// Nothing is reported of a platform that is documented.
pub fn law_documented_platform()
    ensures { (text : List ℕ) (fault : Fault)
        → IsDocumentedPlatform (chars text) → ¬ IsPlatformFault text fault }
{}
