//! Laws over the definitions alone: where everything stands in a document.

ghost use Rattle.std.specs.Prelude.{◌≡◌, ℕ, IsSome, List};
ghost use Rattle.toml.specs.Parse.{parse_document};
ghost use Rattle.toml_spans.specs.Index.{IsIndexOf, ranges_in};
ghost use Rattle.toml_spans.specs.declared.index.Index.{Index};

/// Of one text, no path has two ranges: two indexes of it tell the same.
pub fn law_index_once()
    ensures { (text : List ℕ) (one other : Index) → IsIndexOf text one → IsIndexOf text other
        → ranges_in one ≡ ranges_in other }
{}

/// A text with an index is a document.
pub fn law_indexed_is_document()
    ensures { (text : List ℕ) (index : Index) → IsIndexOf text index
        → IsSome (parse_document text) }
{}
