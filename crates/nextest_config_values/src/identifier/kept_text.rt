//! The texts of identifiers and tool names.

ghost use Rattle.std.specs.Prelude.{◌≡◌, IfOk, IsOk, Some, chars, nat_eq, refl, string_bytes};
ghost use Rattle.std.proofs.Common.{rules};
ghost use Rattle.std.specs.Cmp.{partial_equiv_from_equiv};
ghost use Rattle.std.specs.Cmp.Lexicographic.{nat_list_cmp_total, nat_list_eq_equiv, pointwise, slice_cmp, texts_po, texts_ties};
ghost use Rattle.std.specs.Cmp.Rules.{hashing};
ghost use Rattle.std.specs.Hash as fed;
ghost use Rattle.std.specs.Ordering.{nat_cmp};
ghost use Rattle.nextest_config_values.specs.Identifier.{FitsInline, IsQuicklyNormal, normal_chars, normal_form};

use arrayvec::ArrayString;
use std::alloc::{AllocError, Global};
use std::cmp::Ordering;
use std::fmt;
use std::hash::{Hash, Hasher};
use std::marker::Model;
use unicode_normalization::{IsNormalized, is_nfc_quick, to_nfc};

/// A text that is kept within the value up to 23 bytes, and in a String above. It is compared,
/// hashed and printed as the text that it is, wherever it is kept.
#[derive(Drop)]
pub(super) struct KeptText {
    place: Place,
}

// Where a text is kept.
#[derive(Drop)]
enum Place {
    Inline(ArrayString<23>),
    Heap(String),
}

impl Model for KeptText {
    ghost use Rattle.std.specs.Prelude.{ℕ, List};
    ghost use Rattle.nextest_config_values.specs.Identifier.KeptText.{IsPlaced, text_at};

    ghost Value = { List ℕ };

    ghost view = { λ it. text_at it.place };

    ghost invariant = { λ it. IsPlaced it.place };
}

impl KeptText {
    /// The text in Normalization Form C (UAX 15).
    pub(super) fn normal(alloc: Global, text: &str) -> Result<Self, AllocError>
        ensures normal { IfOk result (λ kept. kept ≡ normal_form text.now) }
        ensures characters { IfOk result (λ kept. chars kept ≡ normal_chars text.now) }
        ensures inline { IsQuicklyNormal text.now → FitsInline text.now → IsOk result }
    {
        if let IsNormalized::Yes = is_nfc_quick(text.chars()) {
            let kept = KeptText::from_str(alloc, text)?;
            return Ok(kept);
        }
        let normal = to_nfc(alloc, text)?;
        Ok(KeptText::from_string(normal))
    }

    // The text as it is.
    fn from_str(alloc: Global, text: &str) -> Result<Self, AllocError>
        ensures value { IfOk result (λ kept. kept ≡ text.now) }
        ensures inline { FitsInline text.now → IsOk result }
    {
        let place = match ArrayString::from(text) {
            Ok(text) => Place::Inline(text),
            Err(_) => Place::Heap(String::from_str(alloc, text)?),
        };
        Ok(KeptText { place })
    }

    // The text as it is.
    fn from_string(text: String) -> Self
        ensures { result ≡ string_bytes text }
    {
        if let Ok(inline) = ArrayString::from(text.as_str()) {
            return KeptText {
                place: Place::Inline(inline),
            };
        }
        KeptText {
            place: Place::Heap(text),
        }
    }

    pub(super) fn as_str(&self) -> &str
        ensures { result.now ≡ self.now }
    {
        match &self.place {
            Place::Inline(text) => text.as_str(),
            Place::Heap(text) => text.as_str(),
        }
    }

    pub(super) fn into_string(self, alloc: Global) -> Result<String, AllocError>
        ensures { IfOk result (λ text. string_bytes text ≡ self) }
    {
        match self.place {
            Place::Inline(ref text) => String::from_str(alloc, text.as_str()),
            Place::Heap(text) => Ok(text),
        }
    }

    pub(super) fn clone(&self, alloc: Global) -> Result<Self, AllocError>
        ensures value { IfOk result (λ kept. kept ≡ self.now) }
        ensures inline { FitsInline self.now → IsOk result }
    {
        KeptText::from_str(alloc, self.as_str())
    }
}

impl fmt::Debug for KeptText {
    fn fmt<W: fmt::Write>(&self, f: &mut fmt::Formatter<W>) -> fmt::Result {
        fmt::Debug::fmt(self.as_str(), f)
    }
}

impl fmt::Display for KeptText {
    ghost output = { λ text. Some text };

    ghost styled_output = { λ text _. Some text };

    fn fmt<W: fmt::Write>(&self, f: &mut fmt::Formatter<W>) -> fmt::Result {
        f.write_str(self.as_str())
    }
}

impl PartialEq for KeptText {
    ghost eq = { pointwise nat_eq };

    ghost laws = { partial_equiv_from_equiv nat_list_eq_equiv };

    fn eq(&self, other: &KeptText) -> bool {
        self.as_str() == other.as_str()
    }
}

impl Eq for KeptText {
    ghost laws = { nat_list_eq_equiv };
}

impl PartialOrd for KeptText {
    ghost partial_cmp = { λ x y. Some (slice_cmp nat_cmp x y) };

    ghost laws = { texts_po };

    fn partial_cmp(&self, other: &KeptText) -> Option<Ordering> {
        Some(self.cmp(other))
    }
}

impl Ord for KeptText {
    ghost cmp = { slice_cmp nat_cmp };

    ghost total = { nat_list_cmp_total };

    ghost matches_partial_cmp = { λ x y. refl };

    ghost matches_eq = { texts_ties };

    fn cmp(&self, other: &KeptText) -> Ordering {
        self.as_str().cmp(other.as_str())
    }
}

impl Hash for KeptText {
    ghost hash_input = { fed.str };

    ghost respects_eq = { Prim.search (hashing, rules) };

    fn hash<H: Hasher>(&self, state: &mut H) {
        self.as_str().hash(state);
    }
}
