//! Names: texts in Normalization Form C that follow a form.

ghost use Rattle.std.specs.Prelude.{◌≡◌, ℕ, List, IfErr, IfOk, IsOk, None, OnOk, Option, Some, alloc_error, chars, encode_utf8_all, string_bytes};
ghost use Rattle.nextest_config_values.specs.Identifier.{FitsInline, flawed, Grammar, IsKeptText, IsNormalFault, IsNormalText, IsQuicklyNormal, name_reading, NameFault};
ghost use Rattle.nextest_config_values.specs.Read.{FaultOrMemory, IsNameKind};
ghost use Rattle.nextest_config_values.specs.declared.read.fault.FaultKind.{FaultKind};

use super::kept_text::KeptText;
use crate::read::{FaultKind, FromToml, ValueFault, held_text};
use std::alloc::{AllocError, Global};
use std::fmt;
use std::marker::{Model, PhantomData};
use toml::Value;

/// A form of names: which texts are such names, and how other texts are refused.
pub trait NameForm: Sized {
    /// What is wrong with the characters of a text.
    type Flaw: Copy + Drop;

    /// Why a text was refused.
    type Refusal: From<AllocError> + Into<FaultKind> + Drop;

    /// What the type of these names is called.
    const TYPE_NAME: &'static str;

    ghost grammar: { Grammar Self.Flaw };

    // What a refusal tells, unless memory was refused.
    ghost fault: { Self.Refusal → Option (NameFault Self.Flaw) };

    /// Judges a text in Normalization Form C.
    fn judge(text: &str) -> Result<(), Self::Flaw>
        ensures accepted { OnOk result (grammar.IsForm (chars text.now)) }
        ensures refused { IfErr result (grammar.IsFlaw (chars text.now)) };

    /// The refusal of a text with this flaw.
    fn refusal(flaw: Self::Flaw, text: String) -> Self::Refusal
        requires { (cs : List ℕ) × grammar.IsFlaw cs flaw × (string_bytes text ≡ encode_utf8_all cs) }
        ensures { fault result ≡ Some (flawed flaw (string_bytes text)) };

    ghost memory_is_no_fault: { (refusal : Self.Refusal) → Self.Refusal.from_gives alloc_error refusal
        → fault refusal ≡ None };

    ghost is_told: { (refusal : Self.Refusal) (kind : FaultKind) → Self.Refusal.converts refusal kind
        → IsNameKind grammar.reason (fault refusal) kind };
}

/// A name of a form, kept in Normalization Form C. It is compared and hashed as its text is.
#[derive(Drop)]
#[derive_where(PartialEq, Eq, PartialOrd, Ord, Hash)]
pub struct Name<F: NameForm> {
    text: KeptText,
    #[derive_where(skip)]
    form: PhantomData<F>,
}

impl<F: NameForm> Model for Name<F> {
    ghost use Rattle.std.specs.Prelude.{ℕ, List};
    ghost use Rattle.nextest_config_values.specs.Identifier.Normal.{IsKeptText};

    ghost Value = { List ℕ };

    ghost view = { λ it. it.text };

    ghost invariant = { λ it. IsKeptText F.grammar.IsForm it.text };

    ghost inverse = { λ text. record { text = text; form = record {} } };
}

impl<F: NameForm> Name<F> {
    /// The name that the text is, once it is brought to Normalization Form C (UAX 15).
    #[tactic(auto, using(unicode_normalization::proofs::FormsLemmas::nfc_idem))]
    pub fn new(alloc: Global, text: &str) -> Result<Self, F::Refusal>
        ensures accepted { IfOk result (IsNormalText F.grammar.IsForm text.now) }
        ensures refused { IfErr result
            (λ error. FaultOrMemory (F.fault error) (F.Refusal.from_gives alloc_error error)
            (IsNormalFault F.grammar.IsFlaw text.now)) }
        ensures inline { (kept : List ℕ) → IsNormalText F.grammar.IsForm text.now kept
            → IsQuicklyNormal text.now
            → FitsInline text.now → IsOk result }
    {
        let text = KeptText::normal(alloc, text)?;
        match F::judge(text.as_str()) {
            Ok(()) => Ok(Name {
                text,
                form: PhantomData,
            }),
            Err(flaw) => Err(F::refusal(flaw, text.into_string(alloc)?)),
        }
    }

    pub fn as_str(&self) -> &str
        ensures value { result.now ≡ self.now }
        ensures kept { IsKeptText F.grammar.IsForm self.now }
    {
        self.text.as_str()
    }

    pub fn clone(&self, alloc: Global) -> Result<Self, AllocError>
        ensures value { IfOk result (λ it. it ≡ self.now) }
        ensures inline { FitsInline self.now → IsOk result }
    {
        let text = self.text.clone(alloc)?;
        Ok(Name {
            text,
            form: PhantomData,
        })
    }
}

impl<F: NameForm> FromToml for Name<F> {
    ghost Seen = { Self };

    ghost seen = { λ name. name };

    ghost reading = { name_reading F.grammar };

    fn read_value(alloc: Global, value: &Value) -> Result<Self, ValueFault> {
        let text = held_text(alloc, value)?;
        match Name::new(alloc, text) {
            Ok(name) => Ok(name),
            Err(refusal) => Err(ValueFault::new(alloc, refusal.into())),
        }
    }
}

impl<F: NameForm> fmt::Display for Name<F> {
    ghost output = { λ name. Some name };

    ghost styled_output = { λ name _. Some name };

    fn fmt<W: fmt::Write>(&self, f: &mut fmt::Formatter<W>) -> fmt::Result {
        fmt::Display::fmt(&self.text, f)
    }
}

impl<F: NameForm> fmt::Debug for Name<F> {
    fn fmt<W: fmt::Write>(&self, f: &mut fmt::Formatter<W>) -> fmt::Result {
        f.debug_struct(F::TYPE_NAME)
            .field("text", &self.text)
            .finish()
    }
}
