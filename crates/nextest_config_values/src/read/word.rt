//! Enums whose values are words.

ghost use Rattle.std.specs.Prelude.{◌≡◌, ◌≢◌, ℕ, List, Some, map, MatchOption};
ghost use Rattle.std.specs.List.{slice_get};
ghost use Rattle.nextest_config_values.specs.Read.{value_of, word_reading, words_of};

use super::from_toml::FromToml;
use super::plain::held_text;
use super::value_fault::ValueFault;
use std::alloc::Global;
use toml::Value;

/// An enum whose values are words. It is read from a text that is one of them.
pub trait Word: Copy + 'static {
    // The values in the order of their words, and the word of each.
    ghost all: { List Self };

    ghost word: { Self → List ℕ };

    // A word is read back as its value.
    ghost reads_back: { (x : Self) → value_of word all (word x) ≡ Some x };

    /// The values, in the order of their words.
    fn all() -> &'static [Self]
        ensures { result.now ≡ all };

    /// The words of the values, in this order.
    fn words() -> &'static [&'static str]
        ensures { words_of result.now ≡ map word all };

    /// Where the value stands among all, from 0.
    fn position(self) -> usize
        ensures { slice_get all result ≡ Some self };

    fn as_word(self) -> &'static str
        ensures { result.now ≡ word self }
    {
        Self::words()[self.position()]
    }
}

impl<T: Word + 'static> FromToml for T {
    ghost Seen = { Self };

    ghost seen = { λ x. x };

    ghost reading = { word_reading T.all T.word T.reads_back };

    fn read_value(alloc: Global, value: &Value) -> Result<Self, ValueFault> {
        let text = held_text(alloc, value)?;
        match find_word(text) {
            Some(word) => Ok(word),
            None => Err(ValueFault::unknown_variant(alloc, text, T::words())),
        }
    }
}

// The value whose word is the text.
fn find_word<T: Word>(text: &str) -> Option<T>
    ensures { MatchOption result ((x : T) → T.word x ≢ text.now) (λ x. T.word x ≡ text.now) }
{
    for value in T::all() {
        if value.as_word() == text {
            return Some(*value);
        }
    }
    None
}
