//! The word of a list that a name comes nearest to.

ghost use Rattle.std.specs.Prelude.{◌≡◌, IfOk, chars, length, option_map};
ghost use Rattle.nextest_config_values.specs.Read.{words_of};
ghost use Rattle.nextest_config_values.specs.NearestWord.{IsNearest, is_same, plain_byte};

use std::alloc::{AllocError, Global};
use strsim::levenshtein;

/// The word that a name may have been meant for: one that is the same but for ASCII letter case and
/// `_` in place of `-`, or else the first of those that are the fewest edits of a character away
/// from it. They are one edit for three characters of the name at most, or one, and fewer than it
/// has characters.
pub fn nearest<'w>(
    alloc: Global,
    name: &str,
    words: &[&'w str],
) -> Result<Option<&'w str>, AllocError>
    ensures { IfOk result (λ found.
        IsNearest (words_of words.now) name.now (option_map (λ word. word.now) found)) }
{
    let length = characters(name);
    let mut limit = length.min((length / 3).max(1) + 1);
    let mut found = None;
    for &word in words {
        if is_same(name, word) {
            return Ok(Some(word));
        }
        if length.abs_diff(characters(word)) < limit {
            let edits = levenshtein(alloc, name, word)?;
            if edits < limit {
                limit = edits;
                found = Some(word);
            }
        }
    }
    Ok(found)
}

/// Whether a name is a word but for ASCII letter case and `_` in place of `-`.
pub fn is_same(name: &str, word: &str) -> bool
    ensures { result ≡ is_same name.now word.now }
{
    name.len() == word.len()
        && name
            .bytes()
            .zip(word.bytes())
            .all(|(a, b)| plain_byte(a) == plain_byte(b))
}

// An ASCII letter in lower case, and `-` for `_`.
fn plain_byte(byte: u8) -> u8
    ensures { result ≡ plain_byte byte }
{
    if byte == b'_' {
        b'-'
    } else {
        byte.to_ascii_lowercase()
    }
}

// How many characters the text has.
#[tactic(auto, using(std::proofs::lemmas::Str::chars_from_encodes))]
fn characters(text: &str) -> usize
    ensures { result ≡ length (chars text.now) }
{
    text.chars().count()
}
