//! Texts of values, as refusals print them.

ghost use Rattle.std.specs.Prelude.{◌≡◌, IfOk, Some, map, string_bytes};
ghost use Rattle.std.specs.Fmt.{WritesOnOk, WritesStyledOnOk};
ghost use Rattle.toml.specs.View.{view};
ghost use Rattle.nextest_config_values.specs.Read.{backquoted_word, backquoted_words, found_text, quoted_texts, words_of, words_text};

use std::alloc::{AllocError, Global};
use std::collections::BTreeSet;
use std::fmt;
use toml::Value;
use toml_spans::{QuotedText, write_quoted};

/// Texts that print between double quotes, each as `QuotedText`, joined by a comma and a space.
#[derive(Clone, Copy, Debug, PartialEq, Eq)]
pub struct QuotedTexts<'a>(pub &'a BTreeSet<String>);

impl fmt::Display for QuotedTexts<'_> {
    ghost output = { λ texts. Some (quoted_texts (map string_bytes texts.0.now.keys)) };

    ghost styled_output = { λ texts _. Some (quoted_texts (map string_bytes texts.0.now.keys)) };

    fn fmt<W: fmt::Write>(&self, f: &mut fmt::Formatter<W>) -> fmt::Result {
        let mut separator = "";
        for text in self.0 {
            f.write_str(separator)?;
            write_quoted(f, text.as_str())?;
            separator = ", ";
        }
        Ok(())
    }
}

// Words as a refusal lists them.
pub(crate) fn write_words<W: fmt::Write>(f: &mut fmt::Formatter<W>, words: &[&str]) -> fmt::Result
    ensures writes { WritesOnOk W.write_str_gives f.old result (words_text (words_of words.now)) f.new }
    ensures styled { WritesStyledOnOk W.write_str_gives f.old result
        (words_text (words_of words.now)) f.new }
{
    match words {
        [] => Ok(()),
        [word] => write_word(f, word),
        [word, other] => {
            write_word(f, word)?;
            f.write_str(" or ")?;
            write_word(f, other)
        }
        words => {
            f.write_str("one of ")?;
            write_listed(f, words)
        }
    }
}

// Words between backquotes, with commas between.
fn write_listed<W: fmt::Write>(f: &mut fmt::Formatter<W>, words: &[&str]) -> fmt::Result
    ensures writes { WritesOnOk W.write_str_gives f.old result
        (backquoted_words (words_of words.now)) f.new }
    ensures styled { WritesStyledOnOk W.write_str_gives f.old result
        (backquoted_words (words_of words.now)) f.new }
{
    let mut between = "";
    for word in words {
        f.write_str(between)?;
        write_word(f, word)?;
        between = ", ";
    }
    Ok(())
}

// A word between backquotes.
fn write_word<W: fmt::Write>(f: &mut fmt::Formatter<W>, word: &str) -> fmt::Result
    ensures writes { WritesOnOk W.write_str_gives f.old result (backquoted_word word.now) f.new }
    ensures styled { WritesStyledOnOk W.write_str_gives f.old result
        (backquoted_word word.now) f.new }
{
    f.write_str("`")?;
    f.write_str(word)?;
    f.write_str("`")
}

/// What a refusal says that it found: the kind of the value, and for a boolean, an integer and a
/// string the value too.
pub fn found_text(alloc: Global, value: &Value) -> Result<String, AllocError>
    ensures { IfOk result (λ s. string_bytes s ≡ found_text (view value.now)) }
{
    match value {
        Value::String(text) => format!(in alloc; "string {}", QuotedText(text.as_str())),
        Value::Integer(number) => format!(in alloc; "integer `{number}`"),
        Value::Float(_) => String::from_str(alloc, "floating point"),
        Value::Boolean(truth) => format!(in alloc; "boolean `{truth}`"),
        Value::Datetime(_) => String::from_str(alloc, "datetime"),
        Value::Array(_) => String::from_str(alloc, "sequence"),
        Value::Table(_) => String::from_str(alloc, "map"),
    }
}
