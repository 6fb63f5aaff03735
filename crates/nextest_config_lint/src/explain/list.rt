//! The list of what has an explanation.

ghost use Rattle.std.specs.Prelude.{◌≡◌, ◌++◌, IfOk, map, OnOk, string_bytes};
ghost use Rattle.std.specs.Str.Lines.{lines};
ghost use Rattle.nextest_config_lint.specs.Explain.Topic.{topics};
ghost use Rattle.nextest_config_lint.specs.Explain.TopicList.{AreListed, before_full_stop, explanation_line, first_sentence};

use crate::explain::explanation::Explanation;
use crate::explain::topic::Topic;
use std::alloc::{AllocError, Global};
use std::fmt::Write;

/// All topics, a line each, with the first sentence of what they mean.
pub fn topic_list(alloc: Global) -> Result<String, AllocError>
    ensures { IfOk result (λ list. AreListed topics (string_bytes list)) }
{
    let mut list = String::new(alloc);
    for topic in &Topic::all(alloc)? {
        push_line(alloc, &mut list, Explanation::of(*topic))?;
    }
    Ok(list)
}

fn push_line(alloc: Global, list: &mut String, explanation: &Explanation) -> Result<(), AllocError>
    ensures { OnOk result
        (string_bytes list.new ≡ string_bytes list.old ++ explanation_line explanation.now) }
{
    let sentence = first_sentence(alloc, explanation.meaning)?;
    writeln!(list, "{}: {sentence}.", explanation.topic.as_word())
}

// The first sentence of a text in one line, without its full stop.
#[tactic(auto, using(crate::proofs::Sentences::join_texts))]
fn first_sentence(alloc: Global, text: &str) -> Result<String, AllocError>
    ensures { IfOk result (λ sentence. string_bytes sentence ≡ first_sentence text.now) }
{
    let lines = lines(alloc, before_full_stop(text))?;
    let sentence = lines.join(alloc, " ")?;
    Ok(sentence)
}

fn before_full_stop(text: &str) -> &str
    ensures { result.now ≡ before_full_stop text.now }
{
    match text.split_once('.') {
        Some((sentence, _)) => sentence,
        None => text,
    }
}

fn lines(alloc: Global, text: &str) -> Result<Vec<&str>, AllocError>
    ensures { IfOk result (λ found. map (λ line. line.now) found.items ≡ lines text.now) }
{
    text.lines().collect(alloc)
}
