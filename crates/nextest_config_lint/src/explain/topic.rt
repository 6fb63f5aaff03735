//! What has an explanation.

ghost use Rattle.std.specs.Prelude.{◌≡◌, ◌≢◌, IfOk, map, MatchOption};
ghost use Rattle.nextest_config_lint.specs.Explain.Topic.{topic_word, topics};

use crate::FindingCode;
use nextest_config_values::read::Word;
use std::alloc::{AllocError, Global};

const NEXTEST_VERSION: &str = "nextest-version";

/// What has an explanation, each by its word.
#[derive(Clone, Copy, Debug, PartialEq, Eq)]
pub enum Topic {
    /// What a finding of this code is.
    Finding(FindingCode),
    /// A current version of nextest isn't enough.
    NextestVersion,
}

impl Topic {
    /// All topics, in the order in which they are listed.
    pub fn all(alloc: Global) -> Result<Vec<Topic>, AllocError>
        ensures { IfOk result (λ all. all.items ≡ topics) }
    {
        let mut all = Vec::new(alloc);
        for code in FindingCode::all() {
            all.push(Topic::Finding(*code))?;
        }
        all.push(Topic::NextestVersion)?;
        Ok(all)
    }

    /// The topic with this word.
    pub fn from_word(word: &str) -> Option<Topic>
        ensures { MatchOption result ((topic : Topic) → topic_word topic ≢ word.now)
            (λ topic. topic_word topic ≡ word.now) }
    {
        if word == NEXTEST_VERSION {
            return Some(Topic::NextestVersion);
        }
        for code in FindingCode::all() {
            if code.as_word() == word {
                return Some(Topic::Finding(*code));
            }
        }
        None
    }

    /// The words of all topics.
    pub(crate) fn words<'w>(alloc: Global) -> Result<Vec<&'w str>, AllocError>
        ensures { IfOk result (λ words.
            map (λ word. word.now) words.items ≡ map topic_word topics) }
    {
        let mut words = Vec::new(alloc);
        for topic in &Topic::all(alloc)? {
            words.push(topic.as_word())?;
        }
        Ok(words)
    }

    /// The word of the topic, which for a finding is its code.
    pub fn as_word(self) -> &'static str
        ensures { result.now ≡ topic_word self }
    {
        match self {
            Topic::Finding(code) => code.as_word(),
            Topic::NextestVersion => NEXTEST_VERSION,
        }
    }
}
