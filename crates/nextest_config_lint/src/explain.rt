//! What the codes of findings mean, each with an example and that example mended; and what the keys
//! of a file are for.

// The explanation of a code, with an example in this file.
macro_rules! explained {
    ($code:ident in $file:ident: $meaning:literal, example: $example:literal,
        mended: $mended:literal) => {
        $crate::explain::explanation::Explanation {
            topic: $crate::explain::topic::Topic::Finding($crate::code::FindingCode::$code),
            meaning: $meaning,
            file: $crate::explain::explanation::ExampleFile::$file,
            example: $example,
            mended: $mended,
        }
    };
}

mod absent;
mod expected;
mod explanation;
mod features;
mod files;
mod filters;
mod key;
mod key_path;
mod known_key;
mod list;
mod nearest;
mod places;
mod references;
mod retries;
mod settings;
mod topic;
mod versions;

pub use explanation::{ExampleFile, Explanation};
pub use key::KeyExplanation;
pub use list::topic_list;
pub use nearest::nearest_topic_or_key;
pub use topic::Topic;
