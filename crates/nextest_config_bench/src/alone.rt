//! A text, read by one library alone.

use nextest_config_values::duration::parse_duration;
use std::alloc::Global;

pub(crate) fn read(alloc: Global, what: &str, text: &str) -> Option<()> {
    match what {
        "toml" => read_documents(alloc, text),
        "duration" if parse_duration(text).is_ok() => Some(()),
        _ => None,
    }
}

fn read_documents(alloc: Global, text: &str) -> Option<()> {
    for source in text.split("\n=== ") {
        let contents = match source.split_once('\n') {
            Some((_, contents)) => contents,
            None => "",
        };
        toml::table_from_str(alloc, contents).ok()?;
    }
    Some(())
}
