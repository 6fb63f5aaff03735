//! Explanations of codes about whole files and the keys of tables.

use crate::explain::explanation::Explanation;

pub(crate) static NOT_UTF8: Explanation = explained!(NotUtf8 in RepositoryInLatin1: "\
The file isn't UTF-8, and TOML takes no other encoding. nextest refuses the file
and runs no tests. Nothing else in it is judged. The é of the example is the
byte E9 in Latin-1, and the bytes C3 A9 in UTF-8.", example: "[profile.default]
retries = 2 # José: the network is flaky
", mended: "[profile.default]
retries = 2 # José: the network is flaky
");

pub(crate) static NOT_TOML: Explanation = explained!(NotToml in Repository: "\
The text isn't a TOML document: a quote or a bracket isn't closed, say, a key
stands twice, or a word stands where a value should. nextest refuses the file
and runs no tests. Nothing else in it is judged.", example: "[profile.ci]
retries = 2
fail-fast = flase
", mended: "[profile.ci]
retries = 2
fail-fast = false
");

pub(crate) static UNKNOWN_KEY: Explanation = explained!(UnknownKey in Repository: "\
A table has a key that isn't known there, mostly by a slip, or since it belongs
to another table. nextest ignores it, so what it was meant to set stays as it
is. A later nextest may know the key.", example: r#"[profile.ci]
slow-timeout = { period = "60s", terminate-afer = 2 }
"#, mended: r#"[profile.ci]
slow-timeout = { period = "60s", terminate-after = 2 }
"#);
