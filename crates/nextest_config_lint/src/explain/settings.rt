//! Explanations of codes about the values of settings.

use crate::explain::explanation::Explanation;

pub(crate) static INVALID_TYPE: Explanation = explained!(InvalidType in Repository: "\
A value is of a kind that its setting doesn't take, as a number where a text is
wanted. For an error nextest refuses the file and runs no tests. A warning says
that nextest may convert the value, or that a later one may take it.", example: "[profile.ci]
slow-timeout = 60
", mended: r#"[profile.ci]
slow-timeout = "60s"
"#);

pub(crate) static INVALID_VALUE: Explanation = explained!(InvalidValue in Repository: "\
A value is of the right kind, but none that its setting takes: a number that is
too small or too great, or a text that is no duration. For an error nextest
refuses the file and runs no tests.", example: "[profile.ci]
fail-fast = { max-fail = 0 }
", mended: r#"[profile.ci]
fail-fast = { max-fail = "all" }
"#);

pub(crate) static UNKNOWN_VARIANT: Explanation = explained!(UnknownVariant in Repository: "\
A text is none of the words that its setting takes. For an error nextest refuses
the file and runs no tests.", example: r#"[profile.ci]
flaky-result = "failed"
"#, mended: r#"[profile.ci]
flaky-result = "fail"
"#);

pub(crate) static MISSING_FIELD: Explanation = explained!(MissingField in Repository: "\
A table lacks a key that its setting needs. For an error nextest refuses the
file and runs no tests.", example: "[profile.ci]
slow-timeout = { terminate-after = 3 }
", mended: r#"[profile.ci]
slow-timeout = { period = "60s", terminate-after = 3 }
"#);

pub(crate) static PRIORITY: Explanation = explained!(Priority in Repository: "\
A priority is outside of -100 to 100. Tests with a greater one run earlier.
nextest refuses the file and runs no tests.", example: "[profile.default]
overrides = [{ filter = 'test(smoke)', priority = 120 }]
", mended: "[profile.default]
overrides = [{ filter = 'test(smoke)', priority = 100 }]
");

pub(crate) static UNJUDGED_DURATION: Explanation = explained!(UnjudgedDuration in Repository: "\
A duration has a fraction or blanks between digits, or is a bare 0. nextest may
take it, but it isn't judged here, so a fault in it goes unseen. Whole numbers,
each with a unit, are judged.", example: r#"[profile.ci]
global-timeout = "1.5h"
"#, mended: r#"[profile.ci]
global-timeout = "1h 30m"
"#);
