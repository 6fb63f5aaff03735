//! Explanations of codes about the tables of retries.

use crate::explain::explanation::Explanation;

pub(crate) static UNKNOWN_FIELD: Explanation = explained!(UnknownField in Repository: "\
The table of `retries` has a key that its backoff doesn't take. In most other
tables nextest ignores an unknown key. For this one it refuses the file and runs
no tests.", example: r#"[profile.ci]
retries = { backoff = "fixed", count = 3, delay = "1s", max-delay = "10s" }
"#, mended: r#"[profile.ci]
retries = { backoff = "exponential", count = 3, delay = "1s", max-delay = "10s" }
"#);

pub(crate) static JITTER_WITHOUT_DELAY: Explanation =
    explained!(JitterWithoutDelay in Repository: "\
There is jitter, which varies the delay between tries at random, and no delay
that it could vary. nextest refuses the file and runs no tests.", example: r#"[profile.ci]
retries = { backoff = "fixed", count = 3, jitter = true }
"#, mended: r#"[profile.ci]
retries = { backoff = "fixed", count = 3, delay = "1s", jitter = true }
"#);

pub(crate) static COUNT_ZERO: Explanation = explained!(CountZero in Repository: "\
The delay is to grow from retry to retry, and there is no retry. nextest refuses
the file and runs no tests. To retry nothing, write 0 in place of the table.",
    example: r#"[profile.ci]
retries = { backoff = "exponential", count = 0, delay = "1s" }
"#, mended: "[profile.ci]
retries = 0
");

pub(crate) static DELAY_ZERO: Explanation = explained!(DelayZero in Repository: "\
The delay is to grow from retry to retry, and begins at zero, from where it
can't. nextest refuses the file and runs no tests.", example: r#"[profile.ci]
retries = { backoff = "exponential", count = 3, delay = "0s" }
"#, mended: r#"[profile.ci]
retries = { backoff = "exponential", count = 3, delay = "1s" }
"#);

pub(crate) static MAX_DELAY_ZERO: Explanation = explained!(MaxDelayZero in Repository: "\
The delay is to grow from retry to retry, and may be no longer than zero.
nextest refuses the file and runs no tests. Without `max-delay` there is no
limit.", example: r#"[profile.ci]
retries = { backoff = "exponential", count = 3, delay = "1s", max-delay = "0s" }
"#, mended: r#"[profile.ci]
retries = { backoff = "exponential", count = 3, delay = "1s" }
"#);

pub(crate) static MAX_DELAY_BELOW_DELAY: Explanation =
    explained!(MaxDelayBelowDelay in Repository: "\
The delay is to grow from retry to retry, and begins above the longest that it
may be. nextest refuses the file and runs no tests.", example: r#"[profile.ci]
retries = { backoff = "exponential", count = 3, delay = "5s", max-delay = "2s" }
"#, mended: r#"[profile.ci]
retries = { backoff = "exponential", count = 3, delay = "2s", max-delay = "5s" }
"#);
