//! What texts are like, as regular expressions (ECMA 262). Each speaks of the whole text, and means
//! the same where `$` matches before a last line feed, too.

/// A version text: two or three numbers.
pub(crate) const VERSION: &str = "^(?:0|[1-9][0-9]*)(?:\\.(?:0|[1-9][0-9]*)){1,2}(?![\\s\\S])";

/// A duration, which may have fractions, and white space between the digits of a number.
pub(crate) const DURATION: &str = "\
^(?:0|[\\t-\\r \\u0085\\u00a0\\u1680\\u2000-\\u200a\\u2028\\u2029\\u202f\\u205f\\u3000]*\
(?:[0-9]+(?:\
(?:\\.|[\\t-\\r \\u0085\\u00a0\\u1680\\u2000-\\u200a\\u2028\\u2029\\u202f\\u205f\\u3000]+)\
[0-9]+)*\
[\\t-\\r \\u0085\\u00a0\\u1680\\u2000-\\u200a\\u2028\\u2029\\u202f\\u205f\\u3000]*\
(?:nanos|nsec|ns|usec|us|µs|millis|msec|ms|seconds|second|secs|sec|s|minutes|minute|mins|min|m|\
hours|hour|hrs|hr|h|days|day|d|weeks|week|wks|wk|w|months|month|M|years|year|yrs|yr|y)\
[\\t-\\r \\u0085\\u00a0\\u1680\\u2000-\\u200a\\u2028\\u2029\\u202f\\u205f\\u3000]*)+)(?![\\s\\S])";

/// A relative path: it doesn't begin with a slash, and has no part `..`.
pub(crate) const RELATIVE_PATH: &str =
    "^(?!/)(?!(?:[\\s\\S]*/)?\\.\\.(?:/|(?![\\s\\S])))[\\s\\S]*(?![\\s\\S])";
