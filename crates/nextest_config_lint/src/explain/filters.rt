//! Explanations of codes about filters and platforms.

use crate::explain::explanation::Explanation;

pub(crate) static FILTER_SYNTAX: Explanation = explained!(FilterSyntax in Repository: "\
A filter breaks the syntax of nextest's filter expressions: a parenthesis isn't
closed, an operator or a predicate is missing, or something stands there that
is neither. nextest refuses the file and runs no tests. Predicates are joined
by `and`, `or`, `not`, or by `&`, `|`, `!`, and not by `&&` or `||`.", example: "[profile.ci]
default-filter = 'package(app) && test(slow)'
", mended: "[profile.ci]
default-filter = 'package(app) & test(slow)'
");

pub(crate) static UNKNOWN_PREDICATE: Explanation = explained!(UnknownPredicate in Repository: "\
A filter names a predicate that nextest doesn't document, mostly by a slip. A
nextest that doesn't know it refuses the file and runs no tests. A later one may
know it.", example: "[profile.ci]
default-filter = 'tests(slow)'
", mended: "[profile.ci]
default-filter = 'test(slow)'
");

pub(crate) static BANNED_PREDICATE: Explanation = explained!(BannedPredicate in Repository: "\
A default filter asks for `default()`, which stands for the default filter
itself. nextest refuses the file and runs no tests.", example: "[profile.ci]
default-filter = 'default() - test(slow)'
", mended: "[profile.ci]
default-filter = 'all() - test(slow)'
");

pub(crate) static FILTER_ARGUMENT: Explanation = explained!(FilterArgument in Repository: "\
The argument of a predicate isn't one that it takes: it is missing, it is one
too many, a comma or a backslash stands in it where nextest takes none, or it
begins a regular expression that is none. nextest refuses the file and runs no
tests. A regular expression stands between slashes.", example: r#"[profile.ci]
default-filter = 'test(db_\d+)'
"#, mended: r#"[profile.ci]
default-filter = 'test(/db_\d+/)'
"#);

pub(crate) static PLATFORM_SYNTAX: Explanation = explained!(PlatformSyntax in Repository: "\
A platform is neither the name of a target nor a right `cfg(..)`, by the syntax
that Cargo has for it. nextest refuses the file and runs no tests. More than one
thing is asked for by `all(..)` and `any(..)`.", example: r#"[[profile.ci.overrides]]
platform = 'cfg(unix && target_arch = "x86_64")'
retries = 1
"#, mended: r#"[[profile.ci.overrides]]
platform = 'cfg(all(unix, target_arch = "x86_64"))'
retries = 1
"#);

pub(crate) static PLATFORM_WORD: Explanation = explained!(PlatformWord in Repository: "\
A platform is a word such as `windows`, which nextest takes for the name of a
target. No target is called so, and the override never applies.", example: "[[profile.ci.overrides]]
platform = 'windows'
retries = 1
", mended: "[[profile.ci.overrides]]
platform = 'cfg(windows)'
retries = 1
");
