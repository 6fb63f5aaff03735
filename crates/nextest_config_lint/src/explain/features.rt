//! Explanations of codes about experimental features.

use crate::explain::explanation::Explanation;

pub(crate) static ARRAY_FORM: Explanation = explained!(ArrayForm in RepositoryTableOnly: "\
Experimental features stand in an array, and `--table-only` takes a table alone.
The array form is deprecated, and the option keeps it out of a repository.",
    example: r#"experimental = ["setup-scripts"]
"#, mended: "experimental = { setup-scripts = true }
");

pub(crate) static DEPRECATED_ARRAY: Explanation = explained!(DeprecatedArray in Repository: "\
Experimental features stand in an array. nextest still reads that form, but it
is deprecated, and a later nextest may refuse it. A table says the same.",
    example: r#"experimental = ["setup-scripts", "benchmarks"]
"#, mended: "experimental = { setup-scripts = true, benchmarks = true }
");

pub(crate) static TOOL_FEATURES: Explanation = explained!(ToolFeatures in Tool: "\
The file of a tool names experimental features. They are for the repository
alone to enable, so nextest refuses the file and runs no tests.",
    example: r#"nextest-version = "0.9.98"
experimental = { setup-scripts = true }
"#, mended: r#"nextest-version = "0.9.98"
"#);

pub(crate) static UNKNOWN_FEATURE: Explanation = explained!(UnknownFeature in Repository: "\
A name at `experimental` is that of no feature that is known, mostly by a slip.
A nextest that doesn't know it refuses the file and runs no tests. A later one
may know it.", example: "[experimental]
setup-script = true
", mended: "[experimental]
setup-scripts = true
");
