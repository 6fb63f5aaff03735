//! Explanations of codes about the versions of nextest that files ask for.

use crate::explain::explanation::{ExampleFile, Explanation};
use crate::explain::topic::Topic;

pub(crate) static PRE_RELEASE: Explanation = explained!(PreRelease in Repository: "\
A version that the file asks for is a pre-release. nextest doesn't take one
here: it refuses the file and runs no tests.", example: r#"nextest-version = "0.9.98-rc.1"
"#, mended: r#"nextest-version = "0.9.98"
"#);

pub(crate) static BUILD_METADATA: Explanation = explained!(BuildMetadata in Repository: "\
A version that the file asks for has build metadata, which is what stands behind
a `+`. nextest doesn't take any here: it refuses the file and runs no tests.",
    example: r#"nextest-version = "0.9.98+local"
"#, mended: r#"nextest-version = "0.9.98"
"#);

pub(crate) static NOT_VERSION: Explanation = explained!(NotVersion in Repository: "\
A text that should be a version is none. A version is two or three numbers with
dots between. Later versions are enough, too, without a sign that says so.
nextest refuses the file and runs no tests.", example: r#"nextest-version = ">=0.9.98"
"#, mended: r#"nextest-version = "0.9.98"
"#);

pub(crate) static REQUIRED_ABOVE_RECOMMENDED: Explanation =
    explained!(RequiredAboveRecommended in Repository: "\
The required version is above the recommended one. A nextest that is enough for
the first is always enough for the second, which then says nothing. nextest
refuses the file and runs no tests.",
    example: r#"nextest-version = { required = "0.9.98", recommended = "0.9.70" }
"#, mended: r#"nextest-version = { required = "0.9.70", recommended = "0.9.98" }
"#);

pub(crate) static NEXTEST_VERSION: Explanation = Explanation {
    topic: Topic::NextestVersion,
    meaning: "\
The current version of nextest is below the one that a file asks for. Below a
required version nextest runs no tests, below a recommended one it warns.
Install a later nextest, or ask for the version that is really needed.",
    file: ExampleFile::RepositoryChecked,
    example: r#"nextest-version = "0.9.98"
"#,
    mended: r#"nextest-version = "0.9.50"
"#,
};
