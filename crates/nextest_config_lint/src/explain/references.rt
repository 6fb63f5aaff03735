//! Explanations of codes about names, profiles, overrides and scripts.

use crate::explain::explanation::Explanation;

pub(crate) static UNDEFINED_GROUP: Explanation = explained!(UndefinedGroup in Repository: "\
An override puts its tests into a test group that no file defines, mostly by a
slip. Then nothing limits them as the group was to, and nextest may refuse the
file.", example: r#"[[profile.default.overrides]]
filter = 'test(database)'
test-group = "serail"
[test-groups]
serial = { max-threads = 1 }
"#, mended: r#"[[profile.default.overrides]]
filter = 'test(database)'
test-group = "serial"
[test-groups]
serial = { max-threads = 1 }
"#);

pub(crate) static UNDEFINED_PROFILE: Explanation = explained!(UndefinedProfile in Repository: "\
A profile inherits from one that no file defines, mostly by a slip. Then it
lacks the settings that it was to have from there, and nextest may refuse the
file.", example: r#"[profile.ci]
retries = 2
[profile.nightly]
inherits = "CI"
"#, mended: r#"[profile.ci]
retries = 2
[profile.nightly]
inherits = "ci"
"#);

pub(crate) static DEFAULT_INHERITS: Explanation = explained!(DefaultInherits in Repository: "\
The profile `default` inherits from another. All profiles inherit from `default`
in the end, so it can't itself, and nextest may refuse the file.", example: r#"[profile.default]
inherits = "base"
[profile.base]
retries = 2
"#, mended: "[profile.default]
retries = 2
");

pub(crate) static INHERITS_ITSELF: Explanation = explained!(InheritsItself in Repository: "\
A profile comes back to itself by what it inherits from, so it isn't said whose
settings come first. nextest may refuse the file.", example: r#"[profile.ci]
inherits = "nightly"
retries = 2
[profile.nightly]
inherits = "ci"
"#, mended: r#"[profile.ci]
retries = 2
[profile.nightly]
inherits = "ci"
"#);

pub(crate) static OVERRIDE_OF_ALL: Explanation = explained!(OverrideOfAll in Repository: "\
An override, or what a profile says of scripts, has neither a `filter` nor a
`platform`, so it isn't said which tests it is for. nextest may refuse the file.
What overrides all tests belongs in the profile itself; scripts for all of them
have the filter `all()`.", example: "[[profile.ci.overrides]]
retries = 3
", mended: "[[profile.ci.overrides]]
filter = 'test(network)'
retries = 3
");

pub(crate) static RESERVED_PROFILE: Explanation = explained!(ReservedProfile in Repository: "\
The name of a profile begins with `default-`. nextest keeps such names for
profiles of its own, as `default-miri`, and may refuse the file.", example: "[profile.default-ci]
retries = 2
", mended: "[profile.ci]
retries = 2
");

pub(crate) static GROUP_NAME: Explanation = explained!(GroupName in Tool: "\
A test group has a name that it can't have here. A name is a letter, and then
letters, digits, `-` and `_`. In the file of a tool it stands behind a mark with
the tool's name, and elsewhere behind none, so that the groups of tools and of
the repository stay apart. nextest may refuse the file.", example: "[test-groups.database]
max-threads = 1
", mended: r#"[test-groups."@tool:my-tool:database"]
max-threads = 1
"#);

pub(crate) static UNDEFINED_SCRIPT: Explanation = explained!(UndefinedScript in Repository: "\
A profile names a setup script or a wrapper script that no file defines, mostly
by a slip, or a script of the other kind. Then nextest may refuse the file.",
    example: r#"[experimental]
setup-scripts = true
[[profile.default.scripts]]
filter = 'test(database)'
setup = "databse"
[scripts.setup.database]
command = "start-database"
"#, mended: r#"[experimental]
setup-scripts = true
[[profile.default.scripts]]
filter = 'test(database)'
setup = "database"
[scripts.setup.database]
command = "start-database"
"#);

pub(crate) static SCRIPT_NAME: Explanation = explained!(ScriptName in Tool: "\
A script has a name that it can't have here. A name is a letter, and then
letters, digits, `-` and `_`. In the file of a tool it stands behind a mark with
the tool's name, and elsewhere behind none, so that the scripts of tools and of
the repository stay apart. No setup script and wrapper script have one name.
nextest may refuse the file.", example: r#"[scripts.setup.database]
command = "start-database"
"#, mended: r#"[scripts.setup."@tool:my-tool:database"]
command = "start-database"
"#);

pub(crate) static FEATURE_NOT_ENABLED: Explanation = explained!(FeatureNotEnabled in Repository: "\
A file defines scripts, and none of the repository's files enables the
experimental feature that they need. nextest may refuse the file. Setup scripts
need `setup-scripts`, and wrapper scripts `wrapper-scripts`.", example: r#"[scripts.setup.database]
command = "start-database"
"#, mended: r#"[experimental]
setup-scripts = true
[scripts.setup.database]
command = "start-database"
"#);

pub(crate) static OVERRIDE_DEFAULT_FILTER: Explanation =
    explained!(OverrideDefaultFilter in Repository: "\
An override has a `default-filter` beside a `filter`, or without a `platform`.
It says which tests run by default on a platform, so it needs that, and can't be
for some tests alone. nextest may refuse the file.", example: "[[profile.default.overrides]]
default-filter = 'not test(unix_only)'
", mended: "[[profile.default.overrides]]
platform = 'cfg(windows)'
default-filter = 'not test(unix_only)'
");
