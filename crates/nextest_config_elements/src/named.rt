//! What has a name that others refer to.

ghost use Rattle.std.specs.Prelude.{◌≡◌};
ghost use Rattle.nextest_config_elements.specs.Named.{named_text, other_kind, plural_text, script_text};

/// A kind of script that tests are run with.
#[derive(Clone, Copy, Debug, PartialEq, Eq)]
pub enum ScriptKind {
    /// It runs before tests.
    Setup,
    /// Tests are run by it.
    Wrapper,
}

/// A kind of what has a name that others refer to.
#[derive(Clone, Copy, Debug, PartialEq, Eq)]
pub enum NamedKind {
    /// A test group.
    Group,
    /// A script of a kind.
    Script(ScriptKind),
}

impl ScriptKind {
    /// A script of the kind, in words.
    pub fn as_words(self) -> &'static str
        ensures { result.now ≡ script_text self }
    {
        match self {
            ScriptKind::Setup => "setup script",
            ScriptKind::Wrapper => "wrapper script",
        }
    }

    /// The kind that this one isn't.
    pub fn other(self) -> ScriptKind
        ensures { result ≡ other_kind self }
    {
        match self {
            ScriptKind::Setup => ScriptKind::Wrapper,
            ScriptKind::Wrapper => ScriptKind::Setup,
        }
    }
}

impl NamedKind {
    pub const SETUP_SCRIPT: NamedKind = NamedKind::Script(ScriptKind::Setup);

    pub const WRAPPER_SCRIPT: NamedKind = NamedKind::Script(ScriptKind::Wrapper);

    /// What has a name of the kind, in words.
    pub fn as_words(self) -> &'static str
        ensures { result.now ≡ named_text self }
    {
        match self {
            NamedKind::Group => "test group",
            NamedKind::Script(script) => script.as_words(),
        }
    }

    /// All that has names of the kind, or that scripts have, in words.
    pub fn as_plural(self) -> &'static str
        ensures { result.now ≡ plural_text self }
    {
        match self {
            NamedKind::Group => "test groups",
            NamedKind::Script(_) => "scripts",
        }
    }
}
