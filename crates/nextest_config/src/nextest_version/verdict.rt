//! The verdict on the current version.

ghost use Rattle.std.specs.Prelude.{◌≡◌, IfOk, IsOk, option_map, Some};
ghost use Rattle.semver.specs.Identifiers.{parts_of};
ghost use Rattle.nextest_config.specs.NextestVersion.KeptVersions.{kept_from};

use crate::nextest_version::ConfigSource;
use semver::Version;
use std::alloc::{AllocError, Global};

/// What the current version is told.
#[derive(Debug, PartialEq, Eq, Drop)]
pub enum NextestVersionEval {
    /// It is enough for both roles.
    Satisfied,
    /// It isn't enough for the required version.
    Error {
        required: Version,
        current: Version,
        source: ConfigSource,
    },
    /// It isn't enough for the recommended version.
    Warn {
        recommended: Version,
        current: Version,
        source: ConfigSource,
    },
    /// It isn't enough for the required version, and the check is overridden.
    ErrorOverride {
        required: Version,
        current: Version,
        source: ConfigSource,
    },
    /// It isn't enough for the recommended version, and the check is overridden.
    WarnOverride {
        recommended: Version,
        current: Version,
        source: ConfigSource,
    },
}

/// How grave a verdict is, overridden or not.
#[derive(Clone, Copy, Debug, PartialEq, Eq, PartialOrd, Ord, Hash)]
pub enum Severity {
    Satisfied,
    Warn,
    Error,
}

/// In which role a version is asked for.
#[derive(Clone, Copy, Debug, PartialEq, Eq)]
pub enum VersionRole {
    /// Below it there is an error.
    Required,
    /// Below it there is a warning.
    Recommended,
}

/// What a verdict tells that isn't satisfied.
#[derive(Clone, Copy, Debug)]
pub struct UnmetVersion<'a> {
    pub role: VersionRole,
    /// The version that is asked for.
    pub version: &'a Version,
    /// The version that isn't enough for it.
    pub current: &'a Version,
    /// The source that asks for the version.
    pub source: &'a ConfigSource,
    pub overridden: bool,
}

impl NextestVersionEval {
    ghost use Rattle.nextest_config.specs.NextestVersion.Verdict.{satisfied, severity_of, verdict_by, verdict_of, verdict_of_unmet};

    /// The verdict on the current version, of the versions that it isn't enough for in the two
    /// roles, each with the source that asks it.
    pub(crate) fn judge(
        alloc: Global,
        required: Option<(&Version, &ConfigSource)>,
        recommended: Option<(&Version, &ConfigSource)>,
        current: &Version,
        overridden: bool,
    ) -> Result<Self, AllocError>
        ensures value { IfOk result (λ eval. verdict_of eval ≡ verdict_by
            (option_map (λ unmet. kept_from unmet.0.now unmet.1.now) required.entry)
            (option_map (λ unmet. kept_from unmet.0.now unmet.1.now) recommended.entry)
            (parts_of current.now) overridden) }
        ensures satisfied { verdict_by
            (option_map (λ unmet. kept_from unmet.0.now unmet.1.now) required.entry)
            (option_map (λ unmet. kept_from unmet.0.now unmet.1.now) recommended.entry)
            (parts_of current.now) overridden ≡ satisfied → IsOk result }
    {
        let (role, version, source) = match (required, recommended) {
            (Some((version, source)), _) => (VersionRole::Required, version, source),
            (None, Some((version, source))) => (VersionRole::Recommended, version, source),
            (None, None) => return Ok(NextestVersionEval::Satisfied),
        };
        NextestVersionEval::of_unmet(
            alloc,
            UnmetVersion {
                role,
                version,
                current,
                source,
                overridden,
            },
        )
    }

    // The verdict that tells of the unmet version.
    fn of_unmet(alloc: Global, unmet: UnmetVersion<'_>) -> Result<Self, AllocError>
        ensures { IfOk result (λ eval. verdict_of eval ≡ verdict_of_unmet (Some unmet.entry)) }
    {
        let (version, current) = (unmet.version.clone()?, unmet.current.clone()?);
        let source = unmet.source.clone(alloc)?;
        match (unmet.role, unmet.overridden) {
            (VersionRole::Required, false) => Ok(NextestVersionEval::Error {
                required: version,
                current,
                source,
            }),
            (VersionRole::Required, true) => Ok(NextestVersionEval::ErrorOverride {
                required: version,
                current,
                source,
            }),
            (VersionRole::Recommended, false) => Ok(NextestVersionEval::Warn {
                recommended: version,
                current,
                source,
            }),
            (VersionRole::Recommended, true) => Ok(NextestVersionEval::WarnOverride {
                recommended: version,
                current,
                source,
            }),
        }
    }

    /// The version that the current one isn't enough for, unless the verdict is satisfied.
    pub fn unmet_version(&self) -> Option<UnmetVersion<'_>>
        ensures { verdict_of_unmet result ≡ verdict_of self.now }
    {
        let (role, version, current, source, overridden) = match self {
            NextestVersionEval::Satisfied => return None,
            NextestVersionEval::Error {
                required: version,
                current,
                source,
            } => (VersionRole::Required, version, current, source, false),
            NextestVersionEval::Warn {
                recommended: version,
                current,
                source,
            } => (VersionRole::Recommended, version, current, source, false),
            NextestVersionEval::ErrorOverride {
                required: version,
                current,
                source,
            } => (VersionRole::Required, version, current, source, true),
            NextestVersionEval::WarnOverride {
                recommended: version,
                current,
                source,
            } => (VersionRole::Recommended, version, current, source, true),
        };
        Some(UnmetVersion {
            role,
            version,
            current,
            source,
            overridden,
        })
    }

    pub fn clone(&self, alloc: Global) -> Result<Self, AllocError>
        ensures { IfOk result (λ eval. verdict_of eval ≡ verdict_of self.now) }
    {
        match self.unmet_version() {
            Some(unmet) => NextestVersionEval::of_unmet(alloc, unmet),
            None => Ok(NextestVersionEval::Satisfied),
        }
    }

    /// How grave the verdict is; an overridden one is as grave as the plain one.
    pub fn severity(&self) -> Severity
        ensures { result ≡ severity_of (verdict_of self.now) }
    {
        let Some(unmet) = self.unmet_version() else {
            return Severity::Satisfied;
        };
        match unmet.role {
            VersionRole::Required => Severity::Error,
            VersionRole::Recommended => Severity::Warn,
        }
    }
}
