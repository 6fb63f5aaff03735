//! The versions that are kept of all sources read so far.

ghost use Rattle.std.specs.Prelude.{◌≡◌, if◌then◌else◌, IfOk, IsOk, OnOk, OnErr, Option, option_map, Some, None};
ghost use Rattle.semver.specs.Identifiers.{parts_of};

use super::verdict::NextestVersionEval;
use crate::merge::Merge;
use crate::nextest_version::{ConfigSource, NextestVersionDeserialize};
use semver::Version;
use std::alloc::{AllocError, Global};
use std::cmp::Ordering;
use std::mem;

/// The version that is kept in one role, and the source that asked for it.
#[derive(Debug, PartialEq, Eq, Drop)]
pub enum NextestVersionReq {
    /// Some source asked for a version.
    Version {
        version: Version,
        source: ConfigSource,
    },
    /// No source asked for one.
    None,
}

/// The versions that are kept of all sources read so far.
#[derive(Debug, PartialEq, Eq, Drop)]
pub struct NextestVersionConfig {
    /// The version below which there is an error.
    pub required: NextestVersionReq,
    /// The version below which there is a warning. It may be lower than the required one, and is
    /// without effect then.
    pub recommended: NextestVersionReq,
}

impl Default for NextestVersionReq {
    ghost use Rattle.nextest_config.specs.NextestVersion.KeptVersions.{kept_of};

    ghost is_default = { λ req. kept_of req ≡ None };

    fn default() -> Self {
        NextestVersionReq::None
    }
}

impl Default for NextestVersionConfig {
    ghost use Rattle.nextest_config.specs.NextestVersion.KeptVersions.{no_roles, roles_of};

    ghost is_default = { λ config. roles_of config ≡ no_roles };

    fn default() -> Self {
        NextestVersionConfig {
            required: NextestVersionReq::default(),
            recommended: NextestVersionReq::default(),
        }
    }
}

impl NextestVersionReq {
    ghost use Rattle.nextest_config.specs.NextestVersion.KeptVersions.{IsReplacement, join_kept, kept_from, kept_of, kept_version, role_from};
    ghost use Rattle.nextest_config.specs.NextestVersion.Source.{place_of};
    ghost use Rattle.nextest_config.specs.NextestVersion.Verdict.{not_met};

    /// The version. `None`: no source asked for one.
    pub fn version(&self) -> Option<&Version>
        ensures { option_map (λ v. parts_of v.now) result
            ≡ option_map kept_version (kept_of self.now) }
    {
        match self {
            NextestVersionReq::Version { version, source: _ } => Some(version),
            NextestVersionReq::None => None,
        }
    }

    pub fn clone(&self, alloc: Global) -> Result<Self, AllocError>
        ensures { IfOk result (λ req. kept_of req ≡ kept_of self.now) }
    {
        match self {
            NextestVersionReq::Version { version, source } => {
                let version = version.clone()?;
                let source = source.clone(alloc)?;
                Ok(NextestVersionReq::Version { version, source })
            }
            NextestVersionReq::None => Ok(NextestVersionReq::None),
        }
    }

    // What is kept instead once this version is asked from this source; `None` where nothing
    // changes.
    fn replacement(
        &self,
        alloc: Global,
        asked: Option<Version>,
        source: &ConfigSource,
    ) -> Result<Option<NextestVersionReq>, AllocError>
        ensures { IfOk result (IsReplacement (kept_of self.now) (join_kept (kept_of self.now)
            (role_from (place_of source.now) (option_map parts_of asked)))) }
    {
        let Some(version) = asked else {
            return Ok(None);
        };
        if self.not_met_by(&version).is_some() {
            return Ok(None);
        }
        let source = source.clone(alloc)?;
        Ok(Some(NextestVersionReq::Version { version, source }))
    }

    // Whether what a later part keeps takes the place of what is kept here.
    fn is_replaced_by(&self, later: &NextestVersionReq) -> bool
        ensures { join_kept (kept_of self.now) (kept_of later.now)
            ≡ if result then kept_of later.now else kept_of self.now }
    {
        match later.version() {
            Some(version) => self.not_met_by(version).is_none(),
            None => false,
        }
    }

    // The kept version and its source, if the version isn't enough for it.
    fn not_met_by(&self, version: &Version) -> Option<(&Version, &ConfigSource)>
        ensures { option_map (λ kept. kept_from kept.0.now kept.1.now) result
            ≡ not_met (kept_of self.now) (parts_of version.now) }
    {
        match self {
            NextestVersionReq::Version {
                version: kept,
                source,
            } => {
                if version.cmp_precedence(kept) == Ordering::Less {
                    Some((kept, source))
                } else {
                    None
                }
            }
            NextestVersionReq::None => None,
        }
    }
}

impl Merge for NextestVersionReq {
    ghost use Rattle.nextest_config.specs.NextestVersion.KeptVersions.{join_kept, Kept, kept_of};
    ghost use Rattle.nextest_config.specs.NextestVersion.KeptVersionsLaws.{kept_join};

    ghost Seen = { Option Kept };

    ghost seen = { kept_of };

    ghost join = { join_kept };

    ghost neutral = { None };

    /// Joins with what a later part keeps: the greater version stays, and of equal ones the later.
    /// It takes no memory.
    fn merge(&mut self, later: &mut Self) -> Result<(), AllocError>
        ensures joined { OnOk result
            (kept_of self.new ≡ join_kept (kept_of self.old) (kept_of later.old)) }
        ensures emptied { OnOk result (kept_of later.new ≡ None) }
        ensures unchanged { OnErr result (kept_of self.new ≡ kept_of self.old) }
        ensures later_unchanged { OnErr result (kept_of later.new ≡ kept_of later.old) }
        ensures no_memory { IsOk result }
    {
        let later = mem::take(later);
        if self.is_replaced_by(&later) {
            *self = later;
        }
        Ok(())
    }

    ghost laws = { kept_join };
}

impl Merge for NextestVersionConfig {
    ghost use Rattle.nextest_config.specs.NextestVersion.KeptVersions.{join_roles, no_roles, Roles, roles_of};
    ghost use Rattle.nextest_config.specs.NextestVersion.KeptVersionsLaws.{roles_join};

    ghost Seen = { Roles };

    ghost seen = { roles_of };

    ghost join = { join_roles };

    ghost neutral = { no_roles };

    /// Joins what is kept in each role with what a later part keeps in it. It takes no memory.
    fn merge(&mut self, later: &mut Self) -> Result<(), AllocError>
        ensures joined { OnOk result
            (roles_of self.new ≡ join_roles (roles_of self.old) (roles_of later.old)) }
        ensures emptied { OnOk result (roles_of later.new ≡ no_roles) }
        ensures unchanged { OnErr result (roles_of self.new ≡ roles_of self.old) }
        ensures later_unchanged { OnErr result (roles_of later.new ≡ roles_of later.old) }
        ensures no_memory { IsOk result }
    {
        self.required.merge(&mut later.required)?;
        self.recommended.merge(&mut later.recommended)
    }

    ghost laws = { roles_join };
}

impl NextestVersionConfig {
    ghost use Rattle.nextest_config.specs.NextestVersion.NextestVersionDeserialize.{versions_of};
    ghost use Rattle.nextest_config.specs.NextestVersion.KeptVersions.{join_roles, roles_from, roles_of};
    ghost use Rattle.nextest_config.specs.NextestVersion.Source.{place_of};
    ghost use Rattle.nextest_config.specs.NextestVersion.Verdict.{satisfied, verdict, verdict_of};

    /// Takes in what a later source asks: in each role the greater version is kept, and of equal
    /// ones the later.
    pub fn accumulate(
        &mut self,
        alloc: Global,
        v: NextestVersionDeserialize,
        source: &ConfigSource,
    ) -> Result<(), AllocError>
        ensures joined { OnOk result (roles_of self.new
            ≡ join_roles (roles_of self.old) (roles_from (place_of source.now) (versions_of v))) }
        ensures unchanged { OnErr result (roles_of self.new ≡ roles_of self.old) }
    {
        let NextestVersionDeserialize {
            required,
            recommended,
        } = v;
        let required = self.required.replacement(alloc, required, source)?;
        let recommended = self.recommended.replacement(alloc, recommended, source)?;
        if let Some(req) = required {
            self.required = req;
        }
        if let Some(req) = recommended {
            self.recommended = req;
        }
        Ok(())
    }

    pub fn clone(&self, alloc: Global) -> Result<Self, AllocError>
        ensures { IfOk result (λ config. roles_of config ≡ roles_of self.now) }
    {
        let required = self.required.clone(alloc)?;
        let recommended = self.recommended.clone(alloc)?;
        Ok(NextestVersionConfig {
            required,
            recommended,
        })
    }

    /// The verdict on the current version.
    pub fn eval(
        &self,
        alloc: Global,
        current: &Version,
        override_version_check: bool,
    ) -> Result<NextestVersionEval, AllocError>
        ensures value { IfOk result (λ eval. verdict_of eval
            ≡ verdict (roles_of self.now) (parts_of current.now) override_version_check) }
        ensures satisfied { verdict (roles_of self.now) (parts_of current.now)
            override_version_check
            ≡ satisfied → IsOk result }
    {
        NextestVersionEval::judge(
            alloc,
            self.required.not_met_by(current),
            self.recommended.not_met_by(current),
            current,
            override_version_check,
        )
    }
}
