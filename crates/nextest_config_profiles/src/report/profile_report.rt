//! The whole of what is told of a profile.

ghost use Rattle.std.specs.Prelude.{◌≡◌, ◌++◌, ◌∷◌, [], IfOk, List, map, OnOk};
ghost use Rattle.std.specs.List.{AllZip, list_any};
ghost use Rattle.nextest_config_profiles.specs.Profile.{AreProfiles, names_of};
ghost use Rattle.nextest_config_profiles.specs.Report.OtherProfiles.{AreFaultsOf, AreOtherProfileFaults};
ghost use Rattle.nextest_config_profiles.specs.Report.ProfileReport.{has_fault, have_fault, is_fault, IsReport, rows_have_fault};
ghost use Rattle.nextest_config_profiles.specs.Report.Rows.{AreRows};
ghost use Rattle.nextest_config_profiles.specs.Report.Setting.{all_settings, rule_of};
ghost use Rattle.nextest_config_profiles.specs.declared.report.parts.OtherProfileFault.{OtherProfileFault};
ghost use Rattle.nextest_config_profiles.specs.declared.report.parts.Row.{Row};

use crate::profile_alone::Profiles;
use crate::report::chain::chain;
use crate::report::given::given_for;
use crate::report::other_profiles::{faults_of, giver_of};
use crate::report::others::others;
use crate::report::overrides::overrides;
use crate::report::parts::{ChainProfile, KeyState, OtherKey, OtherProfileFault, Override, Row};
use crate::report::rows::rows_of;
use crate::report::setting::{KnownSetting, all_settings};
use crate::{EffectiveProfile, profile_names};
use std::alloc::{AllocError, Global};

/// What is told of a profile.
#[derive(Drop)]
pub struct ProfileReport<'a> {
    /// The profile and those that it falls back on, `default` last.
    pub chain: Vec<ChainProfile<'a>>,
    /// What it gets for each setting, in the order of the settings.
    pub settings: Vec<Vec<Row<'a>>>,
    /// What else the profile has.
    pub others: Vec<OtherKey<'a>>,
    /// The overrides, of which the first that applies and sets a key counts.
    pub overrides: Vec<Override<'a>>,
    /// What is wrong with settings of all profiles but the one that gives each, those of the chain
    /// among them: nextest refuses the files for that, too.
    pub other_profiles: Vec<OtherProfileFault<'a>>,
}

impl<'a> ProfileReport<'a> {
    /// What is told of the profile; with what its values hide, where that is asked for.
    pub fn of(
        alloc: Global,
        effective: &'a EffectiveProfile<'a>,
        shows_hidden: bool,
    ) -> Result<Self, AllocError>
        ensures { IfOk result (IsReport effective.now shows_hidden) }
    {
        let report = settings_report(alloc, effective, shows_hidden)?;
        Ok(ProfileReport {
            chain: chain(alloc, effective)?,
            settings: report.rows,
            others: others(alloc, effective)?,
            overrides: overrides(alloc, effective)?,
            other_profiles: report.faults,
        })
    }

    /// Whether a setting has a fault, or no value, or what any profile but the one that gives a
    /// setting has for it, in the chain or not, has a fault.
    pub fn has_fault(&self) -> bool
        ensures { result ≡ has_fault self.now }
    {
        !self.other_profiles.is_empty() || settings_have_fault(self.settings.as_slice())
    }
}

// What is told of the settings.
#[derive(Drop)]
struct SettingsReport<'a> {
    rows: Vec<Vec<Row<'a>>>,
    // What is wrong with each in other profiles than the one that gives it.
    faults: Vec<OtherProfileFault<'a>>,
}

// What is told of each setting, which is read once.
fn settings_report<'a>(
    alloc: Global,
    effective: &'a EffectiveProfile<'a>,
    shows_hidden: bool,
) -> Result<SettingsReport<'a>, AllocError>
    ensures rows { IfOk result (λ report. AllZip (AreRows effective.now shows_hidden) all_settings
        (map (λ rows. rows.items) report.rows.items)) }
    ensures faults { IfOk result (λ report.
        AreOtherProfileFaults effective.now report.faults.items) }
{
    let names = profile_names(alloc, effective.files())?;
    let all = effective.each_alone(alloc, names.as_slice())?;
    let chain = effective.chain_alone(alloc)?;
    let profiles = Profiles {
        effective,
        chain: chain.as_slice(),
        all: all.as_slice(),
    };
    let settings = all_settings(alloc)?;
    let mut report = SettingsReport {
        rows: Vec::new(alloc),
        faults: Vec::new(alloc),
    };
    for setting in &settings {
        push_setting(alloc, profiles, setting.lent(), shows_hidden, &mut report)?;
    }
    Ok(report)
}

// Pushes what is told of a setting.
fn push_setting<'a>(
    alloc: Global,
    profiles: Profiles<'_, 'a>,
    setting: KnownSetting<'_>,
    shows_hidden: bool,
    report: &mut SettingsReport<'a>,
) -> Result<(), AllocError>
    requires { AreProfiles profiles }
    ensures rows { OnOk result ((rows : List Row)
        × AreRows profiles.entry.effective.now shows_hidden (rule_of setting.entry) rows
        × (map (λ rows. rows.items) report.new.rows.items
        ≡ map (λ rows. rows.items) report.old.rows.items ++ rows ∷ [])) }
    ensures faults { OnOk result ((added : List OtherProfileFault)
        × AreFaultsOf profiles.entry.effective.now (names_of profiles.entry.all.now)
        (rule_of setting.entry) added
        × (report.new.faults.items ≡ report.old.faults.items ++ added)) }
{
    let effective = profiles.effective;
    let given = given_for(alloc, effective, profiles.chain, setting)?;
    let giver = giver_of(&given);
    let rows = rows_of(alloc, effective, setting, shows_hidden, given)?;
    report.rows.push(rows)?;
    let mut added = faults_of(alloc, effective, setting, giver, profiles.all)?;
    report.faults.append(&mut added)?;
    Ok(())
}

// Whether a row of a setting tells of a fault, or of no value.
fn settings_have_fault(settings: &[Vec<Row<'_>>]) -> bool
    ensures { result ≡ list_any have_fault settings.now }
{
    settings.iter().any(|rows| have_fault(rows.as_slice()))
}

fn have_fault(rows: &[Row<'_>]) -> bool
    ensures { result ≡ rows_have_fault rows.now }
{
    rows.iter().any(|row| is_fault(&row.state))
}

fn is_fault(state: &KeyState<'_>) -> bool
    ensures { result ≡ is_fault state.now }
{
    matches!(state, KeyState::Fault { .. } | KeyState::NoValue(_))
}
