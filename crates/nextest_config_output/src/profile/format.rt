//! A profile in a format.

ghost use Rattle.std.specs.Prelude.{IfOk, string_bytes};
ghost use Rattle.nextest_config_output.specs.Profile.Format.{IsProfileText};

use crate::profile::as_json::json_text;
use crate::profile::human::human_text;
use nextest_config_profiles::report::ProfileReport;
use nextest_config_report::show::ShowFormat;
use std::alloc::{AllocError, Global};

/// What is reported of a profile, for people or for programs.
pub fn profile_text(
    alloc: Global,
    format: ShowFormat,
    report: &ProfileReport<'_>,
) -> Result<String, AllocError>
    ensures { IfOk result (λ text. IsProfileText format report.now (string_bytes text)) }
{
    match format {
        ShowFormat::Human => human_text(alloc, report),
        ShowFormat::Json => json_text(alloc, report),
    }
}
