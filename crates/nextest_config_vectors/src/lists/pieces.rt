//! The promise of this project as one contract, from public contracts alone: what sources ask of a
//! current version, however their list is cut.

ghost use Rattle.std.specs.Prelude.{◌≡◌, ◌≤◌, IfErr, IfOk, length, map, OnOk, take};
ghost use Rattle.semver.specs.Identifiers.{parts_of};
ghost use Rattle.nextest_config.specs.NextestVersion.{source_under, configuration_of, IsRefusalOf, IsSelectedFor, Reads, StandsFor, verdict_of};
ghost use Rattle.nextest_config.specs.declared.merge.PieceRefusal.TheVariants.{Memory};

use nextest_config::laws::{law_cut, law_join, law_known_in_order, law_selected};
use nextest_config::merge::Merge;
use nextest_config::nextest_version::{
    Edition, ListRefusal, NextestVersionEval, SourceText, VersionOnlyConfig,
};
use semver::Version;
use std::alloc::{AllocError, Global};

/// The verdict on the current version of sources that are read in pieces, with so many sources in
/// each and the others in a last one, and merged in order.
///
/// # Errors
///
/// The first source of the whole list that is refused, with its position in it; or a request for
/// memory was refused.
pub fn eval_in_pieces(
    alloc: Global,
    edition: Edition,
    sources: &[SourceText],
    lengths: &[usize],
    current: &Version,
    override_version_check: bool,
) -> Result<NextestVersionEval, ListRefusal>
    ensures selected { IfOk result (λ eval. IsSelectedFor (map (source_under edition) sources.now)
        (parts_of current.now) override_version_check (verdict_of eval)) }
    ensures only { Reads (map (source_under edition) sources.now)
        → IfErr result (λ refusal. refusal ≡ Memory) }
    ensures refused { IfErr result (IsRefusalOf (map (source_under edition) sources.now)) }
{
    let whole = read_in_pieces(alloc, edition, sources, lengths)?;
    law_selected();
    match whole
        .nextest_version()
        .eval(alloc, current, override_version_check)
    {
        Ok(eval) => Ok(eval),
        Err(AllocError) => Err(ListRefusal::Memory),
    }
}

// The join of the pieces.
fn read_in_pieces(
    alloc: Global,
    edition: Edition,
    sources: &[SourceText],
    lengths: &[usize],
) -> Result<VersionOnlyConfig, ListRefusal>
    ensures stands { IfOk result (λ config.
        StandsFor (map (source_under edition) sources.now) (configuration_of config)) }
    ensures only { Reads (map (source_under edition) sources.now)
        → IfErr result (λ refusal. refusal ≡ Memory) }
    ensures refused { IfErr result (IsRefusalOf (map (source_under edition) sources.now)) }
{
    let mut whole = VersionOnlyConfig::from_list_with(alloc, edition, &sources[..0])?;
    let mut from = 0usize;
    for length in lengths {
        let to = from.saturating_add(*length).min(sources.len());
        add_piece(alloc, edition, &mut whole, sources, from, to)?;
        from = to;
    }
    add_piece(alloc, edition, &mut whole, sources, from, sources.len())?;
    Ok(whole)
}

// Joins what was read of the sources up to one position with what those up to another one ask.
fn add_piece(
    alloc: Global,
    edition: Edition,
    whole: &mut VersionOnlyConfig,
    sources: &[SourceText],
    from: usize,
    to: usize,
) -> Result<(), ListRefusal>
    requires in_order { from ≤ to }
    requires within { to ≤ length sources.now }
    requires stands { StandsFor (map (source_under edition) (take from sources.now))
        (configuration_of whole.old) }
    ensures stands { OnOk result (StandsFor (map (source_under edition) (take to sources.now))
        (configuration_of whole.new)) }
    ensures only { Reads (map (source_under edition) sources.now)
        → IfErr result (λ refusal. refusal ≡ Memory) }
    ensures refused { IfErr result (IsRefusalOf (map (source_under edition) sources.now)) }
{
    law_cut();
    law_join();
    law_known_in_order();
    match VersionOnlyConfig::from_list_with(alloc, edition, &sources[from..to]) {
        Ok(mut piece) => match whole.merge(&mut piece) {
            Ok(()) => Ok(()),
            Err(AllocError) => Err(ListRefusal::Memory),
        },
        Err(ListRefusal::Refused { position, error }) => Err(ListRefusal::Refused {
            position: from + position,
            error,
        }),
        Err(ListRefusal::Memory) => Err(ListRefusal::Memory),
    }
}
