//! A board of sources, with the verdict of the sources as they are.

ghost use Rattle.std.specs.Prelude.{◌≡◌, ◌<◌, IfOk, IfErr, IsOk, OnOk, OnErr, None, length, map, option_map, replicate};
ghost use Rattle.std.specs.List.{AllByRecursion};
ghost use Rattle.semver.specs.Identifiers.{parts_of};
ghost use Rattle.nextest_config.specs.Board.RolePair.{pair_in};
ghost use Rattle.nextest_config.specs.Board.Slots.{AreHeld, board_list, BoardState, IsChanged, IsHeld, IsPut, IsReadInto, kept_in, slot_of, slots_of};
ghost use Rattle.nextest_config.specs.Board.Refusals.{IsNoSlot, IsRefusedPut, IsRefusedSource};
ghost use Rattle.nextest_config.specs.NextestVersion.{source_of, alone, IsSatisfied, IsSelected, kept_from, not_met, verdict_of};

use super::refusal::BoardRefusal;
use super::role_pair::{RolePair, SlotVersion, Tally};
use crate::choice::{ChoiceTree, Choose};
use crate::merge::PieceRefusal;
use crate::nextest_version::{
    ConfigParseError, ConfigSource, Edition, NextestVersionDeserialize, NextestVersionEval,
    SourceText, VersionOnlyDeserialize,
};
use semver::Version;
use std::alloc::{AllocError, Global};
use std::cmp::Ordering;
use std::marker::Model;

/// Slots that each hold a source or are empty. A board keeps the versions that its sources ask, and
/// tells the verdict of the sources as they are.
#[derive(Debug, Drop)]
pub struct ConfigBoard {
    alloc: Global,
    sources: Vec<Option<ConfigSource>>,
    tree: ChoiceTree<RolePair>,
    tally: Tally,
}

impl Model for ConfigBoard {
    ghost Value = { BoardState };

    ghost view = { λ board. record {
      slots = slots_of board.sources.items board.tree;
      selections = board.tally.choices;
    } };

    ghost invariant = { λ board. AreHeld 0 board.sources.items board.tree };
}

impl ConfigBoard {
    /// A board with so many empty slots.
    #[tactic(auto, using(crate::proofs::Slots::none_held, crate::proofs::Slots::no_slots))]
    pub fn new(alloc: Global, n: usize) -> Result<Self, AllocError>
        ensures { IfOk result
            (λ board. board ≡ record { slots = replicate n None; selections = 0 }) }
    {
        Ok(ConfigBoard {
            alloc,
            sources: empty_slots(alloc, n)?,
            tree: ChoiceTree::new(alloc, n)?,
            tally: Tally { choices: 0 },
        })
    }

    /// The verdict on the current version, of the sources as they are. Where all are satisfied it
    /// takes no memory.
    pub fn eval(
        &self,
        alloc: Global,
        current: &Version,
        override_version_check: bool,
    ) -> Result<NextestVersionEval, AllocError>
        ensures selected { IfOk result (λ eval. IsSelected
            (map (alone (parts_of current.now) override_version_check) (board_list self.now.slots))
            (verdict_of eval)) }
        ensures satisfied { AllByRecursion IsSatisfied
            (map (alone (parts_of current.now) override_version_check) (board_list self.now.slots))
            → IsOk result }
    {
        let ConfigBoard {
            alloc: _,
            sources,
            tree,
            tally: _,
        } = self;
        let chosen = tree.whole();
        let required = unmet_in(sources, chosen.required, current);
        let recommended = unmet_in(sources, chosen.recommended, current);
        NextestVersionEval::judge(
            alloc,
            borrow_unmet(&required),
            borrow_unmet(&recommended),
            current,
            override_version_check,
        )
    }

    /// Puts a source into the slot, in place of what it held.
    pub fn put(&mut self, slot: usize, text: &SourceText) -> Result<(), BoardRefusal>
        ensures put { OnOk result (IsPut slot (source_of text.now) self.old self.new) }
        ensures refused { IfErr result
            (IsRefusedPut (length self.old.slots) slot (source_of text.now)) }
        ensures unchanged { OnErr result (self.new ≡ self.old) }
    {
        let slots = self.slots();
        if slot >= slots {
            return Err(BoardRefusal::NoSuchSlot { slots });
        }
        match read_slot(self.alloc, slot, text) {
            Ok((source, pair)) => {
                self.change(slot, Some(source), pair);
                Ok(())
            }
            Err(refusal) => Err(refusal),
        }
    }

    /// Leaves the slot empty. It takes no memory.
    pub fn withdraw(&mut self, slot: usize) -> Result<(), BoardRefusal>
        ensures withdrawn { OnOk result (IsChanged slot None self.old self.new) }
        ensures refused { IfErr result (IsNoSlot (length self.old.slots) slot) }
        ensures unchanged { OnErr result (self.new ≡ self.old) }
    {
        let slots = self.slots();
        if slot >= slots {
            return Err(BoardRefusal::NoSuchSlot { slots });
        }
        self.change(slot, None, RolePair::none());
        Ok(())
    }

    /// Number of choices that the last change took.
    pub fn selections(&self) -> usize
        ensures { result ≡ self.now.selections }
    {
        self.tally.choices
    }

    // How many slots there are.
    fn slots(&self) -> usize
        ensures { result ≡ length self.now.slots }
    {
        self.sources.len()
    }

    // Replaces what the slot holds.
    #[tactic(auto, using(crate::proofs::Slots::held_set))]
    fn change(&mut self, slot: usize, source: Option<ConfigSource>, pair: RolePair)
        requires within { slot < length self.old.slots }
        requires of_slot { IsHeld slot source pair }
        ensures { IsChanged slot (slot_of source pair) self.old self.new }
    {
        let mut tally = Tally { choices: 0 };
        self.sources[slot] = source;
        self.tree.set(slot, pair, &mut tally);
        self.tally = tally;
    }
}

// So many empty slots.
fn empty_slots(alloc: Global, n: usize) -> Result<Vec<Option<ConfigSource>>, AllocError>
    ensures { IfOk result (λ slots. slots.items ≡ replicate n None) }
{
    let mut slots = Vec::with_capacity(alloc, n)?;
    for _slot in 0..n {
        slots.push(None)?;
    }
    Ok(slots)
}

// A copy of the source, and what is chosen from of it in this slot.
#[tactic(auto, using(crate::proofs::OneVerdict::text_plain, crate::proofs::Slots::same_versions))]
fn read_slot(
    alloc: Global,
    slot: usize,
    text: &SourceText,
) -> Result<(ConfigSource, RolePair), BoardRefusal>
    ensures read { IfOk result (λ read. IsReadInto slot (source_of text.now) read.0 read.1) }
    ensures refused { IfErr result (IsRefusedSource (source_of text.now)) }
{
    let edition = Edition::ArrayAllowed;
    match VersionOnlyDeserialize::read(alloc, edition, &text.source.kind, &text.contents) {
        Ok(asked) => match text.source.clone(alloc) {
            Ok(source) => Ok((source, pair_of(slot, &asked.nextest_version))),
            Err(AllocError) => Err(BoardRefusal::Memory),
        },
        Err(kind) => match ConfigParseError::of_source(alloc, &text.source, kind) {
            PieceRefusal::Refused { position: _, error } => Err(BoardRefusal::Refused(error)),
            PieceRefusal::Memory => Err(BoardRefusal::Memory),
        },
    }
}

// What is asked, from this slot.
fn pair_of(slot: usize, asked: &NextestVersionDeserialize) -> RolePair
    ensures { result ≡ pair_in slot asked.now }
{
    RolePair {
        required: SlotVersion::of(slot, &asked.required),
        recommended: SlotVersion::of(slot, &asked.recommended),
    }
}

// The version that is asked and its source, if the current version isn't enough for it.
fn unmet_in<'a>(
    sources: &'a [Option<ConfigSource>],
    asked: Option<SlotVersion>,
    current: &Version,
) -> Option<(Version, &'a ConfigSource)>
    ensures { option_map (λ kept. kept_from kept.0 kept.1.now) result
        ≡ not_met (kept_in sources.now asked) (parts_of current.now) }
{
    let asked = asked?;
    let version = asked.version();
    if current.cmp_precedence(&version) != Ordering::Less {
        return None;
    }
    match sources.get(asked.slot) {
        Some(Some(source)) => Some((version, source)),
        _ => None,
    }
}

// The version and its source, if any, as a verdict borrows them.
fn borrow_unmet<'a>(
    unmet: &'a Option<(Version, &'a ConfigSource)>,
) -> Option<(&'a Version, &'a ConfigSource)>
    ensures { option_map (λ kept. kept_from kept.0.now kept.1.now) result
        ≡ option_map (λ kept. kept_from kept.0 kept.1.now) unmet.now }
{
    match unmet {
        Some((version, source)) => Some((version, source)),
        None => None,
    }
}
