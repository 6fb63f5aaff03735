//! The walk through `cfg(..)`.

ghost use Rattle.std.specs.Prelude.{◌≡◌, ◌+◌, ◌<◌, ◌≤◌, ◌^◌, List, Some, chars, codes, length, IfErr, IfOk, IsOk};
ghost use Rattle.nextest_config_filters.specs.Front.{behind, without_first};
ghost use Rattle.nextest_config_filters.specs.Platform.Member.{reading_at};
ghost use Rattle.nextest_config_filters.specs.Platform.Outcome.{StaysShallow};
ghost use Rattle.nextest_config_filters.specs.Platform.Reading.{opens};
ghost use Rattle.nextest_config_filters.specs.Platform.Steps.{IsStep, IsStepBy, LeadsBeyond, outcome_view, outermost_first, Shows};
ghost use Rattle.nextest_config_filters.specs.Platform.Walk.{Finds, first_level, is_miscounted, next_closed, next_of, outcome_closed, outcome_end, passes, start, State as StateOf, with_member};
ghost use Rattle.nextest_config_filters.specs.declared.platform.reading.Level.{Level as LevelOf};

use super::flaw::PlatformFlaw;
use super::member::reading_at;
use super::outcome::Outcome;
use super::reading::{After, Level, Reading, fault_of_level, not_closed, not_open};
use crate::front::without_first;
use crate::text::size;
use smallvec::SmallVec;
use std::alloc::{AllocError, Global};

// Where a walk is, but for the levels around.
#[derive(Clone, Copy, Debug)]
struct State<'a> {
    after: After,
    level: Level,
    // What stands behind all that is read.
    rest: &'a str,
}

// How a walk goes on, or ends.
enum Step<'a> {
    To(State<'a>),
    Over(Outcome<'a>),
}

/// What is found in `cfg(..)` at the front of a text, whose parenthesis stands before this.
pub(crate) fn walk<'a>(
    alloc: Global,
    text: &str,
    opened: &'a str,
) -> Result<Outcome<'a>, AllocError>
    requires { behind (codes "cfg(") (chars text.now) ≡ Some (chars opened.now) }
    ensures walked { IfOk result (λ outcome.
        Finds (start (chars text.now) (chars opened.now)) (outcome_view outcome)) }
    ensures no_memory { StaysShallow (start (chars text.now) (chars opened.now)) → IsOk result }
{
    let mut outer = SmallVec::new(alloc);
    let mut state = State {
        after: After::Nothing,
        level: first_level(text, opened),
        rest: opened,
    };
    loop {
        match next_step(&mut outer, state)? {
            Step::To(next) => state = next,
            Step::Over(outcome) => return Ok(outcome),
        }
    }
}

/// `cfg(..)` itself at the front of a text, whose parenthesis stands before this.
pub(crate) fn first_level(text: &str, opened: &str) -> Level
    requires { behind (codes "cfg(") (chars text.now) ≡ Some (chars opened.now) }
    ensures { result ≡ first_level (chars text.now) (chars opened.now) }
{
    let behind = size(opened);
    Level {
        is_not: false,
        from: size(text),
        opening: behind + 1,
        opened: behind,
        members: 0,
    }
}

// One step of a walk.
fn next_step<'a>(outer: &mut SmallVec<Level, 8>, state: State<'a>) -> Result<Step<'a>, AllocError>
    requires { state.level.members + length (chars state.rest.now) < 2 ^ 64 }
    ensures step { IfOk result (λ step. (now : StateOf) → Shows outer.old.items state.entry now
        → IsStepBy (reading_at now.before now.rest) now outer.new.items step) }
    ensures beyond { IfErr result (λ _. (now : StateOf) → Shows outer.old.items state.entry now
        → LeadsBeyond (reading_at now.before now.rest) now outer.old.capacity) }
    ensures capacity { outer.old.capacity ≤ outer.new.capacity }
{
    match reading_at(state.after, state.rest) {
        Reading::Separates(rest) => Ok(Step::To(State {
            after: After::Comma,
            rest,
            ..state
        })),
        Reading::Member(rest) => Ok(Step::To(State {
            after: After::Member,
            level: with_member(state.level),
            rest,
        })),
        Reading::Opens(level, rest) => {
            let step = opened(outer, state.level, level, rest)?;
            Ok(step)
        }
        Reading::Closes(text) => Ok(closed(outer, state.level, text)),
        Reading::Ends(rest) => Ok(Step::Over(ended(outer, state.after, state.level, rest))),
        Reading::Unjudged => Ok(Step::Over(Outcome::Unjudged)),
        Reading::Reports(fault) => Ok(Step::Over(Outcome::Wrong(fault))),
    }
}

// A level with one member more.
fn with_member(level: Level) -> Level
    requires { level.members + 1 < 2 ^ 64 }
    ensures { result ≡ with_member level }
{
    Level {
        members: level.members + 1,
        ..level
    }
}

// The step from a level into a group.
fn opened<'a>(
    outer: &mut SmallVec<Level, 8>,
    level: Level,
    inner: Level,
    rest: &'a str,
) -> Result<Step<'a>, AllocError>
    requires { level.members + 1 < 2 ^ 64 }
    ensures step { IfOk result (λ step. (around : List LevelOf)
        → outer.old.items ≡ outermost_first around
        → IsStep (next_of (opens inner (chars rest.now)) level around) passes
        outer.new.items step) }
    ensures full { IfErr result (λ _. outer.old.capacity < length outer.old.items + 1) }
    ensures capacity { outer.old.capacity ≤ outer.new.capacity }
{
    let around = if outer.is_empty() {
        level
    } else {
        with_member(level)
    };
    outer.push(around)?;
    Ok(Step::To(State {
        after: After::Opening,
        level: inner,
        rest,
    }))
}

// The step over a parenthesis that closes a level, at the front of a text.
fn closed<'a>(outer: &mut SmallVec<Level, 8>, level: Level, text: &'a str) -> Step<'a>
    ensures step { (around : List LevelOf) → outer.old.items ≡ outermost_first around
        → IsStep (next_closed level around (without_first (chars text.now)))
        (outcome_closed level around (chars text.now)) outer.new.items result }
    ensures capacity { outer.new.capacity ≡ outer.old.capacity }
{
    let rest = without_first(text);
    match outer.pop() {
        None => Step::Over(Outcome::Wrong(not_open(text))),
        Some(_) if is_miscounted(level) => Step::Over(Outcome::Wrong(fault_of_level(
            level,
            rest,
            PlatformFlaw::NotMembers(level.members),
        ))),
        Some(around) => Step::To(State {
            after: After::Member,
            level: around,
            rest,
        }),
    }
}

// Whether it is a `not` with other than one member.
fn is_miscounted(level: Level) -> bool
    ensures { result ≡ is_miscounted level }
{
    level.is_not && level.members != 1
}

// What is found at the end of a level, behind this and before this rest.
fn ended<'a>(outer: &SmallVec<Level, 8>, after: After, level: Level, rest: &str) -> Outcome<'a>
    ensures { (around : List LevelOf) → outer.now.items ≡ outermost_first around
        → outcome_end after level around (chars rest.now) ≡ outcome_view result }
{
    if !outer.is_empty() {
        return Outcome::Wrong(not_closed(level));
    }
    match after {
        After::Nothing => Outcome::Wrong(fault_of_level(level, rest, PlatformFlaw::NoMember)),
        _ if level.members > 1 => {
            Outcome::Wrong(fault_of_level(level, rest, PlatformFlaw::ManyMembers))
        }
        _ => Outcome::Passes,
    }
}
