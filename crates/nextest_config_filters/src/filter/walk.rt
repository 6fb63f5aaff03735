//! The walk through a filter.

ghost use Rattle.std.specs.Prelude.{◌≡◌, ◌+◌, ◌<◌, ◌^◌, ℕ, IfOk, IsOk, chars, length, option_map};
ghost use Rattle.nextest_config_filters.specs.Filter.Reading.{closes, fault_view};
ghost use Rattle.nextest_config_filters.specs.Filter.Regex.{judged_at, regex_at};
ghost use Rattle.nextest_config_filters.specs.Filter.Steps.{IsLeftOpen, IsStepBy, IsWalk, Shows, state_opened};
ghost use Rattle.nextest_config_filters.specs.Filter.Walk.{Finds, HasNoRegex, State as StateOf};

use super::FilterPlace;
use super::reading::{Expects, FaultAt, Reading, not_closed, not_open};
use super::regex::judged_at;
use std::alloc::{AllocError, Global};

// Where a walk is.
#[derive(Clone, Copy, Debug)]
struct State<'a> {
    expects: Expects,
    // What stands behind all that is read.
    rest: &'a str,
    // How many parentheses are open.
    depth: usize,
    // What stands behind the last one that opened as the one of a level.
    last: &'a str,
}

// How a walk goes on, or ends.
enum Step<'a> {
    To(State<'a>),
    // With this fault, or none.
    Over(Option<FaultAt<'a>>),
    // The text ends, and parentheses are open.
    Open,
}

// How a walk ends.
enum End<'a> {
    Over(Option<FaultAt<'a>>),
    // So many parentheses are open, and this stands behind the last one of the level.
    Open(usize, &'a str),
}

/// The first fault of a text that has more than spaces.
pub(crate) fn reported_in(
    alloc: Global,
    place: FilterPlace,
    text: &str,
) -> Result<Option<FaultAt<'_>>, AllocError>
    ensures walked { IfOk result (λ found.
        Finds place (chars text.now) (option_map fault_view found)) }
    ensures no_memory { HasNoRegex place (chars text.now) → IsOk result }
{
    let end = walk(alloc, place, text, 1)?;
    match end {
        End::Over(found) => Ok(found),
        End::Open(level, _) => last_open(alloc, place, text, level),
    }
}

// The last of the parentheses that are open at the end, of which there are so many.
fn last_open(
    alloc: Global,
    place: FilterPlace,
    text: &str,
    level: usize,
) -> Result<Option<FaultAt<'_>>, AllocError>
    requires { IsLeftOpen place (chars text.now) level }
    ensures walked { IfOk result (λ found.
        Finds place (chars text.now) (option_map fault_view found)) }
    ensures no_memory { HasNoRegex place (chars text.now) → IsOk result }
{
    let end = walk(alloc, place, text, level)?;
    match end {
        End::Over(found) => Ok(found),
        End::Open(_, last) => Ok(Some(not_closed(last))),
    }
}

// Walks through a text, and keeps the parentheses of a level in sight.
fn walk(alloc: Global, place: FilterPlace, text: &str, level: usize) -> Result<End<'_>, AllocError>
    ensures walk { IfOk result (IsWalk place level (chars text.now)) }
    ensures no_memory { HasNoRegex place (chars text.now) → IsOk result }
{
    let mut state = State {
        expects: Expects::Operand,
        rest: text,
        depth: 0,
        last: text,
    };
    loop {
        let step = next_step(alloc, place, level, state)?;
        match step {
            Step::To(next) => state = next,
            Step::Over(found) => return Ok(End::Over(found)),
            Step::Open => return Ok(End::Open(state.depth, state.last)),
        }
    }
}

// One step of a walk.
fn next_step<'a>(
    alloc: Global,
    place: FilterPlace,
    level: usize,
    state: State<'a>,
) -> Result<Step<'a>, AllocError>
    requires { state.depth + length (chars state.rest.now) < 2 ^ 64 }
    ensures step { IfOk result (λ step. (now : StateOf) → Shows level state.entry now
        → IsStepBy level (judged_at place now.expects now.rest) now step) }
    ensures no_memory { regex_at state.entry.expects (chars state.entry.rest.now) ≡ None
        → IsOk result }
{
    let reading = judged_at(alloc, place, state.expects, state.rest)?;
    match reading {
        Reading::GoesOn(expects, rest) => Ok(Step::To(State {
            expects,
            rest,
            ..state
        })),
        Reading::Opens(rest) => Ok(Step::To(opened(level, state, rest))),
        Reading::Closes(rest) => Ok(closed(state, rest)),
        Reading::Ends if state.depth > 0 => Ok(Step::Open),
        Reading::Ends | Reading::Unjudged => Ok(Step::Over(None)),
        Reading::Reports(fault) => Ok(Step::Over(Some(fault))),
    }
}

// The state behind a parenthesis that opens.
fn opened<'a>(level: usize, state: State<'a>, rest: &'a str) -> State<'a>
    requires { state.depth + 1 < 2 ^ 64 }
    ensures { (now : StateOf) → Shows level state.entry now
        → Shows level result (state_opened now (chars rest.now)) }
{
    let depth = state.depth + 1;
    State {
        expects: Expects::Operand,
        rest,
        depth,
        last: if depth == level { rest } else { state.last },
    }
}

// The step over a parenthesis that closes.
fn closed<'a>(state: State<'a>, rest: &'a str) -> Step<'a>
    ensures { (level : ℕ) (now : StateOf) → Shows level state.entry now
        → IsStepBy level (closes (chars rest.now)) now result }
{
    if state.depth == 0 {
        return Step::Over(Some(not_open(rest)));
    }
    Step::To(State {
        expects: Expects::Operator,
        rest,
        depth: state.depth - 1,
        ..state
    })
}
