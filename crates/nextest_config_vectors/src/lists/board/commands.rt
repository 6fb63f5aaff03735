//! Boards that are given commands in turn, and what each command answers.

use crate::answers::{push, shown, unknown, written};
use crate::failure::Failure;
use crate::lists::joins::{as_it_was, is_refusal};
use crate::runner::Runner;
use crate::told::answered;
use crate::values::{FromRow, both, word};
use nextest_config::board::ConfigBoard;
use nextest_config::nextest_version::SourceText;
use semver::Version;

/// What a board of so many slots, or of so many `new slots`, answers to each of some commands. The one
/// behind `! ` is the call; where the slots are new, that the board is made.
pub fn boards(rt: &Runner, call: &str, input: &str) -> Result<String, Failure> {
    let (slots, kind) = word(call);
    let slots = usize::from_row(rt, slots)?;
    let marked = if kind == "new slots" {
        *rt
    } else {
        rt.unmarked()
    };
    let board = ConfigBoard::new(marked.call(), slots);
    marked.end();
    match board {
        Ok(mut board) => answers(rt, &mut board, input),
        Err(error) => shown(rt, &error),
    }
}

fn answers(rt: &Runner, board: &mut ConfigBoard, input: &str) -> Result<String, Failure> {
    let unmarked = rt.unmarked();
    let mut answers = String::new(rt.alloc());
    for command in input.split(" && ") {
        let answer = match command.strip_prefix("! ") {
            Some(command) => called(rt, board, command)?,
            None => run(&unmarked, board, command)?,
        };
        if is_refusal(answer.as_str()) {
            return Ok(answer);
        }
        if !answers.is_empty() {
            push(&mut answers, "; ")?;
        }
        push(&mut answers, answer.as_str())?;
    }
    Ok(answers)
}

fn called(rt: &Runner, board: &mut ConfigBoard, command: &str) -> Result<String, Failure> {
    let before = written(&rt.unmarked(), &*board)?;
    let answer = run(rt, board, command)?;
    let now = written(rt, &*board)?;
    as_it_was(rt, answer, before.as_str(), now.as_str())
}

/// What the board answers to a command.
pub fn run(rt: &Runner, board: &mut ConfigBoard, command: &str) -> Result<String, Failure> {
    match word(command) {
        ("put", rest) => put(rt, board, rest),
        ("withdraw", rest) => withdraw(rt, board, usize::from_row(rt, rest)?),
        ("eval", rest) => eval(rt, board, rest),
        ("selections", _) => selections(rt, board),
        _ => unknown(rt, command),
    }
}

fn put(rt: &Runner, board: &mut ConfigBoard, input: &str) -> Result<String, Failure> {
    let (slot, source): (usize, SourceText) = both(rt, input, " ")?;
    rt.begin();
    let put = board.put(slot, &source);
    rt.end();
    answered(rt, "", put)
}

fn withdraw(rt: &Runner, board: &mut ConfigBoard, slot: usize) -> Result<String, Failure> {
    rt.begin();
    let withdrawn = board.withdraw(slot);
    rt.end();
    answered(rt, "", withdrawn)
}

fn eval(rt: &Runner, board: &ConfigBoard, input: &str) -> Result<String, Failure> {
    let (current, flag) = word(input);
    let current = Version::from_row(rt, current)?;
    let verdict = board.eval(rt.call(), &current, flag == "--override");
    rt.end();
    answered(rt, "", verdict)
}

fn selections(rt: &Runner, board: &ConfigBoard) -> Result<String, Failure> {
    rt.begin();
    written(rt, board.selections())
}
