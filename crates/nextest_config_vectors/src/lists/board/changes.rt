//! A board that is changed by a rule, beside the list of the sources that it holds.

use super::commands::run;
use crate::answers::{compare, copied, done, push, unknown, written};
use crate::failure::Failure;
use crate::lists::asked::lists;
use crate::runner::Runner;
use nextest_config::board::ConfigBoard;

const CHANGES: usize = 200;

const SLOTS: usize = 5;

// What a slot is to hold, `@` being the number that the rule gives. An empty text is a withdrawal,
// and the last text is refused.
const SOURCES: [&str; 9] = [
    "",
    "",
    "repository: @.toml",
    "repository: @.toml => nextest-version = \"0.9.50\"",
    "tool my-tool: /@.toml => nextest-version = \"0.9.50\"",
    "repository: @.toml => nextest-version = \"0.9.60\"",
    "explicit: @.toml => nextest-version = { recommended = \"0.9.60\" }",
    "repository: @.toml => nextest-version = { required = \"0.9.50\", recommended = \"0.9.70\" }",
    "repository: @.toml => x =",
];

/// Whether a board tells these current versions what it should, after each of its changes.
pub fn changes(rt: &Runner, _call: &str, versions: &str) -> Result<String, Failure> {
    let mut followed = new_board(rt)?;
    let mut number = 1;
    for _change in 0..CHANGES {
        number = next(number);
        change(rt, &mut followed, number)?;
        compare_all(rt, &mut followed, versions)?;
    }
    copied(rt, "as its list")
}

// A board, and what each of its slots holds.
#[derive(Drop)]
struct Followed {
    board: ConfigBoard,
    sources: Vec<String>,
}

fn new_board(rt: &Runner) -> Result<Followed, Failure> {
    let mut sources = Vec::new(rt.alloc());
    for _slot in 0..SLOTS {
        done(rt, sources.push(copied(rt, "")?))?;
    }
    Ok(Followed {
        board: done(rt, ConfigBoard::new(rt.alloc(), SLOTS))?,
        sources,
    })
}

// The number after this one, in a row that repeats none of its first 65536.
fn next(number: usize) -> usize {
    (number % 65537 * 75 + 74) % 65537
}

// What the number says that its slot is to hold.
fn source_of(rt: &Runner, number: usize) -> Result<String, Failure> {
    let source = SOURCES[number / SLOTS % SOURCES.len()];
    let number = written(rt, number)?;
    done(rt, source.replace(rt.alloc(), "@", number.as_str()))
}

// Changes the slot that the number says.
fn change(rt: &Runner, followed: &mut Followed, number: usize) -> Result<(), Failure> {
    let slot = number % SLOTS;
    let source = source_of(rt, number)?;
    let command = command_of(rt, slot, source.as_str())?;
    let answer = run(rt, &mut followed.board, command.as_str())?;
    if source.ends_with("x =") {
        let refusal = refusal_of(rt, number)?;
        compare(rt, answer.as_str(), refusal.as_str())
    } else {
        compare(rt, answer.as_str(), "done")?;
        hold(rt, followed, slot, source)
    }
}

fn command_of(rt: &Runner, slot: usize, source: &str) -> Result<String, Failure> {
    if source.is_empty() {
        done(rt, format!(in rt.alloc(); "withdraw {slot}"))
    } else {
        done(rt, format!(in rt.alloc(); "put {slot} {source}"))
    }
}

fn refusal_of(rt: &Runner, number: usize) -> Result<String, Failure> {
    let refusal = format!(in rt.alloc(); "repository {number}.toml: not a TOML document");
    done(rt, refusal)
}

fn hold(rt: &Runner, followed: &mut Followed, slot: usize, source: String) -> Result<(), Failure> {
    if slot >= followed.sources.len() {
        return unknown(rt, source.as_str());
    }
    followed.sources[slot] = source;
    Ok(())
}

// Fails where the board tells another verdict than the list of its sources.
fn compare_all(rt: &Runner, followed: &mut Followed, versions: &str) -> Result<(), Failure> {
    let list = listed(rt, &followed.sources)?;
    for version in versions.split(" && ") {
        compare_verdict(rt, &mut followed.board, list.as_str(), version)?;
    }
    Ok(())
}

fn compare_verdict(
    rt: &Runner,
    board: &mut ConfigBoard,
    list: &str,
    version: &str,
) -> Result<(), Failure> {
    let command = format!(in rt.alloc(); "eval {version}");
    let answer = run(rt, board, done(rt, command)?.as_str())?;
    let wanted = lists(rt, version, list)?;
    compare(rt, answer.as_str(), wanted.as_str())
}

// The sources as a row writes them, which leaves out empty ones.
fn listed(rt: &Runner, sources: &[String]) -> Result<String, Failure> {
    let mut list = String::new(rt.alloc());
    for source in sources {
        push(&mut list, source.as_str())?;
        push(&mut list, " && ")?;
    }
    Ok(list)
}
