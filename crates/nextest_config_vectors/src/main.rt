//! Makes the calls that tables of rows name, and tells each row that is answered otherwise.
//!
//! A table is a text, `data/*.txt`, and a row one of its lines, `NAME | CALL | INPUT | ANSWER`. The
//! words say what is done:
//!
//! - `[--upto SIZE] [TABLE..]` compares each row of these tables with what is answered, or of all
//!   that end in `.txt` in the folder that the program runs in; rows that grow up to this size alone.
//!   Where all are answered as they say, nothing is told.
//! - `--list TABLE` lists the rows that may be asked under refused memory, each on a line, with `- `
//!   in front where its call takes no memory.
//! - `--ask NUMBER TABLE` asks that row twice, counted from 0 as they are listed, and tells how each
//!   call came out, on a line behind `= `. A line `call` comes right before a call and a line
//!   `answer` right behind it; what stands outside of these has memory.
//!
//! The status is 1 where a row or a table fails: one that doesn't read, one without rows, a call that
//! nothing has, or a folder without tables.
#![tactic(auto)]

mod answers;
mod asking;
mod compared;
mod failure;
mod files;
mod filters;
mod lists;
mod runner;
mod settings;
mod sizes;
mod table;
mod told;
mod values;
mod wrong_kinds;

use asking::{Asking, Task};
use failure::Failure;
use std::process::ExitCode;
use std::{env, fs};

fn main(rt: HostRuntime) -> ExitCode {
    match run(&rt) {
        Ok(true) => ExitCode::SUCCESS,
        Ok(false) => ExitCode::FAILURE,
        Err(failure) => {
            let _ = println!(&rt; "{failure}");
            ExitCode::FAILURE
        }
    }
}

// Does what the words say, and answers whether no row failed.
fn run(rt: &HostRuntime) -> Result<bool, Failure> {
    let words: Vec<String> = env::args(rt)?.skip(1).collect(rt.alloc())?;
    let Some((first, rest)) = words.split_first() else {
        return compare(rt, usize::MAX, &[]);
    };
    match (first.as_str(), rest) {
        ("--list", tables) => go_through(rt, Task::List, tables),
        ("--ask", [number, tables @ ..]) => {
            go_through(rt, Task::Ask(number_of(number.as_str())?), tables)
        }
        ("--upto", [size, tables @ ..]) => compare(rt, number_of(size.as_str())?, tables),
        _ => compare(rt, usize::MAX, &words),
    }
}

fn number_of(word: &str) -> Result<usize, Failure> {
    word.parse()
        .map_err(|_| Failure::Unreadable("a word isn't a number"))
}

// Compares the rows of these tables, or of all that lie here.
fn compare(rt: &HostRuntime, upto: usize, tables: &[String]) -> Result<bool, Failure> {
    let task = Task::Compare { upto };
    if tables.is_empty() {
        go_through(rt, task, &tables_here(rt)?)
    } else {
        go_through(rt, task, tables)
    }
}

fn tables_here(rt: &HostRuntime) -> Result<Vec<String>, Failure> {
    let mut tables = Vec::new(rt.alloc());
    for entry in fs::read_dir(rt, ".")? {
        let entry = entry?;
        let name = entry.file_name();
        if name.ends_with(".txt") {
            tables.push(String::from_str(rt.alloc(), name)?)?;
        }
    }
    tables.sort()?;
    Ok(tables)
}

fn go_through(rt: &HostRuntime, task: Task, tables: &[String]) -> Result<bool, Failure> {
    if tables.is_empty() {
        return Err(Failure::Unreadable("there is no table"));
    }
    let mut asking = Asking::new(rt, task);
    for table in tables {
        asking.table(table.as_str());
    }
    Ok(asking.failures() == 0)
}
