//! `nextest_config_check CURRENT [--override] [--table-only]` reads a list of configuration sources
//! on standard input and reports which nextest version they ask for, which source asks it, whether
//! CURRENT is enough, and which experimental features they name.
#![tactic(auto)]

mod command_line;
pub mod laws;
mod layout;
mod report;
pub mod streams;

use command_line::WordsFault;
use std::env;
use std::io::{self, Input};
use std::process::ExitCode;
use streams::{refuse, serve};

fn main(rt: HostRuntime) -> ExitCode {
    let words = match words(&rt) {
        Ok(words) => words,
        Err(error) => {
            let status = refuse(&mut rt.stderr(), WordsFault::of_read(&error));
            return ExitCode::from(status);
        }
    };
    let mut reader = rt.reader();
    let status = serve(
        rt.alloc(),
        &words,
        &mut reader,
        &mut rt.stdout(),
        &mut rt.stderr(),
    );
    ExitCode::from(status)
}

// The words of the command line, without the program's name.
fn words(rt: &HostRuntime) -> io::Result<Vec<String>> {
    let words = env::args(rt)?.skip(1).collect(rt.alloc())?;
    Ok(words)
}
