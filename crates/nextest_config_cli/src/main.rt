//! `nextest-config` checks, lints and shows what configuration files of nextest ask, what is wrong
//! in them, and what profiles get for their settings; explains the codes of what it finds, and
//! keys; and prints the schema of a file.
#![tactic(auto)]

mod arguments;
mod command_line;
mod file_system;
mod request;
mod said;
mod usage_error;

use file_system::FileSystem;
use nextest_config_command::serve;
use nextest_config_schema::schema_text;
use request::{Usage, parse};
use said::{explanation_lines, refuse, show};
use std::alloc::AllocError;
use std::process::ExitCode;
use std::{env, io};
use usage_error::UsageError;

fn main(rt: HostRuntime) -> ExitCode {
    let status = match words(&rt) {
        Ok(words) => run(&rt, words.as_slice()),
        Err(error) => refuse_words(&rt, &UsageError::of_read(&error)),
    };
    ExitCode::from(status)
}

// The words of the command line, with the program's name.
fn words(rt: &HostRuntime) -> io::Result<Vec<String>> {
    let words = env::args(rt)?.collect(rt.alloc())?;
    Ok(words)
}

// Does what the words ask for, and answers the number that the program ends with.
fn run(rt: &HostRuntime, words: &[String]) -> u8 {
    match parse(rt, words) {
        Ok(Usage::Request(request)) => serve(
            rt.alloc(),
            &request,
            &FileSystem { rt },
            &mut rt.stdout(),
            &mut rt.stderr(),
        ),
        Ok(Usage::Explanation(explained)) => {
            show_lines(rt, explanation_lines(rt.alloc(), explained))
        }
        Ok(Usage::Schema) => show_lines(rt, schema_text(rt.alloc())),
        Err(refusal) => refuse_words(rt, &refusal),
    }
}

// Shows lines, and answers the number that the program ends with.
fn show_lines(rt: &HostRuntime, lines: Result<String, AllocError>) -> u8 {
    show(lines, &mut rt.stdout(), &mut rt.stderr()).code()
}

// Says why the words ask for nothing, and answers the number that the program ends with.
fn refuse_words(rt: &HostRuntime, refusal: &UsageError<'_>) -> u8 {
    refuse(rt.alloc(), refusal, &mut rt.stdout(), &mut rt.stderr()).code()
}
