//! What the scripts of `bench/` measure. The words say what is done; where that fails, the status
//! is 1.
//!
//! - `toml` reads the sources on standard input with `toml` alone, and lets each document go.
//! - `duration` reads standard input as one duration.
//! - `text` reads standard input as a text, and does nothing more; `document` then reads it with
//!   `toml` alone, as one document, and `index` makes the index of its places.
//! - `places` prints, of each document on standard input, where all that it holds stands. A NUL stands
//!   between two documents, and a blank line after each.
//! - `documents` reads the documents on standard input with `toml` alone, a NUL between two of them;
//!   `indexes` makes the index of each, too, and `profile` then asks for the settings that `ci` gets of
//!   them, as files of one list.
//! - `leaves` prints, of each such list on standard input, what it has below `profile` over what nextest
//!   sets itself: of each leaf its path, the number of the layer that it comes from, where that has it,
//!   and its value. U+0001 stands between two lists, and a blank line after each.
//! - `findings` and `located` judge standard input as a configuration file, the first without its
//!   lines, and print how much is found.
//! - `sources SIZE CHANGES` makes so many sources of one version each, `list` reads them as a list,
//!   too, and `board` puts them on a board and makes so many changes there, each with the verdict
//!   after it, which has to be an error that names the greatest version.
//! - `make OF GIVEN SIZE` makes so many `sources`, or files of `tools`, that ask nothing: their
//!   contents are `empty` or `absent`. `read` reads them, too.
#![tactic(auto)]

mod alone;
mod board;
mod files;
mod nothing;
mod positions;
mod profiles;

use std::io::{Input, Read};
use std::process::ExitCode;
use std::{env, str};

fn main(rt: HostRuntime) -> ExitCode {
    match run(&rt) {
        Some(()) => ExitCode::SUCCESS,
        None => ExitCode::FAILURE,
    }
}

fn run(rt: &HostRuntime) -> Option<()> {
    let words: Vec<String> = env::args(rt).ok()?.skip(1).collect(rt.alloc()).ok()?;
    match words.as_slice() {
        [what] => measure(rt, what.as_str()),
        [what, size, changes] => {
            board::run(rt.alloc(), what, size.parse().ok()?, changes.parse().ok()?)
        }
        [what, of, given, size] => nothing::run(rt.alloc(), what, of, given, size.parse().ok()?),
        _ => None,
    }
}

// What is done with standard input.
fn measure(rt: &HostRuntime, what: &str) -> Option<()> {
    let mut input = Vec::new(rt.alloc());
    rt.reader().read_to_end(&mut input).ok()?;
    if matches!(what, "findings" | "located") {
        return files::judge(rt, what, &input);
    }
    let text = str::from_utf8(&input).ok()?;
    match what {
        "text" | "document" | "index" | "places" => positions::run(rt, what, text),
        "documents" | "indexes" | "profile" | "leaves" => profiles::run(rt, what, text),
        _ => alone::read(rt.alloc(), what, text),
    }
}
