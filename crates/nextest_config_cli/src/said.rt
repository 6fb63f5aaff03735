//! What is said of words that ask for nothing, and of those that ask for an explanation.

ghost use Rattle.std.specs.Prelude.{◌≡◌, IfOk, option_map, string_bytes};
ghost use Rattle.nextest_config_cli.specs.Said.{Explains, no_key_text, not_topic_text, Says, ShowsExplained};

use crate::arguments::Explained;
use crate::usage_error::UsageError;
use nextest_config_lint::explain::{Explanation, topic_list};
use nextest_config_report::exit_status::ExitStatus;
use nextest_config_report::streams::{
    CANNOT_WRITE, NOT_VERSION, OUT_OF_MEMORY, complain, is_reader_gone, write_report,
};
use nextest_config_values::literal::{Shown, shown_lines};
use nextest_config_values::read::QuotedText;
use std::alloc::{AllocError, Global};
use std::io::Write;

/// Says why the words ask for nothing, or what they ask `clap` for, and tells how the program ends.
pub(crate) fn refuse<W: Write, E: Write>(
    alloc: Global,
    refusal: &UsageError<'_>,
    writer: &mut W,
    faults: &mut E,
) -> ExitStatus {
    let said = refusal_lines(alloc, refusal);
    match refusal {
        UsageError::Clap(error) if !error.use_stderr() => show(said, writer, faults),
        UsageError::CurrentFolder(_) => fail(said, ExitStatus::NoOutcome, faults),
        _ => fail(said, ExitStatus::Refused, faults),
    }
}

/// Shows lines, if there was memory for them, and tells how the program ends. Where no one reads
/// them any more, nothing is said of it.
pub(crate) fn show<W: Write, E: Write>(
    lines: Result<String, AllocError>,
    writer: &mut W,
    faults: &mut E,
) -> ExitStatus {
    match lines {
        Ok(lines) => match write_report(writer, lines.as_bytes()) {
            Ok(()) => ExitStatus::Success,
            Err(error) if is_reader_gone(&error) => ExitStatus::NoOutcome,
            Err(_) => give_up(faults, CANNOT_WRITE),
        },
        Err(AllocError) => give_up(faults, OUT_OF_MEMORY),
    }
}

// Says lines, if there was memory for them, and tells how the program then ends.
fn fail<E: Write>(
    lines: Result<String, AllocError>,
    status: ExitStatus,
    faults: &mut E,
) -> ExitStatus {
    match lines {
        Ok(lines) => {
            let _ = write_report(faults, lines.as_bytes());
            status
        }
        Err(AllocError) => give_up(faults, OUT_OF_MEMORY),
    }
}

fn give_up<E: Write>(faults: &mut E, complaint: &str) -> ExitStatus {
    let _ = complain(faults, complaint, "");
    ExitStatus::NoOutcome
}

/// What is said of a topic or of a key, or the list of all topics.
pub(crate) fn explanation_lines(alloc: Global, explained: Explained) -> Result<String, AllocError>
    ensures { IfOk result (λ lines. ShowsExplained explained (string_bytes lines)) }
{
    let text = explanation(alloc, explained)?;
    let lines = shown_lines(alloc, text)?;
    Ok(lines)
}

fn explanation(alloc: Global, explained: Explained) -> Result<String, AllocError>
    ensures { IfOk result (λ text. Explains explained (string_bytes text)) }
{
    match explained {
        Explained::All => topic_list(alloc),
        Explained::Topic(topic) => Explanation::of(topic).to_string(alloc),
        Explained::Key(key) => key.text(alloc),
    }
}

// The lines that say why the words ask for nothing, unless memory ran out.
fn refusal_lines(alloc: Global, refusal: &UsageError<'_>) -> Result<String, AllocError>
    ensures { IfOk result (λ lines. Says refusal.now (string_bytes lines)) }
{
    match refusal {
        UsageError::Clap(error) => shown_lines(alloc, error.to_string(alloc)?),
        UsageError::Words(said) => format!(in alloc; "{said}\n"),
        UsageError::NotVersion(word) => format!(in alloc; "{NOT_VERSION}{}\n", Shown(word)),
        UsageError::NotCode(word) => format!(in alloc; "not a code: {}\n", Shown(word)),
        UsageError::NotTopic(word, nearest) => not_topic(alloc, word, lent(nearest)),
        UsageError::NotKey(word, nearest) => no_key(alloc, word, lent(nearest)),
        UsageError::Tool(error) => format!(in alloc;
            "{}\n",
            Shown(error.to_string(alloc)?.as_str())
        ),
        UsageError::CurrentFolder(error) => {
            let reason = error.to_string(alloc)?;
            format!(in alloc; "current folder: {}\n", Shown(reason.as_str()))
        }
        UsageError::Memory => Err(AllocError),
    }
}

// A text, if there is one.
fn lent(text: &Option<String>) -> Option<&str>
    ensures { option_map (λ text. text.now) result ≡ option_map string_bytes text.now }
{
    match text {
        Some(text) => Some(text.as_str()),
        None => None,
    }
}

// What is said of a path that is that of no key, and comes nearest to this one.
fn no_key(alloc: Global, path: &str, nearest: Option<&str>) -> Result<String, AllocError>
    ensures { IfOk result (λ line. string_bytes line
        ≡ no_key_text path.now (option_map (λ near. near.now) nearest.entry)) }
{
    let quoted = QuotedText(path).to_string(alloc)?;
    let path = Shown(quoted.as_str());
    match nearest {
        Some(near) => { format!(in alloc; "no key {path}, did you mean {}\n", QuotedText(near)) }
        None => format!(in alloc; "no key {path}\n"),
    }
}

// What is said of a word that is no topic and leads to no key, and comes nearest to this one.
fn not_topic(alloc: Global, word: &str, nearest: Option<&str>) -> Result<String, AllocError>
    ensures { IfOk result (λ line. string_bytes line
        ≡ not_topic_text word.now (option_map (λ near. near.now) nearest.entry)) }
{
    let word = Shown(word);
    match nearest {
        Some(near) => {
            let near = QuotedText(near);
            format!(in alloc; "neither a code nor a key: {word}, did you mean {near}\n")
        }
        None => format!(in alloc; "neither a code nor a key: {word}\n"),
    }
}
