//! The texts of what calls answer, and what is made around them.

use crate::failure::Failure;
use crate::runner::Runner;
use std::error::Error;
use std::fmt::{Debug, Display};

/// What stands around a call, which may not be refused.
pub fn done<T: Drop, E: Debug + Drop>(rt: &Runner, answer: Result<T, E>) -> Result<T, Failure> {
    match answer {
        Ok(value) => Ok(value),
        Err(error) => Err(Failure::Refused(format!(in rt.alloc(); "{error:?}")?)),
    }
}

/// The failure at a word that nothing has.
pub fn unknown<T: Drop>(rt: &Runner, word: &str) -> Result<T, Failure> {
    Err(Failure::Unknown(copied(rt, word)?))
}

/// Fails where the answer isn't the wanted one.
pub fn compare(rt: &Runner, answer: &str, wanted: &str) -> Result<(), Failure> {
    if answer == wanted {
        return Ok(());
    }
    Err(Failure::Mismatch {
        answer: copied(rt, answer)?,
        wanted: copied(rt, wanted)?,
    })
}

/// A copy of a text.
pub fn copied(rt: &Runner, text: &str) -> Result<String, Failure> {
    Ok(String::from_str(rt.alloc(), text)?)
}

/// Adds to a text.
pub fn push(text: &mut String, more: &str) -> Result<(), Failure> {
    Ok(text.push_str(more)?)
}

/// The two sides of the first of these marks.
pub fn cut<'t>(text: &'t str, mark: &str) -> Result<(&'t str, &'t str), Failure> {
    text.split_once(mark)
        .ok_or(Failure::Unreadable("a row lacks a part"))
}

/// The text of a value, which is the same whatever a format asks for.
pub fn shown<T: Display>(rt: &Runner, value: &T) -> Result<String, Failure> {
    rt.end();
    let text = format!(in rt.alloc(); "{value}")?;
    let formatted = format!(in rt.alloc(); "{value:>40}{value:*^60}{value:#}{value:.1}{value:+}")?;
    if formatted == text.repeat(rt.alloc(), 5)? {
        Ok(text)
    } else {
        Ok(formatted)
    }
}

/// What was answered, where a refusal is an error of std's.
pub fn made_or_error<T: Debug + Drop, E: Error>(
    rt: &Runner,
    answer: Result<T, E>,
) -> Result<String, Failure> {
    made(rt, answer)
}

/// What was answered: a value as a source would write it, or a refusal as it prints.
pub fn made<T: Debug + Drop, E: Display + Drop>(
    rt: &Runner,
    answer: Result<T, E>,
) -> Result<String, Failure> {
    rt.end();
    match answer {
        Ok(value) => written(rt, value),
        Err(error) => shown(rt, &error),
    }
}

/// The text that was answered, or a refusal as it prints.
pub fn text<E: Display + Drop>(rt: &Runner, answer: Result<String, E>) -> Result<String, Failure> {
    rt.end();
    match answer {
        Ok(text) => Ok(text),
        Err(error) => shown(rt, &error),
    }
}

/// A value as a source would write it.
pub fn written<T: Debug + Drop>(rt: &Runner, value: T) -> Result<String, Failure> {
    rt.end();
    Ok(format!(in rt.alloc(); "{value:?}")?)
}

/// A variant that has no more than a text, and the text.
pub fn variant<T: Debug>(rt: &Runner, value: &T) -> Result<String, Failure> {
    let text = written(rt, value)?;
    let text = text.replace(rt.alloc(), "(\"", " ")?;
    Ok(text.replace(rt.alloc(), "\")", "")?)
}
