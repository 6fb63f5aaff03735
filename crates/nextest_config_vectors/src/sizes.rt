//! Rows that grow: at each of some sizes.

use crate::failure::Failure;
use std::alloc::Global;

/// The sizes of a row unless its table says others: every small one, and those around the powers of
/// two that follow.
pub const USUAL: &str =
    "0..130 255..257 511..513 1023..1025 2047..2049 4095..4097 8191..8193 16383..16385";

/// The sizes from the first to the last.
#[derive(Clone, Copy)]
pub struct Range {
    pub first: usize,
    pub last: usize,
}

/// The ranges that a text writes, each as `FIRST..LAST` or as its only size, with spaces between.
pub fn ranges_of(alloc: Global, text: &str) -> Result<Vec<Range>, Failure> {
    let mut ranges = Vec::new(alloc);
    for word in text.split(' ') {
        let (first, last) = word.split_once("..").unwrap_or((word, word));
        ranges.push(Range {
            first: size_of(first)?,
            last: size_of(last)?,
        })?;
    }
    Ok(ranges)
}

fn size_of(word: &str) -> Result<usize, Failure> {
    word.parse()
        .map_err(|_| Failure::Unreadable("a size isn't a number"))
}

/// Whether a text has pieces that grow.
pub fn grows(text: &str) -> bool {
    text.contains('«')
}

/// The text at a size: with each `«PIECE»` that many times. A `@` in a piece is its number, in five
/// digits. `«#»` is the size.
pub fn grown(alloc: Global, text: &str, size: usize) -> Result<String, Failure> {
    let mut made = String::new(alloc);
    for part in text.split('«') {
        grow(&mut made, part, size)?;
    }
    Ok(made)
}

fn grow(text: &mut String, part: &str, size: usize) -> Result<(), Failure> {
    match part.split_once('»') {
        Some(("#", rest)) => Ok(write!(text, "{size}{rest}")?),
        Some((piece, rest)) => {
            repeat(text, piece, size)?;
            Ok(text.push_str(rest)?)
        }
        None => Ok(text.push_str(part)?),
    }
}

fn repeat(text: &mut String, piece: &str, size: usize) -> Result<(), Failure> {
    for number in 10000..size.saturating_add(10000) {
        match piece.split_once('@') {
            Some((left, right)) => write!(text, "{left}{number}{right}")?,
            None => text.push_str(piece)?,
        }
    }
    Ok(())
}
