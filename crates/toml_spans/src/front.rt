//! The place after a front of a text.

ghost use Rattle.std.specs.Prelude.{◌≡◌, ◌<◌, ◌^◌};
ghost use Rattle.toml_spans.specs.Front.{column_after};
ghost use Rattle.toml_spans.specs.Place.{IsColumn, IsPlace};

use crate::line::line_after;
use crate::place::Place;

/// The place of what comes after this front of a text.
pub fn place_after(front: &[u8]) -> Place
    ensures { IsPlace front.now result }
{
    Place {
        line: line_after(front),
        column: column_of_front(front),
    }
}

// The column, from 1, of what comes after this front of a text.
fn column_of_front(front: &[u8]) -> usize
    ensures { IsColumn front.now result }
{
    let mut column = 1;
    for byte in front {
        column = column_after(column, *byte);
    }
    column
}

// The column after one byte more.
fn column_after(column: usize, byte: u8) -> usize
    requires { column < 2 ^ 63 }
    ensures { result ≡ column_after column byte }
{
    if byte == b'\n' {
        1
    } else if byte < 128 || byte >= 192 {
        column + 1
    } else {
        column
    }
}
