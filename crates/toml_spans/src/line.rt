//! The line after a front of a text.

ghost use Rattle.std.specs.Prelude.{◌≡◌};
ghost use Rattle.toml_spans.specs.Line.{line_after};

/// The number of the line, from 1, that goes on after this front of a text.
pub fn line_after(front: &[u8]) -> usize
    ensures { result ≡ line_after front.now }
{
    front.iter().filter(|byte| **byte == b'\n').count() + 1
}
