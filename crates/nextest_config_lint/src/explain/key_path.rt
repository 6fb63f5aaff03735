//! The paths of keys, as findings print them.

ghost use Rattle.std.specs.Prelude.{◌≡◌, ◌++◌, ◌==◌, [], IfOk, OnOk, map, option_map};
ghost use Rattle.std.specs.List.{slice_split};
ghost use Rattle.toml_spans.specs.Characters.{dot};
ghost use Rattle.nextest_config_elements.specs.Fields.{fields_view};
ghost use Rattle.nextest_config_lint.specs.Settings.{seen_field};
ghost use Rattle.nextest_config_lint.specs.Explain.KeyPath.{after, closes_index, if_outside, is_index, is_optional, key_along, key_at, key_by, opens_index, outside_quotes, path_pieces, with_dot, write_steps, writes_step};
ghost use Rattle.nextest_config_lint.specs.Explain.KnownKey.{keys_among, known_key, steps_to, table_step};
ghost use Rattle.nextest_config_lint.specs.declared.explain.key_path.Quoting.TheVariants.{Outside};

use crate::explain::known_key::{KnownKey, TableStep};
use nextest_config_elements::field::Field;
use nextest_config_elements::keys::{file_fields, profile_fields};
use std::alloc::{AllocError, Global};

/// Where a byte of a path stands.
#[derive(Clone, Copy)]
pub(crate) enum Quoting {
    Outside,
    /// Between single quotes.
    Literal,
    /// Between double quotes.
    Basic,
    /// Between double quotes, behind a backslash.
    Escaped,
}

/// The field of the key at a path as findings print it, from the top of a file or from a profile.
pub(crate) fn field_at(alloc: Global, path: &str) -> Result<Option<&'static Field>, AllocError>
    ensures { IfOk result (λ field.
        option_map (λ field. (seen_field field.now).0) field ≡ key_at path.now) }
{
    let outside = outside_quotes(alloc, path)?;
    let pieces = pieces(alloc, outside.as_slice())?;
    let field = field_by(alloc, pieces.as_slice())?;
    Ok(field)
}

// The field of the key to which the pieces lead.
fn field_by(alloc: Global, pieces: &[&[u8]]) -> Result<Option<&'static Field>, AllocError>
    ensures { IfOk result (λ field. option_map (λ field. (seen_field field.now).0) field
        ≡ key_by (map (λ piece. piece.now) pieces.now)) }
{
    let of_file = field_along(alloc, pieces, file_fields())?;
    let of_profile = field_along(alloc, pieces, profile_fields())?;
    Ok(of_file.or(of_profile))
}

// What stands outside of quotes, and the quote that opens each text between them.
fn outside_quotes(alloc: Global, path: &str) -> Result<Vec<u8>, AllocError>
    ensures { IfOk result (λ outside. outside.items ≡ outside_quotes Outside path.now) }
{
    let mut outside = Vec::new(alloc);
    let mut quoting = Quoting::Outside;
    for byte in path.as_bytes() {
        push_outside(&mut outside, quoting, *byte)?;
        quoting = quoting.after(*byte);
    }
    Ok(outside)
}

fn push_outside(outside: &mut Vec<u8>, quoting: Quoting, byte: u8) -> Result<(), AllocError>
    ensures { OnOk result (outside.new.items ≡ outside.old.items ++ if_outside quoting byte) }
{
    match quoting {
        Quoting::Outside => push_with_dot(outside, byte),
        Quoting::Literal | Quoting::Basic | Quoting::Escaped => Ok(()),
    }
}

// Adds a byte, with a dot before the bracket that opens an index.
fn push_with_dot(outside: &mut Vec<u8>, byte: u8) -> Result<(), AllocError>
    ensures { OnOk result (outside.new.items ≡ outside.old.items ++ with_dot byte) }
{
    if byte == b'[' {
        outside.push(b'.')?;
    }
    outside.push(byte)?;
    Ok(())
}

impl Quoting {
    // Where the byte behind this one stands.
    fn after(self, byte: u8) -> Quoting
        ensures { result ≡ after self byte }
    {
        match (self, byte) {
            (Quoting::Outside, b'\'') => Quoting::Literal,
            (Quoting::Outside, b'"') => Quoting::Basic,
            (Quoting::Literal, b'\'') => Quoting::Outside,
            (Quoting::Basic, b'"') => Quoting::Outside,
            (Quoting::Basic, b'\\') => Quoting::Escaped,
            (Quoting::Escaped, _) => Quoting::Basic,
            (quoting, _) => quoting,
        }
    }
}

// What stands between dots.
fn pieces(alloc: Global, outside: &[u8]) -> Result<Vec<&[u8]>, AllocError>
    ensures { IfOk result (λ pieces.
        map (λ piece. piece.now) pieces.items ≡ slice_split (λ b. b == dot) outside.now) }
{
    outside.split(|byte| *byte == b'.').collect(alloc)
}

// The field of the key to which the pieces lead from a table with these fields.
fn field_along(
    alloc: Global,
    pieces: &[&[u8]],
    fields: &'static [Field],
) -> Result<Option<&'static Field>, AllocError>
    ensures { IfOk result (λ field. option_map (λ field. (seen_field field.now).0) field
        ≡ key_along (map (λ piece. piece.now) pieces.now)
        (keys_among (fields_view fields.now) [])) }
{
    let known = KnownKey::all(alloc, fields)?;
    let field = first_along(alloc, pieces, known.as_slice())?;
    Ok(field)
}

// The field of the first of these keys to which the pieces lead.
fn first_along(
    alloc: Global,
    pieces: &[&[u8]],
    known: &[KnownKey],
) -> Result<Option<&'static Field>, AllocError>
    ensures { IfOk result (λ field. option_map (λ field. (seen_field field.now).0) field
        ≡ key_along (map (λ piece. piece.now) pieces.now) (map known_key known.now)) }
{
    for key in known {
        if lead_to(alloc, pieces, key)? {
            return Ok(Some(key.field));
        }
    }
    Ok(None)
}

// Whether the pieces lead to the key.
fn lead_to(alloc: Global, pieces: &[&[u8]], key: &KnownKey) -> Result<bool, AllocError>
    ensures { IfOk result (λ there. there
        ≡ write_steps (map (λ piece. piece.now) pieces.now) (steps_to (known_key key.now))) }
{
    let steps = key.steps(alloc)?;
    let there = write_steps(pieces, steps.as_slice());
    Ok(there)
}

// Whether the pieces write the steps, but for indexes that are left out.
fn write_steps(pieces: &[&[u8]], steps: &[TableStep]) -> bool
    ensures { result ≡ write_steps (map (λ piece. piece.now) pieces.now)
        (map table_step steps.now) }
{
    match steps {
        [] => pieces.is_empty(),
        [step, rest @ ..] => match pieces {
            [] => is_optional(step) && write_steps(pieces, rest),
            [piece, behind @ ..] => {
                if writes_step(step, piece) {
                    write_steps(behind, rest)
                } else {
                    is_optional(step) && write_steps(pieces, rest)
                }
            }
        },
    }
}

// Whether a path may leave the step out.
fn is_optional(step: &TableStep) -> bool
    ensures { result ≡ is_optional (table_step step.now) }
{
    match step {
        TableStep::Index => true,
        TableStep::Key(_) | TableStep::Name => false,
    }
}

fn writes_step(step: &TableStep, piece: &[u8]) -> bool
    ensures { result ≡ writes_step (table_step step.now) piece.now }
{
    match step {
        TableStep::Key(key) => piece == key.as_bytes(),
        TableStep::Name => !piece.is_empty() & !opens_index(piece),
        TableStep::Index => is_index(piece),
    }
}

// Whether the piece is an index between brackets, of which the number may be left out.
fn is_index(piece: &[u8]) -> bool
    ensures { result ≡ is_index piece.now }
{
    match piece {
        [] => false,
        [first, rest @ ..] => (*first == b'[') & closes_index(rest),
    }
}

fn opens_index(piece: &[u8]) -> bool
    ensures { result ≡ opens_index piece.now }
{
    match piece {
        [] => false,
        [first, ..] => *first == b'[',
    }
}

// Whether the text is an index, of which `N` stands for any number, and the bracket that closes it.
fn closes_index(text: &[u8]) -> bool
    ensures { result ≡ closes_index text.now }
{
    match text {
        [] => false,
        [last] => *last == b']',
        [first, rest @ ..] => (first.is_ascii_digit() | (*first == b'N')) && closes_index(rest),
    }
}
