//! What was read of parts of a list, joined in the order of the parts.

ghost use Rattle.std.specs.Prelude.{◌≡◌, ◌++◌, ◌^◌, ◌<◌, IfErr, IfOk, length, map, OnErr, OnOk};
ghost use Rattle.std.specs.List.{AllByRecursion};
ghost use Rattle.std.specs.Mem.{FitsInMemory};
ghost use Rattle.nextest_config.specs.Merge.{FitsShifted, HavePieces, IsJoinOfPieces, IsMonoid, IsReadingOne, IsRefusalOfOne, IsRefusalOfPieces, shifted, total};
ghost use Rattle.nextest_config.specs.declared.merge.PieceRefusal.TheVariants.{Memory};

use std::alloc::{AllocError, Global};
use std::fmt::Display;
use std::slice;
use thiserror::Error;

/// Values of which two in a row can be joined into one.
pub trait Merge {
    ghost Seen: { Type 0 };

    ghost seen: { Self → Seen };

    ghost join: { Seen → Seen → Seen };

    ghost neutral: { Seen };

    /// Joins with a later value, which is left neutral.
    ///
    /// # Errors
    ///
    /// A request for memory was refused. Both values are as they were.
    fn merge(&mut self, later: &mut Self) -> Result<(), AllocError>
        ensures joined { OnOk result (seen self.new ≡ join (seen self.old) (seen later.old)) }
        ensures emptied { OnOk result (seen later.new ≡ neutral) }
        ensures unchanged { OnErr result (seen self.new ≡ seen self.old) }
        ensures later_unchanged { OnErr result (seen later.new ≡ seen later.old) };

    ghost laws: { IsMonoid join neutral };
}

/// Joins a value with all pieces, in their order. Each piece is left neutral.
///
/// # Errors
///
/// A request for memory was refused. The join of the value and the pieces is what it was, so
/// calling again goes on where this call stopped.
pub fn merge_all<T: Merge>(into: &mut T, pieces: &mut [T]) -> Result<(), AllocError>
    ensures joined { OnOk result (T.seen into.new
        ≡ T.join (T.seen into.old) (total T.join T.neutral (map T.seen pieces.old))) }
    ensures emptied { OnOk result (AllByRecursion (λ piece. T.seen piece ≡ T.neutral) pieces.new) }
    ensures kept { OnErr result
        (T.join (T.seen into.new) (total T.join T.neutral (map T.seen pieces.new))
        ≡ T.join (T.seen into.old) (total T.join T.neutral (map T.seen pieces.old))) }
{
    for piece in pieces.iter_mut() {
        into.merge(piece)?;
    }
    Ok(())
}

/// Why the pieces of sources weren't read.
#[derive(Debug, PartialEq, Eq, Drop, Error)]
#[error_bound(E: Display)]
pub enum PieceRefusal<E> {
    /// The source at this position, counted from 0, is the first one that is refused.
    #[error("source {position}: {error}")]
    Refused { position: usize, error: E },
    /// A request for memory was refused.
    #[error("out of memory")]
    Memory,
}

impl<E> From<AllocError> for PieceRefusal<E> {
    ghost from_gives = { λ _ refusal. refusal ≡ Memory };

    fn from(_error: AllocError) -> PieceRefusal<E> {
        PieceRefusal::Memory
    }
}

impl<E> PieceRefusal<E> {
    // The refusal as it is told where so many sources more stand in front of the list.
    fn shift(self, front: usize) -> Self
        requires { FitsShifted front self }
        ensures { result ≡ shifted front self }
    {
        match self {
            PieceRefusal::Refused { position, error } => PieceRefusal::Refused {
                position: front + position,
                error,
            },
            PieceRefusal::Memory => PieceRefusal::Memory,
        }
    }
}

/// Values that are read as pieces, one of each source, and joined in the order of the sources.
pub trait ReadPiece: Merge {
    /// What a piece is read of.
    type Source;

    /// What is wrong with a source that has no piece.
    type Error;

    /// What all sources are read under.
    type Context;

    ghost Told: { Type 0 };

    ghost told: { Self.Error → Told };

    ghost piece: { Self.Context → Self.Source → Self → Type 0 };

    ghost wrong: { Self.Context → Self.Source → Told → Type 0 };

    /// The piece of no source. It takes no memory.
    fn neutral(alloc: Global) -> Self
        ensures { Self.seen result ≡ Self.Merge.neutral };

    /// The piece of a source.
    ///
    /// # Errors
    ///
    /// The source has none, and is refused at position 0; or a request for memory was refused.
    fn read_one(
        alloc: Global,
        context: &Self::Context,
        source: &Self::Source,
    ) -> Result<Self, PieceRefusal<Self::Error>>
        ensures read { IfOk result (λ it. piece context.now source.now it) }
        ensures refused { IfErr result (IsRefusalOfOne told (wrong context.now) source.now) };

    ghost reads_one: { (context : Self.Context)
        → IsReadingOne Self.seen (piece context) (wrong context) };

    // As every type's is; but nothing says so of a type parameter.
    ghost size_in_range: { FitsInMemory Self.row };
}

// So few sources are read one after the other.
const FEW: usize = 16;

/// Reads the sources, each half for itself, and joins what was read.
///
/// # Errors
///
/// The first source that has no piece is refused; or a request for memory was refused.
#[cycle(read_halves)]
pub fn read_halves<T: ReadPiece + Drop>(
    alloc: Global,
    context: &T::Context,
    sources: &[T::Source],
) -> Result<T, PieceRefusal<T::Error>>
    ensures joined { IfOk result (λ it. IsJoinOfPieces
        T.join T.Merge.neutral T.seen (T.piece context.now) sources.now (T.seen it)) }
    ensures only { HavePieces (T.piece context.now) sources.now
        → IfErr result (λ refusal. refusal ≡ Memory) }
    ensures refused { IfErr result (IsRefusalOfPieces
        T.told (T.piece context.now) (T.wrong context.now) sources.now) }
{
    if sources.len() <= FEW {
        return read_few(alloc, context, sources);
    }
    let (first, second) = sources.split_at(sources.len() / 2);
    read_both(alloc, context, first, second)
}

// Reads the sources one after the other, and joins what was read.
fn read_few<T: ReadPiece + Drop>(
    alloc: Global,
    context: &T::Context,
    sources: &[T::Source],
) -> Result<T, PieceRefusal<T::Error>>
    ensures joined { IfOk result (λ it. IsJoinOfPieces
        T.join T.Merge.neutral T.seen (T.piece context.now) sources.now (T.seen it)) }
    ensures refused { IfErr result (IsRefusalOfPieces
        T.told (T.piece context.now) (T.wrong context.now) sources.now) }
{
    let mut piece = T::neutral(alloc);
    for (position, source) in sources.iter().enumerate() {
        match T::read_one(alloc, context, source) {
            Ok(mut later) => piece.merge(&mut later)?,
            Err(refusal) => return Err(refusal.shift(position)),
        }
    }
    Ok(piece)
}

// Reads both halves, and joins what was read.
#[cycle(read_halves)]
fn read_both<T: ReadPiece + Drop>(
    alloc: Global,
    context: &T::Context,
    first: &[T::Source],
    second: &[T::Source],
) -> Result<T, PieceRefusal<T::Error>>
    requires shorter { (0 < length first.now) × (0 < length second.now) }
    requires small { length (first.now ++ second.now) < 2 ^ 64 }
    ensures joined { IfOk result (λ it. IsJoinOfPieces
        T.join T.Merge.neutral T.seen (T.piece context.now) (first.now ++ second.now) (T.seen it)) }
    ensures refused { IfErr result (IsRefusalOfPieces
        T.told (T.piece context.now) (T.wrong context.now) (first.now ++ second.now)) }
{
    let mut piece = match read_halves::<T>(alloc, context, first) {
        Ok(piece) => piece,
        Err(refusal) => return Err(refusal),
    };
    match read_halves::<T>(alloc, context, second) {
        Ok(mut later) => {
            merge_all(&mut piece, slice::from_mut(&mut later))?;
            Ok(piece)
        }
        Err(refusal) => Err(refusal.shift(first.len())),
    }
}
