//! Cuts of a dimension into pieces that follow one another.
ghost use Rattle.std.specs.Prelude.{ℕ, ◌≡◌, ◌+◌, ◌<◌, ◌≤◌};
ghost use Rattle.jd_array.specs.Cut.{piece_length, piece_start, HoldsIndex, IsCut};

/// A piece of a dimension: how many indexes lie before it, and how many it holds.
#[derive(Clone, Copy, Debug, PartialEq, Eq)]
pub struct Piece {
    pub start: u64,
    pub len: u64,
}

/// The piece of this number, from 0, where `size` indexes are cut into `pieces` pieces.
///
/// The first `size % pieces` pieces hold one index more than the rest, so where there are more pieces than indexes
/// the last ones are empty. Takes no memory. The rule is the default of the DistributedArrays documentation for
/// sizes that the pieces divide, and for the others this project's own.
pub fn cut(size: u64, pieces: u32, piece: u32) -> Piece
    requires { piece < pieces }
    ensures length { result.len ≡ piece_length size pieces piece }
    ensures start { result.start ≡ piece_start size pieces piece }
    ensures within { result.start + result.len ≤ size }
{
    let share = size / pieces as u64;
    let longer = size % pieces as u64;
    let before = piece as u64;
    let more = if before < longer { 1 } else { 0 };
    Piece {
        start: before * share + before.min(longer),
        len: share + more,
    }
}

/// The number of the piece that holds an index, both from 0. Takes no memory and a constant time.
pub fn piece_with(size: u64, pieces: u32, index: u64) -> u32
    requires pieces { 0 < pieces }
    requires inside { index < size }
    ensures piece { result < pieces }
    ensures holds { HoldsIndex size pieces result index }
{
    let share = size / pieces as u64;
    let longer = size % pieces as u64;
    let in_longer = longer * share + longer;
    if index < in_longer {
        return (index / (share + 1)) as u32;
    }
    (longer + (index - in_longer) / share) as u32
}

/// The law of cuts: the pieces are the whole, balanced, and hold each index once.
pub fn cut_is_partition(_size: u64, pieces: u32)
    requires { 0 < pieces }
    ensures { IsCut _size pieces }
{}
