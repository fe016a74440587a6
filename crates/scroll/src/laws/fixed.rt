// Laws of types of a fixed size.
ghost use Rattle.std.specs.Prelude.{◌≡◌, ◌<◌, ◌++◌, ◌∷◌, [], ℕ, List, take, drop};
ghost use Rattle.std.specs.List.{All};
ghost use Rattle.scroll.specs.Bytes.{ReadsFixed, RefusesShort, WritesPrefix, FailsShort};
ghost use Rattle.scroll.specs.Laws.{IsReaderWithin};
ghost use Rattle.scroll.specs.History.{HasLeaves};
ghost use Rattle.scroll.specs.declared.endian.Endian.{Endian};

use crate::ctx::{Fixed, Plain, RoundTrip, SizeWith};
use crate::endian::Endian;

/// A value of a fixed size that was written in a byte order reads back in it, if it `fits`, as each
/// value that was read does; and the bytes after it are unchanged. A read depends on the value's
/// own bytes alone, its size is at most the length of the source, and at each offset there is
/// exactly one result. What is written is one leaf.
///
/// This holds for every type that is [`Fixed`]: numbers, floats, tuples and arrays of them, and
/// each struct that is a [`Record`](crate::ctx::Record).
pub fn fixed_size_is_kept<F: Fixed>()
    ensures again { (order : Endian) (x : F) (old new : List ℕ) (n : ℕ) → F.fits x
        → WritesPrefix F.width (F.bytes order x) old new n
        → ReadsFixed F.width (λ s. F.makes order s 0) new x n }
    ensures fits { (order : Endian) (source : List ℕ) (x : F) (n : ℕ) → All (λ b. b < 256) source
        → ReadsFixed F.width (λ s. F.makes order s 0) source x n → F.fits x }
    ensures others { (order : Endian) (x : F) (old new : List ℕ) (n : ℕ)
        → WritesPrefix F.width (F.bytes order x) old new n → drop F.width new ≡ drop F.width old }
    ensures reader { (order : Endian)
        → IsReaderWithin (ReadsFixed F.width (λ s. F.makes order s 0)) (RefusesShort F.width) }
    ensures leaf { (order : Endian) → HasLeaves (λ x. F.bytes order x ∷ [])
        (λ x. WritesPrefix F.width (F.bytes order x)) (λ _. FailsShort F.width) }
{}

/// A value that was read is written back byte for byte, and no other bytes of its width read as
/// this value.
///
/// This holds for every type that is [`RoundTrip`]: all that are of a fixed size and have no float.
pub fn fixed_size_is_written_back<F: RoundTrip>()
    ensures back { (order : Endian) (source old new : List ℕ) (x : F) (m n : ℕ)
        → All (λ b. b < 256) source
        → ReadsFixed F.width (λ s. F.makes order s 0) source x n
        → WritesPrefix F.width (F.bytes order x) old new m
        → (m ≡ n) × (new ≡ take n source ++ drop n old) }
    ensures only { (order : Endian) (source : List ℕ) (x : F) (n : ℕ) → All (λ b. b < 256) source
        → ReadsFixed F.width (λ s. F.makes order s 0) source x n → take n source ≡ F.bytes order x }
{}

/// The size of a type by [`SizeWith`], in a byte order and in `()`, is the size of every read and
/// of every write.
pub fn size_is_that_of_reads_and_writes<F: Plain>(order: &Endian) -> (usize, usize)
    ensures reads { (s : List ℕ) (x : F) (n : ℕ)
        → ReadsFixed F.width (λ s. F.makes order.now s 0) s x n → (n ≡ result.0) × (n ≡ result.1) }
    ensures writes { (x : F) (old new : List ℕ) (n : ℕ)
        → WritesPrefix F.width (F.bytes order.now x) old new n → (n ≡ result.0) × (n ≡ result.1) }
{
    (F::size_with(order), F::size_with(&()))
}
