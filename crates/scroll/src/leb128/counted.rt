// Numbers in LEB128 with the lengths of their encodings, unsigned and signed ones alike.
ghost use Rattle.std.specs.Prelude.{◌≡◌, ◌<◌, ◌^◌, ⊤, ℕ, List, All, take, IfOk, IfErr, OnOk, OnErr};
ghost use Rattle.std.proofs.Common.{rules};
ghost use Rattle.scroll.specs.Reads.{ReadsBetween, RefusesAt};
ghost use Rattle.scroll.specs.Errors.{IsBadOffset};
ghost use Rattle.scroll.specs.Leb128.{Counted, ReadsLeb, ReadsCounted, RefusesLeb};
ghost use Rattle.scroll.specs.Bytes.{FailsShort, WritesPrefix};
ghost use Rattle.scroll.specs.Encoding.{IsLeast, WritesLeb, encoding};
ghost use Rattle.scroll.specs.lemmas.Frames.{drop-written, length-encoding};

use crate::ctx::{TryFromCtx, TryIntoCtx};
use crate::error::{Error, Result};
use crate::loads::Loads;
use crate::pread::Pread;
use std::alloc::AllocError;
use std::fmt;
use std::fmt::{Debug, Formatter, Write};
use std::marker::Model;

/// A number that LEB128 encodes: a `u64`, or an `i64` in two's complement.
pub trait LebNumber: Copy {
    // The number of an encoding, and whether it fits into 64 bits.
    ghost value_of: { List ℕ → Self };

    ghost fits: { Self → Type 0 };

    // Whether a number has an encoding of so many bytes, and the unsigned number that these encode.
    ghost has: { Self → ℕ → Type 0 };

    ghost form: { Self → ℕ → ℕ };

    /// Returns the name of the type of such numbers.
    fn name() -> &'static str;

    /// Reads the number at the start of a source, and returns its value and its size in bytes.
    fn read(src: &mut Loads<'_>) -> Result<(Self, usize)>
        requires { src.old.made < 2 ^ 62 }
        ensures read { IfOk result (λ read. ReadsLeb value_of fits src.old.bytes read.0 read.1) }
        ensures spelled { IfOk result (λ read. has read.0 read.1) }
        ensures refused { IfErr result (RefusesLeb value_of fits src.old.bytes) };

    /// Returns the length of the shortest encoding.
    fn shortest(self) -> usize
        ensures { IsLeast (has self) result };

    /// Writes the encoding of `count` bytes to the start of a target, and returns `count`. A
    /// shorter target returns `TooBig`, and is unchanged.
    fn put(self, dst: &mut [u8], count: usize) -> Result<usize>
        requires spelled { has self count }
        ensures wrote { IfOk result
            (WritesPrefix count (encoding (form self count) count) dst.old dst.new) }
        ensures refused { IfErr result (FailsShort count dst.old dst.new) }
        ensures reads { OnOk result (ReadsLeb value_of fits dst.new self count) }
        ensures begins { OnOk result ((source : List ℕ) → All (λ b. b < 256) source
            → ReadsLeb value_of fits source self count → take count source ≡ take count dst.new) };
}

/// A number in LEB128, with the length of its encoding in bytes: a [`Uleb128`](super::Uleb128) or a
/// [`Sleb128`](super::Sleb128).
///
/// It is read and written in the context `()`. A source of fewer than ten bytes, none of which ends
/// the encoding, returns `TooBig { size: 1, len: 0 }`. If none of the first ten ends it, or the
/// value doesn't fit into 64 bits, the read returns `BadInput { size, msg: "failed to parse" }`
/// with the length of the source.
pub struct Leb128<V: LebNumber> {
    pub(super) value: V,
    pub(super) count: usize,
}

impl<V: LebNumber> Model for Leb128<V> {
    ghost Value = { Counted V };

    ghost view = { λ number. record { value = number.value; count = number.count } };

    ghost inverse = { λ number. record { value = number.value; count = number.count } };

    ghost invariant = { λ number. V.has number.value number.count };
}

impl<V: LebNumber> Copy for Leb128<V> {}

impl<V: LebNumber> Clone for Leb128<V> {
    ghost is_clone = { λ old new. new ≡ old };

    ghost is_infallible = { λ _. ⊤ };

    #[inline(always)]
    fn clone(&self) -> std::result::Result<Leb128<V>, AllocError> {
        Ok(*self)
    }
}

impl<V: LebNumber + Debug> Debug for Leb128<V> {
    fn fmt<W: Write>(&self, f: &mut Formatter<W>) -> fmt::Result {
        f.debug_struct(V::name())
            .field("value", &self.value)
            .field("count", &self.count)
            .finish()
    }
}

impl<V: LebNumber> Leb128<V> {
    /// Returns the number with its shortest encoding.
    ///
    /// ```rust
    /// let mut bytes = [0u8; 2];
    /// let mut target = &mut bytes[..];
    /// target.pwrite(Uleb128::shortest(300), 0)?;
    /// assert_eq!(rt; bytes, [0xac, 0x02]);
    /// ```
    #[inline(always)]
    pub fn shortest(value: V) -> Leb128<V>
        ensures value { result.value ≡ value }
        ensures least { IsLeast (V.has value) result.count }
    {
        Leb128 {
            value,
            count: value.shortest(),
        }
    }

    /// Returns the length of the encoding in bytes, from one to ten.
    #[inline(always)]
    pub fn size(&self) -> usize
        ensures size { result ≡ self.now.count }
        ensures spelled { V.has self.now.value self.now.count }
    {
        self.count
    }

    /// Reads the value at the cursor `offset`, and advances it past the encoding. On an error the
    /// cursor is unchanged.
    ///
    /// The errors are those of a read of a [`Leb128`], and `BadOffset(offset)` past the end.
    ///
    /// ```rust
    /// let bytes: [u8; 2] = [0x82, 0x01];
    /// let offset = &mut 0;
    /// assert_eq!(rt; Uleb128::read(&bytes, offset)?, 130);
    /// assert_eq!(rt; *offset, 2);
    /// ```
    #[inline(always)]
    pub fn read(bytes: &[u8], offset: &mut usize) -> Result<V>
        ensures read { IfOk result
            (ReadsBetween (ReadsLeb V.value_of V.fits) bytes.now offset.old offset.new) }
        ensures refused { IfErr result
            (RefusesAt (RefusesLeb V.value_of V.fits) IsBadOffset bytes.now offset.old) }
        ensures stays { OnErr result (offset.new ≡ offset.old) }
    {
        let number: Leb128<V> = bytes.gread_with(offset, ())?;
        Ok(number.value)
    }
}

impl<V: LebNumber> AsRef<V> for Leb128<V> {
    /// Borrows the value.
    #[inline(always)]
    fn as_ref(&self) -> &V
        ensures value { result.now ≡ self.now.value }
    {
        &self.value
    }
}

impl<'a, V: LebNumber> TryFromCtx<'a, ()> for Leb128<V> {
    type Error = Error;

    ghost reads = { λ _. ReadsCounted (ReadsLeb V.value_of V.fits) };

    ghost refuses = { λ _. RefusesLeb V.value_of V.fits };

    ghost reads_bounded = { λ _ source x n h. Prim.search rules };

    #[inline(always)]
    fn try_from_ctx(from: &'a [u8], _ctx: ()) -> Result<(Leb128<V>, usize)> {
        let (value, count) = V::read(&mut Loads::new(from))?;
        Ok((Leb128 { value, count }, count))
    }
}

impl<V: LebNumber> TryIntoCtx<()> for Leb128<V> {
    type Error = Error;

    ghost writes = { λ _. WritesLeb V.form };

    ghost refuses = { λ _ x. FailsShort x.count };

    ghost writes_bounded = { λ _ x old new n h. Prim.search rules };

    ghost writes_keeps = { λ _ x old new n h. drop-written (length-encoding _ x.count) h };

    /// Writes the encoding of [`size`](Leb128::size) bytes, and returns that size.
    ///
    /// The target then reads as this number, and every source that reads as this number starts with
    /// the bytes that were written. A shorter target returns `TooBig { size, len }`, with the
    /// lengths of both, and is unchanged.
    #[inline(always)]
    fn try_into_ctx(self, dst: &mut [u8], _ctx: ()) -> Result<usize>
        ensures wrote { IfOk result (WritesLeb V.form self dst.old dst.new) }
        ensures refused { IfErr result (FailsShort self.count dst.old dst.new) }
        ensures reads { OnOk result (ReadsLeb V.value_of V.fits dst.new self.value self.count) }
        ensures begins { OnOk result ((source : List ℕ) → All (λ b. b < 256) source
            → ReadsLeb V.value_of V.fits source self.value self.count
            → take self.count source ≡ take self.count dst.new) }
    {
        self.value.put(dst, self.count)
    }
}
