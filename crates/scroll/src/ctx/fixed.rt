// Types of a fixed size. A type describes itself once, by [`Fixed`] or by [`Record`], and the
// traits of contexts follow.
ghost use Rattle.std.specs.Prelude.{◌≡◌, ◌≤◌, ◌<◌, ◌+◌, ◌*◌, ◌^◌, ◌++◌, ℕ, List, IfSome, length, take, drop, refl};
ghost use Rattle.std.proofs.Common.{rules, arith, length-drop};
ghost use Rattle.std.proofs.lemmas.List.Elements.{All-drop};
ghost use Rattle.std.specs.List.{All, flat_map};
ghost use Rattle.scroll.specs.Arrays.{MakesArray};
ghost use Rattle.scroll.specs.Bytes.{ReadsFixed, RefusesShort, WritesPrefix, FailsShort};
ghost use Rattle.scroll.specs.Fixed.{One, SameAt};
ghost use Rattle.scroll.specs.lemmas.FixedLemmas.{record-one};
ghost use Rattle.scroll.specs.lemmas.Frames.{drop-prefix, drop-written};
ghost use Rattle.scroll.specs.declared.endian.Endian.{Endian};

mod arrays;

use crate::ctx::{FromCtx, IntoCtx, SizeWith, TryFromCtx, TryIntoCtx};
use crate::endian::Endian;
use crate::error::{Error, Result, check_room};

/// A type whose values all have the same number of bytes: a number, a tuple or an array of such
/// types, or a struct of them.
///
/// For a struct implement [`Record`]. An implementation of this trait says the bytes of a value and
/// the value of bytes, in a byte order, and proves that what was written reads back.
pub trait Fixed: Copy {
    // How many bytes a value has.
    ghost width: { ℕ };

    // The bytes of a value.
    ghost bytes: { Endian → Self → List ℕ };

    // Holds of a source, an offset in it, and the value that the bytes there make.
    ghost makes: { Endian → List ℕ → ℕ → Self → Type 0 };

    // Holds of each value of the type, since a law may be applied to any number.
    ghost fits: { Self → Type 0 };

    /// Returns how many bytes a value has.
    fn width() -> usize
        requires { width < 2 ^ 64 }
        ensures { result ≡ width };

    /// Returns the value at `offset` of `from`, which has the bytes.
    fn read_at(from: &[u8], offset: usize, order: Endian) -> Self
        requires { offset + width ≤ length from.now }
        ensures { makes order from.now offset result };

    /// Writes the bytes to the start of `dst`, which has room for them. The bytes after them are
    /// unchanged.
    fn write_prefix(self, dst: &mut [u8], order: Endian)
        requires { width ≤ length dst.old }
        ensures { dst.new ≡ bytes order self ++ drop width dst.old };

    /// Returns the `count` values at the start of `from`, which has their bytes, where they lie, or
    /// `None`: then an array of them is read value by value, and otherwise by one copy, as of `u8`.
    fn as_values(from: &[u8], count: usize, order: Endian) -> Option<&[Self]>
        requires { width * count ≤ length from.now }
        ensures { IfSome result (λ values.
            MakesArray width (λ s x. makes order s 0 x) count from.now values.now) }
    {
        None
    }

    /// Returns the bytes of the values, one after another, where the values lie, or `None`: then an
    /// array of them is written value by value, and otherwise by one copy, as of `u8`.
    fn as_bytes(values: &[Self], order: Endian) -> Option<&[u8]>
        ensures { IfSome result (λ all. all.now ≡ flat_map (bytes order) values.now) }
    {
        None
    }

    // There are as many bytes as the width says.
    ghost bytes_len: { (order : Endian) (x : Self) → length (bytes order x) ≡ width };

    // What was written reads back, whatever stands before and after it.
    ghost back: { (order : Endian) (x : Self) (prefix rest : List ℕ) → fits x
        → makes order (prefix ++ (bytes order x ++ rest)) (length prefix) x };

    // Each value that bytes make fits.
    ghost made_fits: { (order : Endian) (s : List ℕ) (at : ℕ) (x : Self) → All (λ b. b < 256) s
        → makes order s at x → fits x };

    // A source makes one value at each offset.
    ghost one: { (order : Endian) (s : List ℕ) (at : ℕ) → One (makes order s at) };

    // The value depends on its own bytes alone.
    ghost local: { (order : Endian) (s : List ℕ) (at : ℕ) (t : List ℕ) (to : ℕ) (x : Self)
        → SameAt width s at t to → makes order s at x → makes order t to x };
}

/// A type of a fixed size that is written back byte for byte as it was read: each but floats, and
/// structs with floats.
pub trait RoundTrip: Fixed {
    // The bytes of a value are those of which it was made.
    ghost kept: { (order : Endian) (s : List ℕ) (at : ℕ) (x : Self) → All (λ b. b < 256) s
        → at + Self.Fixed.width ≤ length s → Self.Fixed.makes order s at x
        → Self.Fixed.bytes order x ≡ take Self.Fixed.width (drop at s) };
}

/// A struct that is its fields, one after another in the order of its parts.
///
/// It then is [`Fixed`], and has the traits of contexts. `tools/derive` prints the implementation:
///
/// ```rust
/// impl Record for Format {
///     type Parts = (u16, u16, u32);
///
///     ghost parts_of = { λ x. (x.tag, x.channels, x.rate) };
///     ghost of_parts = { λ p. record { tag = p.0; channels = p.1; rate = p.2 } };
///     ghost fields_in = { λ order s x.
///         (x.tag ≡ number order 2 s)
///         × (x.channels ≡ number order 2 (drop 2 s))
///         × (x.rate ≡ number order 4 (drop 4 s)) };
///     ghost again = { λ x. refl };
///     ghost there = { λ p. refl };
///     ghost fields_of_parts = { λ order s x h. (h.0, h.1.0, h.1.1) };
///     ghost parts_of_fields = { λ order s x h. (h.0, (h.1, h.2)) };
///     ghost small = { Prim.search rules };
///
///     fn parts(self) -> (u16, u16, u32) {
///         (self.tag, self.channels, self.rate)
///     }
///
///     fn of_parts((tag, channels, rate): (u16, u16, u32)) -> Format {
///         Format { tag, channels, rate }
///     }
/// }
/// ```
pub trait Record: Copy {
    /// The types of the fields, in tuples of two to four, nested where there are more.
    type Parts: Fixed;

    // The fields of a struct, and the struct of these fields.
    ghost parts_of: { Self → Self.Parts };

    ghost of_parts: { Self.Parts → Self };

    // The parts are all that a struct has.
    ghost again: { (x : Self) → of_parts (parts_of x) ≡ x };

    // Holds of a source and the struct that its prefix makes, said field by field.
    ghost fields_in: { Endian → List ℕ → Self → Type 0 };

    /// Returns the fields.
    fn parts(self) -> Self::Parts
        ensures { result ≡ parts_of self };

    /// Returns the struct that has these fields.
    fn of_parts(parts: Self::Parts) -> Self
        ensures { result ≡ of_parts parts };

    // No part is left out.
    ghost there: { (p : Self.Parts) → parts_of (of_parts p) ≡ p };

    // What the parts are made of is what is said of the fields, and nothing else.
    ghost fields_of_parts: { (order : Endian) (s : List ℕ) (x : Self)
        → Self.Parts.makes order s 0 (parts_of x) → fields_in order s x };

    ghost parts_of_fields: { (order : Endian) (s : List ℕ) (x : Self) → fields_in order s x
        → Self.Parts.makes order s 0 (parts_of x) };

    // The number of bytes fits into a `usize`.
    ghost small: { Self.Parts.width < 2 ^ 64 };
}

impl<R: Record> Fixed for R {
    ghost width = { R.Parts.width };

    ghost bytes = { λ order x. R.Parts.bytes order (R.parts_of x) };

    ghost makes = { λ order s at x. R.fields_in order (drop at s) x };

    ghost fits = { λ x. R.Parts.fits (R.parts_of x) };

    ghost bytes_len = { λ order x. R.Parts.bytes_len order (R.parts_of x) };

    ghost back = { λ order x prefix rest h.
        let parts = R.parts_of x in
        let all = prefix ++ (R.Parts.bytes order parts ++ rest) in
        R.fields_of_parts order (drop (length prefix) all) x
        (R.Parts.local order all (length prefix) (drop (length prefix) all) 0 parts refl
        (R.Parts.back order parts prefix rest h)) };

    ghost made_fits = { λ order s at x all h.
        R.Parts.made_fits order (drop at s) 0 (R.parts_of x) (All-drop (λ b. b < 256) at s all)
        (R.parts_of_fields order (drop at s) x h) };

    ghost one = { λ order s at.
        record-one R.parts_of R.of_parts R.again R.there (R.Parts.one order (drop at s) 0)
        (R.fields_of_parts order (drop at s)) (R.parts_of_fields order (drop at s)) };

    ghost local = { λ order s at t to x same h.
        R.fields_of_parts order (drop to t) x
        (R.Parts.local order (drop at s) 0 (drop to t) 0 (R.parts_of x) same
        (R.parts_of_fields order (drop at s) x h)) };

    fn width() -> usize {
        R::Parts::width()
    }

    #[inline(always)]
    fn read_at(from: &[u8], offset: usize, order: Endian) -> R {
        read_parts(from, offset, order)
    }

    #[inline(always)]
    fn write_prefix(self, dst: &mut [u8], order: Endian) {
        self.parts().write_prefix(dst, order)
    }
}

impl<R: Record> RoundTrip for R
where
    R::Parts: RoundTrip,
{
    ghost kept = { λ order s at x all room h.
        R.Parts.kept order (drop at s) 0 (R.parts_of x) (All-drop (λ b. b < 256) at s all)
        (omega (arith, room, length-drop at s)) (R.parts_of_fields order (drop at s) x h) };
}

// Returns the struct at an offset, by its parts.
#[inline(always)]
fn read_parts<R: Record>(from: &[u8], offset: usize, order: Endian) -> R
    requires { offset + R.Parts.width ≤ length from.now }
    ensures { R.Parts.makes order (drop offset from.now) 0 (R.parts_of result) }
{
    R::of_parts(R::Parts::read_at(from, offset, order))
}

/// Marks the types that have the traits of contexts by [`Fixed`]: numbers and structs. Arrays have
/// their own implementations, for elements of any size.
pub trait Plain: Fixed {
    // The number of bytes fits into a `usize`.
    ghost small: { Self.width < 2 ^ 64 };
}

impl<R: Record> Plain for R {
    ghost small = { R.small };
}

/// What is written as a value of a fixed size: the value, or a reference to it.
pub trait Written: Copy {
    /// The type of the value.
    type Value: Plain;

    // The value.
    ghost value_of: { Self → Self.Value };

    /// Returns the value.
    fn value(self) -> Self::Value
        ensures { result ≡ value_of self };
}

impl<P: Plain> Written for P {
    type Value = P;

    ghost value_of = { λ x. x };

    #[inline(always)]
    fn value(self) -> P {
        self
    }
}

impl<P: Plain> FromCtx<Endian> for P {
    ghost need = { λ _. P.width };

    ghost makes = { λ order source. P.makes order source 0 };

    fn from_ctx(this: &[u8], ctx: Endian) -> P {
        P::read_at(this, 0, ctx)
    }
}

/// Reads a value in a byte order. A shorter source returns [`Error::TooBig`] with the value's width
/// and its own length. The bits of any NaN are read as a NaN.
///
/// ```rust
/// let bytes: &[u8] = &[0, 1, 2, 3, 0x80, 0, 0xfe];
/// assert_eq!(rt; bytes.pread_with::<u32>(0, LE)?, 50462976);
/// assert_eq!(rt; bytes.pread_with::<u32>(0, BE)?, 66051);
/// assert_eq!(rt; bytes.pread_with::<i16>(4, BE)?, -32768);
/// assert_eq!(rt; bytes.pread_with::<i16>(4, LE)?, 128);
/// assert_eq!(rt; bytes.pread_with::<i8>(6, LE)?, -2);
/// let short = bytes[4..].pread_with::<u32>(0, LE);
/// assert!(rt; matches!(short, Err(Error::TooBig { size: 4, len: 3 })));
/// let ones = [0xffu8; 16];
/// assert_eq!(rt; ones[..].pread_with::<u128>(0, BE)?, 340282366920938463463374607431768211455);
/// assert_eq!(rt; ones[..].pread_with::<i128>(0, BE)?, -1);
///
/// let floats: &[u8] = &[0x3f, 0xc0, 0, 0, 0x3f, 0xb9, 0x99, 0x99, 0x99, 0x99, 0x99, 0x9a];
/// assert!(rt; floats.pread_with::<f32>(0, BE)? == 1.5);
/// assert!(rt; floats.pread_with::<f64>(4, BE)? == 0.1);
/// ```
impl<'a, P: Plain> TryFromCtx<'a, Endian> for P {
    type Error = Error;

    ghost reads = { λ order. ReadsFixed P.width (λ source. P.makes order source 0) };

    ghost refuses = { λ _. RefusesShort P.width };

    ghost reads_bounded = { λ order source x n h. Prim.search rules };

    fn try_from_ctx(from: &'a [u8], ctx: Endian) -> Result<(P, usize)> {
        check_room(P::width(), from.len())?;
        Ok((P::read_at(from, 0, ctx), P::width()))
    }
}

impl<W: Written> IntoCtx<Endian> for W {
    ghost need = { λ _. W.Value.width };

    ghost overwrites = { λ order x old new.
        new ≡ W.Value.bytes order (W.value_of x) ++ drop W.Value.width old };

    ghost overwrites_keeps = { λ order x old new h.
        drop-prefix W.Value.width _ old new (W.Value.bytes_len order (W.value_of x)) h };

    fn into_ctx(self, dst: &mut [u8], ctx: Endian) {
        self.value().write_prefix(dst, ctx)
    }
}

/// Writes a value in a byte order. A shorter target returns [`Error::TooBig`] with the value's
/// width and its own length, and is unchanged. A NaN is written as the quiet NaN with no sign and
/// no payload.
///
/// ```rust
/// let mut bytes = [0xffu8; 3];
/// let mut target = &mut bytes[..];
/// assert_eq!(rt; target.pwrite_with(12345u16, 0, LE)?, 2);
/// assert_eq!(rt; bytes, [0x39, 0x30, 0xff]);
/// let mut target = &mut bytes[..];
/// assert_eq!(rt; target.pwrite_with(-2i16, 0, BE)?, 2);
/// assert_eq!(rt; bytes, [0xff, 0xfe, 0xff]);
/// let mut target = &mut bytes[..];
/// let short = target.pwrite_with(0u32, 0, LE);
/// assert!(rt; matches!(short, Err(Error::TooBig { size: 4, len: 3 })));
/// assert_eq!(rt; bytes, [0xff, 0xfe, 0xff]);
///
/// let mut bytes = [0u8; 4];
/// let mut target = &mut bytes[..];
/// assert_eq!(rt; target.pwrite_with(&258u16, 0, BE)?, 2);
/// assert_eq!(rt; bytes, [1, 2, 0, 0]);
/// let mut target = &mut bytes[..];
/// target.pwrite_with(1.5f32, 0, LE)?;
/// assert_eq!(rt; bytes, [0, 0, 0xc0, 0x3f]);
/// let nan = [0xffu8, 0xa0, 0, 1];
/// let nan = nan[..].pread_with::<f32>(0, BE)?;
/// let mut target = &mut bytes[..];
/// target.pwrite_with(nan, 0, BE)?;
/// assert_eq!(rt; bytes, [0x7f, 0xc0, 0, 0]);
/// ```
impl<W: Written> TryIntoCtx<Endian> for W {
    type Error = Error;

    ghost writes = { λ order x. WritesPrefix W.Value.width (W.Value.bytes order (W.value_of x)) };

    ghost refuses = { λ _ _. FailsShort W.Value.width };

    ghost writes_bounded = { λ order x old new n h. Prim.search rules };

    ghost writes_keeps = { λ order x old new n h.
        drop-written (W.Value.bytes_len order (W.value_of x)) h };

    fn try_into_ctx(self, dst: &mut [u8], ctx: Endian) -> Result<usize> {
        check_room(W::Value::width(), dst.len())?;
        self.into_ctx(dst, ctx);
        Ok(W::Value::width())
    }
}

impl<P: Plain> SizeWith<Endian> for P {
    ghost size = { λ _. P.width };

    fn size_with(_ctx: &Endian) -> usize {
        P::width()
    }
}

impl<P: Plain> SizeWith<()> for P {
    ghost size = { λ _. P.width };

    fn size_with(_ctx: &()) -> usize {
        P::width()
    }
}
