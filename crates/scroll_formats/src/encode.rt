// Values that are written one after another, each with a number of bytes of its own.
ghost use Rattle.std.specs.Prelude.{◌≡◌, ◌≤◌, ◌+◌, ◌-◌, ◌*◌, ◌^◌, ◌++◌, [], ◌∷◌, ℕ, List, length, take, drop, min};
ghost use Rattle.std.specs.CStr.{c_str_bytes};
ghost use Rattle.std.specs.List.{flat_map};
ghost use Rattle.scroll.specs.Fixed.{exactly};
ghost use Rattle.scroll.specs.Encoding.{leb_text};
ghost use Rattle.scroll.specs.declared.endian.Endian.{Endian};

use scroll::ctx::{Fixed, Plain, TryIntoCtx};
use scroll::{Endian, Leb128, LebNumber};
use std::ffi::CStr;

/// A value that is written as bytes, however many it has.
///
/// A tuple of two to four is its parts in order, as in `(a, b, c, (d, e))`. Slices, texts, arrays
/// and numbers in LEB128 are parts, and a value of a fixed size is one as [`Value`].
pub trait Encode: Copy {
    // The bytes of a value.
    ghost bytes: { Endian → Self → List ℕ };

    /// Returns how many bytes the value has, or the greatest `usize` if there are more.
    fn size(self, order: Endian) -> usize
        ensures { result ≡ min (length (bytes order self)) (2 ^ 64 - 1) };

    /// Writes the bytes to the start of `dst`, which has room for them. The bytes after them are
    /// unchanged.
    fn put(self, dst: &mut [u8], order: Endian)
        requires { length (bytes order self) ≤ length dst.old }
        ensures { dst.new ≡ bytes order self ++ drop (length (bytes order self)) dst.old };
}

/// A value of a fixed size as a part: a number or a struct of numbers.
#[derive(Clone, Copy, Debug, PartialEq, Eq)]
pub struct Value<P>(pub P);

impl<P: Plain> Encode for Value<P> {
    ghost bytes = { λ order x. P.bytes order x.0 };

    fn size(self, _order: Endian) -> usize {
        P::width()
    }

    #[inline(always)]
    fn put(self, dst: &mut [u8], order: Endian) {
        self.0.write_prefix(dst, order)
    }
}

impl<P: Plain, const N: usize> Encode for [P; N] {
    ghost bytes = { λ order xs. exactly (P.width * N) (flat_map (P.bytes order) xs) };

    fn size(self, _order: Endian) -> usize {
        P::width().saturating_mul(N)
    }

    #[inline(always)]
    fn put(self, dst: &mut [u8], order: Endian) {
        self.write_prefix(dst, order)
    }
}

impl<'s> Encode for &'s [u8] {
    ghost bytes = { λ _ slice. slice.now };

    fn size(self, _order: Endian) -> usize {
        self.len()
    }

    #[inline(always)]
    fn put(self, dst: &mut [u8], _order: Endian) {
        dst[..self.len()].copy_from_slice(self);
    }
}

impl<'s> Encode for &'s str {
    ghost bytes = { λ _ text. text.now };

    fn size(self, _order: Endian) -> usize {
        self.len()
    }

    #[inline(always)]
    fn put(self, dst: &mut [u8], _order: Endian) {
        dst[..self.len()].copy_from_slice(self.as_bytes());
    }
}

impl<'s> Encode for CStr<'s> {
    ghost bytes = { λ _ text. c_str_bytes text ++ 0 ∷ [] };

    fn size(self, _order: Endian) -> usize {
        self.to_bytes_with_nul().len()
    }

    #[inline(always)]
    fn put(self, dst: &mut [u8], order: Endian) {
        self.to_bytes_with_nul().put(dst, order)
    }
}

impl<V: LebNumber> Encode for Leb128<V> {
    ghost bytes = { λ _ x. leb_text V.form x };

    fn size(self, _order: Endian) -> usize {
        Leb128::size(&self)
    }

    #[inline(always)]
    fn put(self, dst: &mut [u8], _order: Endian) {
        match self.try_into_ctx(dst, ()) {
            Ok(_size) => (),
            Err(_short) => unreachable!(),
        }
    }
}

impl<A: Encode, B: Encode> Encode for (A, B) {
    ghost bytes = { λ order x. A.bytes order x.0 ++ B.bytes order x.1 };

    fn size(self, order: Endian) -> usize {
        self.0.size(order).saturating_add(self.1.size(order))
    }

    #[inline(always)]
    fn put(self, dst: &mut [u8], order: Endian) {
        let first = self.0.size(order);
        self.0.put(dst, order);
        put_behind(self.1, dst, first, order)
    }
}

// Writes the second part of a pair, after the `offset` bytes of the first.
#[inline(always)]
pub(crate) fn put_behind<B: Encode>(second: B, dst: &mut [u8], offset: usize, order: Endian)
    requires { offset + length (B.bytes order second) ≤ length dst.old }
    ensures before { take offset dst.new ≡ take offset dst.old }
    ensures after { drop offset dst.new
        ≡ B.bytes order second ++ drop (length (B.bytes order second)) (drop offset dst.old) }
{
    second.put(&mut dst[offset..], order)
}

impl<A: Encode, B: Encode, C: Encode> Encode for (A, B, C) {
    ghost bytes = { λ order x. A.bytes order x.0 ++ (B.bytes order x.1 ++ C.bytes order x.2) };

    fn size(self, order: Endian) -> usize {
        (self.0, (self.1, self.2)).size(order)
    }

    #[inline(always)]
    fn put(self, dst: &mut [u8], order: Endian) {
        (self.0, (self.1, self.2)).put(dst, order)
    }
}

impl<A: Encode, B: Encode, C: Encode, D: Encode> Encode for (A, B, C, D) {
    ghost bytes = { λ order x.
        A.bytes order x.0 ++ (B.bytes order x.1 ++ (C.bytes order x.2 ++ D.bytes order x.3)) };

    fn size(self, order: Endian) -> usize {
        (self.0, (self.1, (self.2, self.3))).size(order)
    }

    #[inline(always)]
    fn put(self, dst: &mut [u8], order: Endian) {
        (self.0, (self.1, (self.2, self.3))).put(dst, order)
    }
}
