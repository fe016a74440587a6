// The signed types, in two's complement: `i8`, `i16`, `i32`, `i64` and `i128`, each by the unsigned
// type of its width.
#![tactic(auto, unfolding(crate::specs::Numbers::signed_number))]

ghost use Rattle.std.specs.Prelude.{◌≡◌, ◌^◌, drop, pos, neg_ℤ, ◌≤ℤ◌, ◌<ℤ◌, ◌*ℤ◌};
ghost use Rattle.std.proofs.Common.{rules};
ghost use Rattle.scroll.specs.Numbers.{signed_number, signed_bytes};
ghost use Rattle.scroll.specs.lemmas.FixedLemmas.{one-value, signed-back-at, signed-local, signed-fits, signed-kept};
ghost use Rattle.scroll.specs.lemmas.Frames.{length-signed_bytes};

use crate::ctx::fixed::{Fixed, Plain, RoundTrip, Written};
use crate::endian::Endian;

impl Fixed for i8 {
    ghost width = { 1 };

    ghost bytes = { λ order x. signed_bytes order 1 x };

    ghost makes = { λ order s at x. x ≡ signed_number order 1 (drop at s) };

    ghost fits = { λ x. (neg_ℤ (pos (256 ^ 1)) ≤ℤ (pos 2 *ℤ x)) × ((pos 2 *ℤ x) <ℤ pos (256 ^ 1)) };

    ghost bytes_len = { λ order x. length-signed_bytes order 1 x };

    ghost back = { λ order x prefix rest h. signed-back-at order 1 x prefix rest h };

    ghost made_fits = { λ order s at x all h. signed-fits order 1 s at x all h };

    ghost one = { λ order s at. one-value (signed_number order 1 (drop at s)) };

    ghost local = { λ order s at t to x same h. signed-local order 1 s at t to x same h };

    fn width() -> usize {
        1
    }

    fn read_at(from: &[u8], offset: usize, order: Endian) -> i8 {
        u8::read_at(from, offset, order).cast_signed()
    }

    fn write_prefix(self, dst: &mut [u8], order: Endian) {
        self.cast_unsigned().write_prefix(dst, order)
    }
}

impl RoundTrip for i8 {
    ghost kept = { λ order s at x all room h. signed-kept order 1 s at x all room h };
}

impl Plain for i8 {
    ghost small = { Prim.search rules };
}

impl<'n> Written for &'n i8 {
    type Value = i8;

    ghost value_of = { λ x. x.now };

    #[inline(always)]
    fn value(self) -> i8 {
        *self
    }
}

impl Fixed for i16 {
    ghost width = { 2 };

    ghost bytes = { λ order x. signed_bytes order 2 x };

    ghost makes = { λ order s at x. x ≡ signed_number order 2 (drop at s) };

    ghost fits = { λ x. (neg_ℤ (pos (256 ^ 2)) ≤ℤ (pos 2 *ℤ x)) × ((pos 2 *ℤ x) <ℤ pos (256 ^ 2)) };

    ghost bytes_len = { λ order x. length-signed_bytes order 2 x };

    ghost back = { λ order x prefix rest h. signed-back-at order 2 x prefix rest h };

    ghost made_fits = { λ order s at x all h. signed-fits order 2 s at x all h };

    ghost one = { λ order s at. one-value (signed_number order 2 (drop at s)) };

    ghost local = { λ order s at t to x same h. signed-local order 2 s at t to x same h };

    fn width() -> usize {
        2
    }

    fn read_at(from: &[u8], offset: usize, order: Endian) -> i16 {
        u16::read_at(from, offset, order).cast_signed()
    }

    fn write_prefix(self, dst: &mut [u8], order: Endian) {
        self.cast_unsigned().write_prefix(dst, order)
    }
}

impl RoundTrip for i16 {
    ghost kept = { λ order s at x all room h. signed-kept order 2 s at x all room h };
}

impl Plain for i16 {
    ghost small = { Prim.search rules };
}

impl<'n> Written for &'n i16 {
    type Value = i16;

    ghost value_of = { λ x. x.now };

    #[inline(always)]
    fn value(self) -> i16 {
        *self
    }
}

impl Fixed for i32 {
    ghost width = { 4 };

    ghost bytes = { λ order x. signed_bytes order 4 x };

    ghost makes = { λ order s at x. x ≡ signed_number order 4 (drop at s) };

    ghost fits = { λ x. (neg_ℤ (pos (256 ^ 4)) ≤ℤ (pos 2 *ℤ x)) × ((pos 2 *ℤ x) <ℤ pos (256 ^ 4)) };

    ghost bytes_len = { λ order x. length-signed_bytes order 4 x };

    ghost back = { λ order x prefix rest h. signed-back-at order 4 x prefix rest h };

    ghost made_fits = { λ order s at x all h. signed-fits order 4 s at x all h };

    ghost one = { λ order s at. one-value (signed_number order 4 (drop at s)) };

    ghost local = { λ order s at t to x same h. signed-local order 4 s at t to x same h };

    fn width() -> usize {
        4
    }

    fn read_at(from: &[u8], offset: usize, order: Endian) -> i32 {
        u32::read_at(from, offset, order).cast_signed()
    }

    fn write_prefix(self, dst: &mut [u8], order: Endian) {
        self.cast_unsigned().write_prefix(dst, order)
    }
}

impl RoundTrip for i32 {
    ghost kept = { λ order s at x all room h. signed-kept order 4 s at x all room h };
}

impl Plain for i32 {
    ghost small = { Prim.search rules };
}

impl<'n> Written for &'n i32 {
    type Value = i32;

    ghost value_of = { λ x. x.now };

    #[inline(always)]
    fn value(self) -> i32 {
        *self
    }
}

impl Fixed for i64 {
    ghost width = { 8 };

    ghost bytes = { λ order x. signed_bytes order 8 x };

    ghost makes = { λ order s at x. x ≡ signed_number order 8 (drop at s) };

    ghost fits = { λ x. (neg_ℤ (pos (256 ^ 8)) ≤ℤ (pos 2 *ℤ x)) × ((pos 2 *ℤ x) <ℤ pos (256 ^ 8)) };

    ghost bytes_len = { λ order x. length-signed_bytes order 8 x };

    ghost back = { λ order x prefix rest h. signed-back-at order 8 x prefix rest h };

    ghost made_fits = { λ order s at x all h. signed-fits order 8 s at x all h };

    ghost one = { λ order s at. one-value (signed_number order 8 (drop at s)) };

    ghost local = { λ order s at t to x same h. signed-local order 8 s at t to x same h };

    fn width() -> usize {
        8
    }

    fn read_at(from: &[u8], offset: usize, order: Endian) -> i64 {
        u64::read_at(from, offset, order).cast_signed()
    }

    fn write_prefix(self, dst: &mut [u8], order: Endian) {
        self.cast_unsigned().write_prefix(dst, order)
    }
}

impl RoundTrip for i64 {
    ghost kept = { λ order s at x all room h. signed-kept order 8 s at x all room h };
}

impl Plain for i64 {
    ghost small = { Prim.search rules };
}

impl<'n> Written for &'n i64 {
    type Value = i64;

    ghost value_of = { λ x. x.now };

    #[inline(always)]
    fn value(self) -> i64 {
        *self
    }
}

impl Fixed for i128 {
    ghost width = { 16 };

    ghost bytes = { λ order x. signed_bytes order 16 x };

    ghost makes = { λ order s at x. x ≡ signed_number order 16 (drop at s) };

    ghost fits = { λ x.
        (neg_ℤ (pos (256 ^ 16)) ≤ℤ (pos 2 *ℤ x)) × ((pos 2 *ℤ x) <ℤ pos (256 ^ 16)) };

    ghost bytes_len = { λ order x. length-signed_bytes order 16 x };

    ghost back = { λ order x prefix rest h. signed-back-at order 16 x prefix rest h };

    ghost made_fits = { λ order s at x all h. signed-fits order 16 s at x all h };

    ghost one = { λ order s at. one-value (signed_number order 16 (drop at s)) };

    ghost local = { λ order s at t to x same h. signed-local order 16 s at t to x same h };

    fn width() -> usize {
        16
    }

    fn read_at(from: &[u8], offset: usize, order: Endian) -> i128 {
        u128::read_at(from, offset, order).cast_signed()
    }

    fn write_prefix(self, dst: &mut [u8], order: Endian) {
        self.cast_unsigned().write_prefix(dst, order)
    }
}

impl RoundTrip for i128 {
    ghost kept = { λ order s at x all room h. signed-kept order 16 s at x all room h };
}

impl Plain for i128 {
    ghost small = { Prim.search rules };
}

impl<'n> Written for &'n i128 {
    type Value = i128;

    ghost value_of = { λ x. x.now };

    #[inline(always)]
    fn value(self) -> i128 {
        *self
    }
}
