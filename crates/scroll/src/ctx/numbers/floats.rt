// The floats `f32` and `f64`, by their bits.
//
// A float other than a NaN has one bit pattern. A NaN has many, and Rattle doesn't distinguish
// them: a NaN is written as the quiet NaN without a sign or a payload.
ghost use Rattle.std.specs.Prelude.{◌≡◌, drop, to_bits, T};
ghost use Rattle.std.proofs.Common.{rules};
ghost use Rattle.std.specs.Float.{binary32, binary64};
ghost use Rattle.std.specs.Float.Ieee.{fits};
ghost use Rattle.scroll.specs.Numbers.{float, float_bytes};
ghost use Rattle.scroll.specs.lemmas.FixedLemmas.{one-value, float-back-at, float-fits, float-local};
ghost use Rattle.scroll.specs.lemmas.Frames.{length-number_bytes};

use crate::ctx::fixed::{Fixed, Plain, Written};
use crate::endian::Endian;
use std::num::{
    f32_from_bits_with_nan, f32_to_bits_with_nan, f64_from_bits_with_nan, f64_to_bits_with_nan,
};

impl Fixed for f32 {
    ghost width = { 4 };

    ghost bytes = { λ order x. float_bytes binary32 order x };

    ghost makes = { λ order s at x. x ≡ float binary32 order (drop at s) };

    ghost fits = { λ x. T (fits binary32 x) };

    ghost bytes_len = { λ order x. length-number_bytes order 4 (to_bits binary32 x) };

    ghost back = { λ order x prefix rest h. float-back-at binary32 order x prefix rest h };

    ghost made_fits = { λ order s at x all h. float-fits binary32 order s at x h };

    ghost one = { λ order s at. one-value (float binary32 order (drop at s)) };

    ghost local = { λ order s at t to x same h. float-local binary32 order s at t to x same h };

    fn width() -> usize {
        4
    }

    fn read_at(from: &[u8], offset: usize, order: Endian) -> f32 {
        f32_from_bits_with_nan(u32::read_at(from, offset, order))
    }

    fn write_prefix(self, dst: &mut [u8], order: Endian) {
        f32_to_bits_with_nan(self).write_prefix(dst, order)
    }
}

impl Plain for f32 {
    ghost small = { Prim.search rules };
}

impl<'n> Written for &'n f32 {
    type Value = f32;

    ghost value_of = { λ x. x.now };

    #[inline(always)]
    fn value(self) -> f32 {
        *self
    }
}

impl Fixed for f64 {
    ghost width = { 8 };

    ghost bytes = { λ order x. float_bytes binary64 order x };

    ghost makes = { λ order s at x. x ≡ float binary64 order (drop at s) };

    ghost fits = { λ x. T (fits binary64 x) };

    ghost bytes_len = { λ order x. length-number_bytes order 8 (to_bits binary64 x) };

    ghost back = { λ order x prefix rest h. float-back-at binary64 order x prefix rest h };

    ghost made_fits = { λ order s at x all h. float-fits binary64 order s at x h };

    ghost one = { λ order s at. one-value (float binary64 order (drop at s)) };

    ghost local = { λ order s at t to x same h. float-local binary64 order s at t to x same h };

    fn width() -> usize {
        8
    }

    fn read_at(from: &[u8], offset: usize, order: Endian) -> f64 {
        f64_from_bits_with_nan(u64::read_at(from, offset, order))
    }

    fn write_prefix(self, dst: &mut [u8], order: Endian) {
        f64_to_bits_with_nan(self).write_prefix(dst, order)
    }
}

impl Plain for f64 {
    ghost small = { Prim.search rules };
}

impl<'n> Written for &'n f64 {
    type Value = f64;

    ghost value_of = { λ x. x.now };

    #[inline(always)]
    fn value(self) -> f64 {
        *self
    }
}
