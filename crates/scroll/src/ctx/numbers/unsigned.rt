// The unsigned types: `u8`, `u16`, `u32`, `u64` and `u128`.
#![tactic(auto, unfolding(crate::specs::Numbers::number))]

ghost use Rattle.std.specs.Prelude.{◌≡◌, ◌<◌, ◌^◌, drop};
ghost use Rattle.std.proofs.Common.{rules};
ghost use Rattle.scroll.specs.Numbers.{number, number_bytes};
ghost use Rattle.scroll.specs.lemmas.FixedLemmas.{one-value, number-back-at, number-local, number-fits, number-kept};
ghost use Rattle.scroll.specs.lemmas.Frames.{length-number_bytes};

use super::{bytes_at, put_prefix, put_sixteen};
use crate::ctx::fixed::{Fixed, Plain, RoundTrip, Written};
use crate::endian::Endian;

impl Fixed for u8 {
    ghost width = { 1 };

    ghost bytes = { λ order x. number_bytes order 1 x };

    ghost makes = { λ order s at x. x ≡ number order 1 (drop at s) };

    ghost fits = { λ x. x < 256 ^ 1 };

    ghost bytes_len = { λ order x. length-number_bytes order 1 x };

    ghost back = { λ order x prefix rest h. number-back-at order 1 x prefix rest h };

    ghost made_fits = { λ order s at x all h. number-fits order 1 s at x all h };

    ghost one = { λ order s at. one-value (number order 1 (drop at s)) };

    ghost local = { λ order s at t to x same h. number-local order 1 s at t to x same h };

    fn width() -> usize {
        1
    }

    fn read_at(from: &[u8], offset: usize, order: Endian) -> u8 {
        match order {
            Endian::Little => u8::from_le_bytes(bytes_at(from, offset)),
            Endian::Big => u8::from_be_bytes(bytes_at(from, offset)),
        }
    }

    fn write_prefix(self, dst: &mut [u8], order: Endian) {
        match order {
            Endian::Little => put_prefix(dst, self.to_le_bytes()),
            Endian::Big => put_prefix(dst, self.to_be_bytes()),
        }
    }

    #[inline(always)]
    fn as_values(from: &[u8], count: usize, _order: Endian) -> Option<&[u8]> {
        Some(&from[..count])
    }

    #[inline(always)]
    fn as_bytes(values: &[u8], _order: Endian) -> Option<&[u8]> {
        Some(values)
    }
}

impl RoundTrip for u8 {
    ghost kept = { λ order s at x all room h. number-kept order 1 s at x all room h };
}

impl Plain for u8 {
    ghost small = { Prim.search rules };
}

impl<'n> Written for &'n u8 {
    type Value = u8;

    ghost value_of = { λ x. x.now };

    #[inline(always)]
    fn value(self) -> u8 {
        *self
    }
}

impl Fixed for u16 {
    ghost width = { 2 };

    ghost bytes = { λ order x. number_bytes order 2 x };

    ghost makes = { λ order s at x. x ≡ number order 2 (drop at s) };

    ghost fits = { λ x. x < 256 ^ 2 };

    ghost bytes_len = { λ order x. length-number_bytes order 2 x };

    ghost back = { λ order x prefix rest h. number-back-at order 2 x prefix rest h };

    ghost made_fits = { λ order s at x all h. number-fits order 2 s at x all h };

    ghost one = { λ order s at. one-value (number order 2 (drop at s)) };

    ghost local = { λ order s at t to x same h. number-local order 2 s at t to x same h };

    fn width() -> usize {
        2
    }

    fn read_at(from: &[u8], offset: usize, order: Endian) -> u16 {
        match order {
            Endian::Little => u16::from_le_bytes(bytes_at(from, offset)),
            Endian::Big => u16::from_be_bytes(bytes_at(from, offset)),
        }
    }

    fn write_prefix(self, dst: &mut [u8], order: Endian) {
        match order {
            Endian::Little => put_prefix(dst, self.to_le_bytes()),
            Endian::Big => put_prefix(dst, self.to_be_bytes()),
        }
    }
}

impl RoundTrip for u16 {
    ghost kept = { λ order s at x all room h. number-kept order 2 s at x all room h };
}

impl Plain for u16 {
    ghost small = { Prim.search rules };
}

impl<'n> Written for &'n u16 {
    type Value = u16;

    ghost value_of = { λ x. x.now };

    #[inline(always)]
    fn value(self) -> u16 {
        *self
    }
}

impl Fixed for u32 {
    ghost width = { 4 };

    ghost bytes = { λ order x. number_bytes order 4 x };

    ghost makes = { λ order s at x. x ≡ number order 4 (drop at s) };

    ghost fits = { λ x. x < 256 ^ 4 };

    ghost bytes_len = { λ order x. length-number_bytes order 4 x };

    ghost back = { λ order x prefix rest h. number-back-at order 4 x prefix rest h };

    ghost made_fits = { λ order s at x all h. number-fits order 4 s at x all h };

    ghost one = { λ order s at. one-value (number order 4 (drop at s)) };

    ghost local = { λ order s at t to x same h. number-local order 4 s at t to x same h };

    fn width() -> usize {
        4
    }

    fn read_at(from: &[u8], offset: usize, order: Endian) -> u32 {
        match order {
            Endian::Little => u32::from_le_bytes(bytes_at(from, offset)),
            Endian::Big => u32::from_be_bytes(bytes_at(from, offset)),
        }
    }

    fn write_prefix(self, dst: &mut [u8], order: Endian) {
        match order {
            Endian::Little => put_prefix(dst, self.to_le_bytes()),
            Endian::Big => put_prefix(dst, self.to_be_bytes()),
        }
    }
}

impl RoundTrip for u32 {
    ghost kept = { λ order s at x all room h. number-kept order 4 s at x all room h };
}

impl Plain for u32 {
    ghost small = { Prim.search rules };
}

impl<'n> Written for &'n u32 {
    type Value = u32;

    ghost value_of = { λ x. x.now };

    #[inline(always)]
    fn value(self) -> u32 {
        *self
    }
}

impl Fixed for u64 {
    ghost width = { 8 };

    ghost bytes = { λ order x. number_bytes order 8 x };

    ghost makes = { λ order s at x. x ≡ number order 8 (drop at s) };

    ghost fits = { λ x. x < 256 ^ 8 };

    ghost bytes_len = { λ order x. length-number_bytes order 8 x };

    ghost back = { λ order x prefix rest h. number-back-at order 8 x prefix rest h };

    ghost made_fits = { λ order s at x all h. number-fits order 8 s at x all h };

    ghost one = { λ order s at. one-value (number order 8 (drop at s)) };

    ghost local = { λ order s at t to x same h. number-local order 8 s at t to x same h };

    fn width() -> usize {
        8
    }

    fn read_at(from: &[u8], offset: usize, order: Endian) -> u64 {
        match order {
            Endian::Little => u64::from_le_bytes(bytes_at(from, offset)),
            Endian::Big => u64::from_be_bytes(bytes_at(from, offset)),
        }
    }

    fn write_prefix(self, dst: &mut [u8], order: Endian) {
        match order {
            Endian::Little => put_prefix(dst, self.to_le_bytes()),
            Endian::Big => put_prefix(dst, self.to_be_bytes()),
        }
    }
}

impl RoundTrip for u64 {
    ghost kept = { λ order s at x all room h. number-kept order 8 s at x all room h };
}

impl Plain for u64 {
    ghost small = { Prim.search rules };
}

impl<'n> Written for &'n u64 {
    type Value = u64;

    ghost value_of = { λ x. x.now };

    #[inline(always)]
    fn value(self) -> u64 {
        *self
    }
}

impl Fixed for u128 {
    ghost width = { 16 };

    ghost bytes = { λ order x. number_bytes order 16 x };

    ghost makes = { λ order s at x. x ≡ number order 16 (drop at s) };

    ghost fits = { λ x. x < 256 ^ 16 };

    ghost bytes_len = { λ order x. length-number_bytes order 16 x };

    ghost back = { λ order x prefix rest h. number-back-at order 16 x prefix rest h };

    ghost made_fits = { λ order s at x all h. number-fits order 16 s at x all h };

    ghost one = { λ order s at. one-value (number order 16 (drop at s)) };

    ghost local = { λ order s at t to x same h. number-local order 16 s at t to x same h };

    fn width() -> usize {
        16
    }

    fn read_at(from: &[u8], offset: usize, order: Endian) -> u128 {
        match order {
            Endian::Little => u128::from_le_bytes(bytes_at(from, offset)),
            Endian::Big => u128::from_be_bytes(bytes_at(from, offset)),
        }
    }

    fn write_prefix(self, dst: &mut [u8], order: Endian) {
        put_sixteen(dst, self, order)
    }
}

impl RoundTrip for u128 {
    ghost kept = { λ order s at x all room h. number-kept order 16 s at x all room h };
}

impl Plain for u128 {
    ghost small = { Prim.search rules };
}

impl<'n> Written for &'n u128 {
    type Value = u128;

    ghost value_of = { λ x. x.now };

    #[inline(always)]
    fn value(self) -> u128 {
        *self
    }
}
