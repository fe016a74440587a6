// Numbers of three bytes.
ghost use Rattle.std.specs.Prelude.{◌≡◌, ◌≤◌, ◌<◌, ◌+◌, ◌^◌, ◌++◌, codes, length, drop, IfErr, OnOk, IfSome, IfNone};
ghost use Rattle.scroll.specs.Numbers.{number, number_bytes};
ghost use Rattle.scroll_layouts.specs.Fields.{top, packed, splits, small, highest, TooLarge};

use crate::{BitFields, U24, Word};
use scroll::{Endian, Error};
use std::result::Result;

#[tactic(auto, unfolding(scroll::specs::Numbers::number))]
impl Word for U24 {
    ghost size_of = { 3 };

    fn size() -> usize {
        3
    }

    #[inline(always)]
    fn load(from: &[u8], offset: usize, order: Endian) -> u64 {
        let first = u64::from(from[offset]);
        let second = u64::from(from[offset + 1]);
        let third = u64::from(from[offset + 2]);
        match order {
            Endian::Little => first + second * 256 + third * 65_536,
            Endian::Big => first * 65_536 + second * 256 + third,
        }
    }

    #[inline(always)]
    fn holds(number: u64) -> bool {
        number < 1 << 24
    }

    #[inline(always)]
    fn store(number: u64, dst: &mut [u8], order: Endian) {
        let low = (number & 0xff) as u8;
        let middle = (number >> 8 & 0xff) as u8;
        let high = (number >> 16 & 0xff) as u8;
        let bytes = match order {
            Endian::Little => [low, middle, high],
            Endian::Big => [high, middle, low],
        };
        dst[..3].copy_from_slice(&bytes);
    }
}

impl BitFields<U24, ()> for u32 {
    ghost fields = { λ _. top };

    fn check_small<E: From<Error>>(&self, _ctx: &()) -> Result<(), E> {
        Ok(())
    }

    #[inline(always)]
    fn pack(&self, _ctx: &()) -> Option<u64> {
        Some(u64::from(*self))
    }

    #[inline(always)]
    fn high(&self, _ctx: &()) -> u64 {
        u64::from(*self)
    }

    #[inline(always)]
    fn unpack(number: u64, _ctx: &()) -> u32 {
        number as u32
    }
}
