// Numbers that fields of bits are packed in.
ghost use Rattle.std.specs.Prelude.{◌≡◌, ◌≤◌, ◌<◌, ◌+◌, ◌^◌, ◌++◌, length, drop};
ghost use Rattle.scroll.specs.Numbers.{number, number_bytes};

use crate::Word;
use scroll::Endian;
use scroll::ctx::Fixed;

impl Word for u8 {
    ghost size_of = { 1 };

    fn size() -> usize {
        1
    }

    #[inline(always)]
    fn load(from: &[u8], offset: usize, order: Endian) -> u64 {
        u64::from(<u8 as Fixed>::read_at(from, offset, order))
    }

    #[inline(always)]
    fn holds(number: u64) -> bool {
        number <= u64::from(u8::MAX)
    }

    #[inline(always)]
    fn store(number: u64, dst: &mut [u8], order: Endian) {
        (number as u8).write_prefix(dst, order)
    }
}

impl Word for u16 {
    ghost size_of = { 2 };

    fn size() -> usize {
        2
    }

    #[inline(always)]
    fn load(from: &[u8], offset: usize, order: Endian) -> u64 {
        u64::from(<u16 as Fixed>::read_at(from, offset, order))
    }

    #[inline(always)]
    fn holds(number: u64) -> bool {
        number <= u64::from(u16::MAX)
    }

    #[inline(always)]
    fn store(number: u64, dst: &mut [u8], order: Endian) {
        (number as u16).write_prefix(dst, order)
    }
}

impl Word for u32 {
    ghost size_of = { 4 };

    fn size() -> usize {
        4
    }

    #[inline(always)]
    fn load(from: &[u8], offset: usize, order: Endian) -> u64 {
        u64::from(<u32 as Fixed>::read_at(from, offset, order))
    }

    #[inline(always)]
    fn holds(number: u64) -> bool {
        number <= u64::from(u32::MAX)
    }

    #[inline(always)]
    fn store(number: u64, dst: &mut [u8], order: Endian) {
        (number as u32).write_prefix(dst, order)
    }
}

impl Word for u64 {
    ghost size_of = { 8 };

    fn size() -> usize {
        8
    }

    #[inline(always)]
    fn load(from: &[u8], offset: usize, order: Endian) -> u64 {
        <u64 as Fixed>::read_at(from, offset, order)
    }

    #[inline(always)]
    fn holds(_number: u64) -> bool {
        true
    }

    #[inline(always)]
    fn store(number: u64, dst: &mut [u8], order: Endian) {
        number.write_prefix(dst, order)
    }
}
