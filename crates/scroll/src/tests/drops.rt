// Values are dropped where a call fails: those of an array, those to be written, and those that a
// bulk read replaces. No clause speaks of dropped values.
ghost use Rattle.std.specs.Prelude.{◌≡◌, ◌≤◌, length};
ghost use Rattle.std.proofs.Common.{rules};
ghost use Rattle.scroll.specs.Bytes.{RefusesShort, FailsShort};
ghost use Rattle.scroll.specs.lemmas.Frames.{drop-written, length-number_bytes};
ghost use Rattle.scroll.specs.Numbers.{WritesNumber};
ghost use Rattle.scroll.specs.declared.endian.Endian.TheVariants.{Little};

use crate::ctx::{TryFromCtx, TryIntoCtx};
use crate::tests::results::{check_eq, check_error, check_too_big};
use crate::{Error, LE, Pread, Pwrite, Result};
use std::cell::Cell;

// A byte that counts its drops.
struct Counted<'c> {
    byte: u8,
    drops: &'c Cell<u32>,
}

impl<'c> Drop for Counted<'c> {
    fn drop(self) {
        let Counted { byte: _, drops } = self;
        drops.set(drops.get().wrapping_add(1));
    }
}

impl<'a, 'c> TryFromCtx<'a, &'c Cell<u32>> for Counted<'c> {
    type Error = Error;

    ghost reads = { λ _ source x n. (1 ≤ length source) × (n ≡ 1) };

    ghost refuses = { λ _. RefusesShort 1 };

    ghost reads_bounded = { λ _ source x n h. Prim.search rules };

    fn try_from_ctx(from: &'a [u8], drops: &'c Cell<u32>) -> Result<(Counted<'c>, usize)> {
        let (byte, size) = u8::try_from_ctx(from, LE)?;
        Ok((Counted { byte, drops }, size))
    }
}

impl<'c> TryIntoCtx<()> for Counted<'c> {
    type Error = Error;

    ghost writes = { λ _ x. WritesNumber 1 Little x.byte };

    ghost refuses = { λ _ _. FailsShort 1 };

    ghost writes_bounded = { λ _ x old new n h. Prim.search rules };

    ghost writes_keeps = { λ _ x old new n h. drop-written (length-number_bytes Little 1 x.byte) h };

    fn try_into_ctx(self, dst: &mut [u8], _ctx: ()) -> Result<usize> {
        self.byte.try_into_ctx(dst, LE)
    }
}

// Three bytes, from 7 on.
fn three(drops: &Cell<u32>) -> [Counted<'_>; 3] {
    [
        Counted { byte: 7, drops },
        Counted { byte: 8, drops },
        Counted { byte: 9, drops },
    ]
}

#[test]
fn a_refused_read_drops_its_elements(rt: HostRuntime) {
    let rt = &rt;
    let drops = &Cell::new(0);
    let source: &[u8] = &[7, 8, 9];
    let cut: Result<[Counted; 3]> = source[..2].pread_with(0, drops);
    check_too_big(rt, cut, 1, 0);
    check_eq(rt, drops.get(), 2);
    let whole: Result<[Counted; 3]> = source.pread_with(0, drops);
    check_eq(rt, drops.get(), 2);
    drop(whole);
    check_eq(rt, drops.get(), 5);
}

#[test]
fn a_bulk_read_drops_what_it_replaces(rt: HostRuntime) {
    let rt = &rt;
    let drops = &Cell::new(0);
    let source: &[u8] = &[1, 2];
    let mut held = three(drops);
    check_too_big(rt, source.gread_inout_with(&mut 0, &mut held, drops), 1, 0);
    check_eq(rt, drops.get(), 2);
    drop(held);
    check_eq(rt, drops.get(), 5);
}

#[test]
fn writes_drop_their_values(rt: HostRuntime) {
    let rt = &rt;
    let drops = &Cell::new(0);
    let mut bytes = [0u8; 2];
    let mut target = &mut bytes[..];
    // (the first is written, the second fails, and the third is left)
    check_too_big(rt, target.pwrite(three(drops), 1), 1, 0);
    check_eq(rt, drops.get(), 3);
    check_error(rt, target.pwrite(three(drops), 3), ("BadOffset", 3, 0));
    check_eq(rt, drops.get(), 6);
    check_eq(rt, bytes, [0, 7]);
}
