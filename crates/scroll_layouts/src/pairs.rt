// One value after another.
ghost use Rattle.std.specs.Prelude.{◌≡◌, ◌≤◌, ◌+◌, ◌-◌, ◌^◌, ◌++◌, ◌⊎◌, length, take, drop, min};
ghost use Rattle.scroll_layouts.specs.Formats.{pair, len, bytes, reads, refuses, agrees, differs};

use crate::{Part, ReadPart};
use scroll::Endian;
use std::result::Result;

/// A value, and the one after it, each in a context of its own.
impl<E, C, D: Drop, A: Part<C, E>, B: Part<D, E>> Part<(C, D), E> for (A, B) {
    ghost format = { λ c. pair (A.format c.0) (B.format c.1) };

    fn check(&self, order: Endian, ctx: &(C, D)) -> Result<(), E> {
        self.0.check(order, &ctx.0)?;
        self.1.check(order, &ctx.1)
    }

    fn size(&self, order: Endian, ctx: &(C, D)) -> usize {
        self.0
            .size(order, &ctx.0)
            .saturating_add(self.1.size(order, &ctx.1))
    }

    #[inline(always)]
    fn put(&self, dst: &mut [u8], order: Endian, ctx: &(C, D)) {
        let first = self.0.size(order, &ctx.0);
        self.0.put(dst, order, &ctx.0);
        put_behind::<E, D, B>(&self.1, dst, first, order, &ctx.1)
    }
}

// Writes a value behind the `offset` bytes before it.
#[inline(always)]
pub(super) fn put_behind<E, D, B: Part<D, E>>(
    second: &B,
    dst: &mut [u8],
    offset: usize,
    order: Endian,
    ctx: &D,
)
    requires agreed { agrees (B.format ctx.now) order second.now }
    requires room { offset + length (bytes (B.format ctx.now) order second.now) ≤ length dst.old }
    ensures before { take offset dst.new ≡ take offset dst.old }
    ensures after { drop offset dst.new ≡ bytes (B.format ctx.now) order second.now
        ++ drop (length (bytes (B.format ctx.now) order second.now)) (drop offset dst.old) }
{
    second.put(&mut dst[offset..], order, ctx)
}

impl<'a, E, C, D: Drop, A: ReadPart<'a, C, E>, B: ReadPart<'a, D, E>> ReadPart<'a, (C, D), E>
    for (A, B) {
    ghost format = { λ c. pair (A.format c.0) (B.format c.1) };

    #[inline(always)]
    fn read_at(
        from: &'a [u8],
        offset: usize,
        order: Endian,
        ctx: &(C, D),
    ) -> Result<((A, B), usize), E> {
        let (first, next) = A::read_at(from, offset, order, &ctx.0)?;
        let (second, end) = B::read_at(from, next, order, &ctx.1)?;
        Ok(((first, second), end))
    }

    #[tactic(auto, using(crate::specs::lemmas::EndLemmas::part_ends))]
    #[inline(always)]
    fn end_at(from: &'a [u8], offset: usize, order: Endian, ctx: &(C, D)) -> Option<usize> {
        let next = A::end_at(from, offset, order, &ctx.0)?;
        B::end_at(from, next, order, &ctx.1)
    }
}
