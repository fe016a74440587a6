// One of two values: its parts.
ghost use Rattle.std.specs.Prelude.{◌≡◌, ◌≤◌, ◌+◌, ◌-◌, ◌^◌, ◌++◌, length, drop, min, codes};
ghost use Rattle.scroll_layouts.specs.Formats.{choice, len, bytes, reads, refuses, agrees, differs};

use crate::{Choice, Choose, Part, ReadPart};
use scroll::{Endian, Error};
use std::result::Result;

/// One of two values, as the context says. A write of the other one is [`Error::BadInput`] with the
/// size 1 if the first one must be there and 0 if the second must, and the message `another variant
/// than its tag`.
impl<E: From<Error>, C: Drop, D: Drop, A: Part<C, E>, B: Part<D, E>> Part<Choose<C, D>, E>
    for Choice<A, B> {
    ghost format = { λ c. choice E.from_gives c.0 (A.format c.1) (B.format c.2) };

    fn check(&self, order: Endian, ctx: &Choose<C, D>) -> Result<(), E> {
        match self {
            Choice::First(value) => {
                if !ctx.0 {
                    return Err(E::from(Error::BadInput {
                        size: 0,
                        msg: "another variant than its tag",
                    }));
                }
                value.check(order, &ctx.1)
            }
            Choice::Second(value) => {
                if ctx.0 {
                    return Err(E::from(Error::BadInput {
                        size: 1,
                        msg: "another variant than its tag",
                    }));
                }
                value.check(order, &ctx.2)
            }
        }
    }

    fn size(&self, order: Endian, ctx: &Choose<C, D>) -> usize {
        match self {
            Choice::First(value) => value.size(order, &ctx.1),
            Choice::Second(value) => value.size(order, &ctx.2),
        }
    }

    #[inline(always)]
    fn put(&self, dst: &mut [u8], order: Endian, ctx: &Choose<C, D>) {
        match self {
            Choice::First(value) => value.put(dst, order, &ctx.1),
            Choice::Second(value) => value.put(dst, order, &ctx.2),
        }
    }
}

impl<'a, E: From<Error>, C: Drop, D: Drop, A: ReadPart<'a, C, E>, B: ReadPart<'a, D, E>> ReadPart<
    'a,
    Choose<C, D>,
    E,
> for Choice<A, B> {
    ghost format = { λ c. choice E.from_gives c.0 (A.format c.1) (B.format c.2) };

    #[inline(always)]
    fn read_at(
        from: &'a [u8],
        offset: usize,
        order: Endian,
        ctx: &Choose<C, D>,
    ) -> Result<(Choice<A, B>, usize), E> {
        if ctx.0 {
            let (value, end) = A::read_at(from, offset, order, &ctx.1)?;
            return Ok((Choice::First(value), end));
        }
        let (value, end) = B::read_at(from, offset, order, &ctx.2)?;
        Ok((Choice::Second(value), end))
    }

    #[tactic(auto, using(crate::specs::lemmas::EndLemmas::part_ends))]
    #[inline(always)]
    fn end_at(from: &'a [u8], offset: usize, order: Endian, ctx: &Choose<C, D>) -> Option<usize> {
        if ctx.0 {
            return A::end_at(from, offset, order, &ctx.1);
        }
        B::end_at(from, offset, order, &ctx.2)
    }
}
