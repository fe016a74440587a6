// Values in a byte order of their own.
ghost use Rattle.std.specs.Prelude.{◌≡◌, ◌≤◌, ◌+◌, ◌-◌, ◌^◌, ◌++◌, length, drop, min};
ghost use Rattle.scroll_layouts.specs.Formats.{ordered, len, bytes, reads, refuses, agrees, differs};

use crate::{Part, ReadPart};
use scroll::Endian;
use std::result::Result;

/// The context of a value in a byte order of its own; then the value's own context.
///
/// ```rust
/// let bytes: [u8; 2] = [1, 2];
/// let (Run(number), _) =
///     read_whole::<Ordered<()>, Error, Run<u16>>(&bytes, LE, &Ordered(BE, ()))?;
/// assert_eq!(rt; number, 0x0102);
/// ```
#[derive(Drop)]
pub struct Ordered<C>(pub Endian, pub C);

/// A value in the byte order that the context says. The errors are those of the value.
impl<E, C: Drop, A: Part<C, E>> Part<Ordered<C>, E> for A {
    ghost format = { λ c. ordered c.0 (A.format c.1) };

    fn check(&self, _order: Endian, ctx: &Ordered<C>) -> Result<(), E> {
        self.check(ctx.0, &ctx.1)
    }

    fn size(&self, _order: Endian, ctx: &Ordered<C>) -> usize {
        self.size(ctx.0, &ctx.1)
    }

    #[inline(always)]
    fn put(&self, dst: &mut [u8], _order: Endian, ctx: &Ordered<C>) {
        self.put(dst, ctx.0, &ctx.1)
    }
}

impl<'a, E, C: Drop, A: ReadPart<'a, C, E>> ReadPart<'a, Ordered<C>, E> for A {
    ghost format = { λ c. ordered c.0 (A.format c.1) };

    #[inline(always)]
    fn read_at(
        from: &'a [u8],
        offset: usize,
        _order: Endian,
        ctx: &Ordered<C>,
    ) -> Result<(A, usize), E> {
        A::read_at(from, offset, ctx.0, &ctx.1)
    }

    #[tactic(auto, using(crate::specs::lemmas::EndLemmas::part_ends))]
    #[inline(always)]
    fn end_at(from: &'a [u8], offset: usize, _order: Endian, ctx: &Ordered<C>) -> Option<usize> {
        A::end_at(from, offset, ctx.0, &ctx.1)
    }
}
