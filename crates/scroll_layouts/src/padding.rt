// Zeros up to a multiple of a size.
ghost use Rattle.std.specs.Prelude.{◌≡◌, ◌≤◌, ◌<◌, ◌+◌, ◌-◌, ◌^◌, ◌++◌, length, take, drop, min, replicate, IfOk, IfErr, OnOk};
ghost use Rattle.scroll.specs.declared.error.Error.{Error};
ghost use Rattle.scroll_formats.specs.Zeros.{RefusesZeros, padding_len};
ghost use Rattle.scroll_layouts.specs.Formats.{padded, len, bytes, reads, refuses, agrees, differs};

use crate::pairs::put_behind;
use crate::{Part, ReadPart};
use scroll::{Endian, Error};
use scroll_formats::{Zeros, padding};
use std::result::Result;

/// The context of a value that is followed by zeros up to a multiple of a size; then the value's
/// own context.
///
/// ```rust
/// let mut bytes = [255u8; 6];
/// write_whole::<Padded<usize>, Error, &[u8]>(&b"abc".as_slice(), &mut bytes, LE, &Padded(4, 3))?;
/// assert_eq!(rt; bytes, [b'a', b'b', b'c', 0, 255, 255]);
/// ```
#[derive(Drop)]
pub struct Padded<C>(pub usize, pub C);

/// A value, and zeros up to a multiple of a size, counted from the value's first byte. The errors
/// of the zeros are those of a read of [`Zeros`].
impl<E: From<Error>, C: Drop, A: Part<C, E>> Part<Padded<C>, E> for A {
    ghost format = { λ c. padded E.from_gives c.0 (A.format c.1) };

    fn check(&self, order: Endian, ctx: &Padded<C>) -> Result<(), E> {
        self.check(order, &ctx.1)
    }

    fn size(&self, order: Endian, ctx: &Padded<C>) -> usize {
        let size = self.size(order, &ctx.1);
        size.saturating_add(padding(size, ctx.0))
    }

    #[inline(always)]
    fn put(&self, dst: &mut [u8], order: Endian, ctx: &Padded<C>) {
        let size = self.size(order, &ctx.1);
        self.put(dst, order, &ctx.1);
        put_behind::<E, usize, Zeros>(&Zeros, dst, size, order, &padding(size, ctx.0))
    }
}

impl<'a, E: From<Error> + Drop, C: Drop, A: ReadPart<'a, C, E>> ReadPart<'a, Padded<C>, E> for A {
    ghost format = { λ c. padded E.from_gives c.0 (A.format c.1) };

    #[tactic(auto, using(crate::specs::lemmas::LeafLemmas::gaps))]
    #[inline(always)]
    fn read_at(
        from: &'a [u8],
        offset: usize,
        order: Endian,
        ctx: &Padded<C>,
    ) -> Result<(A, usize), E> {
        let (value, end) = A::read_at(from, offset, order, &ctx.1)?;
        let gap = padding(end - offset, ctx.0);
        match <Zeros as ReadPart<usize, E>>::read_at(from, end, order, &gap) {
            Ok((_zeros, next)) => Ok((value, next)),
            Err(error) => Err(error),
        }
    }

    #[tactic(auto, using(crate::specs::lemmas::EndLemmas::padded_parts))]
    #[inline(always)]
    fn end_at(from: &'a [u8], offset: usize, order: Endian, ctx: &Padded<C>) -> Option<usize> {
        let last = A::end_at(from, offset, order, &ctx.1)?;
        let zeros = padding(last - offset, ctx.0);
        <Zeros as ReadPart<usize, E>>::end_at(from, last, order, &zeros)
    }
}
