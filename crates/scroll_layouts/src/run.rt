// Values of a fixed size as one part.
ghost use Rattle.std.specs.Prelude.{◌≡◌, ◌≤◌, ◌+◌, ◌-◌, ◌^◌, ◌++◌, length, drop, min};
ghost use Rattle.std.proofs.Common.{ap};
ghost use Rattle.scroll_layouts.specs.Layouts.{shaped, width, laid_bytes, makes, fits};
ghost use Rattle.scroll_layouts.specs.Formats.{run};

mod contexts;

use crate::{FixedLayout, Part, ReadPart};
use scroll::{Endian, Error, check_room};
use std::result::Result;

/// A value of a fixed size as one part: a number, or a tuple of numbers that stand one after
/// another. A read tests once that there are as many bytes.
///
/// A shorter source is [`Error::TooBig`] with the size of the value and the number of bytes there.
///
/// ```rust
/// let bytes: [u8; 3] = [7, 1, 2];
/// let (Run((tag, len)), size) = read_whole::<(), Error, Run<(u8, u16)>>(&bytes, BE, &())?;
/// assert_eq!(rt; (tag, len, size), (7, 258, 3));
/// let short = read_whole::<(), Error, Run<(u8, u16)>>(&bytes[1..], BE, &());
/// assert!(rt; matches!(&short, Err(Error::TooBig { size: 3, len: 2 })));
/// ```
#[derive(Drop)]
pub struct Run<P>(pub P);

impl<E: From<Error>, P: FixedLayout> Part<(), E> for Run<P> {
    ghost format = { λ _.
        run E.from_gives (shaped P.layout (λ x. x.0) (λ x y. ap (λ p. record { 0 = p }))) };

    fn check(&self, _order: Endian, _ctx: &()) -> Result<(), E> {
        self.0.fit();
        Ok(())
    }

    #[tactic(auto, using(crate::specs::lemmas::WholeLemmas::sizes))]
    fn size(&self, _order: Endian, _ctx: &()) -> usize {
        P::capped()
    }

    #[tactic(auto, using(crate::specs::lemmas::WholeLemmas::sizes))]
    #[inline(always)]
    fn put(&self, dst: &mut [u8], order: Endian, _ctx: &()) {
        self.0.store(dst, order)
    }
}

impl<'a, E: From<Error> + Drop, P: FixedLayout> ReadPart<'a, (), E> for Run<P> {
    ghost format = { λ _.
        run E.from_gives (shaped P.layout (λ x. x.0) (λ x y. ap (λ p. record { 0 = p }))) };

    #[inline(always)]
    fn read_at(
        from: &'a [u8],
        offset: usize,
        order: Endian,
        _ctx: &(),
    ) -> Result<(Run<P>, usize), E> {
        let width = P::capped();
        check_room(width, from.len() - offset)?;
        Ok((Run(P::load(from, offset, order)), offset + width))
    }

    #[inline(always)]
    fn end_at(from: &'a [u8], offset: usize, order: Endian, ctx: &()) -> Option<usize> {
        match <Run<P> as ReadPart<'a, (), E>>::read_at(from, offset, order, ctx) {
            Ok((_value, end)) => Some(end),
            Err(_error) => None,
        }
    }
}
