// Numbers in LEB128 as parts.
ghost use Rattle.std.specs.Prelude.{◌≡◌, ◌≤◌, ◌<◌, ◌+◌, ◌-◌, ◌^◌, ◌++◌, length, take, drop, min};
ghost use Rattle.scroll.specs.declared.error.Error.{Error};
ghost use Rattle.scroll_layouts.specs.Formats.{leaf, shape};
ghost use Rattle.scroll_layouts.specs.Leaves.{uleb, sleb, uleb_counted, sleb_counted};
ghost use Rattle.scroll_layouts.specs.Starts.{start};
ghost use Rattle.scroll_layouts.specs.lemmas.PromiseLemmas.{uleb-is, sleb-is};

use crate::{Part, ReadPart, Sleb, Uleb};
use scroll::ctx::TryFromCtx;
use scroll::{Endian, Error, LebNumber, Sleb128, Uleb128};
use std::result::Result;

/// A number in LEB128. The errors are those of a read of [`Uleb128`].
impl<E: From<Error>> Part<(), E> for Uleb {
    ghost format = { λ _. shape (leaf (start (uleb E.from_gives))) uleb_counted uleb-is };

    fn check(&self, _order: Endian, _ctx: &()) -> Result<(), E> {
        let _number = *self;
        Ok(())
    }

    #[tactic(auto, using(crate::specs::lemmas::LeafLemmas::leb_sizes))]
    fn size(&self, _order: Endian, _ctx: &()) -> usize {
        self.count
    }

    #[tactic(auto, using(crate::specs::lemmas::LeafLemmas::leb_sizes))]
    #[inline(always)]
    fn put(&self, dst: &mut [u8], _order: Endian, _ctx: &()) {
        let number = *self;
        match number.value.put(dst, number.count) {
            Ok(_size) => (),
            Err(_short) => unreachable!(),
        }
    }
}

impl<'a, E: From<Error> + Drop> ReadPart<'a, (), E> for Uleb {
    ghost format = { λ _. shape (leaf (start (uleb E.from_gives))) uleb_counted uleb-is };

    #[inline(always)]
    fn read_at(
        from: &'a [u8],
        offset: usize,
        _order: Endian,
        _ctx: &(),
    ) -> Result<(Uleb, usize), E> {
        let (number, size) = Uleb128::try_from_ctx(&from[offset..], ())?;
        let value = Uleb {
            value: *number.as_ref(),
            count: number.size(),
        };
        Ok((value, offset + size))
    }

    #[inline(always)]
    fn end_at(from: &'a [u8], offset: usize, order: Endian, ctx: &()) -> Option<usize> {
        match <Uleb as ReadPart<'a, (), E>>::read_at(from, offset, order, ctx) {
            Ok((_value, end)) => Some(end),
            Err(_error) => None,
        }
    }
}

/// A signed number in LEB128. The errors are those of a read of [`Sleb128`].
impl<E: From<Error>> Part<(), E> for Sleb {
    ghost format = { λ _. shape (leaf (start (sleb E.from_gives))) sleb_counted sleb-is };

    fn check(&self, _order: Endian, _ctx: &()) -> Result<(), E> {
        let _number = *self;
        Ok(())
    }

    #[tactic(auto, using(crate::specs::lemmas::LeafLemmas::leb_sizes))]
    fn size(&self, _order: Endian, _ctx: &()) -> usize {
        self.count
    }

    #[tactic(auto, using(crate::specs::lemmas::LeafLemmas::leb_sizes))]
    #[inline(always)]
    fn put(&self, dst: &mut [u8], _order: Endian, _ctx: &()) {
        let number = *self;
        match number.value.put(dst, number.count) {
            Ok(_size) => (),
            Err(_short) => unreachable!(),
        }
    }
}

impl<'a, E: From<Error> + Drop> ReadPart<'a, (), E> for Sleb {
    ghost format = { λ _. shape (leaf (start (sleb E.from_gives))) sleb_counted sleb-is };

    #[inline(always)]
    fn read_at(
        from: &'a [u8],
        offset: usize,
        _order: Endian,
        _ctx: &(),
    ) -> Result<(Sleb, usize), E> {
        let (number, size) = Sleb128::try_from_ctx(&from[offset..], ())?;
        let value = Sleb {
            value: *number.as_ref(),
            count: number.size(),
        };
        Ok((value, offset + size))
    }

    #[inline(always)]
    fn end_at(from: &'a [u8], offset: usize, order: Endian, ctx: &()) -> Option<usize> {
        match <Sleb as ReadPart<'a, (), E>>::read_at(from, offset, order, ctx) {
            Ok((_value, end)) => Some(end),
            Err(_error) => None,
        }
    }
}
