// Bytes of a counted length, and zeros.
ghost use Rattle.std.proofs.Common.{refl};
ghost use Rattle.std.specs.Prelude.{◌≡◌, ◌≢◌, ◌≤◌, ◌<◌, ◌+◌, ◌-◌, ◌^◌, ◌++◌, length, take, drop, min, codes, IfErr, OnOk};
ghost use Rattle.scroll.specs.declared.error.Error.{Error};
ghost use Rattle.scroll_formats.specs.Zeros.{RefusesZeros};
ghost use Rattle.scroll_layouts.specs.Errors.{GivesBadInput};
ghost use Rattle.scroll_layouts.specs.Formats.{counted, zeros, last};

use crate::{Part, ReadPart};
use scroll::ctx::TryFromCtx;
use scroll::{Endian, Error, check_room};
use scroll_formats::Zeros;
use std::result::Result;

/// Bytes, as many as the context says. A shorter source is [`Error::TooBig`] with that number and
/// the number of bytes there. A write of another number of bytes is [`Error::BadInput`] with that
/// number and the message `another length than its count`.
impl<'a, E: From<Error>> Part<usize, E> for &'a [u8] {
    ghost format = { λ n. last (counted E.from_gives n) (λ x. x.now) };

    fn check(&self, _order: Endian, ctx: &usize) -> Result<(), E> {
        check_count(*ctx, self.len())
    }

    fn size(&self, _order: Endian, _ctx: &usize) -> usize {
        self.len()
    }

    #[inline(always)]
    fn put(&self, dst: &mut [u8], _order: Endian, _ctx: &usize) {
        dst[..self.len()].copy_from_slice(self);
    }
}

impl<'a, E: From<Error> + Drop> ReadPart<'a, usize, E> for &'a [u8] {
    ghost format = { λ n. last (counted E.from_gives n) (λ x. x.now) };

    #[inline(always)]
    fn read_at(
        from: &'a [u8],
        offset: usize,
        _order: Endian,
        ctx: &usize,
    ) -> Result<(&'a [u8], usize), E> {
        let count = *ctx;
        check_room(count, from.len() - offset)?;
        Ok((&from[offset..offset + count], offset + count))
    }

    #[inline(always)]
    fn end_at(from: &'a [u8], offset: usize, order: Endian, ctx: &usize) -> Option<usize> {
        match <&'a [u8] as ReadPart<'a, usize, E>>::read_at(from, offset, order, ctx) {
            Ok((_value, end)) => Some(end),
            Err(_error) => None,
        }
    }
}

// Returns an error if a length isn't its count.
pub(super) fn check_count<E: From<Error>>(count: usize, len: usize) -> Result<(), E>
    ensures same { OnOk result (count ≡ len) }
    ensures other { IfErr result (λ e. (count ≢ len)
        × GivesBadInput E.from_gives len (codes "another length than its count") e) }
{
    if count != len {
        return Err(E::from(Error::BadInput {
            size: len,
            msg: "another length than its count",
        }));
    }
    Ok(())
}

/// As many zero bytes as the context says. The errors are those of a read of [`Zeros`].
impl<E: From<Error>> Part<usize, E> for Zeros {
    ghost format = { λ n. zeros E.from_gives n (λ x y. refl) };

    fn check(&self, _order: Endian, _ctx: &usize) -> Result<(), E> {
        Ok(())
    }

    fn size(&self, _order: Endian, ctx: &usize) -> usize {
        *ctx
    }

    #[tactic(auto, using(crate::specs::lemmas::WholeLemmas::sizes))]
    #[inline(always)]
    fn put(&self, dst: &mut [u8], _order: Endian, ctx: &usize) {
        dst[..*ctx].fill(0);
    }
}

impl<'a, E: From<Error> + Drop> ReadPart<'a, usize, E> for Zeros {
    ghost format = { λ n. zeros E.from_gives n (λ x y. refl) };

    #[tactic(auto, using(crate::specs::lemmas::Parts::all_zeros))]
    #[inline(always)]
    fn read_at(
        from: &'a [u8],
        offset: usize,
        _order: Endian,
        ctx: &usize,
    ) -> Result<(Zeros, usize), E> {
        let (zeros, size) = Zeros::try_from_ctx(&from[offset..], *ctx)?;
        Ok((zeros, offset + size))
    }

    #[inline(always)]
    fn end_at(from: &'a [u8], offset: usize, order: Endian, ctx: &usize) -> Option<usize> {
        match <Zeros as ReadPart<'a, usize, E>>::read_at(from, offset, order, ctx) {
            Ok((_value, end)) => Some(end),
            Err(_error) => None,
        }
    }
}
