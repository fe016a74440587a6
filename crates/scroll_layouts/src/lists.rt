// Lists that are borrowed as their bytes, and read where they lie.
ghost use Rattle.std.specs.Prelude.{◌≡◌, ◌≢◌, ◌≤◌, ◌<◌, ◌+◌, ◌-◌, ◌^◌, ◌++◌, ◌⊎◌, length, take, drop, min, codes, OnOk, IfErr};
ghost use Rattle.scroll_layouts.specs.Errors.{GivesBadInput};
ghost use Rattle.scroll_layouts.specs.Formats.{leaf, last, len, reads, refuses};
ghost use Rattle.scroll_layouts.specs.ListLeaves.{list_within, list_of};

use crate::bytes::check_count;
use crate::steps::{check_items, count_items, read_items, skip_items};
use crate::within::check_there;
use crate::{ListOf, ListPart, Listed, Part, ReadPart, Unmarked};
use scroll::{Endian, Error, check_room};
use std::marker::PhantomData;
use std::result::Result;

/// The context of a list of as many values as it says.
#[derive(Drop)]
pub struct Count(pub usize);

/// Values that use up as many bytes as the context says. A shorter source is [`Error::TooBig`] with
/// that number and the number of bytes there; then come the errors of the values. A value without
/// bytes is [`Error::BadInput`] with its offset in the list and the message `a value has no bytes`.
/// A write in another byte order than that of the read is one with the number of bytes and the
/// message `another byte order than its values`, and one of another number of bytes one with that
/// number and the message `another length than its count`.
impl<'a, K: Unmarked<'a>, L: ListPart<'a, Kind = K>> Part<usize, K::Error> for ListOf<'a, L>
where
    K::Error: From<Error> + Drop,
{
    ghost format = { λ n.
        last (leaf (list_within K.Error.from_gives K.item n)) (λ x. L.seen x.0) };

    fn check(&self, order: Endian, ctx: &usize) -> Result<(), K::Error> {
        let (bytes, known, _count) = self.0.parts();
        check_order(order, known, bytes.len())?;
        check_count(*ctx, bytes.len())?;
        Ok(())
    }

    fn size(&self, _order: Endian, _ctx: &usize) -> usize {
        self.0.parts().0.len()
    }

    #[inline(always)]
    fn put(&self, dst: &mut [u8], _order: Endian, _ctx: &usize) {
        let (bytes, _order, _count) = self.0.parts();
        dst[..bytes.len()].copy_from_slice(bytes);
    }
}

impl<'a, K: Unmarked<'a>, L: ListPart<'a, Kind = K>> ReadPart<'a, usize, K::Error> for ListOf<'a, L>
where
    K::Error: From<Error> + Drop,
{
    ghost format = { λ n.
        last (leaf (list_within K.Error.from_gives K.item n)) (λ x. L.seen x.0) };

    #[inline(always)]
    fn read_at(
        from: &'a [u8],
        offset: usize,
        order: Endian,
        ctx: &usize,
    ) -> Result<(ListOf<'a, L>, usize), K::Error> {
        let count = *ctx;
        check_room(count, from.len() - offset)?;
        let bytes = &from[offset..offset + count];
        let found = check_items::<K>(bytes, order)?;
        Ok((
            ListOf(L::of(bytes, order, found), PhantomData),
            offset + count,
        ))
    }

    #[inline(always)]
    fn end_at(from: &'a [u8], offset: usize, order: Endian, ctx: &usize) -> Option<usize> {
        let count = *ctx;
        let Ok(()) = check_there::<K::Error>(count, from.len() - offset) else {
            return None;
        };
        let part = &from[offset..offset + count];
        let found = count_items::<K>(part, order)?;
        let _list = ListOf::<'a, L>(L::of(part, order, found), PhantomData);
        Some(offset + count)
    }
}

/// As many values as the context says. The errors are those of the values; a value without bytes is
/// [`Error::BadInput`] with its offset in the list and the message `a value has no bytes`. A write
/// in another byte order than that of the read is one with the number of bytes and the message
/// `another byte order than its values`, and one of another number of values one with that number
/// and the message `another number of values than its count`.
impl<'a, K: Unmarked<'a>, L: ListPart<'a, Kind = K>> Part<Count, K::Error> for ListOf<'a, L>
where
    K::Error: From<Error> + Drop,
{
    ghost format = { λ c.
        last (leaf (list_of K.Error.from_gives K.item c.0)) (λ x. L.seen x.0) };

    fn check(&self, order: Endian, ctx: &Count) -> Result<(), K::Error> {
        let (bytes, known, count) = self.0.parts();
        check_order(order, known, bytes.len())?;
        if count != ctx.0 {
            return Err(K::Error::from(Error::BadInput {
                size: count,
                msg: "another number of values than its count",
            }));
        }
        Ok(())
    }

    fn size(&self, _order: Endian, _ctx: &Count) -> usize {
        self.0.parts().0.len()
    }

    #[inline(always)]
    fn put(&self, dst: &mut [u8], _order: Endian, _ctx: &Count) {
        let (bytes, _order, _count) = self.0.parts();
        dst[..bytes.len()].copy_from_slice(bytes);
    }
}

impl<'a, K: Unmarked<'a>, L: ListPart<'a, Kind = K>> ReadPart<'a, Count, K::Error> for ListOf<'a, L>
where
    K::Error: From<Error> + Drop,
{
    ghost format = { λ c.
        last (leaf (list_of K.Error.from_gives K.item c.0)) (λ x. L.seen x.0) };

    #[inline(always)]
    fn read_at(
        from: &'a [u8],
        offset: usize,
        order: Endian,
        ctx: &Count,
    ) -> Result<(ListOf<'a, L>, usize), K::Error> {
        let rest = &from[offset..];
        let end = read_items::<K>(rest, order, ctx.0)?;
        let list = L::of(&rest[..end], order, ctx.0);
        Ok((ListOf(list, PhantomData), offset + end))
    }

    #[inline(always)]
    fn end_at(from: &'a [u8], offset: usize, order: Endian, ctx: &Count) -> Option<usize> {
        let rest = &from[offset..];
        let end = skip_items::<K>(rest, order, ctx.0)?;
        let _list = ListOf::<'a, L>(L::of(&rest[..end], order, ctx.0), PhantomData);
        Some(offset + end)
    }
}

// Returns an error if the values of a list of so many bytes were read in another byte order.
#[inline(always)]
pub(crate) fn check_order<E: From<Error>>(order: Endian, known: Endian, len: usize) -> Result<(), E>
    ensures same { OnOk result (known ≡ order) }
    ensures other { IfErr result (λ e. (known ≢ order)
        × GivesBadInput E.from_gives len (codes "another byte order than its values") e) }
{
    if known != order {
        return Err(E::from(Error::BadInput {
            size: len,
            msg: "another byte order than its values",
        }));
    }
    Ok(())
}
