// Tables: elements of one size, read where they lie.
ghost use Rattle.std.specs.Prelude.{◌≡◌, ◌≢◌, ◌≤◌, ◌<◌, ◌+◌, ◌*◌, ◌-◌, ◌^◌, ◌++◌, length, take, drop, min, codes};
ghost use Rattle.scroll_layouts.specs.Formats.{leaf, last};
ghost use Rattle.scroll_layouts.specs.TableLeaves.{table_of};

use crate::bytes::check_count;
use crate::lists::check_order;
use crate::{Part, ReadPart};
use scroll::ctx::Plain;
use scroll::{Endian, Error, check_room};
use scroll_formats::Table;
use std::result::Result;

/// A table of as many elements as the context says. A shorter source is [`Error::TooBig`] with the
/// number of their bytes, at most the greatest `usize`, and the number of bytes there. A write in
/// another byte order than that of the read is [`Error::BadInput`] with the number of bytes and the
/// message `another byte order than its values`, and one of a table of another number of bytes one
/// with that number and the message `another length than its count`.
impl<'a, E: From<Error>, T: Plain> Part<usize, E> for Table<'a, T> {
    ghost format = { λ n.
        last (leaf (table_of E.from_gives (min (n * T.width) (2 ^ 64 - 1))))
        (λ x. record { bytes = x.bytes.now; order = x.order }) };

    fn check(&self, order: Endian, ctx: &usize) -> Result<(), E> {
        check_order(order, self.order, self.bytes.len())?;
        check_count(ctx.saturating_mul(T::width()), self.bytes.len())
    }

    fn size(&self, _order: Endian, _ctx: &usize) -> usize {
        self.bytes.len()
    }

    #[inline(always)]
    fn put(&self, dst: &mut [u8], _order: Endian, _ctx: &usize) {
        let bytes = self.bytes;
        dst[..bytes.len()].copy_from_slice(bytes);
    }
}

impl<'a, E: From<Error> + Drop, T: Plain> ReadPart<'a, usize, E> for Table<'a, T> {
    ghost format = { λ n.
        last (leaf (table_of E.from_gives (min (n * T.width) (2 ^ 64 - 1))))
        (λ x. record { bytes = x.bytes.now; order = x.order }) };

    #[inline(always)]
    fn read_at(
        from: &'a [u8],
        offset: usize,
        order: Endian,
        ctx: &usize,
    ) -> Result<(Table<'a, T>, usize), E> {
        let size = ctx.saturating_mul(T::width());
        check_room(size, from.len() - offset)?;
        let bytes = &from[offset..offset + size];
        Ok((Table::new(bytes, order), offset + size))
    }

    #[inline(always)]
    fn end_at(from: &'a [u8], offset: usize, order: Endian, ctx: &usize) -> Option<usize> {
        match <Table<'a, T> as ReadPart<'a, usize, E>>::read_at(from, offset, order, ctx) {
            Ok((_value, end)) => Some(end),
            Err(_error) => None,
        }
    }
}
