// Lists up to a mark that were read are walked where they lie, and no value fails.
ghost use Rattle.std.specs.Prelude.{◌≡◌, ◌≤◌, ◌<◌, length, Some, None, IfOk, IfErr};
ghost use Rattle.std.specs.Iterator.{at_most};
ghost use Rattle.std.specs.List.{All};
ghost use Rattle.scroll_layouts.specs.Formats.{reads, refuses, len};
ghost use Rattle.scroll_layouts.specs.Marks.{MarkedItems, CountedMarked, RefusesToMark, YieldsMarked};

use super::{end_at, find_end};
use crate::walk::below;
use crate::{Items, Marked};
use scroll::{Endian, Error};
use std::marker::PhantomData;
use std::result::Result;

/// The values of a list that are left, in order, up to its mark. Of a list that was read none
/// fails if its values are read in one way (`one_way` of their format).
#[derive(Drop)]
pub struct MarkedValues<'a, E, K> {
    /// The bytes that are left, with the mark.
    pub bytes: &'a [u8],
    /// The order in which they are read.
    pub order: Endian,
    of: PhantomData<(E, K)>,
}

impl<'a, K: Marked<'a>> Items<'a, K> {
    /// Reads values and the mark that ends them, and returns their list.
    ///
    /// The errors are those of the values; a value without bytes is [`Error::BadInput`] with its
    /// offset and the message `a value has no bytes`. Bytes after the mark are one with the offset
    /// where it ends and the message `another length than its values`.
    #[inline(always)]
    pub fn to_mark(bytes: &'a [u8], order: Endian) -> Result<Items<'a, K>, K::Error>
    where
        K::Error: From<Error> + Drop,
        ensures bytes { IfOk result (λ list. list.bytes.now ≡ bytes.now) }
        ensures order { IfOk result (λ list. list.order ≡ order) }
        ensures list { IfOk result (λ list. CountedMarked K.End.mark K.item order
            bytes.now (length bytes.now) list.count) }
        ensures refused { IfErr result (RefusesToMark K.Error.from_gives K.End.mark
            K.item order bytes.now) }
    {
        let (end, count) = find_end::<K>(bytes, order)?;
        if end != bytes.len() {
            return Err(K::Error::from(Error::BadInput {
                size: end,
                msg: "another length than its values",
            }));
        }
        Ok(Items::of(bytes, order, count))
    }

    /// Returns the values of a list up to its mark, which are read where they lie, without memory.
    #[inline(always)]
    pub fn values_to_mark(&self) -> MarkedValues<'a, K::Error, K>
        ensures bytes { result.bytes.now ≡ self.now.bytes.now }
        ensures order { result.order ≡ self.now.order }
        ensures list { ∥ MarkedItems K.End.mark K.item result.order result.bytes.now
            (length result.bytes.now) ∥₁ }
    {
        MarkedValues {
            bytes: self.bytes,
            order: self.order,
            of: PhantomData,
        }
    }
}

impl<'a, E: Drop, K: Marked<'a, Error = E>> Iterator for MarkedValues<'a, E, K> {
    type Item = K::Item;

    ghost next_gives = { λ old found new. (new.order ≡ old.order)
        × YieldsMarked K.End.mark K.item old.order old.bytes.now found
        new.bytes.now };

    ghost remaining = { λ it. at_most (length it.bytes.now) };

    #[inline(always)]
    fn next(&mut self) -> Option<K::Item> {
        if let Some(_end) = end_at::<K::End>(self.bytes, 0) {
            return None;
        }
        below(self.bytes);
        match K::read_item(self.bytes, 0, self.order) {
            Ok((value, size)) => {
                if size == 0 {
                    return None;
                }
                self.bytes = &self.bytes[size..];
                Some(value)
            }
            Err(_) => None,
        }
    }
}
