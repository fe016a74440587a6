// Lists that were read are walked where they lie, and no value fails.
ghost use Rattle.std.specs.Prelude.{◌≡◌, ◌≤◌, ◌<◌, length};
ghost use Rattle.std.specs.Iterator.{at_most};
ghost use Rattle.std.specs.List.{All};
ghost use Rattle.scroll_layouts.specs.Formats.{reads, refuses, len};
ghost use Rattle.scroll_layouts.specs.Lists.{SomeItems, YieldsItem};

use crate::{Items, Listed, Unmarked};
use scroll::Endian;
use std::marker::PhantomData;

/// The values of a list that are left, in order. Of a list that was read none fails if its values
/// are read in one way (`one_way` of their format), so they end where its bytes do.
#[derive(Drop)]
pub struct Values<'a, E, K> {
    /// The bytes that are left.
    pub bytes: &'a [u8],
    /// The order in which they are read.
    pub order: Endian,
    of: PhantomData<(E, K)>,
}

impl<'a, K: Unmarked<'a>> Items<'a, K> {
    /// Returns the values of a list within a length or by a count, which are read where they lie,
    /// without memory.
    #[inline(always)]
    pub fn values(&self) -> Values<'a, K::Error, K>
        ensures bytes { result.bytes.now ≡ self.now.bytes.now }
        ensures order { result.order ≡ self.now.order }
        ensures list { ∥ SomeItems K.item result.order result.bytes.now 0
            (length result.bytes.now) ∥₁ }
    {
        Values::of(self.bytes, self.order)
    }
}

impl<'a, E, K> Values<'a, E, K> {
    // Returns the values of a list, all of which are left.
    #[inline(always)]
    pub(crate) fn of(bytes: &'a [u8], order: Endian) -> Values<'a, E, K>
        ensures bytes { result.bytes.now ≡ bytes.now }
        ensures order { result.order ≡ order }
    {
        Values {
            bytes,
            order,
            of: PhantomData,
        }
    }
}

impl<'a, E: Drop, K: Listed<'a, Error = E>> Iterator for Values<'a, E, K> {
    type Item = K::Item;

    ghost next_gives = { λ old found new. (new.order ≡ old.order)
        × YieldsItem K.item old.order old.bytes.now found new.bytes.now };

    ghost remaining = { λ it. at_most (length it.bytes.now) };

    #[inline(always)]
    fn next(&mut self) -> Option<K::Item> {
        below(self.bytes);
        match K::read_item(self.bytes, 0, self.order) {
            Ok((value, size)) => {
                if size == 0 {
                    return None;
                }
                self.bytes = &self.bytes[size..];
                Some(value)
            }
            Err(_) => None,
        }
    }
}

// Does nothing, and says that bytes are below 256.
pub(crate) fn below(bytes: &[u8])
    ensures { All (λ b. b < 256) bytes.now }
{}
