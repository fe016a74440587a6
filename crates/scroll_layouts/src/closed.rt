// Lists whose last value says that it is the last.
ghost use Rattle.std.specs.Prelude.{◌≡◌, ◌≢◌, ◌≤◌, ◌<◌, ◌+◌, ◌-◌, ◌^◌, ◌++◌, ◌⊎◌, Bool, ℕ, List, length, take, drop, min, codes, IfOk, IfErr, OnOk};
ghost use Rattle.scroll.specs.declared.endian.Endian.{Endian};
ghost use Rattle.scroll_layouts.specs.Closed.{ClosedItems, CountedClosed, RefusesClosed, RefusesToLast};
ghost use Rattle.scroll_layouts.specs.Formats.{leaf, last, len, reads, refuses};
ghost use Rattle.scroll_layouts.specs.ListLeaves.{list_to_last};
ghost use Rattle.scroll_layouts.specs.Lists.{SomeItems, StopsAtItem};

use crate::lists::check_order;
use crate::refusals::no_bytes;
use crate::{Items, ListOf, ListPart, Listed, Part, ReadPart, Values};
use scroll::{Endian, Error};
use std::marker::PhantomData;
use std::result::Result;

/// A marker of lists of values of any size, of which the last one says that it is the last.
///
/// From `crates/scroll_layouts/src/tests/closed/derived.rt`, blocks with a flag for it:
///
/// ```rust
/// impl<'a> Closed<'a> for Blocks {
///     ghost closes = { λ x. (nat_eq x.is_last 1) };
///
///     ghost from_values = { λ order s n h. h };
///
///     ghost into_values = { λ order s n h. h };
///
///     #[inline(always)]
///     fn is_last(x: &Block<'a>) -> bool {
///         x.is_last == 1
///     }
/// }
/// ```
pub trait Closed<'a>: Listed<'a> {
    // Whether a value says that it is the last of its list.
    ghost closes: { Self.Item → Bool };

    /// Returns whether a value says that it is the last of its list.
    fn is_last(value: &Self::Item) -> bool
        ensures { result ≡ closes value.now };

    // Values up to the last one are a list.
    ghost from_values: { (order : Endian) (s : List ℕ) (n : ℕ)
        → CountedClosed Self.item Self.closes order s (length s) n → Self.is_list order s n };

    // A list is values up to the last one.
    ghost into_values: { (order : Endian) (s : List ℕ) (n : ℕ) → Self.is_list order s n
        → CountedClosed Self.item Self.closes order s (length s) n };
}

/// The context of a list whose last value says that it is the last.
#[derive(Drop)]
pub struct ToLast;

/// Values up to the one that says that it is the last. The errors are those of the values; a value
/// without bytes is [`Error::BadInput`] with its offset in the list and the message `a value has no
/// bytes`. A write in another byte order than that of the read is one with the number of bytes and
/// the message `another byte order than its values`.
impl<'a, K: Closed<'a>, L: ListPart<'a, Kind = K>> Part<ToLast, K::Error> for ListOf<'a, L>
where
    K::Error: From<Error> + Drop,
{
    ghost format = { λ _.
        last (leaf (list_to_last K.Error.from_gives K.item K.closes)) (λ x. L.seen x.0) };

    fn check(&self, order: Endian, _ctx: &ToLast) -> Result<(), K::Error> {
        let (bytes, known, _count) = self.0.parts();
        check_order(order, known, bytes.len())?;
        Ok(())
    }

    fn size(&self, _order: Endian, _ctx: &ToLast) -> usize {
        self.0.parts().0.len()
    }

    #[inline(always)]
    fn put(&self, dst: &mut [u8], _order: Endian, _ctx: &ToLast) {
        let (bytes, _order, _count) = self.0.parts();
        dst[..bytes.len()].copy_from_slice(bytes);
    }
}

impl<'a, K: Closed<'a>, L: ListPart<'a, Kind = K>> ReadPart<'a, ToLast, K::Error> for ListOf<'a, L>
where
    K::Error: From<Error> + Drop,
{
    ghost format = { λ _.
        last (leaf (list_to_last K.Error.from_gives K.item K.closes)) (λ x. L.seen x.0) };

    #[inline(always)]
    fn read_at(
        from: &'a [u8],
        offset: usize,
        order: Endian,
        _ctx: &ToLast,
    ) -> Result<(ListOf<'a, L>, usize), K::Error> {
        let rest = &from[offset..];
        let (end, count) = find_last::<K>(rest, order)?;
        let list = L::of(&rest[..end], order, count);
        Ok((ListOf(list, PhantomData), offset + end))
    }

    #[inline(always)]
    fn end_at(from: &'a [u8], offset: usize, order: Endian, ctx: &ToLast) -> Option<usize> {
        match <ListOf<'a, L> as ReadPart<'a, ToLast, K::Error>>::read_at(from, offset, order, ctx) {
            Ok((_list, end)) => Some(end),
            Err(_error) => None,
        }
    }
}

impl<'a, K: Closed<'a>> Items<'a, K> {
    /// Reads values up to the one that says that it is the last, and returns their list.
    ///
    /// The errors are those of the values; a value without bytes is [`Error::BadInput`] with its
    /// offset and the message `a value has no bytes`. Bytes behind the last value are one with the
    /// offset where it ends and the message `another length than its values`.
    #[inline(always)]
    pub fn to_last(bytes: &'a [u8], order: Endian) -> Result<Items<'a, K>, K::Error>
    where
        K::Error: From<Error> + Drop,
        ensures bytes { IfOk result (λ list. list.bytes.now ≡ bytes.now) }
        ensures order { IfOk result (λ list. list.order ≡ order) }
        ensures list { IfOk result (λ list. CountedClosed K.item K.closes order bytes.now
            (length bytes.now) list.count) }
        ensures refused { IfErr result (RefusesToLast K.Error.from_gives K.item K.closes order
            bytes.now) }
    {
        let count = check_last::<K>(bytes, order)?;
        Ok(Items::of(bytes, order, count))
    }

    /// Returns the values of a list up to its last one, which are read where they lie, without
    /// memory.
    #[inline(always)]
    pub fn values_to_last(&self) -> Values<'a, K::Error, K>
        ensures bytes { result.bytes.now ≡ self.now.bytes.now }
        ensures order { result.order ≡ self.now.order }
        ensures list { ∥ SomeItems K.item result.order result.bytes.now 0
            (length result.bytes.now) ∥₁ }
        ensures closed { ∥ ClosedItems K.item K.closes result.order result.bytes.now
            (length result.bytes.now) ∥₁ }
    {
        Values::of(self.bytes, self.order)
    }
}

// Returns how many values there are up to the last one, behind which there is no byte.
fn check_last<'a, K: Closed<'a>>(bytes: &'a [u8], order: Endian) -> Result<usize, K::Error>
where
    K::Error: From<Error> + Drop,
    ensures read { IfOk result (CountedClosed K.item K.closes order bytes.now
        (length bytes.now)) }
    ensures refused { IfErr result (RefusesToLast K.Error.from_gives K.item K.closes order
        bytes.now) }
{
    let (end, count) = find_last::<K>(bytes, order)?;
    if end != bytes.len() {
        return Err(K::Error::from(Error::BadInput {
            size: end,
            msg: "another length than its values",
        }));
    }
    Ok(count)
}

// Returns where the value ends that says that it is the last, and how many values there are.
fn find_last<'a, K: Closed<'a>>(bytes: &'a [u8], order: Endian) -> Result<(usize, usize), K::Error>
where
    K::Error: From<Error> + Drop,
    ensures read { IfOk result (λ r. CountedClosed K.item K.closes order bytes.now r.0 r.1) }
    ensures inside { IfOk result (λ r. r.0 ≤ length bytes.now) }
    ensures refused { IfErr result (RefusesClosed K.Error.from_gives K.item K.closes order
        bytes.now) }
{
    let mut at = 0;
    let mut count = 0;
    loop {
        let (end, is_last) = read_next::<K>(bytes, at, order)?;
        count += 1;
        if is_last {
            return Ok((end, count));
        }
        at = end;
    }
}

// Reads the value at an offset, and returns where it ends and whether it says that it is the last.
#[inline(always)]
fn read_next<'a, K: Closed<'a>>(
    bytes: &'a [u8],
    at: usize,
    order: Endian,
) -> Result<(usize, bool), K::Error>
where
    K::Error: From<Error> + Drop,
    requires { at ≤ length bytes.now }
    ensures read { IfOk result (λ r. (x : K.Item) × reads K.item order bytes.now at x
        × (r.0 ≡ at + len K.item x) × (K.closes x ≡ r.1)) }
    ensures forward { IfOk result (λ r. (at < r.0) × (r.0 ≤ length bytes.now)) }
    ensures refused { IfErr result (StopsAtItem K.Error.from_gives K.item order bytes.now at) }
{
    let (value, end) = K::read_item(bytes, at, order)?;
    if end == at {
        return Err(no_bytes(at));
    }
    Ok((end, K::is_last(&value)))
}
