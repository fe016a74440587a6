// Lists that end with a mark.
ghost use Rattle.std.specs.Prelude.{◌≡◌, ◌≢◌, ◌≤◌, ◌<◌, ◌+◌, ◌-◌, ◌^◌, ◌++◌, ◌⊎◌, [], ◌∷◌, List, ℕ, Some, None, Option, length, take, drop, min, codes, IfOk, IfErr, IfSome, IfNone, OnOk};
ghost use Rattle.scroll.specs.declared.endian.Endian.{Endian};
ghost use Rattle.scroll_layouts.specs.Formats.{leaf, last, len, reads, refuses};
ghost use Rattle.scroll_layouts.specs.ListLeaves.{list_until};
ghost use Rattle.scroll_layouts.specs.Marks.{Mark, MarkEnds, CountedMarked, RefusesMarked};

mod ends;
mod refusals;
mod until;
mod values;

pub use self::ends::{EndMark, NameEnd, TwoZeroUlebs, ZeroUleb, begins_with};
use self::refusals::explain_marked;
pub use self::until::append_until;
pub use self::values::MarkedValues;
use crate::lists::check_order;
use crate::steps::end_next;
use crate::{ListOf, ListPart, Listed, Part, ReadPart};
use scroll::{Endian, Error};
use std::marker::PhantomData;
use std::result::Result;

/// A marker of lists of values of any size up to a mark, which stands where no value begins.
///
/// From `crates/scroll_layouts/src/tests/many.rt`, a list of files that says its own mark:
///
/// ```rust
/// impl<'a> Marked<'a> for StoredFiles {
///     type End = StoredFiles;
///
///     ghost from_values = { λ order s n h. h };
///
///     ghost into_values = { λ order s n h. h };
/// }
/// ```
pub trait Marked<'a>: Listed<'a> {
    /// What ends a list.
    type End: EndMark;

    // Values and a mark behind them are a list.
    ghost from_values: { (order : Endian) (s : List ℕ) (n : ℕ)
        → CountedMarked Self.End.mark Self.item order s (length s) n → Self.is_list order s n };

    // A list is values and a mark behind them.
    ghost into_values: { (order : Endian) (s : List ℕ) (n : ℕ) → Self.is_list order s n
        → CountedMarked Self.End.mark Self.item order s (length s) n };
}

/// The context of a list that ends with its mark.
#[derive(Drop)]
pub struct ToMark;

/// Values, and the mark that ends them. The errors are those of the values; a value without bytes
/// is [`Error::BadInput`] with its offset in the list and the message `a value has no bytes`. A
/// write in another byte order than that of the read is one with the number of bytes and the
/// message `another byte order than its values`.
impl<'a, K: Marked<'a>, L: ListPart<'a, Kind = K>> Part<ToMark, K::Error> for ListOf<'a, L>
where
    K::Error: From<Error> + Drop,
{
    ghost format = { λ _.
        last (leaf (list_until K.Error.from_gives K.End.mark K.item)) (λ x. L.seen x.0) };

    fn check(&self, order: Endian, _ctx: &ToMark) -> Result<(), K::Error> {
        let (bytes, known, _count) = self.0.parts();
        check_order(order, known, bytes.len())?;
        Ok(())
    }

    fn size(&self, _order: Endian, _ctx: &ToMark) -> usize {
        self.0.parts().0.len()
    }

    #[inline(always)]
    fn put(&self, dst: &mut [u8], _order: Endian, _ctx: &ToMark) {
        let (bytes, _order, _count) = self.0.parts();
        dst[..bytes.len()].copy_from_slice(bytes);
    }
}

impl<'a, K: Marked<'a>, L: ListPart<'a, Kind = K>> ReadPart<'a, ToMark, K::Error> for ListOf<'a, L>
where
    K::Error: From<Error> + Drop,
{
    ghost format = { λ _.
        last (leaf (list_until K.Error.from_gives K.End.mark K.item)) (λ x. L.seen x.0) };

    #[inline(always)]
    fn read_at(
        from: &'a [u8],
        offset: usize,
        order: Endian,
        _ctx: &ToMark,
    ) -> Result<(ListOf<'a, L>, usize), K::Error> {
        let rest = &from[offset..];
        let (end, count) = find_end::<K>(rest, order)?;
        let list = L::of(&rest[..end], order, count);
        Ok((ListOf(list, PhantomData), offset + end))
    }

    #[inline(always)]
    fn end_at(from: &'a [u8], offset: usize, order: Endian, _ctx: &ToMark) -> Option<usize> {
        let rest = &from[offset..];
        let (end, count) = skip_marked::<K>(rest, order)?;
        let _list = ListOf::<'a, L>(L::of(&rest[..end], order, count), PhantomData);
        Some(offset + end)
    }
}

// Returns where the mark ends that stands after some values, and how many these are.
#[inline(always)]
pub(crate) fn find_end<'a, K: Marked<'a>>(
    bytes: &'a [u8],
    order: Endian,
) -> Result<(usize, usize), K::Error>
where
    K::Error: From<Error> + Drop,
    ensures read { IfOk result (λ r.
        CountedMarked K.End.mark K.item order bytes.now r.0 r.1) }
    ensures inside { IfOk result (λ r. r.0 ≤ length bytes.now) }
    ensures refused { IfErr result
        (RefusesMarked K.Error.from_gives K.End.mark K.item order bytes.now) }
{
    match skip_marked::<K>(bytes, order) {
        Some(found) => Ok(found),
        None => explain_marked::<K>(bytes, order),
    }
}

// Returns the same, or `None` where a value is refused.
#[inline(always)]
fn skip_marked<'a, K: Marked<'a>>(bytes: &'a [u8], order: Endian) -> Option<(usize, usize)>
where
    K::Error: From<Error> + Drop,
    ensures read { IfSome result (λ r.
        CountedMarked K.End.mark K.item order bytes.now r.0 r.1) }
    ensures inside { IfSome result (λ r. r.0 ≤ length bytes.now) }
    ensures none { IfNone result ((e : K.Error)
        × RefusesMarked K.Error.from_gives K.End.mark K.item order bytes.now e) }
{
    let mut at = 0;
    let mut count = 0;
    loop {
        if let Some(end) = end_at::<K::End>(bytes, at) {
            return Some((end, count));
        }
        at = end_next::<K>(bytes, at, order)?;
        count += 1;
    }
}

// Returns where the mark ends that stands at an offset.
#[inline(always)]
pub(crate) fn end_at<M: EndMark>(bytes: &[u8], at: usize) -> Option<usize>
    requires { at ≤ length bytes.now }
    ensures found { IfSome result (MarkEnds M.mark bytes.now at) }
    ensures inside { IfSome result (λ end. end ≤ length bytes.now) }
    ensures none { IfNone result (M.mark.size (drop at bytes.now) ≡ None) }
{
    let size = M::mark_size(&bytes[at..])?;
    Some(at + size)
}
