// Arrays of values that can be read or written, in the context of the elements.
ghost use Rattle.std.specs.Prelude.{◌≡◌, ℕ, ◌+◌, ◌*◌, ◌<◌, ◌≤◌, List, length, drop, map, max, Some, None, IfOk, IfErr, slice_index_or, slice_set};
ghost use Rattle.scroll.specs.Arrays.{FailsIfFits, SlotsFit, ItemsFit, ReadsArray, RefusesArray, WritesArray, FailsArray, MakesArray, OverwritesValue, FillsArray};
ghost use Rattle.scroll.specs.lemmas.Frames.{ReadsArray-bounded, WritesArray-bounded, WritesArray-keeps, FillsArray-keeps};
ghost use Rattle.scroll.specs.Writes.{WritesAt, FailsAt};
ghost use Rattle.scroll.specs.Errors.{PastEnd};
ghost use Rattle.scroll.specs.declared.error.Error.TheVariants.{NoMemory};

use crate::ctx::memory::fits;
use crate::ctx::{FromCtx, IntoCtx, SizeWith, TryFromCtx, TryIntoCtx};
use crate::error::{Error, Result};
use crate::pread::Pread;
use arrayvec::ArrayVec;
use std::{array, mem, result};

// Takes the element at `index` and leaves `None` in its place.
fn take_slot<T: Drop, const N: usize>(slots: &mut ArrayVec<Option<T>, N>, index: usize) -> T
    requires { (x : T) × (slice_index_or slots.old.items index None ≡ Some x) }
    ensures value { slice_index_or slots.old.items index None ≡ Some result }
    ensures after { slots.new.items ≡ slice_set slots.old.items index None }
{
    match mem::take(&mut slots.as_mut_slice()[index]) {
        Some(x) => x,
        None => unreachable!(),
    }
}

// Unwraps a full vector of options into an array.
fn unwrap_slots<T: Drop, const N: usize>(mut slots: ArrayVec<Option<T>, N>) -> [T; N]
    requires { (xs : List T) × (slots.items ≡ map (λ x. Some x) xs) × (length xs ≡ N) }
    ensures { slots.items ≡ map (λ x. Some x) result }
{
    array::from_fn(
        |i| -> T
            requires { (x : T) × (slice_index_or slots.items i None ≡ Some x) }
            ensures value { slice_index_or slots.entry.items i None ≡ Some result }
            ensures after { slots.exit.items ≡ slice_set slots.entry.items i None }
        { take_slot(&mut slots, i) },
    )
}

// Writes an element at `offset`, after the elements before it, and returns its size.
fn write_next<Ctx: Copy, T: TryIntoCtx<Ctx, Error = Error> + Drop>(
    value: T,
    dst: &mut [u8],
    offset: usize,
    ctx: Ctx,
) -> Result<usize>
    requires { offset ≤ length dst.old }
    ensures wrote { IfOk result (WritesAt (T.writes ctx value) dst.old offset dst.new) }
    ensures inside { IfOk result (λ n. offset + n ≤ length dst.new) }
    ensures refused { IfErr result (FailsAt (T.refuses ctx value) dst.old offset dst.new) }
{
    value.try_into_ctx(&mut dst[offset..], ctx)
}

/// Reads the elements one after another. One that would start past the end returns
/// `E::from(Error::BadOffset(offset))`, where the offset counts from the start of the array; every
/// other error is that of the first element that fails. An array whose storage doesn't fit in
/// memory is `E::from(Error::NoMemory)`: see [`array_fits`](crate::ctx::array_fits).
///
/// ```rust
/// let source: &[u8] = &[1, 0, 2, 0, 3, 0];
/// assert_eq!(rt; source.pread_with::<[u16; 3]>(0, LE)?, [1, 2, 3]);
/// let short = source.pread_with::<[[u16; 2]; 2]>(0, LE);
/// assert!(rt; matches!(short, Err(Error::TooBig { size: 2, len: 0 })));
/// ```
///
/// To take an array of borrowed values out of a result, pass a function to `map`: the prover can't
/// yet follow `?` or `match` on such a result.
///
/// ```rust
/// fn take_apart<'a>(names: [&'a str; 2]) -> (&'a str, &'a str) {
///     (names[0], names[1])
/// }
///
/// let (first, second) = file.pread_with(0, StrCtx::Delimiter(NULL)).map(take_apart)?;
/// ```
impl<
    'a,
    Ctx: Copy,
    E: From<Error>,
    T: TryFromCtx<'a, Ctx, Error = E> + Drop,
    const N: usize,
> TryFromCtx<'a, Ctx> for [T; N] {
    type Error = E;

    ghost reads = { λ ctx. ReadsArray (T.reads ctx) N };

    ghost refuses = { λ ctx source e. FailsIfFits (SlotsFit T.row N.row)
        (RefusesArray (T.reads ctx) (T.refuses ctx) (PastEnd E.from_gives) N source e)
        (E.from_gives NoMemory e) };

    ghost reads_bounded = { λ ctx. ReadsArray-bounded (T.reads ctx) (T.reads_bounded ctx) N };

    #[inline(always)]
    fn try_from_ctx(from: &'a [u8], ctx: Ctx) -> result::Result<([T; N], usize), E> {
        if !fits::<ArrayVec<Option<T>, N>>() {
            return Err(E::from(Error::NoMemory));
        }
        let mut slots: ArrayVec<Option<T>, N> = ArrayVec::new();
        let mut offset = 0;
        for _i in 0..N {
            let value: T = from.gread_with(&mut offset, ctx)?;
            slots.push(Some(value));
        }
        let values = unwrap_slots(slots);
        Ok((values, offset))
    }
}

/// Writes the elements one after another. The error is that of the first element that fails; those
/// before it are then written. An array whose storage doesn't fit in memory is [`Error::NoMemory`],
/// and nothing is written.
///
/// ```rust
/// let mut bytes = [0xffu8; 7];
/// let mut target = &mut bytes[..];
/// assert_eq!(rt; target.pwrite_with([1u16, 2], 0, BE)?, 4);
/// assert_eq!(rt; bytes, [0, 1, 0, 2, 0xff, 0xff, 0xff]);
/// let mut target = &mut bytes[..];
/// let short = target.pwrite_with([[1u16, 2], [3, 4]], 0, BE);
/// assert!(rt; matches!(short, Err(Error::TooBig { size: 2, len: 1 })));
/// assert_eq!(rt; bytes, [0, 1, 0, 2, 0, 3, 0xff]);
/// ```
impl<Ctx: Copy, T: TryIntoCtx<Ctx, Error = Error> + Drop, const N: usize> TryIntoCtx<Ctx>
    for [T; N] {
    type Error = Error;

    ghost writes = { λ ctx. WritesArray (T.writes ctx) };

    ghost refuses = { λ ctx xs old new e. FailsIfFits (ItemsFit T.row N.row)
        (FailsArray (T.writes ctx) (T.refuses ctx) xs old new e)
        ((e ≡ NoMemory) × (new ≡ old)) };

    ghost writes_bounded = { λ ctx. WritesArray-bounded (T.writes ctx) (T.writes_bounded ctx) };

    ghost writes_keeps = { λ ctx. WritesArray-keeps (T.writes ctx) (T.writes_keeps ctx) };

    fn try_into_ctx(self, dst: &mut [u8], ctx: Ctx) -> Result<usize> {
        if !fits::<array::IntoIter<T, N>>() {
            return Err(Error::NoMemory);
        }
        let mut values = self.into_iter();
        let mut offset = 0;
        for _i in 0..N {
            match values.next() {
                Some(value) => offset += write_next(value, dst, offset, ctx)?,
                None => unreachable!(),
            }
        }
        Ok(offset)
    }
}

/// Reads the elements, each an element's size ([`SizeWith`]) after the one before it. `this` has
/// `N` times as many bytes as an element needs or has as its size, whichever is more.
impl<Ctx: Copy, T: FromCtx<Ctx> + SizeWith<Ctx>, const N: usize> FromCtx<Ctx> for [T; N] {
    ghost need = { λ ctx. max (T.size ctx) (T.need ctx) * N };

    ghost makes = { λ ctx. MakesArray (T.size ctx) (T.makes ctx) N };

    fn from_ctx(this: &[u8], ctx: Ctx) -> [T; N] {
        array::from_fn(
            move |i| -> T
                requires { max (T.size ctx) (T.need ctx) * (i + 1) ≤ length this.now }
                ensures made { T.makes ctx (drop (T.size ctx * i) this.entry.now) result }
                ensures same { this.exit.now ≡ this.entry.now }
            { element(this, i, ctx) },
        )
    }
}

// Reads the element at `index`.
#[inline(always)]
fn element<Ctx: Copy, T: FromCtx<Ctx> + SizeWith<Ctx>>(this: &[u8], index: usize, ctx: Ctx) -> T
    requires { max (T.size ctx) (T.need ctx) * (index + 1) ≤ length this.now }
    ensures { T.makes ctx (drop (T.size ctx * index) this.now) result }
{
    T::from_ctx(&this[T::size_with(&ctx) * index..], ctx)
}

/// Writes the elements, each an element's size ([`SizeWith`]) after the one before it. `dst` has as
/// many bytes as such a read needs; those after them are unchanged.
impl<Ctx: Copy, T: IntoCtx<Ctx> + SizeWith<Ctx> + Copy, const N: usize> IntoCtx<Ctx> for [T; N] {
    ghost need = { λ ctx. max (T.size ctx) (T.need ctx) * N };

    ghost overwrites = { λ ctx. FillsArray (T.size ctx) (T.overwrites ctx) N };

    ghost overwrites_keeps = { λ ctx.
        FillsArray-keeps (T.size ctx) (T.need ctx) (T.overwrites ctx) (T.overwrites_keeps ctx) N };

    fn into_ctx(self, dst: &mut [u8], ctx: Ctx) {
        for i in 0..N {
            put_element(self[i], dst, i, ctx);
        }
    }
}

// Writes an element at its offset.
#[inline(always)]
fn put_element<Ctx: Copy, T: IntoCtx<Ctx> + SizeWith<Ctx>>(
    value: T,
    dst: &mut [u8],
    index: usize,
    ctx: Ctx,
)
    requires { max (T.size ctx) (T.need ctx) * (index + 1) ≤ length dst.old }
    ensures { OverwritesValue (T.overwrites ctx value) dst.old (T.size ctx * index) dst.new }
{
    value.into_ctx(&mut dst[T::size_with(&ctx) * index..], ctx)
}

/// `N` times the size of an element.
impl<Ctx, T: SizeWith<Ctx>, const N: usize> SizeWith<Ctx> for [T; N] {
    ghost size = { λ ctx. T.size ctx * N };

    fn size_with(ctx: &Ctx) -> usize {
        if N == 0 {
            return 0;
        }
        T::size_with(ctx) * N
    }
}
