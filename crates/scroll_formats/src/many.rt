// Many values, one after another.
ghost use Rattle.std.specs.Prelude.{◌≡◌, ◌≤◌, ◌<◌, ◌+◌, ◌∷◌, [], ℕ, List, length, take, IfOk, IfErr, OnOk, OnErr, ◌↔◌, ◌++◌, ◌⊎◌, IsTrue};
ghost use Rattle.scroll.specs.Arrays.{WritesAll};
ghost use Rattle.std.specs.List.{All};
ghost use Rattle.scroll_formats.specs.Many.{LacksMemory, WithBytes, RefusesMany, RefusesSize, RefusesToEnd, FailsMany, ChangesBetween, KeepsOne, KeepsAll, StopsBefore, LacksEntry, WritesPlaced, KeepsPlaced};
ghost use Rattle.scroll.specs.Reads.{ReadsAll, ReadsBetween, RefusesAt};
ghost use Rattle.scroll.specs.Errors.{PastEnd};
ghost use Rattle.scroll.specs.Writes.{WritesAt, RefusesWriteAt};
ghost use Rattle.scroll_formats.specs.Tagged.{WritesTagged, FailsTagged};
ghost use Rattle.scroll.specs.declared.endian.Endian.{Endian};
ghost use Rattle.scroll.specs.declared.error.Error.TheVariants.{NoMemory};

use crate::kept::Kept;
use crate::located::At;
use scroll::ctx::{Plain, TryFromCtx, TryIntoCtx};
use scroll::{Endian, Error, Pread, check_room, slice};
use std::alloc::Global;
use std::result::Result;

/// Reads `count` values, one after another from the cursor `offset`, and advances it past the last
/// one.
///
/// Returns the error of the first value that can't be read, with the offset at which it starts, and
/// leaves the cursor there. An allocation failure is the error [`Error::NoMemory`] of the value for
/// which there was no memory, and hides no other error. Memory is allocated as values are read, so
/// a count that is too large costs none.
///
/// ```rust
/// let file: &[u8] = &[1, 0, 2, 0, 3];
/// let mut offset = 0;
/// let numbers: Vec<u16> = read_many(rt.alloc(), file, &mut offset, 2, LE)?;
/// assert_eq!(rt; numbers.as_slice(), [1, 2].as_slice());
/// ```
pub fn read_many<'a, Ctx: Copy, E: From<Error>, T: TryFromCtx<'a, Ctx, Error = E> + Drop>(
    alloc: Global,
    from: &'a [u8],
    offset: &mut usize,
    count: usize,
    ctx: Ctx,
) -> Result<Vec<T>, At<E>>
    ensures read { IfOk result (λ values.
        ReadsAll (T.reads ctx) from.now offset.old values.items offset.new) }
    ensures count { IfOk result (λ values. length values.items ≡ count) }
    ensures refused { IfErr result (λ located.
        RefusesMany (T.reads ctx) (T.refuses ctx) E.from_gives from.now offset.old count
        located.offset located.error) }
    ensures stays { IfErr result (λ located. offset.new ≡ located.offset) }
{
    let mut values = Vec::new(alloc);
    for _i in 0..count {
        if let Err(error) = read_next(&mut values, from, offset, ctx) {
            return Err(At {
                offset: *offset,
                error,
            });
        }
    }
    Ok(values)
}

// Reads a value at the cursor, and appends it to `values`. On an error neither has changed.
#[inline(always)]
pub(crate) fn read_next<'a, Ctx: Copy, E: From<Error>, T: TryFromCtx<'a, Ctx, Error = E> + Drop>(
    values: &mut Vec<T>,
    from: &'a [u8],
    offset: &mut usize,
    ctx: Ctx,
) -> Result<(), E>
    ensures read { OnOk result ((value : T) × (values.new.items ≡ values.old.items ++ value ∷ [])
        × ReadsBetween (T.reads ctx) from.now offset.old offset.new value) }
    ensures refused { IfErr result (λ e. RefusesAt (T.refuses ctx) (PastEnd E.from_gives)
        from.now offset.old e ⊎ LacksMemory (T.reads ctx) E.from_gives from.now offset.old e) }
    ensures same { OnErr result (values.new.items ≡ values.old.items) }
    ensures stays { OnErr result (offset.new ≡ offset.old) }
{
    let start = *offset;
    let value: T = from.gread_with(offset, ctx)?;
    if values.push(value).is_err() {
        *offset = start;
        return Err(E::from(Error::NoMemory));
    }
    Ok(())
}

/// Reads values, one after another from the cursor `offset`, and advances it to the end of the
/// bytes.
///
/// The errors are those of [`read_many`], but leave the cursor unchanged. A value of no bytes, or
/// one whose size goes past the end, is [`Error::BadInput`] with its size and the message `a value
/// of no bytes, or past the end`.
///
/// ```rust
/// let file: &[u8] = &[0xff, 1, 0, 2, 0];
/// let mut offset = 1;
/// let numbers: Vec<u16> = read_to_end(rt.alloc(), file, &mut offset, LE)?;
/// assert_eq!(rt; numbers.as_slice(), [1, 2].as_slice());
/// assert_eq!(rt; offset, 5);
/// ```
pub fn read_to_end<'a, Ctx: Copy, E: From<Error>, T: TryFromCtx<'a, Ctx, Error = E> + Drop>(
    alloc: Global,
    from: &'a [u8],
    offset: &mut usize,
    ctx: Ctx,
) -> Result<Vec<T>, At<E>>
    ensures read { IfOk result (λ values.
        ReadsAll (T.reads ctx) from.now offset.old values.items (length from.now)) }
    ensures each { IfOk result (λ values. ReadsAll (WithBytes (T.reads ctx)) from.now offset.old
        values.items (length from.now)) }
    ensures moves { OnOk result (offset.new ≡ length from.now) }
    ensures refused { IfErr result (λ located.
        RefusesToEnd (T.reads ctx) (T.refuses ctx) E.from_gives from.now offset.old
        located.offset located.error) }
    ensures stays { OnErr result (offset.new ≡ offset.old) }
{
    let mut values = Vec::new(alloc);
    let mut end = *offset;
    while end != from.len() {
        let start = end;
        if let Err(error) = read_some(&mut values, from, &mut end, ctx) {
            return Err(At {
                offset: start,
                error,
            });
        }
    }
    *offset = end;
    Ok(values)
}

// Reads a value of at least one byte, within the source, at the cursor, and appends it to `values`.
#[inline(always)]
fn read_some<'a, Ctx: Copy, E: From<Error>, T: TryFromCtx<'a, Ctx, Error = E> + Drop>(
    values: &mut Vec<T>,
    from: &'a [u8],
    offset: &mut usize,
    ctx: Ctx,
) -> Result<(), E>
    ensures read { OnOk result ((value : T) × (values.new.items ≡ values.old.items ++ value ∷ [])
        × ReadsBetween (WithBytes (T.reads ctx)) from.now offset.old offset.new value) }
    ensures forward { OnOk result (offset.old < offset.new) }
    ensures inside { OnOk result (offset.new ≤ length from.now) }
    ensures refused { IfErr result (λ e. RefusesAt (T.refuses ctx) (PastEnd E.from_gives)
        from.now offset.old e
        ⊎ LacksMemory (WithBytes (T.reads ctx)) E.from_gives from.now offset.old e
        ⊎ RefusesSize (T.reads ctx) E.from_gives from.now offset.old e) }
{
    let start = *offset;
    let value: T = from.gread_with(offset, ctx)?;
    if *offset == start || *offset > from.len() {
        return Err(E::from(Error::BadInput {
            size: *offset - start,
            msg: "a value of no bytes, or past the end",
        }));
    }
    if values.push(value).is_err() {
        return Err(E::from(Error::NoMemory));
    }
    Ok(())
}

/// Writes values, one after another from the cursor `offset`, and advances it past the last one.
/// [`read_many`] reads them back.
///
/// Returns the error of the first value that can't be written, with the offset at which it would
/// start, and leaves the cursor there. The values before it are then written.
///
/// ```rust
/// let mut file = [0xffu8; 6];
/// let mut offset = 1;
/// write_many(&mut file, &[1u16, 2], &mut offset, LE)?;
/// assert_eq!(rt; file, [0xff, 1, 0, 2, 0, 0xff]);
/// assert_eq!(rt; offset, 5);
/// ```
pub fn write_many<Ctx: Copy, E: From<Error>, T: TryIntoCtx<Ctx, Error = E> + Copy + Drop>(
    dst: &mut [u8],
    values: &[T],
    offset: &mut usize,
    ctx: Ctx,
) -> Result<(), At<E>>
    ensures wrote { OnOk result
        (WritesAll (T.writes ctx) dst.old offset.old values.now dst.new offset.new) }
    ensures refused { IfErr result (λ located.
        FailsMany (T.writes ctx) (T.refuses ctx) E.from_gives dst.old offset.old values.now dst.new
        located.offset located.error) }
    ensures stays { IfErr result (λ located. offset.new ≡ located.offset) }
{
    for i in 0..values.len() {
        let start = *offset;
        match slice::gwrite_with(dst, values[i], offset, ctx) {
            Ok(_size) => (),
            Err(error) => {
                return Err(At {
                    offset: start,
                    error,
                });
            }
        }
    }
    Ok(())
}

/// Writes a value like [`gwrite_with`](slice::gwrite_with). It reads back at its offset, whatever
/// is written after it.
pub fn write_kept<
    'a,
    Ctx: Copy,
    E: From<Error>,
    T: Kept<'a, Ctx> + TryIntoCtx<Ctx, Error = E> + Drop,
>(dst: &mut [u8], value: T, offset: &mut usize, ctx: Ctx) -> Result<usize, E>
    ensures wrote { IfOk result
        (WritesAt (T.TryIntoCtx.writes ctx value) dst.old offset.old dst.new) }
    ensures again { OnOk result
        (ReadsBetween (T.Kept.reads ctx) dst.new offset.old offset.new value) }
    ensures kept { OnOk result
        (KeepsOne (T.Kept.reads ctx) dst.new offset.old value offset.new) }
    ensures others { OnOk result (ChangesBetween offset.old offset.new dst.old dst.new) }
    ensures moves { IfOk result (λ size. offset.new ≡ offset.old + size) }
    ensures refused { IfErr result (RefusesWriteAt (T.TryIntoCtx.refuses ctx value)
        (PastEnd E.from_gives) dst.old offset.old dst.new) }
    ensures stays { OnErr result (offset.new ≡ offset.old) }
{
    value.fit();
    let size = slice::gwrite_with(dst, value, offset, ctx)?;
    Ok(size)
}

/// Writes values like [`write_many`]. They read back, whatever is written after them, and
/// [`read_to_end`] reads them from the bytes up to the cursor.
pub fn write_many_kept<
    'a,
    Ctx: Copy,
    E: From<Error>,
    T: Kept<'a, Ctx> + TryIntoCtx<Ctx, Error = E> + Copy + Drop,
>(dst: &mut [u8], values: &[T], offset: &mut usize, ctx: Ctx) -> Result<(), At<E>>
    ensures wrote { OnOk result
        (WritesAll (T.TryIntoCtx.writes ctx) dst.old offset.old values.now dst.new offset.new) }
    ensures again { OnOk result
        (ReadsAll (T.Kept.reads ctx) dst.new offset.old values.now offset.new) }
    ensures kept { OnOk result
        (KeepsAll (T.Kept.reads ctx) dst.new offset.old values.now offset.new) }
    ensures whole { offset.old ≤ length dst.old → OnOk result
        (ReadsAll (T.Kept.reads ctx) (take offset.new dst.new) offset.old values.now
        (length (take offset.new dst.new))) }
    ensures others { OnOk result (ChangesBetween offset.old offset.new dst.old dst.new) }
    ensures refused { IfErr result (λ located. FailsMany (T.TryIntoCtx.writes ctx)
        (T.TryIntoCtx.refuses ctx) E.from_gives dst.old offset.old values.now dst.new
        located.offset located.error) }
    ensures stays { IfErr result (λ located. offset.new ≡ located.offset) }
{
    fit_all(values);
    write_many(dst, values, offset, ctx)?;
    Ok(())
}

/// An entry that says where a value of the type `T` stands, such as one of a directory.
pub trait EntryOf<T>: Sized {
    /// The error of an offset that doesn't fit the entry.
    type Error;

    // The offset that an entry says.
    ghost place: { Self → ℕ };

    // Holds of an entry and each value that it describes.
    ghost describes: { Self → T → Type 0 };

    // Holds of an offset that doesn't fit, and its error.
    ghost misplaced: { ℕ → Self.Error → Type 0 };

    /// Returns the entry of a value that stands at `offset`.
    ///
    /// Returns the type's error if the offset doesn't fit the entry.
    fn entry_of(value: &T, offset: usize) -> Result<Self, Self::Error>
        ensures place { IfOk result (λ entry. place entry ≡ offset) }
        ensures describes { IfOk result (λ entry. describes entry value.now) }
        ensures misplaced { IfErr result (misplaced offset) };
}

/// Writes values like [`write_many_kept`], and returns an entry for each, which says where it
/// stands.
///
/// Returns the error of the first value that can't be written or whose offset doesn't fit its
/// entry, with that offset, and leaves the cursor there; or [`Error::NoMemory`] of the value for
/// whose entry there was no memory. The values before it are then written.
pub fn write_placed<
    'a,
    Ctx: Copy,
    E: From<Error>,
    T: Kept<'a, Ctx> + TryIntoCtx<Ctx, Error = E> + Copy + Drop,
    P: EntryOf<T, Error = E> + Drop,
>(
    alloc: Global,
    dst: &mut [u8],
    values: &[T],
    offset: &mut usize,
    ctx: Ctx,
) -> Result<Vec<P>, At<E>>
    ensures wrote { OnOk result
        (WritesAll (T.TryIntoCtx.writes ctx) dst.old offset.old values.now dst.new offset.new) }
    ensures places { IfOk result (λ entries. WritesPlaced (T.TryIntoCtx.writes ctx) P.place dst.old
        offset.old entries.items values.now dst.new offset.new) }
    ensures kept { IfOk result (λ entries. KeepsPlaced (T.Kept.reads ctx) P.place P.describes
        dst.new entries.items values.now offset.new) }
    ensures others { OnOk result (ChangesBetween offset.old offset.new dst.old dst.new) }
    ensures count { IfOk result (λ entries. length entries.items ≡ length values.now) }
    ensures refused { IfErr result (λ located. FailsMany (T.TryIntoCtx.writes ctx)
        (T.TryIntoCtx.refuses ctx) E.from_gives dst.old offset.old values.now dst.new
        located.offset located.error
        ⊎ StopsBefore (T.TryIntoCtx.writes ctx) (λ v at e. P.misplaced at e
        ⊎ LacksEntry P.place P.describes E.from_gives v at e)
        dst.old offset.old values.now dst.new located.offset located.error) }
    ensures stays { IfErr result (λ located. offset.new ≡ located.offset) }
{
    let mut entries = Vec::new(alloc);
    for k in 0..values.len() {
        if let Err(error) = write_entered(&mut entries, dst, values[k], offset, ctx) {
            return Err(At {
                offset: *offset,
                error,
            });
        }
    }
    Ok(entries)
}

// Writes a value like `write_kept`, and appends an entry to `entries`, which says where it stands.
#[inline(always)]
fn write_entered<
    'a,
    Ctx: Copy,
    E: From<Error>,
    T: Kept<'a, Ctx> + TryIntoCtx<Ctx, Error = E> + Drop,
    P: EntryOf<T, Error = E> + Drop,
>(entries: &mut Vec<P>, dst: &mut [u8], value: T, offset: &mut usize, ctx: Ctx) -> Result<(), E>
    ensures entered { OnOk result ((entry : P)
        × (entries.new.items ≡ entries.old.items ++ entry ∷ [])
        × (P.place entry ≡ offset.old) × P.describes entry value) }
    ensures wrote { OnOk result ((size : ℕ) × (offset.new ≡ offset.old + size)
        × WritesAt (T.TryIntoCtx.writes ctx value) dst.old offset.old dst.new size) }
    ensures kept { OnOk result
        (KeepsOne (T.Kept.reads ctx) dst.new offset.old value offset.new) }
    ensures others { OnOk result (ChangesBetween offset.old offset.new dst.old dst.new) }
    ensures refused { IfErr result (λ e. RefusesWriteAt (T.TryIntoCtx.refuses ctx value)
        (PastEnd E.from_gives) dst.old offset.old dst.new e
        ⊎ ((dst.new ≡ dst.old) × (P.misplaced offset.old e
        ⊎ LacksEntry P.place P.describes E.from_gives value offset.old e))) }
    ensures stays { OnErr result (offset.new ≡ offset.old) }
{
    let entry = P::entry_of(&value, *offset)?;
    if entries.push(entry).is_err() {
        return Err(E::from(Error::NoMemory));
    }
    write_kept(dst, value, offset, ctx)?;
    Ok(())
}

// Does nothing, and says that each of the values fits.
fn fit_all<'a, Ctx: Copy, T: Kept<'a, Ctx>>(values: &[T])
    ensures { All T.Kept.fits values.now }
{
    for value in values {
        value.fit();
    }
}

/// Writes a tag, such as the number of an enum's variant, and the value after it to the start of
/// `dst`, and returns their size in bytes.
///
/// Returns [`Error::TooBig`] with the width of the tag and the length of `dst` if the tag has no
/// room, and the value's own error if the value can't be written. The tag is then not written.
///
/// ```rust
/// let mut file = [0xffu8; 4];
/// let size: Result<usize, Error> = write_tagged(&mut file, 7u8, 258u16, BE);
/// assert_eq!(rt; size?, 3);
/// assert_eq!(rt; file, [7, 1, 2, 0xff]);
/// ```
pub fn write_tagged<E: From<Error>, T: Plain, V: TryIntoCtx<Endian, Error = E> + Drop>(
    dst: &mut [u8],
    tag: T,
    value: V,
    order: Endian,
) -> Result<usize, E>
    ensures wrote { IfOk result (WritesTagged T.width (T.bytes order tag) (V.writes order value)
        dst.old dst.new) }
    ensures refused { IfErr result (FailsTagged T.width (V.refuses order value) E.from_gives
        dst.old dst.new) }
{
    let width = T::width();
    check_room(width, dst.len())?;
    let size = value.try_into_ctx(&mut dst[width..], order)?;
    tag.write_prefix(dst, order);
    Ok(width + size)
}
