// What a test expects of a read or a write at an offset and at a cursor. A call of one of these has
// one step in the proof of a test, and a call with a check of its result many.
use crate::ctx::{TryFromCtx, TryIntoCtx};
use crate::tests::results::{Parts, check_eq, check_error, check_value};
use crate::{BE, Endian, Error, LE, Pread, Pwrite, slice};
use std::fmt::Debug;
use std::process::Abort;

// Checks that this value is read at an offset, and at a cursor, which then is `to`.
pub fn check_read<
    'a,
    Ctx: Copy,
    T: TryFromCtx<'a, Ctx, Error = Error> + Copy + PartialEq + Debug + Drop,
>(rt: &impl Abort, bytes: &'a [u8], from: usize, ctx: Ctx, wanted: T, to: usize) {
    check_value(rt, bytes.pread_with::<T>(from, ctx), wanted);
    let mut offset = from;
    check_value(rt, bytes.gread_with::<T>(&mut offset, ctx), wanted);
    check_eq(rt, offset, to);
}

// Checks the same in the default context.
pub fn check_default_read<
    'a,
    Ctx: Copy + Default,
    T: TryFromCtx<'a, Ctx, Error = Error> + Copy + PartialEq + Debug + Drop,
>(rt: &impl Abort, bytes: &'a [u8], from: usize, wanted: T, to: usize) {
    check_value(rt, bytes.pread::<T>(from), wanted);
    let mut offset = from;
    check_value(rt, bytes.gread::<T>(&mut offset), wanted);
    check_eq(rt, offset, to);
}

// Checks that a read is refused with this error, at an offset and at a cursor, which is left.
pub fn check_no_read<'a, T: TryFromCtx<'a, Ctx, Error = Error> + Drop, Ctx: Copy>(
    rt: &impl Abort,
    bytes: &'a [u8],
    from: usize,
    ctx: Ctx,
    wanted: Parts<'_>,
) {
    check_error(rt, bytes.pread_with::<T>(from, ctx), wanted);
    let mut offset = from;
    check_error(rt, bytes.gread_with::<T>(&mut offset, ctx), wanted);
    check_eq(rt, offset, from);
}

// Checks the result of a bulk read in the default context, and what the elements and the cursor are
// then.
pub fn check_bulk<
    'a,
    T: TryFromCtx<'a, Ctx, Error = Error> + Copy + PartialEq + Debug + Drop,
    Ctx: Copy + Default,
    const N: usize,
>(
    rt: &impl Abort,
    bytes: &'a [u8],
    from: usize,
    first: [T; N],
    outcome: Parts<'_>,
    last: [T; N],
    to: usize,
) {
    let (mut values, mut offset) = (first, from);
    check_error(rt, bytes.gread_inout(&mut offset, &mut values), outcome);
    check_eq(rt, (values, offset), (last, to));
}

// Checks that a write of a value has this size, at an offset and at a cursor.
pub fn check_write<T: TryIntoCtx<Ctx, Error = Error> + Copy, Ctx: Copy>(
    rt: &impl Abort,
    mut target: &mut [u8],
    value: T,
    from: usize,
    ctx: Ctx,
    size: usize,
) {
    check_value(rt, target.pwrite_with(value, from, ctx), size);
    let mut offset = from;
    check_value(rt, target.gwrite_with(value, &mut offset, ctx), size);
    check_eq(rt, offset, from.wrapping_add(size));
}

// Checks that a write is refused with this error, at an offset and at a cursor, which is left.
pub fn check_no_write<T: TryIntoCtx<Ctx, Error = Error> + Copy, Ctx: Copy>(
    rt: &impl Abort,
    mut target: &mut [u8],
    value: T,
    from: usize,
    ctx: Ctx,
    wanted: Parts<'_>,
) {
    check_error(rt, target.pwrite_with(value, from, ctx), wanted);
    let mut offset = from;
    check_error(rt, target.gwrite_with(value, &mut offset, ctx), wanted);
    check_eq(rt, offset, from);
}

// Checks the same of the functions of `slice`.
pub fn check_no_slice_write<T: TryIntoCtx<Ctx, Error = Error> + Copy, Ctx: Copy>(
    rt: &impl Abort,
    target: &mut [u8],
    value: T,
    from: usize,
    ctx: Ctx,
    wanted: Parts<'_>,
) {
    check_error(rt, slice::pwrite_with(target, value, from, ctx), wanted);
    let mut offset = from;
    check_error(
        rt,
        slice::gwrite_with(target, value, &mut offset, ctx),
        wanted,
    );
    check_eq(rt, offset, from);
}

// Writes a number in one order and, after it, in the other, and reads both back.
pub fn check_both_orders<'a, N>(rt: &impl Abort, bytes: &'a mut [u8; 16], value: N, size: u8)
where
    N: Copy
        + PartialEq
        + Debug
        + TryIntoCtx<Endian, Error = Error>
        + TryFromCtx<'a, Endian, Error = Error>,
{
    let size = usize::from(size);
    check_write(rt, bytes, value, 0, LE, size);
    check_write(rt, bytes, value, size, BE, size);
    check_read(rt, bytes, 0, LE, value, size);
    check_read(rt, bytes, size, BE, value, 2 * size);
}
