// The calls for the types of the crate; each call at the greatest offset, which is past the end of
// every slice: it returns that offset as an error, and nothing changes; and the generic laws, for a
// type of the crate.
use crate::cstr::CStr;
use crate::ctx::{FromCtx, IntoCtx, StrCtx, TryFromCtx, TryIntoCtx};
use crate::laws::{
    array_depends_on_its_bytes, array_has_leaves, arrays_keep_their_laws, fixed_size_is_kept,
    fixed_size_is_written_back, size_is_that_of_reads_and_writes, write_is_of_its_leaves,
};
use crate::tests::leb128::check_no_number;
use crate::tests::reads::{check_bulk, check_no_read, check_no_slice_write, check_no_write};
use crate::tests::results::{Parts, check_eq, check_value};
use crate::{BE, Endian, Error, LE, NATIVE, NETWORK, Uleb128};
use std::process::Abort;

#[test]
fn byte_orders(rt: HostRuntime) {
    let rt = &rt;
    let (little, big) = (Endian::Little, Endian::Big);
    check_eq(rt, [LE, BE, NETWORK, NATIVE], [little, big, big, little]);
    check_eq(rt, [Endian::network(), Endian::default()], [BE, LE]);
    check_eq(rt, [Endian::from(true), Endian::from(false)], [LE, BE]);
    let tests = [LE.is_little(), BE.is_little(), LE == little, LE == big];
    check_eq(rt, tests, [true, false, true, false]);
}

#[test]
fn with_no_offset(rt: HostRuntime) {
    let rt = &rt;
    let source: &[u8] = &[1, 2, 3];
    check_eq(rt, u16::from_ctx(source, BE), 0x0102);
    check_value(rt, u16::try_from_ctx(source, LE), (0x0201, 2));
    let mut out = [0u8; 5];
    0x0506u16.into_ctx(&mut out, BE);
    check_value(rt, 0x0506u16.try_into_ctx(&mut out[2..], LE), 2);
    check_eq(rt, out, [5, 6, 6, 5, 0]);
}

const MOST: usize = usize::MAX;

const SOURCE: &[u8] = b"a\0b";

const PAST: Parts<'static> = ("BadOffset", MOST, 0);

// Checks that a read in this context is refused.
fn check_past<'a, T: TryFromCtx<'a, Ctx, Error = Error> + Drop, Ctx: Copy>(
    rt: &impl Abort,
    ctx: Ctx,
) {
    check_no_read::<T, _>(rt, SOURCE, MOST, ctx, PAST);
}

#[test]
fn reads(rt: HostRuntime) {
    let rt = &rt;
    check_past::<u16, _>(rt, BE);
    check_past::<&str, _>(rt, StrCtx::Length(0));
    check_past::<&[u8], _>(rt, 0);
    check_past::<CStr, _>(rt, ());
    check_past::<[u8; 0], _>(rt, LE);
    check_no_number::<u64>(rt, SOURCE, MOST, PAST);
    check_bulk(rt, SOURCE, MOST, [3u16, 4], PAST, [3, 4], MOST);
}

// Checks that a bulk read into no element succeeds, and leaves the offset.
fn check_no_element(rt: &impl Abort, start: usize) {
    check_bulk(rt, SOURCE, start, [0u16; 0], ("Ok", 0, 0), [], start);
}

#[test]
fn bulk_reads_into_no_element(rt: HostRuntime) {
    let rt = &rt;
    check_no_element(rt, 0);
    check_no_element(rt, 3);
    check_no_element(rt, 4);
    check_no_element(rt, MOST);
}

#[test]
fn writes(rt: HostRuntime) {
    let rt = &rt;
    let mut bytes = [7u8; 3];
    check_no_write(rt, &mut bytes, 1u16, MOST, BE, PAST);
    check_no_write(rt, &mut bytes, "", MOST, (), PAST);
    check_no_slice_write(rt, &mut bytes, Uleb128::shortest(1), MOST, (), PAST);
    check_no_slice_write(rt, &mut bytes, [1u8; 0], MOST, LE, PAST);
    check_eq(rt, bytes, [7; 3]);
}

#[test]
fn laws_of_types(rt: HostRuntime) {
    array_depends_on_its_bytes::<Endian, u16>();
    arrays_keep_their_laws::<Endian, u16>();
    arrays_keep_their_laws::<(), Uleb128>();
    array_has_leaves::<Endian, u16>();
    write_is_of_its_leaves::<(), &[u8]>();
    fixed_size_is_kept::<([u16; 3], f32)>();
    fixed_size_is_written_back::<(u8, i128, [u64; 2])>();
    check_eq(&rt, size_is_that_of_reads_and_writes::<u64>(&LE), (8, 8));
}
