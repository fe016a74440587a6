// All ten integer types, by value and by reference, and the calls whose caller ensures that there
// is room.
ghost use Rattle.std.specs.Prelude.{◌≡◌, ◌+◌, ◌≤◌, length, drop};
ghost use Rattle.scroll.specs.Numbers.{number};
ghost use Rattle.scroll.specs.declared.endian.Endian.TheVariants.{Big};

use crate::ctx::{FromCtx, IntoCtx, SizeWith};
use crate::tests::reads::{check_both_orders, check_read, check_write};
use crate::tests::results::check_eq;
use crate::{BE, Cread, Cwrite, Endian, LE};
use std::process::Abort;

#[test]
fn pwrite_and_pread_roundtrip_u16(rt: HostRuntime) {
    check_both_orders(&rt, &mut [0; 16], 0xbeefu16, 2);
}

#[test]
fn pwrite_and_pread_roundtrip_i16(rt: HostRuntime) {
    check_both_orders(&rt, &mut [0; 16], 0x7eefi16, 2);
}

#[test]
fn pwrite_and_pread_roundtrip_u32(rt: HostRuntime) {
    check_both_orders(&rt, &mut [0; 16], 0xbeefbeefu32, 4);
}

#[test]
fn pwrite_and_pread_roundtrip_i32(rt: HostRuntime) {
    check_both_orders(&rt, &mut [0; 16], 0x7eefbeefi32, 4);
}

#[test]
fn pwrite_and_pread_roundtrip_u64(rt: HostRuntime) {
    check_both_orders(&rt, &mut [0; 16], 0xbeefbeef7eef7eefu64, 8);
}

#[test]
fn pwrite_and_pread_roundtrip_i64(rt: HostRuntime) {
    check_both_orders(&rt, &mut [0; 16], 0x7eefbeef7eef7eefi64, 8);
}

#[test]
fn test_measurable(rt: HostRuntime) {
    check_eq(&rt, u64::size_with(&LE), 8);
    let by_order = [
        u8::size_with(&BE),
        i8::size_with(&BE),
        u16::size_with(&BE),
        i16::size_with(&BE),
        u32::size_with(&BE),
        i32::size_with(&BE),
        u64::size_with(&BE),
        i64::size_with(&BE),
        u128::size_with(&BE),
        i128::size_with(&BE),
    ];
    let by_nothing = [
        u8::size_with(&()),
        i8::size_with(&()),
        u16::size_with(&()),
        i16::size_with(&()),
        u32::size_with(&()),
        i32::size_with(&()),
        u64::size_with(&()),
        i64::size_with(&()),
        u128::size_with(&()),
        i128::size_with(&()),
    ];
    check_eq(&rt, by_order, [1, 1, 2, 2, 4, 4, 8, 8, 16, 16]);
    check_eq(&rt, by_nothing, by_order);
}

#[test]
fn pread_with_be(rt: HostRuntime) {
    check_read(&rt, &[0x7e, 0xef], 0, BE, 0x7eefu16, 2);
    check_read(&rt, &[0xde, 0xad], 0, BE, 0xdeadu16, 2);
}

#[test]
fn numbers_are_read(rt: HostRuntime) {
    let rt = &rt;
    check_read(rt, &[0x80], 0, LE, -128i8, 1);
    check_read(
        rt,
        &WRITTEN,
        0,
        BE,
        0x0102030405060708090a0b0c0d0e0f10u128,
        16,
    );
    check_read(rt, &WRITTEN, 16, BE, i128::MIN, 32);
}

static WRITTEN: [u8; 34] = [
    1, 2, 3, 4, 5, 6, 7, 8, 9, 10, 11, 12, 13, 14, 15, 16, 0x80, 0, 0, 0, 0, 0, 0, 0, 0, 0, 0, 0,
    0, 0, 0, 0, 0xfe, 7,
];

#[test]
fn numbers_are_written(rt: HostRuntime) {
    let rt = &rt;
    let mut out = [0u8; 34];
    check_write(
        rt,
        &mut out,
        0x0102030405060708090a0b0c0d0e0f10u128,
        0,
        BE,
        16,
    );
    check_write(rt, &mut out, i128::MIN, 16, BE, 16);
    check_write(rt, &mut out, -2i8, 32, LE, 1);
    check_write(rt, &mut out, 7u8, 33, LE, 1);
    check_eq(rt, &out, &WRITTEN);
}

#[test]
fn references_write_as_their_numbers(rt: HostRuntime) {
    let mut bytes = [0u8; 2];
    check_write(&rt, &mut bytes, &258u16, 0, BE, 2);
    check_eq(&rt, bytes, [1, 2]);
    (&-2i16).into_ctx(&mut bytes, LE);
    check_eq(&rt, bytes, [0xfe, 0xff]);
}

#[test]
fn with_room_made_sure_of(rt: HostRuntime) {
    let bytes: [u8; 12] = [1, 0, 0, 0, 0, 0, 0, 0, 0xef, 0xbe, 0, 0];
    let read: (i64, u32) = (bytes.cread(0), bytes.cread(8));
    check_eq(&rt, read, (1, 48879));
}

#[test]
fn with_room_made_sure_of_by_order(rt: HostRuntime) {
    let bytes: [u8; 12] = [
        0x7f, 255, 255, 255, 255, 255, 255, 255, 0xef, 0xbe, 0xad, 0xde,
    ];
    let read: (i64, u32) = (bytes.cread_with(0, BE), bytes.cread_with(8, LE));
    check_eq(&rt, read, (9223372036854775807, 3735928559));
}

#[test]
fn writes_with_room_made_sure_of_by_order(rt: HostRuntime) {
    let mut out = [0u8; 16];
    let mut target = &mut out[..];
    target.cwrite_with(0xdeadbeefu32, 8, BE);
    check_eq(&rt, out.cread_with::<u32>(8, LE), 4022250974);
}

#[test]
fn writes_with_room_made_sure_of(rt: HostRuntime) {
    let mut out = [0u8; 12];
    let mut target = &mut out[..];
    target.cwrite(42i64, 0);
    target.cwrite(&0xdeadbeefu32, 8);
    let read: (i64, u32) = (out.cread(0), out.cread(8));
    check_eq(&rt, read, (42, 0xdeadbeef));
}

// Returns the value after the first one of its type, big-endian.
fn second_of<N: FromCtx<Endian> + SizeWith<Endian>>(source: &[u8]) -> N
    requires { N.SizeWith.size BE + N.FromCtx.need BE ≤ length source.now }
    ensures { N.makes BE (drop (N.SizeWith.size BE) source.now) result }
{
    source.cread_with(N::size_with(&BE), BE)
}

// Writes a value to the start of a target that has room for it.
fn put<N: IntoCtx<Endian>>(mut target: &mut [u8], n: N)
    requires { N.need BE ≤ length target.old }
{
    target.cwrite_with(n, 0, BE)
}

// Reads a number from the start of any source.
fn at_the_start<S: Cread<Endian>>(source: S) -> u16
    requires { 2 ≤ length (S.bytes source) }
    ensures { result ≡ number Big 2 (S.bytes source) }
{
    source.cread_with::<u16>(0, BE)
}

// Clears the first byte of any target.
fn clear_first<T: Cwrite<Endian>>(target: &mut T)
    requires { 1 ≤ length (T.target target.old) }
{
    target.cwrite_with(0u8, 0, BE)
}

// Checks reads through the bounds.
fn check_reads(rt: &impl Abort, bytes: &[u8; 4]) {
    check_eq(rt, at_the_start(&bytes[1..]), 0x0203);
    check_eq(rt, second_of::<u16>(bytes), 0x0304);
}

#[test]
fn through_the_bounds(rt: HostRuntime) {
    check_reads(&rt, &[1, 2, 3, 4]);
    let mut out = [0u8; 4];
    put(&mut out, -2i16);
    put(&mut out[2..], &0x0506u16);
    check_eq(&rt, out, [0xff, 0xfe, 5, 6]);
    let mut target = &mut out[..];
    clear_first(&mut target);
    check_eq(&rt, out, [0, 0xfe, 5, 6]);
}
