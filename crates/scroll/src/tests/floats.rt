// Floats: the values of the Rust crate's tests, and the bytes that it reads and writes for zeros,
// subnormals, infinities and NaNs.
use crate::ctx::{SizeWith, TryFromCtx, TryIntoCtx};
use crate::tests::reads::{check_both_orders, check_read, check_write};
use crate::tests::results::{check_eq, check_value, expect_value};
use crate::tests::streams::{check_ended, put_number, take_number};
use crate::{BE, Cread, Cwrite, Endian, Error, LE, Pread, Pwrite};
use std::fmt::Debug;
use std::process::Abort;

static HALF: [u8; 8] = [0, 0, 0, 0, 0, 0, 224, 63];

#[test]
fn gread_f32(rt: HostRuntime) {
    check_read(&rt, &HALF, 0, LE, 0f32, 4);
}

#[test]
fn gread_f64(rt: HostRuntime) {
    check_read(&rt, &HALF, 0, LE, 0.5f64, 8);
}

#[test]
fn gread_gwrite_f64_1(rt: HostRuntime) {
    check_both_orders(&rt, &mut [0; 16], 0.25f64, 8);
}

#[test]
fn gread_gwrite_f64_2(rt: HostRuntime) {
    check_both_orders(&rt, &mut [0; 16], 0.5f64, 8);
}

#[test]
fn gread_gwrite_f64_3(rt: HostRuntime) {
    check_both_orders(&rt, &mut [0; 16], 0.064f64, 8);
}

#[test]
fn gread_gwrite_f32_1(rt: HostRuntime) {
    check_both_orders(&rt, &mut [0; 16], 0.25f32, 4);
}

#[test]
fn gread_gwrite_f32_2(rt: HostRuntime) {
    check_both_orders(&rt, &mut [0; 16], 0.5f32, 4);
}

#[test]
fn gread_gwrite_f32_3(rt: HostRuntime) {
    check_both_orders(&rt, &mut [0; 16], 0.0f32, 4);
}

// Floats and their bytes, as the Rust crate writes them in big-endian order: zeros of both signs,
// the least and the greatest subnormal, the least normal float, the greatest, infinities, and
// others.
static SINGLES: [(f32, [u8; 4]); 11] = [
    (0.0, [0, 0, 0, 0]),
    (-0.0, [0x80, 0, 0, 0]),
    (1e-45, [0, 0, 0, 1]),
    (-1.1754942e-38, [0x80, 0x7f, 0xff, 0xff]),
    (f32::MIN_POSITIVE, [0, 0x80, 0, 0]),
    (f32::MAX, [0x7f, 0x7f, 0xff, 0xff]),
    (f32::MIN, [0xff, 0x7f, 0xff, 0xff]),
    (f32::INFINITY, [0x7f, 0x80, 0, 0]),
    (f32::NEG_INFINITY, [0xff, 0x80, 0, 0]),
    (0.1, [0x3d, 0xcc, 0xcc, 0xcd]),
    (-1.5, [0xbf, 0xc0, 0, 0]),
];

static DOUBLES: [(f64, [u8; 8]); 11] = [
    (0.0, [0, 0, 0, 0, 0, 0, 0, 0]),
    (-0.0, [0x80, 0, 0, 0, 0, 0, 0, 0]),
    (5e-324, [0, 0, 0, 0, 0, 0, 0, 1]),
    (
        -2.225073858507201e-308,
        [0x80, 0x0f, 0xff, 0xff, 0xff, 0xff, 0xff, 0xff],
    ),
    (f64::MIN_POSITIVE, [0, 0x10, 0, 0, 0, 0, 0, 0]),
    (f64::MAX, [0x7f, 0xef, 0xff, 0xff, 0xff, 0xff, 0xff, 0xff]),
    (f64::MIN, [0xff, 0xef, 0xff, 0xff, 0xff, 0xff, 0xff, 0xff]),
    (f64::INFINITY, [0x7f, 0xf0, 0, 0, 0, 0, 0, 0]),
    (f64::NEG_INFINITY, [0xff, 0xf0, 0, 0, 0, 0, 0, 0]),
    (0.064, [0x3f, 0xb0, 0x62, 0x4d, 0xd2, 0xf1, 0xa9, 0xfc]),
    (-1.5, [0xbf, 0xf8, 0, 0, 0, 0, 0, 0]),
];

// Both zeros are equal: what is written shows which of them was read.
fn check_float<'a, N, const WIDTH: usize>(
    rt: &impl Abort,
    value: N,
    bytes: &'a [u8; WIDTH],
    order: Endian,
)
where
    N: Copy
        + PartialEq
        + Debug
        + TryFromCtx<'a, Endian, Error = Error>
        + TryIntoCtx<Endian, Error = Error>,
{
    let read: N = expect_value(rt, bytes.as_slice().pread_with(0, order));
    check_eq(rt, read, value);
    let mut held = [7u8; WIDTH];
    check_write(rt, &mut held, read, 0, order, WIDTH);
    check_eq(rt, &held, bytes);
}

#[test]
fn floats_and_their_bytes(rt: HostRuntime) {
    for (value, big) in &SINGLES {
        check_single(&rt, *value, big);
    }
    for (value, big) in &DOUBLES {
        check_double(&rt, *value, big);
    }
}

fn check_single(rt: &impl Abort, value: f32, big: &[u8; 4]) {
    check_float(rt, value, big, BE);
    let mut little = *big;
    little.reverse();
    check_float(rt, value, &little, LE);
}

fn check_double(rt: &impl Abort, value: f64, big: &[u8; 8]) {
    check_float(rt, value, big, BE);
    let mut little = *big;
    little.reverse();
    check_float(rt, value, &little, LE);
}

// Quiet and signalling NaNs of both signs, with payloads. The Rust crate reads each as a NaN, and
// writes its own bits; here each is written as the quiet NaN with no sign and no payload.
static SINGLE_NANS: [[u8; 4]; 5] = [
    [0x7f, 0xc0, 0, 0],
    [0xff, 0xc0, 0, 0],
    [0x7f, 0x80, 0, 1],
    [0xff, 0x80, 0, 1],
    [0xff, 0xff, 0xff, 0xff],
];

static DOUBLE_NANS: [[u8; 8]; 5] = [
    [0x7f, 0xf8, 0, 0, 0, 0, 0, 0],
    [0xff, 0xf8, 0, 0, 0, 0, 0, 0],
    [0x7f, 0xf0, 0, 0, 0, 0, 0, 1],
    [0xff, 0xf0, 0, 0, 0, 0, 0, 1],
    [0xff, 0xff, 0xff, 0xff, 0xff, 0xff, 0xff, 0xff],
];

fn check_single_nan(rt: &impl Abort, bytes: &[u8; 4]) {
    let read: f32 = expect_value(rt, bytes.as_slice().pread_with(0, BE));
    check_eq(rt, read.is_nan(), true);
    let mut target = [7u8; 4];
    check_value(rt, read.try_into_ctx(&mut target, LE), 4);
    check_eq(rt, &target, &[0, 0, 0xc0, 0x7f]);
}

fn check_double_nan(rt: &impl Abort, bytes: &[u8; 8]) {
    let (read, size) = expect_value(rt, f64::try_from_ctx(bytes, BE));
    check_eq(rt, (read.is_nan(), size), (true, 8));
    let mut target = [7u8; 8];
    check_value(rt, (&read).try_into_ctx(&mut target, BE), 8);
    check_eq(rt, &target, &[0x7f, 0xf8, 0, 0, 0, 0, 0, 0]);
}

#[test]
fn nans_and_their_bytes(rt: HostRuntime) {
    for bytes in &SINGLE_NANS {
        check_single_nan(&rt, bytes);
    }
    for bytes in &DOUBLE_NANS {
        check_double_nan(&rt, bytes);
    }
}

#[test]
fn sizes(rt: HostRuntime) {
    let sizes = [
        f32::size_with(&LE),
        f64::size_with(&BE),
        f32::size_with(&()),
        f64::size_with(&()),
        <[[f64; 3]; 2]>::size_with(&LE),
    ];
    check_eq(&rt, sizes, [4, 8, 4, 8, 48]);
}

#[test]
fn with_room_made_sure_of(rt: HostRuntime) {
    let rt = &rt;
    let mut bytes = [0u8; 12];
    let mut target: &mut [u8] = &mut bytes;
    target.cwrite_with(1.5f32, 0, BE);
    target.cwrite(-2.25f64, 4);
    check_eq(rt, bytes, [0x3f, 0xc0, 0, 0, 0, 0, 0, 0, 0, 0, 0x02, 0xc0]);
    let source: &[u8] = &bytes;
    check_eq(rt, source.cread_with::<f32>(0, BE), 1.5);
    check_eq(rt, source.cread::<f64>(4), -2.25);
}

// Four bytes of zeros, and after them four floats in little-endian order.
static ROWS: [[f32; 2]; 2] = [[0.5, -2.0], [0.1, 65504.0]];

static ROW_BYTES: [u8; 20] = [
    0, 0, 0, 0, 0, 0, 0, 0x3f, 0, 0, 0, 0xc0, 0xcd, 0xcc, 0xcc, 0x3d, 0, 0xe0, 0x7f, 0x47,
];

#[test]
fn arrays_and_bulk_reads(rt: HostRuntime) {
    let rt = &rt;
    let mut bytes = [0u8; 20];
    check_write(rt, &mut bytes, ROWS, 4, LE, 16);
    check_eq(rt, &bytes, &ROW_BYTES);
    check_read(rt, &ROW_BYTES, 4, LE, ROWS, 20);
    let (mut values, mut offset) = ([0.0f32; 5], 0);
    check_value(
        rt,
        ROW_BYTES[..].gread_inout_with(&mut offset, &mut values, LE),
        (),
    );
    check_eq(rt, (values, offset), ([0.0, 0.5, -2.0, 0.1, 65504.0], 20));
}

// What the Rust crate's documentation of streams reads, and an `f64` that they are too short for.
#[test]
fn a_stream_that_ends(rt: HostRuntime) {
    let bytes: &[u8] = &[0x0b, 0x0b, 0, 0, 0, 0, 0, 0, 0xef, 0xbe, 0, 0];
    let rest = take_number(&rt, bytes, Some(LE), 0xb0bi64);
    let rest = take_number(&rt, rest, Some(LE), 0xbeefu32);
    check_ended::<f64>(&rt, rest, Some(LE));
}

// Two floats, in big-endian order and in little-endian order.
static TWO: [u8; 12] = [
    0x3d, 0xcc, 0xcc, 0xcd, 0xfc, 0xa9, 0xf1, 0xd2, 0x4d, 0x62, 0xb0, 0xbf,
];

#[test]
fn streams_of_floats(rt: HostRuntime) {
    let rest = take_number(&rt, &TWO, Some(BE), 0.1f32);
    take_number(&rt, rest, None, -0.064f64);
    let mut written = [0u8; 12];
    let mut target: &mut [u8] = &mut written;
    put_number(&rt, &mut target, Some(BE), 0.1f32);
    put_number(&rt, &mut target, None, -0.064f64);
    check_eq(&rt, &written, &TWO);
}
