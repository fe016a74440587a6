// The cursor, the default contexts and bulk reads; and writes to a borrowed slice, in the default
// context and in a given one.
ghost use Rattle.std.specs.Prelude.{◌<◌};

use crate::tests::reads::{
    check_both_orders, check_bulk, check_default_read, check_no_read, check_read,
};
use crate::tests::results::{check_eq, check_value};
use crate::{BE, LE, Pread, Pwrite, slice};
use std::alloc::Global;
use std::process::Abort;

#[test]
fn pread(rt: HostRuntime) {
    check_default_read(&rt, &[0x7e, 0xef], 0, 0xef7eu16, 2);
    check_default_read(&rt, &[0x7f], 0, 127u8, 1);
    check_no_read::<u16, _>(&rt, &[0x7e, 0xef], 3, LE, ("BadOffset", 3, 0));
}

static ONE_TO_EIGHT: [u8; 8] = [1, 2, 3, 4, 5, 6, 7, 8];

#[test]
fn pread_with_iter_bytes(rt: HostRuntime) {
    for (i, byte) in ONE_TO_EIGHT.iter().enumerate() {
        check_value(&rt, ONE_TO_EIGHT.pread(i), *byte);
    }
}

#[test]
fn gread_with_iter_bytes(rt: HostRuntime) {
    let mut offset = 0;
    for byte in ONE_TO_EIGHT.iter() {
        check_value(&rt, ONE_TO_EIGHT.gread(&mut offset), *byte);
    }
    check_eq(&rt, offset, 8);
}

static BYTES: [u8; 8] = [0x0f, 0x0e, 0x0e, 0x0b, 0x0d, 0x0a, 0x0e, 0x0d];

#[test]
fn simple_gread_u16(rt: HostRuntime) {
    check_read(&rt, &BYTES, 0, LE, 3599u16, 2);
}

#[test]
fn simple_gread_u32(rt: HostRuntime) {
    check_read(&rt, &BYTES, 0, LE, 185470479u32, 4);
}

#[test]
fn simple_gread_u64(rt: HostRuntime) {
    check_read(&rt, &BYTES, 0, LE, 940700423303335439u64, 8);
}

#[test]
fn simple_gread_i64(rt: HostRuntime) {
    check_read(&rt, &BYTES, 0, LE, 940700423303335439i64, 8);
}

#[test]
fn gread_gwrite_i64_1(rt: HostRuntime) {
    check_both_orders(&rt, &mut [0; 16], 0i64, 8);
}

#[test]
fn gread_gwrite_i64_2(rt: HostRuntime) {
    check_both_orders(&rt, &mut [0; 16], -1213213211111i64, 8);
}

#[test]
fn gread_gwrite_i64_3(rt: HostRuntime) {
    check_both_orders(&rt, &mut [0; 16], -3000i64, 8);
}

#[test]
fn gread_gwrite_i32_1(rt: HostRuntime) {
    check_both_orders(&rt, &mut [0; 16], 0i32, 4);
}

#[test]
fn gread_gwrite_i32_2(rt: HostRuntime) {
    check_both_orders(&rt, &mut [0; 16], -1213213232i32, 4);
}

#[test]
fn gread_gwrite_i32_3(rt: HostRuntime) {
    check_both_orders(&rt, &mut [0; 16], -3000i32, 4);
}

#[test]
fn gread_with_byte(rt: HostRuntime) {
    check_default_read(&rt, &[0x7f], 0, 127u8, 1);
    check_no_read::<u8, _>(&rt, &[0x7f], 1, LE, ("TooBig", 1, 0));
    check_read(&rt, &[0xde, 0xad], 0, BE, 57005u16, 2);
}

#[test]
fn gread_inout(rt: HostRuntime) {
    check_bulk(
        &rt,
        &ONE_TO_EIGHT,
        0,
        [0u8; 8],
        ("Ok", 0, 0),
        ONE_TO_EIGHT,
        8,
    );
    check_bulk(&rt, &ONE_TO_EIGHT, 0, [0u8; 2], ("Ok", 0, 0), [1, 2], 2);
}

#[test]
fn gread_inout_that_stops(rt: HostRuntime) {
    let bytes: &[u8] = &[1, 2, 3, 4, 5, 6, 7];
    check_bulk(
        &rt,
        bytes,
        3,
        [9u16; 3],
        ("TooBig", 2, 0),
        [0x0504, 0x0706, 9],
        7,
    );
}

#[test]
fn default_writes(rt: HostRuntime) {
    let rt = &rt;
    let (mut bytes, mut offset) = ([0u8; 9], 2);
    check_value(rt, slice::pwrite(&mut bytes, 0x0102u16, 0), 2);
    check_value(rt, slice::gwrite(&mut bytes, 0x0304u16, &mut offset), 2);
    let mut target = &mut bytes[..];
    check_value(rt, target.gwrite(0x0506u16, &mut offset), 2);
    check_value(rt, target.pwrite(0x0708u16, 7), 2);
    check_eq(rt, (bytes, offset), ([2, 1, 4, 3, 6, 5, 0, 8, 7], 6));
}

#[test]
fn writes_at_a_place(rt: HostRuntime) {
    let rt = &rt;
    let (mut bytes, mut offset) = ([0u8; 6], 3);
    check_value(rt, slice::pwrite_with(&mut bytes, -2i16, 1, BE), 2);
    let written = slice::gwrite_with(&mut bytes, 0x0304u16, &mut offset, BE);
    check_value(rt, written, 2);
    check_eq(rt, (bytes, offset), ([0, 0xff, 0xfe, 3, 4, 0], 5));
}

#[test]
fn writes_in_bounds(rt: HostRuntime) {
    let mut bytes = [0u8; 5];
    slice::cwrite(&mut bytes, 0x0102u16, 0);
    slice::cwrite_with(&mut bytes, 0x0304u16, 3, BE);
    check_eq(&rt, bytes, [2, 1, 0, 3, 4]);
}

// Checks a write of the first `len` of three bytes.
fn check_prefix(rt: &impl Abort, len: usize, wanted: [u8; 5])
    requires { len < 5 }
{
    let mut bytes = [9u8; 5];
    slice::cwrite_with(&mut bytes, &[1u8, 2, 3][..], 1, len);
    check_eq(rt, bytes, wanted);
}

// The first bytes of a slice, as many as the context says, or all of them where it has fewer.
#[test]
fn the_first_bytes_of_a_slice(rt: HostRuntime) {
    let rt = &rt;
    check_prefix(rt, 0, [9, 9, 9, 9, 9]);
    check_prefix(rt, 1, [9, 1, 9, 9, 9]);
    check_prefix(rt, 2, [9, 1, 2, 9, 9]);
    check_prefix(rt, 3, [9, 1, 2, 3, 9]);
    check_prefix(rt, 4, [9, 1, 2, 3, 9]);
}

// Returns a vector of three bytes. An allocation failure ends the test.
fn three(rt: &impl Abort, alloc: Global, first: u8) -> Vec<u8> {
    vec![in alloc; first, 2, 3].ok().expect(rt, "NoMemory")
}

#[test]
fn arrays_and_vectors_are_read_as_they_are(rt: HostRuntime) {
    let bytes: [u8; 3] = [1, 2, 3];
    check_value(&rt, bytes.pread_with::<u16>(1, BE), 0x0203);
    let bytes = three(&rt, rt.alloc(), 1);
    check_value(&rt, bytes.pread_with::<u16>(1, BE), 0x0203);
}

#[test]
fn arrays_and_vectors_are_written_as_they_are(rt: HostRuntime) {
    let mut bytes = [0u8; 3];
    check_value(&rt, bytes.pwrite_with(0x0102u16, 1, BE), 2);
    check_eq(&rt, bytes, [0, 1, 2]);
    check_vector(&rt, &mut three(&rt, rt.alloc(), 0));
}

// Checks a write to a vector of three bytes, the first of them zero.
fn check_vector(rt: &impl Abort, bytes: &mut Vec<u8>) {
    let offset = &mut 1;
    check_value(rt, bytes.gwrite_with(0x0102u16, offset, BE), 2);
    check_eq(rt, bytes.as_slice(), &[0, 1, 2]);
}
