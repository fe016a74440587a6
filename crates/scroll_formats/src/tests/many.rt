// Many values, and bytes that are appended to a vector. The bytes are those of Python's
// `struct.pack`.
ghost use Rattle.std.specs.Prelude.{◌≤◌};

use crate::tests::results::{check_eq, check_too_big, check_value, expect_value};
use crate::{Table, Value, append, read_many, read_to_end, write_many, write_tagged};
use scroll::{BE, Error, LE, Result};
use std::alloc::Global;
use std::process::Abort;

static NUMBERS: [u16; 3] = [258, 772, 9];

static BYTES: [u8; 8] = [0xff, 1, 2, 3, 4, 0, 9, 0xff];

#[test]
fn many_values_are_written_and_read(rt: HostRuntime) {
    let (alloc, rt) = (rt.alloc(), &rt);
    let mut file = [0xffu8; 8];
    let offset = &mut 1;
    check_value(rt, write_many(&mut file, &NUMBERS, offset, BE), ());
    check_eq(rt, *offset, 7);
    check_eq(rt, file, BYTES);
    let values: Result<Vec<u16>> = read_many(alloc, &file, &mut 1, 3, BE).map_err(Error::from);
    check_numbers(rt, values);
}

// Checks that a call returned the numbers.
fn check_numbers(rt: &impl Abort, values: Result<Vec<u16>>) {
    check_eq(rt, expect_value(rt, values).as_slice(), NUMBERS.as_slice());
}

#[test]
fn many_values_up_to_the_end(rt: HostRuntime) {
    let (alloc, rt) = (rt.alloc(), &rt);
    let values: Result<Vec<u16>> = read_to_end(alloc, &BYTES[..7], &mut 1, BE).map_err(Error::from);
    check_numbers(rt, values);
}

// A count that is more than the bytes are has the error of the first value that isn't there.
#[test]
fn fewer_values_than_the_count(rt: HostRuntime) {
    let offset = &mut 1;
    let values: Result<Vec<u16>> = read_many(rt.alloc(), &BYTES, offset, 9, BE).map_err(
        Error::from,
    );
    check_too_big(&rt, values, 2, 1);
    check_eq(&rt, *offset, 7);
}

// Each number of values, and a larger one. An allocation failure ends the test.
#[test]
fn values_of_each_count(rt: HostRuntime) {
    for len in 0..1101 {
        check_count(&rt, rt.alloc(), len);
    }
    check_count(&rt, rt.alloc(), 100_001);
}

// Checks that so many values are read.
fn check_count(rt: &impl Abort, alloc: Global, len: usize)
    requires { len ≤ 100001 }
{
    let bytes = &[7u8; 100_001][..len];
    let many: Result<Vec<u8>> = read_many(alloc, bytes, &mut 0, len, BE).map_err(Error::from);
    check_eq(rt, expect_value(rt, many).as_slice(), bytes);
}

#[test]
fn values_up_to_each_end(rt: HostRuntime) {
    for len in 0..1101 {
        check_end(&rt, rt.alloc(), len);
    }
    check_end(&rt, rt.alloc(), 100_001);
}

// Checks that the values up to the end of so many bytes are read.
fn check_end(rt: &impl Abort, alloc: Global, len: usize)
    requires { len ≤ 100001 }
{
    let bytes = &[7u8; 100_001][..len];
    let rest: Result<Vec<u8>> = read_to_end(alloc, bytes, &mut 0, BE).map_err(Error::from);
    check_eq(rt, expect_value(rt, rest).as_slice(), bytes);
}

#[test]
fn vectors_of_each_length(rt: HostRuntime) {
    for len in 0..1101 {
        check_length(&rt, rt.alloc(), len);
    }
    check_length(&rt, rt.alloc(), 100_001);
}

// Checks that so many bytes are appended to a vector with and without values.
fn check_length(rt: &impl Abort, alloc: Global, len: usize)
    requires { len ≤ 100001 }
{
    let bytes = &[7u8; 100_001][..len];
    let mut file: Vec<u8> = Vec::new(alloc);
    check_value(rt, append(&mut file, bytes, LE), ());
    check_eq(rt, file.as_slice(), bytes);
    check_value(rt, append(&mut file, (bytes, Value(9u8)), LE), ());
    check_eq(rt, file.len() > 2 * len, true);
}

// A vector that grows by a value at a time.
#[test]
fn a_vector_of_many_values(rt: HostRuntime) {
    let mut file: Vec<u8> = Vec::new(rt.alloc());
    for _ in 0..100_001 {
        check_value(&rt, append(&mut file, Value(7u8), LE), ());
    }
    check_eq(&rt, file.as_slice(), [7; 100_001].as_slice());
}

#[test]
fn a_table_of_numbers(rt: HostRuntime) {
    let rt = &rt;
    let table: Table<'_, u16> = Table::new(&BYTES[1..], BE);
    check_eq(rt, table.len(), 3);
    check_eq(rt, [table.get(2), table.get(3)], [Some(9), None]);
    let mut elements = table.elements();
    let first = [elements.next(), elements.next()];
    check_eq(rt, first, [Some(258), Some(772)]);
}

#[test]
fn a_vector_grows(rt: HostRuntime) {
    let (alloc, rt) = (rt.alloc(), &rt);
    let mut file: Vec<u8> = Vec::new(alloc);
    check_value(rt, append(&mut file, Value(1u8), LE), ());
    check_value(rt, append(&mut file, (Value(0x0302u16), "é"), LE), ());
    check_value(rt, append(&mut file, ("a", Value(10u8)), LE), ());
    check_eq(
        rt,
        file.as_slice(),
        [1, 2, 3, 0xc3, 0xa9, b'a', 10].as_slice(),
    );
}

#[test]
fn a_tag_before_a_value(rt: HostRuntime) {
    let rt = &rt;
    let mut file = [0xffu8; 4];
    let size: Result<usize> = write_tagged(&mut file, 7u16, 258u16, BE);
    check_value(rt, size, 4);
    check_eq(rt, file, [0, 7, 1, 2]);
}
